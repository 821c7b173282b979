//! The tests of `pg_script`, which stand apart from it so that it is not proved again with them.
#![tactic(auto)]

#[cfg(test)]
mod errors_page;
#[cfg(test)]
mod tests;
#[cfg(test)]
mod told;
