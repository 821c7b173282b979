//! The tests of `pg_parse_stmt`, which stand apart from it so that it is not proved again with them.
#![tactic(auto)]

#[cfg(test)]
mod shown;
#[cfg(test)]
mod tests;
