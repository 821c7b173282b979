//! The tests of `pg_plans`, which stand apart from it so that it is not proved again with them.
#![tactic(auto)]

#[cfg(test)]
mod cases;
#[cfg(test)]
mod sources;
#[cfg(test)]
mod tests;
