//! The tests of `pg_analyse`, which stand apart from it so that it is not proved again with them.
#![tactic(auto)]

#[cfg(test)]
mod tests;
