//! The tests of `pg_insert`, `pg_select` and `pg_scans`, which stand apart from these so that they
//! are not proved again with them.
#![tactic(auto)]

#[cfg(test)]
mod tests;
