//! The tests of `pg_board`, which stand apart from it so that it is not proved again with them.
#![tactic(auto)]

#[cfg(test)]
mod calls;
#[cfg(test)]
mod cases;
#[cfg(test)]
mod changes;
#[cfg(test)]
mod runs;
