//! The tests of `pg_table`, which stand apart from it so that it is not proved again with them.
#![tactic(auto)]

#[cfg(test)]
mod changes;
#[cfg(test)]
mod helpers;
#[cfg(test)]
mod inserts;
#[cfg(test)]
mod locked;
#[cfg(test)]
mod random;
#[cfg(test)]
mod sets;
#[cfg(test)]
mod tests;
#[cfg(test)]
mod texts;
