//! An INSERT with VALUES as a machine: each step is one entry, the only one that is permitted, and
//! what it does to the tables.
#![tactic(auto)]

mod insert;
mod tables;

pub use insert::Insert;
