//! The locks on the rows of one table: who holds which row at which strength, and what each
//! transaction has locked.
#![tactic(auto)]

mod locks;
mod notes;
mod rows;

pub use locks::Locks;

#[cfg(test)]
mod tests;
