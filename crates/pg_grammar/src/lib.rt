//! Grammars as relations, and the contract of the functions that read them.
#![tactic(auto)]

mod fault;
mod part;

pub use fault::Fault;
pub use part::{Part, whole};

#[cfg(test)]
mod tests;
