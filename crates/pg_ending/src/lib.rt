//! Runs that end because a list of numbers falls with each step.
#![tactic(auto)]

pub mod clock;
pub mod laws;
mod order;

pub use order::is_less;

#[cfg(test)]
mod tests;
