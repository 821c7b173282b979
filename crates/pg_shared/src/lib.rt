//! Values with several owners, which contracts see as the values.
#![tactic(auto)]

mod shared;
#[cfg(test)]
mod tests;

pub use shared::Shared;
