//! Names, and lists of names and of named things that differ in their names: their order is kept,
//! and each is found by its name at once.
#![tactic(auto)]

mod name;
mod named;
mod named_items;
mod names;

pub use name::Name;
pub use named::Named;
pub use named_items::NamedItems;
pub use names::Names;

#[cfg(test)]
mod tests;
