//! Expressions from tokens: the tree, or the first bad place.
#![tactic(auto)]

mod alone;
mod front;
mod laws;
mod leaf;
mod level;
mod parse;
mod tree;
mod whole;

pub use front::{accept_sign, accept_word, name_of, value_of};
pub use laws::{at_most_one_tree, each_tree_is_spelled, each_tree_is_within};
pub use parse::expr;
pub use tree::{ExprTree, Node};
pub use whole::{ParseFault, parse_expr, placed};

#[cfg(test)]
mod tests;
