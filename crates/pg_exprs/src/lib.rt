//! SQL expressions over PostgreSQL's values: trees, their evaluation and their kinds.
#![tactic(auto)]

mod environment;
mod evaluate;
mod expr;
mod kinds;
mod laws;
mod operator;
mod shape;
#[cfg(test)]
mod tests;

pub use environment::Env;
pub use evaluate::{EvalFault, eval};
pub use expr::{Expr, Node};
pub use kinds::{KindFault, binary_kind, kind_of, takes_boolean, unary_kind};
pub use laws::{comparisons_mirror, evaluation_needs_no_memory, kinds_are_kept};
pub use operator::{Arithmetic, BinaryOp, Comparison, UnaryOp};
pub use shape::Shape;
