//! Names and kinds: what an expression may name, and the expression with columns in place of its
//! names, with its kind, or its first error.
#![tactic(auto)]

mod expression;
mod fault;
mod kinds;
mod name;
mod scope;

pub use expression::{resolve, resolve_condition};
pub use fault::AnalyseFault;
pub use kinds::may_be_stored;
pub use name::{name_of, number};
pub use scope::{Known, Scope};
