//! PostgreSQL's values (NULL, boolean, integer, bigint and text) and their operators.
#![tactic(auto)]

mod concatenation;
mod fitting;
mod laws;
mod number;
mod order;
#[cfg(test)]
mod tests;
mod text;
mod truth;
mod value;

pub use concatenation::{TextFault, concat};
pub use fitting::fit;
pub use laws::{
    and_mirrors_or, compare_mirrors, division_leaves_remainder, fitted_has_kind, or_mirrors_and,
};
pub use number::{NumberFault, add, divide, multiply, negate, remainder, subtract};
pub use order::compare;
pub use text::Text;
pub use truth::{and, not, or};
pub use value::{Kind, Value, Values, copy_value};
