//! The second look at a row that was changed meanwhile: whether the condition is true of a version
//! of it, and what an UPDATE makes of that version.
#![tactic(auto)]

mod condition;
mod rows;
mod values;

pub use condition::recheck;
pub use values::new_values;
