//! A plain SELECT as a machine: it reads its tables piece by piece, makes its candidates of what it
//! has seen, and is then done, or fails with their first error.
#![tactic(auto)]

mod laws;
mod select;

pub use laws::{new_select_is_selecting, quiet_steps_are_bounded};
pub use select::Select;
