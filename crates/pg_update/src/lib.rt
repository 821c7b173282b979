//! An UPDATE or DELETE as a machine: it reads its tables piece by piece, and then takes up each
//! candidate, locks its row, stages the new values of that, and writes them.
#![tactic(auto)]

mod acting;
mod change;
mod holding;
mod laws;
mod look;
mod partners;

pub use change::Change;
pub use laws::{new_change_is_changing, quiet_steps_are_bounded};
