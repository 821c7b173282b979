//! The run of a stepped script on one thread.
#![tactic(auto)]

mod run;

pub use pg_board::BoardFault;
pub use run::replay;
