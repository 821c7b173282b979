//! The reading of a script: its bytes are read whole, or refused at one line for one reason.
#![tactic(auto)]

mod add;
mod draft;
mod fault;
mod heading;
mod laws;
mod lines;
mod read;
mod reasons;

pub use fault::{Reason, ScriptFault};
pub use laws::{bytes_are_refused_once, bytes_say_one_script, no_script_is_refused};
pub use read::read_script;
