//! The text of a run and the text of a journal.
#![tactic(auto)]

mod errors;
mod journal_lines;
mod laws;
mod pieces;
mod run_text;

pub use errors::write_error;
pub use journal_lines::{journal_text, write_entry};
pub use laws::one_entry_for_each_line;
pub use run_text::print;
