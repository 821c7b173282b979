//! What a line of a script says, and the words that it is made of.
#![tactic(auto)]

mod form;
mod label;
mod laws;
mod read;
mod session;
mod statement;
mod word;

pub use form::{Label, LineForm, PlaceFault, SessionName};
pub use laws::{each_form_is_within, each_line_has_at_most_one_form};
pub use read::read_line;
pub use word::{Piece, next_word};
