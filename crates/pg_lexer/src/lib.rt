//! The tokens of a line of statements, with their places.
#![tactic(auto)]

mod keyword;
mod laws;
mod number;
mod quote;
mod read;
mod sign;
mod text;
mod token;
mod word;

pub use keyword::{Keyword, keyword_of};
pub use laws::{
    at_most_one_reading, each_line_is_read, keywords_are_their_spellings, no_more_tokens_than_bytes,
};
pub use read::{LexFault, Lexed, read_front, read_tokens};
pub use sign::Sign;
pub use text::{NameText, QuotedText};
pub use token::{BadPlace, Span, Spanned, Token, Tokens};

#[cfg(test)]
mod tests;
