//! The names of sessions.
ghost use Rattle.std.specs.Prelude.{◌≡◌, IfOk};
ghost use Rattle.std.specs.List.{list_all};
ghost use Rattle.pg_lexer.specs.Bytes.{begins_word as begins_a_word, in_word as is_in_word, is_word as is_a_word};
ghost use Rattle.pg_line.specs.Sessions.{is_leading as is_a_leading_word, is_reserved as is_a_reserved_word, session_named as session_of_word};
ghost use Rattle.pg_line.specs.Words.{word_of};

use crate::form::SessionName;
use crate::word::{Piece, in_word};
use pg_lexer::keyword_of;
use pg_names::Name;
use std::alloc::{AllocError, Global};

/// Whether a folded word is reserved for the language, so that it is no name.
fn is_reserved(name: &[u8]) -> bool
    ensures { result ≡ is_a_reserved_word name.now }
{
    match keyword_of(name) {
        Some(keyword) => !keyword.may_be_name(),
        None => false,
    }
}

/// Whether a folded word is one of those that lines of other forms begin with.
fn is_leading(name: &[u8]) -> bool
    ensures { result ≡ is_a_leading_word name.now }
{
    name == b"setup".as_slice()
        || name == b"pause".as_slice()
        || name == b"go".as_slice()
        || name == b"cut".as_slice()
}

/// Whether a byte is a letter or `_`.
fn begins_word(byte: u8) -> bool
    ensures { result ≡ begins_a_word byte }
{
    byte.is_ascii_alphabetic() || byte == b'_'
}

/// Whether each byte is a letter, a digit or `_`.
fn are_in_word(bytes: &[u8]) -> bool
    ensures { result ≡ list_all is_in_word bytes.now }
{
    bytes.iter().all(|byte| in_word(*byte))
}

/// Whether bytes are a letter or `_`, and then letters, digits and `_`.
fn is_word(bytes: &[u8]) -> bool
    ensures { result ≡ is_a_word bytes.now }
{
    match bytes.split_first() {
        Some((first, behind)) => begins_word(*first) && are_in_word(behind),
        None => false,
    }
}

/// The session that a word names, if it names one.
#[tactic(auto, using(crate::proofs::Sessions::folded_name), unfolding(crate::specs::Sessions::session_named))]
pub(crate) fn session_named(
    alloc: Global,
    word: Piece<'_>,
) -> Result<Option<SessionName>, AllocError>
    ensures { IfOk result (λ found. found ≡ session_of_word (word_of word.entry)) }
{
    if !is_word(word.bytes) {
        return Ok(None);
    }
    let folded = word.bytes.to_ascii_lowercase(alloc)?;
    if is_reserved(folded.as_slice()) || is_leading(folded.as_slice()) {
        return Ok(None);
    }
    let name = Name::from_slice(alloc, folded.as_slice())?;
    Ok(Some(SessionName {
        name,
        place: word.place,
    }))
}
