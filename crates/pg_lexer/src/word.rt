ghost use Rattle.std.specs.Prelude.{◌≡◌, IfOk, length, map, true};
ghost use Rattle.std.specs.Char.{to_ascii_lowercase};
ghost use Rattle.std.specs.List.{prefix_len};
ghost use Rattle.pg_lexer.specs.Bytes.{begins_word, in_word, is_name, Starts};
ghost use Rattle.pg_lexer.specs.Found.{IsFound};
ghost use Rattle.pg_lexer.specs.Keywords.{keyword_of};
ghost use Rattle.pg_lexer.specs.Lexemes.{word_token};

use crate::keyword::keyword_of;
use crate::text::NameText;
use crate::token::{BadPlace, Found, Token};
use std::alloc::{AllocError, Global};

/// The most bytes of a name.
const MAX_NAME: usize = 63;

pub(crate) fn begins_word(byte: u8) -> bool
    ensures { result ≡ begins_word byte }
{
    byte.is_ascii_alphabetic() || byte == b'_'
}

fn in_word(byte: u8) -> bool
    ensures { result ≡ in_word byte }
{
    byte.is_ascii_alphanumeric() || byte == b'_'
}

/// How many bytes of a word stand at the front.
fn word_len(bytes: &[u8]) -> usize
    ensures { result ≡ prefix_len in_word bytes.now }
{
    for (length, byte) in bytes.iter().enumerate() {
        if !in_word(*byte) {
            return length;
        }
    }
    bytes.len()
}

/// Writes a word, folded to lower case, over as many bytes.
fn fold(word: &[u8], name: &mut [u8])
    requires { length name.old ≡ length word.now }
    ensures { name.new ≡ map to_ascii_lowercase word.now }
{
    name.copy_from_slice(word);
    name.make_ascii_lowercase();
}

/// The token that a folded word is.
fn word_token(alloc: Global, name: &[u8]) -> Result<Token, AllocError>
    requires { is_name name.now ≡ true }
    ensures { IfOk result (λ token. token ≡ word_token name.now (keyword_of name.now)) }
{
    match keyword_of(name) {
        Some(keyword) => Ok(Token::Keyword(keyword)),
        None => Ok(Token::Name(NameText::from_slice(alloc, name)?)),
    }
}

/// The keyword or name at the front.
pub(crate) fn word_at(alloc: Global, bytes: &[u8], place: u32) -> Result<Found, AllocError>
    requires { Starts begins_word bytes.now }
    ensures { IfOk result (λ found. IsFound place bytes.now found) }
{
    let length = word_len(bytes);
    if length > MAX_NAME {
        return Ok(Found::Bad(BadPlace::Name(place)));
    }
    let (word, _) = bytes.split_at(length);
    let mut room = [0; MAX_NAME];
    let (name, _) = room.split_at_mut(length);
    fold(word, name);
    let token = word_token(alloc, name)?;
    Ok(Found::Token(token, length))
}
