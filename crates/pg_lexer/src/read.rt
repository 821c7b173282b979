ghost use Rattle.std.specs.Prelude.{◌≡◌, ◌+◌, ◌^◌, ◌<◌, ◌≤◌, not, length, drop, IfOk};
ghost use Rattle.std.specs.List.{prefix_len};
ghost use Rattle.pg_lexer.specs.Bytes.{is_blank, Starts};
ghost use Rattle.pg_lexer.specs.Found.{IsFound};
ghost use Rattle.pg_lexer.specs.Reading.{IsReadFrom, IsReadOrFault};

use crate::number::number_at;
use crate::quote::text_at;
use crate::sign::mark_at;
use crate::token::{BadPlace, Found, Spanned, Tokens};
use crate::word::{begins_word, word_at};
use std::alloc::{AllocError, Global};

/// How many tokens most lines have at most.
const USUAL_TOKENS: usize = 16;

/// What a line holds from a place on, as far as it is read.
#[derive(Debug, Drop)]
pub struct Lexed {
    /// The tokens before what is bad, or all of them.
    pub tokens: Tokens,
    /// What is bad about the line; nothing is read behind it.
    pub fault: Option<BadPlace>,
    /// The place one past the line.
    pub end: u32,
}

/// Why a line has no list of tokens; places count bytes from 1.
#[derive(Clone, Copy, Debug, PartialEq, Eq)]
pub enum LexFault {
    /// The byte belongs to no token.
    Byte(u32),
    /// The literal that begins here is not ended or too large.
    Literal(u32),
    /// The name that begins here is longer than 63 bytes.
    Name(u32),
    /// Memory ran out.
    Memory,
}

fn is_blank(byte: u8) -> bool
    ensures { result ≡ is_blank byte }
{
    byte == b'\t' || byte == b' '
}

/// The bytes behind the white space at the front.
fn trimmed(bytes: &[u8]) -> &[u8]
    ensures { result.now ≡ drop (prefix_len is_blank bytes.now) bytes.now }
{
    for (length, byte) in bytes.iter().enumerate() {
        if !is_blank(*byte) {
            return &bytes[length..];
        }
    }
    &[]
}

/// What stands at the front.
fn token_at(alloc: Global, bytes: &[u8], place: u32) -> Result<Found, AllocError>
    requires shown { Starts (λ b. not (is_blank b)) bytes.now }
    requires room { place + length bytes.now < 2 ^ 32 }
    ensures { IfOk result (λ found. IsFound place bytes.now found) }
{
    let first = bytes[0];
    if begins_word(first) {
        word_at(alloc, bytes, place)
    } else if first.is_ascii_digit() {
        Ok(number_at(bytes, place))
    } else if first == b'\'' {
        text_at(alloc, bytes, place)
    } else {
        Ok(mark_at(bytes, place))
    }
}

/// The tokens of a line from a place on, up to its end or to the first bad place.
pub fn read_front(alloc: Global, line: &[u8], from: u32) -> Result<Lexed, AllocError>
    requires short { length line.now ≤ 1048576 }
    requires after_start { 1 ≤ from }
    requires before_end { from ≤ length line.now + 1 }
    ensures read { IfOk result (λ lexed. IsReadFrom from line.now lexed.tokens lexed.fault) }
    ensures end { IfOk result (λ lexed. lexed.end ≡ length line.now + 1) }
    ensures few { IfOk result (λ lexed. length lexed.tokens ≤ length line.now) }
{
    let end = line.len() as u32 + 1;
    let mut tokens = Tokens::with_room(alloc, USUAL_TOKENS)?;
    let mut rest = trimmed(&line[from as usize - 1..]);
    while !rest.is_empty() {
        let start = end - rest.len() as u32;
        match token_at(alloc, rest, start)? {
            Found::Token(token, length) => {
                let end = start + length as u32;
                tokens.push(Spanned { token, start, end })?;
                rest = trimmed(&rest[length..]);
            }
            Found::Bad(bad) => {
                let fault = Some(bad);
                return Ok(Lexed { tokens, fault, end });
            }
        }
    }
    let fault = None;
    Ok(Lexed { tokens, fault, end })
}

/// The tokens of a line from a place on, or its first bad place.
pub fn read_tokens(alloc: Global, line: &[u8], from: u32) -> Result<Tokens, LexFault>
    requires short { length line.now ≤ 1048576 }
    requires after_start { 1 ≤ from }
    requires before_end { from ≤ length line.now + 1 }
    ensures read { IsReadOrFault from line.now result }
    ensures few { IfOk result (λ tokens. length tokens ≤ length line.now) }
{
    let Lexed {
        tokens,
        fault,
        end: _,
    } = read_front(alloc, line, from).map_err(|_| LexFault::Memory)?;
    match fault {
        None => Ok(tokens),
        Some(BadPlace::Byte(place)) => Err(LexFault::Byte(place)),
        Some(BadPlace::Literal(place)) => Err(LexFault::Literal(place)),
        Some(BadPlace::Name(place)) => Err(LexFault::Name(place)),
    }
}
