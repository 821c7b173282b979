ghost use Rattle.std.specs.Prelude.{◌≡◌, ◌+◌, ◌^◌, ◌<◌, ◌==◌, not, length, position, IfOk, MatchOption};
ghost use Rattle.pg_lexer.specs.Bytes.{is_printed, Starts};
ghost use Rattle.pg_lexer.specs.Found.{IsFound, IsEnded, IsUnended, EndsText, Writes};

use crate::text::QuotedText;
use crate::token::{BadPlace, Found, Token};
use std::alloc::{AllocError, Global};

const QUOTE: u8 = b'\'';

/// The most bytes of a text's value.
const MAX_TEXT: usize = 4096;

fn is_printed(byte: u8) -> bool
    ensures { result ≡ is_printed byte }
{
    (0x20..=0x7e).contains(&byte)
}

/// The place of the first byte that is not printed, from 0.
fn first_unprinted(bytes: &[u8]) -> Option<usize>
    ensures { result ≡ position (λ b. not (is_printed b)) bytes.now }
{
    bytes.iter().position(|byte| !is_printed(*byte))
}

/// The next byte of a text's value and how many bytes write it; `None` where the closing quote
/// or the end of the line comes next.
fn next_byte(rest: &[u8]) -> Option<(u8, usize)>
    ensures { MatchOption result (EndsText rest.now) (λ next. Writes rest.now next.0 next.1) }
{
    let (first, after) = rest.split_first()?;
    if *first != QUOTE {
        return Some((*first, 1));
    }
    let (second, _) = after.split_first()?;
    if *second == QUOTE {
        Some((*first, 2))
    } else {
        None
    }
}

/// A text's value, and how many bytes write it behind its opening quote.
#[derive(Drop)]
struct Written {
    value: Vec<u8>,
    length: usize,
}

/// The text whose opening quote stands before the bytes; `None` where it does not end.
fn body(alloc: Global, bytes: &[u8]) -> Result<Option<Written>, AllocError>
    ensures { IfOk result (λ found.
        MatchOption found (IsUnended bytes.now) (λ text. IsEnded bytes.now text.value.items text.length)) }
{
    let mut value = Vec::new(alloc);
    let mut rest = bytes;
    while let Some((byte, written)) = next_byte(rest) {
        value.push(byte)?;
        rest = rest.split_at(written).1;
    }
    if rest.is_empty() {
        return Ok(None);
    }
    let length = bytes.len() - rest.len() + 1;
    Ok(Some(Written { value, length }))
}

/// The text literal at the front.
pub(crate) fn text_at(alloc: Global, bytes: &[u8], place: u32) -> Result<Found, AllocError>
    requires quote { Starts (λ b. b == 39) bytes.now }
    requires room { place + length bytes.now < 2 ^ 32 }
    ensures { IfOk result (λ found. IsFound place bytes.now found) }
{
    let (_, behind) = bytes.split_at(1);
    let Some(Written { value, length }) = body(alloc, behind)? else {
        return Ok(Found::Bad(BadPlace::Literal(place)));
    };
    if value.len() > MAX_TEXT {
        return Ok(Found::Bad(BadPlace::Literal(place)));
    }
    let (written, _) = bytes.split_at(length + 1);
    match first_unprinted(written) {
        Some(before) => Ok(Found::Bad(BadPlace::Byte(place + before as u32))),
        None => Ok(Found::Token(Token::Quoted(QuotedText::new(value)), length + 1)),
    }
}
