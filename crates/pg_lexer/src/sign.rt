ghost use Rattle.std.specs.Prelude.{◌≡◌, ◌∷◌, []};
ghost use Rattle.pg_lexer.specs.Bytes.{Starts};
ghost use Rattle.pg_lexer.specs.Found.{IsFound, begins_no_other, longest_sign};
ghost use Rattle.pg_lexer.specs.Signs.{sign_of};

use crate::token::{BadPlace, Found, Token};

/// A sign: an operator or a mark of punctuation.
#[derive(Clone, Copy, Debug, PartialEq, Eq, Hash)]
pub enum Sign {
    /// `(`
    Open,
    /// `)`
    Close,
    /// `,`
    Comma,
    /// `.`
    Dot,
    /// `;`
    Semicolon,
    /// `*`
    Star,
    /// `=`
    Equal,
    /// `<>` or `!=`
    NotEqual,
    /// `<`
    Less,
    /// `<=`
    LessOrEqual,
    /// `>`
    Greater,
    /// `>=`
    GreaterOrEqual,
    /// `||`
    Concat,
    /// `+`
    Plus,
    /// `-`
    Minus,
    /// `/`
    Slash,
    /// `%`
    Percent,
}

/// The sign of one byte.
#[tactic(auto, unfolding(crate::specs::Signs::sign_of, crate::specs::Signs::signs))]
fn single_sign(byte: u8) -> Option<Sign>
    ensures { result ≡ sign_of (byte ∷ []) }
{
    match byte {
        b'(' => Some(Sign::Open),
        b')' => Some(Sign::Close),
        b',' => Some(Sign::Comma),
        b'.' => Some(Sign::Dot),
        b';' => Some(Sign::Semicolon),
        b'*' => Some(Sign::Star),
        b'=' => Some(Sign::Equal),
        b'<' => Some(Sign::Less),
        b'>' => Some(Sign::Greater),
        b'+' => Some(Sign::Plus),
        b'-' => Some(Sign::Minus),
        b'/' => Some(Sign::Slash),
        b'%' => Some(Sign::Percent),
        _ => None,
    }
}

/// The sign of two bytes.
#[tactic(auto, unfolding(crate::specs::Signs::sign_of, crate::specs::Signs::signs))]
fn double_sign(first: u8, second: u8) -> Option<Sign>
    ensures { result ≡ sign_of (first ∷ second ∷ []) }
{
    match (first, second) {
        (b'<', b'=') => Some(Sign::LessOrEqual),
        (b'<', b'>') => Some(Sign::NotEqual),
        (b'!', b'=') => Some(Sign::NotEqual),
        (b'>', b'=') => Some(Sign::GreaterOrEqual),
        (b'|', b'|') => Some(Sign::Concat),
        _ => None,
    }
}

/// The longest sign at the front, and how many bytes it has.
#[tactic(auto, unfolding(crate::specs::Found::longest_sign))]
fn longest_sign(bytes: &[u8]) -> Option<(Sign, usize)>
    ensures { result ≡ longest_sign bytes.now }
{
    let (first, rest) = bytes.split_first()?;
    if let Some(second) = rest.first() {
        if let Some(sign) = double_sign(*first, *second) {
            return Some((sign, 2));
        }
    }
    let sign = single_sign(*first)?;
    Some((sign, 1))
}

/// The sign at the front.
pub(crate) fn mark_at(bytes: &[u8], place: u32) -> Found
    requires { Starts begins_no_other bytes.now }
    ensures { IsFound place bytes.now result }
{
    match longest_sign(bytes) {
        Some((sign, length)) => Found::Token(Token::Sign(sign), length),
        None => Found::Bad(BadPlace::Byte(place)),
    }
}
