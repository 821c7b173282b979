ghost use Rattle.std.specs.Prelude.{◌≡◌, ◌-◌, ◌^◌, min};
ghost use Rattle.std.specs.Char.{is_ascii_digit};
ghost use Rattle.std.specs.List.{prefix_len};
ghost use Rattle.pg_lexer.specs.Bytes.{Starts};
ghost use Rattle.pg_lexer.specs.Found.{IsFound};
ghost use Rattle.pg_lexer.specs.Lexemes.{number_of};

use crate::token::{BadPlace, Found, Token};

/// The largest integer literal.
const MAX_INTEGER: u64 = 9223372036854775807;

/// How many digits stand at the front.
fn digits_len(bytes: &[u8]) -> usize
    ensures { result ≡ prefix_len is_ascii_digit bytes.now }
{
    for (length, byte) in bytes.iter().enumerate() {
        if !byte.is_ascii_digit() {
            return length;
        }
    }
    bytes.len()
}

/// The number that the digits write, or the largest `u64` where it is larger than that.
#[tactic(auto, unfolding(crate::specs::Lexemes::number_of))]
fn number_of(digits: &[u8]) -> u64
    ensures { result ≡ min (number_of digits.now) (2 ^ 64 - 1) }
{
    let mut number = 0u64;
    for digit in digits {
        let value = u64::from(digit.saturating_sub(b'0'));
        number = number.saturating_mul(10).saturating_add(value);
    }
    number
}

/// The integer literal at the front.
pub(crate) fn number_at(bytes: &[u8], place: u32) -> Found
    requires { Starts is_ascii_digit bytes.now }
    ensures { IsFound place bytes.now result }
{
    let length = digits_len(bytes);
    let (digits, _) = bytes.split_at(length);
    let number = number_of(digits);
    if number > MAX_INTEGER {
        return Found::Bad(BadPlace::Literal(place));
    }
    Found::Token(Token::Integer(number), length)
}
