//! The words of a line.
ghost use Rattle.std.specs.Prelude.{◌≡◌, ◌+◌, ◌∷◌, [], ◌<◌, ◌≤◌, ◌^◌, IfSome, MatchOption, false, length};
ghost use Rattle.std.specs.List.{prefix_len};
ghost use Rattle.pg_lexer.specs.Bytes.{in_word as is_in_word, is_blank as is_a_blank};
ghost use Rattle.pg_line.specs.Words.{begins_blank, word_of, words_from};

/// Some bytes of a line, and the place of the first of them.
#[derive(Clone, Copy, Drop)]
pub struct Piece<'a> {
    pub bytes: &'a [u8],
    /// Counted from 1, as places in a line are.
    pub place: u32,
}

/// Whether a byte is a tab or a space.
fn is_blank(byte: u8) -> bool
    ensures { result ≡ is_a_blank byte }
{
    byte == b'\t' || byte == b' '
}

/// Whether a byte is a letter, a digit or `_`.
pub(crate) fn in_word(byte: u8) -> bool
    ensures { result ≡ is_in_word byte }
{
    byte.is_ascii_alphanumeric() || byte == b'_'
}

/// How many letters, digits and `_` stand at the front.
fn word_len(bytes: &[u8]) -> usize
    ensures len { result ≡ prefix_len is_in_word bytes.now }
    ensures within { result ≤ length bytes.now }
{
    for (at, byte) in bytes.iter().enumerate() {
        if !in_word(*byte) {
            return at;
        }
    }
    bytes.len()
}

/// What stands behind the tabs and spaces at the front.
fn trimmed(bytes: &[u8], place: u32) -> (&[u8], u32)
    requires { place + length bytes.now < 2 ^ 32 }
    ensures words { words_from result.1 result.0.now ≡ words_from place bytes.now }
    ensures first { begins_blank result.0.now ≡ false }
    ensures room { result.1 + length result.0.now ≡ place + length bytes.now }
    ensures before { place ≤ result.1 }
{
    let mut rest = bytes;
    let mut at = place;
    while let [first, behind @ ..] = rest {
        if !is_blank(*first) {
            return (rest, at);
        }
        rest = behind;
        at += 1;
    }
    (rest, at)
}

/// The first word and what stands behind it, or `None` where there is no word.
#[tactic(auto, using(crate::proofs::Words::words_from_first))]
pub fn next_word(bytes: &[u8], place: u32) -> Option<(Piece<'_>, Piece<'_>)>
    requires { place + length bytes.now < 2 ^ 32 }
    ensures words { MatchOption result (words_from place bytes.now ≡ [])
        (λ next. words_from place bytes.now
        ≡ word_of next.0 ∷ words_from next.1.place next.1.bytes.now) }
    ensures room { IfSome result
        (λ next. next.1.place + length next.1.bytes.now ≡ place + length bytes.now) }
    ensures before { IfSome result (λ next. place ≤ next.0.place) }
    ensures within { IfSome result (λ next. next.0.place < next.1.place) }
{
    let (rest, at) = trimmed(bytes, place);
    if rest.is_empty() {
        return None;
    }
    let len = word_len(rest).max(1);
    let (text, behind) = rest.split_at(len);
    let word = Piece {
        bytes: text,
        place: at,
    };
    let rest = Piece {
        bytes: behind,
        place: at + len as u32,
    };
    Some((word, rest))
}
