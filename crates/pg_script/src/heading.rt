//! The first line of a script.
ghost use Rattle.std.specs.Prelude.{◌≡◌, ◌≤◌, ◌∷◌, [], length};
ghost use Rattle.pg_line.specs.Words.{word_of};
ghost use Rattle.pg_script.specs.Headings.{mode_of as mode_spelled, mode_in};

use pg_line::{Piece, next_word};
use pg_model::Mode;

/// The mode that a word names, if it names one.
fn mode_of(word: Piece<'_>) -> Option<Mode>
    ensures { result ≡ mode_spelled (word_of word.entry) }
{
    if word.bytes == b"stepped".as_slice() {
        Some(Mode::Stepped)
    } else if word.bytes == b"free".as_slice() {
        Some(Mode::Free)
    } else {
        None
    }
}

/// The mode of a script with this first line, or `None` where the line is no header.
pub(crate) fn read_heading(line: &[u8]) -> Option<Mode>
    requires { length line.now ≤ 1048576 }
    ensures { result ≡ mode_in line.now }
{
    let (rc, rest) = next_word(line, 1)?;
    let (version, rest) = next_word(rest.bytes, rest.place)?;
    let (mode, rest) = next_word(rest.bytes, rest.place)?;
    if next_word(rest.bytes, rest.place).is_some() {
        return None;
    }
    if rc.bytes != b"rc".as_slice() || version.bytes != b"1".as_slice() {
        return None;
    }
    mode_of(mode)
}
