//! What a line says.
ghost use Rattle.std.specs.Prelude.{◌≡◌, ◌+◌, ◌∷◌, [], ◌≤◌, ◌<◌, ◌^◌, ◌&&◌, IfOk, List, codes, length, ℕ};
ghost use Rattle.pg_line.specs.Words.{is_the, word_of, words_from};
ghost use Rattle.pg_line.specs.Forms.{IsFormBy, IsFormOf, command as command_form, label_of as label_form, pause_at, statement as statement_form};

use crate::form::LineForm;
use crate::label::label_of;
use crate::session::session_named;
use crate::statement::statement_at;
use crate::word::{Piece, next_word};
use std::alloc::{AllocError, Global};

/// What a line says whose first word has a colon behind it; what stands behind the colon begins at
/// `from`.
#[tactic(auto, using(crate::proofs::Forms::given_says))]
fn statement(
    alloc: Global,
    version: u32,
    line: &[u8],
    word: Piece<'_>,
    from: u32,
) -> Result<LineForm, AllocError>
    requires short { length line.now ≤ 1048576 }
    requires after_start { 1 ≤ from }
    requires before_end { from ≤ length line.now + 1 }
    ensures { IfOk result (IsFormBy version line.now (statement_form (word_of word.entry) from)) }
{
    if word.bytes == b"setup".as_slice() {
        let outcome = statement_at(alloc, version, line, from)?;
        return Ok(LineForm::Setup(outcome));
    }
    let Some(session) = session_named(alloc, word)? else {
        return Ok(LineForm::Unknown);
    };
    let outcome = statement_at(alloc, version, line, from)?;
    Ok(LineForm::Given(session, outcome))
}

/// What a line of two words says.
#[tactic(auto, using(crate::proofs::Forms::go_says, crate::proofs::Forms::cut_says))]
fn pair(alloc: Global, verb: Piece<'_>, word: Piece<'_>) -> Result<LineForm, AllocError>
    ensures { (version : ℕ) (line : List ℕ) → IfOk result (IsFormBy version line
        (command_form (word_of verb.entry ∷ word_of word.entry ∷ []))) }
{
    if verb.bytes == b"go".as_slice() {
        let Some(session) = session_named(alloc, word)? else {
            return Ok(LineForm::Unknown);
        };
        return Ok(LineForm::Go(session));
    }
    if verb.bytes == b"cut".as_slice() {
        let Some(session) = session_named(alloc, word)? else {
            return Ok(LineForm::Unknown);
        };
        return Ok(LineForm::Cut(session));
    }
    Ok(LineForm::Unknown)
}

/// Whether these are the words `pause` and `at`.
fn is_pause(verb: Piece<'_>, link: Piece<'_>) -> bool
    ensures { result
        ≡ (is_the (codes "pause") (word_of verb.entry) && is_the (codes "at") (word_of link.entry)) }
{
    verb.bytes == b"pause".as_slice() && link.bytes == b"at".as_slice()
}

/// What a line says that tells a session to pause.
fn pause(alloc: Global, word: Piece<'_>, label: Piece<'_>) -> Result<LineForm, AllocError>
    ensures { (version : ℕ) (line : List ℕ) → IfOk result (IsFormBy version line
        (pause_at (word_of word.entry) (label_form label.entry.bytes.now))) }
{
    let Some(label) = label_of(label.bytes) else {
        return Ok(LineForm::Unknown);
    };
    let Some(session) = session_named(alloc, word)? else {
        return Ok(LineForm::Unknown);
    };
    Ok(LineForm::Pause(session, label))
}

/// What a line says whose second word is no colon.
fn command(
    alloc: Global,
    verb: Piece<'_>,
    word: Piece<'_>,
    rest: Piece<'_>,
) -> Result<LineForm, AllocError>
    requires { rest.place + length rest.bytes.now < 2 ^ 32 }
    ensures { (version : ℕ) (line : List ℕ) → IfOk result (IsFormBy version line
        (command_form (word_of verb.entry ∷ word_of word.entry
        ∷ words_from rest.entry.place rest.entry.bytes.now))) }
{
    let Some((link, rest)) = next_word(rest.bytes, rest.place) else {
        return pair(alloc, verb, word);
    };
    let Some((label, rest)) = next_word(rest.bytes, rest.place) else {
        return Ok(LineForm::Unknown);
    };
    if next_word(rest.bytes, rest.place).is_some() {
        return Ok(LineForm::Unknown);
    }
    if !is_pause(verb, link) {
        return Ok(LineForm::Unknown);
    }
    pause(alloc, word, label)
}

/// What a line of a script says, behind the header line, in a version of the language; the line
/// stands here without its LF and CR. No form is answered for want of memory alone.
pub fn read_line(alloc: Global, version: u32, line: &[u8]) -> Result<LineForm, AllocError>
    requires { length line.now ≤ 1048576 }
    ensures { IfOk result (IsFormOf version line.now) }
{
    let Some((first, behind)) = next_word(line, 1) else {
        return Ok(LineForm::Comment);
    };
    if first.bytes == b"#".as_slice() {
        return Ok(LineForm::Comment);
    }
    let Some((second, rest)) = next_word(behind.bytes, behind.place) else {
        return Ok(LineForm::Unknown);
    };
    if second.bytes == b":".as_slice() {
        return statement(alloc, version, line, first, second.place + 1);
    }
    command(alloc, first, second, rest)
}
