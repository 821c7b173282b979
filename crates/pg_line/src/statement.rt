//! A statement on a line from a place on.
ghost use Rattle.std.specs.Prelude.{◌≡◌, ◌+◌, ◌≤◌, IfOk, length};
ghost use Rattle.pg_lexer.specs.declared.token.BadPlace.{BadPlace as Bad};
ghost use Rattle.pg_line.specs.Statements.{IsStatementAt, first_of as first_fault, lexical as lexical_fault, place_of as fault_place, IsPlaced};

use crate::form::PlaceFault;
use pg_lexer::{BadPlace, Lexed, read_front};
use pg_parse_expr::ParseFault;
use pg_parse_stmt::{StmtTree, parse_stmt};
use std::alloc::{AllocError, Global};

/// The place where a fault stands.
fn place_of(fault: PlaceFault) -> u32
    ensures { result ≡ fault_place fault }
{
    match fault {
        PlaceFault::Byte(place)
        | PlaceFault::Literal(place)
        | PlaceFault::LongName(place)
        | PlaceFault::Syntax(place)
        | PlaceFault::Depth(place)
        | PlaceFault::Items(place) => place,
    }
}

/// A fault of the tokens themselves.
fn lexical(bad: BadPlace) -> PlaceFault
    ensures { result ≡ lexical_fault bad }
{
    match bad {
        BadPlace::Byte(place) => PlaceFault::Byte(place),
        BadPlace::Literal(place) => PlaceFault::Literal(place),
        BadPlace::Name(place) => PlaceFault::LongName(place),
    }
}

/// A fault of the grammar, if memory has not run out.
fn grammatical(fault: ParseFault) -> Result<PlaceFault, AllocError>
    ensures { IfOk result (IsPlaced fault) }
{
    match fault {
        ParseFault::Syntax(place) => Ok(PlaceFault::Syntax(place)),
        ParseFault::Depth(place) => Ok(PlaceFault::Depth(place)),
        ParseFault::Items(place) => Ok(PlaceFault::Items(place)),
        ParseFault::Memory => Err(AllocError),
    }
}

/// Of a fault of the tokens and a fault of the grammar before it the one that counts.
fn first_of(of_tokens: PlaceFault, of_grammar: PlaceFault) -> PlaceFault
    ensures { result ≡ first_fault of_tokens of_grammar }
{
    if place_of(of_tokens) <= place_of(of_grammar) {
        of_tokens
    } else {
        of_grammar
    }
}

/// The statement that stands on a line from a place on, or the first fault.
pub(crate) fn statement_at(
    alloc: Global,
    version: u32,
    line: &[u8],
    from: u32,
) -> Result<Result<StmtTree, PlaceFault>, AllocError>
    requires short { length line.now ≤ 1048576 }
    requires after_start { 1 ≤ from }
    requires before_end { from ≤ length line.now + 1 }
    ensures { IfOk result (IsStatementAt version line.now from) }
{
    let Lexed { tokens, fault, end } = read_front(alloc, line, from)?;
    match (parse_stmt(alloc, version, &tokens, end), fault) {
        (Ok(tree), None) => Ok(Ok(tree)),
        (Ok(tree), Some(bad)) => {
            drop(tree);
            Ok(Err(lexical(bad)))
        }
        (Err(fault), None) => Ok(Err(grammatical(fault)?)),
        (Err(fault), Some(bad)) => Ok(Err(first_of(lexical(bad), grammatical(fault)?))),
    }
}
