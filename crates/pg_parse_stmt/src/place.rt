//! A statement among the tokens of a line, with places.
ghost use Rattle.pg_parse_stmt.specs.Places.{IsParsed};

use crate::statement::read_statement;
use crate::tree::StmtTree;
use pg_lexer::Tokens;
use pg_parse_expr::{ParseFault, placed};
use std::alloc::Global;

/// The statement that the tokens of a line are, in a version of the language: 1 is the only one. `end` is the place one
/// past the line.
#[tactic(auto, using(crate::proofs::Wholes::parsed_ok, crate::proofs::Wholes::parsed_err))]
pub fn parse_stmt(
    alloc: Global,
    version: u32,
    tokens: &Tokens,
    end: u32,
) -> Result<StmtTree, ParseFault>
    ensures { IsParsed version tokens.now end result }
{
    match read_statement(alloc, version, tokens.tokens()) {
        Ok(tree) => Ok(tree),
        Err(fault) => Err(placed(tokens.spans(), end, fault)),
    }
}
