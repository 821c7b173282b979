//! An expression among the tokens of a line, with places.
ghost use Rattle.std.specs.Prelude.{◌≡◌, ◌≤◌, ◌<◌, ◌^◌, length};
ghost use Rattle.pg_parse_expr.specs.Places.{place_of, placed as placed_fault, IsParsed};

use crate::parse::expr;
use crate::tree::ExprTree;
use pg_grammar::Fault;
use pg_lexer::{Span, Tokens};
use std::alloc::Global;

/// Why tokens are no expression, or no statement; places count the line's bytes from 1.
#[derive(Clone, Copy, Debug, PartialEq, Eq)]
pub enum ParseFault {
    /// The tokens before this place begin one, those up to it do not.
    Syntax(u32),
    /// The token here makes a path of 65 nodes.
    Depth(u32),
    /// The source that begins here is the ninth of its statement; no expression has one.
    Items(u32),
    /// Memory ran out.
    Memory,
}

/// The place of the first of the last `left` tokens, or of the line's end.
fn place(spans: &[Span], end: u32, left: usize) -> u32
    ensures { result ≡ place_of spans.now end left }
{
    let (_, behind) = spans.split_at(spans.len().saturating_sub(left));
    match behind.split_first() {
        Some((span, _)) => span.start,
        None => end,
    }
}

/// A fault with its place in the line; `spans` are those of all tokens, and `end` is the place one past
/// the line.
pub fn placed(spans: &[Span], end: u32, fault: Fault) -> ParseFault
    ensures { result ≡ placed_fault spans.now end fault }
{
    match fault {
        Fault::Syntax(left) => ParseFault::Syntax(place(spans, end, left)),
        Fault::Deep(left) => ParseFault::Depth(place(spans, end, left)),
        Fault::Many(left) => ParseFault::Items(place(spans, end, left)),
        Fault::Memory => ParseFault::Memory,
    }
}

/// The expression that begins at a token, and the number of the token behind it; tokens are counted
/// from 0, and `end` is the place one past the line.
#[tactic(auto, using(crate::proofs::Wholes::parsed_ok, crate::proofs::Wholes::parsed_err))]
pub fn parse_expr(
    alloc: Global,
    tokens: &Tokens,
    from: u32,
    end: u32,
) -> Result<(ExprTree, u32), ParseFault>
    requires start { from ≤ length tokens.now }
    requires short { length tokens.now < 2 ^ 32 }
    ensures { IsParsed tokens.now from end result }
{
    let all = tokens.tokens();
    let (_, behind) = all.split_at(from as usize);
    match expr(alloc, behind, 0) {
        Ok(part) => Ok((part.value, (all.len() - part.rest.len()) as u32)),
        Err(fault) => Err(placed(tokens.spans(), end, fault)),
    }
}
