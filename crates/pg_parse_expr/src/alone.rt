//! An expression that is one literal, with a comma or a closing bracket behind it, as those of
//! VALUES mostly are.
ghost use Rattle.std.specs.Prelude.{IfOk, IfSome, IsTrue};
ghost use Rattle.pg_grammar.specs.Answers.{next};
ghost use Rattle.pg_grammar.specs.Languages.{Took};
ghost use Rattle.pg_parse_expr.specs.Behind.{EndsItem};
ghost use Rattle.pg_parse_expr.specs.Operators.{literal_of};

use crate::front::{accept_sign, literal};
use crate::tree::ExprTree;
use pg_grammar::Part;
use pg_lexer::{Sign, Token};
use std::alloc::{AllocError, Global};

/// Whether a comma or a closing bracket stands first.
fn ends_item(tokens: &[Token]) -> bool
    ensures { IsTrue result → EndsItem (next tokens.now) }
{
    accept_sign(tokens, Sign::Comma).is_some() || accept_sign(tokens, Sign::Close).is_some()
}

/// The literal that stands first, where a comma or a closing bracket stands behind it.
pub(crate) fn lone_literal<'a>(
    alloc: Global,
    tokens: &'a [Token],
) -> Result<Option<Part<'a, Token, ExprTree>>, AllocError>
    ensures { IfOk result (λ found. IfSome found (λ part.
        Took literal_of tokens.now part.value part.rest.now
        × EndsItem (next part.rest.now))) }
{
    match tokens {
        [_, behind @ ..] if ends_item(behind) => literal(alloc, tokens),
        _ => Ok(None),
    }
}
