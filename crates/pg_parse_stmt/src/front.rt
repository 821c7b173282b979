//! What stands first.
ghost use Rattle.std.specs.Prelude.{◌≡◌, IfOk};
ghost use Rattle.pg_grammar.specs.Answers.{Reads, next};
ghost use Rattle.pg_grammar.specs.Languages.{one};
ghost use Rattle.pg_grammar.specs.Parts.{seen};
ghost use Rattle.pg_parse_stmt.specs.Behind.{any};
ghost use Rattle.pg_parse_stmt.specs.Grammar.{name};
ghost use Rattle.pg_parse_expr.specs.Behind.{has};
ghost use Rattle.pg_parse_expr.specs.Operators.{name_of};
ghost use Rattle.pg_parse_stmt.specs.Words.{bare_name_of, integer_of};

use pg_grammar::{Fault, Part};
use pg_lexer::{NameText, Token};
use pg_parse_expr::name_of;
use std::alloc::{AllocError, Global};

/// What was read, with the tokens behind it.
pub(crate) type Read<'a, V> = Result<Part<'a, Token, V>, Fault>;

/// The name that a token is, if it is no reserved word.
#[tactic(auto, unfolding(crate::specs::Words::bare_name_of))]
fn bare_name_of(alloc: Global, token: &Token) -> Result<Option<NameText>, AllocError>
    ensures { IfOk result (λ name. name ≡ bare_name_of token.now) }
{
    match token {
        Token::Name(name) => Ok(Some(name.copy(alloc)?)),
        _ => Ok(None),
    }
}

/// The number that a token is, if it is one.
#[tactic(auto, unfolding(crate::specs::Words::integer_of))]
fn integer_of(token: &Token) -> Option<u64>
    ensures { result ≡ integer_of token.now }
{
    match token {
        Token::Integer(number) => Some(*number),
        _ => None,
    }
}

/// Whether a name stands first.
#[tactic(auto, unfolding(pg_parse_expr::specs::Behind::has, pg_parse_expr::specs::Operators::name_of))]
pub(crate) fn begins_name(tokens: &[Token]) -> bool
    ensures { result ≡ has name_of (next tokens.now) }
{
    match tokens.first() {
        Some(Token::Name(_)) => true,
        Some(Token::Keyword(word)) => word.may_be_name(),
        _ => false,
    }
}

/// A name, which has to stand first.
#[tactic(auto, using(crate::proofs::Exits::name_read, crate::proofs::Exits::no_name, crate::proofs::Exits::no_name_at_end))]
pub(crate) fn name<'a>(alloc: Global, tokens: &'a [Token]) -> Read<'a, NameText>
    ensures { Reads name any tokens.now (seen result) }
{
    match tokens.split_first() {
        Some((first, rest)) => match name_of(alloc, first)? {
            Some(value) => Ok(Part { value, rest }),
            None => Err(Fault::Syntax(tokens.len())),
        },
        None => Err(Fault::Syntax(tokens.len())),
    }
}

/// A name that is no reserved word, which has to stand first.
#[tactic(auto, using(crate::proofs::Exits::bare_name_read, crate::proofs::Exits::no_bare_name, crate::proofs::Exits::no_bare_name_at_end))]
pub(crate) fn bare_name<'a>(alloc: Global, tokens: &'a [Token]) -> Read<'a, NameText>
    ensures { Reads (one bare_name_of) any tokens.now (seen result) }
{
    match tokens.split_first() {
        Some((first, rest)) => match bare_name_of(alloc, first)? {
            Some(value) => Ok(Part { value, rest }),
            None => Err(Fault::Syntax(tokens.len())),
        },
        None => Err(Fault::Syntax(tokens.len())),
    }
}

/// An integer literal, which has to stand first.
#[tactic(auto, using(crate::proofs::Exits::integer_read, crate::proofs::Exits::no_integer, crate::proofs::Exits::no_integer_at_end))]
pub(crate) fn integer<'a>(tokens: &'a [Token]) -> Read<'a, u64>
    ensures { Reads (one integer_of) any tokens.now (seen result) }
{
    match tokens.split_first() {
        Some((first, rest)) => match integer_of(first) {
            Some(value) => Ok(Part { value, rest }),
            None => Err(Fault::Syntax(tokens.len())),
        },
        None => Err(Fault::Syntax(tokens.len())),
    }
}
