//! Lists with commas, what stands in brackets, and what may be left out with the word before it.
ghost use Rattle.pg_grammar.specs.Answers.{Reads};
ghost use Rattle.pg_grammar.specs.Parts.{seen};
ghost use Rattle.pg_parse_stmt.specs.Behind.{any, behind_list, behind_optional};
ghost use Rattle.pg_parse_stmt.specs.Forms.{list_of, in_brackets, optional, word as word_rule};
ghost use Rattle.pg_parse_expr.specs.Grammar.{expr};
ghost use Rattle.pg_parse_expr.specs.Behind.{behind_expr};

use crate::front::{Read, integer, name};
use pg_grammar::{Fault, Part};
use pg_lexer::{Keyword, NameText, Sign, Token};
use pg_lists::Items;
use pg_parse_expr::{ExprTree, accept_sign, accept_word};
use std::alloc::Global;

/// What lists with commas hold, and what may be left out with the word before it.
pub(crate) trait Listed: Drop + Sized {
    ghost use Rattle.std.specs.Prelude.{◌≡◌, Option, Some, Bool, true};
    ghost use Rattle.pg_grammar.proofs.Words.{Spelled};
    ghost use Rattle.pg_lexer.specs.declared.sign.Sign.TheVariants.{Comma, Close};
    ghost use Rattle.pg_lexer.specs.declared.token.Token.TheVariants.{Sign};
    ghost use Rattle.pg_grammar.specs.Answers.{Reads};
    ghost use Rattle.pg_grammar.specs.Languages.{Lang};
    ghost use Rattle.pg_grammar.specs.Parts.{seen};
    ghost use Rattle.pg_lexer.specs.declared.token.Token.{Token};

    ghost rule: { Lang Token Self };

    ghost follows: { Option Token → Bool };

    fn read<'a>(alloc: Global, tokens: &'a [Token]) -> Result<Part<'a, Token, Self>, Fault>
        ensures { Reads rule follows tokens.now (seen result) };

    /// It may stand before a comma.
    ghost comma: { follows (Some (Sign Comma)) ≡ true };

    /// It may stand before a closing bracket.
    ghost close: { follows (Some (Sign Close)) ≡ true };

    /// It has a spelling.
    ghost spelled: { Spelled rule };
}

/// One or more, with commas between them.
#[tactic(auto, using(crate::proofs::Lists::lists))]
pub(crate) fn list<'a, T: Listed>(alloc: Global, tokens: &'a [Token]) -> Read<'a, Items<T>>
    ensures { Reads (list_of T.rule) (behind_list T.follows) tokens.now (seen result) }
{
    let mut items = Items::new(alloc);
    let first = match T::read(alloc, tokens) {
        Ok(first) => first,
        Err(fault) => return Err(fault),
    };
    items.push(first.value)?;
    let mut rest = first.rest;
    while let Some(behind) = accept_sign(rest, Sign::Comma) {
        match T::read(alloc, behind) {
            Ok(part) => {
                items.push(part.value)?;
                rest = part.rest;
            }
            Err(fault) => return Err(fault),
        }
    }
    Ok(Part { value: items, rest })
}

/// A list in brackets.
#[tactic(auto, using(crate::proofs::Lists::brackets, crate::proofs::Lists::list_before_close, crate::specs::Spellings::spelled_list))]
pub(crate) fn list_in_brackets<'a, T: Listed>(
    alloc: Global,
    tokens: &'a [Token],
) -> Read<'a, Items<T>>
    ensures { Reads (in_brackets (list_of T.rule)) any tokens.now (seen result) }
{
    let inner = match accept_sign(tokens, Sign::Open) {
        Some(inner) => inner,
        None => return Err(Fault::Syntax(tokens.len())),
    };
    let Part { value, rest } = match list::<T>(alloc, inner) {
        Ok(part) => part,
        Err(fault) => return Err(fault),
    };
    match accept_sign(rest, Sign::Close) {
        Some(rest) => Ok(Part { value, rest }),
        None => Err(Fault::Syntax(rest.len())),
    }
}

/// A reserved word and a part, or nothing.
#[tactic(auto, using(crate::proofs::Steps::optional_read, crate::proofs::Steps::optional_failed, crate::proofs::Steps::optional_none))]
pub(crate) fn optional<'a, T: Listed>(
    alloc: Global,
    tokens: &'a [Token],
    word: Keyword,
) -> Read<'a, Option<T>>
    ensures { Reads (optional (word_rule word T.rule)) (behind_optional word T.follows) tokens.now (seen result) }
{
    match accept_word(tokens, word) {
        Some(rest) => match T::read(alloc, rest) {
            Ok(Part { value, rest }) => Ok(Part {
                value: Some(value),
                rest,
            }),
            Err(fault) => Err(fault),
        },
        None => Ok(Part {
            value: None,
            rest: tokens,
        }),
    }
}

/// An expression.
#[tactic(auto, unfolding(pg_parse_expr::specs::Grammar::expr))]
pub(crate) fn expr<'a>(alloc: Global, tokens: &'a [Token]) -> Read<'a, ExprTree>
    ensures { Reads expr behind_expr tokens.now (seen result) }
{
    pg_parse_expr::expr(alloc, tokens, 0)
}

/// An expression in brackets.
#[tactic(auto, using(crate::proofs::Lists::brackets, crate::specs::After::behind_expr_close, crate::specs::Spellings::spelled_expr))]
pub(crate) fn expr_in_brackets<'a>(alloc: Global, tokens: &'a [Token]) -> Read<'a, ExprTree>
    ensures { Reads (in_brackets expr) any tokens.now (seen result) }
{
    let inner = match accept_sign(tokens, Sign::Open) {
        Some(inner) => inner,
        None => return Err(Fault::Syntax(tokens.len())),
    };
    let Part { value, rest } = match expr(alloc, inner) {
        Ok(part) => part,
        Err(fault) => return Err(fault),
    };
    match accept_sign(rest, Sign::Close) {
        Some(rest) => Ok(Part { value, rest }),
        None => Err(Fault::Syntax(rest.len())),
    }
}

impl Listed for NameText {
    ghost use Rattle.pg_parse_stmt.specs.Spellings.{spelled_name};
    ghost use Rattle.std.proofs.Common.{refl};
    ghost use Rattle.pg_parse_stmt.specs.Behind.{any};
    ghost use Rattle.pg_parse_stmt.specs.Grammar.{name as name_rule};

    ghost rule = { name_rule };

    ghost follows = { any };

    fn read<'a>(alloc: Global, tokens: &'a [Token]) -> Read<'a, NameText> {
        name(alloc, tokens)
    }

    ghost comma = { refl };

    ghost close = { refl };

    ghost spelled = { spelled_name };
}

/// An integer literal.
impl Listed for u64 {
    ghost use Rattle.pg_parse_stmt.specs.Spellings.{spelled_integer};
    ghost use Rattle.std.proofs.Common.{refl};
    ghost use Rattle.pg_grammar.specs.Languages.{one};
    ghost use Rattle.pg_parse_stmt.specs.Behind.{any};
    ghost use Rattle.pg_parse_stmt.specs.Words.{integer_of};

    ghost rule = { one integer_of };

    ghost follows = { any };

    fn read<'a>(_alloc: Global, tokens: &'a [Token]) -> Read<'a, u64> {
        integer(tokens)
    }

    ghost comma = { refl };

    ghost close = { refl };

    ghost spelled = { spelled_integer };
}

impl Listed for ExprTree {
    ghost use Rattle.pg_parse_stmt.specs.Spellings.{spelled_expr};
    ghost use Rattle.pg_parse_stmt.specs.After.{behind_expr_comma, behind_expr_close};
    ghost use Rattle.pg_parse_expr.specs.Behind.{behind_expr};
    ghost use Rattle.pg_parse_expr.specs.Grammar.{expr as expr_rule};

    ghost rule = { expr_rule };

    ghost follows = { behind_expr };

    fn read<'a>(alloc: Global, tokens: &'a [Token]) -> Read<'a, ExprTree> {
        expr(alloc, tokens)
    }

    ghost comma = { behind_expr_comma };

    ghost close = { behind_expr_close };

    ghost spelled = { spelled_expr };
}

/// The expressions of one row.
impl Listed for Items<ExprTree> {
    ghost use Rattle.pg_parse_stmt.specs.Spellings.{spelled_tuple};
    ghost use Rattle.std.proofs.Common.{refl};
    ghost use Rattle.pg_parse_stmt.specs.Behind.{any};
    ghost use Rattle.pg_parse_stmt.specs.Grammar.{tuple};

    ghost rule = { tuple };

    ghost follows = { any };

    #[tactic(auto, unfolding(crate::specs::Grammar::tuple))]
    fn read<'a>(alloc: Global, tokens: &'a [Token]) -> Read<'a, Items<ExprTree>> {
        list_in_brackets::<ExprTree>(alloc, tokens)
    }

    ghost comma = { refl };

    ghost close = { refl };

    ghost spelled = { spelled_tuple };
}
