//! MERGE and its WHEN clauses.
ghost use Rattle.pg_grammar.specs.Answers.{Reads};
ghost use Rattle.pg_grammar.specs.Parts.{seen};
ghost use Rattle.pg_lexer.specs.declared.keyword.Keyword.TheVariants.{And};
ghost use Rattle.pg_parse_expr.specs.Grammar.{expr as expr_rule};
ghost use Rattle.pg_parse_stmt.specs.Ranks.{behind};
ghost use Rattle.pg_parse_stmt.specs.Behind.{any, behind_guard, behind_sets, behind_statement};
ghost use Rattle.pg_parse_stmt.specs.Forms.{word, optional};
ghost use Rattle.pg_parse_stmt.specs.Grammar.{change_behind, change, addition_insert, addition_nothing, addition, then, by_whom, not_matched, when_behind, whens, merge};
ghost use Rattle.pg_parse_stmt.specs.declared.tree.When.TheVariants.{Matched, NotBySource, NotByTarget};

use crate::front::Read;
use crate::insert::columns;
use crate::list::{expr, list, list_in_brackets, optional};
use crate::select::returning;
use crate::source::{FromSource, table_ref};
use crate::tree::{Addition, Assignment, Change, Merge, Source, When};
use crate::word::{ChangeWord, expect};
use pg_grammar::{Fault, Part};
use pg_lexer::{Keyword, Token};
use pg_lists::Items;
use pg_parse_expr::{ExprTree, accept_word};
use std::alloc::Global;

/// `UPDATE SET sets | DELETE | DO NOTHING`, behind its first word.
#[tactic(auto, using(crate::proofs::Changes::changes), unfolding(crate::specs::Grammar::sets, crate::specs::Behind::behind_sets))]
fn change_behind<'a>(alloc: Global, tokens: &'a [Token], word: ChangeWord) -> Read<'a, Change>
    ensures { Reads (change_behind word) behind_sets tokens.now (seen result) }
{
    match word {
        ChangeWord::Update => match accept_word(tokens, Keyword::Set) {
            Some(rest) => match list::<Assignment>(alloc, rest) {
                Ok(Part { value, rest }) => Ok(Part {
                    value: Change::Update(value),
                    rest,
                }),
                Err(fault) => Err(fault),
            },
            None => Err(Fault::Syntax(tokens.len())),
        },
        ChangeWord::Delete => Ok(Part {
            value: Change::Delete,
            rest: tokens,
        }),
        ChangeWord::Do => match accept_word(tokens, Keyword::Nothing) {
            Some(rest) => Ok(Part {
                value: Change::Nothing,
                rest,
            }),
            None => Err(Fault::Syntax(tokens.len())),
        },
    }
}

/// `UPDATE SET sets | DELETE | DO NOTHING`
#[tactic(auto, using(crate::proofs::Changes::change_read, crate::proofs::Changes::change_failed))]
fn change<'a>(alloc: Global, tokens: &'a [Token]) -> Read<'a, Change>
    ensures { Reads change behind_sets tokens.now (seen result) }
{
    let Part { value: word, rest } = expect::<ChangeWord>(tokens)?;
    change_behind(alloc, rest, word)
}

/// `INSERT ["(" names ")"] VALUES tuple`
fn addition_insert<'a>(alloc: Global, tokens: &'a [Token]) -> Read<'a, Addition>
    ensures { Reads addition_insert any tokens.now (seen result) }
{
    let Some(rest) = accept_word(tokens, Keyword::Insert) else {
        return Err(Fault::Syntax(tokens.len()));
    };
    let columns = columns(alloc, rest)?;
    let Some(rest) = accept_word(columns.rest, Keyword::Values) else {
        return Err(Fault::Syntax(columns.rest.len()));
    };
    let Part { value, rest } = list_in_brackets::<ExprTree>(alloc, rest)?;
    Ok(Part {
        value: Addition::Insert(columns.value, value),
        rest,
    })
}

/// `DO NOTHING`
#[tactic(auto, using(crate::proofs::Changes::addition_nothing_no_do, crate::proofs::Changes::addition_nothing_no_word, crate::proofs::Changes::addition_nothing_whole))]
fn addition_nothing(tokens: &[Token]) -> Read<'_, Addition>
    ensures { Reads addition_nothing any tokens.now (seen result) }
{
    match accept_word(tokens, Keyword::Do) {
        Some(behind) => match accept_word(behind, Keyword::Nothing) {
            Some(rest) => Ok(Part {
                value: Addition::Nothing,
                rest,
            }),
            None => Err(Fault::Syntax(behind.len())),
        },
        None => Err(Fault::Syntax(tokens.len())),
    }
}

/// `INSERT ["(" names ")"] VALUES tuple | DO NOTHING`
#[tactic(auto, using(crate::proofs::Changes::addition_left, crate::proofs::Changes::addition_right))]
fn addition<'a>(alloc: Global, tokens: &'a [Token]) -> Read<'a, Addition>
    ensures { Reads addition any tokens.now (seen result) }
{
    match accept_word(tokens, Keyword::Insert) {
        Some(_) => addition_insert(alloc, tokens),
        None => addition_nothing(tokens),
    }
}

/// `[AND expr]`
#[tactic(auto, unfolding(crate::specs::Behind::behind_guard, crate::specs::Behind::behind_optional))]
fn guard<'a>(alloc: Global, tokens: &'a [Token]) -> Read<'a, Option<ExprTree>>
    ensures { Reads (optional (word And expr_rule)) behind_guard tokens.now (seen result) }
{
    optional::<ExprTree>(alloc, tokens, Keyword::And)
}

/// `[AND expr] THEN` and a change of a matched row.
fn matched<'a>(alloc: Global, tokens: &'a [Token]) -> Read<'a, When>
    ensures { Reads (then change Matched) behind_sets tokens.now (seen result) }
{
    let condition = guard(alloc, tokens)?;
    let Some(rest) = accept_word(condition.rest, Keyword::Then) else {
        return Err(Fault::Syntax(condition.rest.len()));
    };
    let Part { value, rest } = change(alloc, rest)?;
    Ok(Part {
        value: When::Matched(condition.value, value),
        rest,
    })
}

/// `[AND expr] THEN` and a change of a row that no source row matches.
fn not_by_source<'a>(alloc: Global, tokens: &'a [Token]) -> Read<'a, When>
    ensures { Reads (then change NotBySource) behind_sets tokens.now (seen result) }
{
    let condition = guard(alloc, tokens)?;
    let Some(rest) = accept_word(condition.rest, Keyword::Then) else {
        return Err(Fault::Syntax(condition.rest.len()));
    };
    let Part { value, rest } = change(alloc, rest)?;
    Ok(Part {
        value: When::NotBySource(condition.value, value),
        rest,
    })
}

/// `[AND expr] THEN` and an addition.
fn not_by_target<'a>(alloc: Global, tokens: &'a [Token]) -> Read<'a, When>
    ensures { Reads (then addition NotByTarget) any tokens.now (seen result) }
{
    let condition = guard(alloc, tokens)?;
    let Some(rest) = accept_word(condition.rest, Keyword::Then) else {
        return Err(Fault::Syntax(condition.rest.len()));
    };
    let Part { value, rest } = addition(alloc, rest)?;
    Ok(Part {
        value: When::NotByTarget(condition.value, value),
        rest,
    })
}

/// `SOURCE | TARGET`, behind WHEN NOT MATCHED BY.
#[tactic(auto, using(crate::proofs::Merges::by_source, crate::proofs::Merges::by_target, crate::proofs::Merges::by_none))]
fn by_whom<'a>(alloc: Global, tokens: &'a [Token]) -> Read<'a, When>
    ensures { Reads by_whom behind_sets tokens.now (seen result) }
{
    match accept_word(tokens, Keyword::Source) {
        Some(rest) => not_by_source(alloc, rest),
        None => match accept_word(tokens, Keyword::Target) {
            Some(rest) => not_by_target(alloc, rest),
            None => Err(Fault::Syntax(tokens.len())),
        },
    }
}

/// What is behind WHEN NOT MATCHED.
#[tactic(auto, using(crate::proofs::Merges::not_matched_by, crate::proofs::Merges::not_matched_plain))]
fn not_matched<'a>(alloc: Global, tokens: &'a [Token]) -> Read<'a, When>
    ensures { Reads not_matched behind_sets tokens.now (seen result) }
{
    match accept_word(tokens, Keyword::By) {
        Some(rest) => by_whom(alloc, rest),
        None => not_by_target(alloc, tokens),
    }
}

/// A WHEN clause, behind WHEN.
#[tactic(auto, using(crate::proofs::Merges::when_matched, crate::proofs::Merges::when_not_matched, crate::proofs::Merges::when_no_matched, crate::proofs::Merges::when_neither))]
fn when_behind<'a>(alloc: Global, tokens: &'a [Token]) -> Read<'a, When>
    ensures { Reads when_behind behind_sets tokens.now (seen result) }
{
    match accept_word(tokens, Keyword::Matched) {
        Some(rest) => matched(alloc, rest),
        None => match accept_word(tokens, Keyword::Not) {
            Some(behind) => match accept_word(behind, Keyword::Matched) {
                Some(rest) => not_matched(alloc, rest),
                None => Err(Fault::Syntax(behind.len())),
            },
            None => Err(Fault::Syntax(tokens.len())),
        },
    }
}

/// `when {when}`
#[tactic(auto, using(crate::proofs::Merges::clauses, crate::proofs::Lists::reads_no_more))]
fn whens<'a>(alloc: Global, tokens: &'a [Token]) -> Read<'a, Items<When>>
    ensures { Reads whens (behind 14) tokens.now (seen result) }
{
    let mut clauses = Items::new(alloc);
    let behind = match accept_word(tokens, Keyword::When) {
        Some(behind) => behind,
        None => return Err(Fault::Syntax(tokens.len())),
    };
    let first = match when_behind(alloc, behind) {
        Ok(first) => first,
        Err(fault) => return Err(fault),
    };
    clauses.push(first.value)?;
    let mut rest = first.rest;
    while let Some(behind) = accept_word(rest, Keyword::When) {
        match when_behind(alloc, behind) {
            Ok(part) => {
                clauses.push(part.value)?;
                rest = part.rest;
            }
            Err(fault) => return Err(fault),
        }
    }
    Ok(Part {
        value: clauses,
        rest,
    })
}

/// `INTO name [[AS] name] USING source ON expr when {when} [returning]`, behind MERGE.
pub(crate) fn merge<'a>(alloc: Global, tokens: &'a [Token]) -> Read<'a, Merge>
    ensures { Reads merge behind_statement tokens.now (seen result) }
{
    let Some(rest) = accept_word(tokens, Keyword::Into) else {
        return Err(Fault::Syntax(tokens.len()));
    };
    let target = table_ref(alloc, rest)?;
    let Some(rest) = accept_word(target.rest, Keyword::Using) else {
        return Err(Fault::Syntax(target.rest.len()));
    };
    let source = Source::read(alloc, rest, 0)?;
    let Some(rest) = accept_word(source.rest, Keyword::On) else {
        return Err(Fault::Syntax(source.rest.len()));
    };
    let on = expr(alloc, rest)?;
    let clauses = whens(alloc, on.rest)?;
    let Part {
        value: returning,
        rest,
    } = returning(alloc, clauses.rest)?;
    Ok(Part {
        value: Merge {
            target: target.value,
            source: source.value,
            on: on.value,
            clauses: clauses.value,
            returning,
        },
        rest,
    })
}
