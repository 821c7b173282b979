//! Tables and sources.
ghost use Rattle.std.specs.Prelude.{◌≡◌, ◌+◌, ◌≤◌, IfOk, Option, not, length};
ghost use Rattle.pg_grammar.specs.Answers.{Reads, failed, next};
ghost use Rattle.pg_grammar.specs.Parts.{seen};
ghost use Rattle.pg_parse_expr.specs.Behind.{behind_expr};
ghost use Rattle.pg_parse_stmt.specs.Behind.{any, behind_condition, behind_table, behind_from, behind_joined, behind_subselect};
ghost use Rattle.pg_parse_stmt.specs.Forms.{optional};
ghost use Rattle.pg_parse_stmt.specs.Grammar.{alias, table_named, table_ref, from, from_of, alone, joined, linked, condition as condition_rule, subselect, values_source, query_source, bracketed, source, table_source, sources_in, sources_of, one_source};

use crate::front::{Read, bare_name, begins_name, name};
use crate::list::{Listed, expr, list, list_in_brackets, optional};
use crate::tree::{
    Item, Joined, QuerySource, Source, Sources, Subselect, TableRef, Tuple, ValuesSource,
};
use crate::word::{Link, accept};
use pg_grammar::{Fault, Part};
use pg_lexer::{Keyword, NameText, Sign, Token};
use pg_lists::Items;
use pg_parse_expr::{ExprTree, accept_sign, accept_word};
use std::alloc::Global;

/// The most sources of a statement.
const MAX_SOURCES: usize = 8;

/// `[AS] name`
#[tactic(auto, using(crate::proofs::Tables::alias_as, crate::proofs::Tables::alias_bare))]
pub(crate) fn alias<'a>(alloc: Global, tokens: &'a [Token]) -> Read<'a, NameText>
    ensures { Reads alias any tokens.now (seen result) }
{
    match accept_word(tokens, Keyword::As) {
        Some(rest) => name(alloc, rest),
        None => bare_name(alloc, tokens),
    }
}

/// Whether an alias begins here.
#[tactic(auto, unfolding(crate::specs::Behind::behind_table, crate::specs::Behind::begins_alias))]
fn begins_alias(tokens: &[Token]) -> bool
    ensures { result ≡ not (behind_table (next tokens.now)) }
{
    match tokens.first() {
        Some(Token::Keyword(Keyword::As)) => true,
        Some(Token::Name(_)) => true,
        _ => false,
    }
}

/// `[[AS] name]`
#[tactic(auto, using(crate::proofs::Tables::alias_written, crate::proofs::Tables::alias_failed, crate::proofs::Tables::alias_left_out))]
fn optional_alias<'a>(alloc: Global, tokens: &'a [Token]) -> Read<'a, Option<NameText>>
    ensures { Reads (optional alias) behind_table tokens.now (seen result) }
{
    if begins_alias(tokens) {
        match alias(alloc, tokens) {
            Ok(Part { value, rest }) => Ok(Part {
                value: Some(value),
                rest,
            }),
            Err(fault) => Err(fault),
        }
    } else {
        Ok(Part {
            value: None,
            rest: tokens,
        })
    }
}

/// A table whose name is read, and its alias.
#[tactic(auto, using(crate::proofs::Tables::named_read, crate::proofs::Tables::named_failed))]
fn table_named<'a>(alloc: Global, name: NameText, tokens: &'a [Token]) -> Read<'a, TableRef>
    ensures { Reads (table_named name) behind_table tokens.now (seen result) }
{
    match optional_alias(alloc, tokens) {
        Ok(Part { value: alias, rest }) => Ok(Part {
            value: TableRef { name, alias },
            rest,
        }),
        Err(fault) => Err(fault),
    }
}

/// `name [[AS] name]`
#[tactic(auto, using(crate::proofs::Tables::table_read, crate::proofs::Tables::table_failed))]
pub(crate) fn table_ref<'a>(alloc: Global, tokens: &'a [Token]) -> Read<'a, TableRef>
    ensures { Reads table_ref behind_table tokens.now (seen result) }
{
    match name(alloc, tokens) {
        Ok(Part { value, rest }) => table_named(alloc, value, rest),
        Err(fault) => Err(fault),
    }
}

/// A table as a source, where `before` sources begin before it.
#[tactic(auto, using(crate::proofs::Tables::table_fits, crate::proofs::Tables::table_fails, crate::proofs::Tables::table_ninth, crate::proofs::Tables::table_no_name))]
fn table_source<'a>(alloc: Global, tokens: &'a [Token], before: usize) -> Read<'a, TableRef>
    ensures reads { Reads (table_source before) behind_table tokens.now (seen result) }
    ensures fits { IfOk result (λ part. before + 1 ≤ 8) }
{
    if before < MAX_SOURCES {
        return match table_ref(alloc, tokens) {
            Ok(part) => Ok(part),
            Err(fault) => Err(fault),
        };
    }
    if begins_name(tokens) {
        Err(Fault::Many(tokens.len()))
    } else {
        Err(Fault::Syntax(tokens.len()))
    }
}

/// `[WHERE expr]`
#[tactic(auto, unfolding(crate::specs::Grammar::condition, crate::specs::Behind::behind_condition, crate::specs::Behind::behind_optional))]
pub(crate) fn condition<'a>(alloc: Global, tokens: &'a [Token]) -> Read<'a, Option<ExprTree>>
    ensures { Reads condition_rule behind_condition tokens.now (seen result) }
{
    optional::<ExprTree>(alloc, tokens, Keyword::Where)
}

/// What FROM and USING list: `before` sources of the statement begin before it.
pub(crate) trait FromSource: Drop + Sized {
    ghost use Rattle.std.specs.Prelude.{◌≡◌, ◌+◌, ◌≤◌, ℕ, IfOk};
    ghost use Rattle.pg_grammar.specs.Answers.{Reads};
    ghost use Rattle.pg_grammar.specs.Parts.{seen};
    ghost use Rattle.pg_grammar.proofs.Words.{Spelled};
    ghost use Rattle.pg_parse_stmt.specs.Behind.{behind_table};
    ghost use Rattle.pg_parse_stmt.specs.Grammar.{SourceRule};

    ghost rule: { SourceRule Self };

    ghost count_of: { Self → ℕ };

    /// A source at the front.
    fn read<'a>(
        alloc: Global,
        tokens: &'a [Token],
        before: usize,
    ) -> Result<Part<'a, Token, Self>, Fault>
        requires { before ≤ 8 }
        ensures reads { Reads (rule before) behind_table tokens.now (seen result) }
        ensures count { IfOk result (λ part. before + count_of part.value ≤ 8) };

    /// How many sources it holds: itself, and those inside it.
    fn count(&self) -> usize
        requires { count_of self.now ≤ 8 }
        ensures { result ≡ count_of self.now };

    /// It has a spelling.
    ghost spelled: { (n : ℕ) → Spelled (rule n) };
}

/// A source with no condition of its own.
#[tactic(auto, using(crate::proofs::Froms::alone_read, crate::proofs::Froms::alone_failed))]
fn alone<'a, S: FromSource>(
    alloc: Global,
    tokens: &'a [Token],
    before: usize,
) -> Read<'a, Joined<S>>
    requires { before ≤ 8 }
    ensures reads { Reads (alone (S.rule before)) behind_table tokens.now (seen result) }
    ensures count { IfOk result (λ part. before + S.count_of part.value.source ≤ 8) }
{
    match S::read(alloc, tokens, before) {
        Ok(
            Part {
                value: source,
                rest,
            },
        ) => Ok(Part {
            value: Joined { source, on: None },
            rest,
        }),
        Err(fault) => Err(fault),
    }
}

/// `source ON expr`
fn joined<'a, S: FromSource>(
    alloc: Global,
    tokens: &'a [Token],
    before: usize,
) -> Read<'a, Joined<S>>
    requires { before ≤ 8 }
    ensures reads { Reads (joined (S.rule before)) behind_expr tokens.now (seen result) }
    ensures count { IfOk result (λ part. before + S.count_of part.value.source ≤ 8) }
{
    let Part {
        value: source,
        rest,
    } = S::read(alloc, tokens, before)?;
    let Some(rest) = accept_word(rest, Keyword::On) else {
        return Err(Fault::Syntax(rest.len()));
    };
    let Part { value, rest } = expr(alloc, rest)?;
    Ok(Part {
        value: Joined {
            source,
            on: Some(value),
        },
        rest,
    })
}

/// A source behind its link to those before it.
#[tactic(auto, using(crate::proofs::Froms::comma_is, crate::proofs::Froms::join_is, crate::proofs::Froms::inner_is, crate::proofs::Froms::inner_no_join))]
fn linked<'a, S: FromSource>(
    alloc: Global,
    tokens: &'a [Token],
    link: Link,
    before: usize,
) -> Read<'a, Joined<S>>
    requires { before ≤ 8 }
    ensures reads { Reads (linked (S.rule before) link) behind_joined tokens.now (seen result) }
    ensures count { IfOk result (λ part. before + S.count_of part.value.source ≤ 8) }
{
    match link {
        Link::Comma => alone::<S>(alloc, tokens, before),
        Link::Join => joined::<S>(alloc, tokens, before),
        Link::Inner => match accept_word(tokens, Keyword::Join) {
            Some(rest) => joined::<S>(alloc, rest, before),
            None => Err(Fault::Syntax(tokens.len())),
        },
    }
}

/// Sources with commas and joins between them.
#[tactic(auto, using(crate::proofs::Froms::froms, crate::proofs::Lists::reads_no_more))]
pub(crate) fn from<'a, S: FromSource>(
    alloc: Global,
    tokens: &'a [Token],
    before: usize,
) -> Read<'a, Items<Joined<S>>>
    requires { before ≤ 8 }
    ensures reads { Reads (from_of S.rule S.count_of before) behind_from tokens.now (seen result) }
    ensures count { IfOk result (λ part. before + sources_in S.count_of part.value ≤ 8) }
{
    let mut sources = Items::new(alloc);
    let first = match alone::<S>(alloc, tokens, before) {
        Ok(first) => first,
        Err(fault) => return Err(fault),
    };
    let mut count = before + first.value.source.count();
    sources.push(first.value)?;
    let mut rest = first.rest;
    while let Some((link, behind)) = accept::<Link>(rest) {
        match linked::<S>(alloc, behind, link, count) {
            Ok(part) => {
                count += part.value.source.count();
                sources.push(part.value)?;
                rest = part.rest;
            }
            Err(fault) => return Err(fault),
        }
    }
    Ok(Part {
        value: sources,
        rest,
    })
}

impl FromSource for TableRef {
    ghost use Rattle.pg_parse_stmt.specs.Grammar.{table_source, one_source};
    ghost use Rattle.pg_parse_stmt.specs.Spellings.{spelled_table_source};

    ghost rule = { table_source };

    ghost count_of = { one_source };

    fn read<'a>(alloc: Global, tokens: &'a [Token], before: usize) -> Read<'a, TableRef> {
        match table_source(alloc, tokens, before) {
            Ok(part) => Ok(part),
            Err(fault) => Err(fault),
        }
    }

    fn count(&self) -> usize {
        1
    }

    ghost spelled = { spelled_table_source };
}

/// `items FROM from [WHERE expr]`, behind SELECT.
#[tactic(auto, using(crate::proofs::Froms::tables_counted))]
pub(crate) fn subselect<'a>(
    alloc: Global,
    tokens: &'a [Token],
    before: usize,
) -> Read<'a, Subselect>
    requires { before ≤ 8 }
    ensures reads { Reads (subselect before) behind_subselect tokens.now (seen result) }
    ensures count { IfOk result (λ part. before + length part.value.from ≤ 8) }
{
    let Part { value: items, rest } = list::<Item>(alloc, tokens)?;
    let Some(rest) = accept_word(rest, Keyword::From) else {
        return Err(Fault::Syntax(rest.len()));
    };
    let Part { value: from, rest } = from::<TableRef>(alloc, rest, before)?;
    let Part {
        value: condition,
        rest,
    } = condition(alloc, rest)?;
    Ok(Part {
        value: Subselect {
            items,
            from,
            condition,
        },
        rest,
    })
}

/// `values ")" [AS] name "(" names ")"`, behind VALUES.
fn values_source<'a>(alloc: Global, tokens: &'a [Token]) -> Read<'a, Source>
    ensures reads { Reads values_source any tokens.now (seen result) }
    ensures count { IfOk result (λ part. sources_of part.value ≡ 1) }
{
    let Part { value: rows, rest } = list::<Tuple>(alloc, tokens)?;
    let Some(rest) = accept_sign(rest, Sign::Close) else {
        return Err(Fault::Syntax(rest.len()));
    };
    let Part { value: alias, rest } = alias(alloc, rest)?;
    let Part {
        value: columns,
        rest,
    } = list_in_brackets::<NameText>(alloc, rest)?;
    Ok(Part {
        value: Source::Values(ValuesSource {
            rows,
            alias,
            columns,
        }),
        rest,
    })
}

/// `subselect ")" [AS] name`, behind SELECT.
fn query_source<'a>(alloc: Global, tokens: &'a [Token], before: usize) -> Read<'a, Source>
    requires { before ≤ 8 }
    ensures reads { Reads (query_source before) any tokens.now (seen result) }
    ensures count { IfOk result (λ part. before + sources_of part.value ≤ 9) }
{
    let Part { value: query, rest } = subselect(alloc, tokens, before)?;
    let Some(rest) = accept_sign(rest, Sign::Close) else {
        return Err(Fault::Syntax(rest.len()));
    };
    let Part { value: alias, rest } = alias(alloc, rest)?;
    Ok(Part {
        value: Source::Query(QuerySource { query, alias }),
        rest,
    })
}

/// What stands in the brackets of a source, `before` sources beginning before it, itself among them.
#[tactic(auto, using(crate::proofs::Bracketed::brackets))]
fn source_in_brackets<'a>(alloc: Global, tokens: &'a [Token], before: usize) -> Read<'a, Source>
    requires { before ≤ 8 }
    ensures reads { Reads (bracketed before) any tokens.now (seen result) }
    ensures count { IfOk result (λ part. before + sources_of part.value ≤ 9) }
{
    if let Some(rest) = accept_word(tokens, Keyword::Values) {
        return match values_source(alloc, rest) {
            Ok(part) => Ok(part),
            Err(fault) => Err(fault),
        };
    }
    match accept_word(tokens, Keyword::Select) {
        Some(rest) => match query_source(alloc, rest, before) {
            Ok(part) => Ok(part),
            Err(fault) => Err(fault),
        },
        None => Err(Fault::Syntax(tokens.len())),
    }
}

/// A source where fewer than eight begin before it.
#[tactic(auto, using(crate::proofs::Bracketed::each_source))]
fn source_within<'a>(alloc: Global, tokens: &'a [Token], before: usize) -> Read<'a, Source>
    requires { before + 1 ≤ 8 }
    ensures reads { Reads (source before) behind_table tokens.now (seen result) }
    ensures count { IfOk result (λ part. before + sources_of part.value ≤ 8) }
{
    match accept_sign(tokens, Sign::Open) {
        Some(inner) => match source_in_brackets(alloc, inner, before + 1) {
            Ok(part) => Ok(part),
            Err(fault) => Err(fault),
        },
        None => match table_ref(alloc, tokens) {
            Ok(Part { value, rest }) => Ok(Part {
                value: Source::Table(value),
                rest,
            }),
            Err(fault) => Err(fault),
        },
    }
}

/// The place of a ninth source, or of what is none.
#[tactic(auto, using(crate::proofs::Bracketed::source_ninth_bracket, crate::proofs::Bracketed::source_ninth_table, crate::proofs::Bracketed::source_nothing))]
fn ninth_source(tokens: &[Token], before: usize) -> Fault
    requires { 8 ≤ before }
    ensures { Reads (source before) behind_table tokens.now (failed result) }
{
    match accept_sign(tokens, Sign::Open) {
        Some(_) => Fault::Many(tokens.len()),
        None => {
            if begins_name(tokens) {
                Fault::Many(tokens.len())
            } else {
                Fault::Syntax(tokens.len())
            }
        }
    }
}

impl FromSource for Source {
    ghost use Rattle.pg_parse_stmt.specs.Grammar.{source, sources_of};
    ghost use Rattle.pg_parse_stmt.specs.Spellings.{spelled_source};

    ghost rule = { source };

    ghost count_of = { sources_of };

    fn read<'a>(alloc: Global, tokens: &'a [Token], before: usize) -> Read<'a, Source> {
        if before < MAX_SOURCES {
            match source_within(alloc, tokens, before) {
                Ok(part) => Ok(part),
                Err(fault) => Err(fault),
            }
        } else {
            Err(ninth_source(tokens, before))
        }
    }

    fn count(&self) -> usize {
        match self {
            Source::Table(_) => 1,
            Source::Values(_) => 1,
            Source::Query(query) => 1 + query.query.from.len(),
        }
    }

    ghost spelled = { spelled_source };
}

/// The sources of a statement.
#[tactic(auto, unfolding(crate::specs::Grammar::from))]
pub(crate) fn sources<'a>(alloc: Global, tokens: &'a [Token]) -> Read<'a, Sources>
    ensures { Reads from behind_from tokens.now (seen result) }
{
    from::<Source>(alloc, tokens, 0)
}
