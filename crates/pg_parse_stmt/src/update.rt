//! UPDATE and DELETE.
ghost use Rattle.std.specs.Prelude.{List, []};
ghost use Rattle.pg_grammar.specs.Answers.{Reads};
ghost use Rattle.pg_grammar.specs.Parts.{seen};
ghost use Rattle.pg_lexer.specs.declared.keyword.Keyword.TheVariants.{From as from_word, Using as using_word};
ghost use Rattle.pg_parse_stmt.specs.Ranks.{behind};
ghost use Rattle.pg_parse_stmt.specs.Behind.{behind_statement};
ghost use Rattle.pg_parse_stmt.specs.Forms.{word, or_else};
ghost use Rattle.pg_parse_stmt.specs.Grammar.{from, update, delete};

use crate::front::Read;
use crate::list::list;
use crate::select::returning;
use crate::source::{condition, sources, table_ref};
use crate::tree::{Assignment, Delete, Sources, Update};
use pg_grammar::{Fault, Part};
use pg_lexer::{Keyword, Token};
use pg_lists::Items;
use pg_parse_expr::accept_word;
use std::alloc::Global;

/// `[FROM from]`
#[tactic(auto, using(crate::proofs::Updates::from_list, crate::proofs::Updates::from_list_none))]
fn from_list<'a>(alloc: Global, tokens: &'a [Token]) -> Read<'a, Sources>
    ensures { Reads (or_else [] (word from_word from)) (behind 12) tokens.now (seen result) }
{
    match accept_word(tokens, Keyword::From) {
        Some(rest) => sources(alloc, rest),
        None => Ok(Part {
            value: Items::new(alloc),
            rest: tokens,
        }),
    }
}

/// `[USING from]`
#[tactic(auto, using(crate::proofs::Updates::using_list, crate::proofs::Updates::using_list_none))]
fn using_list<'a>(alloc: Global, tokens: &'a [Token]) -> Read<'a, Sources>
    ensures { Reads (or_else [] (word using_word from)) (behind 12) tokens.now (seen result) }
{
    match accept_word(tokens, Keyword::Using) {
        Some(rest) => sources(alloc, rest),
        None => Ok(Part {
            value: Items::new(alloc),
            rest: tokens,
        }),
    }
}

/// `name [[AS] name] SET sets [FROM from] [WHERE expr] [returning]`, behind UPDATE.
pub(crate) fn update<'a>(alloc: Global, tokens: &'a [Token]) -> Read<'a, Update>
    ensures { Reads update behind_statement tokens.now (seen result) }
{
    let target = table_ref(alloc, tokens)?;
    let Some(rest) = accept_word(target.rest, Keyword::Set) else {
        return Err(Fault::Syntax(target.rest.len()));
    };
    let sets = list::<Assignment>(alloc, rest)?;
    let from = from_list(alloc, sets.rest)?;
    let condition = condition(alloc, from.rest)?;
    let returning = returning(alloc, condition.rest)?;
    Ok(Part {
        value: Update {
            target: target.value,
            sets: sets.value,
            from: from.value,
            condition: condition.value,
            returning: returning.value,
        },
        rest: returning.rest,
    })
}

/// `FROM name [[AS] name] [USING from] [WHERE expr] [returning]`, behind DELETE.
pub(crate) fn delete<'a>(alloc: Global, tokens: &'a [Token]) -> Read<'a, Delete>
    ensures { Reads delete behind_statement tokens.now (seen result) }
{
    let Some(rest) = accept_word(tokens, Keyword::From) else {
        return Err(Fault::Syntax(tokens.len()));
    };
    let target = table_ref(alloc, rest)?;
    let using = using_list(alloc, target.rest)?;
    let condition = condition(alloc, using.rest)?;
    let returning = returning(alloc, condition.rest)?;
    Ok(Part {
        value: Delete {
            target: target.value,
            using: using.value,
            condition: condition.value,
            returning: returning.value,
        },
        rest: returning.rest,
    })
}
