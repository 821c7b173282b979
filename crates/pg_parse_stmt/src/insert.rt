//! INSERT, and what ON CONFLICT does.
ghost use Rattle.pg_grammar.specs.Answers.{Reads};
ghost use Rattle.pg_grammar.specs.Parts.{seen};
ghost use Rattle.pg_parse_stmt.specs.Behind.{any, behind_columns, behind_condition, behind_target, behind_conflict, behind_on_conflict, behind_statement, behind_rows, behind_sets, is_open};
ghost use Rattle.pg_parse_stmt.specs.Forms.{optional};
ghost use Rattle.pg_parse_stmt.specs.Grammar.{assignment, sets, element, elements, columns, rows, target_elements, target_constraint, conflict_target, upsert, conflict_act, conflict, insert};

use crate::front::{Read, name};
use crate::list::{Listed, expr, expr_in_brackets, list, list_in_brackets};
use crate::select::{as_name, returning};
use crate::source::{condition, subselect};
use crate::tree::{
    Assignment, Conflict, ConflictTarget, Element, Insert, Names, Rows, Tuple, Upsert,
};
use pg_grammar::{Fault, Part};
use pg_lexer::{Keyword, NameText, Sign, Token};
use pg_lists::Items;
use pg_parse_expr::{accept_sign, accept_word};
use std::alloc::Global;

/// `name "=" expr`
impl Listed for Assignment {
    ghost use Rattle.pg_parse_stmt.specs.Spellings.{spelled_assignment};
    ghost use Rattle.pg_parse_stmt.specs.After.{behind_expr_comma, behind_expr_close};
    ghost use Rattle.pg_parse_expr.specs.Behind.{behind_expr};
    ghost use Rattle.pg_parse_stmt.specs.Grammar.{assignment};

    ghost rule = { assignment };

    ghost follows = { behind_expr };

    fn read<'a>(alloc: Global, tokens: &'a [Token]) -> Read<'a, Assignment> {
        let Part {
            value: column,
            rest,
        } = name(alloc, tokens)?;
        let Some(rest) = accept_sign(rest, Sign::Equal) else {
            return Err(Fault::Syntax(rest.len()));
        };
        let Part { value, rest } = expr(alloc, rest)?;
        Ok(Part {
            value: Assignment { column, value },
            rest,
        })
    }

    ghost comma = { behind_expr_comma };

    ghost close = { behind_expr_close };

    ghost spelled = { spelled_assignment };
}

/// `name | "(" expr ")"`
impl Listed for Element {
    ghost use Rattle.pg_parse_stmt.specs.Spellings.{spelled_element};
    ghost use Rattle.std.proofs.Common.{refl};
    ghost use Rattle.pg_parse_stmt.specs.Behind.{any};
    ghost use Rattle.pg_parse_stmt.specs.Grammar.{element};

    ghost rule = { element };

    ghost follows = { any };

    #[tactic(auto, using(crate::proofs::Elements::element_name, crate::proofs::Elements::element_no_name, crate::proofs::Elements::element_expr, crate::proofs::Elements::element_no_expr))]
    fn read<'a>(alloc: Global, tokens: &'a [Token]) -> Read<'a, Element> {
        match accept_sign(tokens, Sign::Open) {
            Some(_) => match expr_in_brackets(alloc, tokens) {
                Ok(Part { value, rest }) => Ok(Part {
                    value: Element::Expr(value),
                    rest,
                }),
                Err(fault) => Err(fault),
            },
            None => match name(alloc, tokens) {
                Ok(Part { value, rest }) => Ok(Part {
                    value: Element::Column(value),
                    rest,
                }),
                Err(fault) => Err(fault),
            },
        }
    }

    ghost comma = { refl };

    ghost close = { refl };

    ghost spelled = { spelled_element };
}

/// `["(" names ")"]`
#[tactic(auto, using(crate::proofs::Elements::columns_read, crate::proofs::Elements::columns_none))]
pub(crate) fn columns<'a>(alloc: Global, tokens: &'a [Token]) -> Read<'a, Names>
    ensures { Reads columns behind_columns tokens.now (seen result) }
{
    match accept_sign(tokens, Sign::Open) {
        Some(_) => list_in_brackets::<NameText>(alloc, tokens),
        None => Ok(Part {
            value: Items::new(alloc),
            rest: tokens,
        }),
    }
}

/// `VALUES tuple {"," tuple} | subselect`
fn rows<'a>(alloc: Global, tokens: &'a [Token]) -> Read<'a, Rows>
    ensures { Reads rows behind_rows tokens.now (seen result) }
{
    if let Some(rest) = accept_word(tokens, Keyword::Values) {
        let Part { value, rest } = list::<Tuple>(alloc, rest)?;
        return Ok(Part {
            value: Rows::Values(value),
            rest,
        });
    }
    let Some(rest) = accept_word(tokens, Keyword::Select) else {
        return Err(Fault::Syntax(tokens.len()));
    };
    let Part { value, rest } = subselect(alloc, rest, 0)?;
    Ok(Part {
        value: Rows::Query(value),
        rest,
    })
}

/// `"(" element {"," element} ")" [WHERE expr]`
fn target_elements<'a>(alloc: Global, tokens: &'a [Token]) -> Read<'a, ConflictTarget>
    ensures { Reads target_elements behind_condition tokens.now (seen result) }
{
    let Part {
        value: elements,
        rest,
    } = list_in_brackets::<Element>(alloc, tokens)?;
    let Part {
        value: predicate,
        rest,
    } = condition(alloc, rest)?;
    Ok(Part {
        value: ConflictTarget::Elements(elements, predicate),
        rest,
    })
}

/// `ON CONSTRAINT name`
fn target_constraint<'a>(alloc: Global, tokens: &'a [Token]) -> Read<'a, ConflictTarget>
    ensures { Reads target_constraint any tokens.now (seen result) }
{
    let Some(rest) = accept_word(tokens, Keyword::On) else {
        return Err(Fault::Syntax(tokens.len()));
    };
    let Some(rest) = accept_word(rest, Keyword::Constraint) else {
        return Err(Fault::Syntax(rest.len()));
    };
    let Part { value, rest } = name(alloc, rest)?;
    Ok(Part {
        value: ConflictTarget::Constraint(value),
        rest,
    })
}

/// `["(" element {"," element} ")" [WHERE expr] | ON CONSTRAINT name]`
#[tactic(auto, using(crate::proofs::Inserts::targets))]
fn conflict_target<'a>(alloc: Global, tokens: &'a [Token]) -> Read<'a, Option<ConflictTarget>>
    ensures { Reads (optional conflict_target) behind_target tokens.now (seen result) }
{
    if let Some(_) = accept_sign(tokens, Sign::Open) {
        return match target_elements(alloc, tokens) {
            Ok(Part { value, rest }) => Ok(Part {
                value: Some(value),
                rest,
            }),
            Err(fault) => Err(fault),
        };
    }
    match accept_word(tokens, Keyword::On) {
        Some(_) => match target_constraint(alloc, tokens) {
            Ok(Part { value, rest }) => Ok(Part {
                value: Some(value),
                rest,
            }),
            Err(fault) => Err(fault),
        },
        None => Ok(Part {
            value: None,
            rest: tokens,
        }),
    }
}

/// `UPDATE SET sets [WHERE expr]`, behind DO.
fn upsert<'a>(alloc: Global, tokens: &'a [Token], target: ConflictTarget) -> Read<'a, Conflict>
    ensures { Reads (upsert target) behind_conflict tokens.now (seen result) }
{
    let Some(rest) = accept_word(tokens, Keyword::Update) else {
        return Err(Fault::Syntax(tokens.len()));
    };
    let Some(rest) = accept_word(rest, Keyword::Set) else {
        return Err(Fault::Syntax(rest.len()));
    };
    let sets = list::<Assignment>(alloc, rest)?;
    let Part {
        value: condition,
        rest,
    } = condition(alloc, sets.rest)?;
    Ok(Part {
        value: Conflict::Update(Upsert {
            target,
            sets: sets.value,
            condition,
        }),
        rest,
    })
}

/// `NOTHING`, or with a target `UPDATE`, behind DO.
#[tactic(auto, using(crate::proofs::Inserts::act_nothing_read, crate::proofs::Inserts::act_upsert_read, crate::proofs::Inserts::act_refused))]
fn conflict_act<'a>(
    alloc: Global,
    tokens: &'a [Token],
    target: Option<ConflictTarget>,
) -> Read<'a, Conflict>
    ensures { Reads (conflict_act target) behind_conflict tokens.now (seen result) }
{
    if let Some(rest) = accept_word(tokens, Keyword::Nothing) {
        return Ok(Part {
            value: Conflict::Nothing(target),
            rest,
        });
    }
    match target {
        Some(target) => upsert(alloc, tokens, target),
        None => Err(Fault::Syntax(tokens.len())),
    }
}

/// `[ON CONFLICT [target] DO NOTHING | ON CONFLICT target DO UPDATE SET sets [WHERE expr]]`
fn conflict<'a>(alloc: Global, tokens: &'a [Token]) -> Read<'a, Option<Conflict>>
    ensures { Reads (optional conflict) behind_on_conflict tokens.now (seen result) }
{
    let Some(rest) = accept_word(tokens, Keyword::On) else {
        return Ok(Part {
            value: None,
            rest: tokens,
        });
    };
    let Some(rest) = accept_word(rest, Keyword::Conflict) else {
        return Err(Fault::Syntax(rest.len()));
    };
    let target = conflict_target(alloc, rest)?;
    let Some(rest) = accept_word(target.rest, Keyword::Do) else {
        return Err(Fault::Syntax(target.rest.len()));
    };
    let Part { value, rest } = conflict_act(alloc, rest, target.value)?;
    Ok(Part {
        value: Some(value),
        rest,
    })
}

/// `INTO name [AS name] ["(" names ")"] rows [conflict] [returning]`, behind INSERT.
pub(crate) fn insert<'a>(alloc: Global, tokens: &'a [Token]) -> Read<'a, Insert>
    ensures { Reads insert behind_statement tokens.now (seen result) }
{
    let Some(rest) = accept_word(tokens, Keyword::Into) else {
        return Err(Fault::Syntax(tokens.len()));
    };
    let table = name(alloc, rest)?;
    let alias = as_name(alloc, table.rest)?;
    let columns = columns(alloc, alias.rest)?;
    let rows = rows(alloc, columns.rest)?;
    let conflict = conflict(alloc, rows.rest)?;
    let Part {
        value: returning,
        rest,
    } = returning(alloc, conflict.rest)?;
    Ok(Part {
        value: Insert {
            table: table.value,
            alias: alias.value,
            columns: columns.value,
            rows: rows.value,
            conflict: conflict.value,
            returning,
        },
        rest,
    })
}
