//! CREATE TABLE and CREATE UNIQUE INDEX.
ghost use Rattle.std.specs.Prelude.{◌≡◌, List, []};
ghost use Rattle.pg_grammar.specs.Answers.{Reads, next};
ghost use Rattle.pg_grammar.specs.Languages.{one, bind, more};
ghost use Rattle.pg_lexer.specs.declared.keyword.Keyword.TheVariants.{Constraint as constraint_keyword};
ghost use Rattle.pg_parse_stmt.specs.Forms.{word, optional};
ghost use Rattle.pg_parse_stmt.specs.Words.{negative_of, negative_value, constraint_of};
ghost use Rattle.pg_grammar.specs.Parts.{seen};
ghost use Rattle.pg_parse_stmt.specs.Behind.{any, begins_constraint, behind_constraint_name, behind_part, behind_statement};
ghost use Rattle.pg_parse_stmt.specs.declared.word.RuleWord.TheVariants.{Named};
ghost use Rattle.pg_parse_stmt.specs.Grammar.{name as name_rule, default, next_rule, column_constraint_behind, column_constraint_named, column_rule_behind, column_part, table_constraint_behind, constraint_part, create_table, create_index};

use crate::front::{Read, name};
use crate::list::{Listed, expr_in_brackets, list_in_brackets, optional};
use crate::source::condition;
use crate::tree::{
    ColumnConstraint, ColumnPart, ColumnRule, CreateIndex, CreateTable, Element, StmtTree,
    TableConstraint, TablePart,
};
use crate::word::{ConstraintWord, RuleWord, accept, expect};
use pg_grammar::{Fault, Part};
use pg_lexer::{Keyword, NameText, Sign, Token};
use pg_lists::Items;
use pg_parse_expr::{accept_sign, accept_word, value_of};
use pg_values::{Kind, Value};
use std::alloc::Global;

/// A number with a minus sign, as a value: of 32 bits where it has them without, and else of 64.
fn negative_value(number: u64) -> Option<Value>
    ensures { result ≡ negative_value number }
{
    if number <= 2147483647 {
        Some(Value::Int(-(number as i32)))
    } else if number <= 9223372036854775807 {
        Some(Value::Big(-(number as i64)))
    } else {
        None
    }
}

/// The value of a token behind a minus sign.
#[tactic(auto, unfolding(crate::specs::Words::negative_of))]
fn negative_of(token: &Token) -> Option<Value>
    ensures { result ≡ negative_of token.now }
{
    match token {
        Token::Integer(number) => negative_value(*number),
        _ => None,
    }
}

/// An integer behind a minus sign.
#[tactic(auto, using(crate::proofs::Parts::negative_read, crate::proofs::Parts::no_negative, crate::proofs::Parts::no_negative_at_end))]
fn negative(tokens: &[Token]) -> Read<'_, Value>
    ensures { Reads (one negative_of) any tokens.now (seen result) }
{
    match tokens.split_first() {
        Some((first, rest)) => match negative_of(first) {
            Some(value) => Ok(Part { value, rest }),
            None => Err(Fault::Syntax(tokens.len())),
        },
        None => Err(Fault::Syntax(tokens.len())),
    }
}

/// A literal, or a minus sign and an integer, behind DEFAULT.
#[tactic(auto, using(crate::proofs::Parts::default_read, crate::proofs::Parts::no_default, crate::proofs::Parts::no_default_at_end, crate::proofs::Parts::default_minus))]
fn default<'a>(alloc: Global, tokens: &'a [Token]) -> Read<'a, Value>
    ensures { Reads default any tokens.now (seen result) }
{
    match accept_sign(tokens, Sign::Minus) {
        Some(rest) => negative(rest),
        None => match tokens.split_first() {
            Some((first, rest)) => match value_of(alloc, first)? {
                Some(value) => Ok(Part { value, rest }),
                None => Err(Fault::Syntax(tokens.len())),
            },
            None => Err(Fault::Syntax(tokens.len())),
        },
    }
}

/// `PRIMARY KEY | UNIQUE | CHECK "(" expr ")"`, behind its first word.
#[tactic(auto, using(crate::proofs::Constraints::column_constraints))]
fn column_constraint<'a>(
    alloc: Global,
    tokens: &'a [Token],
    word: ConstraintWord,
) -> Read<'a, ColumnConstraint>
    ensures { Reads (column_constraint_behind word) any tokens.now (seen result) }
{
    match word {
        ConstraintWord::Primary => match accept_word(tokens, Keyword::Key) {
            Some(rest) => Ok(Part {
                value: ColumnConstraint::Primary,
                rest,
            }),
            None => Err(Fault::Syntax(tokens.len())),
        },
        ConstraintWord::Unique => Ok(Part {
            value: ColumnConstraint::Unique,
            rest: tokens,
        }),
        ConstraintWord::Check => match expr_in_brackets(alloc, tokens) {
            Ok(Part { value, rest }) => Ok(Part {
                value: ColumnConstraint::Check(value),
                rest,
            }),
            Err(fault) => Err(fault),
        },
    }
}

/// A column's constraint behind its first word, with its name.
#[tactic(auto, using(crate::proofs::Constraints::named_constraint_read, crate::proofs::Constraints::named_constraint_failed))]
fn named_constraint<'a>(
    alloc: Global,
    tokens: &'a [Token],
    name: Option<NameText>,
    word: ConstraintWord,
) -> Read<'a, ColumnRule>
    ensures { Reads (column_constraint_named name word) any tokens.now (seen result) }
{
    match column_constraint(alloc, tokens, word) {
        Ok(Part { value, rest }) => Ok(Part {
            value: ColumnRule::Constraint(name, value),
            rest,
        }),
        Err(fault) => Err(fault),
    }
}

/// A column's constraint behind CONSTRAINT.
fn constraint_behind_name<'a>(alloc: Global, tokens: &'a [Token]) -> Read<'a, ColumnRule>
    ensures { Reads (column_rule_behind Named) any tokens.now (seen result) }
{
    let name = name(alloc, tokens)?;
    let word = expect::<ConstraintWord>(name.rest)?;
    named_constraint(alloc, word.rest, Some(name.value), word.value)
}

/// What may stand behind a column's kind, behind its first word.
#[tactic(auto, using(crate::proofs::Constraints::column_rules))]
fn column_rule<'a>(alloc: Global, tokens: &'a [Token], word: RuleWord) -> Read<'a, ColumnRule>
    ensures { Reads (column_rule_behind word) any tokens.now (seen result) }
{
    match word {
        RuleWord::Not => match accept_word(tokens, Keyword::Null) {
            Some(rest) => Ok(Part {
                value: ColumnRule::NotNull,
                rest,
            }),
            None => Err(Fault::Syntax(tokens.len())),
        },
        RuleWord::Default => match default(alloc, tokens) {
            Ok(Part { value, rest }) => Ok(Part {
                value: ColumnRule::Default(value),
                rest,
            }),
            Err(fault) => Err(fault),
        },
        RuleWord::Named => constraint_behind_name(alloc, tokens),
        RuleWord::Unnamed(word) => named_constraint(alloc, tokens, None, word),
    }
}

/// Any number of the rules behind a column's kind.
#[tactic(auto, using(crate::proofs::Parts::rules_go_on, crate::proofs::Parts::rules_break_off, crate::proofs::Parts::rules_end, crate::proofs::Lists::reads_no_more))]
fn column_rules<'a>(alloc: Global, tokens: &'a [Token]) -> Read<'a, Items<ColumnRule>>
    ensures { Reads (more next_rule []) behind_part tokens.now (seen result) }
{
    let mut rules = Items::new(alloc);
    let mut rest = tokens;
    while let Some((word, behind)) = accept::<RuleWord>(rest) {
        match column_rule(alloc, behind, word) {
            Ok(part) => {
                rules.push(part.value)?;
                rest = part.rest;
            }
            Err(fault) => return Err(fault),
        }
    }
    Ok(Part { value: rules, rest })
}

/// `name kind {rule}`
fn column_part<'a>(alloc: Global, tokens: &'a [Token]) -> Read<'a, TablePart>
    ensures { Reads column_part behind_part tokens.now (seen result) }
{
    let name = name(alloc, tokens)?;
    let kind = expect::<Kind>(name.rest)?;
    let Part { value: rules, rest } = column_rules(alloc, kind.rest)?;
    Ok(Part {
        value: TablePart::Column(ColumnPart {
            name: name.value,
            kind: kind.value,
            rules,
        }),
        rest,
    })
}

/// `(PRIMARY KEY | UNIQUE) "(" names ")" | CHECK "(" expr ")"`, behind its first word.
#[tactic(auto, using(crate::proofs::Constraints::table_constraints), unfolding(crate::specs::Grammar::names))]
fn table_constraint<'a>(
    alloc: Global,
    tokens: &'a [Token],
    word: ConstraintWord,
) -> Read<'a, TableConstraint>
    ensures { Reads (table_constraint_behind word) any tokens.now (seen result) }
{
    match word {
        ConstraintWord::Primary => match accept_word(tokens, Keyword::Key) {
            Some(rest) => match list_in_brackets::<NameText>(alloc, rest) {
                Ok(Part { value, rest }) => Ok(Part {
                    value: TableConstraint::Primary(value),
                    rest,
                }),
                Err(fault) => Err(fault),
            },
            None => Err(Fault::Syntax(tokens.len())),
        },
        ConstraintWord::Unique => match list_in_brackets::<NameText>(alloc, tokens) {
            Ok(Part { value, rest }) => Ok(Part {
                value: TableConstraint::Unique(value),
                rest,
            }),
            Err(fault) => Err(fault),
        },
        ConstraintWord::Check => match expr_in_brackets(alloc, tokens) {
            Ok(Part { value, rest }) => Ok(Part {
                value: TableConstraint::Check(value),
                rest,
            }),
            Err(fault) => Err(fault),
        },
    }
}

/// `[CONSTRAINT name]`
#[tactic(auto, unfolding(crate::specs::Behind::behind_constraint_name, crate::specs::Behind::behind_optional))]
fn constraint_name<'a>(alloc: Global, tokens: &'a [Token]) -> Read<'a, Option<NameText>>
    ensures { Reads (optional (word constraint_keyword name_rule)) behind_constraint_name tokens.now (seen result) }
{
    optional::<NameText>(alloc, tokens, Keyword::Constraint)
}

/// A constraint of a table, without its name.
#[tactic(auto, using(crate::proofs::Parts::word_constraint_read, crate::proofs::Parts::word_constraint_failed))]
fn unnamed_constraint<'a>(alloc: Global, tokens: &'a [Token]) -> Read<'a, TableConstraint>
    ensures { Reads (bind (one constraint_of) table_constraint_behind) any tokens.now (seen result) }
{
    match expect::<ConstraintWord>(tokens) {
        Ok(Part { value, rest }) => table_constraint(alloc, rest, value),
        Err(fault) => Err(fault),
    }
}

/// `[CONSTRAINT name] constraint`
fn constraint_part<'a>(alloc: Global, tokens: &'a [Token]) -> Read<'a, TablePart>
    ensures { Reads constraint_part any tokens.now (seen result) }
{
    let name = constraint_name(alloc, tokens)?;
    let Part { value, rest } = unnamed_constraint(alloc, name.rest)?;
    Ok(Part {
        value: TablePart::Constraint(name.value, value),
        rest,
    })
}

/// Whether a constraint begins here, and not a column.
#[tactic(auto, unfolding(crate::specs::Behind::begins_constraint))]
fn begins_constraint(tokens: &[Token]) -> bool
    ensures { result ≡ begins_constraint (next tokens.now) }
{
    match tokens.first() {
        Some(Token::Keyword(Keyword::Constraint)) => true,
        Some(Token::Keyword(Keyword::Primary)) => true,
        Some(Token::Keyword(Keyword::Unique)) => true,
        Some(Token::Keyword(Keyword::Check)) => true,
        _ => false,
    }
}

/// `name kind {rule} | [CONSTRAINT name] constraint`
impl Listed for TablePart {
    ghost use Rattle.pg_parse_stmt.specs.Spellings.{spelled_part};
    ghost use Rattle.pg_parse_stmt.specs.After.{behind_part_comma, behind_part_close};
    ghost use Rattle.pg_parse_stmt.specs.Behind.{behind_part};
    ghost use Rattle.pg_parse_stmt.specs.Grammar.{part};

    ghost rule = { part };

    ghost follows = { behind_part };

    #[tactic(auto, using(crate::proofs::Parts::part_constraint, crate::proofs::Parts::part_column))]
    fn read<'a>(alloc: Global, tokens: &'a [Token]) -> Read<'a, TablePart> {
        if begins_constraint(tokens) {
            constraint_part(alloc, tokens)
        } else {
            column_part(alloc, tokens)
        }
    }

    ghost comma = { behind_part_comma };

    ghost close = { behind_part_close };

    ghost spelled = { spelled_part };
}

/// `TABLE name "(" part {"," part} ")"`, behind CREATE.
pub(crate) fn create_table<'a>(alloc: Global, tokens: &'a [Token]) -> Read<'a, StmtTree>
    ensures { Reads create_table behind_statement tokens.now (seen result) }
{
    let Some(rest) = accept_word(tokens, Keyword::Table) else {
        return Err(Fault::Syntax(tokens.len()));
    };
    let Part { value: name, rest } = name(alloc, rest)?;
    let Part { value: parts, rest } = list_in_brackets::<TablePart>(alloc, rest)?;
    Ok(Part {
        value: StmtTree::CreateTable(CreateTable { name, parts }),
        rest,
    })
}

/// `UNIQUE INDEX name ON name "(" element {"," element} ")" [WHERE expr]`, behind CREATE.
pub(crate) fn create_index<'a>(alloc: Global, tokens: &'a [Token]) -> Read<'a, StmtTree>
    ensures { Reads create_index behind_statement tokens.now (seen result) }
{
    let Some(rest) = accept_word(tokens, Keyword::Unique) else {
        return Err(Fault::Syntax(tokens.len()));
    };
    let Some(rest) = accept_word(rest, Keyword::Index) else {
        return Err(Fault::Syntax(rest.len()));
    };
    let index = name(alloc, rest)?;
    let Some(rest) = accept_word(index.rest, Keyword::On) else {
        return Err(Fault::Syntax(index.rest.len()));
    };
    let table = name(alloc, rest)?;
    let elements = list_in_brackets::<Element>(alloc, table.rest)?;
    let Part {
        value: predicate,
        rest,
    } = condition(alloc, elements.rest)?;
    Ok(Part {
        value: StmtTree::CreateIndex(CreateIndex {
            name: index.value,
            table: table.value,
            elements: elements.value,
            predicate,
        }),
        rest,
    })
}
