//! A statement by its first word, and one on a line of its own.
ghost use Rattle.pg_grammar.specs.Answers.{Reads, ReadsWhole, ends};
ghost use Rattle.pg_grammar.specs.Languages.{bind, either, gives};
ghost use Rattle.pg_grammar.specs.Parts.{seen};
ghost use Rattle.pg_parse_stmt.specs.Behind.{any, behind_begin, behind_statement, behind_transaction};
ghost use Rattle.pg_parse_stmt.specs.Grammar.{begin, committed, isolation, transaction, select as select_rule, insert as insert_rule, update as update_rule, delete as delete_rule, merge as merge_rule, create_table as table_rule, create_index as index_rule, statement_behind, statement, sentence};
ghost use Rattle.pg_parse_stmt.specs.declared.tree.StmtTree.TheVariants as stmt;

use crate::create::{create_index, create_table};
use crate::front::Read;
use crate::insert::insert;
use crate::merge::merge;
use crate::select::select;
use crate::tree::StmtTree;
use crate::update::{delete, update};
use crate::word::{Lead, expect};
use pg_grammar::{Fault, Part, whole};
use pg_lexer::{Keyword, Sign, Token};
use pg_parse_expr::{accept_sign, accept_word};
use std::alloc::Global;

/// `[WORK | TRANSACTION]`, behind the first word of a statement.
#[tactic(auto, using(crate::proofs::Statements::work_read, crate::proofs::Statements::transaction_read, crate::proofs::Statements::neither_read))]
fn transaction(tokens: &[Token], tree: StmtTree) -> Read<'_, StmtTree>
    ensures { Reads (transaction tree) behind_transaction tokens.now (seen result) }
{
    match accept_word(tokens, Keyword::Work) {
        Some(rest) => Ok(Part { value: tree, rest }),
        None => match accept_word(tokens, Keyword::Transaction) {
            Some(rest) => Ok(Part { value: tree, rest }),
            None => Ok(Part {
                value: tree,
                rest: tokens,
            }),
        },
    }
}

/// `LEVEL READ COMMITTED`, behind ISOLATION.
fn committed(tokens: &[Token], tree: StmtTree) -> Read<'_, StmtTree>
    ensures { Reads (committed tree) any tokens.now (seen result) }
{
    let Some(rest) = accept_word(tokens, Keyword::Level) else {
        return Err(Fault::Syntax(tokens.len()));
    };
    let Some(rest) = accept_word(rest, Keyword::Read) else {
        return Err(Fault::Syntax(rest.len()));
    };
    let Some(rest) = accept_word(rest, Keyword::Committed) else {
        return Err(Fault::Syntax(rest.len()));
    };
    Ok(Part { value: tree, rest })
}

/// `[ISOLATION LEVEL READ COMMITTED]`
#[tactic(auto, using(crate::proofs::Statements::isolation_on, crate::proofs::Statements::isolation_none))]
fn isolation(tokens: &[Token], tree: StmtTree) -> Read<'_, StmtTree>
    ensures { Reads (isolation tree) behind_begin tokens.now (seen result) }
{
    match accept_word(tokens, Keyword::Isolation) {
        Some(rest) => committed(rest, tree),
        None => Ok(Part {
            value: tree,
            rest: tokens,
        }),
    }
}

/// `[WORK | TRANSACTION] [ISOLATION LEVEL READ COMMITTED]`, behind BEGIN.
#[tactic(auto, using(crate::proofs::Statements::begin_on, crate::proofs::Statements::begin_failed))]
fn begin(tokens: &[Token]) -> Read<'_, StmtTree>
    ensures { Reads begin behind_begin tokens.now (seen result) }
{
    let Part { value, rest } = transaction(tokens, StmtTree::Begin)?;
    isolation(rest, value)
}

/// What is behind SELECT.
#[tactic(auto, using(crate::proofs::Statements::select_read, crate::proofs::Statements::select_failed))]
fn select_statement<'a>(alloc: Global, tokens: &'a [Token]) -> Read<'a, StmtTree>
    ensures { Reads (bind select_rule (λ x. gives (stmt.Select x))) behind_statement tokens.now (seen result) }
{
    match select(alloc, tokens) {
        Ok(Part { value, rest }) => Ok(Part {
            value: StmtTree::Select(value),
            rest,
        }),
        Err(fault) => Err(fault),
    }
}

/// What is behind INSERT.
#[tactic(auto, using(crate::proofs::Statements::insert_read, crate::proofs::Statements::insert_failed))]
fn insert_statement<'a>(alloc: Global, tokens: &'a [Token]) -> Read<'a, StmtTree>
    ensures { Reads (bind insert_rule (λ x. gives (stmt.Insert x))) behind_statement tokens.now (seen result) }
{
    match insert(alloc, tokens) {
        Ok(Part { value, rest }) => Ok(Part {
            value: StmtTree::Insert(value),
            rest,
        }),
        Err(fault) => Err(fault),
    }
}

/// What is behind UPDATE.
#[tactic(auto, using(crate::proofs::Statements::update_read, crate::proofs::Statements::update_failed))]
fn update_statement<'a>(alloc: Global, tokens: &'a [Token]) -> Read<'a, StmtTree>
    ensures { Reads (bind update_rule (λ x. gives (stmt.Update x))) behind_statement tokens.now (seen result) }
{
    match update(alloc, tokens) {
        Ok(Part { value, rest }) => Ok(Part {
            value: StmtTree::Update(value),
            rest,
        }),
        Err(fault) => Err(fault),
    }
}

/// What is behind DELETE.
#[tactic(auto, using(crate::proofs::Statements::delete_read, crate::proofs::Statements::delete_failed))]
fn delete_statement<'a>(alloc: Global, tokens: &'a [Token]) -> Read<'a, StmtTree>
    ensures { Reads (bind delete_rule (λ x. gives (stmt.Delete x))) behind_statement tokens.now (seen result) }
{
    match delete(alloc, tokens) {
        Ok(Part { value, rest }) => Ok(Part {
            value: StmtTree::Delete(value),
            rest,
        }),
        Err(fault) => Err(fault),
    }
}

/// What is behind MERGE.
#[tactic(auto, using(crate::proofs::Statements::merge_read, crate::proofs::Statements::merge_failed))]
fn merge_statement<'a>(alloc: Global, tokens: &'a [Token]) -> Read<'a, StmtTree>
    ensures { Reads (bind merge_rule (λ x. gives (stmt.Merge x))) behind_statement tokens.now (seen result) }
{
    match merge(alloc, tokens) {
        Ok(Part { value, rest }) => Ok(Part {
            value: StmtTree::Merge(value),
            rest,
        }),
        Err(fault) => Err(fault),
    }
}

/// What is behind CREATE.
#[tactic(auto, using(crate::proofs::Statements::table_on, crate::proofs::Statements::index_on))]
fn create<'a>(alloc: Global, tokens: &'a [Token]) -> Read<'a, StmtTree>
    ensures { Reads (either table_rule index_rule) behind_statement tokens.now (seen result) }
{
    match accept_word(tokens, Keyword::Table) {
        Some(_) => create_table(alloc, tokens),
        None => create_index(alloc, tokens),
    }
}

/// What is behind the first word of a statement, in a version of the language.
#[tactic(auto, using(crate::proofs::Statements::leads))]
fn statement_behind<'a>(
    alloc: Global,
    _version: u32,
    tokens: &'a [Token],
    lead: Lead,
) -> Read<'a, StmtTree>
    ensures { Reads (statement_behind _version lead) behind_statement tokens.now (seen result) }
{
    match lead {
        Lead::Begin => begin(tokens),
        Lead::Commit => transaction(tokens, StmtTree::Commit),
        Lead::Rollback => transaction(tokens, StmtTree::Rollback),
        Lead::Select => select_statement(alloc, tokens),
        Lead::Insert => insert_statement(alloc, tokens),
        Lead::Update => update_statement(alloc, tokens),
        Lead::Delete => delete_statement(alloc, tokens),
        Lead::Merge => merge_statement(alloc, tokens),
        Lead::Create => create(alloc, tokens),
    }
}

/// A statement, in a version of the language.
#[tactic(auto, using(crate::proofs::Statements::statement_on, crate::proofs::Statements::statement_failed))]
fn statement<'a>(alloc: Global, version: u32, tokens: &'a [Token]) -> Read<'a, StmtTree>
    ensures { Reads (statement version) behind_statement tokens.now (seen result) }
{
    let Part { value: lead, rest } = expect::<Lead>(tokens)?;
    statement_behind(alloc, version, rest, lead)
}

/// A statement, and one `;` that may end it.
#[tactic(auto, using(crate::proofs::Statements::sentence_closed, crate::proofs::Statements::sentence_open, crate::proofs::Statements::sentence_failed))]
fn sentence<'a>(alloc: Global, version: u32, tokens: &'a [Token]) -> Read<'a, StmtTree>
    ensures { Reads (sentence version) ends tokens.now (seen result) }
{
    let Part { value, rest } = match statement(alloc, version, tokens) {
        Ok(part) => part,
        Err(fault) => return Err(fault),
    };
    match accept_sign(rest, Sign::Semicolon) {
        Some(rest) => Ok(Part { value, rest }),
        None => Ok(Part { value, rest }),
    }
}

/// The statement that all of the tokens are, in a version of the language.
#[tactic(auto, using(crate::proofs::Statements::whole_read, crate::proofs::Statements::whole_failed))]
pub fn read_statement(alloc: Global, version: u32, tokens: &[Token]) -> Result<StmtTree, Fault>
    ensures { ReadsWhole (sentence version) tokens.now result }
{
    match sentence(alloc, version, tokens) {
        Ok(part) => whole(part),
        Err(fault) => Err(fault),
    }
}
