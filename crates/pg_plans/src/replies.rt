ghost use Rattle.std.specs.Prelude.{◌≡◌, IfOk, map};
ghost use Rattle.std.specs.Option.{option_copied};
ghost use Rattle.pg_lists.specs.Numbered.{nth_item};
ghost use Rattle.pg_model.specs.declared.statement.Insert.{Insert};
ghost use Rattle.pg_model.specs.declared.statement.Select.{Select};
ghost use Rattle.pg_model.specs.declared.statement.Statement.TheVariants as statement;
ghost use Rattle.pg_world.specs.Replies.{candidate_list as list_of, proposed_values as values_proposed, reply_of, shown_value as value_shown};

use pg_lists::{Items, TryCopy};
use pg_model::{Action, Change, Reply, Rows, Tag};
use pg_values::{Value, Values, copy_value};
use pg_world::{Candidate, Running};
use std::alloc::{AllocError, Global};

/// The reply of a plain SELECT that is done: its output rows, in which an integer is a bigint.
pub fn select_reply(alloc: Global, running: &Running) -> Result<Reply, AllocError>
    ensures { IfOk result (λ reply. (select : Select) →
        reply ≡ reply_of (statement.Select select) running.now) }
{
    let candidates = candidate_list(running);
    let rows = made_rows(alloc, candidates)?;
    let tag = Tag::Select(candidates.len() as u64);
    Ok(Reply { tag, rows })
}

/// The reply of an INSERT that is done: the tag counts its acts.
pub fn insert_reply(alloc: Global, running: &Running) -> Result<Reply, AllocError>
    ensures { IfOk result (λ reply. (insert : Insert) →
        reply ≡ reply_of (statement.Insert insert) running.now) }
{
    let rows = shown_rows(alloc, running.output.as_slice())?;
    let tag = Tag::Insert(running.acts);
    Ok(Reply { tag, rows })
}

/// The reply of an UPDATE or DELETE that is done: the tag counts its acts.
pub fn change_reply(alloc: Global, change: &Change, running: &Running) -> Result<Reply, AllocError>
    ensures { IfOk result (λ reply. reply ≡ reply_of (statement.Change change.now) running.now) }
{
    let rows = shown_rows(alloc, running.output.as_slice())?;
    let tag = match change.action {
        Action::Set(_) => Tag::Update(running.acts),
        Action::Delete => Tag::Delete(running.acts),
    };
    Ok(Reply { tag, rows })
}

/// A copy of what was made for the candidate taken up last: the proposed row of an INSERT.
pub fn proposed_values(alloc: Global, running: &Running) -> Result<Values, AllocError>
    ensures { IfOk result (λ values. values ≡ values_proposed running.now) }
{
    match candidate_numbered(candidate_list(running), running.candidate) {
        Some(candidate) => candidate.made.try_copy(alloc),
        None => Ok(Items::new(alloc)),
    }
}

/// The candidates, of which there are none where there was an error.
fn candidate_list(running: &Running) -> &[Candidate]
    ensures { result.now ≡ list_of running.now.candidates }
{
    match &running.candidates {
        Ok(candidates) => candidates.as_slice(),
        Err(_) => &[],
    }
}

/// The candidate of that number, counted from 1.
fn candidate_numbered(candidates: &[Candidate], number: u64) -> Option<&Candidate>
    ensures { option_copied result ≡ nth_item candidates.now number }
{
    let before = number.checked_sub(1)?;
    candidates.get(before as usize)
}

/// What was made for the candidates, as a reply shows it.
fn made_rows(alloc: Global, candidates: &[Candidate]) -> Result<Rows, AllocError>
    ensures { IfOk result (λ rows.
        rows ≡ map (λ row. map value_shown row)
        (map (λ candidate. candidate.made) candidates.now)) }
{
    let mut rows = Items::new(alloc);
    for candidate in candidates {
        rows.push(shown_row(alloc, candidate.made.as_slice())?)?;
    }
    Ok(rows)
}

/// The rows, as a reply shows them.
fn shown_rows(alloc: Global, rows: &[Values]) -> Result<Rows, AllocError>
    ensures { IfOk result (λ shown. shown ≡ map (λ row. map value_shown row) rows.now) }
{
    let mut shown = Items::new(alloc);
    for row in rows {
        shown.push(shown_row(alloc, row.as_slice())?)?;
    }
    Ok(shown)
}

/// The values of a row, as a reply shows them.
fn shown_row(alloc: Global, row: &[Value]) -> Result<Values, AllocError>
    ensures { IfOk result (λ shown. shown ≡ map value_shown row.now) }
{
    let mut shown = Items::new(alloc);
    for value in row {
        shown.push(shown_value(alloc, value)?)?;
    }
    Ok(shown)
}

/// A reply shows an integer as a bigint.
fn shown_value(alloc: Global, value: &Value) -> Result<Value, AllocError>
    ensures { IfOk result (λ shown. shown ≡ value_shown value.now) }
{
    match value {
        Value::Int(number) => Ok(Value::Big(i64::from(*number))),
        _ => copy_value(alloc, value),
    }
}
