//! Calls on a table into which rows are only inserted, with what they answer, worked out by hand.
use crate::changes::first_wrong_change;
use crate::helpers::{commit, current, me, newest, two, values};
use crate::inserts::Inserts;
use crate::random::first_wrong_step;
use crate::texts::{cut, first, put, put_committed, put_found, put_seen};
use pg_xacts::{Me, Xacts};
use std::alloc::{AllocError, Global};

/// Cases, each a list of calls while two transactions run, with what they answer. `add`, `place`
/// and `seen` name a transaction and its command, the first two a value too; `current` names a
/// transaction and a row.
const CASES: &str = "\
add 0 0 10
place 1 1 20 -> 2
place 2 1 30 -> 3
drawn -> 3
settle 2
seen 1 1 -> 1:10
seen 1 2 -> 1:10 2:20
seen 2 2 -> 1:10
committed -> 10
commit 1
committed -> 10 20
seen 2 2 -> 1:10 2:20
place 2 2 40 -> 4
drawn -> 4

add 0 0 10
place 1 1 20 -> 2
newest 2 -> none
settle 2
newest 2 -> 2
current 1 2 -> 2
current 2 2 -> none
commit 1
current 2 2 -> 2

add 0 0 10
place 1 1 20 -> 2
place 2 1 30 -> 3
settle 2
undo 1
undo 2
settle 3
commit 2
seen 1 2 -> 1:10
committed -> 10";

/// The transactions, and a table that they write.
#[derive(Drop)]
struct Case {
    alloc: Global,
    xacts: Xacts,
    table: Inserts,
}

/// An empty table, while two transactions run.
fn new_case(alloc: Global) -> Result<Case, AllocError> {
    Ok(Case {
        alloc,
        xacts: two(alloc)?,
        table: Inserts::new(alloc),
    })
}

/// Lets a value wait, and appends the row number that it waits under.
fn put_placed(text: &mut String, case: &mut Case, me: Me, value: u32) -> Result<(), AllocError> {
    let row = case.table.place(me, values(case.alloc, value)?)?;
    put(text, case.alloc, row)
}

/// A transaction commits.
fn end(case: &mut Case, xact: u32) {
    commit(&mut case.xacts, xact);
    case.table.ended(xact);
}

/// Appends the row numbers and the values that a statement sees.
fn put_rows(text: &mut String, case: &Case, me: Me) -> Result<(), AllocError> {
    put_seen(text, case.alloc, case.table.table(), &case.xacts, me)
}

/// Appends the values of the committed rows.
fn put_values(text: &mut String, case: &Case) -> Result<(), AllocError> {
    put_committed(text, case.alloc, case.table.table(), &case.xacts)
}

/// Makes a call, and appends what it answers, if it does; an unknown one ends the test.
fn put_answer(text: &mut String, case: &mut Case, call: &str) -> Result<(), AllocError> {
    let (name, numbers) = cut(call, " ");
    let (one, numbers) = first(numbers);
    let (other, numbers) = first(numbers);
    let (value, _) = first(numbers);
    match name {
        "add" => case.table.add(me(one, other), values(case.alloc, value)?)?,
        "place" => put_placed(text, case, me(one, other), value)?,
        "settle" => case.table.settle(u64::from(one)),
        "undo" => case.table.undo(one),
        "commit" => end(case, one),
        "seen" => put_rows(text, case, me(one, other))?,
        "committed" => put_values(text, case)?,
        "drawn" => put(text, case.alloc, case.table.table().rows_drawn())?,
        "newest" => put_found(text, case.alloc, newest(case.table.table(), u64::from(one)))?,
        "current" => put_current(text, case, one, u64::from(other))?,
        _ => return Err(AllocError),
    }
    Ok(())
}

/// Appends the current version of a row for a transaction.
fn put_current(text: &mut String, case: &Case, xact: u32, row: u64) -> Result<(), AllocError> {
    let found = current(case.table.table(), &case.xacts, &me(xact, 1), row);
    put_found(text, case.alloc, found)
}

/// The calls of a case, with what they answer.
fn answers(alloc: Global, calls: &str) -> Result<String, AllocError> {
    let mut case = new_case(alloc)?;
    let mut text = String::new(alloc);
    for line in calls.lines() {
        let (call, _) = cut(line, " ->");
        text.push_str(call)?;
        put_answer(&mut text, &mut case, call)?;
        text.push_str("\n")?;
    }
    Ok(text)
}

/// The first case whose calls are answered otherwise than it says, with what they answer.
fn first_wrong(alloc: Global, cases: &str) -> Result<Option<String>, AllocError> {
    for case in cases.split("\n\n") {
        let got = answers(alloc, case)?;
        if got.as_str().trim_end() != case {
            return Ok(Some(got));
        }
    }
    Ok(None)
}

#[test]
fn calls_are_answered(rt: HostRuntime) -> Result<(), AllocError> {
    assert_eq!(rt; first_wrong(rt.alloc(), CASES)?, None);
    Ok(())
}

#[test]
fn random_steps_agree_with_a_plain_list(rt: HostRuntime) -> Result<(), AllocError> {
    let alloc = rt.alloc();
    for round in 1..=4 {
        assert_eq!(rt; first_wrong_step(alloc, round, 600)?, None);
    }
    Ok(())
}

#[test]
fn random_changes_agree_with_plain_lists(rt: HostRuntime) -> Result<(), AllocError> {
    let alloc = rt.alloc();
    for round in 1..=3 {
        assert_eq!(rt; first_wrong_change(alloc, round, 400)?, None);
    }
    Ok(())
}
