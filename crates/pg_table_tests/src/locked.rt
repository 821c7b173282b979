//! Calls that lock and change the rows of a table, with what they answer, worked out by hand.
use crate::helpers::{commit, me, two, values};
use crate::texts::{cut, first, put_committed, put_seen};
use pg_multi::Strength;
use pg_table::Table;
use pg_xacts::{Me, Xacts};
use std::alloc::{AllocError, Global};

/// Cases, each a list of calls while two transactions run, with what they answer. `add`, `stage`,
/// `erase`, `hold` and `seen` name a transaction and its command; all but `add` and `seen` a row
/// too, and then a value or a strength. `ended` is a commit that the table alone is told of.
const CASES: &str = "\
add 0 0 10
stage 1 1 1 20
draft 1 -> true
seen 1 2 -> 1:10
write 1
draft 1 -> false
seen 1 2 -> 1:20
seen 2 1 -> 1:10
commit 1
committed -> 20

add 0 0 10
stage 1 1 1 20
ended 1
draft 1 -> false
erase 1 2 1
seen 2 1 -> 1:10
commit 1
seen 2 1 ->
committed ->

add 0 0 10
stage 1 1 1 20
hold 1 1 1 key share -> Some(Held)
hold 2 1 1 no key update -> Some(Held)
hold 2 1 1 update -> Some(Blocked(On { session: 0, until: Transaction }))
hold 1 1 1 share -> Some(Blocked(On { session: 0, until: Transaction }))
ended 2
hold 1 1 1 share -> Some(Held)

add 0 0 10
stage 1 1 1 20
ended 1
erase 1 2 1
hold 1 2 1 update -> Some(Own)
hold 1 3 1 update -> Some(Gone)
hold 1 3 2 update -> None";

/// The transactions, and a table that they write.
#[derive(Drop)]
struct Case {
    alloc: Global,
    xacts: Xacts,
    table: Table,
}

/// The strength of that name; the strongest where there is none.
fn strength(name: &str) -> Strength {
    match name {
        "key share" => Strength::KeyShare,
        "share" => Strength::Share,
        "no key update" => Strength::NoKeyUpdate,
        _ => Strength::Update,
    }
}

/// Stages new values of a row of which no draft waits.
fn stage(case: &mut Case, me: Me, row: u64, value: u32) -> Result<(), AllocError> {
    if row == 0 || row > case.table.rows_drawn() || case.table.has_draft(row) {
        return Ok(());
    }
    let new = values(case.alloc, value)?;
    case.table.stage(me, row, new)
}

/// Erases a row of which no draft waits.
fn erase(case: &mut Case, me: Me, row: u64) -> Result<(), AllocError> {
    if row == 0 || row > case.table.rows_drawn() || case.table.has_draft(row) {
        return Ok(());
    }
    case.table.erase(me, row)
}

/// Appends whether a draft of a row waits.
fn put_draft(text: &mut String, case: &Case, row: u64) -> Result<(), AllocError> {
    text.push_str(if case.table.has_draft(row) {
        " -> true"
    } else {
        " -> false"
    })
}

/// Appends what a statement is answered that wishes to lock a row, if the row was drawn.
fn put_hold(
    text: &mut String,
    case: &mut Case,
    me: Me,
    row: u64,
    strength: Strength,
) -> Result<(), AllocError> {
    if row == 0 || row > case.table.rows_drawn() {
        return text.push_str(" -> None");
    }
    let answer = Some(case.table.hold(&case.xacts, &me, row, strength)?);
    text.push_str(format!(in case.alloc; " -> {answer:?}")?.as_str())
}

/// A transaction commits.
fn end(case: &mut Case, xact: u32) {
    commit(&mut case.xacts, xact);
    case.table.ended(xact);
}

/// Makes a call of a command on a row, and appends what it answers, if it does; an unknown one ends
/// the test.
fn put_change(
    text: &mut String,
    case: &mut Case,
    name: &str,
    me: Me,
    operands: &str,
) -> Result<(), AllocError> {
    let (row, operand) = first(operands);
    let (value, _) = first(operand);
    match name {
        "stage" => stage(case, me, u64::from(row), value)?,
        "erase" => erase(case, me, u64::from(row))?,
        "hold" => put_hold(text, case, me, u64::from(row), strength(operand))?,
        _ => return Err(AllocError),
    }
    Ok(())
}

/// Makes a call, and appends what it answers, if it does.
fn put_answer(text: &mut String, case: &mut Case, call: &str) -> Result<(), AllocError> {
    let (name, numbers) = cut(call, " ");
    let (one, behind) = first(numbers);
    let (other, operands) = first(behind);
    let (value, _) = first(operands);
    match name {
        "add" => case.table.add(me(one, other), values(case.alloc, value)?)?,
        "write" => case.table.write(u64::from(one)),
        "draft" => put_draft(text, case, u64::from(one))?,
        "commit" => end(case, one),
        "ended" => case.table.ended(one),
        "seen" => put_seen(text, case.alloc, &case.table, &case.xacts, me(one, other))?,
        "committed" => put_committed(text, case.alloc, &case.table, &case.xacts)?,
        name => put_change(text, case, name, me(one, other), operands)?,
    }
    Ok(())
}

/// The calls of a case, with what they answer.
fn answers(alloc: Global, calls: &str) -> Result<String, AllocError> {
    let mut case = Case {
        alloc,
        xacts: two(alloc)?,
        table: Table::new(alloc),
    };
    let mut text = String::new(alloc);
    for line in calls.lines() {
        let (call, _) = cut(line, " ->");
        text.push_str(call)?;
        put_answer(&mut text, &mut case, call)?;
        text.push_str("\n")?;
    }
    Ok(text)
}

/// The first case whose calls are answered otherwise than it says, with what they answer.
fn first_wrong(alloc: Global, cases: &str) -> Result<Option<String>, AllocError> {
    for case in cases.split("\n\n") {
        let got = answers(alloc, case)?;
        if got.as_str().trim_end() != case {
            return Ok(Some(got));
        }
    }
    Ok(None)
}

#[test]
fn locks_and_changes_are_answered(rt: HostRuntime) -> Result<(), AllocError> {
    assert_eq!(rt; first_wrong(rt.alloc(), CASES)?, None);
    Ok(())
}
