//! What several tests use.

ghost use Rattle.std.specs.Prelude.{◌≡◌, IfSome, Some};
ghost use Rattle.pg_xacts.specs.Transactions.{status_of};

use pg_heap::Version;
use pg_lists::Items;
use pg_table::Table;
use pg_values::{Value, Values};
use pg_xacts::{Me, XStatus, Xacts};
use std::alloc::{AllocError, Global};

/// The values of a row with one column, of a number below 1000.
pub fn values(alloc: Global, number: u32) -> Result<Values, AllocError> {
    let mut values = Items::new(alloc);
    values.push(Value::Int((number % 1000) as i32))?;
    Ok(values)
}

/// The number that is the only value of a row; 0 where there is no such value.
fn number(values: &Values) -> i32 {
    match values.as_slice() {
        [Value::Int(number)] => *number,
        _ => 0,
    }
}

/// The number of a version's row; -1 where it says that the row is gone.
fn number_in(version: &Version) -> i32 {
    match &version.values {
        Some(values) => number(values),
        None => -1,
    }
}

/// A statement of the session 0.
pub fn me(xact: u32, command: u32) -> Me {
    Me {
        session: 0,
        xact,
        command,
    }
}

/// How a transaction stands, where it was begun.
pub fn status(xacts: &Xacts, xact: u32) -> Option<XStatus>
    ensures { IfSome result (λ status. status_of xacts.now xact ≡ Some status) }
{
    if xact > xacts.count() {
        return None;
    }
    Some(xacts.status(xact))
}

/// Whether a transaction runs.
pub fn runs(xacts: &Xacts, xact: u32) -> bool {
    status(xacts, xact) == Some(XStatus::Running)
}

/// Whether a transaction has committed.
pub fn has_committed(xacts: &Xacts, xact: u32) -> bool {
    matches!(status(xacts, xact), Some(XStatus::Committed(_)))
}

/// The number after another in a row of numbers that look random.
pub fn next_number(seed: u64) -> u64 {
    seed.wrapping_mul(6_364_136_223_846_793_005)
        .wrapping_add(1_442_695_040_888_963_407)
}

/// A number from 1 up to the last.
pub fn up_to(seed: u64, last: u64) -> u64 {
    ((seed >> 33) % last.max(1)).saturating_add(1)
}

/// Begins a transaction of the session 0.
pub fn begin(xacts: &mut Xacts) -> Result<(), AllocError> {
    if xacts.count() < u32::MAX {
        xacts.begin(0)?;
    }
    Ok(())
}

/// The transaction commits, where it runs.
pub fn commit(xacts: &mut Xacts, xact: u32) {
    if status(xacts, xact) == Some(XStatus::Running) {
        xacts.commit(xact);
    }
}

/// The transaction is rolled back, where it runs.
pub fn roll_back(xacts: &mut Xacts, xact: u32) {
    if status(xacts, xact) == Some(XStatus::Running) {
        xacts.rollback(xact);
    }
}

/// Two transactions that run.
pub fn two(alloc: Global) -> Result<Xacts, AllocError> {
    let mut xacts = Xacts::new(alloc);
    begin(&mut xacts)?;
    begin(&mut xacts)?;
    Ok(xacts)
}

/// The values of the committed rows.
pub fn committed(alloc: Global, table: &Table, xacts: &Xacts) -> Result<Vec<i32>, AllocError> {
    let rows = table.committed(alloc, xacts)?;
    let mut committed = Vec::new(alloc);
    for values in rows.as_slice() {
        committed.push(number(values))?;
    }
    Ok(committed)
}

/// The current version of a row that was drawn.
pub fn current(table: &Table, xacts: &Xacts, me: &Me, row: u64) -> Option<u64> {
    if row == 0 || row > table.rows_drawn() {
        return None;
    }
    table.current(xacts, me, row)
}

/// The newest version of a row that was drawn.
pub fn newest(table: &Table, row: u64) -> Option<u64> {
    if row == 0 || row > table.rows_drawn() {
        return None;
    }
    table.newest(row)
}

/// Keeps what a statement sees of a piece, and answers the number behind it.
fn keep_piece(
    alloc: Global,
    table: &Table,
    xacts: &Xacts,
    me: &Me,
    from: u64,
    seen: &mut Vec<(u64, i32)>,
) -> Result<Option<u64>, AllocError> {
    let snapshot = xacts.snapshot()?;
    let scan = table.visible(alloc, xacts, &snapshot, me, from)?;
    for version in scan.seen.as_slice() {
        seen.push((version.row, number_in(&version.version)))?;
    }
    Ok(scan.next)
}

/// What a statement sees whose snapshot is taken now, piece by piece: the row number and the value
/// of each row.
pub fn seen(
    alloc: Global,
    table: &Table,
    xacts: &Xacts,
    me: Me,
) -> Result<Vec<(u64, i32)>, AllocError> {
    let mut seen = Vec::new(alloc);
    let mut from = 1;
    for _ in 0..=table.versions_drawn() {
        match keep_piece(alloc, table, xacts, &me, from, &mut seen)? {
            Some(next) => from = next,
            None => break,
        }
    }
    Ok(seen)
}
