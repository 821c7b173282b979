//! Random locks, updates and deletes on a table and on plain lists of versions and locks, which are
//! then compared.
//!
//! Each draft draws the next version number, so the place of a version in the plain list is the
//! number before its own.

use crate::helpers::{
    commit, current, has_committed, me, newest, next_number, runs, seen, up_to, values,
};
use pg_multi::{Strength, conflicts};
use pg_table::{Hold, Table};
use pg_xacts::{Me, On, Until, Xacts};
use std::alloc::{AllocError, Global};

/// What has become of a version.
#[derive(Clone, Copy, Debug, PartialEq, Eq)]
enum Fate {
    Waits,
    Stands,
    Gone,
}

/// A version of the plain list; one without a value says that its row is gone.
#[derive(Clone, Copy, Debug)]
struct Plain {
    row: u64,
    xact: u32,
    command: u32,
    value: Option<i32>,
    fate: Fate,
}

/// A lock of the plain list.
#[derive(Clone, Copy, Debug)]
struct Lock {
    row: u64,
    xact: u32,
    strength: Strength,
}

/// The transactions, the table, and the plain lists of what should be in it.
#[derive(Drop)]
struct Both {
    alloc: Global,
    xacts: Xacts,
    table: Table,
    versions: Vec<Plain>,
    locks: Vec<Lock>,
}

/// A strength that a random number names.
fn any_strength(seed: u64) -> Strength {
    match up_to(seed, 4) {
        1 => Strength::KeyShare,
        2 => Strength::Share,
        3 => Strength::NoKeyUpdate,
        _ => Strength::Update,
    }
}

/// The session of a transaction: each is begun by a session with the number before its own.
fn session_of(xact: u32) -> u32 {
    xact.saturating_sub(1)
}

/// A statement of a transaction.
fn by(xact: u32, command: u32) -> Me {
    Me {
        session: session_of(xact),
        ..me(xact, command)
    }
}

/// For whom a version of a row is looked for.
#[derive(Clone, Copy, Debug)]
enum Look {
    /// The newest one.
    Newest,
    /// The current one for a transaction.
    Current(u32),
    /// The one that a statement sees.
    Seen(Me),
}

/// Whether a version is one of those that are looked for.
fn is_meant(xacts: &Xacts, look: Look, version: Plain) -> bool {
    let stands = version.fate == Fate::Stands;
    match look {
        Look::Newest => stands,
        Look::Current(xact) => stands && (version.xact == xact || !runs(xacts, version.xact)),
        Look::Seen(me) => {
            let own = version.xact == me.xact && version.command < me.command;
            stands && (own || has_committed(xacts, version.xact))
        }
    }
}

/// The number of the last version of a row that is looked for, with the version.
fn last(both: &Both, row: u64, look: Look) -> Option<(u64, Plain)> {
    let mut found = None;
    let mut number = 0u64;
    for version in &both.versions {
        number = number.saturating_add(1);
        if version.row == row && is_meant(&both.xacts, look, *version) {
            found = Some((number, *version));
        }
    }
    found
}

/// The number of that version, where it does not say that the row is gone.
fn last_there(both: &Both, row: u64, look: Look) -> Option<u64> {
    let (number, version) = last(both, row, look)?;
    version.value?;
    Some(number)
}

/// The lowest other transaction whose lock conflicts.
fn blocker(both: &Both, xact: u32, row: u64, strength: Strength) -> Option<u32> {
    let mut lowest: Option<u32> = None;
    for lock in &both.locks {
        let blocks = lock.row == row && lock.xact != xact && conflicts(strength, lock.strength);
        if blocks && lowest.is_none_or(|other| lock.xact < other) {
            lowest = Some(lock.xact);
        }
    }
    lowest
}

/// What a statement that wishes to lock a row should be answered.
fn wanted_hold(both: &Both, me: Me, row: u64, strength: Strength) -> Hold {
    if let Some((_, newest)) = last(both, row, Look::Newest) {
        if newest.xact == me.xact && newest.command == me.command {
            return Hold::Own;
        }
    }
    if last_there(both, row, Look::Current(me.xact)).is_none() {
        return Hold::Gone;
    }
    match blocker(both, me.xact, row, strength) {
        None => Hold::Held,
        Some(other) => Hold::Blocked(On {
            session: session_of(other),
            until: Until::Transaction,
        }),
    }
}

/// The transaction has the lock in the plain list, or a stronger one that it had.
fn keep_lock(both: &mut Both, xact: u32, row: u64, strength: Strength) -> Result<(), AllocError> {
    for lock in both.locks.iter_mut() {
        if lock.row == row && lock.xact == xact {
            lock.strength = lock.strength.stronger_of(strength);
            return Ok(());
        }
    }
    both.locks.push(Lock {
        row,
        xact,
        strength,
    })?;
    Ok(())
}

/// Locks a row that was drawn, and answers whether the answer is the right one, and whether the row
/// is held.
fn hold(both: &mut Both, me: Me, row: u64, strength: Strength) -> Result<(bool, bool), AllocError> {
    if row == 0 || row > both.table.rows_drawn() || !runs(&both.xacts, me.xact) {
        return Ok((true, false));
    }
    let wanted = wanted_hold(both, me, row, strength);
    let answer = both.table.hold(&both.xacts, &me, row, strength)?;
    if answer == Hold::Held {
        keep_lock(both, me.xact, row, strength)?;
    }
    Ok((answer == wanted, answer == Hold::Held))
}

/// A version more in the plain list.
fn keep(
    both: &mut Both,
    me: Me,
    row: u64,
    value: Option<i32>,
    fate: Fate,
) -> Result<(), AllocError> {
    both.versions.push(Plain {
        row,
        xact: me.xact,
        command: me.command,
        value,
        fate,
    })?;
    Ok(())
}

/// The value that a command writes.
fn value_of(me: Me) -> i32 {
    (me.command % 1000) as i32
}

/// Places a row and stores it at once, where the transaction runs.
fn add(both: &mut Both, me: Me) -> Result<(), AllocError> {
    if runs(&both.xacts, me.xact) {
        let row = both.table.rows_drawn().saturating_add(1);
        let new = values(both.alloc, me.command)?;
        both.table.add(me, new)?;
        keep(both, me, row, Some(value_of(me)), Fate::Stands)?;
    }
    Ok(())
}

/// Stages new values of a row of which no draft waits.
fn stage(both: &mut Both, me: Me, row: u64) -> Result<(), AllocError> {
    if row == 0 || row > both.table.rows_drawn() || both.table.has_draft(row) {
        return Ok(());
    }
    let new = values(both.alloc, me.command)?;
    both.table.stage(me, row, new)?;
    keep(both, me, row, Some(value_of(me)), Fate::Waits)
}

/// Erases a row of which no draft waits.
fn erase(both: &mut Both, me: Me, row: u64) -> Result<(), AllocError> {
    if row == 0 || row > both.table.rows_drawn() || both.table.has_draft(row) {
        return Ok(());
    }
    both.table.erase(me, row)?;
    keep(both, me, row, None, Fate::Stands)
}

/// Writes what is staged for a row.
fn write(both: &mut Both, row: u64) {
    both.table.write(row);
    for version in both.versions.iter_mut() {
        if version.row == row && version.fate == Fate::Waits {
            version.fate = Fate::Stands;
        }
    }
}

/// A transaction that runs commits: what it left staged is gone, and its locks end.
fn end_by_commit(both: &mut Both, xact: u32) {
    if runs(&both.xacts, xact) {
        commit(&mut both.xacts, xact);
        both.table.ended(xact);
        both.locks.retain(|lock| lock.xact != xact);
        drop_drafts(&mut both.versions, xact);
    }
}

/// What a transaction left staged is gone.
fn drop_drafts(versions: &mut Vec<Plain>, xact: u32) {
    for version in versions.iter_mut() {
        if version.xact == xact && version.fate == Fate::Waits {
            version.fate = Fate::Gone;
        }
    }
}

/// Begins the next transaction, by a session of its own.
fn begin(xacts: &mut Xacts) -> Result<(), AllocError> {
    let session = xacts.count();
    if session < u32::MAX {
        xacts.begin(session)?;
    }
    Ok(())
}

/// Changes a row that the transaction holds for that.
fn change(both: &mut Both, me: Me, row: u64, seed: u64) -> Result<bool, AllocError> {
    let (right, held) = hold(both, me, row, Strength::NoKeyUpdate)?;
    if held && up_to(seed, 3) == 1 {
        erase(both, me, row)?;
    } else if held {
        stage(both, me, row)?;
    }
    Ok(right)
}

/// A step that a random number names, of a command with its own number; answers whether what a hold
/// answered was right.
fn step(both: &mut Both, seed: u64, command: u32) -> Result<bool, AllocError> {
    let drawn = next_number(seed);
    let last = u64::from(both.xacts.count());
    let xact = u32::try_from(up_to(drawn, last)).unwrap_or(u32::MAX);
    let row = up_to(next_number(drawn), both.table.rows_drawn());
    let me = by(xact, command);
    match up_to(seed, 16) {
        1 | 2 => begin(&mut both.xacts)?,
        3 | 4 => add(both, me)?,
        5..=7 => return Ok(hold(both, me, row, any_strength(drawn))?.0),
        8..=12 => return change(both, me, row, next_number(drawn)),
        13..=15 => write(both, row),
        _ => end_by_commit(both, xact),
    }
    Ok(true)
}

/// Whether the newest, the current and the seen version of a row are those of the plain list.
fn is_right(both: &Both, me: Me, row: u64) -> bool {
    let wanted = last(both, row, Look::Newest).map(|found| found.0);
    newest(&both.table, row) == wanted
        && current(&both.table, &both.xacts, &me, row)
            == last_there(both, row, Look::Current(me.xact))
}

/// Whether this is so of all rows.
fn are_right(both: &Both, me: Me) -> bool {
    for before in 0..both.table.rows_drawn() {
        if !is_right(both, me, before.saturating_add(1)) {
            return false;
        }
    }
    true
}

/// Whether a version, of that number, is the one of its row that a statement sees.
fn is_seen(both: &Both, me: Me, number: u64, row: u64) -> bool {
    match last(both, row, Look::Seen(me)) {
        Some((seen, _)) => seen == number,
        None => false,
    }
}

/// What a statement sees of the plain list, with the row numbers, in order of version number.
fn plain_seen(both: &Both, me: Me) -> Result<Vec<(u64, i32)>, AllocError> {
    let mut seen = Vec::new(both.alloc);
    let mut number = 0u64;
    for version in &both.versions {
        number = number.saturating_add(1);
        if let Some(value) = version.value {
            if is_seen(both, me, number, version.row) {
                seen.push((version.row, value))?;
            }
        }
    }
    Ok(seen)
}

/// In what the two differ for a statement, if they do.
fn difference(both: &Both, me: Me) -> Result<Option<&'static str>, AllocError> {
    if both.table.versions_drawn() != both.versions.len() as u64 {
        return Ok(Some("the count of versions"));
    }
    if !are_right(both, me) {
        return Ok(Some("the newest or the current version"));
    }
    let seen = seen(both.alloc, &both.table, &both.xacts, me)?;
    if seen.as_slice() != plain_seen(both, me)?.as_slice() {
        return Ok(Some("the rows seen"));
    }
    Ok(None)
}

/// Does so many random steps, and answers the number of the first after which the two differ, with
/// what differs.
pub fn first_wrong_change(
    alloc: Global,
    round: u64,
    steps: u32,
) -> Result<Option<(u32, &'static str)>, AllocError> {
    let mut both = Both {
        alloc,
        xacts: Xacts::new(alloc),
        table: Table::new(alloc),
        versions: Vec::new(alloc),
        locks: Vec::new(alloc),
    };
    let mut seed = next_number(round);
    for number in 0..steps {
        seed = next_number(seed);
        if !step(&mut both, seed, number)? {
            return Ok(Some((number, "the answer of a hold")));
        }
        let reader = u32::try_from(up_to(next_number(seed), u64::from(both.xacts.count())));
        if let Some(what) = difference(&both, by(reader.unwrap_or(u32::MAX), number))? {
            return Ok(Some((number, what)));
        }
    }
    Ok(None)
}
