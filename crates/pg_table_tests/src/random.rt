//! Random steps on a table and on a plain list of what was placed, which are then compared.
//!
//! What is placed draws one row number and one version number, so the two are the same here, and
//! the place of each in the plain list is the number before it.

use crate::helpers::{
    begin, commit, current, has_committed, me, newest, next_number, roll_back, runs, seen, up_to,
    values,
};
use crate::inserts::Inserts;
use pg_xacts::{Me, Xacts};
use std::alloc::{AllocError, Global};

/// What has become of a version.
#[derive(Clone, Copy, Debug, PartialEq, Eq)]
enum Fate {
    Waits,
    Stands,
    Gone,
}

/// A version of the plain list.
#[derive(Clone, Copy, Debug)]
struct Plain {
    xact: u32,
    command: u32,
    value: i32,
    fate: Fate,
}

/// The transactions, the table, and the plain list of what should be in it.
#[derive(Drop)]
struct Pair {
    alloc: Global,
    xacts: Xacts,
    table: Inserts,
    plain: Vec<Plain>,
}

/// The number of a transaction that was begun, if any was.
fn any_xact(xacts: &Xacts, seed: u64) -> u32 {
    u32::try_from(up_to(seed, u64::from(xacts.count()))).unwrap_or(u32::MAX)
}

/// Whether a statement sees a version of the plain list.
fn is_seen(xacts: &Xacts, me: Me, version: Plain) -> bool {
    let own = version.xact == me.xact && version.command < me.command;
    version.fate == Fate::Stands && (own || has_committed(xacts, version.xact))
}

/// Whether a version of the plain list is current for a transaction.
fn is_current(xacts: &Xacts, me: Me, version: Plain) -> bool {
    let own = version.xact == me.xact;
    version.fate == Fate::Stands && (own || !runs(xacts, version.xact))
}

/// A step that a random number names, of a command with its own number.
fn step(pair: &mut Pair, seed: u64, command: u32) -> Result<(), AllocError> {
    let xact = any_xact(&pair.xacts, next_number(seed));
    let row = up_to(next_number(seed), pair.table.table().rows_drawn());
    match up_to(seed, 12) {
        1 | 2 => begin(&mut pair.xacts),
        3..=5 => place(pair, me(xact, command)),
        6 => add(pair, me(xact, command)),
        7..=10 => {
            settle(pair, row);
            Ok(())
        }
        11 => {
            end_by_commit(pair, xact);
            Ok(())
        }
        _ => {
            end_by_rollback(pair, xact);
            Ok(())
        }
    }
}

/// Places a row, where the transaction runs; its value is that of the command.
fn place(pair: &mut Pair, me: Me) -> Result<(), AllocError> {
    if runs(&pair.xacts, me.xact) {
        let row = values(pair.alloc, me.command)?;
        pair.table.place(me, row)?;
        keep(pair, me, Fate::Waits)?;
    }
    Ok(())
}

/// Places a row and stores it, where the transaction runs.
fn add(pair: &mut Pair, me: Me) -> Result<(), AllocError> {
    if runs(&pair.xacts, me.xact) {
        let row = values(pair.alloc, me.command)?;
        pair.table.add(me, row)?;
        keep(pair, me, Fate::Stands)?;
    }
    Ok(())
}

/// The value that a command writes.
fn value_of(me: Me) -> i32 {
    (me.command % 1000) as i32
}

/// A version more in the plain list.
fn keep(pair: &mut Pair, me: Me, fate: Fate) -> Result<(), AllocError> {
    pair.plain.push(Plain {
        xact: me.xact,
        command: me.command,
        value: value_of(me),
        fate,
    })?;
    Ok(())
}

/// What waits under a row number stands.
fn settle(pair: &mut Pair, row: u64) {
    pair.table.settle(row);
    if let Some(version) = pair.plain.get_mut(row.saturating_sub(1) as usize) {
        if version.fate == Fate::Waits {
            version.fate = Fate::Stands;
        }
    }
}

/// A transaction that runs commits: what it left to wait is gone.
fn end_by_commit(pair: &mut Pair, xact: u32) {
    if runs(&pair.xacts, xact) {
        commit(&mut pair.xacts, xact);
        pair.table.ended(xact);
        for version in pair.plain.iter_mut() {
            if version.xact == xact && version.fate == Fate::Waits {
                version.fate = Fate::Gone;
            }
        }
    }
}

/// A transaction that runs is rolled back: all that it wrote is gone.
fn end_by_rollback(pair: &mut Pair, xact: u32) {
    if runs(&pair.xacts, xact) {
        roll_back(&mut pair.xacts, xact);
        pair.table.undo(xact);
        for version in pair.plain.iter_mut() {
            if version.xact == xact {
                version.fate = Fate::Gone;
            }
        }
    }
}

/// What a statement sees of the plain list, with the row numbers.
fn plain_seen(pair: &Pair, me: Me) -> Result<Vec<(u64, i32)>, AllocError> {
    let mut seen = Vec::new(pair.alloc);
    let mut row = 0u64;
    for version in &pair.plain {
        row = row.saturating_add(1);
        if is_seen(&pair.xacts, me, *version) {
            seen.push((row, version.value))?;
        }
    }
    Ok(seen)
}

/// Whether the newest and the current version of a row are those of the plain list.
fn is_right(pair: &Pair, me: Me, row: u64, version: Plain) -> bool {
    let newest_is = newest(pair.table.table(), row) == Some(row);
    let current_is = current(pair.table.table(), &pair.xacts, &me, row) == Some(row);
    let none = newest(pair.table.table(), row).is_none();
    let right = if version.fate == Fate::Stands {
        newest_is
    } else {
        none
    };
    right && current_is == is_current(&pair.xacts, me, version)
}

/// Whether this is so of all rows.
fn are_right(pair: &Pair, me: Me) -> bool {
    let mut row = 0u64;
    for version in &pair.plain {
        row = row.saturating_add(1);
        if !is_right(pair, me, row, *version) {
            return false;
        }
    }
    true
}

/// In what the two differ for a statement, if they do.
fn difference(pair: &Pair, me: Me) -> Result<Option<&'static str>, AllocError> {
    if pair.table.table().versions_drawn() != pair.plain.len() as u64 {
        return Ok(Some("the count of versions"));
    }
    if !are_right(pair, me) {
        return Ok(Some("the newest or the current version"));
    }
    let seen = seen(pair.alloc, pair.table.table(), &pair.xacts, me)?;
    if seen.as_slice() != plain_seen(pair, me)?.as_slice() {
        return Ok(Some("the rows seen"));
    }
    Ok(None)
}

/// Does so many random steps, and answers the number of the first after which the two differ, with
/// what differs.
pub fn first_wrong_step(
    alloc: Global,
    round: u64,
    steps: u32,
) -> Result<Option<(u32, &'static str)>, AllocError> {
    let mut pair = Pair {
        alloc,
        xacts: Xacts::new(alloc),
        table: Inserts::new(alloc),
        plain: Vec::new(alloc),
    };
    let mut seed = next_number(round);
    for number in 0..steps {
        seed = next_number(seed);
        step(&mut pair, seed, number)?;
        let reader = any_xact(&pair.xacts, next_number(seed));
        if let Some(what) = difference(&pair, me(reader, number))? {
            return Ok(Some((number, what)));
        }
    }
    Ok(None)
}
