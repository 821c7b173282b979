ghost use Rattle.std.specs.Prelude.{◌≡◌, ◌<◌, ◌≤◌, OnOk, is_some, length, true};
ghost use Rattle.pg_locks.specs.Locks.{is_held};
ghost use Rattle.pg_locks.specs.Notes.{AreNoted, IsNoted, KeepsNotes};

use pg_lists::Items;
use pg_multi::Members;
use std::alloc::{AllocError, Global};
use std::collections::HashMap;

/// Sees to it that a row is noted for a transaction that is to hold it; or refuses for want of
/// memory alone. What was noted stays.
pub fn note_held(
    alloc: Global,
    rows: &[Members],
    held: &mut HashMap<u32, Items<u64>>,
    xact: u32,
    row: u64,
) -> Result<(), AllocError>
    requires first { 0 < row }
    requires drawn { row ≤ length rows.now }
    requires noted { AreNoted rows.now held.old.entries }
    ensures ok { OnOk result (IsNoted held.new.entries xact row) }
    ensures kept { KeepsNotes held.old.entries held.new.entries }
{
    if is_held(rows, row, xact) {
        return Ok(());
    }
    note(alloc, held, xact, row)
}

/// Whether a transaction holds a row.
fn is_held(rows: &[Members], row: u64, xact: u32) -> bool
    requires first { 0 < row }
    requires drawn { row ≤ length rows.now }
    ensures { result ≡ is_held rows.now row xact }
{
    rows[row as usize - 1].strongest_of(xact).is_some()
}

/// Notes a row behind those that are noted for a transaction; or refuses for want of memory alone.
/// What was noted stays.
fn note(
    alloc: Global,
    held: &mut HashMap<u32, Items<u64>>,
    xact: u32,
    row: u64,
) -> Result<(), AllocError>
    ensures ok { OnOk result (IsNoted held.new.entries xact row) }
    ensures kept { KeepsNotes held.old.entries held.new.entries }
{
    match held.get_mut(&xact) {
        Some(rows) => rows.push(row),
        None => {
            let mut rows = Items::new(alloc);
            rows.push(row)?;
            held.insert(xact, rows)?;
            Ok(())
        }
    }
}
