ghost use Rattle.std.specs.Prelude.{◌≡◌, ◌<◌, ◌≤◌, OnErr, OnOk, length, option_map, ℕ};
ghost use Rattle.std.specs.List.{list_any};
ghost use Rattle.pg_lists.specs.Numbered.{nth_item, with_changed_nth_item};
ghost use Rattle.pg_locks.specs.Locks.{locks_held, locks_left_where};
ghost use Rattle.pg_multi.specs.Locks.{locks_left};
ghost use Rattle.std.specs.Prelude.{nat_eq};

use pg_multi::{Members, Strength};
use std::alloc::AllocError;

/// The transaction holds the row at that strength too; or it refuses for want of memory alone, and
/// leaves the locks as they were.
pub fn join(
    rows: &mut Vec<Members>,
    row: u64,
    xact: u32,
    strength: Strength,
) -> Result<(), AllocError>
    ensures ok { OnOk result (rows.new.items ≡ locks_held rows.old.items xact row strength) }
    ensures err { OnErr result (rows.new.items ≡ rows.old.items) }
{
    let Some(before) = row.checked_sub(1) else {
        return Ok(());
    };
    match rows.get_mut(before as usize) {
        Some(locks) => locks.join(xact, strength),
        None => Ok(()),
    }
}

/// What the transaction holds of each of these rows ends.
pub fn leave_all(rows: &mut Vec<Members>, held: &[u64], xact: u32)
    ensures { (row : ℕ) → nth_item rows.new.items row
        ≡ option_map (locks_left_where (list_any (nat_eq row) held.now) xact)
        (nth_item rows.old.items row) }
{
    for row in held {
        leave(rows, *row, xact);
    }
}

/// What the transaction holds of a row ends.
fn leave(rows: &mut Vec<Members>, row: u64, xact: u32)
    ensures { rows.new.items
        ≡ with_changed_nth_item (λ locks. locks_left locks xact) rows.old.items row }
{
    let Some(before) = row.checked_sub(1) else {
        return;
    };
    if let Some(locks) = rows.get_mut(before as usize) {
        locks.leave(xact);
    }
}
