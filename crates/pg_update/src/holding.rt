//! What a statement does to a row of one of the tables: it locks it, stages new values for it, writes
//! them, or erases it.

ghost use Rattle.std.specs.Prelude.{◌≡◌, IfOk, OnErr, OnOk, Some, false, is_none, map};
ghost use Rattle.std.specs.Option.{option_copied};
ghost use Rattle.pg_heap.specs.Current.{current_values};
ghost use Rattle.pg_lists.specs.Numbered.{item_at, with_changed_item};
ghost use Rattle.pg_table.specs.Holds.{current_there, hold_answer, state_after_hold};
ghost use Rattle.pg_table.specs.States.{IsTable, TableState, row_erased_in, row_staged_in, row_written_in, table_shown};
ghost use Rattle.pg_update.specs.Steps.{CanChange};
ghost use Rattle.pg_world.specs.Changes.{current_name, row_at, table_at};

use pg_heap::Version;
use pg_multi::Strength;
use pg_table::{Hold, TableSet};
use pg_values::Values;
use pg_world::VersionName;
use pg_xacts::{Me, Xacts};
use std::alloc::AllocError;

/// The version of a row of the table of that number that is current for the transaction of `me`, or
/// `None` where the row is gone.
pub fn current_version<'tables>(
    tables: &'tables TableSet,
    xacts: &Xacts,
    me: &Me,
    number: u32,
    row: u64,
) -> Option<&'tables Version>
    ensures { option_copied result
        ≡ current_there xacts.now me.now.xact
        (row_at (table_at (map table_shown tables.now) number) row) }
{
    let table = tables.get(number as usize)?;
    if row == 0 {
        return None;
    }
    if row > table.rows_drawn() {
        return None;
    }
    table.current_version(xacts, me, row)
}

/// The name of that version, where the row is not gone.
pub fn name_of_current(
    tables: &TableSet,
    xacts: &Xacts,
    me: &Me,
    number: u32,
    row: u64,
) -> VersionName
    ensures { is_none (current_values xacts.now me.now.xact
        (row_at (table_at (map table_shown tables.now) number) row)) ≡ false →
        result ≡ current_name xacts.now me.now.xact
        (row_at (table_at (map table_shown tables.now) number) row) }
{
    match current_version(tables, xacts, me, number, row) {
        Some(version) => VersionName {
            writer: version.writer,
            command: version.command,
        },
        None => VersionName {
            writer: 0,
            command: 0,
        },
    }
}

/// Locks a row of the table of that number for `me`, at that strength, unless one of the answers
/// comes before; a row that is not there is gone. Want of memory leaves the tables as they were.
#[tactic(auto, using(pg_lists::proofs::Lists::slice_set_same))]
pub fn hold_row(
    tables: &mut TableSet,
    xacts: &Xacts,
    me: &Me,
    number: u32,
    row: u64,
    strength: Strength,
) -> Result<Hold, AllocError>
    ensures answer { IfOk result (λ hold. hold
        ≡ hold_answer (table_at (map table_shown tables.old) number) xacts.now me.now row
        strength) }
    ensures ok { IfOk result (λ hold. tables.new
        ≡ with_changed_item (λ state. state_after_hold hold state me.now.xact row strength)
        tables.old number) }
    ensures err { OnErr result (tables.new ≡ tables.old) }
{
    let Some(table) = tables.get_mut(number as usize) else {
        return Ok(Hold::Gone);
    };
    if row == 0 {
        return Ok(Hold::Gone);
    }
    if row > table.rows_drawn() {
        return Ok(Hold::Gone);
    }
    Ok(table.hold(xacts, me, row, strength)?)
}

/// Stages new values for a row of the table of that number; or refuses for want of memory alone and
/// leaves the tables as they were.
#[tactic(auto, using(pg_lists::proofs::Lists::slice_set_same))]
pub fn stage_values(
    tables: &mut TableSet,
    me: Me,
    number: u32,
    row: u64,
    values: Values,
) -> Result<(), AllocError>
    requires { CanChange tables.old number row }
    ensures ok { OnOk result (tables.new
        ≡ with_changed_item (λ state. row_staged_in state me row values) tables.old number) }
    ensures err { OnErr result (tables.new ≡ tables.old) }
    ensures kept { (state : TableState) → item_at tables.old number ≡ Some state →
        IsTable state }
{
    match tables.get_mut(number as usize) {
        Some(table) => Ok(table.stage(me, row, values)?),
        None => Ok(()),
    }
}

/// What is staged for a row of the table of that number, if anything is, becomes its newest version.
pub fn write_row(tables: &mut TableSet, number: u32, row: u64)
    ensures { tables.new
        ≡ with_changed_item (λ state. row_written_in state row) tables.old number }
{
    if let Some(table) = tables.get_mut(number as usize) {
        table.write(row);
    }
}

/// Gives a row of the table of that number a newest version that says that it is gone; or refuses for
/// want of memory alone and leaves the tables as they were.
#[tactic(auto, using(pg_lists::proofs::Lists::slice_set_same))]
pub fn erase_row(tables: &mut TableSet, me: Me, number: u32, row: u64) -> Result<(), AllocError>
    requires { CanChange tables.old number row }
    ensures ok { OnOk result (tables.new
        ≡ with_changed_item (λ state. row_erased_in state me row) tables.old number) }
    ensures err { OnErr result (tables.new ≡ tables.old) }
{
    match tables.get_mut(number as usize) {
        Some(table) => Ok(table.erase(me, row)?),
        None => Ok(()),
    }
}
