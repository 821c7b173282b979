ghost use Rattle.std.specs.Prelude.{◌≡◌, ◌+◌, IfOk, OnErr, OnOk, option_map};
ghost use Rattle.pg_lists.specs.Numbered.{item_at, with_changed_item};
ghost use Rattle.pg_table.specs.States.{row_inserted_in, row_placed_in};

use pg_table::TableSet;
use pg_values::Values;
use pg_xacts::Me;
use std::alloc::AllocError;

/// The table of that number draws a row number for a proposed row, whose values wait there, and
/// answers it; `None` where there is no such table. Want of memory leaves the tables as they were.
#[tactic(auto, using(pg_lists::proofs::Lists::slice_set_same))]
pub fn place_values(
    tables: &mut TableSet,
    number: u32,
    me: Me,
    values: Values,
) -> Result<Option<u64>, AllocError>
    ensures ok { OnOk result (tables.new ≡ with_changed_item (λ state.
        row_placed_in state me values) tables.old number) }
    ensures row { IfOk result (λ row.
        row ≡ option_map (λ state. state.store.drawn + 1) (item_at tables.old number)) }
    ensures err { OnErr result (tables.new ≡ tables.old) }
{
    match tables.get_mut(number as usize) {
        Some(table) => Ok(Some(table.place(me, values)?)),
        None => Ok(None),
    }
}

/// What waits under a row number in the table of that number becomes the row's first version.
pub fn settle_row(tables: &mut TableSet, number: u32, row: u64)
    ensures { tables.new ≡ with_changed_item (λ state. row_inserted_in state row) tables.old
        number }
{
    if let Some(table) = tables.get_mut(number as usize) {
        table.settle(row);
    }
}
