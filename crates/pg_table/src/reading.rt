ghost use Rattle.std.specs.Prelude.{◌≡◌, ◌+◌, ◌++◌, ◌<◌, ◌≤◌, [], IfOk, OnOk};
ghost use Rattle.pg_heap.specs.Current.{live_rows, live_values};
ghost use Rattle.pg_rows.specs.Scans.{found_items};
ghost use Rattle.pg_rows.specs.Stores.{row_in};
ghost use Rattle.pg_table.specs.States.{table_shown};

use crate::Table;
use pg_lists::{Items, TryCopy};
use pg_model::Rows;
use pg_values::Values;
use pg_xacts::Xacts;
use std::alloc::{AllocError, Global};

impl Table {
    /// The values of the committed rows, in order of row number; or a refusal for want of memory
    /// alone.
    pub fn committed(&self, alloc: Global, xacts: &Xacts) -> Result<Rows, AllocError>
        ensures { IfOk result (λ rows. rows
            ≡ live_rows xacts.now [] (table_shown self.now).rows) }
    {
        let mut rows = Items::new(alloc);
        for before in 0..self.rows_drawn() {
            prove!(before < self.rows_drawn());
            let found = self.committed_row(alloc, xacts, before + 1)?;
            keep_values(&mut rows, found)?;
        }
        Ok(rows)
    }

    /// A copy of the values of a row, where its last version whose writer has committed has some.
    fn committed_row(
        &self,
        alloc: Global,
        xacts: &Xacts,
        row: u64,
    ) -> Result<Option<Values>, AllocError>
        requires first { 0 < row }
        requires drawn { row ≤ self.now.store.drawn }
        ensures { IfOk result (λ found. found
            ≡ live_values xacts.now [] (row_in self.now.store.versions row)) }
    {
        match self.rows.live(xacts, row) {
            None => Ok(None),
            Some(number) => Ok(Some(self.rows.values(number).try_copy(alloc)?)),
        }
    }
}

/// Keeps the values that were found, if any were, behind those found before.
fn keep_values(rows: &mut Rows, found: Option<Values>) -> Result<(), AllocError>
    ensures { OnOk result (rows.new ≡ rows.old ++ found_items found) }
{
    match found {
        Some(values) => rows.push(values),
        None => Ok(()),
    }
}
