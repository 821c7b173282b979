ghost use Rattle.std.specs.Prelude.{◌≡◌, ◌<◌, ◌≤◌};
ghost use Rattle.std.specs.Option.{option_copied};
ghost use Rattle.pg_table.specs.Holds.{current_there};
ghost use Rattle.pg_table.specs.States.{table_shown};
ghost use Rattle.pg_world.specs.Changes.{row_at};

use crate::Table;
use pg_heap::Version;
use pg_xacts::{Me, Xacts};

impl Table {
    /// The version of a row that is current for the transaction of `me`, or `None` where the row is
    /// gone.
    pub fn current_version(&self, xacts: &Xacts, me: &Me, row: u64) -> Option<&Version>
        requires first { 0 < row }
        requires drawn { row ≤ self.now.store.drawn }
        ensures { option_copied result
            ≡ current_there xacts.now me.now.xact (row_at (table_shown self.now) row) }
    {
        match self.rows.current(xacts, me, row) {
            Some(number) => Some(self.rows.version(number)),
            None => None,
        }
    }
}
