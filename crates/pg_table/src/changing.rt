ghost use Rattle.std.specs.Prelude.{◌≡◌, ◌<◌, ◌≤◌, ◌||◌, OnErr, OnOk, false, is_some};
ghost use Rattle.pg_lists.specs.Numbered.{with_changed_nth_item};
ghost use Rattle.pg_rows.specs.Stores.{HasNoDraft};
ghost use Rattle.pg_table.specs.States.{IsTable, row_erased_in, row_staged_in, row_written_in, staged_number, waiting_number};

use crate::{DraftKind, Placing, Table};
use pg_values::Values;
use pg_xacts::Me;
use std::alloc::AllocError;

impl Table {
    /// Whether a draft of a row waits.
    pub fn has_draft(&self, row: u64) -> bool
        ensures waits { result
            ≡ (is_some (waiting_number self.now row) || is_some (staged_number self.now row)) }
        ensures free { result ≡ false → HasNoDraft self.now.store.versions row }
    {
        let _ = &self.rows;
        let placed = self.waiting(DraftKind::First, row).is_some();
        let staged = self.waiting(DraftKind::Next, row).is_some();
        placed || staged
    }

    /// Stages new values of a row, which become its newest version with `write`, and which nobody
    /// sees before; or refuses for want of memory alone and leaves the table as it was.
    pub fn stage(&mut self, me: Me, row: u64, values: Values) -> Result<(), AllocError>
        requires drawn { (0 < row) × (row ≤ self.old.store.drawn) }
        requires free { HasNoDraft self.old.store.versions row }
        ensures ok { OnOk result (self.new ≡ row_staged_in self.old me row values) }
        ensures err { OnErr result (self.new ≡ self.old) }
        ensures kept { IsTable self.old }
    {
        let version = self.rows.draft(&me, row, Some(values))?;
        let placing = Placing {
            session: me.session,
            version,
            kind: DraftKind::Next,
        };
        put_placing(&mut self.placings, row, placing);
        Ok(())
    }

    /// What is staged for a row, if anything is, becomes its newest version. This takes no memory.
    pub fn write(&mut self, row: u64)
        ensures written { self.new ≡ row_written_in self.old row }
        ensures kept { IsTable self.old }
    {
        if let Some(version) = self.waiting(DraftKind::Next, row) {
            self.rows.attach(version);
        }
    }

    /// Gives a row a newest version that says that it is gone; or refuses for want of memory alone
    /// and leaves the table as it was.
    pub fn erase(&mut self, me: Me, row: u64) -> Result<(), AllocError>
        requires drawn { (0 < row) × (row ≤ self.old.store.drawn) }
        requires free { HasNoDraft self.old.store.versions row }
        ensures ok { OnOk result (self.new ≡ row_erased_in self.old me row) }
        ensures err { OnErr result (self.new ≡ self.old) }
        ensures kept { IsTable self.old }
    {
        let version = self.rows.draft(&me, row, None)?;
        self.rows.attach(version);
        Ok(())
    }
}

/// The placing of that row number, where there is one, is now as given.
fn put_placing(placings: &mut Vec<Placing>, row: u64, placing: Placing)
    ensures { placings.new.items
        ≡ with_changed_nth_item (λ before. placing) placings.old.items row }
{
    let Some(before) = row.checked_sub(1) else {
        return;
    };
    if let Some(there) = placings.get_mut(before as usize) {
        *there = placing;
    }
}
