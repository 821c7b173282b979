ghost use Rattle.std.specs.Prelude.{◌≡◌, ◌+◌, ◌<◌, ◌≤◌, IfOk, IfSome, OnErr, OnOk, Some, length};
ghost use Rattle.pg_heap.specs.Pieces.{piece_from};
ghost use Rattle.pg_heap.specs.Rows.{values_of};
ghost use Rattle.pg_rows.specs.Scans.{seen_in_piece};
ghost use Rattle.pg_rows.specs.Stores.{HasValues, current_number, newest_number, version_of};
ghost use Rattle.pg_table.specs.States.{IsTable, OwnStandBehind, draft_number, empty_state, row_added_in, row_inserted_in, row_placed_in, state_ended, state_undone, table_shown};
ghost use Rattle.pg_xacts.specs.Snapshots.{WasTakenOf};

use crate::{DraftKind, Placing};
use pg_heap::State;
use pg_locks::Locks;
use pg_rows::{RowStore, Scan};
use pg_values::Values;
use pg_xacts::{Me, Snapshot, Xacts};
use std::alloc::{AllocError, Global};
use std::marker::Model;

/// A table of the world.
#[derive(Drop)]
pub struct Table {
    pub(crate) rows: RowStore,
    /// For each row number the last draft with values that was made for it.
    pub(crate) placings: Vec<Placing>,
    /// The locks on each row.
    pub(crate) locks: Locks,
}

impl Model for Table {
    ghost use Rattle.pg_table.specs.States.{IsTable, TableState};

    ghost Value = { TableState };

    ghost view = { λ t.
        record { store = t.rows; placings = t.placings.items; locks = t.locks } };

    ghost invariant = { λ t.
        IsTable (record { store = t.rows; placings = t.placings.items; locks = t.locks }) };
}

impl Table {
    /// A table of which no row number was drawn.
    pub fn new(alloc: Global) -> Table
        ensures { result ≡ empty_state }
    {
        Table {
            rows: RowStore::new(alloc),
            placings: Vec::new(alloc),
            locks: Locks::new(alloc),
        }
    }

    /// How many row numbers were drawn.
    pub fn rows_drawn(&self) -> u64
        ensures { result ≡ self.now.store.drawn }
    {
        self.rows.count()
    }

    /// How many version numbers were drawn.
    pub fn versions_drawn(&self) -> u64
        ensures { result ≡ length self.now.store.versions }
    {
        self.rows.versions_drawn()
    }

    /// Draws a row number for a proposed row, whose values wait there to be stored, and answers
    /// it; or refuses for want of memory alone and leaves the table as it was.
    pub fn place(&mut self, me: Me, values: Values) -> Result<u64, AllocError>
        ensures row { IfOk result (λ row. row ≡ self.old.store.drawn + 1) }
        ensures ok { OnOk result (self.new ≡ row_placed_in self.old me values) }
        ensures err { OnErr result (self.new ≡ self.old) }
        ensures kept { IsTable self.old }
    {
        self.placings.reserve(1)?;
        self.locks.add_row()?;
        match self.rows.draw(&me, values) {
            Ok((row, version)) => {
                self.placings.push_reserved(Placing {
                    session: me.session,
                    version,
                    kind: DraftKind::First,
                });
                Ok(row)
            }
            Err(refusal) => {
                self.locks.remove_last_row();
                Err(refusal)
            }
        }
    }

    /// What is placed under a row number, if anything is, becomes the row's first version. This
    /// takes no memory.
    pub fn settle(&mut self, row: u64)
        ensures settled { self.new ≡ row_inserted_in self.old row }
        ensures kept { IsTable self.old }
    {
        if let Some(version) = self.waiting(DraftKind::First, row) {
            self.rows.attach(version);
        }
    }

    /// Draws a row number and stores the values there; or refuses for want of memory alone and
    /// leaves the table as it was.
    pub fn add(&mut self, me: Me, values: Values) -> Result<(), AllocError>
        ensures ok { OnOk result (self.new ≡ row_added_in self.old me values) }
        ensures err { OnErr result (self.new ≡ self.old) }
        ensures kept { IsTable self.old }
    {
        let row = self.place(me, values)?;
        self.settle(row);
        Ok(())
    }

    /// A transaction is rolled back: its versions are taken away, what it placed or staged is given
    /// up, and its locks end. This takes no memory, and costs what the transaction wrote and locked.
    pub fn undo(&mut self, xact: u32)
        requires { OwnStandBehind xact (table_shown self.old) }
        ensures undone { self.new ≡ state_undone xact self.old }
        ensures kept { IsTable self.old }
    {
        self.rows.undo(xact);
        self.locks.end(xact);
    }

    /// A transaction has committed: what it placed or staged and did not store is given up, and its
    /// locks end. This takes no memory, and costs what the transaction wrote and locked.
    pub fn ended(&mut self, xact: u32)
        ensures ended { self.new ≡ state_ended xact self.old }
        ensures kept { IsTable self.old }
    {
        self.rows.ended(xact);
        self.locks.end(xact);
    }

    /// The number of the newest version of a row, or `None` where no version is left.
    pub fn newest(&self, row: u64) -> Option<u64>
        requires first { 0 < row }
        requires drawn { row ≤ self.now.store.drawn }
        ensures { result ≡ newest_number self.now.store.versions row }
    {
        self.rows.newest(row)
    }

    /// The number of the current version of a row for the transaction of `me`, or `None` where the
    /// row is gone.
    pub fn current(&self, xacts: &Xacts, me: &Me, row: u64) -> Option<u64>
        requires first { 0 < row }
        requires drawn { row ≤ self.now.store.drawn }
        ensures number { result
            ≡ current_number xacts.now me.now.xact self.now.store.versions row }
        ensures there { IfSome result (HasValues self.now.store.versions) }
    {
        self.rows.current(xacts, me, row)
    }

    /// The values of a version that has some.
    pub fn values(&self, version: u64) -> &Values
        requires { HasValues self.now.store.versions version }
        ensures { values_of (version_of self.now.store.versions version) ≡ Some result.now }
    {
        self.rows.values(version)
    }

    /// The versions that a statement of `me` sees, with their rows, among at most 64 version
    /// numbers from `from` on, and at least one where any is left; or a refusal for want of memory
    /// alone.
    pub fn visible(
        &self,
        alloc: Global,
        xacts: &Xacts,
        snapshot: &Snapshot,
        me: &Me,
        from: u64,
    ) -> Result<Scan, AllocError>
        requires { WasTakenOf xacts.now snapshot.now }
        ensures seen { IfOk result (λ scan. scan.seen
            ≡ seen_in_piece xacts.now snapshot.now.commits me.now self.now.store.versions from) }
        ensures next { IfOk result (λ scan. scan.next
            ≡ (piece_from (length self.now.store.versions) from).next) }
        ensures kept { IsTable self.now }
    {
        self.rows.visible(alloc, xacts, snapshot, me, from)
    }

    /// The version number of the draft of a kind that waits under a row number, if one does.
    pub(crate) fn waiting(&self, kind: DraftKind, row: u64) -> Option<u64>
        ensures { result ≡ draft_number kind self.now row }
    {
        let before = row.checked_sub(1)?;
        let placing = self.placings.get(before as usize)?;
        if placing.kind != kind {
            return None;
        }
        match self.rows.state(placing.version) {
            Some(State::Placed) => Some(placing.version),
            Some(State::Settled) | Some(State::Dead) | None => None,
        }
    }
}
