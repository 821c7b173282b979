ghost use Rattle.std.specs.Prelude.{◌≡◌, ◌-◌, ◌<◌, ◌≤◌, [], IfOk, OnErr, OnOk, length, take};
ghost use Rattle.pg_locks.specs.Locks.{locks_asked, locks_at, locks_ended, locks_of_row_added};
ghost use Rattle.pg_multi.specs.Locks.{blocker};

use crate::notes::note_held;
use crate::rows::{join, leave_all};
use pg_lists::Items;
use pg_multi::{Members, Strength};
use std::alloc::{AllocError, Global};
use std::collections::HashMap;
use std::marker::Model;

/// The locks on the rows of a table.
///
/// Rows are numbered from 1 in the order in which they were added.
#[derive(Drop)]
pub struct Locks {
    alloc: Global,
    /// The locks on each row.
    rows: Vec<Members>,
    /// The rows that each transaction has locked, in the order in which it first locked them.
    held: HashMap<u32, Items<u64>>,
}

impl Model for Locks {
    ghost use Rattle.std.specs.Prelude.{List};
    ghost use Rattle.pg_locks.specs.Notes.{AreNoted};
    ghost use Rattle.pg_multi.specs.declared.row_lock.RowLock.{RowLock};

    ghost Value = { List (List RowLock) };

    ghost view = { λ l. l.rows.items };

    ghost invariant = { λ l. AreNoted l.rows.items l.held.entries };
}

impl Locks {
    /// No row.
    pub fn new(alloc: Global) -> Locks
        ensures { result ≡ [] }
    {
        Locks {
            alloc,
            rows: Vec::new(alloc),
            held: HashMap::new(alloc),
        }
    }

    /// How many rows there are.
    pub fn count(&self) -> u64
        ensures { result ≡ length self.now }
    {
        self.rows.len() as u64
    }

    /// One row more, on which nobody holds a lock; or a refusal for want of memory alone, which
    /// leaves the rows as they were.
    pub fn add_row(&mut self) -> Result<(), AllocError>
        ensures ok { OnOk result (self.new ≡ locks_of_row_added self.old) }
        ensures err { OnErr result (self.new ≡ self.old) }
    {
        self.rows.push(Members::new(self.alloc))?;
        Ok(())
    }

    /// The last row, if there is one, is taken back with the locks on it. This takes no memory.
    pub fn remove_last_row(&mut self)
        ensures { self.new ≡ take (length self.old - 1) self.old }
    {
        let _ = self.rows.pop();
    }

    /// The lowest other transaction for which `me` has to wait, if it asks for the row at that
    /// strength.
    pub fn blocker(&self, row: u64, me: u32, strength: Strength) -> Option<u32>
        requires first { 0 < row }
        requires drawn { row ≤ length self.now }
        ensures { result ≡ blocker (locks_at self.now row) me strength }
    {
        self.rows[row as usize - 1].blockers(me, strength)
    }

    /// The transaction holds the row at that strength from now on, or at the one that it has where
    /// that is stronger, unless it has to wait: then the answer is the lowest other transaction
    /// whose lock conflicts, and nothing changes. Or it refuses for want of memory alone, and leaves
    /// the locks as they were.
    pub fn hold(
        &mut self,
        xact: u32,
        row: u64,
        strength: Strength,
    ) -> Result<Option<u32>, AllocError>
        requires first { 0 < row }
        requires drawn { row ≤ length self.old }
        ensures blocker { IfOk result (λ other.
            other ≡ blocker (locks_at self.old row) xact strength) }
        ensures ok { IfOk result (λ other.
            self.new ≡ locks_asked other self.old xact row strength) }
        ensures err { OnErr result (self.new ≡ self.old) }
    {
        if let Some(other) = self.blocker(row, xact, strength) {
            return Ok(Some(other));
        }
        note_held(self.alloc, &self.rows, &mut self.held, xact, row)?;
        join(&mut self.rows, row, xact, strength)?;
        Ok(None)
    }

    /// All that the transaction holds ends. This takes no memory, and costs what the transaction
    /// has locked.
    pub fn end(&mut self, xact: u32)
        ensures { self.new ≡ locks_ended xact self.old }
    {
        if let Some(held) = self.held.remove(&xact) {
            leave_all(&mut self.rows, held.as_slice(), xact);
        }
    }
}
