ghost use Rattle.std.specs.Prelude.{◌≡◌, ◌<◌, ◌≤◌, IfOk, OnErr, unwrap_or};
ghost use Rattle.pg_heap.specs.Current.{newest};
ghost use Rattle.pg_table.specs.Holds.{hold_answer, state_after_hold};
ghost use Rattle.pg_table.specs.States.{IsTable, table_shown};
ghost use Rattle.pg_world.specs.Changes.{is_of_command, row_at};
ghost use Rattle.pg_xacts.specs.Transactions.{beginner_of};

use crate::{Hold, Table};
use pg_multi::Strength;
use pg_xacts::{Me, On, Until, Xacts};
use std::alloc::AllocError;

impl Table {
    /// Whether the row's newest version was written by the command of `me`.
    pub fn is_own(&self, me: &Me, row: u64) -> bool
        requires first { 0 < row }
        requires drawn { row ≤ self.now.store.drawn }
        ensures { result ≡ is_of_command me.now (newest (row_at (table_shown self.now) row)) }
    {
        match self.rows.newest(row) {
            None => false,
            Some(number) => {
                let version = self.rows.version(number);
                version.writer == me.xact && version.command == me.command
            }
        }
    }

    /// Locks a row for the transaction of `me`, at that strength or at the one that it has where
    /// that is stronger, unless the command itself has written the row's newest version, the row is
    /// gone, or another transaction holds a lock that conflicts: the answer is the first of these
    /// that is so, and then nothing changes. Or it refuses for want of memory alone, and leaves the
    /// table as it was.
    pub fn hold(
        &mut self,
        xacts: &Xacts,
        me: &Me,
        row: u64,
        strength: Strength,
    ) -> Result<Hold, AllocError>
        requires first { 0 < row }
        requires drawn { row ≤ self.old.store.drawn }
        ensures answer { IfOk result (λ hold.
            hold ≡ hold_answer (table_shown self.old) xacts.now me.now row strength) }
        ensures ok { IfOk result (λ hold.
            self.new ≡ state_after_hold hold self.old me.now.xact row strength) }
        ensures err { OnErr result (self.new ≡ self.old) }
        ensures kept { IsTable self.old }
    {
        if self.is_own(me, row) {
            return Ok(Hold::Own);
        }
        if self.current(xacts, me, row).is_none() {
            return Ok(Hold::Gone);
        }
        match self.locks.hold(me.xact, row, strength)? {
            None => Ok(Hold::Held),
            Some(xact) => Ok(Hold::Blocked(On {
                session: beginner(xacts, xact),
                until: Until::Transaction,
            })),
        }
    }
}

/// The session that began a transaction; 0 where none did.
fn beginner(xacts: &Xacts, xact: u32) -> u32
    ensures { result ≡ unwrap_or (beginner_of xacts.now xact) 0 }
{
    if xact == 0 || xact > xacts.count() {
        return 0;
    }
    xacts.session_of(xact)
}
