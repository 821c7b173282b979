ghost use Rattle.std.specs.Prelude.{◌≡◌, ◌<◌, IfOk, OnErr, OnOk, Some, false, length, ℕ};
ghost use Rattle.pg_lists.specs.Numbered.{item_at};
ghost use Rattle.pg_scans.specs.Readings.{AreDrawn, HaveVersions, IsReading, found_in, is_all_read, new_reading, next_in, pieces_left, reading_gone_on, rows_with, table_gone_through};
ghost use Rattle.pg_table.specs.States.{IsTable};
ghost use Rattle.pg_xacts.specs.Snapshots.{WasTakenOf};

use crate::rows::{append_in_order, append_rows};
use pg_lists::Items;
use pg_rows::{Scan, SeenVersion};
use pg_table::{Table, TableSet};
use pg_world::SeenRow;
use pg_xacts::{Me, Snapshot, Xacts};
use std::alloc::{AllocError, Global};
use std::marker::Model;
use std::mem;

/// A statement that reads its tables, one after the other and piece by piece.
#[derive(Drop)]
pub struct Reading {
    alloc: Global,
    me: Me,
    snapshot: Snapshot,
    /// The numbers of the tables that it reads, in the order written.
    tables: Items<u32>,
    /// What it has seen of the tables gone through.
    seen: Vec<Items<SeenRow>>,
    /// The rows collected of the present table, in order of version number.
    part: Vec<SeenRow>,
    /// The version number from which it goes on there.
    from: u64,
}

impl Model for Reading {
    ghost use Rattle.pg_scans.specs.Readings.{ReadingView};

    ghost Value = { ReadingView };

    ghost view = { λ r.
        record {
          me = r.me;
          snapshot = r.snapshot;
          tables = r.tables;
          seen = r.seen.items;
          part = r.part.items;
          from = r.from;
        } };
}

impl Reading {
    /// The reading of these tables, in the order written, of which nothing was read yet.
    pub fn new(alloc: Global, tables: Items<u32>, me: Me, snapshot: Snapshot) -> Reading
        ensures { result ≡ new_reading me snapshot tables }
    {
        Reading {
            alloc,
            me,
            snapshot,
            tables,
            seen: Vec::new(alloc),
            part: Vec::new(alloc),
            from: 1,
        }
    }

    /// Whether all tables were gone through.
    pub fn is_done(&self) -> bool
        ensures { result ≡ is_all_read self.now }
    {
        self.tables.len() <= self.seen.len()
    }

    /// Who reads.
    pub fn me(&self) -> Me
        ensures { result ≡ self.now.me }
    {
        self.me
    }

    /// How many commits the reader sees.
    pub fn commits(&self) -> u32
        ensures { result ≡ self.now.snapshot.commits }
    {
        self.snapshot.commits()
    }

    /// What was seen of the tables gone through, in the order written, each in order of row number.
    pub fn seen(&self) -> &[Items<SeenRow>]
        ensures { result.now ≡ self.now.seen }
    {
        &self.seen
    }

    /// Goes over the next piece of the present table; where no version number is left there, its
    /// rows are put in order of row number, and the next table begins. Want of memory leaves the
    /// reading as it was.
    pub fn read_piece(&mut self, tables: &TableSet, xacts: &Xacts) -> Result<(), AllocError>
        requires reading { IsReading tables.now xacts.now self.old }
        requires left { is_all_read self.old ≡ false }
        ensures ok { OnOk result (IsReading tables.now xacts.now self.new) }
        ensures less { OnOk result ((most : ℕ) → HaveVersions most tables.now →
            pieces_left most self.new < pieces_left most self.old) }
        ensures reader { self.new ≡ record self.old {
          seen = self.new.seen;
          part = self.new.part;
          from = self.new.from;
        } }
        ensures err { OnErr result (self.new ≡ self.old) }
    {
        let Some(table) = tables.get(self.present_table() as usize) else {
            self.finish_table(Items::new(self.alloc))?;
            return Ok(());
        };
        let scan = self.scan(table, xacts)?;
        match scan.next {
            Some(next) => self.go_on(scan.seen, next)?,
            None => self.finish_table(scan.seen)?,
        }
        Ok(())
    }

    /// The number of the table that is being read.
    fn present_table(&self) -> u32
        requires { is_all_read self.now ≡ false }
        ensures { item_at self.now.tables (length self.now.seen) ≡ Some result }
    {
        self.tables.as_slice()[self.seen.len()]
    }

    /// What the reader sees in the next piece of a table.
    fn scan(&self, table: &Table, xacts: &Xacts) -> Result<Scan, AllocError>
        requires { WasTakenOf xacts.now self.now.snapshot }
        ensures seen { IfOk result (λ scan. scan.seen ≡ found_in xacts.now table.now self.now) }
        ensures next { IfOk result (λ scan. scan.next ≡ next_in table.now self.now) }
        ensures kept { IsTable table.now }
    {
        table.visible(self.alloc, xacts, &self.snapshot, &self.me, self.from)
    }

    /// Collects what was found, and goes on from that version number.
    fn go_on(&mut self, found: Items<SeenVersion>, next: u64) -> Result<(), AllocError>
        ensures ok { OnOk result (self.new ≡ reading_gone_on self.old found next) }
        ensures err { OnErr result (self.new ≡ self.old) }
    {
        append_rows(self.alloc, &mut self.part, found)?;
        self.from = next;
        Ok(())
    }

    /// Puts the rows of the present table in order, with those that were found last, and begins the
    /// next table.
    fn finish_table(&mut self, found: Items<SeenVersion>) -> Result<(), AllocError>
        ensures ok { OnOk result ((drawn : ℕ) → AreDrawn drawn (rows_with self.old found) →
            self.new ≡ table_gone_through drawn self.old found) }
        ensures reader { self.new ≡ record self.old {
          seen = self.new.seen;
          part = self.new.part;
          from = self.new.from;
        } }
        ensures err { OnErr result (self.new ≡ self.old) }
    {
        self.seen.reserve(1)?;
        append_in_order(self.alloc, &mut self.part, found)?;
        let rows = mem::replace(&mut self.part, Vec::new(self.alloc));
        self.seen.push_reserved(Items::from_vec(rows));
        self.from = 1;
        Ok(())
    }
}
