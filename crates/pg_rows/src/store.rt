ghost use Rattle.std.specs.Prelude.{◌≡◌, ◌+◌, ◌-◌, ◌<◌, ◌≤◌, IfOk, IfSome, OnErr, OnOk, Some, length, true, ℕ};
ghost use Rattle.pg_heap.specs.Rows.{values_of};
ghost use Rattle.pg_heap.specs.Slots.{CanLink, state_of as state_of_slot};
ghost use Rattle.pg_heap.specs.declared.slot.State.TheVariants.{Dead as IsDead, Placed as IsPlaced, Settled as IsSettled};
ghost use Rattle.pg_rows.specs.Kept.{AreChained, AreUnwound, attached_slots, stored_slots};
ghost use Rattle.pg_rows.specs.Stores.{HasNoDraft, HasValues, StandBehind, empty_store, is_number_of, last_written_by, newest_number, row_placed, state_of, store_ended, store_without, version_drafted, version_of, with_given_up, with_version_state};

use crate::versions::{stands, waits};
use pg_heap::{Heap, State, Version};
use pg_values::Values;
use pg_xacts::Me;
use std::alloc::{AllocError, Global};
use std::marker::Model;

/// The rows of a table, as lists of versions.
///
/// Rows are numbered from 1, and so are versions, each in the order in which they were drawn. A
/// draft is a version with a number that is not yet in its row.
#[derive(Drop)]
pub struct RowStore {
    pub(crate) heap: Heap,
    /// The number of the newest version of each row.
    newest: Vec<Option<u64>>,
}

impl Model for RowStore {
    ghost use Rattle.std.specs.Prelude.{length};
    ghost use Rattle.pg_rows.specs.Kept.{AreChained, stored_slots};
    ghost use Rattle.pg_rows.specs.Stores.{StoreView};

    ghost Value = { StoreView };

    ghost view = { λ s. record { drawn = length s.newest.items; versions = stored_slots s.heap } };

    ghost invariant = { λ s. AreChained s.heap s.newest.items };
}

impl RowStore {
    /// No row.
    pub fn new(alloc: Global) -> RowStore
        ensures { result ≡ empty_store }
    {
        RowStore {
            heap: Heap::new(alloc),
            newest: Vec::new(alloc),
        }
    }

    /// How many row numbers were drawn.
    pub fn count(&self) -> u64
        ensures { result ≡ self.now.drawn }
    {
        self.newest.len() as u64
    }

    /// How many version numbers were drawn.
    pub fn versions_drawn(&self) -> u64
        ensures { result ≡ length self.now.versions }
    {
        self.heap.count()
    }

    /// What has become of the version of a number, or `None` where the number was not drawn.
    pub fn state(&self, version: u64) -> Option<State>
        ensures { result ≡ state_of self.now.versions version }
    {
        if version == 0 || version > self.heap.count() {
            return None;
        }
        Some(self.heap.state(version))
    }

    /// Draws the next row number and makes the draft of that row, and answers the row and the
    /// version; or refuses for want of memory alone and leaves the store as it was.
    pub fn draw(&mut self, me: &Me, values: Values) -> Result<(u64, u64), AllocError>
        ensures placed { OnOk result (self.new ≡ row_placed self.old me.now values) }
        ensures row { IfOk result (λ drawn. drawn.0 ≡ self.old.drawn + 1) }
        ensures version { IfOk result (λ drawn. drawn.1 ≡ length self.old.versions + 1) }
        ensures err { OnErr result (self.new ≡ self.old) }
    {
        self.newest.reserve(1)?;
        let row = self.newest.len() as u64 + 1;
        let version = self.heap.place(row, Some(values), *me)?;
        self.newest.push_reserved(None);
        Ok((row, version))
    }

    /// Makes a draft for a row that has no other, and answers its number; or refuses for want of
    /// memory alone and leaves the store as it was.
    pub fn draft(&mut self, me: &Me, row: u64, values: Option<Values>) -> Result<u64, AllocError>
        requires drawn { (0 < row) × (row ≤ self.old.drawn) }
        requires first { HasNoDraft self.old.versions row }
        ensures drafted { OnOk result (self.new ≡ version_drafted self.old me.now row values) }
        ensures version { IfOk result (λ version. version ≡ length self.old.versions + 1) }
        ensures err { OnErr result (self.new ≡ self.old) }
    {
        let version = self.heap.place(row, values, *me)?;
        Ok(version)
    }

    /// Makes a draft the newest version of its row. This takes no memory.
    pub fn attach(&mut self, version: u64)
        requires { state_of self.old.versions version ≡ Some IsPlaced }
        ensures { self.new ≡ with_version_state self.old version IsSettled }
    {
        let row = self.heap.row_of(version) as usize - 1;
        append(&mut self.heap, self.newest[row], version);
        self.newest[row] = Some(version);
    }

    /// Gives a draft up. This takes no memory.
    pub fn discard(&mut self, version: u64)
        requires { state_of self.old.versions version ≡ Some IsPlaced }
        ensures { self.new ≡ with_version_state self.old version IsDead }
    {
        self.heap.kill(version);
    }

    /// A transaction is rolled back: all that it wrote is dead. This takes no memory, and costs
    /// what the transaction wrote.
    pub fn undo(&mut self, xact: u32)
        requires { StandBehind xact self.old.versions }
        ensures { self.new ≡ store_without self.old xact }
    {
        unwind(&self.heap, &mut self.newest, xact);
        self.heap.undo(xact);
    }

    /// A transaction has committed: the drafts that it left are given up. This takes no memory, and
    /// costs what the transaction wrote.
    pub fn ended(&mut self, xact: u32)
        ensures { self.new ≡ store_ended self.old xact }
    {
        let mut next = self.last_written(xact);
        while let Some(number) = next {
            next = self.written_before(number);
            self.give_up(number);
        }
    }

    /// The version of a number, also a dead one.
    pub fn version(&self, version: u64) -> &Version
        requires first { 0 < version }
        requires drawn { version ≤ length self.now.versions }
        ensures { version_of self.now.versions version ≡ Some result.now }
    {
        self.heap.fetch(version)
    }

    /// The values of a version that has some.
    pub fn values(&self, version: u64) -> &Values
        requires { HasValues self.now.versions version }
        ensures { values_of (version_of self.now.versions version) ≡ Some result.now }
    {
        match &self.version(version).values {
            Some(values) => values,
            None => unreachable!(),
        }
    }

    /// The number of the newest version of a row, or `None` where no version is left.
    pub fn newest(&self, row: u64) -> Option<u64>
        requires first { 0 < row }
        requires drawn { row ≤ self.now.drawn }
        ensures { result ≡ newest_number self.now.versions row }
    {
        self.newest[row as usize - 1]
    }

    /// The last version that a transaction wrote.
    fn last_written(&self, xact: u32) -> Option<u64>
        ensures { result ≡ last_written_by xact self.now.versions (length self.now.versions) }
    {
        self.heap.last_written(xact)
    }

    /// The version that the writer of a version wrote before it.
    fn written_before(&self, version: u64) -> Option<u64>
        requires first { 0 < version }
        requires drawn { version ≤ length self.now.versions }
        ensures { (xact : ℕ) → is_number_of xact self.now.versions version ≡ true →
            result ≡ last_written_by xact self.now.versions (version - 1) }
    {
        self.heap.written_before(version)
    }

    /// Gives a version up where it is a draft.
    fn give_up(&mut self, version: u64)
        requires first { 0 < version }
        requires drawn { version ≤ length self.old.versions }
        ensures { self.new ≡ with_given_up self.old version }
    {
        if waits(self.heap.state(version)) {
            self.discard(version);
        }
    }
}

/// The newest version of each row is the last that the transaction did not write.
fn unwind(heap: &Heap, newest: &mut Vec<Option<u64>>, xact: u32)
    requires chained { AreChained heap.now newest.old.items }
    requires behind { StandBehind xact (stored_slots heap.now) }
    ensures { AreUnwound heap.now xact 0 newest.old.items newest.new.items }
{
    let mut next = heap.last_written(xact);
    while let Some(number) = next {
        next = heap.written_before(number);
        if stands(heap.state(number)) {
            let row = heap.row_of(number) as usize - 1;
            newest[row] = heap.predecessor(number);
        }
    }
}

/// Makes a draft the newest version of a row whose newest was `last`.
fn append(heap: &mut Heap, last: Option<u64>, version: u64)
    requires placed { state_of_slot heap.old version ≡ Some IsPlaced }
    requires free { IfSome last (λ newest. CanLink heap.old newest version) }
    ensures { heap.new ≡ attached_slots heap.old last version }
{
    if let Some(newest) = last {
        heap.link(newest, version);
    }
    heap.settle(version);
}
