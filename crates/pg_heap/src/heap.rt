ghost use Rattle.std.specs.Prelude.{◌≡◌, ◌+◌, ◌-◌, ◌<◌, ◌≤◌, [], IfOk, OnErr, OnOk, Some, length, slice_get, true, ℕ};
ghost use Rattle.pg_heap.specs.Pieces.{piece_from};
ghost use Rattle.pg_heap.specs.Slots.{AreLinked, CanLink, is_number_written_by, predecessor_of, row_of_version, state_of, successor_of, version_of, version_placed, versions_linked, versions_undone, with_state};
ghost use Rattle.pg_heap.specs.Written.{AreWritten, latest_by};
ghost use Rattle.pg_heap.specs.declared.slot.State.TheVariants.{Dead as IsDead, Placed as IsPlaced, Settled as IsSettled};

use crate::links::{bury, set_predecessor, set_state, set_successor};
use crate::{Piece, Slot, State, Version};
use pg_values::Values;
use pg_xacts::Me;
use std::alloc::{AllocError, Global};
use std::collections::HashMap;
use std::marker::Model;

/// The versions of a table's rows, numbered from 1 in the order in which they were placed. A number
/// is never used again.
#[derive(Drop)]
pub struct Heap {
    slots: Vec<Slot>,
    /// For each version the one that its writer placed before it.
    earlier: Vec<Option<u64>>,
    /// The last version of each writer.
    last: HashMap<u32, u64>,
}

impl Model for Heap {
    ghost use Rattle.std.specs.Prelude.{List};
    ghost use Rattle.pg_heap.specs.declared.slot.Slot.{Slot};
    ghost use Rattle.pg_heap.specs.Slots.{AreLinked};
    ghost use Rattle.pg_heap.specs.Written.{AreWritten};

    ghost Value = { List Slot };

    ghost view = { λ h. h.slots.items };

    ghost invariant = { λ h. AreLinked h.slots.items
        × AreWritten h.slots.items h.earlier.items h.last.entries };
}

impl Heap {
    /// No version.
    pub fn new(alloc: Global) -> Heap
        ensures { result ≡ [] }
    {
        Heap {
            slots: Vec::new(alloc),
            earlier: Vec::new(alloc),
            last: HashMap::new(alloc),
        }
    }

    /// How many version numbers were drawn.
    pub fn count(&self) -> u64
        ensures { result ≡ length self.now }
    {
        self.slots.len() as u64
    }

    /// Places a version for a row, without links, and answers its number; or refuses for want of
    /// memory alone and leaves the heap as it was.
    pub fn place(&mut self, row: u64, values: Option<Values>, writer: Me) -> Result<u64, AllocError>
        ensures placed { OnOk result (self.new ≡ version_placed self.old row values writer) }
        ensures number { IfOk result (λ number. number ≡ length self.old + 1) }
        ensures err { OnErr result (self.new ≡ self.old) }
    {
        self.slots.reserve(1)?;
        self.earlier.reserve(1)?;
        let number = self.slots.len() as u64 + 1;
        let earlier = self.last.insert(writer.xact, number)?;
        self.earlier.push_reserved(earlier);
        self.slots.push_reserved(Slot {
            row,
            version: Version {
                values,
                writer: writer.xact,
                command: writer.command,
            },
            state: State::Placed,
            before: None,
            after: None,
        });
        Ok(number)
    }

    /// Makes a version the successor of another. This takes no memory.
    pub fn link(&mut self, before: u64, after: u64)
        requires { CanLink self.old before after }
        ensures { self.new ≡ versions_linked self.old before after }
    {
        set_successor(&mut self.slots, before, Some(after));
        set_predecessor(&mut self.slots, after, Some(before));
    }

    /// The version after another in its row, where they are linked.
    pub fn successor(&self, version: u64) -> Option<u64>
        requires first { 0 < version }
        requires drawn { version ≤ length self.now }
        ensures { result ≡ successor_of self.now version }
    {
        self.slots[version as usize - 1].after
    }

    /// The version before another in its row, where they are linked.
    pub fn predecessor(&self, version: u64) -> Option<u64>
        requires first { 0 < version }
        requires drawn { version ≤ length self.now }
        ensures { result ≡ predecessor_of self.now version }
    {
        self.slots[version as usize - 1].before
    }

    /// The version of a number, also a dead one.
    pub fn fetch(&self, version: u64) -> &Version
        requires first { 0 < version }
        requires drawn { version ≤ length self.now }
        ensures { version_of self.now version ≡ Some result.now }
    {
        &self.slots[version as usize - 1].version
    }

    /// The number of the row that a version is for.
    pub fn row_of(&self, version: u64) -> u64
        requires first { 0 < version }
        requires drawn { version ≤ length self.now }
        ensures { row_of_version self.now version ≡ Some result }
    {
        self.slots[version as usize - 1].row
    }

    /// What has become of a version.
    pub fn state(&self, version: u64) -> State
        requires first { 0 < version }
        requires drawn { version ≤ length self.now }
        ensures { state_of self.now version ≡ Some result }
    {
        self.slots[version as usize - 1].state
    }

    /// The last version that a transaction wrote, or `None` where it wrote none.
    pub fn last_written(&self, xact: u32) -> Option<u64>
        ensures { result ≡ latest_by xact self.now (length self.now) }
    {
        self.last.get(&xact).copied()
    }

    /// The version that the writer of a version wrote before it, or `None` where it is the writer's
    /// first.
    pub fn written_before(&self, version: u64) -> Option<u64>
        requires first { 0 < version }
        requires drawn { version ≤ length self.now }
        ensures { (xact : ℕ) → is_number_written_by xact self.now version ≡ true →
            result ≡ latest_by xact self.now (version - 1) }
    {
        earlier_than(&self.earlier, version)
    }

    /// A placed version becomes dead. This takes no memory.
    pub fn kill(&mut self, version: u64)
        requires { state_of self.old version ≡ Some IsPlaced }
        ensures { self.new ≡ with_state self.old version IsDead }
    {
        set_state(&mut self.slots, version, State::Dead);
    }

    /// A placed version becomes one of its row. This takes no memory.
    pub fn settle(&mut self, version: u64)
        requires { state_of self.old version ≡ Some IsPlaced }
        ensures { self.new ≡ with_state self.old version IsSettled }
    {
        set_state(&mut self.slots, version, State::Settled);
    }

    /// All versions of a transaction become dead, and the links to them and from them end. This
    /// takes no memory, and costs what the transaction wrote.
    pub fn undo(&mut self, xact: u32)
        ensures { self.new ≡ versions_undone self.old xact }
    {
        bury_written(&mut self.slots, &self.earlier, &self.last, xact);
    }

    /// The version numbers from a number on, dead ones among them: at most 64, and at least one
    /// where any is left.
    pub fn scan(&self, from: u64) -> Piece
        ensures { result ≡ piece_from (length self.now) from }
    {
        let last = self.slots.len() as u64;
        let first = from.max(1);
        let count = last.saturating_sub(first - 1).min(64);
        let next = first.checked_add(count).filter(|next| *next <= last);
        Piece {
            first,
            count: count as u32,
            next,
        }
    }
}

/// Makes dead what a transaction wrote, from its last version back.
fn bury_written(slots: &mut Vec<Slot>, earlier: &[Option<u64>], last: &HashMap<u32, u64>, xact: u32)
    requires linked { AreLinked slots.old.items }
    requires written { AreWritten slots.old.items earlier.now last.now.entries }
    ensures { slots.new.items ≡ versions_undone slots.old.items xact }
{
    let mut next = last.get(&xact).copied();
    while let Some(number) = next {
        next = earlier_than(earlier, number);
        bury(slots, number);
    }
}

/// The version that the writer of a version placed before it.
fn earlier_than(earlier: &[Option<u64>], number: u64) -> Option<u64>
    requires first { 0 < number }
    requires drawn { number ≤ length earlier.now }
    ensures { slice_get earlier.now (number - 1) ≡ Some result }
{
    earlier[number as usize - 1]
}
