//! Which version of a row is the current one, which was committed last, and which a statement sees.

ghost use Rattle.std.specs.Prelude.{◌≡◌, ◌+◌, ◌-◌, ◌<◌, ◌≤◌, [], IfOk, IfSome, Some, length, option_map, ℕ};
ghost use Rattle.pg_heap.specs.Current.{is_live};
ghost use Rattle.pg_heap.specs.Pieces.{piece_from};
ghost use Rattle.pg_heap.specs.Seen.{is_seen};
ghost use Rattle.pg_xacts.specs.Snapshots.{WasTakenOf};
ghost use Rattle.pg_rows.specs.Scans.{is_number, seen_among, seen_at, seen_in_piece};
ghost use Rattle.pg_rows.specs.Stores.{HasValues, current_number, is_current_for, last_accepted, live_number, seen_number, stored_of, with_values};

use crate::versions::{copy_version, is_current, is_live, is_that, keep, sees};
use crate::{RowStore, Scan, SeenVersion};
use pg_heap::Piece;
use pg_lists::Items;
use pg_xacts::{Me, Snapshot, Xacts};
use std::alloc::{AllocError, Global};

impl RowStore {
    /// The number of the current version of a row for the transaction of `me`, or `None` where the
    /// row is gone.
    pub fn current(&self, xacts: &Xacts, me: &Me, row: u64) -> Option<u64>
        requires first { 0 < row }
        requires drawn { row ≤ self.now.drawn }
        ensures number { result ≡ current_number xacts.now me.now.xact self.now.versions row }
        ensures there { IfSome result (HasValues self.now.versions) }
    {
        self.if_there(self.last_current(xacts, me.xact, row))
    }

    /// The number of the last version of a row whose writer has committed, or `None` where there is
    /// none, or one that says that the row is gone.
    pub fn live(&self, xacts: &Xacts, row: u64) -> Option<u64>
        requires first { 0 < row }
        requires drawn { row ≤ self.now.drawn }
        ensures number { result ≡ live_number xacts.now self.now.versions row }
        ensures there { IfSome result (HasValues self.now.versions) }
    {
        self.if_there(self.last_live(xacts, row))
    }

    /// The versions that a statement of `me` sees, with their rows, among at most 64 version
    /// numbers from `from` on, and at least one where any is left; or a refusal for want of memory
    /// alone.
    pub fn visible(
        &self,
        alloc: Global,
        xacts: &Xacts,
        snapshot: &Snapshot,
        me: &Me,
        from: u64,
    ) -> Result<Scan, AllocError>
        requires { WasTakenOf xacts.now snapshot.now }
        ensures seen { IfOk result (λ scan. scan.seen
            ≡ seen_in_piece xacts.now snapshot.now.commits me.now self.now.versions from) }
        ensures next { IfOk result (λ scan. scan.next
            ≡ (piece_from (length self.now.versions) from).next) }
    {
        let piece = self.heap.scan(from);
        let seen = self.seen_among(alloc, xacts, snapshot, me, piece)?;
        Ok(Scan {
            seen,
            next: piece.next,
        })
    }

    /// The versions that a statement of `me` sees among the version numbers of a piece.
    fn seen_among(
        &self,
        alloc: Global,
        xacts: &Xacts,
        snapshot: &Snapshot,
        me: &Me,
        piece: Piece,
    ) -> Result<Items<SeenVersion>, AllocError>
        requires from { 0 < piece.first }
        requires drawn { (i : ℕ) → i < piece.count → piece.first + i ≤ length self.now.versions }
        requires taken { WasTakenOf xacts.now snapshot.now }
        ensures { IfOk result (λ seen. seen
            ≡ seen_among xacts.now snapshot.now.commits me.now self.now.versions
            piece.first piece.count) }
    {
        let last = self.versions_drawn();
        let mut seen = Items::new(alloc);
        for offset in 0..piece.count {
            let number = piece.first.saturating_add(u64::from(offset)).min(last);
            let found = self.seen_at(alloc, xacts, snapshot, me, number)?;
            keep(&mut seen, found)?;
        }
        Ok(seen)
    }

    /// A copy of the version of a number, where it is the one that a statement of `me` sees of its
    /// row.
    fn seen_at(
        &self,
        alloc: Global,
        xacts: &Xacts,
        snapshot: &Snapshot,
        me: &Me,
        number: u64,
    ) -> Result<Option<SeenVersion>, AllocError>
        requires first { 0 < number }
        requires drawn { number ≤ length self.now.versions }
        requires taken { WasTakenOf xacts.now snapshot.now }
        ensures { IfOk result (λ seen. seen
            ≡ seen_at xacts.now snapshot.now.commits me.now self.now.versions number) }
    {
        let row = self.heap.row_of(number);
        if !self.shows(xacts, snapshot, me, row, number) {
            return Ok(None);
        }
        let version = copy_version(alloc, self.heap.fetch(number))?;
        Ok(Some(SeenVersion {
            row,
            number,
            version,
        }))
    }

    /// Whether a version is the one that a statement of `me` sees of its row. Of older versions and
    /// of those that it does not see at all this looks at one or two.
    fn shows(&self, xacts: &Xacts, snapshot: &Snapshot, me: &Me, row: u64, number: u64) -> bool
        requires first { 0 < number }
        requires drawn { number ≤ length self.now.versions }
        requires row { option_map (λ stored. stored.row) (stored_of self.now.versions number)
            ≡ Some row }
        requires taken { WasTakenOf xacts.now snapshot.now }
        ensures { result ≡ is_number
            (seen_number xacts.now snapshot.now.commits me.now self.now.versions row) number }
    {
        if !sees(xacts, snapshot, me, self.heap.fetch(number)) {
            return false;
        }
        if let Some(next) = self.heap.successor(number) {
            if sees(xacts, snapshot, me, self.heap.fetch(next)) {
                return false;
            }
        }
        is_that(self.seen(xacts, snapshot, me, row), number)
    }

    /// The number of the version of a row that a statement of `me` sees, or `None` where it sees
    /// none, or one that says that the row is gone.
    fn seen(&self, xacts: &Xacts, snapshot: &Snapshot, me: &Me, row: u64) -> Option<u64>
        requires first { 0 < row }
        requires drawn { row ≤ self.now.drawn }
        requires taken { WasTakenOf xacts.now snapshot.now }
        ensures { result
            ≡ seen_number xacts.now snapshot.now.commits me.now self.now.versions row }
    {
        self.if_there(self.last_seen(xacts, snapshot, me, row))
    }

    /// The number, unless that version says that its row is gone.
    fn if_there(&self, number: Option<u64>) -> Option<u64>
        requires { IfSome number (λ n. (0 < n) × (n ≤ length self.now.versions)) }
        ensures number { result ≡ with_values self.now.versions number }
        ensures there { IfSome result (HasValues self.now.versions) }
    {
        let number = number?;
        match self.version(number).values {
            Some(_) => Some(number),
            None => None,
        }
    }

    /// The last version of a row that no other running transaction wrote.
    fn last_current(&self, xacts: &Xacts, xact: u32, row: u64) -> Option<u64>
        requires first { 0 < row }
        requires drawn { row ≤ self.now.drawn }
        ensures { result ≡ last_accepted (is_current_for xacts.now xact) self.now.versions row }
    {
        let mut next = self.newest(row);
        while let Some(number) = next {
            if is_current(xacts, xact, self.heap.fetch(number)) {
                return Some(number);
            }
            next = self.heap.predecessor(number);
        }
        None
    }

    /// The last version of a row whose writer has committed.
    fn last_live(&self, xacts: &Xacts, row: u64) -> Option<u64>
        requires first { 0 < row }
        requires drawn { row ≤ self.now.drawn }
        ensures { result ≡ last_accepted (is_live xacts.now []) self.now.versions row }
    {
        let mut next = self.newest(row);
        while let Some(number) = next {
            if is_live(xacts, self.heap.fetch(number)) {
                return Some(number);
            }
            next = self.heap.predecessor(number);
        }
        None
    }

    /// The last version of a row that a statement sees.
    fn last_seen(&self, xacts: &Xacts, snapshot: &Snapshot, me: &Me, row: u64) -> Option<u64>
        requires first { 0 < row }
        requires drawn { row ≤ self.now.drawn }
        requires taken { WasTakenOf xacts.now snapshot.now }
        ensures { result ≡ last_accepted (is_seen xacts.now snapshot.now.commits me.now)
            self.now.versions row }
    {
        let mut next = self.newest(row);
        while let Some(number) = next {
            if sees(xacts, snapshot, me, self.heap.fetch(number)) {
                return Some(number);
            }
            next = self.heap.predecessor(number);
        }
        None
    }
}
