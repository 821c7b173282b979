ghost use Rattle.std.specs.Prelude.{◌≡◌, ◌<◌, ◌==◌, [], IsSome, IsOk, OnErr, OnOk, length, nat_le, slice_set};
ghost use Rattle.std.specs.List.{position_or_len};
ghost use Rattle.smallvec.specs.SmallVec.{small_vec_len};
ghost use Rattle.pg_multi.specs.Locks.{AreAscending, blocker, lock_joined, locks_left, strongest_of};

use crate::{RowLock, Strength};
use smallvec::SmallVec;
use std::alloc::{AllocError, Global};
use std::marker::Model;

/// The locks of one row: one for each transaction that holds the row, ascending by transaction.
///
/// Up to four of them stand in the value itself, so that a row with few holders takes no memory.
#[derive(Drop)]
pub struct Members {
    locks: SmallVec<RowLock, 4>,
}

impl Model for Members {
    ghost use Rattle.std.specs.Prelude.{List};
    ghost use Rattle.pg_multi.specs.declared.row_lock.RowLock.{RowLock};
    ghost use Rattle.pg_multi.specs.Locks.{AreAscending};

    ghost Value = { List RowLock };

    ghost view = { λ m. m.locks.items };

    ghost invariant = { λ m. AreAscending m.locks.items };
}

impl Members {
    /// No lock.
    pub fn new(alloc: Global) -> Members
        ensures { result ≡ [] }
    {
        Members {
            locks: SmallVec::new(alloc),
        }
    }

    /// Whether nobody holds the row.
    pub fn is_empty(&self) -> bool
        ensures { result ≡ (length self.now == 0) }
    {
        self.locks.is_empty()
    }

    /// The transaction holds the row at that strength from now on, or at the one that it has
    /// where that is stronger; or refuses for want of memory alone, and leaves the locks as they
    /// were. A transaction that holds the row already needs no memory.
    pub fn join(&mut self, xact: u32, strength: Strength) -> Result<(), AllocError>
        ensures ok { OnOk result (self.new ≡ lock_joined self.old xact strength) }
        ensures err { OnErr result (self.new ≡ self.old) }
        ensures holder { IsSome (strongest_of self.old xact) → IsOk result }
    {
        let place = place_of(self.locks.as_slice(), xact);
        match held_at(self.locks.as_slice(), place, xact) {
            Some(held) => {
                let strength = held.stronger_of(strength);
                put_at(&mut self.locks, place, RowLock { xact, strength });
                Ok(())
            }
            None => {
                self.locks.insert(place, RowLock { xact, strength })?;
                Ok(())
            }
        }
    }

    /// The strength at which a transaction holds the row, if it does.
    pub fn strongest_of(&self, xact: u32) -> Option<Strength>
        ensures { result ≡ strongest_of self.now xact }
    {
        strength_in(self.locks.as_slice(), xact)
    }

    /// The lowest other transaction for which `me` has to wait, if it asks for that strength.
    pub fn blockers(&self, me: u32, strength: Strength) -> Option<u32>
        ensures { result ≡ blocker self.now me strength }
    {
        blocker_in(self.locks.as_slice(), me, strength)
    }

    /// What the transaction holds ends. This takes no memory.
    pub fn leave(&mut self, xact: u32)
        ensures { self.new ≡ locks_left self.old xact }
    {
        self.locks.retain(|lock| lock.xact != xact);
    }
}

/// The place of the first lock that no lower transaction holds; behind the last one, where there
/// is none.
fn place_of(locks: &[RowLock], xact: u32) -> usize
    ensures { result ≡ position_or_len (λ lock. nat_le xact lock.xact) locks.now }
{
    for (place, lock) in locks.iter().enumerate() {
        if xact <= lock.xact {
            return place;
        }
    }
    locks.len()
}

/// The strength at which the transaction holds the lock at that place, if it is its own.
fn held_at(locks: &[RowLock], place: usize, xact: u32) -> Option<Strength>
    requires ascending { AreAscending locks.now }
    requires first { place ≡ position_or_len (λ lock. nat_le xact lock.xact) locks.now }
    ensures { result ≡ strongest_of locks.now xact }
{
    match locks.get(place) {
        Some(lock) if lock.xact == xact => Some(lock.strength),
        _ => None,
    }
}

/// Puts another lock in the place of one, and takes no memory.
fn put_at(locks: &mut SmallVec<RowLock, 4>, place: usize, lock: RowLock)
    requires { place < small_vec_len locks.old }
    ensures { locks.new.items ≡ slice_set locks.old.items place lock }
{
    if let Some(there) = locks.get_mut(place) {
        *there = lock;
    }
}

/// The strength of the first lock that the transaction holds.
fn strength_in(locks: &[RowLock], xact: u32) -> Option<Strength>
    ensures { result ≡ strongest_of locks.now xact }
{
    for lock in locks {
        if lock.xact == xact {
            return Some(lock.strength);
        }
    }
    None
}

/// The transaction of the first lock for which `me` has to wait.
fn blocker_in(locks: &[RowLock], me: u32, strength: Strength) -> Option<u32>
    ensures { result ≡ blocker locks.now me strength }
{
    for lock in locks {
        if lock.is_blocking(me, strength) {
            return Some(lock.xact);
        }
    }
    None
}
