ghost use Rattle.std.specs.Prelude.{◌≡◌};
ghost use Rattle.pg_multi.specs.Locks.{is_blocking};

use crate::{Strength, conflicts};

/// A lock on a row: the transaction that holds it, and how strong it is.
#[derive(Clone, Copy, Debug, Default, PartialEq, Eq)]
pub struct RowLock {
    /// The number of the transaction.
    pub xact: u32,
    pub strength: Strength,
}

impl RowLock {
    /// Whether the transaction `me` has to wait for this lock, if it asks for that strength.
    pub fn is_blocking(&self, me: u32, strength: Strength) -> bool
        ensures { result ≡ is_blocking me strength self.now }
    {
        self.xact != me && conflicts(strength, self.strength)
    }
}
