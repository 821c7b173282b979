ghost use Rattle.std.specs.Prelude.{◌≡◌, IfOk};
ghost use Rattle.pg_xacts.specs.Snapshots.{had_ended};

use crate::numbers;
use std::alloc::{AllocError, Global};
use std::marker::Model;

/// What a snapshot keeps: the transactions that ran when it was taken, and the first number that
/// was not begun then. It sees the commits so far, and no later one.
#[derive(Drop)]
pub struct Snapshot {
    /// How many transactions had committed.
    commits: u32,
    /// The numbers of the transactions that ran, ascending.
    running: Vec<u32>,
    /// The first number that was not begun.
    next: u64,
}

impl Model for Snapshot {
    ghost use Rattle.pg_xacts.specs.Rising.{IsRising};
    ghost use Rattle.pg_xacts.specs.Snapshots.{SnapshotView};

    ghost Value = { SnapshotView };

    ghost view = { λ s. record { commits = s.commits; running = s.running.items; next = s.next } };

    ghost invariant = { λ s. IsRising 0 s.running.items };
}

impl Snapshot {
    ghost use Rattle.pg_xacts.specs.Rising.{IsRising};

    /// The snapshot for which these transactions run, or refuses for want of memory alone.
    pub(crate) fn new(
        alloc: Global,
        commits: u32,
        running: &[u32],
        next: u64,
    ) -> Result<Snapshot, AllocError>
        requires { IsRising 0 running.now }
        ensures { IfOk result (λ snapshot.
            snapshot ≡ record { commits = commits; running = running.now; next = next }) }
    {
        let running = Vec::from_slice(alloc, running)?;
        Ok(Snapshot {
            commits,
            running,
            next,
        })
    }

    /// How many commits it sees.
    pub fn commits(&self) -> u32
        ensures { result ≡ self.now.commits }
    {
        self.commits
    }

    /// Whether the transaction of a number had ended when the snapshot was taken.
    pub(crate) fn had_ended(&self, number: u32) -> bool
        ensures { result ≡ had_ended self.now number }
    {
        u64::from(number) < self.next && !numbers::contains(&self.running, number)
    }
}
