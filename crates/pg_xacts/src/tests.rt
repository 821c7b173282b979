ghost use Rattle.std.specs.Prelude.{◌≡◌, IfSome, Some};
ghost use Rattle.pg_xacts.specs.Snapshots.{WasTakenOf};
ghost use Rattle.pg_xacts.specs.Transactions.{status_of};

use super::*;
use std::alloc::{AllocError, Global};
use std::test::Fail;

/// Transactions, and a snapshot of them as they stood earlier.
#[derive(Drop)]
struct Watched {
    xacts: Xacts,
    snapshot: Snapshot,
    ghost taken: { WasTakenOf xacts snapshot },
}

impl Watched {
    #[tactic(auto, using(crate::proofs::Snapshots::taken_committed))]
    fn commit(&mut self, xact: u32) {
        if status(&self.xacts, xact) == Some(XStatus::Running) {
            self.xacts.commit(xact);
        }
    }

    #[tactic(auto, using(crate::proofs::Snapshots::taken_rolled_back))]
    fn rollback(&mut self, xact: u32) {
        if status(&self.xacts, xact) == Some(XStatus::Running) {
            self.xacts.rollback(xact);
        }
    }

    fn sees(&self, xact: u32) -> bool {
        xact <= self.xacts.count() && self.xacts.sees(&self.snapshot, xact)
    }
}

/// Takes a snapshot.
fn watch(xacts: Xacts) -> Result<Watched, AllocError> {
    let snapshot = xacts.snapshot()?;
    Ok(Watched { xacts, snapshot })
}

/// Transactions of so many sessions, of which the second has committed.
fn second_of(alloc: Global, sessions: u32) -> Result<Xacts, AllocError> {
    let mut xacts = Xacts::new(alloc);
    for session in 0..sessions {
        if xacts.count() < u32::MAX {
            xacts.begin(session)?;
        }
    }
    if status(&xacts, 2) == Some(XStatus::Running) {
        xacts.commit(2);
    }
    Ok(xacts)
}

fn status(xacts: &Xacts, xact: u32) -> Option<XStatus>
    ensures { IfSome result (λ status. status_of xacts.now xact ≡ Some status) }
{
    if xact > xacts.count() {
        return None;
    }
    Some(xacts.status(xact))
}

fn session_of(xacts: &Xacts, xact: u32) -> Option<u32> {
    if xact == 0 || xact > xacts.count() {
        return None;
    }
    Some(xacts.session_of(xact))
}

#[test]
fn a_snapshot_sees_the_commits_so_far(rt: HostRuntime) -> Result<(), Fail> {
    let mut watched = watch(second_of(rt.alloc(), 3)?)?;
    watched.commit(1);
    watched.rollback(3);
    assert_eq!(rt; watched.snapshot.commits(), 1);
    assert_eq!(rt; watched.xacts.commits(), 2);
    assert_eq!(rt; status(&watched.xacts, 1), Some(XStatus::Committed(2)));
    assert_eq!(rt; status(&watched.xacts, 2), Some(XStatus::Committed(1)));
    assert_eq!(rt; status(&watched.xacts, 3), Some(XStatus::RolledBack));
    assert_eq!(rt; session_of(&watched.xacts, 3), Some(2));
    assert!(rt; watched.sees(0) && watched.sees(2));
    assert!(rt; !watched.sees(1) && !watched.sees(3));
    Ok(())
}
