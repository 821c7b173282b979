ghost use Rattle.std.specs.Prelude.{◌≡◌, ◌<◌, OnErr, OnOk, Ok, Some, false, length};
ghost use Rattle.std.specs.Option.{option_copied};
ghost use Rattle.pg_model.specs.declared.journal.EntryAct.TheVariants.{Snapped};
ghost use Rattle.pg_xacts.specs.Snapshots.{WasTakenOf, snapshot_of};
ghost use Rattle.pg_board.specs.Kept.{CanAnswer, CanBegin, CanCommand, RunsAt, StandBehindAt, TakesSnapshot, act_kept, at_kept, begins_wait};

use crate::ends::{answer, close, commit, fail, roll_back};
use crate::queues::Given;
use crate::server::Server;
use crate::snapshots::take_snapshot;
use pg_model::EntryAct;
use std::alloc::{AllocError, Global};

/// Makes of the server what an act of the session makes of it that no machine does, where the
/// session stands at that statement.
///
/// Want of memory leaves the server as it was.
pub fn perform(
    alloc: Global,
    server: &mut Server,
    number: u32,
    given: Option<&Given>,
    act: &EntryAct,
) -> Result<(), AllocError>
    requires within { number < length server.old.sessions }
    requires answered { CanAnswer server.old number }
    requires begun { CanBegin server.old number }
    requires commands { CanCommand server.old number }
    requires runs { RunsAt server.old number }
    requires behind { StandBehindAt server.old number }
    requires free { begins_wait act.now ≡ false }
    requires takes { (own : _) (commits : _) → act.now ≡ Snapped commits →
        option_copied given ≡ Some (Ok own) → TakesSnapshot own }
    ensures ok { OnOk result (server.new ≡ at_kept server.old number (λ session.
        act_kept server.old number (option_copied given.entry) session act.now)) }
    ensures taken { (commits : _) (own : _) → act.now ≡ Snapped commits →
        option_copied given.entry ≡ Some (Ok own) →
        OnOk result (WasTakenOf server.old.xacts (snapshot_of server.old.xacts)) }
    ensures err { OnErr result (server.new ≡ server.old) }
{
    match act {
        EntryAct::Snapped(_) => {
            if let Some(Ok(statement)) = given {
                take_snapshot(alloc, server, number, statement)?;
            }
        }
        EntryAct::Committed => commit(server, number),
        EntryAct::RolledBack => roll_back(server, number),
        EntryAct::Replied(reply) => answer(server, number, reply.tag),
        EntryAct::Failed(_) => fail(server, number),
        EntryAct::Closed => close(server, number),
        EntryAct::Found(_)
        | EntryAct::Locked { .. }
        | EntryAct::Placed { .. }
        | EntryAct::Inserted { .. }
        | EntryAct::Updated { .. }
        | EntryAct::Deleted { .. }
        | EntryAct::Passed
        | EntryAct::Waits(_) => {}
    }
    Ok(())
}
