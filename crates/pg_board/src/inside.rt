ghost use Rattle.std.specs.Prelude.{◌≡◌, ◌<◌, IfOk, OnErr, Ok, Some, length, true};
ghost use Rattle.pg_lists.specs.Numbered.{item_at};
ghost use Rattle.pg_relation.specs.Moves.{done_moves};
ghost use Rattle.pg_relation.specs.Stepped.{first_of_list};
ghost use Rattle.pg_world.specs.Replies.{reply_of};
ghost use Rattle.pg_board.specs.Inside.{CanRunAt, CanWaitAt, HasRun, IsInside, IsInsideAt, IsInsideStep, commits_first};
ghost use Rattle.pg_board.specs.Kept.{CanAnswer, RunsAt, StandBehindAt, act_kept};
ghost use Rattle.pg_board.specs.Machines.{IsPlanned, is_still};
ghost use Rattle.pg_board.specs.Servers.{IsOfKind, running_of};
ghost use Rattle.pg_board.specs.declared.session.Place.TheVariants as place_of;

use crate::deadlocks::wait_for;
use crate::ends::{answer, commit, fail};
use crate::machines::{machine_reply, step_machine};
use crate::server::Server;
use crate::session::{Place, Session};
use pg_model::{EntryAct, Reply, Script, Statement};
use pg_plans::Act;
use pg_world::Block;
use std::alloc::{AllocError, Global};

/// A session inside a statement makes its next move, or comes nearer to it: the act that it made,
/// or `None` for a step without an entry.
pub fn step_inside(
    alloc: Global,
    script: &Script,
    server: &mut Server,
    number: u32,
    statement: &Statement,
) -> Result<Option<EntryAct>, AllocError>
    requires within { number < length server.old.sessions }
    requires answered { CanAnswer server.old number }
    requires runs { RunsAt server.old number }
    requires behind { StandBehindAt server.old number }
    requires inside { IsInsideAt server.old number }
    requires ready { CanRunAt server.old number statement.now }
    requires waits { CanWaitAt server.old number statement.now }
    ensures ok { IfOk result (λ acted. (session : _) →
        item_at server.old.sessions number ≡ Some session →
        IsInsideStep script.now server.old server.new number statement.now session acted) }
    ensures err { OnErr result (server.new ≡ server.old) }
{
    match run_machine(server, number, statement) {
        Act::Entry(act) => Ok(Some(act)),
        Act::Quiet => Ok(None),
        Act::Blocked(on) => Ok(Some(wait_for(alloc, script, server, number, on)?)),
        Act::Failed(error) => {
            fail(server, number);
            Ok(Some(EntryAct::Failed(error)))
        }
        Act::Done => Ok(Some(finish(server, number, statement)?)),
        Act::Memory => Err(AllocError),
    }
}

/// The machine of a session makes its step.
#[tactic(auto, using(pg_lists::proofs::Lists::slice_set_same))]
fn run_machine(server: &mut Server, number: u32, statement: &Statement) -> Act
    requires within { number < length server.old.sessions }
    requires inside { IsInsideAt server.old number }
    requires ready { CanRunAt server.old number statement.now }
    ensures ran { (session : _) → item_at server.old.sessions number ≡ Some session →
        HasRun server.old server.new number statement.now session result }
    ensures stays { is_still result ≡ true → server.new ≡ server.old }
{
    let session = server.sessions.item_mut(number as usize);
    match &mut session.place {
        Place::Inside(machine) => {
            step_machine(machine, statement, &mut server.tables, &server.xacts)
        }
        Place::Idle | Place::Ending(_) | Place::Closed => unreachable!(),
    }
}

/// A statement that is done commits its transaction outside a block, and is then answered: the act.
#[tactic(auto, using(crate::proofs::Running::done_replied))]
fn finish(server: &mut Server, number: u32, statement: &Statement) -> Result<EntryAct, AllocError>
    requires within { number < length server.old.sessions }
    requires answered { CanAnswer server.old number }
    requires runs { RunsAt server.old number }
    requires inside { IsInsideAt server.old number }
    requires planned { (session : _) (machine : _) →
        item_at server.old.sessions number ≡ Some session →
        session.place ≡ place_of.Inside machine →
        IsOfKind machine statement.now × IsPlanned machine }
    ensures ok { IfOk result (λ act. (session : _) (machine : _) →
        item_at server.old.sessions number ≡ Some session →
        session.place ≡ place_of.Inside machine →
        (first_of_list (done_moves session.block session.transaction
        (reply_of statement.now (running_of machine))) ≡ Some act)
        × (server.new ≡ act_kept server.old number (Some (Ok statement.now)) session act)) }
    ensures err { OnErr result (server.new ≡ server.old) }
{
    let session = server.session(number);
    if commits_first(session) {
        commit(server, number);
        return Ok(EntryAct::Committed);
    }
    let reply = session_reply(session, statement)?;
    answer(server, number, reply.tag);
    Ok(EntryAct::Replied(reply))
}

/// Whether a statement that is done commits its transaction before its reply: outside a block,
/// where one is open.
fn commits_first(session: &Session) -> bool
    ensures { result ≡ commits_first session.now.block session.now.transaction }
{
    matches!(session.block, Block::NoBlock) && session.transaction.is_some()
}

/// The reply of a session whose machine is done.
fn session_reply(session: &Session, statement: &Statement) -> Result<Reply, AllocError>
    requires planned { (machine : _) → session.now.place ≡ place_of.Inside machine →
        IsOfKind machine statement.now × IsPlanned machine }
    requires inside { IsInside session.now.place }
    ensures { IfOk result (λ reply. (machine : _) →
        session.now.place ≡ place_of.Inside machine →
        reply ≡ reply_of statement.now (running_of machine)) }
{
    match &session.place {
        Place::Inside(machine) => machine_reply(machine, statement),
        Place::Idle | Place::Ending(_) | Place::Closed => unreachable!(),
    }
}
