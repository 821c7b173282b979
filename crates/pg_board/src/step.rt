ghost use Rattle.std.specs.Prelude.{◌≡◌, ◌<◌, IfOk, IfSome, None, Ok, OnErr, Some, false, length};
ghost use Rattle.std.specs.Option.{option_copied};
ghost use Rattle.pg_lists.specs.Numbered.{item_at};
ghost use Rattle.pg_relation.specs.Journals.{IsLegal, world_after};
ghost use Rattle.pg_board.specs.Inside.{CanRunGiven, GivesStatement, IsInsideStep, is_place_inside};
ghost use Rattle.pg_board.specs.Kept.{CanAnswer, CanBegin, CanCommand, CanMove, HasMovedOutside, RunsAt, StandBehindAt};
ghost use Rattle.pg_board.specs.Queues.{places_of};
ghost use Rattle.pg_board.specs.Servers.{IsServerOf};
ghost use Rattle.pg_waits.specs.Slots.{wait_of};
ghost use Rattle.pg_board.specs.Steps.{IsServing, IsStepIn, stands_at_end};

use crate::effects::perform;
use crate::inside::step_inside;
use crate::moves::outside_act;
use crate::queues::{Given, Queue, statement_in};
use crate::server::Server;
use crate::session::Place;
use pg_model::{EntryAct, Script, Statement};
use std::alloc::{AllocError, Global};

/// A session that has not ended makes its next move, or comes nearer to it: the act that it made,
/// or `None` for a step without an entry. Want of memory leaves the server as it was.
pub fn step_session(
    alloc: Global,
    script: &Script,
    queues: &[Queue],
    server: &mut Server,
    number: u32,
) -> Result<Option<EntryAct>, AllocError>
    requires within { number < length server.old.sessions }
    requires queue { IfSome (item_at queues.now number) (λ queue.
        queue.places ≡ places_of number 0 script.now.lines) }
    requires there { number < length queues.now }
    requires serves { IsServing script.now server.old }
    requires unended { stands_at_end server.old number ≡ false }
    requires free { wait_of server.old.waits number ≡ None }
    ensures step { IfOk result (λ acted. (journal : _) → IsLegal script.now journal →
        IsServerOf script.now server.old (world_after script.now journal) →
        IsStepIn script.now number (world_after script.now journal) server.old server.new acted) }
    ensures err { OnErr result (server.new ≡ server.old) }
{
    let given = statement_in(script, queues, server, number);
    if has_snapshot(server, number) {
        step_statement(alloc, script, server, number, given)
    } else {
        Ok(Some(step_outside(alloc, server, number, given)?))
    }
}

/// Whether a session is inside a statement that has its snapshot.
fn has_snapshot(server: &Server, number: u32) -> bool
    requires { number < length server.now.sessions }
    ensures { (session : _) → item_at server.now.sessions number ≡ Some session →
        result ≡ is_place_inside session.place }
{
    matches!(server.session(number).place, Place::Inside(_))
}

/// A session inside the statement given makes its next move, or comes nearer to it.
#[tactic(auto, using(crate::proofs::Running::run_given))]
fn step_statement(
    alloc: Global,
    script: &Script,
    server: &mut Server,
    number: u32,
    given: Option<&Given>,
) -> Result<Option<EntryAct>, AllocError>
    requires within { number < length server.old.sessions }
    requires answered { CanAnswer server.old number }
    requires runs { RunsAt server.old number }
    requires behind { StandBehindAt server.old number }
    requires ready { CanRunGiven server.old number (option_copied given) }
    ensures ok { IfOk result (λ acted. (session : _) (own : _) →
        item_at server.old.sessions number ≡ Some session →
        option_copied given.entry ≡ Some (Ok own) →
        IsInsideStep script.now server.old server.new number own session acted) }
    ensures err { OnErr result (server.new ≡ server.old) }
{
    let statement = statement_given(given);
    step_inside(alloc, script, server, number, statement)
}

/// The statement that is given.
fn statement_given(given: Option<&Given>) -> &Statement
    requires { GivesStatement (option_copied given) }
    ensures { option_copied given.entry ≡ Some (Ok result.now) }
{
    match given {
        Some(Ok(statement)) => statement,
        Some(Err(_)) | None => unreachable!(),
    }
}

/// A session between statements, or at the end of a COMMIT or ROLLBACK, makes its next move.
#[tactic(auto, using(crate::proofs::Running::moves_on, crate::proofs::Running::moved_outside))]
fn step_outside(
    alloc: Global,
    server: &mut Server,
    number: u32,
    given: Option<&Given>,
) -> Result<EntryAct, AllocError>
    requires within { number < length server.old.sessions }
    requires answered { CanAnswer server.old number }
    requires begun { CanBegin server.old number }
    requires commands { CanCommand server.old number }
    requires runs { RunsAt server.old number }
    requires behind { StandBehindAt server.old number }
    requires can_move { (session : _) → item_at server.old.sessions number ≡ Some session →
        CanMove server.old session (option_copied given) }
    ensures ok { IfOk result (λ act. (session : _) →
        item_at server.old.sessions number ≡ Some session →
        HasMovedOutside server.old server.new number (option_copied given.entry) session act) }
    ensures err { OnErr result (server.new ≡ server.old) }
{
    let session = server.session(number);
    let Some(act) = outside_act(alloc, server, session, given)? else {
        unreachable!();
    };
    perform(alloc, server, number, given, &act)?;
    Ok(act)
}
