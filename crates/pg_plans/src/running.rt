ghost use Rattle.std.specs.Prelude.{◌≡◌, ◌≢◌, Err, IfOk};
ghost use Rattle.pg_plans.specs.Answers.{IsAnswer, IsFailure, running_taken_up, taking_up};
ghost use Rattle.pg_returning.specs.Outcomes.{outcome};
ghost use Rattle.pg_world.specs.Choosing.{candidate_choices};
ghost use Rattle.pg_world.specs.Sessions.{first_running as running_first};

use crate::Act;
use pg_lists::{Items, TryCopy};
use pg_model::{EntryAct, SqlError};
use pg_returning::PlanFault;
use pg_world::{Candidate, Running, Stage};
use pg_xacts::Me;
use std::alloc::{AllocError, Global};

/// The candidates of a statement, or their first error.
pub type Candidates = Result<Items<Candidate>, SqlError>;

/// What a plan has come to: the candidates, or the error of the statement; want of memory is no
/// error of the statement.
pub fn candidates_or_error(
    planned: Result<Items<Candidate>, PlanFault>,
) -> Result<Candidates, AllocError>
    ensures ok { IfOk result (λ candidates. candidates ≡ outcome planned) }
    ensures memory { IfOk result (λ candidates. planned ≢ Err PlanFault.Memory) }
{
    match planned {
        Ok(candidates) => Ok(Ok(candidates)),
        Err(PlanFault::Error(error)) => Ok(Err(error)),
        Err(PlanFault::Memory) => Err(AllocError),
    }
}

/// A statement that has just taken its snapshot, with these candidates.
pub fn first_running(alloc: Global, me: Me, commits: u32, candidates: Candidates) -> Running
    ensures { result ≡ running_first me commits candidates }
{
    Running {
        me,
        snapshot: commits,
        candidates,
        candidate: 0,
        stage: Stage::Between,
        acts: 0,
        output: Items::new(alloc),
    }
}

/// Takes up the next of so many candidates; where none is left the statement is done.
pub fn take_up(running: &mut Running, count: u64) -> Act
    ensures answer { result ≡ taking_up running.old.candidate count }
    ensures choice { IsAnswer (candidate_choices running.old.candidate count) result }
    ensures after { running.new ≡ running_taken_up count running.old }
{
    if running.candidate >= count {
        return Act::Done;
    }
    running.candidate += 1;
    running.stage = Stage::Found;
    Act::Entry(EntryAct::Found(running.candidate))
}

/// The statement fails with that error.
pub fn failure(alloc: Global, error: &SqlError) -> Act
    ensures { IsFailure error.now result }
{
    match error.try_copy(alloc) {
        Ok(error) => Act::Failed(error),
        Err(_) => Act::Memory,
    }
}
