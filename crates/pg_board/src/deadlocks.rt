//! The wait of a session, and its failure where the wait would close a cycle.

ghost use Rattle.std.specs.Prelude.{◌≡◌, ◌<◌, IfOk, OnErr, length, map};
ghost use Rattle.pg_model.specs.Printed.{session_name};
ghost use Rattle.pg_model.specs.declared.error.SqlError.TheVariants.{Deadlock};
ghost use Rattle.pg_relation.specs.Moves.{waiting_act};
ghost use Rattle.pg_waits.specs.Chains.{ring_of};
ghost use Rattle.pg_board.specs.Inside.{CanWait};
ghost use Rattle.pg_board.specs.Kept.{CanAnswer, RunsAt, StandBehindAt, act_kept, at_kept};

use crate::ends::fail;
use crate::server::Server;
use pg_lists::Items;
use pg_model::{EntryAct, Script, SessionNames, SqlError};
use pg_names::Name;
use pg_waits::WaitAnswer;
use pg_xacts::On;
use std::alloc::{AllocError, Global};

/// The session waits; or it fails with the cycle of waits that this one would close: the act.
///
/// Want of memory leaves the server as it was.
pub fn wait_for(
    alloc: Global,
    script: &Script,
    server: &mut Server,
    number: u32,
    on: On,
) -> Result<EntryAct, AllocError>
    requires within { number < length server.old.sessions }
    requires answered { CanAnswer server.old number }
    requires runs { RunsAt server.old number }
    requires behind { StandBehindAt server.old number }
    requires waits { CanWait server.old number on }
    ensures act { IfOk result (λ act. act ≡ waiting_act script.now on.session
        (ring_of server.old.waits number on.session)) }
    ensures ok { IfOk result (λ act. (given : _) → server.new ≡ at_kept server.old number
        (λ session. act_kept server.old number given session act)) }
    ensures err { OnErr result (server.new ≡ server.old) }
{
    match server.waits.wait(number, on) {
        WaitAnswer::Waiting => Ok(EntryAct::Waits(on.session)),
        WaitAnswer::Cycle(ring) => {
            let error = deadlock(alloc, script, ring.as_slice())?;
            fail(server, number);
            Ok(EntryAct::Failed(error))
        }
    }
}

/// The error of a deadlock of these sessions.
fn deadlock(alloc: Global, script: &Script, ring: &[u32]) -> Result<SqlError, AllocError>
    ensures { IfOk result (λ error. error ≡ Deadlock (map (session_name script.now) ring.now)) }
{
    Ok(SqlError::Deadlock(names_of(alloc, script, ring)?))
}

/// The names of sessions, in their order.
fn names_of(alloc: Global, script: &Script, ring: &[u32]) -> Result<SessionNames, AllocError>
    ensures { IfOk result (λ names. names ≡ map (session_name script.now) ring.now) }
{
    let mut names = Items::new(alloc);
    for session in ring {
        names.push(name_of(alloc, script, *session)?)?;
    }
    Ok(names)
}

/// The name of a session, which is empty where there is none of that number.
fn name_of(alloc: Global, script: &Script, session: u32) -> Result<Name, AllocError>
    ensures { IfOk result (λ name. name ≡ session_name script.now session) }
{
    match script.sessions.get(session as usize) {
        Some(name) => Name::from_slice(alloc, name),
        None => Name::from_slice(alloc, b""),
    }
}
