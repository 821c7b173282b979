ghost use Rattle.std.specs.Prelude.{◌≡◌, ◌≤◌, ◌<◌, ◌&&◌, IsTrue, None, length, map, true};
ghost use Rattle.pg_relation.specs.Schedules.{continuing, is_closed, is_going_on, is_idle, is_inside, lowest, remaining, waking};
ghost use Rattle.pg_board.specs.Queues.{has_taken, ready_by};
ghost use Rattle.pg_board.specs.Servers.{kept_progress, kept_session, kept_world};

use crate::queues::Queue;
use crate::server::Server;
use crate::session::{Place, Session};

/// Whether the session is between two statements.
pub fn stands_idle(session: &Session) -> bool
    ensures { result ≡ is_idle (kept_progress session.now.place) }
{
    matches!(session.place, Place::Idle)
}

/// Whether the session has ended.
pub fn stands_closed(session: &Session) -> bool
    ensures { result ≡ is_closed (kept_progress session.now.place) }
{
    matches!(session.place, Place::Closed)
}

/// Whether the session is inside a statement.
fn stands_inside(session: &Session) -> bool
    ensures { result ≡ is_inside (kept_progress session.now.place) }
{
    matches!(session.place, Place::Inside(_) | Place::Ending(_))
}

/// Whether the session of a number is inside a statement and does not wait.
fn goes_on(server: &Server, number: u32) -> bool
    ensures { result ≡ is_going_on (kept_world server.now) number }
{
    match server.sessions.get(number as usize) {
        Some(session) => stands_inside(session) && server.waits.waits_for(number).is_none(),
        None => false,
    }
}

/// The session that moved last, where it is inside a statement and does not wait.
fn continuing_session(server: &Server, last: Option<u32>) -> Option<u32>
    ensures { result ≡ continuing (kept_world server.now) last }
{
    let number = last?;
    if goes_on(server, number) {
        Some(number)
    } else {
        None
    }
}

/// Of those that have waited and have not moved since, the first that waits no more.
fn waking_session(server: &Server, waited: &[u32]) -> Option<u32>
    ensures { result ≡ waking (kept_world server.now) waited.now }
{
    for number in waited {
        if goes_on(server, *number) {
            return Some(*number);
        }
    }
    None
}

/// The lowest session between two statements.
fn lowest_idle(sessions: &[Session]) -> Option<u32>
    requires { length sessions.now ≤ 32 }
    ensures { result ≡ lowest (λ number session. is_idle session.progress) 0
        (map kept_session sessions.now) }
{
    for (number, session) in sessions.iter().enumerate() {
        if stands_idle(session) {
            return Some(number as u32);
        }
    }
    None
}

/// The lowest session that is inside a statement and does not wait.
#[tactic(auto, using(crate::proofs::Scheduling::lowest_here, crate::proofs::Scheduling::lowest_past, crate::proofs::Scheduling::lowest_end))]
fn lowest_going_on(server: &Server) -> Option<u32>
    requires { length server.now.sessions ≤ 32 }
    ensures { result ≡ lowest (λ number session. is_going_on (kept_world server.now) number) 0
        (map kept_session server.now.sessions) }
{
    for number in 0..server.sessions.len() as u32 {
        if goes_on(server, number) {
            return Some(number);
        }
    }
    None
}

/// Whether a line of the session was taken that has no reply yet.
pub fn has_queued(queues: &[Queue], number: usize, session: &Session) -> bool
    ensures { result ≡ has_taken queues.now number (kept_session session.now) }
{
    match queues.get(number) {
        Some(queue) => session.answered < queue.taken as u64,
        None => false,
    }
}

/// The lowest session between two statements that has a queued line.
fn lowest_queued(sessions: &[Session], queues: &[Queue]) -> Option<u32>
    requires { length sessions.now ≤ 32 }
    ensures { result ≡ lowest (λ number session.
        is_idle session.progress && has_taken queues.now number session) 0
        (map kept_session sessions.now) }
{
    for (number, session) in sessions.iter().enumerate() {
        if stands_idle(session) && has_queued(queues, number, session) {
            return Some(number as u32);
        }
    }
    None
}

/// The session that moves next without another line taken.
pub fn ready_session(
    server: &Server,
    queues: &[Queue],
    last: Option<u32>,
    waited: &[u32],
) -> Option<u32>
    requires { length server.now.sessions ≤ 32 }
    ensures { result ≡ ready_by queues.now (kept_world server.now) last waited.now }
{
    continuing_session(server, last)
        .or(waking_session(server, waited))
        .or(lowest_queued(server.sessions.as_slice(), queues))
}

/// The session that moves next where no line is left to take.
pub fn remaining_session(server: &Server) -> Option<u32>
    requires { length server.now.sessions ≤ 32 }
    ensures { result ≡ remaining (kept_world server.now) }
{
    match lowest_idle(server.sessions.as_slice()) {
        Some(number) => Some(number),
        None => lowest_going_on(server),
    }
}
