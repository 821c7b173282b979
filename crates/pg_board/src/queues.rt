ghost use Rattle.std.specs.Prelude.{◌≡◌, ◌<◌, ◌+◌, ◌-◌, ◌^◌, IfOk, IfSome, Some, length, option_map};
ghost use Rattle.std.specs.Option.{option_copied};
ghost use Rattle.pg_lists.specs.Numbered.{with_changed_item, item_at};
ghost use Rattle.pg_model.specs.Scripts.{session_in};
ghost use Rattle.pg_relation.specs.Lines.{given_to, statement_at};
ghost use Rattle.pg_board.specs.Queues.{AreQueues, given_at, places_of, queue_of, queued_more};
ghost use Rattle.pg_board.specs.Servers.{kept_session};

use crate::server::Server;
use crate::session::Session;
use pg_lists::Items;
use pg_model::{Content, Line, Script, SqlError, Statement};
use std::alloc::{AllocError, Global};

/// What a line gives its session: a statement, or the first error that its analysis found.
pub type Given = Result<Statement, SqlError>;

/// The lines of a session.
#[derive(Debug, Drop)]
pub struct Queue {
    /// The places of its lines in the script, from 0, in order.
    pub places: Items<usize>,
    /// How many of its lines were taken.
    pub taken: usize,
}

/// What a line gives to that session, if it is one of its lines.
fn statement_for(line: &Line, number: u32) -> Option<&Given>
    ensures { option_copied result ≡ given_to number line.now.content }
{
    match &line.content {
        Content::Given { session, statement } => {
            if *session == number {
                Some(statement)
            } else {
                None
            }
        }
    }
}

/// The places of the lines of a session in the script.
fn places_of_session(
    alloc: Global,
    script: &Script,
    number: u32,
) -> Result<Items<usize>, AllocError>
    ensures { IfOk result (λ places. places ≡ places_of number 0 script.now.lines) }
{
    let mut places = Items::new(alloc);
    for (place, line) in script.lines.as_slice().iter().enumerate() {
        if statement_for(line, number).is_some() {
            places.push(place)?;
        }
    }
    Ok(places)
}

/// The queues of all sessions, of which no line was taken.
pub fn new_queues(alloc: Global, script: &Script) -> Result<Items<Queue>, AllocError>
    ensures { IfOk result (AreQueues script.now 0) }
{
    let mut queues = Items::new(alloc);
    for number in 0..script.sessions.len() {
        let places = places_of_session(alloc, script, number as u32)?;
        queues.push(Queue { places, taken: 0 })?;
    }
    Ok(queues)
}

/// What the line at a place of the script gives to the session, if it is one of its lines.
#[tactic(auto, unfolding(crate::specs::Queues::given_at))]
fn statement_from(script: &Script, place: usize, number: u32) -> Option<&Given>
    ensures { option_copied result ≡ given_at number script.now.lines place }
{
    let line = script.lines.get(place)?;
    statement_for(line, number)
}

/// The statement that a session is at, or `None` where it has a reply to each.
#[tactic(auto, using(crate::proofs::Places::line_found, crate::proofs::Places::line_missing))]
pub fn statement_of<'a>(
    script: &'a Script,
    queue: &Queue,
    number: u32,
    session: &Session,
) -> Option<&'a Given>
    requires { queue.now.places ≡ places_of number 0 script.now.lines }
    ensures { option_copied result ≡ statement_at script.now number (kept_session session.now) }
{
    let place = queue.places.get(session.answered as usize)?;
    statement_from(script, *place, number)
}

/// The statement that a session of the server is at.
pub fn statement_in<'a>(
    script: &'a Script,
    queues: &[Queue],
    server: &Server,
    number: u32,
) -> Option<&'a Given>
    requires queue { IfSome (item_at queues.now number) (λ queue.
        queue.places ≡ places_of number 0 script.now.lines) }
    requires there { number < length queues.now }
    ensures { (session : _) → item_at server.now.sessions number ≡ Some session →
        option_copied result ≡ statement_at script.now number (kept_session session) }
{
    let session = server.sessions.get(number as usize)?;
    let queue = &queues[number as usize];
    statement_of(script, queue, number, session)
}

/// The number of the session that the line at a place of the script is given to.
pub fn session_at(script: &Script, place: usize) -> u32
    requires { place < length script.now.lines }
    ensures { option_map (λ line. session_in line.content) (item_at script.now.lines place)
        ≡ Some result }
{
    match &script.lines.as_slice()[place].content {
        Content::Given { session, .. } => *session,
    }
}

/// One line more of the session was taken.
pub fn enqueue(queues: &mut Items<Queue>, number: u32)
    requires { (queue : _) → item_at queues.old number ≡ Some queue → queue.taken < 2 ^ 64 - 1 }
    ensures { queues.new ≡ with_changed_item queued_more queues.old number }
{
    if let Some(queue) = queues.get_mut(number as usize) {
        queue.taken += 1;
    }
}
