ghost use Rattle.std.specs.Prelude.{◌≡◌, ◌<◌, Some, length, option_map};
ghost use Rattle.pg_lists.specs.Numbered.{item_at};
ghost use Rattle.pg_relation.specs.Effect.{block_after, block_failed};
ghost use Rattle.pg_world.specs.Tables.{commit as to_commit, rollback as to_roll_back};
ghost use Rattle.pg_board.specs.Counts.{RunsIn};
ghost use Rattle.pg_board.specs.Kept.{CanAnswer, RunsAt, StandBehind, StandBehindAt, at_kept, place_ended, server_closed, server_committed, server_failed, server_replied, server_rolled_back, session_left, with_end_in};

use crate::server::Server;
use crate::session::{Place, Session};
use pg_model::Tag;
use pg_world::Block;

/// The open transaction of a session.
fn transaction_of(server: &Server, number: u32) -> Option<u32>
    requires { number < length server.now.sessions }
    ensures { option_map (λ session. session.transaction) (item_at server.now.sessions number)
        ≡ Some result }
{
    server.sessions.get(number as usize)?.transaction
}

/// The transaction of the session, where one is open, takes the next place in the commit order.
fn commit_open(server: &mut Server, number: u32, transaction: Option<u32>)
    requires { RunsIn server.old.xacts transaction }
    ensures { server.new ≡ with_end_in server.old number transaction to_commit }
{
    if let Some(xact) = transaction {
        server.xacts.commit(xact);
        server.tables.ended_all(xact);
        server.waits.ended(number);
    }
}

/// What the transaction of the session did, where one is open, is undone.
fn roll_back_open(server: &mut Server, number: u32, transaction: Option<u32>)
    requires runs { RunsIn server.old.xacts transaction }
    requires behind { StandBehind server.old.tables transaction }
    ensures { server.new ≡ with_end_in server.old number transaction to_roll_back }
{
    if let Some(xact) = transaction {
        server.xacts.rollback(xact);
        server.tables.undo_all(xact);
        server.waits.ended(number);
    }
}

/// The session has no transaction open; between statements it is then in its COMMIT or ROLLBACK.
fn leave_transaction(session: &mut Session, tag: Tag)
    ensures { session.new ≡ session_left session.old (place_ended tag session.old.place) }
{
    session.transaction = None;
    session.command = 0;
    if matches!(session.place, Place::Idle) {
        session.place = Place::Ending(tag);
    }
}

/// The transaction of the session commits.
#[tactic(auto, using(crate::proofs::Rooms::runs_of))]
pub fn commit(server: &mut Server, number: u32)
    requires within { number < length server.old.sessions }
    requires runs { RunsAt server.old number }
    ensures { server.new ≡ at_kept server.old number (λ session.
        server_committed server.old number session) }
{
    let transaction = transaction_of(server, number);
    commit_open(server, number, transaction);
    let session = server.sessions.item_mut(number as usize);
    leave_transaction(session, Tag::Commit);
}

/// The transaction of the session is rolled back.
#[tactic(auto, using(crate::proofs::Rooms::runs_of, crate::proofs::Behind::behind_of))]
pub fn roll_back(server: &mut Server, number: u32)
    requires within { number < length server.old.sessions }
    requires runs { RunsAt server.old number }
    requires behind { StandBehindAt server.old number }
    ensures { server.new ≡ at_kept server.old number (λ session.
        server_rolled_back server.old number session) }
{
    let transaction = transaction_of(server, number);
    roll_back_open(server, number, transaction);
    let session = server.sessions.item_mut(number as usize);
    leave_transaction(session, Tag::Rollback);
}

/// The block behind a reply.
fn block_after(tag: Tag, block: Block) -> Block
    ensures { result ≡ block_after tag block }
{
    match (tag, block) {
        (Tag::Begin, Block::NoBlock) => Block::OpenBlock,
        (Tag::Commit | Tag::Rollback, _) => Block::NoBlock,
        _ => block,
    }
}

/// The line has its reply.
pub fn answer(server: &mut Server, number: u32, tag: Tag)
    requires within { number < length server.old.sessions }
    requires answered { CanAnswer server.old number }
    ensures { server.new ≡ at_kept server.old number (λ session.
        server_replied server.old number session tag) }
{
    let session = server.sessions.item_mut(number as usize);
    session.answered += 1;
    session.block = block_after(tag, session.block);
    session.place = Place::Idle;
}

/// The block behind an error.
fn block_failed(block: Block) -> Block
    ensures { result ≡ block_failed block }
{
    match block {
        Block::NoBlock => Block::NoBlock,
        Block::OpenBlock | Block::FailedBlock => Block::FailedBlock,
    }
}

/// The transaction of the session is rolled back, and the error is its line's reply.
#[tactic(auto, using(crate::proofs::Rooms::runs_of, crate::proofs::Behind::behind_of))]
pub fn fail(server: &mut Server, number: u32)
    requires within { number < length server.old.sessions }
    requires answered { CanAnswer server.old number }
    requires runs { RunsAt server.old number }
    requires behind { StandBehindAt server.old number }
    ensures { server.new ≡ at_kept server.old number (λ session.
        server_failed server.old number session) }
{
    let transaction = transaction_of(server, number);
    roll_back_open(server, number, transaction);
    let session = server.sessions.item_mut(number as usize);
    session.answered += 1;
    session.block = block_failed(session.block);
    session.transaction = None;
    session.command = 0;
    session.place = Place::Idle;
}

/// The session ends, and its open transaction is rolled back.
#[tactic(auto, using(crate::proofs::Rooms::runs_of, crate::proofs::Behind::behind_of))]
pub fn close(server: &mut Server, number: u32)
    requires within { number < length server.old.sessions }
    requires runs { RunsAt server.old number }
    requires behind { StandBehindAt server.old number }
    ensures { server.new ≡ at_kept server.old number (λ session.
        server_closed server.old number session) }
{
    let transaction = transaction_of(server, number);
    roll_back_open(server, number, transaction);
    let session = server.sessions.item_mut(number as usize);
    session.transaction = None;
    session.command = 0;
    session.place = Place::Closed;
}
