ghost use Rattle.std.specs.Prelude.{◌≡◌, IfOk, Some};
ghost use Rattle.std.specs.Option.{option_copied};
ghost use Rattle.pg_relation.specs.Moves.{beginning_moves, commit_moves, ends_block, idle_moves, rollback_moves};
ghost use Rattle.pg_relation.specs.Stepped.{first_of_list};
ghost use Rattle.pg_world.specs.Replies.{bare_reply};
ghost use Rattle.pg_model.specs.declared.journal.EntryAct.TheVariants.{Replied};
ghost use Rattle.pg_board.specs.Kept.{outside_moves};
ghost use Rattle.pg_board.specs.Servers.{kept_session, kept_world};

use crate::queues::Given;
use crate::server::Server;
use crate::session::{Place, Session};
use pg_lists::{Items, TryCopy};
use pg_model::{EntryAct, Reply, SqlError, Statement, Tag};
use pg_world::Block;
use std::alloc::{AllocError, Global};

/// The reply of BEGIN, COMMIT and ROLLBACK, which return no rows.
fn bare_reply(alloc: Global, tag: Tag) -> EntryAct
    ensures { result ≡ Replied (bare_reply tag) }
{
    EntryAct::Replied(Reply {
        tag,
        rows: Items::new(alloc),
    })
}

/// The first act that is permitted to a session between statements, or at the end of a COMMIT or
/// ROLLBACK; or `None` where none is.
pub fn outside_act(
    alloc: Global,
    server: &Server,
    session: &Session,
    given: Option<&Given>,
) -> Result<Option<EntryAct>, AllocError>
    ensures { IfOk result (λ act. act ≡ first_of_list
        (outside_moves (kept_world server.now) (kept_session session.now)
        (option_copied given.entry) session.now.place)) }
{
    match &session.place {
        Place::Idle => Ok(Some(idle_act(alloc, server, session, given)?)),
        Place::Ending(tag) => Ok(given.map(|_| bare_reply(alloc, *tag))),
        Place::Inside(_) | Place::Closed => Ok(None),
    }
}

/// The act of a session between statements.
fn idle_act(
    alloc: Global,
    server: &Server,
    session: &Session,
    given: Option<&Given>,
) -> Result<EntryAct, AllocError>
    ensures { IfOk result (λ act.
        first_of_list (idle_moves (kept_world server.now) (kept_session session.now)
        (option_copied given.entry)) ≡ Some act) }
{
    let Some(given) = given else {
        return Ok(EntryAct::Closed);
    };
    match session.block {
        Block::FailedBlock if !is_block_end(given) => Ok(EntryAct::Failed(SqlError::Aborted)),
        _ => beginning_act(alloc, server, session, given),
    }
}

/// Whether a statement ends a block.
fn is_block_end(given: &Given) -> bool
    ensures { result ≡ ends_block given.now }
{
    matches!(given, Ok(Statement::Commit | Statement::Rollback))
}

/// The first act of a statement.
fn beginning_act(
    alloc: Global,
    server: &Server,
    session: &Session,
    given: &Given,
) -> Result<EntryAct, AllocError>
    ensures { IfOk result (λ act. first_of_list
        (beginning_moves (kept_world server.now) (kept_session session.now) given.now)
        ≡ Some act) }
{
    match given {
        Ok(Statement::Begin) => Ok(bare_reply(alloc, Tag::Begin)),
        Ok(Statement::Commit) => Ok(commit_act(alloc, session.block, session.transaction)),
        Ok(Statement::Rollback) => Ok(rollback_act(alloc, session.transaction)),
        Ok(Statement::Select(_) | Statement::Insert(_) | Statement::Change(_)) => {
            Ok(EntryAct::Snapped(server.xacts.commits()))
        }
        Err(error) => Ok(EntryAct::Failed(error.try_copy(alloc)?)),
    }
}

/// The first act of a COMMIT.
fn commit_act(alloc: Global, block: Block, transaction: Option<u32>) -> EntryAct
    ensures { first_of_list (commit_moves block transaction) ≡ Some result }
{
    if transaction.is_some() {
        return EntryAct::Committed;
    }
    match block {
        Block::NoBlock | Block::OpenBlock => bare_reply(alloc, Tag::Commit),
        Block::FailedBlock => bare_reply(alloc, Tag::Rollback),
    }
}

/// The first act of a ROLLBACK.
fn rollback_act(alloc: Global, transaction: Option<u32>) -> EntryAct
    ensures { first_of_list (rollback_moves transaction) ≡ Some result }
{
    match transaction {
        Some(_) => EntryAct::RolledBack,
        None => bare_reply(alloc, Tag::Rollback),
    }
}
