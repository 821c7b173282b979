ghost use Rattle.std.specs.Prelude.{◌≡◌, ◌<◌, ◌-◌, ◌^◌, IfOk, OnErr, OnOk, length};
ghost use Rattle.pg_relation.specs.Effect.{me_for, transactions_opened};
ghost use Rattle.pg_xacts.specs.Snapshots.{WasTakenOf, snapshot_of};
ghost use Rattle.pg_board.specs.Kept.{CanBegin, CanCommand, TakesSnapshot, at_kept, machine_for, server_snapped};
ghost use Rattle.pg_board.specs.Servers.{kept_session};

use crate::server::Server;
use crate::session::{Machine, Place, Session};
use pg_insert::Insert;
use pg_model::Statement;
use pg_select::Select;
use pg_update::Change;
use pg_xacts::{Me, Snapshot, Xacts};
use std::alloc::{AllocError, Global};

/// A statement takes its snapshot of all commits so far: a transaction opens where none is open,
/// and its machine begins.
pub fn take_snapshot(
    alloc: Global,
    server: &mut Server,
    number: u32,
    statement: &Statement,
) -> Result<(), AllocError>
    requires within { number < length server.old.sessions }
    requires begun { CanBegin server.old number }
    requires commands { CanCommand server.old number }
    requires takes { TakesSnapshot statement.now }
    ensures ok { OnOk result (server.new ≡ at_kept server.old number (λ session.
        server_snapped server.old number statement.now session)) }
    ensures taken { OnOk result (WasTakenOf server.old.xacts (snapshot_of server.old.xacts)) }
    ensures err { OnErr result (server.new ≡ server.old) }
{
    let session = server.session(number);
    let me = me_for(&server.xacts, number, session);
    let transaction = session.transaction;
    let snapshot = server.xacts.snapshot()?;
    let machine = machine_for(alloc, statement, me, snapshot)?;
    open_transaction(&mut server.xacts, number, transaction)?;
    let session = server.sessions.item_mut(number as usize);
    session.transaction = Some(me.xact);
    session.command = me.command;
    session.place = Place::Inside(machine);
    Ok(())
}

/// Who takes the snapshot: the session with its open transaction, or else the next to be begun.
fn me_for(xacts: &Xacts, number: u32, session: &Session) -> Me
    requires begun { length xacts.now.list < 2 ^ 32 - 1 }
    requires commands { session.now.command < 2 ^ 32 - 1 }
    ensures { result ≡ me_for xacts.now number (kept_session session.now) }
{
    let xact = match session.transaction {
        Some(xact) => xact,
        None => xacts.count() + 1,
    };
    Me {
        session: number,
        xact,
        command: session.command + 1,
    }
}

/// A transaction opens where none is open.
fn open_transaction(
    xacts: &mut Xacts,
    number: u32,
    transaction: Option<u32>,
) -> Result<(), AllocError>
    requires { length xacts.old.list < 2 ^ 32 - 1 }
    ensures ok { OnOk result (xacts.new ≡ transactions_opened xacts.old number transaction) }
    ensures err { OnErr result (xacts.new ≡ xacts.old) }
{
    if transaction.is_none() {
        xacts.begin(number)?;
    }
    Ok(())
}

/// The machine of a statement with its snapshot.
fn machine_for(
    alloc: Global,
    statement: &Statement,
    me: Me,
    snapshot: Snapshot,
) -> Result<Machine, AllocError>
    requires { TakesSnapshot statement.now }
    ensures { IfOk result (λ machine. machine ≡ machine_for statement.now me snapshot) }
{
    match statement {
        Statement::Select(select) => Ok(Machine::Select(Select::new(alloc, select, me, snapshot)?)),
        Statement::Insert(insert) => Ok(Machine::Insert(Insert::new(
            alloc,
            insert,
            me,
            snapshot.commits(),
        )?)),
        Statement::Change(change) => Ok(Machine::Change(Change::new(alloc, change, me, snapshot)?)),
        Statement::Begin | Statement::Commit | Statement::Rollback => unreachable!(),
    }
}
