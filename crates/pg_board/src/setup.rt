ghost use Rattle.std.specs.Prelude.{◌≡◌, ◌+◌, IfErr, IfOk, Ok, OnOk, map};
ghost use Rattle.pg_world.specs.Candidates.{insert_candidates as candidates_of};
ghost use Rattle.pg_relation.specs.Setup.{setup_outcome, tables_inserted};
ghost use Rattle.pg_board.specs.Faults.{IsFaultIn, IsFaultOf, IsSetUp};
ghost use Rattle.pg_board.specs.Loaded.{AreLoaded};
ghost use Rattle.pg_board.specs.Servers.{IsFirst, first_session};
ghost use Rattle.pg_board.specs.Shown.{tables_shown};

use crate::fault::BoardFault;
use crate::server::Server;
use crate::session::{Place, Session};
use crate::tables::{add_rows_in, empty_tables};
use pg_lists::{Items, TryCopy};
use pg_model::{Script, SetupInsert};
use pg_names::Names;
use pg_plans::{PlanFault, insert_candidates};
use pg_table::TableSet;
use pg_waits::Waits;
use pg_world::Block;
use pg_xacts::Xacts;
use std::alloc::{AllocError, Global};

/// The server after setup, or the first error that a setup INSERT raises.
#[tactic(auto, using(crate::proofs::Setups::tables_set), unfolding(pg_relation::specs::Setup::setup_outcome))]
pub fn new_server(alloc: Global, script: &Script) -> Result<Server, BoardFault>
    ensures ok { IfOk result (λ server. IsFirst script.now server) }
    ensures set_up { OnOk result (IsSetUp script.now) }
    ensures fault { IfErr result (IsFaultOf script.now) }
{
    let tables = set_up_tables(alloc, script)?;
    let sessions = first_sessions(alloc, &script.sessions)?;
    let waits = Waits::new(alloc, script.sessions.len() as u32)?;
    Ok(Server {
        tables,
        xacts: Xacts::new(alloc),
        sessions,
        waits,
    })
}

/// The tables after setup, or the first error that a setup INSERT raises.
#[tactic(auto, unfolding(pg_relation::specs::Setup::setup_outcome))]
fn set_up_tables(alloc: Global, script: &Script) -> Result<TableSet, BoardFault>
    ensures ok { IfOk result (λ tables. setup_outcome script.now ≡ Ok (tables_shown tables)) }
    ensures loaded { IfOk result AreLoaded }
    ensures fault { IfErr result (IsFaultOf script.now) }
{
    let mut tables = empty_tables(alloc, &script.catalogue)?;
    for setup in script.setup.as_slice() {
        run_setup(alloc, &mut tables, setup)?;
    }
    Ok(tables)
}

/// Runs a setup INSERT: its rows are evaluated first, and then all are added.
fn run_setup(alloc: Global, tables: &mut TableSet, setup: &SetupInsert) -> Result<(), BoardFault>
    requires { AreLoaded tables.old }
    ensures ok { OnOk result (tables_inserted (tables_shown tables.old) setup.now
        (candidates_of setup.now.insert) ≡ Ok (tables_shown tables.new)) }
    ensures loaded { OnOk result (AreLoaded tables.new) }
    ensures fault { IfErr result (IsFaultIn (tables_inserted (tables_shown tables.old) setup.now
        (candidates_of setup.now.insert))) }
{
    let candidates = match insert_candidates(alloc, &setup.insert) {
        Ok(candidates) => candidates,
        Err(PlanFault::Error(error)) => {
            let line = setup.number;
            return Err(BoardFault::Setup { line, error });
        }
        Err(PlanFault::Memory) => return Err(BoardFault::Memory),
    };
    let table = setup.insert.target.table;
    add_rows_in(alloc, tables, table, candidates.as_slice())?;
    Ok(())
}

/// The sessions before their first lines.
#[tactic(auto, using(crate::proofs::Setups::fresh_more, crate::proofs::Setups::fresh_all))]
fn first_sessions(alloc: Global, names: &Names) -> Result<Items<Session>, AllocError>
    ensures { IfOk result (λ sessions. sessions ≡ map (λ name. first_session) names.now) }
{
    let mut sessions = Items::new(alloc);
    for number in 0..names.len() {
        prove!(number < names.len());
        sessions.push(Session {
            answered: 0,
            block: Block::NoBlock,
            transaction: None,
            command: 0,
            place: Place::Idle,
        })?;
    }
    Ok(sessions)
}
