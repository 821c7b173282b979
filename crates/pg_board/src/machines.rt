ghost use Rattle.std.specs.Prelude.{◌≡◌, IfOk, true};
ghost use Rattle.pg_world.specs.Replies.{reply_of};
ghost use Rattle.pg_board.specs.Machines.{IsMachineStep, IsPlanned, is_still};
ghost use Rattle.pg_board.specs.Servers.{IsOfKind, IsReady, running_of};

use crate::session::Machine;
use pg_model::{Reply, Statement};
use pg_plans::Act;
use pg_table::TableSet;
use pg_xacts::Xacts;
use std::alloc::AllocError;

/// A machine makes its next step over the tables and transactions.
#[tactic(auto, using(crate::proofs::MachineKinds::insert_steps, crate::proofs::MachineKinds::select_steps, crate::proofs::MachineKinds::change_steps))]
pub fn step_machine(
    machine: &mut Machine,
    statement: &Statement,
    tables: &mut TableSet,
    xacts: &Xacts,
) -> Act
    requires { IsReady tables.old xacts.now statement.now machine.old }
    ensures step { IsMachineStep statement.now xacts.now tables.old tables.new machine.old
        machine.new result }
    ensures machine_stays { is_still result ≡ true → machine.new ≡ machine.old }
    ensures tables_stay { is_still result ≡ true → tables.new ≡ tables.old }
{
    match (machine, statement) {
        (Machine::Insert(machine), Statement::Insert(insert)) => machine.step(
            insert, tables, xacts,
        ),
        (Machine::Select(machine), Statement::Select(select)) => machine.step(
            select, tables, xacts,
        ),
        (Machine::Change(machine), Statement::Change(change)) => machine.step(
            change, tables, xacts,
        ),
        _ => unreachable!(),
    }
}

/// The reply of a statement whose machine is done.
pub fn machine_reply(machine: &Machine, statement: &Statement) -> Result<Reply, AllocError>
    requires kind { IsOfKind machine.now statement.now }
    requires planned { IsPlanned machine.now }
    ensures { IfOk result (λ reply. reply ≡ reply_of statement.now (running_of machine.now)) }
{
    match (machine, statement) {
        (Machine::Insert(machine), Statement::Insert(_)) => {
            let reply = machine.reply()?;
            Ok(reply)
        }
        (Machine::Select(machine), Statement::Select(_)) => {
            let reply = machine.reply()?;
            Ok(reply)
        }
        (Machine::Change(machine), Statement::Change(change)) => {
            let reply = machine.reply(change)?;
            Ok(reply)
        }
        _ => unreachable!(),
    }
}
