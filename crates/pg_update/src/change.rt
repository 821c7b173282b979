ghost use Rattle.std.specs.Prelude.{◌≡◌, IfOk, List, None, is_some, true};
ghost use Rattle.pg_model.specs.declared.statement.Change.{Change as Statement};
ghost use Rattle.pg_model.specs.declared.statement.Statement.TheVariants as statement;
ghost use Rattle.pg_plans.specs.Answers.{IsQuiet};
ghost use Rattle.pg_table.specs.States.{TableState};
ghost use Rattle.pg_update.specs.Steps.{GoesOn, IsAnswer, IsChanging, IsHolding, IsStep, change_choices_in, new_change};
ghost use Rattle.pg_world.specs.Choosing.{candidate_choices};
ghost use Rattle.pg_world.specs.Replies.{reply_of};
ghost use Rattle.pg_world.specs.declared.session.Stage.TheVariants.{Between as between};
ghost use Rattle.pg_xacts.specs.Transactions.{Transactions};

use pg_lists::Items;
use pg_model::Reply;
use pg_plans::{
    Act, candidates_or_error, change_candidates, change_reply, failure, first_running,
    tables_of_change, take_up,
};
use pg_scans::Reading;
use pg_table::TableSet;
use pg_world::{Running, Stage};
use pg_xacts::{Me, Snapshot, Xacts};
use std::alloc::{AllocError, Global};
use std::marker::Model;

/// An UPDATE or DELETE that has its snapshot.
#[derive(Drop)]
pub struct Change {
    pub(crate) alloc: Global,
    pub(crate) running: Running,
    /// How far it has read, until it has its candidates.
    pub(crate) reading: Option<Reading>,
    /// Whether the new values of the row that it has locked are staged.
    pub(crate) staged: bool,
}

impl Model for Change {
    ghost use Rattle.pg_update.specs.Steps.{ChangeView, IsCounted};

    ghost Value = { ChangeView };

    ghost view = { λ m. record { running = m.running; reading = m.reading; staged = m.staged } };

    ghost invariant = { λ m. IsCounted m.running };
}

impl Change {
    /// The UPDATE or DELETE of `me` with its snapshot, which has read nothing yet.
    pub fn new(
        alloc: Global,
        change: &pg_model::Change,
        me: Me,
        snapshot: Snapshot,
    ) -> Result<Change, AllocError>
        ensures { IfOk result (λ machine. machine ≡ new_change change.now me snapshot) }
    {
        let tables = tables_of_change(alloc, change)?;
        let commits = snapshot.commits();
        Ok(Change {
            alloc,
            running: first_running(alloc, me, commits, Ok(Items::new(alloc))),
            reading: Some(Reading::new(alloc, tables, me, snapshot)),
            staged: false,
        })
    }

    /// Goes over the next piece of its tables, or makes its candidates where all of them were gone
    /// through; then takes up the next candidate, locks its row, stages what that is to hold, and
    /// writes it; or passes the candidate, waits for another transaction, fails with the first
    /// error, or is done. Want of memory leaves the machine and the tables as they were.
    pub fn step(&mut self, change: &pg_model::Change, tables: &mut TableSet, xacts: &Xacts) -> Act
        requires changing { IsChanging change.now tables.old xacts.now self.old }
        requires holding { IsHolding change.now tables.old xacts.now self.old }
        ensures choice { IsAnswer
            (change_choices_in change.now tables.old xacts.now self.old.running) self.old result }
        ensures step { IsStep change.now tables.old xacts.now self.old result self.new
            tables.new }
    {
        if self.reading.is_some() {
            return self.read_on(change, tables, xacts);
        }
        let count = match &self.running.candidates {
            Ok(candidates) => candidates.len() as u64,
            Err(error) => return failure(self.alloc, error),
        };
        match self.running.stage {
            Stage::Between => self.take_up(count),
            Stage::Found => self.lock_row(change, tables, xacts),
            Stage::Locked(_) if self.staged => self.write(change, tables),
            Stage::Locked(name) => self.change_row(change, name, tables, xacts),
            Stage::Placed(_) => Act::Done,
        }
    }

    /// The reply, once the machine is done.
    pub fn reply(&self, change: &pg_model::Change) -> Result<Reply, AllocError>
        ensures { IfOk result (λ reply.
            reply ≡ reply_of (statement.Change change.now) self.now.running) }
    {
        change_reply(self.alloc, change, &self.running)
    }

    /// Goes over the next piece of its tables; or makes its candidates, where all of them were gone
    /// through. Want of memory leaves the machine as it was.
    fn read_on(&mut self, change: &pg_model::Change, tables: &TableSet, xacts: &Xacts) -> Act
        requires reads { is_some self.old.reading ≡ true }
        requires changing { IsChanging change.now tables.now xacts.now self.old }
        ensures answer { IsQuiet result }
        ensures quiet { result ≡ Act.Quiet →
            GoesOn change.now tables.now xacts.now self.old self.new tables.now }
        ensures stays { result ≡ Act.Memory → self.new ≡ self.old }
    {
        let Some(reading) = &mut self.reading else {
            unreachable!();
        };
        if !reading.is_done() {
            return match reading.read_piece(tables, xacts) {
                Ok(()) => Act::Quiet,
                Err(_) => Act::Memory,
            };
        }
        match candidates_or_error(change_candidates(self.alloc, change, reading.seen())) {
            Ok(candidates) => {
                self.running.candidates = candidates;
                self.reading = None;
                Act::Quiet
            }
            Err(_) => Act::Memory,
        }
    }

    /// Takes the next of so many candidates up, or is done.
    fn take_up(&mut self, count: u64) -> Act
        requires planned { self.old.reading ≡ None }
        requires stage { self.old.running.stage ≡ between }
        ensures choice { IsAnswer (candidate_choices self.old.running.candidate count) self.old
            result }
        ensures step { (change : Statement) (tables : List TableState)
            (transactions : Transactions) →
            IsStep change tables transactions self.old result self.new tables }
    {
        take_up(&mut self.running, count)
    }
}
