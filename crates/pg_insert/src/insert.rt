ghost use Rattle.std.specs.Prelude.{◌≡◌, ◌≢◌, IfOk, map};
ghost use Rattle.pg_lists.specs.Numbered.{item_at};
ghost use Rattle.pg_insert.specs.Steps.{insert_choices_in, running_after, tables_after};
ghost use Rattle.pg_model.specs.declared.statement.Insert.{Insert as Statement};
ghost use Rattle.pg_model.specs.declared.statement.Statement.TheVariants as statement;
ghost use Rattle.pg_plans.specs.Answers.{IsAnswer};
ghost use Rattle.pg_table.specs.States.{table_shown};
ghost use Rattle.pg_world.specs.Candidates.{insert_candidates as candidates_of};
ghost use Rattle.pg_world.specs.Choices.{placing_choices};
ghost use Rattle.pg_world.specs.Replies.{reply_of};
ghost use Rattle.pg_world.specs.Sessions.{first_running as running_first};
ghost use Rattle.pg_world.specs.declared.session.Stage.TheVariants.{Found as found, Placed as placed};

use crate::tables::{place_values, settle_row};
use pg_model::{EntryAct, Reply};
use pg_plans::{
    Act, candidates_or_error, failure, first_running, insert_candidates, insert_reply,
    proposed_values, take_up,
};
use pg_table::TableSet;
use pg_world::{Running, Stage};
use pg_xacts::{Me, Xacts};
use std::alloc::{AllocError, Global};
use std::marker::Model;

/// An INSERT that has its snapshot.
#[derive(Drop)]
pub struct Insert {
    alloc: Global,
    running: Running,
}

impl Model for Insert {
    ghost use Rattle.pg_insert.specs.Steps.{IsCounted};
    ghost use Rattle.pg_world.specs.declared.session.Running.{Running};

    ghost Value = { Running };

    ghost view = { λ m. m.running };

    ghost invariant = { λ m. IsCounted m.running };
}

impl Insert {
    /// The INSERT of `me` with its proposed rows, or their first error, whose snapshot sees so many
    /// commits.
    pub fn new(
        alloc: Global,
        insert: &pg_model::Insert,
        me: Me,
        commits: u32,
    ) -> Result<Insert, AllocError>
        ensures { IfOk result (λ machine.
            machine ≡ running_first me commits (candidates_of insert.now)) }
    {
        let candidates = candidates_or_error(insert_candidates(alloc, insert))?;
        Ok(Insert {
            alloc,
            running: first_running(alloc, me, commits, candidates),
        })
    }

    /// Does the only act that is permitted, and answers it; or fails with the first error of the
    /// candidates; or is done. Want of memory leaves the machine and the tables as they were.
    pub fn step(&mut self, insert: &pg_model::Insert, tables: &mut TableSet, xacts: &Xacts) -> Act
        ensures choice { IsAnswer (insert_choices_in insert.now tables.old xacts.now self.old)
            result }
        ensures entry { result ≢ Act.Quiet }
        ensures machine { self.new ≡ running_after tables.old xacts.now result self.old }
        ensures tables { tables.new ≡ tables_after result self.old tables.old }
    {
        let count = match &self.running.candidates {
            Ok(candidates) => candidates.len() as u64,
            Err(error) => return failure(self.alloc, error),
        };
        match self.running.stage {
            Stage::Between => take_up(&mut self.running, count),
            Stage::Found => self.place(insert.target.table, tables, xacts),
            Stage::Placed(row) => self.store(insert.target.table, row, tables, xacts),
            Stage::Locked(_) => Act::Done,
        }
    }

    /// The reply, once the machine is done.
    pub fn reply(&self) -> Result<Reply, AllocError>
        ensures { IfOk result (λ reply. (insert : Statement) →
            reply ≡ reply_of (statement.Insert insert) self.now) }
    {
        insert_reply(self.alloc, &self.running)
    }

    /// Places the proposed row of the candidate taken up last.
    fn place(&mut self, number: u32, tables: &mut TableSet, xacts: &Xacts) -> Act
        requires { self.old.stage ≡ found }
        ensures choice { IsAnswer (placing_choices number
            (item_at (map table_shown tables.old) number)) result }
        ensures entry { result ≢ Act.Quiet }
        ensures machine { self.new ≡ running_after tables.old xacts.now result self.old }
        ensures tables { tables.new ≡ tables_after result self.old tables.old }
    {
        let _ = xacts;
        let Ok(values) = proposed_values(self.alloc, &self.running) else {
            return Act::Memory;
        };
        match place_values(tables, number, self.running.me, values) {
            Ok(Some(row)) => {
                self.running.stage = Stage::Placed(row);
                Act::Entry(EntryAct::Placed { table: number, row })
            }
            Ok(None) => Act::Done,
            Err(_) => Act::Memory,
        }
    }

    /// Stores what is placed under that row number.
    fn store(&mut self, number: u32, row: u64, tables: &mut TableSet, xacts: &Xacts) -> Act
        requires { self.old.stage ≡ placed row }
        ensures choice { result ≡ Act.Entry (EntryAct.Inserted number row) }
        ensures machine { self.new ≡ running_after tables.old xacts.now result self.old }
        ensures tables { tables.new ≡ tables_after result self.old tables.old }
    {
        let _ = xacts;
        prove!(self.running.acts < self.running.candidate);
        self.running.acts += 1;
        self.running.stage = Stage::Between;
        settle_row(tables, number, row);
        Act::Entry(EntryAct::Inserted { table: number, row })
    }
}
