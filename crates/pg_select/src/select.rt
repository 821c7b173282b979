ghost use Rattle.std.specs.Prelude.{◌≡◌, ◌≢◌, IfOk};
ghost use Rattle.pg_model.specs.declared.statement.Select.{Select as Statement};
ghost use Rattle.pg_model.specs.declared.statement.Statement.TheVariants as statement;
ghost use Rattle.pg_plans.specs.Answers.{IsAnswerBehind};
ghost use Rattle.pg_select.specs.Steps.{GoesOn, IsOutcome, IsSelecting, new_select, select_choices_in};
ghost use Rattle.pg_world.specs.Replies.{reply_of};

use pg_lists::Items;
use pg_model::Reply;
use pg_plans::{
    Act, Candidates, candidates_or_error, failure, first_running, select_candidates, select_reply,
    tables_of_sources,
};
use pg_scans::Reading;
use pg_table::TableSet;
use pg_world::Running;
use pg_xacts::{Me, Snapshot, Xacts};
use std::alloc::{AllocError, Global};
use std::marker::Model;

/// A plain SELECT that has its snapshot.
#[derive(Drop)]
pub struct Select {
    alloc: Global,
    running: Running,
    /// How far it has read, until it has its candidates.
    reading: Option<Reading>,
}

impl Model for Select {
    ghost use Rattle.pg_select.specs.Steps.{SelectView};

    ghost Value = { SelectView };

    ghost view = { λ m. record { running = m.running; reading = m.reading } };
}

impl Select {
    /// The SELECT of `me` with its snapshot, which has read nothing yet.
    pub fn new(
        alloc: Global,
        select: &pg_model::Select,
        me: Me,
        snapshot: Snapshot,
    ) -> Result<Select, AllocError>
        ensures { IfOk result (λ machine. machine ≡ new_select select.now me snapshot) }
    {
        let tables = tables_of_sources(alloc, select.sources.as_slice())?;
        let commits = snapshot.commits();
        Ok(Select {
            alloc,
            running: first_running(alloc, me, commits, Ok(Items::new(alloc))),
            reading: Some(Reading::new(alloc, tables, me, snapshot)),
        })
    }

    /// Goes over the next piece of its tables; or, where all of them were gone through, makes its
    /// candidates; or is done, or fails with their first error. Want of memory leaves the machine
    /// as it was.
    pub fn step(&mut self, select: &pg_model::Select, tables: &TableSet, xacts: &Xacts) -> Act
        requires { IsSelecting select.now tables.now xacts.now self.old }
        ensures choice { IsAnswerBehind self.old.reading
            (select_choices_in select.now tables.now xacts.now self.old.running) result }
        ensures quiet { result ≡ Act.Quiet →
            GoesOn select.now tables.now xacts.now self.old self.new }
        ensures stays { result ≢ Act.Quiet → self.new ≡ self.old }
    {
        let Some(reading) = &mut self.reading else {
            return outcome(self.alloc, &self.running.candidates);
        };
        if !reading.is_done() {
            return match reading.read_piece(tables, xacts) {
                Ok(()) => Act::Quiet,
                Err(_) => Act::Memory,
            };
        }
        match candidates_or_error(select_candidates(self.alloc, select, reading.seen())) {
            Ok(candidates) => {
                self.running.candidates = candidates;
                self.reading = None;
                Act::Quiet
            }
            Err(_) => Act::Memory,
        }
    }

    /// The reply, once the machine is done.
    pub fn reply(&self) -> Result<Reply, AllocError>
        ensures { IfOk result (λ reply. (select : Statement) →
            reply ≡ reply_of (statement.Select select) self.now.running) }
    {
        select_reply(self.alloc, &self.running)
    }
}

/// Done, or the error of the candidates.
fn outcome(alloc: Global, candidates: &Candidates) -> Act
    ensures { IsOutcome candidates.now result }
{
    match candidates {
        Ok(_) => Act::Done,
        Err(error) => failure(alloc, error),
    }
}
