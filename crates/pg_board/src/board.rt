ghost use Rattle.std.specs.Prelude.{◌≡◌, ◌≢◌, ◌↔◌, ◌<◌, ◌≤◌, IfErr, IfOk, IfSome, IsTrue, false, OnErr, None, OnOk, Some, length, nat_lt, true, ℕ};
ghost use Rattle.pg_relation.specs.Journals.{IsLegal, world_after};
ghost use Rattle.pg_relation.specs.Laws.{AreClosed};
ghost use Rattle.pg_relation.specs.Printed.{tables_of};
ghost use Rattle.pg_relation.specs.Schedules.{line_taken, next_session, ready, settled_schedule};
ghost use Rattle.pg_board.specs.Board.{MovedBy, first_board, has_ended, is_unqueued, most_quiet, quiet_left, waits_for_lines};
ghost use Rattle.pg_waits.specs.Slots.{waits_for};
ghost use Rattle.pg_board.specs.Faults.{IsFaultOf, IsSetUp};

use crate::fault::BoardFault;
use crate::queues::{Queue, enqueue, new_queues, session_at};
use crate::rows::committed_tables;
use crate::schedule::{has_queued, ready_session, remaining_session, stands_closed, stands_idle};
use crate::server::Server;
use crate::setup::new_server;
use crate::step::step_session;
use crate::turns::moved;
use pg_lists::Items;
use pg_model::{Entry, Finished, Script};
use std::alloc::{AllocError, Global};
use std::marker::Model;

/// How many entries most lines have at most.
const USUAL_ENTRIES: usize = 6;

/// What a step of a session came to.
#[derive(Clone, Copy, Debug, PartialEq, Eq)]
pub enum Step {
    /// The session has moved: one entry was added to the journal, or the session has come nearer to
    /// its next entry.
    Moved,
    /// The session is between statements, its queue is empty and lines remain untaken.
    Idle,
    /// The session has ended.
    Closed,
    /// The session waits for that session's transaction to end.
    Waiting(u32),
    /// There was no memory for the step.
    Memory,
}

/// All sessions of a script, with their journal so far and the world that it leaves.
#[derive(Drop)]
pub struct Board<'a> {
    alloc: Global,
    script: &'a Script,
    journal: Vec<Entry>,
    server: Server,
    queues: Items<Queue>,
    taken: usize,
    last: Option<u32>,
    /// Who has begun to wait and has not moved since, in the order in which the waits began.
    waited: Vec<u32>,
}

impl<'a> Model for Board<'a> {
    ghost use Rattle.std.specs.Coded.{codes};
    ghost use Rattle.pg_model.specs.contracts.script.Script as script_of;
    ghost use Rattle.std.specs.Prelude.{map};
    ghost use Rattle.pg_relation.specs.Journals.{world_after};
    ghost use Rattle.pg_board.specs.Board.{BoardView};
    ghost use Rattle.pg_board.specs.Counts.{most_versions};
    ghost use Rattle.pg_board.specs.Steps.{place_quiet};
    ghost use Rattle.pg_board.specs.Tied.{IsTied};

    ghost Value = { BoardView };

    ghost coded = { Prim.hlevel (codes, script_of.the_row.coded) };

    ghost view = { λ b. record {
      script = b.script.now;
      journal = b.journal.items;
      world = world_after b.script.now b.journal.items;
      schedule = record { taken = b.taken; last = b.last; waited = b.waited.items };
      quiet = map (λ session. place_quiet (most_versions b.script.now b.journal.items) session.place)
          b.server.sessions;
    } };

    ghost invariant = { λ b. IsTied b.script.now b.journal.items b.server b.queues b.taken };
}

impl<'a> Board<'a> {
    /// A board of the script: an empty journal, and the world after setup; or the first error that
    /// a setup INSERT raises.
    pub fn new(alloc: Global, script: &'a Script) -> Result<Board<'a>, BoardFault>
        ensures first { IfOk result (λ board. board ≡ first_board script.now) }
        ensures set_up { OnOk result (IsSetUp script.now) }
        ensures fault { IfErr result (IsFaultOf script.now) }
    {
        let server = new_server(alloc, script)?;
        let queues = new_queues(alloc, script)?;
        let usual = script.lines.len().saturating_mul(USUAL_ENTRIES);
        let journal = Vec::with_capacity(alloc, usual)?;
        Ok(Board {
            alloc,
            script,
            journal,
            server,
            queues,
            taken: 0,
            last: None,
            waited: Vec::new(alloc),
        })
    }

    /// The script of the board.
    pub fn script(&self) -> &Script
        ensures script { result.now ≡ self.now.script }
        ensures set_up { IsSetUp self.now.script }
    {
        self.script
    }

    /// The entries so far, oldest first.
    pub fn journal(&self) -> &[Entry]
        ensures entries { result.now ≡ self.now.journal }
        ensures legal { IsLegal self.now.script self.now.journal }
        ensures reached { self.now.world ≡ world_after self.now.script self.now.journal }
        ensures bounded { (number : ℕ) → quiet_left self.now number ≤ most_quiet self.now number }
    {
        self.journal.as_slice()
    }

    /// Lets a session, one of the script's, make its next move.
    pub fn step(&mut self, session: u32) -> Step
        requires { session < length self.old.script.sessions }
        ensures moved { result ≡ Step.Moved → MovedBy session self.old self.new }
        ensures stays { result ≢ Step.Moved → self.new ≡ self.old }

        ensures idle { (result ≡ Step.Idle) ↔ IsTrue (waits_for_lines self.old session) }
        ensures closed { (result ≡ Step.Closed) ↔ IsTrue (has_ended self.old session) }
        ensures waiting { (other : ℕ) → (result ≡ Step.Waiting other)
            ↔ (waits_for self.old.world.waits session ≡ Some other) }

        ensures legal { IsLegal self.new.script self.new.journal }
        ensures reached { self.new.world ≡ world_after self.new.script self.new.journal }
    {
        if let Some(other) = self.waits_for(session) {
            return Step::Waiting(other);
        }
        if self.has_untaken() && self.has_empty_queue(session) {
            return Step::Idle;
        }
        if self.has_ended(session) {
            return Step::Closed;
        }
        match self.advance(session) {
            Ok(()) => Step::Moved,
            Err(_) => Step::Memory,
        }
    }

    /// Takes lines until a session is ready, and answers the session that moves next, or `None`
    /// where each has ended. A `step` of that session moves it, unless there is no memory.
    pub fn next(&mut self) -> Option<u32>
        ensures session { result ≡ next_session self.old.script self.old.world self.old.schedule }
        ensures schedule { self.new ≡ record self.old {
          schedule = settled_schedule self.old.script self.old.world self.old.schedule;
        } }

        ensures within { IfSome result (λ session. session < length self.new.script.sessions) }
        ensures can_move { IfSome result (λ session.
            (waits_for_lines self.new session ≡ false) × (has_ended self.new session ≡ false)
            × (waits_for self.new.world.waits session ≡ None)) }
        ensures ended { (result ≡ None) ↔ AreClosed self.old.world }
    {
        self.settle().or(remaining_session(&self.server))
    }

    /// Ends a run in which every session is closed: its journal, and the committed rows of each
    /// table.
    ///
    /// For want of memory the board comes back as it was.
    pub fn finish(self) -> Result<Finished, (Board<'a>, AllocError)>
        requires { AreClosed self.world }
        ensures journal { IfOk result (λ finished. finished.journal ≡ self.entry.journal) }
        ensures tables { IfOk result (λ finished. finished.tables ≡ tables_of self.entry.world) }
        ensures err { IfErr result (λ refused. refused.0 ≡ self.entry) }
    {
        match committed_tables(self.alloc, &self.server) {
            Ok(tables) => {
                let Board { journal, .. } = self;
                Ok(Finished {
                    journal: Items::from_vec(journal),
                    tables,
                })
            }
            Err(error) => Err((self, error)),
        }
    }

    /// The session that a session waits for, if it waits. Who waits is inside a statement.
    fn waits_for(&self, number: u32) -> Option<u32>
        ensures session { result ≡ waits_for self.now.world.waits number }
        ensures inside { IfSome result (λ other.
            (waits_for_lines self.now number ≡ false) × (has_ended self.now number ≡ false)) }
        ensures legal { IsLegal self.now.script self.now.journal }
        ensures reached { self.now.world ≡ world_after self.now.script self.now.journal }
    {
        self.server.waits.waits_for(number)
    }

    /// Whether the session is between statements without a queued line.
    #[tactic(auto, using(crate::proofs::Tying::unqueued_is, crate::proofs::Tying::tied_count))]
    fn has_empty_queue(&self, number: u32) -> bool
        requires { number < length self.now.script.sessions }
        ensures { result ≡ is_unqueued self.now number }
    {
        let session = self.server.session(number);
        stands_idle(session) && !has_queued(self.queues.as_slice(), number as usize, session)
    }

    /// Whether the session has ended.
    #[tactic(auto, using(crate::proofs::Tying::ended_is, crate::proofs::Tying::tied_count))]
    fn has_ended(&self, number: u32) -> bool
        requires { number < length self.now.script.sessions }
        ensures { result ≡ has_ended self.now number }
    {
        stands_closed(self.server.session(number))
    }

    /// Whether a line of the script is not taken yet.
    fn has_untaken(&self) -> bool
        ensures { result ≡ nat_lt self.now.schedule.taken (length self.now.script.lines) }
    {
        self.taken < self.script.lines.len()
    }

    /// Lets a session that has not ended make its next move, or come nearer to it.
    #[tactic(auto, using(crate::proofs::Tying::tied_serves, crate::proofs::Tying::tied_count, crate::proofs::Tying::unended_in))]
    fn advance(&mut self, number: u32) -> Result<(), AllocError>
        requires within { number < length self.old.script.sessions }
        requires unended { has_ended self.old number ≡ false }
        requires free { waits_for self.old.world.waits number ≡ None }
        ensures ok { OnOk result (MovedBy number self.old self.new) }
        ensures err { OnErr result (self.new ≡ self.old) }
        ensures legal { IsLegal self.new.script self.new.journal }
        ensures reached { self.new.world ≡ world_after self.new.script self.new.journal }
    {
        self.journal.reserve(1)?;
        self.waited.reserve(1)?;
        let queues = self.queues.as_slice();
        let acted = step_session(self.alloc, self.script, queues, &mut self.server, number)?;
        if let Some(act) = acted {
            moved(&mut self.waited, number, &act);
            self.last = Some(number);
            self.journal.push_reserved(Entry {
                session: number,
                act,
            });
        }
        Ok(())
    }

    /// The session that moves next without another line taken.
    #[tactic(auto, using(crate::proofs::Tying::tied_ready))]
    fn ready(&self) -> Option<u32>
        ensures { result ≡ ready self.now.script self.now.world self.now.schedule }
    {
        ready_session(
            &self.server,
            self.queues.as_slice(),
            self.last,
            self.waited.as_slice(),
        )
    }

    /// Takes lines until a session is ready or no line is left, and answers the session that is
    /// then ready.
    #[tactic(auto, using(crate::proofs::Settling::settled_at_end, crate::proofs::Settling::settled_at_ready, crate::proofs::Settling::settled_on))]
    fn settle(&mut self) -> Option<u32>
        ensures schedule { self.new ≡ record self.old {
          schedule = settled_schedule self.old.script self.old.world self.old.schedule;
        } }
        ensures session { result ≡ ready self.new.script self.new.world self.new.schedule }
    {
        let mut ready = self.ready();
        while self.has_untaken() && ready.is_none() {
            self.take_line();
            ready = self.ready();
        }
        ready
    }

    /// Takes the next line of the script, which is then queued for its session.
    #[tactic(auto, using(crate::proofs::Taken::queues_next, crate::proofs::Taken::taken_bound))]
    fn take_line(&mut self)
        requires { self.old.schedule.taken < length self.old.script.lines }
        ensures { self.new ≡ record self.old { schedule = line_taken self.old.schedule } }
    {
        let number = session_at(self.script, self.taken);
        enqueue(&mut self.queues, number);
        self.taken += 1;
    }
}
