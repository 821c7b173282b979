//! Laws over the definitions alone: each is the contract of a function that does nothing.

ghost use Rattle.std.specs.Prelude.{Ok, ◌≡◌, ◌<◌, ◌∷◌, ◌++◌, ◌↔◌, [], Bool, List, None, Some, length, true, ℕ};
ghost use Rattle.pg_ending.specs.Weight.{IsLess};
ghost use Rattle.pg_waits.specs.Chains.{Leads};
ghost use Rattle.pg_waits.specs.Cycles.{HasNoCycle};
ghost use Rattle.pg_waits.specs.Slots.{wait_of};
ghost use Rattle.pg_xacts.specs.declared.on.On.{On};
ghost use Rattle.pg_xacts.specs.declared.on.Until.TheVariants.{Transaction};
ghost use Rattle.pg_model.specs.declared.journal.Entry.{Entry};
ghost use Rattle.pg_model.specs.declared.journal.EntryAct.{EntryAct};
ghost use Rattle.pg_model.specs.declared.journal.EntryAct.TheVariants as act;
ghost use Rattle.pg_model.specs.declared.error.SqlError.TheVariants.{Deadlock};
ghost use Rattle.pg_model.specs.declared.script.Script.{Script};
ghost use Rattle.pg_model.specs.declared.statement.Insert.{Insert};
ghost use Rattle.pg_model.specs.declared.statement.Statement.{Statement};
ghost use Rattle.pg_model.specs.declared.statement.Statement.TheVariants as statement;
ghost use Rattle.pg_world.specs.declared.session.Running.{Running};
ghost use Rattle.pg_world.specs.declared.session.SessionView.{SessionView};
ghost use Rattle.pg_world.specs.declared.session.Progress.TheVariants.{Closed as closed, Inside as inside};
ghost use Rattle.pg_world.specs.declared.session.Stage.TheVariants.{Placed as placed};
ghost use Rattle.pg_world.specs.Replies.{proposed_values};
ghost use Rattle.pg_world.specs.declared.table.TableView.{TableView};
ghost use Rattle.pg_world.specs.Worlds.{World, session_of, table_of};
ghost use Rattle.pg_relation.specs.Effect.{effect};
ghost use Rattle.pg_relation.specs.Journals.{IsLegal, replies_of, world_after};
ghost use Rattle.pg_relation.specs.Laws.{AreClosed, HaveAllEnded, IsCompleteStepped, IsCycleNamed, IsKept, candidates_now, seen_now};
ghost use Rattle.pg_relation.specs.Lines.{statement_at, statements_of};
ghost use Rattle.pg_relation.specs.Moves.{IsPermitted, moves_of};
ghost use Rattle.pg_relation.specs.Needs.{Needs};
ghost use Rattle.pg_relation.specs.Schedules.{Schedule, next_session, settled_schedule};
ghost use Rattle.pg_relation.specs.Stepped.{IsStepped, chosen, first_of_list};
ghost use Rattle.pg_relation.specs.Sound.{HasOpen, IsAtFound, IsBounded, IsSound, IsWaiting};
ghost use Rattle.pg_relation.specs.Weight.{weight};
ghost use Rattle.pg_relation.specs.Worked.{IsLeft, IsWorked, failing_block, failing_block_journal, failing_block_lines, failing_block_tables, failing_block_transactions, listed_columns, listed_columns_journal, listed_columns_lines, own_block, own_block_journal, own_block_lines, uncommitted_row, uncommitted_row_journal, uncommitted_row_lines, undone_blocks, undone_blocks_journal, undone_blocks_lines, undone_blocks_tables, undone_blocks_transactions};
ghost use Rattle.pg_relation.specs.WorkedChanges.{both_raise, both_raise_journal, both_raise_lines, crossed_updates, crossed_updates_journal, crossed_updates_lines, raised_away, raised_away_journal, raised_away_lines, two_wait, two_wait_journal, two_wait_lines, undone_raise, undone_raise_journal, undone_raise_lines};

/// A legal journal stays legal by an entry that is permitted in the world that it leaves.
pub fn legal_by_permitted_entries()
    ensures { (script : Script) (journal : List Entry) (entry : Entry) → IsLegal script journal →
        IsPermitted script (world_after script journal) entry →
        IsLegal script (journal ++ entry ∷ []) }
{}

/// What holds of the world after setup and is kept by each permitted entry holds of the world of
/// every legal journal.
pub fn kept_by_permitted_entries()
    ensures { (script : Script) (test : World → Bool) → IsKept script test →
        (journal : List Entry) → IsLegal script journal → test (world_after script journal) ≡ true }
{}

/// In the world of every legal journal the sessions stand where they can, and there are no more
/// transactions and commits than their statements account for.
pub fn legal_worlds_are_sound()
    ensures { (script : Script) (journal : List Entry) → IsLegal script journal →
        IsSound script (world_after script journal) }
{}

/// In the world of every legal journal the numbers of transactions and commits are of 32 bits.
pub fn legal_worlds_are_bounded()
    ensures { (script : Script) (journal : List Entry) → IsLegal script journal →
        IsBounded (world_after script journal) }
{}

/// Each permitted entry is of a session that stands where its kind needs it, in a world that has
/// what its kind needs.
pub fn permitted_entries_have_their_needs()
    ensures { (script : Script) (world : World) (entry : Entry) → IsPermitted script world entry →
        (session : SessionView) × (session_of world entry.session ≡ Some session)
        × Needs script world entry.session (statement_at script entry.session session) session
        entry.act }
{}

/// Each permitted entry makes the weight of the world less, so that every run ends.
pub fn weight_falls()
    ensures { (script : Script) (world : World) (entry : Entry) → IsPermitted script world entry →
        IsLess (weight script (effect script world entry)) (weight script world) }
{}

/// In the world of every legal journal each session that has not ended, and whose wait does not
/// stand, has a move.
pub fn live_session_moves()
    ensures { (script : Script) (journal : List Entry) (number : ℕ) (session : SessionView) →
        IsLegal script journal → session_of (world_after script journal) number ≡ Some session →
        (session.progress ≡ closed → ⊥) → wait_of (world_after script journal).waits number ≡ None →
        (act : EntryAct)
        × (first_of_list (moves_of script (world_after script journal) number) ≡ Some act) }
{}

/// The session that moves next has a move, in the world of every legal journal.
pub fn next_session_moves()
    ensures { (script : Script) (journal : List Entry) (schedule : Schedule) (number : ℕ) →
        IsLegal script journal →
        next_session script (world_after script journal) schedule ≡ Some number →
        (act : EntryAct) × (chosen script (world_after script journal) schedule number ≡ Some act) }
{}

/// In the world of every legal journal no session moves next exactly where all have ended.
pub fn next_session_ends()
    ensures { (script : Script) (journal : List Entry) (schedule : Schedule) →
        IsLegal script journal →
        (next_session script (world_after script journal) schedule ≡ None)
        ↔ AreClosed (world_after script journal) }
{}

/// In the world of every legal journal some session has a move while one has not ended.
pub fn some_session_moves()
    ensures { (script : Script) (journal : List Entry) (number : ℕ) (session : SessionView) →
        IsLegal script journal → session_of (world_after script journal) number ≡ Some session →
        (session.progress ≡ closed → ⊥) →
        (other : ℕ) × (act : EntryAct)
        × (first_of_list (moves_of script (world_after script journal) other) ≡ Some act) }
{}

/// In the world of every legal journal the waits form no cycle.
pub fn waits_form_no_cycle()
    ensures { (script : Script) (journal : List Entry) → IsLegal script journal →
        HasNoCycle (world_after script journal).waits }
{}

/// In the world of every legal journal a session that waits is inside a statement that has found
/// its candidate, and has not locked the row of it.
pub fn who_waits_has_found()
    ensures { (script : Script) (journal : List Entry) (number : ℕ) (on : On) →
        IsLegal script journal → wait_of (world_after script journal).waits number ≡ Some on →
        IsAtFound (world_after script journal) number }
{}

/// In the world of every legal journal a session that is waited for has a transaction open, and has
/// not ended; the wait is for the end of that transaction.
pub fn who_is_waited_for_is_open()
    ensures opened { (script : Script) (journal : List Entry) (number : ℕ) (on : On) →
        IsLegal script journal → wait_of (world_after script journal).waits number ≡ Some on →
        HasOpen (world_after script journal) on.session }
    ensures until { (script : Script) (journal : List Entry) (number : ℕ) (on : On) →
        IsLegal script journal → wait_of (world_after script journal).waits number ≡ Some on →
        on.until ≡ Transaction }
{}

/// A statement that fails with a deadlock names the cycle that its session's wait would close: the
/// session itself first, then the one that it would wait for, and on by the waits that stand, of
/// which the last is for the session. A wait that begins closes no cycle.
pub fn deadlocks_have_their_cycle()
    ensures cycle { (script : Script) (journal : List Entry) (entry : Entry)
        (session : SessionView) (running : Running) (names : List (List ℕ)) →
        IsLegal script journal →
        session_of (world_after script journal) entry.session ≡ Some session →
        session.progress ≡ inside running →
        IsPermitted script (world_after script journal) entry →
        entry.act ≡ act.Failed (Deadlock names) →
        IsCycleNamed script (world_after script journal).waits entry.session names }
    ensures none { (script : Script) (world : World) (entry : Entry) (other : ℕ) →
        IsPermitted script world entry → entry.act ≡ act.Waits other →
        Leads world.waits other entry.session → ⊥ }
{}

/// Settling a schedule twice is settling it once, and leaves the session that moves next.
pub fn schedule_settles_once()
    ensures once { (script : Script) (world : World) (schedule : Schedule) →
        settled_schedule script world (settled_schedule script world schedule)
        ≡ settled_schedule script world schedule }
    ensures next { (script : Script) (world : World) (schedule : Schedule) →
        next_session script world (settled_schedule script world schedule)
        ≡ next_session script world schedule }
{}

/// A stepped journal is legal.
pub fn stepped_journal_is_legal()
    ensures { (script : Script) (journal : List Entry) → IsStepped script journal →
        IsLegal script journal }
{}

/// A stepped script has one complete stepped journal: there is one, and any two are the same.
pub fn one_stepped_journal()
    ensures one { (script : Script) → (journal : List Entry) × IsCompleteStepped script journal }
    ensures only { (script : Script) (journal other : List Entry) →
        IsCompleteStepped script journal → IsCompleteStepped script other → journal ≡ other }
{}

/// A legal journal in which every session has ended has exactly one reply for each statement.
pub fn one_reply_for_each_statement()
    ensures { (script : Script) (journal : List Entry) → IsLegal script journal →
        HaveAllEnded script journal → (number : ℕ) → number < length script.sessions →
        length (replies_of number journal) ≡ length (statements_of script number) }
{}

/// In the world of every legal journal an open statement has the candidates, or their first error,
/// that reading its tables again would give it.
pub fn candidates_are_stable()
    ensures { (script : Script) (journal : List Entry) (number : ℕ) (session : SessionView)
        (running : Running) (statement : Statement) → IsLegal script journal →
        session_of (world_after script journal) number ≡ Some session →
        session.progress ≡ inside running →
        statement_at script number session ≡ Some (Ok statement) →
        candidates_now statement (world_after script journal) running ≡ running.candidates }
{}

/// What an open statement sees of a table does not change by an entry of another session.
pub fn seen_rows_are_stable()
    ensures { (script : Script) (journal : List Entry) (entry : Entry) (number : ℕ)
        (session : SessionView) (running : Running) (table : ℕ) → IsLegal script journal →
        session_of (world_after script journal) number ≡ Some session →
        session.progress ≡ inside running →
        IsPermitted script (world_after script journal) entry → (number ≡ entry.session → ⊥) →
        seen_now (effect script (world_after script journal) entry) running table
        ≡ seen_now (world_after script journal) running table }
{}

/// In the world of every legal journal the row that an INSERT has placed waits in its table, under
/// the number that it drew, with the values that the statement proposes, and has no version yet.
pub fn placed_rows_wait()
    ensures { (script : Script) (journal : List Entry) (number : ℕ) (session : SessionView)
        (running : Running) (insert : Insert) (row : ℕ) → IsLegal script journal →
        session_of (world_after script journal) number ≡ Some session →
        session.progress ≡ inside running →
        statement_at script number session ≡ Some (Ok (statement.Insert insert)) →
        running.stage ≡ placed row →
        (table : TableView)
        × (table_of (world_after script journal) insert.target.table ≡ Some table)
        × IsWaiting table row running.me (proposed_values running) }
{}

/// What five small scripts do: a block with a COMMIT, a block that fails, a SELECT that does not
/// see a row before its transaction commits, an INSERT that leaves out a column, and two blocks
/// that are undone, one by ROLLBACK and one by the end of its session; and what failure and these
/// leave.
pub fn worked_examples()
    ensures block { IsWorked own_block own_block_journal own_block_lines }
    ensures failure { IsWorked failing_block failing_block_journal failing_block_lines }
    ensures failed { IsLeft failing_block failing_block_journal failing_block_tables
        failing_block_transactions }
    ensures snapshot { IsWorked uncommitted_row uncommitted_row_journal uncommitted_row_lines }
    ensures defaults { IsWorked listed_columns listed_columns_journal listed_columns_lines }
    ensures undone { IsWorked undone_blocks undone_blocks_journal undone_blocks_lines }
    ensures left { IsLeft undone_blocks undone_blocks_journal undone_blocks_tables
        undone_blocks_transactions }
{}

/// What five small scripts do in which sessions change one row or two: no update is lost, since the
/// second waits and works on what the first has written; a DELETE passes a row of which its
/// condition is no longer true; a rollback leaves the row as it was; of two that wait for one the
/// first to wait goes on first; and of two that wait for each other the second fails with the
/// cycle.
pub fn worked_changes()
    ensures raised { IsWorked both_raise both_raise_journal both_raise_lines }
    ensures passed { IsWorked raised_away raised_away_journal raised_away_lines }
    ensures undone { IsWorked undone_raise undone_raise_journal undone_raise_lines }
    ensures order { IsWorked two_wait two_wait_journal two_wait_lines }
    ensures deadlock { IsWorked crossed_updates crossed_updates_journal crossed_updates_lines }
{}
