//! What is staged for a row, and when no draft of a row waits: each law is the contract of a function
//! that does nothing.

ghost use Rattle.std.specs.Prelude.{◌≡◌, ◌<◌, ◌≤◌, List, None, Some, if◌then◌else◌, nat_eq, ℕ};
ghost use Rattle.pg_rows.specs.Stores.{HasNoDraft};
ghost use Rattle.pg_table.specs.States.{IsTable, TableState, row_erased_in, row_inserted_in, row_placed_in, row_staged_in, row_written_in, staged_at, staged_by_others, state_ended, state_undone, table_shown};
ghost use Rattle.pg_values.specs.declared.value.Value.{Value};
ghost use Rattle.pg_world.specs.Tables.{placed_at};
ghost use Rattle.pg_xacts.specs.declared.me.Me.{Me};

/// Where nothing is placed under a row number and nothing is staged for the row, no draft of it
/// waits.
pub fn rows_without_drafts_are_free()
    ensures { (state : TableState) (row : ℕ) → IsTable state →
        placed_at (table_shown state).placed row ≡ None → staged_at state row ≡ None →
        HasNoDraft state.store.versions row }
{}

/// Of a row that was drawn the new values are staged, and of the others what was staged.
pub fn staging_stages_it()
    ensures { (state : TableState) (me : Me) (of : ℕ) (values : List Value) (row : ℕ) →
        IsTable state → (0 < of) × (of ≤ state.store.drawn) →
        staged_at (row_staged_in state me of values) row
        ≡ (if nat_eq row of then Some (record { row = of; me = me; values = values })
        else staged_at state row) }
{}

/// What is written is staged no more.
pub fn writing_ends_what_is_staged()
    ensures { (state : TableState) (written row : ℕ) → IsTable state →
        staged_at (row_written_in state written) row
        ≡ (if nat_eq row written then None else staged_at state row) }
{}

/// What is staged stays as rows are placed.
pub fn placing_keeps_what_is_staged()
    ensures { (state : TableState) (me : Me) (values : List Value) (row : ℕ) → IsTable state →
        staged_at (row_placed_in state me values) row ≡ staged_at state row }
{}

/// It stays as what was placed is stored.
pub fn settling_keeps_what_is_staged()
    ensures { (state : TableState) (settled row : ℕ) → IsTable state →
        staged_at (row_inserted_in state settled) row ≡ staged_at state row }
{}

/// It stays as rows are erased.
pub fn erasing_keeps_what_is_staged()
    ensures { (state : TableState) (me : Me) (erased row : ℕ) → IsTable state →
        staged_at (row_erased_in state me erased) row ≡ staged_at state row }
{}

/// A transaction that has committed has nothing staged.
pub fn commits_end_what_is_staged()
    ensures { (state : TableState) (xact row : ℕ) →
        staged_at (state_ended xact state) row ≡ staged_by_others (staged_at state row) xact }
{}

/// A transaction that is rolled back has nothing staged.
pub fn rollbacks_end_what_is_staged()
    ensures { (state : TableState) (xact row : ℕ) →
        staged_at (state_undone xact state) row ≡ staged_by_others (staged_at state row) xact }
{}
