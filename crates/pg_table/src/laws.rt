//! What a table does is what the definitions say of its part of the world: each law is the contract
//! of a function that does nothing.

ghost use Rattle.std.specs.Prelude.{◌≡◌, ◌+◌, ◌<◌, ◌≤◌, List, None, Some, length, map, ℕ};
ghost use Rattle.pg_multi.specs.declared.strength.Strength.{Strength};
ghost use Rattle.pg_rows.specs.Scans.{seen_below};
ghost use Rattle.pg_rows.specs.Stores.{HasNoDraft};
ghost use Rattle.pg_table.specs.Scanned.{IsPlacedUnseen, IsStagedUnseen, IsUnseen, KeepCommits, in_row_order, seen_row_of};
ghost use Rattle.pg_table.specs.States.{IsPlacedBy, IsTable, TableState, row_added_in, row_erased_in, row_held_in, row_inserted_in, row_placed_in, row_staged_in, row_written_in, staged_at, state_ended, state_undone, table_shown};
ghost use Rattle.pg_values.specs.declared.value.Value.{Value};
ghost use Rattle.pg_world.specs.Candidates.{seen_rows};
ghost use Rattle.pg_world.specs.Tables.{commit, rollback, row_added, row_changed, row_inserted, row_locked, row_placed, table_after_end};
ghost use Rattle.pg_world.specs.declared.placed.PlacedRow.{PlacedRow};
ghost use Rattle.pg_xacts.specs.Transactions.{Transactions};
ghost use Rattle.pg_xacts.specs.declared.me.Me.{Me};

/// A row that is placed waits under the number that the table draws next.
pub fn placed_row_is_placed()
    ensures { (state : TableState) (me : Me) (values : List Value) → IsTable state →
        table_shown (row_placed_in state me values) ≡ row_placed (table_shown state) me values }
{}

/// What its own command settles is inserted.
pub fn settled_row_is_inserted()
    ensures { (state : TableState) (me : Me) (row : ℕ) → IsTable state → IsPlacedBy state me row →
        table_shown (row_inserted_in state row) ≡ row_inserted (table_shown state) me row }
{}

/// A row that is added is drawn and stored at once.
pub fn added_row_is_added()
    ensures { (state : TableState) (me : Me) (values : List Value) → IsTable state →
        table_shown (row_added_in state me values) ≡ row_added (table_shown state) me values }
{}

/// A row that is held is locked.
pub fn held_row_is_locked()
    ensures { (state : TableState) (xact row : ℕ) (strength : Strength) →
        table_shown (row_held_in state xact row strength)
        ≡ row_locked (table_shown state) xact row strength }
{}

/// Nothing is seen of what is staged for a row of which no draft waits.
pub fn staging_shows_nothing()
    ensures { (state : TableState) (me : Me) (row : ℕ) (values : List Value) → IsTable state →
        HasNoDraft state.store.versions row →
        table_shown (row_staged_in state me row values) ≡ table_shown state }
{}

/// Where what is staged for a row is written, the row is changed by who staged it.
pub fn written_row_is_changed()
    ensures { (state : TableState) (row : ℕ) (staged : PlacedRow) → IsTable state →
        staged_at state row ≡ Some staged →
        table_shown (row_written_in state row)
        ≡ row_changed (table_shown state) staged.me row (Some staged.values) }
{}

/// A row that is erased is changed: its newest version says that it is gone.
pub fn erased_row_is_changed()
    ensures { (state : TableState) (me : Me) (row : ℕ) → IsTable state →
        (0 < row) × (row ≤ state.store.drawn) →
        table_shown (row_erased_in state me row) ≡ row_changed (table_shown state) me row None }
{}

/// A transaction that is rolled back has ended in the table.
pub fn rolled_back_transaction_has_ended()
    ensures { (state : TableState) (xact : ℕ) →
        table_shown (state_undone xact state)
        ≡ table_after_end xact rollback (table_shown state) }
{}

/// A transaction that has committed has ended in the table.
pub fn committed_transaction_has_ended()
    ensures { (state : TableState) (xact : ℕ) →
        table_shown (state_ended xact state) ≡ table_after_end xact commit (table_shown state) }
{}

/// What a statement sees below the number behind all versions, in order of row number, is what it
/// sees of the table: each row once.
pub fn scanned_rows_are_seen_rows()
    ensures { (transactions : Transactions) (commits : ℕ) (me : Me) (state : TableState) →
        in_row_order state.store.drawn (map seen_row_of
        (seen_below transactions commits me state.store.versions
        (length state.store.versions + 1)))
        ≡ seen_rows transactions commits me (table_shown state) }
{}

/// What a statement saw below a version number stays as rows are placed.
pub fn placing_keeps_what_was_seen()
    ensures { (transactions : Transactions) (commits : ℕ) (me : Me) (state : TableState) (by : Me)
        (values : List Value) (from : ℕ) → from ≤ length state.store.versions + 1 →
        seen_below transactions commits me (row_placed_in state by values).store.versions from
        ≡ seen_below transactions commits me state.store.versions from }
{}

/// It stays as others settle what they placed.
pub fn settling_keeps_what_was_seen()
    ensures { (transactions : Transactions) (commits : ℕ) (me : Me) (state : TableState)
        (row from : ℕ) → IsTable state → IsPlacedUnseen transactions commits me state row →
        from ≤ length state.store.versions + 1 →
        seen_below transactions commits me (row_inserted_in state row).store.versions from
        ≡ seen_below transactions commits me state.store.versions from }
{}

/// It stays as a row is locked.
pub fn locking_keeps_what_was_seen()
    ensures { (transactions : Transactions) (commits : ℕ) (me : Me) (state : TableState)
        (xact row : ℕ) (strength : Strength) (from : ℕ) →
        seen_below transactions commits me (row_held_in state xact row strength).store.versions from
        ≡ seen_below transactions commits me state.store.versions from }
{}

/// It stays as new values of a row are staged.
pub fn staging_keeps_what_was_seen()
    ensures { (transactions : Transactions) (commits : ℕ) (me : Me) (state : TableState) (by : Me)
        (row : ℕ) (values : List Value) (from : ℕ) → from ≤ length state.store.versions + 1 →
        seen_below transactions commits me (row_staged_in state by row values).store.versions from
        ≡ seen_below transactions commits me state.store.versions from }
{}

/// It stays as others write what they staged.
pub fn writing_keeps_what_was_seen()
    ensures { (transactions : Transactions) (commits : ℕ) (me : Me) (state : TableState)
        (row from : ℕ) → IsTable state → IsStagedUnseen transactions commits me state row →
        from ≤ length state.store.versions + 1 →
        seen_below transactions commits me (row_written_in state row).store.versions from
        ≡ seen_below transactions commits me state.store.versions from }
{}

/// It stays as others erase a row.
pub fn erasing_keeps_what_was_seen()
    ensures { (transactions : Transactions) (commits : ℕ) (me : Me) (state : TableState) (by : Me)
        (row from : ℕ) → IsUnseen transactions commits me by.xact →
        from ≤ length state.store.versions + 1 →
        seen_below transactions commits me (row_erased_in state by row).store.versions from
        ≡ seen_below transactions commits me state.store.versions from }
{}

/// It stays as others commit.
pub fn commits_keep_what_was_seen()
    ensures { (before after : Transactions) (commits : ℕ) (me : Me) (state : TableState)
        (xact from : ℕ) → KeepCommits commits before after →
        from ≤ length state.store.versions + 1 →
        seen_below after commits me (state_ended xact state).store.versions from
        ≡ seen_below before commits me state.store.versions from }
{}

/// It stays as others are rolled back.
pub fn rollbacks_keep_what_was_seen()
    ensures { (before after : Transactions) (commits : ℕ) (me : Me) (state : TableState)
        (xact from : ℕ) → KeepCommits commits before after → IsUnseen before commits me xact →
        from ≤ length state.store.versions + 1 →
        seen_below after commits me (state_undone xact state).store.versions from
        ≡ seen_below before commits me state.store.versions from }
{}
