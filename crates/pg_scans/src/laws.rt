//! What holds of a reading stays, whatever others do meanwhile; what all tables read show in the
//! end; and how many pieces that takes at most. Each law is the contract of a function that does
//! nothing.

ghost use Rattle.std.specs.Prelude.{◌≡◌, ◌≢◌, ◌+◌, ◌*◌, ◌≤◌, List, Some, length, map, true, ℕ};
ghost use Rattle.pg_lists.specs.Numbered.{item_at, with_changed_item};
ghost use Rattle.pg_multi.specs.declared.strength.Strength.{Strength};
ghost use Rattle.pg_scans.specs.Readings.{AreTables, IsReading, ReadingView, is_all_read, new_reading, pieces_left, seen_in};
ghost use Rattle.pg_table.specs.Scanned.{IsPlacedUnseen, IsStagedUnseen, IsUnseen};
ghost use Rattle.pg_table.specs.States.{TableState, row_erased_in, row_held_in, row_inserted_in, row_placed_in, row_staged_in, row_written_in, state_ended, state_undone};
ghost use Rattle.pg_values.specs.declared.value.Value.{Value};
ghost use Rattle.pg_xacts.specs.Snapshots.{SnapshotView, WasTakenOf};
ghost use Rattle.pg_xacts.specs.Transactions.{Transactions, is_running, transaction_begun, transaction_committed, transaction_rolled_back};
ghost use Rattle.pg_xacts.specs.declared.me.Me.{Me};

/// Nothing is collected before the first piece.
pub fn new_reading_has_collected_nothing()
    ensures { (tables : List TableState) (transactions : Transactions) (me : Me)
        (snapshot : SnapshotView) (numbers : List ℕ) → WasTakenOf transactions snapshot →
        IsReading tables transactions (new_reading me snapshot numbers) }
{}

/// Where all tables were gone through, what was seen is what the reader sees of each of them.
pub fn read_tables_are_seen()
    ensures { (tables : List TableState) (transactions : Transactions) (reading : ReadingView) →
        IsReading tables transactions reading → is_all_read reading ≡ true →
        reading.seen ≡ map (seen_in tables transactions reading) reading.tables }
{}

/// Where no table has more than so many versions, the pieces that are left are at most one for each
/// table and one for each of so many versions.
pub fn pieces_are_bounded()
    ensures { (most : ℕ) (reading : ReadingView) →
        pieces_left most reading ≤ length reading.tables * (1 + most) }
{}

/// What holds of a reading stays as rows are placed.
pub fn placing_keeps_readings()
    ensures { (tables : List TableState) (transactions : Transactions) (reading : ReadingView)
        (number : ℕ) (by : Me) (values : List Value) → AreTables tables →
        IsReading tables transactions reading →
        IsReading (with_changed_item (λ state. row_placed_in state by values) tables number)
        transactions reading }
{}

/// It stays as a transaction that the reader does not see stores what it placed.
pub fn settling_keeps_readings()
    ensures { (tables : List TableState) (transactions : Transactions) (reading : ReadingView)
        (number row : ℕ) → AreTables tables →
        ((state : TableState) → item_at tables number ≡ Some state →
        IsPlacedUnseen transactions reading.snapshot.commits reading.me state row) →
        IsReading tables transactions reading →
        IsReading (with_changed_item (λ state. row_inserted_in state row) tables number)
        transactions reading }
{}

/// It stays as a row is locked.
pub fn locking_keeps_readings()
    ensures { (tables : List TableState) (transactions : Transactions) (reading : ReadingView)
        (number xact row : ℕ) (strength : Strength) → IsReading tables transactions reading →
        IsReading
        (with_changed_item (λ state. row_held_in state xact row strength) tables number)
        transactions reading }
{}

/// It stays as new values of a row are staged.
pub fn staging_keeps_readings()
    ensures { (tables : List TableState) (transactions : Transactions) (reading : ReadingView)
        (number : ℕ) (by : Me) (row : ℕ) (values : List Value) →
        IsReading tables transactions reading →
        IsReading (with_changed_item (λ state. row_staged_in state by row values) tables number)
        transactions reading }
{}

/// It stays as a transaction that the reader does not see writes what it staged.
pub fn writing_keeps_readings()
    ensures { (tables : List TableState) (transactions : Transactions) (reading : ReadingView)
        (number row : ℕ) → AreTables tables →
        ((state : TableState) → item_at tables number ≡ Some state →
        IsStagedUnseen transactions reading.snapshot.commits reading.me state row) →
        IsReading tables transactions reading →
        IsReading (with_changed_item (λ state. row_written_in state row) tables number)
        transactions reading }
{}

/// It stays as a transaction that the reader does not see erases a row.
pub fn erasing_keeps_readings()
    ensures { (tables : List TableState) (transactions : Transactions) (reading : ReadingView)
        (number : ℕ) (by : Me) (row : ℕ) →
        IsUnseen transactions reading.snapshot.commits reading.me by.xact →
        IsReading tables transactions reading →
        IsReading (with_changed_item (λ state. row_erased_in state by row) tables number)
        transactions reading }
{}

/// It stays as another transaction is begun.
pub fn beginning_keeps_readings()
    ensures { (tables : List TableState) (transactions : Transactions) (reading : ReadingView)
        (session : ℕ) → IsReading tables transactions reading →
        IsReading tables (transaction_begun transactions session) reading }
{}

/// It stays as another transaction commits.
pub fn commits_keep_readings()
    ensures { (tables : List TableState) (transactions : Transactions) (reading : ReadingView)
        (xact : ℕ) → is_running transactions xact ≡ true →
        IsReading tables transactions reading →
        IsReading (map (state_ended xact) tables) (transaction_committed transactions xact)
        reading }
{}

/// It stays as another transaction is rolled back.
pub fn rollbacks_keep_readings()
    ensures { (tables : List TableState) (transactions : Transactions) (reading : ReadingView)
        (xact : ℕ) → is_running transactions xact ≡ true → xact ≢ reading.me.xact →
        IsReading tables transactions reading →
        IsReading (map (state_undone xact) tables) (transaction_rolled_back transactions xact)
        reading }
{}
