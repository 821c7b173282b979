//! The numbers that a store answers stand for the versions that the definitions name, and what a
//! store does is what the definitions say of rows: each law is the contract of a function that does
//! nothing.

ghost use Rattle.std.specs.Prelude.{◌≡◌, ◌+◌, ◌++◌, ◌<◌, ◌≤◌, [], List, Option, Some, length, option_and_then, ℕ};
ghost use Rattle.pg_heap.specs.Current.{current_values, live_values, newest};
ghost use Rattle.pg_heap.specs.Pieces.{piece_from};
ghost use Rattle.pg_rows.specs.Scans.{number_behind, seen_below, seen_in_piece};
ghost use Rattle.pg_heap.specs.Rows.{row_drawn, row_stored, rows_without, values_of};
ghost use Rattle.pg_heap.specs.Seen.{seen_values};
ghost use Rattle.pg_rows.specs.Stores.{AreWithin, StandsLast, Stored, StoreView, current_number, live_number, newest_number, row_in, row_placed, rows_of, seen_number, store_ended, store_without, stored_of, version_drafted, version_of, with_version_state};
ghost use Rattle.pg_heap.specs.declared.slot.State.TheVariants.{Placed, Settled};
ghost use Rattle.pg_values.specs.declared.value.Value.{Value};
ghost use Rattle.pg_xacts.specs.Transactions.{Transactions};
ghost use Rattle.pg_xacts.specs.declared.me.Me.{Me};

/// The number of a row's newest version is that of the newest version.
pub fn newest_is_newest()
    ensures { (versions : List Stored) (row : ℕ) →
        option_and_then (version_of versions) (newest_number versions row)
        ≡ newest (row_in versions row) }
{}

/// The values of a row's current version are the current values.
pub fn current_is_current()
    ensures { (transactions : Transactions) (xact : ℕ) (versions : List Stored) (row : ℕ) →
        option_and_then (λ n. values_of (version_of versions n))
        (current_number transactions xact versions row)
        ≡ current_values transactions xact (row_in versions row) }
{}

/// The values of the version of a row that a statement sees are the values seen.
pub fn seen_is_seen()
    ensures { (transactions : Transactions) (commits : ℕ) (me : Me) (versions : List Stored)
        (row : ℕ) →
        option_and_then (λ n. values_of (version_of versions n))
        (seen_number transactions commits me versions row)
        ≡ seen_values transactions commits me (row_in versions row) }
{}

/// The values of the last version of a row whose writer has committed are the live values.
pub fn live_is_live()
    ensures { (transactions : Transactions) (versions : List Stored) (row : ℕ) →
        option_and_then (λ n. values_of (version_of versions n))
        (live_number transactions versions row)
        ≡ live_values transactions [] (row_in versions row) }
{}

/// Where a store draws a row, its rows have one more, without a version.
pub fn placed_row_is_drawn()
    ensures { (store : StoreView) (me : Me) (values : List Value) → AreWithin store →
        rows_of (row_placed store me values) ≡ row_drawn (rows_of store) }
{}

/// A draft changes no row.
pub fn draft_changes_no_row()
    ensures { (store : StoreView) (me : Me) (row : ℕ) (values : Option (List Value)) →
        rows_of (version_drafted store me row values) ≡ rows_of store }
{}

/// A draft that is attached behind all versions of its row is then the newest version of the row.
pub fn attached_draft_is_stored()
    ensures { (store : StoreView) (number : ℕ) (stored : Stored) → AreWithin store →
        stored_of store.versions number ≡ Some stored → stored.state ≡ Placed →
        StandsLast store.versions number stored.row →
        rows_of (with_version_state store number Settled)
        ≡ row_stored (rows_of store) stored.row stored.version }
{}

/// Where a transaction is rolled back, the rows of a store are without its versions.
pub fn undone_store_has_no_version_of_it()
    ensures { (store : StoreView) (xact : ℕ) →
        rows_of (store_without store xact) ≡ rows_without xact (rows_of store) }
{}

/// Where a transaction has committed, the rows of a store stay.
pub fn ended_store_keeps_its_rows()
    ensures { (store : StoreView) (xact : ℕ) → rows_of (store_ended store xact) ≡ rows_of store }
{}

/// Pieces follow one another: what a statement sees below a number, with what it sees in the piece
/// from there on, is what it sees below the number behind the piece.
pub fn pieces_follow()
    ensures { (transactions : Transactions) (commits : ℕ) (me : Me) (versions : List Stored)
        (from : ℕ) → 0 < from → from ≤ length versions + 1 →
        seen_below transactions commits me versions from
        ++ seen_in_piece transactions commits me versions from
        ≡ seen_below transactions commits me versions
        (number_behind versions (piece_from (length versions) from).next) }
{}
