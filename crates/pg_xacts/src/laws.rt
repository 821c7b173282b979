//! A snapshot stays one of the transactions, whatever they do: each law is the contract of a
//! function that does nothing.

ghost use Rattle.std.specs.Prelude.{◌≡◌, true, ℕ};
ghost use Rattle.pg_xacts.specs.Snapshots.{SnapshotView, WasTakenOf};
ghost use Rattle.pg_xacts.specs.Transactions.{Transactions, is_running, transaction_begun, transaction_committed, transaction_rolled_back};

/// A transaction that is begun later changes nothing of what a snapshot sees.
pub fn begun_transaction_keeps_snapshots()
    ensures { (transactions : Transactions) (snapshot : SnapshotView) (session : ℕ) →
        WasTakenOf transactions snapshot →
        WasTakenOf (transaction_begun transactions session) snapshot }
{}

/// A transaction that commits later changes nothing of what a snapshot sees.
pub fn committed_transaction_keeps_snapshots()
    ensures { (transactions : Transactions) (snapshot : SnapshotView) (number : ℕ) →
        is_running transactions number ≡ true →
        WasTakenOf transactions snapshot →
        WasTakenOf (transaction_committed transactions number) snapshot }
{}

/// A transaction that is rolled back later changes nothing of what a snapshot sees.
pub fn rolled_back_transaction_keeps_snapshots()
    ensures { (transactions : Transactions) (snapshot : SnapshotView) (number : ℕ) →
        is_running transactions number ≡ true →
        WasTakenOf transactions snapshot →
        WasTakenOf (transaction_rolled_back transactions number) snapshot }
{}
