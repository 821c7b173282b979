//! What holds of an UPDATE or DELETE before its first step, and how many quiet steps it takes at most
//! before its next entry: each law is the contract of a function that does nothing.

ghost use Rattle.std.specs.Prelude.{◌+◌, ◌*◌, ◌≤◌, List, length, ℕ};
ghost use Rattle.pg_model.specs.declared.statement.Change.{Change as Statement};
ghost use Rattle.pg_table.specs.States.{TableState};
ghost use Rattle.pg_update.specs.Steps.{ChangeView, IsChanging, new_change, quiet_left};
ghost use Rattle.pg_xacts.specs.Snapshots.{SnapshotView, WasTakenOf};
ghost use Rattle.pg_xacts.specs.Transactions.{Transactions};
ghost use Rattle.pg_xacts.specs.declared.me.Me.{Me};

/// An UPDATE or DELETE with a snapshot of these transactions has collected nothing.
pub fn new_change_is_changing()
    ensures { (change : Statement) (tables : List TableState) (transactions : Transactions)
        (me : Me) (snapshot : SnapshotView) → WasTakenOf transactions snapshot →
        IsChanging change tables transactions (new_change change me snapshot) }
{}

/// Where no table has more than so many versions, the quiet steps that are left before the next entry
/// are at most two, and for each table that the statement reads one and one for each of so many
/// versions.
pub fn quiet_steps_are_bounded()
    ensures { (most : ℕ) (change : Statement) (tables : List TableState)
        (transactions : Transactions) (machine : ChangeView) →
        IsChanging change tables transactions machine →
        quiet_left most machine ≤ 2 + (1 + length change.sources) * (1 + most) }
{}
