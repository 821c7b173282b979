//! What holds of a SELECT before its first step, and how many quiet steps it takes at most: each
//! law is the contract of a function that does nothing.

ghost use Rattle.std.specs.Prelude.{◌+◌, ◌*◌, ◌≤◌, ℕ, List, length};
ghost use Rattle.pg_model.specs.declared.statement.Select.{Select};
ghost use Rattle.pg_select.specs.Steps.{IsSelecting, SelectView, new_select, quiet_left};
ghost use Rattle.pg_table.specs.States.{TableState};
ghost use Rattle.pg_xacts.specs.Snapshots.{SnapshotView, WasTakenOf};
ghost use Rattle.pg_xacts.specs.Transactions.{Transactions};
ghost use Rattle.pg_xacts.specs.declared.me.Me.{Me};

/// A SELECT with a snapshot of these transactions has collected nothing.
pub fn new_select_is_selecting()
    ensures { (select : Select) (tables : List TableState) (transactions : Transactions) (me : Me)
        (snapshot : SnapshotView) → WasTakenOf transactions snapshot →
        IsSelecting select tables transactions (new_select select me snapshot) }
{}

/// The quiet steps that are left are at most one, and for each source one and one for each version
/// that a table has at most.
pub fn quiet_steps_are_bounded()
    ensures { (most : ℕ) (select : Select) (tables : List TableState)
        (transactions : Transactions) (machine : SelectView) →
        IsSelecting select tables transactions machine →
        quiet_left most machine ≤ 1 + length select.sources * (1 + most) }
{}
