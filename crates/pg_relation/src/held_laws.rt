//! Laws of the rows that sessions hold and have placed, over all journals: each is the contract of
//! a function that does nothing.

ghost use Rattle.std.specs.Prelude.{Contains, ◌≡◌, ◌≢◌, [], List, Some, ℕ};
ghost use Rattle.pg_model.specs.declared.journal.Entry.{Entry};
ghost use Rattle.pg_model.specs.declared.script.Script.{Script};
ghost use Rattle.pg_world.specs.Changes.{row_at, table_at};
ghost use Rattle.pg_world.specs.declared.placed.PlacedRow.{PlacedRow};
ghost use Rattle.pg_world.specs.declared.table.TableView.{TableView};
ghost use Rattle.pg_world.specs.Worlds.{table_of};
ghost use Rattle.pg_relation.specs.Effect.{effect};
ghost use Rattle.pg_relation.specs.Holds.{HoldsRow, PlacesRow};
ghost use Rattle.pg_relation.specs.Journals.{IsLegal, world_after};
ghost use Rattle.pg_relation.specs.Locking.{IsHolding};
ghost use Rattle.pg_relation.specs.Moves.{IsPermitted};

/// In the world of every legal journal no two sessions hold one row for an UPDATE or DELETE.
pub fn held_rows_differ()
    ensures { (script : Script) (journal : List Entry) (one other table row : ℕ) →
        IsLegal script journal → HoldsRow script (world_after script journal) one table row →
        HoldsRow script (world_after script journal) other table row → one ≡ other }
{}

/// A permitted entry of another session leaves a row that a session holds for an UPDATE or DELETE:
/// it has the versions that it had, it is held on, and its newest version, which is the current one
/// for the transaction that holds it, is still of the name that was kept.
pub fn held_rows_stay()
    ensures versions { (script : Script) (journal : List Entry) (entry : Entry)
        (number table row : ℕ) → IsLegal script journal →
        HoldsRow script (world_after script journal) number table row →
        IsPermitted script (world_after script journal) entry → entry.session ≢ number →
        row_at (table_at (effect script (world_after script journal) entry).tables table) row
        ≡ row_at (table_at (world_after script journal).tables table) row }
    ensures held { (script : Script) (journal : List Entry) (entry : Entry)
        (number table row : ℕ) → IsLegal script journal →
        HoldsRow script (world_after script journal) number table row →
        IsPermitted script (world_after script journal) entry → entry.session ≢ number →
        HoldsRow script (effect script (world_after script journal) entry) number table row }
    ensures named { (script : Script) (journal : List Entry) (entry : Entry)
        (number table row : ℕ) → IsLegal script journal →
        (held : HoldsRow script (world_after script journal) number table row) →
        IsPermitted script (world_after script journal) entry → entry.session ≢ number →
        IsHolding (effect script (world_after script journal) entry) held.change held.running
        held.name }
{}

/// In the world of every legal journal what is placed in a table is placed under the number of a
/// row that has no version, under which nothing else is placed, and which nobody holds for an
/// UPDATE or DELETE.
pub fn placed_rows_are_fresh()
    ensures fresh { (script : Script) (journal : List Entry) (number : ℕ) (table : TableView)
        (placed : PlacedRow) → IsLegal script journal →
        table_of (world_after script journal) number ≡ Some table →
        Contains table.placed placed → (row_at table placed.row).versions ≡ [] }
    ensures only { (script : Script) (journal : List Entry) (number : ℕ) (table : TableView)
        (one other : PlacedRow) → IsLegal script journal →
        table_of (world_after script journal) number ≡ Some table → Contains table.placed one →
        Contains table.placed other → one.row ≡ other.row → one ≡ other }
    ensures sessions { (script : Script) (journal : List Entry) (one other table row : ℕ) →
        IsLegal script journal → PlacesRow script (world_after script journal) one table row →
        PlacesRow script (world_after script journal) other table row → one ≡ other }
    ensures unheld { (script : Script) (journal : List Entry) (holder number row : ℕ)
        (table : TableView) (placed : PlacedRow) → IsLegal script journal →
        HoldsRow script (world_after script journal) holder number row →
        table_of (world_after script journal) number ≡ Some table →
        Contains table.placed placed → placed.row ≢ row }
{}
