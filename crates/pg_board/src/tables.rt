//! The tables of a server before its first step, as the world sees them.

ghost use Rattle.std.specs.Prelude.{◌≡◌, IfOk, OnOk, map};
ghost use Rattle.pg_lists.specs.Numbered.{with_changed_item};
ghost use Rattle.pg_table.specs.States.{table_shown};
ghost use Rattle.pg_world.specs.Tables.{empty_table, row_added};
ghost use Rattle.pg_relation.specs.Setup.{rows_added, setup_me};
ghost use Rattle.pg_board.specs.Loaded.{AreLoaded, IsLoaded};
ghost use Rattle.pg_board.specs.Shown.{tables_shown};

use pg_lists::{Items, TryCopy};
use pg_model::Catalogue;
use pg_table::{Table, TableSet};
use pg_values::Values;
use pg_world::Candidate;
use pg_xacts::Me;
use std::alloc::{AllocError, Global};

/// The empty tables of a catalogue.
#[tactic(auto, using(crate::proofs::Shown::shown_empty, crate::proofs::Loading::empty_loaded))]
pub fn empty_tables(alloc: Global, catalogue: &Catalogue) -> Result<TableSet, AllocError>
    ensures shown { IfOk result (λ tables. tables_shown tables
        ≡ map (λ shape. empty_table) catalogue.now) }
    ensures loaded { IfOk result AreLoaded }
{
    TableSet::new(alloc, catalogue)
}

/// Adds proposed rows of a setup INSERT to the table of that number.
pub fn add_rows_in(
    alloc: Global,
    tables: &mut TableSet,
    table: u32,
    candidates: &[Candidate],
) -> Result<(), AllocError>
    requires { AreLoaded tables.old }
    ensures shown { OnOk result (tables_shown tables.new
        ≡ with_changed_item (rows_added candidates.now) (tables_shown tables.old) table) }
    ensures loaded { OnOk result (AreLoaded tables.new) }
{
    if let Some(table) = tables.get_mut(table as usize) {
        add_rows(alloc, table, candidates)?;
    }
    Ok(())
}

/// Adds proposed rows of a setup INSERT to a table.
fn add_rows(alloc: Global, table: &mut Table, candidates: &[Candidate]) -> Result<(), AllocError>
    ensures shown { OnOk result (table_shown table.new
        ≡ rows_added candidates.now (table_shown table.old)) }
    ensures loaded { OnOk result (IsLoaded table.old → IsLoaded table.new) }
{
    for candidate in candidates {
        add_row(table, candidate.made.try_copy(alloc)?)?;
    }
    Ok(())
}

/// Draws a row number in a table and stores the values of a setup INSERT there.
fn add_row(table: &mut Table, values: Values) -> Result<(), AllocError>
    ensures shown { OnOk result (table_shown table.new
        ≡ row_added (table_shown table.old) setup_me values) }
    ensures loaded { OnOk result (IsLoaded table.old → IsLoaded table.new) }
{
    table.add(setup_writer(), values)?;
    Ok(())
}

/// Setup is transaction 0, which has committed before all others, and of no session.
fn setup_writer() -> Me
    ensures { result ≡ setup_me }
{
    Me {
        session: 0,
        xact: 0,
        command: 0,
    }
}
