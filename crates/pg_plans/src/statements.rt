ghost use Rattle.std.specs.Prelude.{◌≡◌, ◌≢◌, ◌++◌, ◌∷◌, Err, IfOk, OnOk, map};
ghost use Rattle.pg_returning.specs.Outcomes.{outcome};
ghost use Rattle.pg_world.specs.Candidates.{candidates_over, table_of_source as table_in, tables_read as tables_of};

use crate::changes::change_candidates;
use crate::inserts::insert_candidates;
use crate::selects::select_candidates;
use pg_lists::Items;
use pg_model::{Change, Source, Statement};
use pg_returning::PlanFault;
use pg_world::{Candidate, SeenRow};
use std::alloc::{AllocError, Global};

/// What is seen of each table that a statement reads, in the order written.
pub type SeenRows = Items<Items<SeenRow>>;

/// The candidates of a statement over what it sees, or its first error.
#[tactic(auto, unfolding(pg_world::specs::Candidates::candidates_over))]
pub fn candidates(
    alloc: Global,
    statement: &Statement,
    seen: &SeenRows,
) -> Result<Items<Candidate>, PlanFault>
    ensures { result ≢ Err PlanFault.Memory →
        outcome result ≡ candidates_over statement.now seen.now }
{
    match statement {
        Statement::Select(select) => select_candidates(alloc, select, seen.as_slice()),
        Statement::Insert(insert) => insert_candidates(alloc, insert),
        Statement::Change(change) => change_candidates(alloc, change, seen.as_slice()),
        Statement::Begin | Statement::Commit | Statement::Rollback => Ok(Items::new(alloc)),
    }
}

/// The tables that a statement reads, in the order written.
pub fn tables_read(alloc: Global, statement: &Statement) -> Result<Items<u32>, AllocError>
    ensures { IfOk result (λ tables. tables ≡ tables_of statement.now) }
{
    match statement {
        Statement::Select(select) => tables_of_sources(alloc, select.sources.as_slice()),
        Statement::Change(change) => tables_of_change(alloc, change),
        Statement::Insert(_) | Statement::Begin | Statement::Commit | Statement::Rollback => Ok(
            Items::new(alloc),
        ),
    }
}

/// The tables that an UPDATE or DELETE reads: its target, and its sources, in order.
pub fn tables_of_change(alloc: Global, change: &Change) -> Result<Items<u32>, AllocError>
    ensures { IfOk result (λ tables. tables
        ≡ change.now.target.table ∷ map table_in change.now.sources) }
{
    let mut tables = Items::new(alloc);
    tables.push(change.target.table)?;
    push_tables(&mut tables, change.sources.as_slice())?;
    Ok(tables)
}

/// The tables of the sources, in order.
pub fn tables_of_sources(alloc: Global, sources: &[Source]) -> Result<Items<u32>, AllocError>
    ensures { IfOk result (λ tables. tables ≡ map table_in sources.now) }
{
    let mut tables = Items::new(alloc);
    push_tables(&mut tables, sources)?;
    Ok(tables)
}

/// Puts the tables of the sources, in order, behind those that are there.
fn push_tables(tables: &mut Items<u32>, sources: &[Source]) -> Result<(), AllocError>
    ensures { OnOk result (tables.new ≡ tables.old ++ map table_in sources.now) }
{
    for source in sources {
        tables.push(table_of_source(source))?;
    }
    Ok(())
}

/// The table that a source is.
fn table_of_source(source: &Source) -> u32
    ensures { result ≡ table_in source.now }
{
    match source {
        Source::Table(named) => named.table,
    }
}
