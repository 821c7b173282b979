ghost use Rattle.std.specs.Prelude.{◌≡◌, ◌≢◌, ◌+◌, ◌≤◌, ◌++◌, ◌∷◌, [], false, Err, IfErr, IfOk, OnErr, OnOk, length};
ghost use Rattle.pg_names.specs.Names.{is_among};
ghost use Rattle.pg_resolve.specs.declared.fault.AnalyseFault.TheVariants.{Memory};
ghost use Rattle.pg_analyse.specs.Analysis.{Declares, declaration};
ghost use Rattle.pg_resolve.specs.Causes.{Stops, in_order};
ghost use Rattle.pg_analyse.specs.Queries.{table_names};
ghost use Rattle.pg_resolve.specs.Scope.{column_names};
ghost use Rattle.pg_analyse.specs.Tables.{again_errors, declared_column, declared_columns, declared_table, limit_errors, table_phases, twice_errors};

use crate::built::is_built_declaration;
use pg_lists::Items;
use pg_model::{Catalogue, Column, Columns, Counted, SqlError, TableShape};
use pg_names::NamedItems;
use pg_parse_stmt::{ColumnPart, CreateTable, StmtTree, TablePart};
use pg_resolve::{AnalyseFault, name_of};
use pg_shared::Shared;
use pg_values::Value;
use std::alloc::Global;

/// The most tables of a script.
const MAX_TABLES: usize = 64;

/// The most columns of a table.
const MAX_COLUMNS: usize = 64;

/// Puts the table that a CREATE TABLE declares behind those of the catalogue, or answers its first
/// error and leaves the catalogue as it was.
#[tactic(auto, using(crate::proofs::Phases::no_errors, crate::proofs::Phases::an_error))]
pub fn declare(
    alloc: Global,
    catalogue: &mut Catalogue,
    tree: &StmtTree,
) -> Result<(), AnalyseFault>
    ensures ok { OnOk result
        (Declares catalogue.old (declaration catalogue.old tree.now) catalogue.new) }
    ensures err { OnErr result (catalogue.new ≡ catalogue.old) }
    ensures fault { IfErr result (λ fault.
        fault ≢ Memory → declaration catalogue.old tree.now ≡ Err fault) }
{
    if !is_built_declaration(tree) {
        return Err(AnalyseFault::Later);
    }
    match tree {
        StmtTree::CreateTable(table) => {
            let shape = new_table(alloc, catalogue, table)?;
            catalogue.push(shape)?;
            Ok(())
        }
        _ => Err(AnalyseFault::Later),
    }
}

/// The table that a CREATE TABLE declares, or its first error.
#[tactic(auto, using(pg_resolve::proofs::Stopping::stops_before, pg_resolve::proofs::Stopping::stops_behind))]
fn new_table(
    alloc: Global,
    catalogue: &Catalogue,
    table: &CreateTable,
) -> Result<TableShape, AnalyseFault>
    ensures shape { IfOk result (λ shape. shape ≡ declared_table table.now) }
    ensures absent { OnOk result (is_among (table_names catalogue.now) table.now.name ≡ false) }
    ensures ok { OnOk result (in_order (table_phases catalogue.now table.now) ≡ []) }
    ensures err { IfErr result (λ fault.
        Stops (in_order (table_phases catalogue.now table.now)) fault) }
{
    let name = name_of(alloc, &table.name)?;
    if catalogue.find(name.as_slice()).is_some() {
        return Err(AnalyseFault::Error(SqlError::RelationExists(name)));
    }
    check_limits(catalogue, table.parts.as_slice())?;
    let columns = new_columns(alloc, table.parts.as_slice())?;
    let columns = Shared::new(alloc, columns)?;
    let checks = Shared::new(alloc, Items::new(alloc))?;
    Ok(TableShape {
        name,
        columns,
        checks,
    })
}

/// Finds whether there is room for one table more, and for its columns.
fn check_limits(catalogue: &Catalogue, parts: &[TablePart]) -> Result<(), AnalyseFault>
    ensures ok { OnOk result
        (limit_errors catalogue.now (declared_columns parts.now) ≡ []) }
    ensures err { IfErr result (λ fault.
        Stops (limit_errors catalogue.now (declared_columns parts.now)) fault) }
{
    if catalogue.len() >= MAX_TABLES {
        return Err(AnalyseFault::Error(SqlError::TooMany(Counted::Tables)));
    }
    if count_columns(parts) > MAX_COLUMNS {
        return Err(AnalyseFault::Error(SqlError::TooMany(Counted::Columns)));
    }
    Ok(())
}

/// How many of the parts are columns.
fn count_columns(parts: &[TablePart]) -> usize
    ensures { result ≡ length (declared_columns parts.now) }
{
    let mut count = 0;
    for part in parts {
        if let TablePart::Column(_) = part {
            count += 1;
        }
    }
    count
}

/// The columns that the parts declare, or the first name that one before has.
#[tactic(auto, using(crate::proofs::Declaring::step_columns, crate::proofs::Declaring::step_errors, crate::proofs::Declaring::step_stops))]
fn new_columns(alloc: Global, parts: &[TablePart]) -> Result<Columns, AnalyseFault>
    ensures columns { IfOk result (λ columns. columns ≡ declared_columns parts.now) }
    ensures ok { OnOk result (twice_errors [] (column_names (declared_columns parts.now)) ≡ []) }
    ensures err { IfErr result (λ fault.
        Stops (twice_errors [] (column_names (declared_columns parts.now))) fault) }
{
    let mut columns = NamedItems::new(alloc);
    for part in parts {
        if let TablePart::Column(column) = part {
            push_column(alloc, &mut columns, column)?;
        }
    }
    Ok(columns)
}

/// Puts a column behind the others, unless one of them has its name.
fn push_column(
    alloc: Global,
    columns: &mut Columns,
    written: &ColumnPart,
) -> Result<(), AnalyseFault>
    ensures columns { OnOk result (columns.new ≡ columns.old ++ declared_column written.now ∷ []) }
    ensures ok { OnOk result (again_errors (column_names columns.old) written.now.name ≡ []) }
    ensures err { IfErr result (λ fault.
        Stops (again_errors (column_names columns.old) written.now.name) fault) }
{
    let name = name_of(alloc, &written.name)?;
    if columns.find(name.as_slice()).is_some() {
        return Err(AnalyseFault::Error(SqlError::ColumnTwice(name)));
    }
    columns.push(Column {
        name,
        kind: written.kind,
        not_null: false,
        default: Value::Null,
    })?;
    Ok(())
}
