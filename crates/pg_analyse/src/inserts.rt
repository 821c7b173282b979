ghost use Rattle.std.specs.Prelude.{◌≡◌, ◌≢◌, ◌++◌, ◌∷◌, [], Err, IfErr, IfOk, Ok, OnOk, Some, ◌&&◌, filter_map, flat_map, map};
ghost use Rattle.pg_names.specs.Names.{number_of};
ghost use Rattle.pg_model.specs.declared.statement.Statement.TheVariants.{Insert as InsertInto};
ghost use Rattle.pg_resolve.specs.declared.fault.AnalyseFault.TheVariants.{Memory};
ghost use Rattle.pg_analyse.specs.Analysis.{analysis_of_insert};
ghost use Rattle.pg_analyse.specs.Built.{is_empty};
ghost use Rattle.pg_resolve.specs.Causes.{Stops, in_order};
ghost use Rattle.pg_analyse.specs.Inserts.{count_errors, fits_at, insert_phases, inserted_into, is_count as counts, listed_errors, listing_errors, numbers_from, row_phases, store_errors, target_columns as targets, tuples_of as tuples_in};
ghost use Rattle.pg_resolve.specs.Resolved.{expr_errors, kind_in, expr_of_tree};
ghost use Rattle.pg_resolve.specs.Scope.{column_names};

use crate::tables::table_named;
use pg_exprs::Expr;
use pg_lexer::NameText;
use pg_lists::Items;
use pg_model::{
    Catalogue, ColumnNumbers, Columns, Exprs, Insert, NamedTable, ProposedRows, SqlError,
};
use pg_names::{NamedItems, Names};
use pg_parse_expr::ExprTree;
use pg_parse_stmt::{Insert as InsertTree, Rows, Tuple};
use pg_resolve::{AnalyseFault, Scope, may_be_stored, name_of, number, resolve};
use pg_values::Kind;
use std::alloc::Global;

/// An INSERT with its names resolved, or its first error.
#[tactic(auto, using(crate::proofs::Phases::no_errors, crate::proofs::Phases::an_error))]
pub(crate) fn analyse_insert(
    alloc: Global,
    catalogue: &Catalogue,
    insert: &InsertTree,
) -> Result<Insert, AnalyseFault>
    ensures ok { IfOk result (λ given.
        analysis_of_insert catalogue.now insert.now ≡ Ok (InsertInto given)) }
    ensures err { IfErr result (λ fault.
        fault ≢ Memory → analysis_of_insert catalogue.now insert.now ≡ Err fault) }
{
    let target = table_named(alloc, catalogue, &insert.table)?;
    insert_into(alloc, target, insert)
}

/// An INSERT into a table that exists, or its first error.
#[tactic(auto, using(pg_resolve::proofs::Stopping::stops_before, pg_resolve::proofs::Stopping::stops_behind))]
fn insert_into(
    alloc: Global,
    target: NamedTable,
    insert: &InsertTree,
) -> Result<Insert, AnalyseFault>
    ensures insert { IfOk result (λ given. given ≡ inserted_into insert.now target) }
    ensures ok { OnOk result (in_order (insert_phases insert.now target.shape.columns) ≡ []) }
    ensures err { IfErr result (λ fault.
        Stops (in_order (insert_phases insert.now target.shape.columns)) fault) }
{
    let names = insert.columns.as_slice();
    let tuples = tuples_of(&insert.rows);
    let columns = target_columns(alloc, &target.shape.columns, names)?;
    check_counts(&target.shape.columns, names, tuples)?;
    let rows = resolve_rows(alloc, &target.shape.columns, columns.as_slice(), tuples)?;
    Ok(Insert {
        target,
        columns,
        rows,
    })
}

/// The rows that VALUES lists.
fn tuples_of(rows: &Rows) -> &[Tuple]
    ensures { result.now ≡ tuples_in rows.now }
{
    match rows {
        Rows::Values(tuples) => tuples.as_slice(),
        Rows::Query(_) => &[],
    }
}

/// The numbers of the columns that are listed, or of all columns; or the first error of the list.
fn target_columns(
    alloc: Global,
    columns: &Columns,
    names: &[NameText],
) -> Result<ColumnNumbers, AnalyseFault>
    ensures numbers { IfOk result (λ numbers. numbers ≡ targets columns.now names.now) }
    ensures ok { OnOk result (listed_errors columns.now [] names.now ≡ []) }
    ensures err { IfErr result (λ fault. Stops (listed_errors columns.now [] names.now) fault) }
{
    match names {
        [] => Ok(all_columns(alloc, columns)?),
        [_, ..] => Ok(listed_columns(alloc, columns, names)?),
    }
}

/// The numbers of all columns.
#[tactic(auto, using(crate::proofs::Steps::step_list))]
fn all_columns(alloc: Global, columns: &Columns) -> Result<ColumnNumbers, AnalyseFault>
    ensures ok { IfOk result (λ numbers. numbers ≡ numbers_from 0 columns.now) }
    ensures err { IfErr result (λ fault. fault ≡ Memory) }
{
    let all = columns.as_slice();
    let mut numbers = Items::new(alloc);
    let mut at = 0;
    for _column in all {
        numbers.push(number(at)?)?;
        at += 1;
    }
    Ok(numbers)
}

/// The numbers of the columns that are listed, or the first error of the list.
#[tactic(auto, using(crate::proofs::Listing::step_numbers, crate::proofs::Listing::step_errors, crate::proofs::Listing::step_stops))]
fn listed_columns(
    alloc: Global,
    columns: &Columns,
    names: &[NameText],
) -> Result<ColumnNumbers, AnalyseFault>
    ensures numbers { IfOk result (λ numbers.
        numbers ≡ filter_map (number_of (column_names columns.now)) names.now) }
    ensures ok { OnOk result (listed_errors columns.now [] names.now ≡ []) }
    ensures err { IfErr result (λ fault. Stops (listed_errors columns.now [] names.now) fault) }
{
    let mut seen = Names::new(alloc);
    let mut numbers = Items::new(alloc);
    for name in names {
        let column = listed_column(alloc, columns, &mut seen, name)?;
        numbers.push(column)?;
    }
    Ok(numbers)
}

/// The number of a column that is listed behind those seen, or the error of its name.
#[tactic(auto, using(pg_resolve::proofs::Stopping::stops_before, pg_resolve::proofs::Stopping::stops_behind))]
fn listed_column(
    alloc: Global,
    columns: &Columns,
    seen: &mut Names,
    name: &NameText,
) -> Result<u32, AnalyseFault>
    ensures number { IfOk result (λ number.
        number_of (column_names columns.now) name.now ≡ Some number) }
    ensures seen { OnOk result (seen.new ≡ seen.old ++ name.now ∷ []) }
    ensures ok { OnOk result (listing_errors columns.now seen.old name.now ≡ []) }
    ensures err { IfErr result (λ fault.
        Stops (listing_errors columns.now seen.old name.now) fault) }
{
    let name = name_of(alloc, name)?;
    let Some(at) = columns.find(name.as_slice()) else {
        return Err(AnalyseFault::Error(SqlError::NoColumn(name)));
    };
    if seen.find(name.as_slice()).is_some() {
        return Err(AnalyseFault::Error(SqlError::ColumnTwice(name)));
    }
    let column = number(at)?;
    seen.push(name)?;
    Ok(column)
}

/// Finds whether each row has the number of expressions that it is to have.
fn check_counts(columns: &Columns, names: &[NameText], tuples: &[Tuple]) -> Result<(), AnalyseFault>
    ensures ok { OnOk result (flat_map (count_errors columns.now names.now) tuples.now ≡ []) }
    ensures err { IfErr result (λ fault.
        Stops (flat_map (count_errors columns.now names.now) tuples.now) fault) }
{
    for tuple in tuples {
        if !is_count(columns, names, tuple.len()) {
            return Err(AnalyseFault::Error(SqlError::WrongCount));
        }
    }
    Ok(())
}

/// Whether a row may have that number of expressions.
fn is_count(columns: &Columns, names: &[NameText], count: usize) -> bool
    ensures { result ≡ counts columns.now names.now count }
{
    match names {
        [] => count <= columns.len(),
        [_, ..] => count == names.len(),
    }
}

/// The rows with their names resolved, whose values may all be stored; or their first error.
#[tactic(auto, using(crate::proofs::Storing::rows_resolved))]
fn resolve_rows(
    alloc: Global,
    columns: &Columns,
    numbers: &[u32],
    tuples: &[Tuple],
) -> Result<ProposedRows, AnalyseFault>
    ensures rows { IfOk result (λ rows. rows ≡ map (map (expr_of_tree [])) tuples.now) }
    ensures exprs { OnOk result (flat_map (flat_map (expr_errors [])) tuples.now ≡ []) }
    ensures stored { OnOk result (flat_map (store_errors columns.now numbers.now) tuples.now ≡ []) }
    ensures err { IfErr result (λ fault.
        Stops (in_order (row_phases columns.now numbers.now tuples.now)) fault) }
{
    let mut rows = Items::new(alloc);
    let mut fits = true;
    for tuple in tuples {
        let (row, fit) = resolve_row(alloc, columns, numbers, tuple.as_slice())?;
        fits = both(fits, fit);
        rows.push(row)?;
    }
    if !fits {
        return Err(AnalyseFault::Error(SqlError::WrongKind));
    }
    Ok(rows)
}

/// A row with its names resolved, and whether its values may be stored; or the first error of its
/// expressions.
#[tactic(auto, using(pg_resolve::proofs::Stopping::stops_before, pg_resolve::proofs::Stopping::stops_behind, crate::proofs::Storing::step_values))]
fn resolve_row(
    alloc: Global,
    columns: &Columns,
    numbers: &[u32],
    row: &[ExprTree],
) -> Result<(Exprs, bool), AnalyseFault>
    ensures exprs { IfOk result (λ given. given.0 ≡ map (expr_of_tree []) row.now) }
    ensures fits { IfOk result (λ given.
        given.1 ≡ is_empty (store_errors columns.now numbers.now row.now)) }
    ensures ok { OnOk result (flat_map (expr_errors []) row.now ≡ []) }
    ensures err { IfErr result (λ fault. Stops (flat_map (expr_errors []) row.now) fault) }
{
    let mut exprs = Items::new(alloc);
    let mut fits = true;
    let mut at = 0;
    for tree in row {
        let (expr, kind) = resolve_value(alloc, tree)?;
        let fit = fits_column(columns, numbers, at, kind);
        exprs.push(expr)?;
        fits = both(fits, fit);
        at += 1;
    }
    Ok((exprs, fits))
}

/// A value of a row, which names no column, and its kind; or its first error.
fn resolve_value(alloc: Global, tree: &ExprTree) -> Result<(Expr, Option<Kind>), AnalyseFault>
    ensures expr { IfOk result (λ given. given.0 ≡ expr_of_tree [] tree.now) }
    ensures kind { IfOk result (λ given. kind_in [] tree.now ≡ Ok given.1) }
    ensures ok { OnOk result (expr_errors [] tree.now ≡ []) }
    ensures err { IfErr result (λ fault. Stops (expr_errors [] tree.now) fault) }
{
    let scope: Scope = NamedItems::new(alloc);
    resolve(alloc, &scope, tree)
}

/// Whether a value of that kind may be stored in the column at that place of the list.
fn fits_column(columns: &Columns, numbers: &[u32], at: usize, kind: Option<Kind>) -> bool
    ensures { result ≡ fits_at columns.now numbers.now at kind }
{
    let Some(number) = numbers.get(at) else {
        return true;
    };
    let Some(column) = columns.get(*number as usize) else {
        return true;
    };
    may_be_stored(kind, column.kind)
}

/// Whether both hold.
pub(crate) fn both(a: bool, b: bool) -> bool
    ensures { result ≡ (a && b) }
{
    a && b
}
