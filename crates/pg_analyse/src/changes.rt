ghost use Rattle.std.specs.Prelude.{◌≡◌, ◌≢◌, ◌++◌, ◌∷◌, [], Err, IfErr, IfOk, Ok, OnOk, flat_map, map};
ghost use Rattle.std.specs.Option.{option_map};
ghost use Rattle.pg_model.specs.declared.statement.Statement.TheVariants.{Change as ChangeOf};
ghost use Rattle.pg_resolve.specs.declared.fault.AnalyseFault.TheVariants.{Memory};
ghost use Rattle.pg_analyse.specs.Analysis.{analysis_of_delete, analysis_of_update};
ghost use Rattle.pg_analyse.specs.Built.{is_empty};
ghost use Rattle.pg_resolve.specs.Causes.{Stops, in_order};
ghost use Rattle.pg_analyse.specs.Changes.{assignment_of, delete_of_tree, delete_phases, fits_column as fits_at_number, set_errors, setting_errors, stored_errors, target_errors, target_scope as known_target, update_of_tree, update_phases, value_phases};
ghost use Rattle.pg_resolve.specs.Resolved.{expr_of_tree};

use crate::inserts::both;
use crate::queries::{known_name, resolve_where};
use crate::tables::table_named;
use pg_exprs::Expr;
use pg_lexer::NameText;
use pg_lists::{Items, TryCopy};
use pg_model::{Action, Assignment, Assignments, Catalogue, Change, Columns, NamedTable, SqlError};
use pg_names::{NamedItems, Names};
use pg_parse_stmt::{
    Assignment as AssignmentTree, Delete as DeleteTree, TableRef, Update as UpdateTree,
};
use pg_resolve::{AnalyseFault, Known, Scope, may_be_stored, name_of, number, resolve};
use pg_values::Kind;
use std::alloc::{AllocError, Global};

/// An UPDATE with its names resolved, or its first error.
#[tactic(auto, using(crate::proofs::Phases::no_errors, crate::proofs::Phases::an_error))]
pub(crate) fn analyse_update(
    alloc: Global,
    catalogue: &Catalogue,
    update: &UpdateTree,
) -> Result<Change, AnalyseFault>
    ensures ok { IfOk result (λ given.
        analysis_of_update catalogue.now update.now ≡ Ok (ChangeOf given)) }
    ensures err { IfErr result (λ fault.
        fault ≢ Memory → analysis_of_update catalogue.now update.now ≡ Err fault) }
{
    let target = table_named(alloc, catalogue, &update.target.name)?;
    update_of(alloc, target, update)
}

/// A DELETE with its names resolved, or its first error.
#[tactic(auto, using(crate::proofs::Phases::no_errors, crate::proofs::Phases::an_error))]
pub(crate) fn analyse_delete(
    alloc: Global,
    catalogue: &Catalogue,
    delete: &DeleteTree,
) -> Result<Change, AnalyseFault>
    ensures ok { IfOk result (λ given.
        analysis_of_delete catalogue.now delete.now ≡ Ok (ChangeOf given)) }
    ensures err { IfErr result (λ fault.
        fault ≢ Memory → analysis_of_delete catalogue.now delete.now ≡ Err fault) }
{
    let target = table_named(alloc, catalogue, &delete.target.name)?;
    delete_of(alloc, target, delete)
}

/// What expressions may name: the columns of the target.
fn target_scope(alloc: Global, target: &TableRef, named: &NamedTable) -> Result<Scope, AllocError>
    ensures { IfOk result (λ scope. scope ≡ known_target target.now named.now) }
{
    let name = known_name(alloc, target)?;
    let columns = named.shape.columns.try_copy(alloc)?;
    let mut scope = NamedItems::new(alloc);
    scope.push(Known { name, columns })?;
    Ok(scope)
}

/// A DELETE from a table that exists, or its first error.
#[tactic(auto, using(pg_resolve::proofs::Stopping::stops_before))]
fn delete_of(alloc: Global, target: NamedTable, delete: &DeleteTree) -> Result<Change, AnalyseFault>
    ensures change { IfOk result (λ given. given ≡ delete_of_tree delete.now target) }
    ensures ok { OnOk result (in_order (delete_phases delete.now target) ≡ []) }
    ensures err { IfErr result (λ fault.
        Stops (in_order (delete_phases delete.now target)) fault) }
{
    let scope = target_scope(alloc, &delete.target, &target)?;
    let condition = resolve_where(alloc, &scope, &delete.condition)?;
    drop(scope);
    Ok(Change {
        target,
        action: Action::Delete,
        sources: Items::new(alloc),
        condition,
    })
}

/// An UPDATE of a table that exists, or its first error.
#[tactic(auto, using(pg_resolve::proofs::Stopping::stops_before, pg_resolve::proofs::Stopping::stops_behind))]
fn update_of(alloc: Global, target: NamedTable, update: &UpdateTree) -> Result<Change, AnalyseFault>
    ensures change { IfOk result (λ given. given ≡ update_of_tree update.now target) }
    ensures ok { OnOk result (in_order (update_phases update.now target) ≡ []) }
    ensures err { IfErr result (λ fault.
        Stops (in_order (update_phases update.now target)) fault) }
{
    let scope = target_scope(alloc, &update.target, &target)?;
    check_targets(alloc, &target.shape.columns, update.sets.as_slice())?;
    let (assignments, condition) = resolve_values(alloc, &scope, &target.shape.columns, update)?;
    drop(scope);
    Ok(Change {
        target,
        action: Action::Set(assignments),
        sources: Items::new(alloc),
        condition,
    })
}

/// Finds whether each column that is set exists, and is set once.
#[tactic(auto, using(crate::proofs::Setting::step_errors, crate::proofs::Setting::step_stops))]
fn check_targets(
    alloc: Global,
    columns: &Columns,
    sets: &[AssignmentTree],
) -> Result<(), AnalyseFault>
    ensures ok { OnOk result (target_errors columns.now [] sets.now ≡ []) }
    ensures err { IfErr result (λ fault. Stops (target_errors columns.now [] sets.now) fault) }
{
    let mut seen = Names::new(alloc);
    for set in sets {
        check_target(alloc, columns, &mut seen, &set.column)?;
    }
    Ok(())
}

/// Finds whether a column exists, and was not set before.
#[tactic(auto, using(pg_resolve::proofs::Stopping::stops_before, pg_resolve::proofs::Stopping::stops_behind))]
fn check_target(
    alloc: Global,
    columns: &Columns,
    seen: &mut Names,
    name: &NameText,
) -> Result<(), AnalyseFault>
    ensures seen { OnOk result (seen.new ≡ seen.old ++ name.now ∷ []) }
    ensures ok { OnOk result (setting_errors columns.now seen.old name.now ≡ []) }
    ensures err { IfErr result (λ fault.
        Stops (setting_errors columns.now seen.old name.now) fault) }
{
    let name = name_of(alloc, name)?;
    if columns.find(name.as_slice()).is_none() {
        return Err(AnalyseFault::Error(SqlError::NoColumn(name)));
    }
    if seen.find(name.as_slice()).is_some() {
        return Err(AnalyseFault::Error(SqlError::SetTwice(name)));
    }
    seen.push(name)?;
    Ok(())
}

/// The SET list and the condition of an UPDATE, where the values may be stored; or the first error.
#[tactic(auto, using(pg_resolve::proofs::Stopping::stops_before, pg_resolve::proofs::Stopping::stops_behind, crate::proofs::Changing::values_none, crate::proofs::Changing::values_stop))]
fn resolve_values(
    alloc: Global,
    scope: &Scope,
    columns: &Columns,
    update: &UpdateTree,
) -> Result<(Assignments, Option<Expr>), AnalyseFault>
    ensures assignments { IfOk result (λ given.
        given.0 ≡ map (assignment_of scope.now columns.now) update.now.sets) }
    ensures condition { IfOk result (λ given.
        given.1 ≡ option_map (expr_of_tree scope.now) update.now.condition) }
    ensures ok { OnOk result (in_order
        (value_phases scope.now columns.now update.now.sets update.now.condition) ≡ []) }
    ensures err { IfErr result (λ fault. Stops (in_order
        (value_phases scope.now columns.now update.now.sets update.now.condition)) fault) }
{
    let (assignments, fits) = resolve_sets(alloc, scope, columns, update.sets.as_slice())?;
    let condition = resolve_where(alloc, scope, &update.condition)?;
    if !fits {
        return Err(AnalyseFault::Error(SqlError::WrongKind));
    }
    Ok((assignments, condition))
}

/// A SET list with its names resolved, and whether its values may be stored; or the first error of
/// its expressions.
#[tactic(auto, using(pg_resolve::proofs::Stopping::stops_before, pg_resolve::proofs::Stopping::stops_behind, crate::proofs::Setting::step_sets))]
fn resolve_sets(
    alloc: Global,
    scope: &Scope,
    columns: &Columns,
    sets: &[AssignmentTree],
) -> Result<(Assignments, bool), AnalyseFault>
    ensures assignments { IfOk result (λ given.
        given.0 ≡ map (assignment_of scope.now columns.now) sets.now) }
    ensures fits { IfOk result (λ given.
        given.1 ≡ is_empty (flat_map (stored_errors scope.now columns.now) sets.now)) }
    ensures ok { OnOk result (flat_map (set_errors scope.now) sets.now ≡ []) }
    ensures err { IfErr result (λ fault. Stops (flat_map (set_errors scope.now) sets.now) fault) }
{
    let mut assignments = Items::new(alloc);
    let mut fits = true;
    for set in sets {
        let (assignment, fit) = resolve_set(alloc, scope, columns, set)?;
        fits = both(fits, fit);
        assignments.push(assignment)?;
    }
    Ok((assignments, fits))
}

/// A column and its value, and whether the value may be stored there; or the first error of the
/// value.
#[tactic(auto, using(crate::proofs::Setting::stored_fits))]
fn resolve_set(
    alloc: Global,
    scope: &Scope,
    columns: &Columns,
    set: &AssignmentTree,
) -> Result<(Assignment, bool), AnalyseFault>
    ensures assignment { IfOk result (λ given.
        given.0 ≡ assignment_of scope.now columns.now set.now) }
    ensures fits { IfOk result (λ given.
        given.1 ≡ is_empty (stored_errors scope.now columns.now set.now)) }
    ensures ok { OnOk result (set_errors scope.now set.now ≡ []) }
    ensures err { IfErr result (λ fault. Stops (set_errors scope.now set.now) fault) }
{
    let (value, kind) = resolve(alloc, scope, &set.value)?;
    let at = columns.find(set.column.as_bytes()).unwrap_or(0);
    let fits = fits_column(columns, at, kind);
    let column = number(at)?;
    Ok((Assignment { column, value }, fits))
}

/// Whether a value of that kind may be stored in the column of that number.
fn fits_column(columns: &Columns, number: usize, kind: Option<Kind>) -> bool
    ensures { result ≡ fits_at_number columns.now number kind }
{
    match columns.get(number) {
        Some(column) => may_be_stored(kind, column.kind),
        None => true,
    }
}
