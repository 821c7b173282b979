ghost use Rattle.std.specs.Prelude.{◌≡◌, ◌≢◌, ◌++◌, Err, nat_eq, IfOk, drop, length, map, unwrap_or};
ghost use Rattle.std.specs.Map.{lookup};
ghost use Rattle.std.specs.Option.{option_copied};
ghost use Rattle.pg_heap.specs.declared.version.Version.{Version};
ghost use Rattle.pg_recheck.specs.Versions.{HasValues, assigned_over, rows_with};
ghost use Rattle.pg_returning.specs.Outcomes.{outcome};
ghost use Rattle.pg_world.specs.Changes.{new_values as values_new, with_assigned as with_values, with_target_version};
ghost use Rattle.pg_world.specs.Evaluation.{all_values};

use crate::rows::rows_with;
use pg_exprs::Env;
use pg_lists::Items;
use pg_model::{Action, Assignment, Change, Column};
use pg_plans::fitted_for;
use pg_returning::{PlanFault, value_of};
use pg_values::{Value, Values, copy_value};
use pg_world::SeenRow;
use std::alloc::{AllocError, Global};

/// What the target's row of a candidate is to hold, of which the version with these values is looked
/// at: the values that an UPDATE sets, and the others as they were; none for a DELETE; or the first
/// error of the SET.
pub fn new_values(
    alloc: Global,
    change: &Change,
    target: &[Value],
    partners: &[SeenRow],
) -> Result<Option<Values>, PlanFault>
    ensures { result ≢ Err PlanFault.Memory →
        (version : Version) → HasValues target.now version →
        outcome result ≡ values_new change.now (with_target_version version partners.now) }
{
    let Action::Set(assignments) = &change.action else {
        return Ok(None);
    };
    let columns = change.target.shape.columns.as_slice();
    let rows = rows_with(alloc, target, partners)?;
    let env = Env::new(rows.as_slice(), None);
    let assigned = assigned_values(alloc, columns, assignments.as_slice(), &env)?;
    if partners.is_empty() {
        return Ok(Some(Items::new(alloc)));
    }
    Ok(Some(with_assigned(alloc, assigned.as_slice(), target)?))
}

/// The values of a SET list, in the order written, each fitted to its column and with the number of
/// that, or the first error.
#[tactic(auto, using(pg_returning::proofs::Steps::step_value))]
fn assigned_values(
    alloc: Global,
    columns: &[Column],
    assignments: &[Assignment],
    env: &Env<'_, '_>,
) -> Result<Items<(u32, Value)>, PlanFault>
    ensures { result ≢ Err PlanFault.Memory →
        outcome result
        ≡ all_values (map (assigned_over columns.now env.now) assignments.now) }
{
    let mut assigned = Items::new(alloc);
    for assignment in assignments {
        let value = value_of(alloc, &assignment.value, env)?;
        let value = fitted_for(columns, assignment.column, value)?;
        assigned.push((assignment.column, value))?;
    }
    Ok(assigned)
}

/// The values of a row with those that are assigned to its columns.
#[tactic(auto, using(pg_returning::proofs::Steps::step_list))]
fn with_assigned(
    alloc: Global,
    assigned: &[(u32, Value)],
    row: &[Value],
) -> Result<Values, AllocError>
    ensures { IfOk result (λ values. values ≡ with_values assigned.now 0 row.now) }
{
    let mut values = Items::new(alloc);
    let mut number = 0;
    for value in row {
        let value = match assigned_to(assigned, number) {
            Some(assigned) => assigned,
            None => value,
        };
        values.push(copy_value(alloc, value)?)?;
        number += 1;
    }
    Ok(values)
}

/// The first value that is assigned to the column of that number.
fn assigned_to(assigned: &[(u32, Value)], number: usize) -> Option<&Value>
    ensures { option_copied result ≡ lookup (nat_eq number) assigned.now }
{
    for (column, value) in assigned {
        if number == *column as usize {
            return Some(value);
        }
    }
    None
}
