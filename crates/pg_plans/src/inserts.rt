ghost use Rattle.std.specs.Prelude.{◌≡◌, ◌≢◌, Err, nat_eq};
ghost use Rattle.std.specs.Map.{lookup};
ghost use Rattle.std.specs.Option.{option_copied};
ghost use Rattle.pg_returning.specs.Outcomes.{outcome};
ghost use Rattle.pg_world.specs.Candidates.{column_values as values_of_columns, insert_candidates as candidates_of, listed_values as values_listed, proposed_row as row_proposed, value_for as value_in, value_or_default as value_given};
ghost use Rattle.pg_world.specs.Evaluation.{all_values};

use crate::evaluation::{fitted_for, fitted_value};
use pg_exprs::{Env, Expr};
use pg_lists::Items;
use pg_model::{Column, Insert};
use pg_returning::{PlanFault, value_of};
use pg_values::{Value, Values, copy_value};
use pg_world::Candidate;
use std::alloc::Global;

/// An expression of VALUES names no source.
const NO_ROWS: [Option<&[Value]>; 0] = [];

/// The proposed rows of an INSERT, in the order written, or their first error.
#[tactic(auto, using(pg_returning::proofs::Steps::step_value))]
pub fn insert_candidates(alloc: Global, insert: &Insert) -> Result<Items<Candidate>, PlanFault>
    ensures { result ≢ Err PlanFault.Memory → outcome result ≡ candidates_of insert.now }
{
    let rows = insert.rows.as_slice();
    let mut candidates = Items::new(alloc);
    for row in rows {
        let made = proposed_row(alloc, insert, row.as_slice())?;
        candidates.push(Candidate {
            partners: Items::new(alloc),
            made,
        })?;
    }
    Ok(candidates)
}

/// A proposed row: first the listed values are evaluated, then the columns left out take their
/// defaults.
fn proposed_row(alloc: Global, insert: &Insert, exprs: &[Expr]) -> Result<Values, PlanFault>
    ensures { result ≢ Err PlanFault.Memory → outcome result ≡ row_proposed insert.now exprs.now }
{
    let columns = insert.target.shape.columns.as_slice();
    let listed = listed_values(alloc, columns, insert.columns.as_slice(), exprs)?;
    column_values(alloc, listed.as_slice(), columns)
}

/// The values that a row lists, each with the number of its column, or the first error.
#[tactic(auto, using(pg_returning::proofs::Steps::step_value, crate::proofs::Listing::none_listed))]
fn listed_values(
    alloc: Global,
    columns: &[Column],
    numbers: &[u32],
    exprs: &[Expr],
) -> Result<Items<(u32, Value)>, PlanFault>
    ensures { result ≢ Err PlanFault.Memory →
        outcome result ≡ all_values (values_listed columns.now numbers.now exprs.now) }
{
    let mut listed = Items::new(alloc);
    let mut at = 0;
    for number in numbers {
        let Some(expr) = exprs.get(at) else {
            return Ok(listed);
        };
        let value = value_for(alloc, columns, *number, expr)?;
        listed.push((*number, value))?;
        at += 1;
    }
    Ok(listed)
}

/// The value of an expression for the column of that number, fitted to its kind, or its error.
fn value_for(
    alloc: Global,
    columns: &[Column],
    number: u32,
    expr: &Expr,
) -> Result<Value, PlanFault>
    ensures { result ≢ Err PlanFault.Memory →
        outcome result ≡ value_in columns.now number expr.now }
{
    let env = Env::new(NO_ROWS.as_slice(), None);
    fitted_for(columns, number, value_of(alloc, expr, &env)?)
}

/// The values of all columns in their order, or the first error of a default.
#[tactic(auto, using(pg_returning::proofs::Steps::step_value))]
fn column_values(
    alloc: Global,
    listed: &[(u32, Value)],
    columns: &[Column],
) -> Result<Values, PlanFault>
    ensures { result ≢ Err PlanFault.Memory →
        outcome result ≡ all_values (values_of_columns listed.now 0 columns.now) }
{
    let mut values = Items::new(alloc);
    let mut at = 0;
    for column in columns {
        let value = value_or_default(alloc, column, listed_for(listed, at))?;
        values.push(value)?;
        at += 1;
    }
    Ok(values)
}

/// The value that is listed first for the column of that number.
fn listed_for(listed: &[(u32, Value)], number: usize) -> Option<&Value>
    ensures { option_copied result ≡ lookup (nat_eq number) listed.now }
{
    for (column, value) in listed {
        if number == *column as usize {
            return Some(value);
        }
    }
    None
}

/// The value that is listed for a column, or its default, fitted to its kind.
fn value_or_default(
    alloc: Global,
    column: &Column,
    listed: Option<&Value>,
) -> Result<Value, PlanFault>
    ensures { result ≢ Err PlanFault.Memory →
        outcome result ≡ value_given column.now (option_copied listed.entry) }
{
    match listed {
        Some(value) => Ok(copy_value(alloc, value)?),
        None => fitted_value(copy_value(alloc, &column.default)?, column.kind),
    }
}
