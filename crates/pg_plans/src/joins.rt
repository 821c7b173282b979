ghost use Rattle.std.specs.Prelude.{◌≡◌, ◌≢◌, ◌++◌, ◌∷◌, Err, IfOk, OnOk, Some, flat_map, map};
ghost use Rattle.std.specs.Option.{option_copied};
ghost use Rattle.pg_plans.specs.LentRows.{all_lent_rows, row_before_each, lent_rows, combinations_outcome};
ghost use Rattle.pg_returning.specs.Outcomes.{outcome};
ghost use Rattle.pg_world.specs.Candidates.{combinations as combinations_of, passes as is_passed, passing_combinations as combinations_passing, row_values as values_in};

use pg_exprs::{Env, Expr};
use pg_heap::Version;
use pg_lists::{Items, TryCopy};
use pg_returning::{PlanFault, value_of};
use pg_values::Value;
use pg_world::SeenRow;
use std::alloc::{AllocError, Global};

/// Rows of several sources, one of each, lent by what the statement sees.
pub(crate) type Partners<'rows> = Items<&'rows SeenRow>;

/// Each choice of one row from each source, in nested order: the last source runs fastest.
pub(crate) fn combinations<'rows>(
    alloc: Global,
    sources: &'rows [Items<SeenRow>],
) -> Result<Items<Partners<'rows>>, AllocError>
    ensures { IfOk result (λ all. all_lent_rows all ≡ combinations_of sources.now) }
{
    let mut all = Items::new(alloc);
    all.push(Items::new(alloc))?;
    let mut left = sources.len();
    while left > 0 {
        left -= 1;
        all = with_source(alloc, sources[left].as_slice(), all.as_slice())?;
    }
    Ok(all)
}

/// The combinations with a row of one source more in front.
#[tactic(auto, using(pg_returning::proofs::Steps::step_list))]
fn with_source<'rows>(
    alloc: Global,
    rows: &'rows [SeenRow],
    others: &[Partners<'rows>],
) -> Result<Items<Partners<'rows>>, AllocError>
    ensures { IfOk result (λ all.
        all_lent_rows all
        ≡ flat_map (λ row. row_before_each row (all_lent_rows others.now)) rows.now) }
{
    let mut all = Items::new(alloc);
    for row in rows {
        push_with(alloc, row, others, &mut all)?;
    }
    Ok(all)
}

/// Puts the combinations with that row in front behind those that are there.
#[tactic(auto, using(crate::proofs::Lending::step_all_lent))]
fn push_with<'rows>(
    alloc: Global,
    row: &'rows SeenRow,
    others: &[Partners<'rows>],
    all: &mut Items<Partners<'rows>>,
) -> Result<(), AllocError>
    ensures { OnOk result
        (all_lent_rows all.new
        ≡ all_lent_rows all.old ++ row_before_each row.now (all_lent_rows others.now)) }
{
    for partners in others {
        all.push(in_front(alloc, row, partners.as_slice())?)?;
    }
    Ok(())
}

/// A row in front of others.
#[tactic(auto, using(crate::proofs::Lending::step_lent))]
fn in_front<'rows>(
    alloc: Global,
    row: &'rows SeenRow,
    others: &[&'rows SeenRow],
) -> Result<Partners<'rows>, AllocError>
    ensures { IfOk result (λ partners. lent_rows partners ≡ row.now ∷ lent_rows others.now) }
{
    let mut partners = Items::new(alloc);
    partners.push(row)?;
    for other in others {
        partners.push(*other)?;
    }
    Ok(partners)
}

/// The combinations of which the WHERE is true, in order, or its first error.
#[tactic(auto, using(crate::proofs::Lending::step_passed))]
pub(crate) fn passing_combinations<'rows>(
    alloc: Global,
    condition: &Option<Expr>,
    all: &[Partners<'rows>],
) -> Result<Items<Partners<'rows>>, PlanFault>
    ensures { result ≢ Err PlanFault.Memory →
        combinations_outcome result ≡ combinations_passing condition.now (all_lent_rows all.now) }
{
    let mut passed = Items::new(alloc);
    for partners in all {
        if passes(alloc, condition, partners.as_slice())? {
            passed.push(copy_of_rows(alloc, partners.as_slice())?)?;
        }
    }
    Ok(passed)
}

/// The same rows, lent once more.
#[tactic(auto, using(crate::proofs::Lending::step_lent))]
fn copy_of_rows<'rows>(
    alloc: Global,
    rows: &[&'rows SeenRow],
) -> Result<Partners<'rows>, AllocError>
    ensures { IfOk result (λ partners. lent_rows partners ≡ lent_rows rows.now) }
{
    let mut partners = Items::new(alloc);
    for row in rows {
        partners.push(*row)?;
    }
    Ok(partners)
}

/// Whether the WHERE is true of these rows: not where it is NULL.
fn passes(alloc: Global, condition: &Option<Expr>, partners: &[&SeenRow]) -> Result<bool, PlanFault>
    ensures { result ≢ Err PlanFault.Memory →
        outcome result ≡ is_passed condition.now (lent_rows partners.now) }
{
    let Some(condition) = condition else {
        return Ok(true);
    };
    let rows = rows_of(alloc, partners)?;
    let env = Env::new(rows.as_slice(), None);
    match value_of(alloc, condition, &env)? {
        Value::Bool(true) => Ok(true),
        _ => Ok(false),
    }
}

/// What expressions over these rows are evaluated over.
#[tactic(auto, using(crate::proofs::Lending::step_rows))]
pub(crate) fn rows_of<'rows>(
    alloc: Global,
    partners: &[&'rows SeenRow],
) -> Result<Vec<Option<&'rows [Value]>>, AllocError>
    ensures { IfOk result (λ rows.
        map option_copied rows.items ≡ map (λ row. Some (values_in row)) (lent_rows partners.now)) }
{
    let mut rows = Vec::new(alloc);
    for row in partners {
        rows.push(Some(row_values(*row)))?;
    }
    Ok(rows)
}

/// The values of the version that was seen.
fn row_values(row: &SeenRow) -> &[Value]
    ensures { result.now ≡ values_in row.now }
{
    match &row.version.values {
        Some(values) => values.as_slice(),
        None => &[],
    }
}

/// Copies of the rows.
#[tactic(auto, using(pg_returning::proofs::Steps::step_list))]
pub(crate) fn kept_rows(alloc: Global, rows: &[&SeenRow]) -> Result<Items<SeenRow>, AllocError>
    ensures { IfOk result (λ kept. kept ≡ lent_rows rows.now) }
{
    let mut kept = Items::new(alloc);
    for row in rows {
        kept.push(kept_row(alloc, *row)?)?;
    }
    Ok(kept)
}

/// A copy of a row.
fn kept_row(alloc: Global, row: &SeenRow) -> Result<SeenRow, AllocError>
    ensures { IfOk result (λ kept. kept ≡ row.now) }
{
    let version = Version {
        values: row.version.values.try_copy(alloc)?,
        writer: row.version.writer,
        command: row.version.command,
    };
    Ok(SeenRow {
        row: row.row,
        version,
    })
}
