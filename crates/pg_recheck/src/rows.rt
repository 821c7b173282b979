ghost use Rattle.std.specs.Prelude.{◌≡◌, ◌++◌, IfOk, OnOk, Some, map};
ghost use Rattle.std.specs.Option.{option_copied};
ghost use Rattle.pg_recheck.specs.Versions.{rows_with};
ghost use Rattle.pg_world.specs.Candidates.{row_values as values_in};

use pg_values::Value;
use pg_world::SeenRow;
use std::alloc::{AllocError, Global};

/// The rows of a candidate, of which the target's has these values: the others stay as they were
/// seen.
pub(crate) fn rows_with<'rows>(
    alloc: Global,
    target: &'rows [Value],
    partners: &'rows [SeenRow],
) -> Result<Vec<Option<&'rows [Value]>>, AllocError>
    ensures { IfOk result (λ rows.
        map option_copied rows.items ≡ rows_with target.now partners.now) }
{
    let mut rows = Vec::new(alloc);
    let Some((_, sources)) = partners.split_first() else {
        return Ok(rows);
    };
    rows.push(Some(target))?;
    push_rows(&mut rows, sources)?;
    Ok(rows)
}

/// Puts the values of rows, as they were seen, behind those that are there.
#[tactic(auto, using(pg_plans::proofs::Lending::step_rows))]
fn push_rows<'rows>(
    rows: &mut Vec<Option<&'rows [Value]>>,
    sources: &'rows [SeenRow],
) -> Result<(), AllocError>
    ensures { OnOk result (map option_copied rows.new.items
        ≡ map option_copied rows.old.items ++ map (λ row. Some (values_in row)) sources.now) }
{
    for row in sources {
        rows.push(Some(row_values(row)))?;
    }
    Ok(())
}

/// The values of the version that was seen.
fn row_values(row: &SeenRow) -> &[Value]
    ensures { result.now ≡ values_in row.now }
{
    match &row.version.values {
        Some(values) => values.as_slice(),
        None => &[],
    }
}
