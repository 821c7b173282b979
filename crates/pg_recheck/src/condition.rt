ghost use Rattle.std.specs.Prelude.{◌≡◌, ◌≢◌, Err};
ghost use Rattle.pg_heap.specs.declared.version.Version.{Version};
ghost use Rattle.pg_recheck.specs.Versions.{HasValues};
ghost use Rattle.pg_returning.specs.Outcomes.{outcome};
ghost use Rattle.pg_world.specs.Candidates.{passes};
ghost use Rattle.pg_world.specs.Changes.{with_target_version};

use crate::rows::rows_with;
use pg_exprs::{Env, Expr};
use pg_returning::{PlanFault, value_of};
use pg_values::Value;
use pg_world::SeenRow;
use std::alloc::Global;

/// Whether a condition, where there is one, is true of a candidate, of whose target's row the
/// version with these values is looked at; or the error of the condition.
pub fn recheck(
    alloc: Global,
    condition: &Option<Expr>,
    target: &[Value],
    partners: &[SeenRow],
) -> Result<bool, PlanFault>
    ensures { result ≢ Err PlanFault.Memory →
        (version : Version) → HasValues target.now version →
        outcome result ≡ passes condition.now (with_target_version version partners.now) }
{
    let Some(condition) = condition else {
        return Ok(true);
    };
    let rows = rows_with(alloc, target, partners)?;
    let env = Env::new(rows.as_slice(), None);
    match value_of(alloc, condition, &env)? {
        Value::Bool(true) => Ok(true),
        _ => Ok(false),
    }
}
