ghost use Rattle.std.specs.Prelude.{◌≡◌, ◌≢◌, Err};
ghost use Rattle.pg_returning.specs.Outcomes.{outcome};
ghost use Rattle.pg_update.specs.Looks.{look_over};
ghost use Rattle.pg_world.specs.Changes.{new_values as values_new, with_target_version};

use crate::partners::{is_as_seen, target_values, version_values};
use pg_heap::Version;
use pg_model::Change;
use pg_plans::PlanFault;
use pg_recheck::{new_values, recheck};
use pg_values::Values;
use pg_world::{SeenRow, VersionName};
use std::alloc::Global;

/// What comes of the look at a row that is locked.
#[derive(Debug, Drop)]
pub enum Look {
    /// Its candidate is passed.
    Passed,
    /// The row is to hold these values, or none, which says that it is gone.
    ToHold(Option<Values>),
}

/// The look at a row of which this version, with that name, was locked: where it is not the one that
/// was seen, the candidate is passed unless the condition is true of it, and it is this version that
/// is changed.
pub fn look_at(
    alloc: Global,
    change: &Change,
    name: VersionName,
    version: &Version,
    partners: &[SeenRow],
) -> Result<Look, PlanFault>
    ensures { result ≢ Err PlanFault.Memory →
        outcome result ≡ look_over change.now name partners.now
        (with_target_version version.now partners.now) }
{
    let values = version_values(version);
    if !is_as_seen(name, partners) && !recheck(alloc, &change.condition, values, partners)? {
        return Ok(Look::Passed);
    }
    let values = new_values(alloc, change, values, partners)?;
    Ok(Look::ToHold(values))
}

/// What the target's row would hold, by the version that was seen of it; or the error of that.
pub fn values_as_seen(
    alloc: Global,
    change: &Change,
    partners: &[SeenRow],
) -> Result<Option<Values>, PlanFault>
    ensures { result ≢ Err PlanFault.Memory →
        outcome result ≡ values_new change.now partners.now }
{
    new_values(alloc, change, target_values(partners), partners)
}
