//! The rows of which a candidate is made: its target's row, and those of the sources.

ghost use Rattle.std.specs.Prelude.{◌≡◌};
ghost use Rattle.pg_recheck.specs.Versions.{HasValues};
ghost use Rattle.pg_world.specs.Changes.{change_strength, is_as_seen as as_seen, partners_in as partners_of, target_row as row_of_target, target_values as values_of_target};

use pg_heap::Version;
use pg_model::Action;
use pg_multi::Strength;
use pg_values::Value;
use pg_world::{Running, SeenRow, VersionName};

/// The rows of which the candidate is made that was taken up last.
pub fn partners_in(running: &Running) -> &[SeenRow]
    ensures { result.now ≡ partners_of running.now }
{
    let Ok(candidates) = &running.candidates else {
        return &[];
    };
    let Some(before) = running.candidate.checked_sub(1) else {
        return &[];
    };
    match candidates.get(before as usize) {
        Some(candidate) => candidate.partners.as_slice(),
        None => &[],
    }
}

/// The number of the target's row: the first.
pub fn target_row(partners: &[SeenRow]) -> u64
    ensures { result ≡ row_of_target partners.now }
{
    match partners.first() {
        Some(target) => target.row,
        None => 0,
    }
}

/// The values of the target's row, as it was seen.
pub fn target_values(partners: &[SeenRow]) -> &[Value]
    ensures { result.now ≡ values_of_target partners.now }
{
    match partners.first() {
        Some(target) => version_values(&target.version),
        None => &[],
    }
}

/// The values of a version, of which there are none where it says that the row is gone.
pub fn version_values(version: &Version) -> &[Value]
    ensures { HasValues result.now version.now }
{
    match &version.values {
        Some(values) => values.as_slice(),
        None => &[],
    }
}

/// Whether the version of that name is the one that was seen of the target's row.
pub fn is_as_seen(name: VersionName, partners: &[SeenRow]) -> bool
    ensures { result ≡ as_seen name partners.now }
{
    match partners.first() {
        Some(target) => {
            name.writer == target.version.writer && name.command == target.version.command
        }
        None => true,
    }
}

/// The strength at which the row is locked for an action.
pub fn strength_for(action: &Action) -> Strength
    ensures { result ≡ change_strength action.now }
{
    match action {
        Action::Set(_) => Strength::NoKeyUpdate,
        Action::Delete => Strength::Update,
    }
}
