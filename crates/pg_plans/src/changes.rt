ghost use Rattle.std.specs.Prelude.{◌≡◌, ◌≢◌, Err, IfOk, map};
ghost use Rattle.pg_plans.specs.LentRows.{all_lent_rows};
ghost use Rattle.pg_returning.specs.Outcomes.{outcome};
ghost use Rattle.pg_world.specs.Candidates.{change_candidates as candidates_of, unmade_candidate};

use crate::joins::{Partners, combinations, kept_rows, passing_combinations};
use pg_lists::Items;
use pg_model::Change;
use pg_returning::PlanFault;
use pg_world::{Candidate, SeenRow};
use std::alloc::{AllocError, Global};

/// The candidates of an UPDATE or DELETE, each the rows of target and sources of which its WHERE is
/// true, or the first error of that.
pub fn change_candidates(
    alloc: Global,
    change: &Change,
    sources: &[Items<SeenRow>],
) -> Result<Items<Candidate>, PlanFault>
    ensures { result ≢ Err PlanFault.Memory →
        outcome result ≡ candidates_of change.now sources.now }
{
    let all = combinations(alloc, sources)?;
    let passed = passing_combinations(alloc, &change.condition, all.as_slice())?;
    Ok(unmade_candidates(alloc, passed.as_slice())?)
}

/// Candidates of which nothing is made yet.
#[tactic(auto, using(pg_returning::proofs::Steps::step_list))]
fn unmade_candidates(alloc: Global, passed: &[Partners<'_>]) -> Result<Items<Candidate>, AllocError>
    ensures { IfOk result (λ candidates.
        candidates ≡ map unmade_candidate (all_lent_rows passed.now)) }
{
    let mut candidates = Items::new(alloc);
    for partners in passed {
        candidates.push(Candidate {
            partners: kept_rows(alloc, partners.as_slice())?,
            made: Items::new(alloc),
        })?;
    }
    Ok(candidates)
}
