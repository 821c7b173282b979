ghost use Rattle.std.specs.Prelude.{◌≡◌, ◌≢◌, Err};
ghost use Rattle.pg_plans.specs.LentRows.{all_lent_rows, lent_rows, output_candidates, output_candidate};
ghost use Rattle.pg_returning.specs.Outcomes.{outcome};
ghost use Rattle.pg_world.specs.Candidates.{output_row as row_put_out, select_candidates as candidates_of};

use crate::joins::{Partners, combinations, kept_rows, passing_combinations, rows_of};
use pg_exprs::{Env, Expr};
use pg_lists::Items;
use pg_model::Select;
use pg_returning::{PlanFault, output};
use pg_values::Values;
use pg_world::{Candidate, SeenRow};
use std::alloc::Global;

/// The output rows of a plain SELECT with the rows that they are made of, or the first error: of
/// its WHERE over all rows, and only then of its items over the rows that are returned.
#[tactic(auto, using(crate::proofs::Lending::all_selected))]
pub fn select_candidates(
    alloc: Global,
    select: &Select,
    sources: &[Items<SeenRow>],
) -> Result<Items<Candidate>, PlanFault>
    ensures { result ≢ Err PlanFault.Memory →
        outcome result ≡ candidates_of select.now sources.now }
{
    let all = combinations(alloc, sources)?;
    let passed = passing_combinations(alloc, &select.condition, all.as_slice())?;
    selected_candidates(alloc, select.items.as_slice(), passed.as_slice())
}

/// The candidates of the rows that are returned, in order, or the first error of their items.
#[tactic(auto, using(pg_returning::proofs::Steps::step_value))]
fn selected_candidates(
    alloc: Global,
    items: &[Expr],
    passed: &[Partners<'_>],
) -> Result<Items<Candidate>, PlanFault>
    ensures { result ≢ Err PlanFault.Memory →
        outcome result ≡ output_candidates items.now (all_lent_rows passed.now) }
{
    let mut candidates = Items::new(alloc);
    for partners in passed {
        candidates.push(selected_candidate(alloc, items, partners.as_slice())?)?;
    }
    Ok(candidates)
}

/// The candidate of these rows, or the first error of the items.
#[tactic(auto, unfolding(crate::specs::LentRows::output_candidate))]
fn selected_candidate(
    alloc: Global,
    items: &[Expr],
    partners: &[&SeenRow],
) -> Result<Candidate, PlanFault>
    ensures { result ≢ Err PlanFault.Memory →
        outcome result ≡ output_candidate items.now (lent_rows partners.now) }
{
    let made = output_row(alloc, items, partners)?;
    let partners = kept_rows(alloc, partners)?;
    Ok(Candidate { partners, made })
}

/// The values of the items over these rows, or the first error of one.
fn output_row(alloc: Global, items: &[Expr], partners: &[&SeenRow]) -> Result<Values, PlanFault>
    ensures { result ≢ Err PlanFault.Memory →
        outcome result ≡ row_put_out items.now (lent_rows partners.now) }
{
    let rows = rows_of(alloc, partners)?;
    let env = Env::new(rows.as_slice(), None);
    output(alloc, items, &env)
}
