ghost use Rattle.std.specs.Prelude.{◌≡◌, ◌≢◌, Err, map};
ghost use Rattle.pg_returning.specs.Outcomes.{outcome};
ghost use Rattle.pg_world.specs.Evaluation.{all_values, value_of as value_over};

use crate::PlanFault;
use crate::evaluation::value_of;
use pg_exprs::{Env, Expr};
use pg_lists::Items;
use pg_values::Values;
use std::alloc::Global;

/// The values of expressions, in the order written, or the first error of one.
#[tactic(auto, using(crate::proofs::Steps::step_value))]
pub fn output(alloc: Global, items: &[Expr], env: &Env<'_, '_>) -> Result<Values, PlanFault>
    ensures { result ≢ Err PlanFault.Memory →
        outcome result ≡ all_values (map (λ item. value_over item env.now) items.now) }
{
    let mut values = Items::new(alloc);
    for item in items {
        values.push(value_of(alloc, item, env)?)?;
    }
    Ok(values)
}
