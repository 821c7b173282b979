ghost use Rattle.std.specs.Prelude.{◌≡◌, ◌≢◌, Err};
ghost use Rattle.pg_returning.specs.Outcomes.{outcome};
ghost use Rattle.pg_world.specs.Evaluation.{value_of as value_over};

use crate::PlanFault;
use pg_exprs::{Env, Expr, eval};
use pg_values::Value;
use std::alloc::Global;

/// The value of an expression over the rows of its sources, or its error.
pub fn value_of(alloc: Global, expr: &Expr, env: &Env<'_, '_>) -> Result<Value, PlanFault>
    ensures { result ≢ Err PlanFault.Memory → outcome result ≡ value_over expr.now env.now }
{
    Ok(eval(alloc, expr, env)?)
}
