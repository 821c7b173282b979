ghost use Rattle.std.specs.Prelude.{◌≡◌, ◌≢◌, Err, Ok};
ghost use Rattle.pg_returning.specs.Outcomes.{outcome};
ghost use Rattle.pg_world.specs.Candidates.{fitted_for as value_fitted_for};
ghost use Rattle.pg_world.specs.Evaluation.{fitted_value as value_fitted};

use pg_model::Column;
use pg_returning::PlanFault;
use pg_values::{Kind, Value, fit};

/// The value as a column of that kind stores it, or the error of a number that does not fit.
pub(crate) fn fitted_value(value: Value, kind: Kind) -> Result<Value, PlanFault>
    ensures memory { result ≢ Err PlanFault.Memory }
    ensures value { outcome result ≡ value_fitted kind value }
{
    Ok(fit(value, kind)?)
}

/// The value as the column of that number stores it, or the error of a number that does not fit.
pub fn fitted_for(columns: &[Column], number: u32, value: Value) -> Result<Value, PlanFault>
    ensures memory { result ≢ Err PlanFault.Memory }
    ensures value { outcome result ≡ value_fitted_for columns.now number (Ok value) }
{
    match columns.get(number as usize) {
        Some(column) => fitted_value(value, column.kind),
        None => Ok(value),
    }
}
