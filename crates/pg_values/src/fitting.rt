ghost use Rattle.std.specs.Prelude.{◌≡◌};
ghost use Rattle.pg_values.specs.Fit.{fit_value};

use crate::number::NumberFault;
use crate::value::{Kind, Value};

/// The value as a column of the kind stores it: an integer widens to bigint, and a bigint narrows
/// to integer, with `IntRange` where 32 bits do not hold it. A value without a form in the kind is
/// NULL.
pub fn fit(value: Value, kind: Kind) -> Result<Value, NumberFault>
    ensures { result ≡ fit_value value kind }
{
    match (value, kind) {
        (Value::Bool(truth), Kind::Bool) => Ok(Value::Bool(truth)),
        (Value::Int(number), Kind::Int) => Ok(Value::Int(number)),
        (Value::Int(number), Kind::Big) => Ok(Value::Big(i64::from(number))),
        (Value::Big(number), Kind::Int) => match i32::try_from(number) {
            Ok(narrow) => Ok(Value::Int(narrow)),
            Err(_) => Err(NumberFault::IntRange),
        },
        (Value::Big(number), Kind::Big) => Ok(Value::Big(number)),
        (Value::Text(text), Kind::Text) => Ok(Value::Text(text)),
        _ => Ok(Value::Null),
    }
}
