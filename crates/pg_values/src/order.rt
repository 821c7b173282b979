ghost use Rattle.std.specs.Prelude.{◌≡◌};
ghost use Rattle.pg_values.specs.Order.{compare_values};

use crate::value::Value;
use std::cmp::Ordering;

/// How SQL compares two values: `None` where one is NULL, or where their kinds do not compare.
pub fn compare(a: &Value, b: &Value) -> Option<Ordering>
    ensures { result ≡ compare_values a.now b.now }
{
    match (a, b) {
        (Value::Bool(a), Value::Bool(b)) => Some(a.cmp(b)),
        (Value::Int(a), Value::Int(b)) => Some(a.cmp(b)),
        (Value::Int(a), Value::Big(b)) => Some(i64::from(*a).cmp(b)),
        (Value::Big(a), Value::Int(b)) => Some(a.cmp(&i64::from(*b))),
        (Value::Big(a), Value::Big(b)) => Some(a.cmp(b)),
        (Value::Text(a), Value::Text(b)) => Some(a.cmp(b)),
        _ => None,
    }
}
