ghost use Rattle.std.specs.Prelude.{◌≡◌, ◌≢◌};
ghost use Rattle.pg_values.specs.Concat.{concat_values};

use crate::text::Text;
use crate::value::Value;
use std::alloc::Global;
use thiserror::Error;

/// Why a concatenation has no result.
#[derive(Clone, Copy, Debug, PartialEq, Eq, Error)]
pub enum TextFault {
    #[error("text longer than 4096 bytes")]
    TooLong,
    #[error("out of memory")]
    Memory,
}

/// `a || b`. Unless memory is refused, the result is the definition's.
pub fn concat(alloc: Global, a: &Value, b: &Value) -> Result<Value, TextFault>
    ensures { result ≢ Err TextFault.Memory → result ≡ concat_values a.now b.now }
{
    match (a, b) {
        (Value::Text(a), Value::Text(b)) => {
            if Text::MAX_LEN - a.len() < b.len() {
                return Err(TextFault::TooLong);
            }
            let text = a.followed_by(alloc, b).map_err(|_| TextFault::Memory)?;
            Ok(Value::Text(text))
        }
        _ => Ok(Value::Null),
    }
}
