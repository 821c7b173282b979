ghost use Rattle.std.specs.Prelude.{◌≡◌, IfOk};

use crate::text::Text;
use pg_lists::{IsSame, Items, TryCopy};
use std::alloc::{AllocError, Global};

/// The kind of a value other than NULL, or of a column.
#[derive(Clone, Copy, Debug, PartialEq, Eq, PartialOrd, Ord, Hash)]
pub enum Kind {
    Bool,
    /// `integer`: 32 bits.
    Int,
    /// `bigint`: 64 bits.
    Big,
    Text,
}

/// A value of PostgreSQL.
///
/// The derived order is one for sorted keys: NULL before all others, and values of one kind in that
/// kind's order. How SQL compares two values is `compare`.
#[derive(Debug, PartialEq, Eq, PartialOrd, Ord, Hash, Drop)]
pub enum Value {
    Null,
    Bool(bool),
    Int(i32),
    Big(i64),
    Text(Text),
}

/// A list of values, as of a row.
pub type Values = Items<Value>;

impl Value {
    ghost use Rattle.pg_values.specs.Kind.{kind_of_value};

    /// The value's kind: `None` for NULL.
    pub fn kind(&self) -> Option<Kind>
        ensures { result ≡ kind_of_value self.now }
    {
        match self {
            Value::Null => None,
            Value::Bool(_) => Some(Kind::Bool),
            Value::Int(_) => Some(Kind::Int),
            Value::Big(_) => Some(Kind::Big),
            Value::Text(_) => Some(Kind::Text),
        }
    }
}

/// A copy of a value, which takes memory for a text alone.
pub fn copy_value(alloc: Global, value: &Value) -> Result<Value, AllocError>
    ensures { IfOk result (λ copy. copy ≡ value.now) }
{
    let copy = match value {
        Value::Null => Value::Null,
        Value::Bool(truth) => Value::Bool(*truth),
        Value::Int(number) => Value::Int(*number),
        Value::Big(number) => Value::Big(*number),
        Value::Text(text) => Value::Text(text.copy(alloc)?),
    };
    Ok(copy)
}

impl TryCopy for Value {
    fn try_copy(&self, alloc: Global) -> Result<Value, AllocError> {
        copy_value(alloc, self)
    }
}

impl IsSame for Value {
    fn is_same(&self, other: &Value) -> bool {
        self == other
    }
}
