ghost use Rattle.std.specs.Prelude.{◌≡◌, ℤ, Option, MatchOption};
ghost use Rattle.pg_values.specs.Number.{on_numbers, add_values, subtract_values, multiply_values, divide_values, remainder_values, negate_value};
ghost use Rattle.pg_values.specs.Operands.{on_operands};

use crate::value::Value;
use thiserror::Error;

/// Why arithmetic on numbers has no result.
#[derive(Clone, Copy, Debug, PartialEq, Eq, Error)]
pub enum NumberFault {
    /// 32 bits do not hold the result.
    #[error("integer out of range")]
    IntRange,
    /// 64 bits do not hold the result.
    #[error("bigint out of range")]
    BigRange,
    #[error("division by zero")]
    ZeroDivisor,
}

/// Two operands, both of the kind that the result has.
enum Operands {
    Int(i32, i32),
    Big(i64, i64),
    Null,
}

fn of_one_kind(a: &Value, b: &Value) -> Operands
    ensures { (op : ℤ → ℤ → Option ℤ) → on_numbers op a.now b.now ≡ on_operands op result }
{
    match (a, b) {
        (Value::Int(a), Value::Int(b)) => Operands::Int(*a, *b),
        (Value::Int(a), Value::Big(b)) => Operands::Big(i64::from(*a), *b),
        (Value::Big(a), Value::Int(b)) => Operands::Big(*a, i64::from(*b)),
        (Value::Big(a), Value::Big(b)) => Operands::Big(*a, *b),
        _ => Operands::Null,
    }
}

fn int_value(number: Option<i32>) -> Result<Value, NumberFault>
    ensures { MatchOption number (result ≡ Err NumberFault.IntRange)
        (λ n. result ≡ Ok (Value.Int n)) }
{
    Ok(Value::Int(number.ok_or(NumberFault::IntRange)?))
}

fn big_value(number: Option<i64>) -> Result<Value, NumberFault>
    ensures { MatchOption number (result ≡ Err NumberFault.BigRange)
        (λ n. result ≡ Ok (Value.Big n)) }
{
    Ok(Value::Big(number.ok_or(NumberFault::BigRange)?))
}

/// `a + b`.
pub fn add(a: &Value, b: &Value) -> Result<Value, NumberFault>
    ensures { result ≡ add_values a.now b.now }
{
    match of_one_kind(a, b) {
        Operands::Int(a, b) => int_value(a.checked_add(b)),
        Operands::Big(a, b) => big_value(a.checked_add(b)),
        Operands::Null => Ok(Value::Null),
    }
}

/// `a - b`.
pub fn subtract(a: &Value, b: &Value) -> Result<Value, NumberFault>
    ensures { result ≡ subtract_values a.now b.now }
{
    match of_one_kind(a, b) {
        Operands::Int(a, b) => int_value(a.checked_sub(b)),
        Operands::Big(a, b) => big_value(a.checked_sub(b)),
        Operands::Null => Ok(Value::Null),
    }
}

/// `a * b`.
pub fn multiply(a: &Value, b: &Value) -> Result<Value, NumberFault>
    ensures { result ≡ multiply_values a.now b.now }
{
    match of_one_kind(a, b) {
        Operands::Int(a, b) => int_value(a.checked_mul(b)),
        Operands::Big(a, b) => big_value(a.checked_mul(b)),
        Operands::Null => Ok(Value::Null),
    }
}

/// `a / b`, truncated toward zero.
pub fn divide(a: &Value, b: &Value) -> Result<Value, NumberFault>
    ensures { result ≡ divide_values a.now b.now }
{
    match of_one_kind(a, b) {
        Operands::Int(_, 0) | Operands::Big(_, 0) => Err(NumberFault::ZeroDivisor),
        Operands::Int(a, b) => int_value(a.checked_div(b)),
        Operands::Big(a, b) => big_value(a.checked_div(b)),
        Operands::Null => Ok(Value::Null),
    }
}

/// `a % b`, with the dividend's sign.
pub fn remainder(a: &Value, b: &Value) -> Result<Value, NumberFault>
    ensures { result ≡ remainder_values a.now b.now }
{
    match of_one_kind(a, b) {
        Operands::Int(_, 0) | Operands::Big(_, 0) => Err(NumberFault::ZeroDivisor),
        Operands::Int(a, b) => Ok(Value::Int(a.wrapping_rem(b))),
        Operands::Big(a, b) => Ok(Value::Big(a.wrapping_rem(b))),
        Operands::Null => Ok(Value::Null),
    }
}

/// `- a`.
pub fn negate(a: &Value) -> Result<Value, NumberFault>
    ensures { result ≡ negate_value a.now }
{
    match a {
        Value::Int(a) => int_value(a.checked_neg()),
        Value::Big(a) => big_value(a.checked_neg()),
        _ => Ok(Value::Null),
    }
}
