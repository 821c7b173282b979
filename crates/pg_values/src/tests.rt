//! Values from outside: PostgreSQL's manual, and a server of version 15 that was asked each row.
//!
//! A table writes `5` for an integer, `5b` for a bigint, `'a'` for a text, and an error by its
//! text. It is a text of one row a line: tables of tuples take many times as long to prove.
use super::*;
use std::alloc::{AllocError, Global};
use std::cmp::Ordering;

/// The first cell of a row, and the cells behind it.
fn cut(row: &str) -> (&str, &str) {
    row.split_once(" | ").unwrap_or((row, ""))
}

fn text(alloc: Global, letters: &str) -> Result<Value, AllocError> {
    let bytes = letters.as_bytes();
    if bytes.len() > Text::MAX_LEN {
        return Err(AllocError);
    }
    Ok(Value::Text(Text::from_slice(alloc, bytes)?))
}

/// The value that a table writes; what is none ends the test.
fn value(alloc: Global, shown: &str) -> Result<Value, AllocError> {
    if let Some(letters) = shown.strip_prefix("'") {
        return text(alloc, letters.strip_suffix("'").unwrap_or(letters));
    }
    if let Some(digits) = shown.strip_suffix("b") {
        let number = digits.parse::<i64>().map_err(|_| AllocError)?;
        return Ok(Value::Big(number));
    }
    Ok(match shown {
        "null" => Value::Null,
        "true" => Value::Bool(true),
        "false" => Value::Bool(false),
        _ => Value::Int(shown.parse::<i32>().map_err(|_| AllocError)?),
    })
}

/// The result that a table writes.
fn outcome(alloc: Global, shown: &str) -> Result<Result<Value, NumberFault>, AllocError> {
    Ok(match shown {
        "integer out of range" => Err(NumberFault::IntRange),
        "bigint out of range" => Err(NumberFault::BigRange),
        "division by zero" => Err(NumberFault::ZeroDivisor),
        _ => Ok(value(alloc, shown)?),
    })
}

/// Whether this is the result that a table writes.
fn is_outcome(
    alloc: Global,
    got: Result<Value, NumberFault>,
    shown: &str,
) -> Result<bool, AllocError> {
    let wanted = outcome(alloc, shown)?;
    let is_same = got == wanted;
    drop(got);
    drop(wanted);
    Ok(is_same)
}

fn divided(op: &str, a: &Value, b: &Value) -> Result<Value, NumberFault> {
    match op {
        "/" => divide(a, b),
        _ => remainder(a, b),
    }
}

fn computed(op: &str, a: &Value, b: &Value) -> Result<Value, NumberFault> {
    match op {
        "+" => add(a, b),
        "-" => subtract(a, b),
        "*" => multiply(a, b),
        _ => divided(op, a, b),
    }
}

/// Whether `a op b` has this result.
fn gives(alloc: Global, a: &str, op: &str, b: &str, wanted: &str) -> Result<bool, AllocError> {
    let left = value(alloc, a)?;
    let right = value(alloc, b)?;
    let got = computed(op, &left, &right);
    drop(left);
    drop(right);
    is_outcome(alloc, got, wanted)
}

/// Operand, operator, operand, result.
const COMPUTATIONS: &str = "\
2147483647 | + | 0 | 2147483647
2147483647 | + | 1 | integer out of range
-2147483648 | + | -1 | integer out of range
-2147483648 | + | 2147483647 | -1
2147483647 | + | 1b | 2147483648b
-1b | + | -2147483648 | -2147483649b
2b | + | -2b | 0b
9223372036854775807b | + | 1 | bigint out of range
-1 | + | -9223372036854775808b | bigint out of range
-9223372036854775808b | + | 9223372036854775807b | -1b
-2147483648 | - | 0 | -2147483648
-2147483648 | - | 1 | integer out of range
0 | - | -2147483648 | integer out of range
-1 | - | -2147483648 | 2147483647
3 | - | 5b | -2b
0b | - | -2147483648 | 2147483648b
-9223372036854775808b | - | 1b | bigint out of range
0 | - | -9223372036854775808b | bigint out of range
-1b | - | -9223372036854775808b | 9223372036854775807b
46341 | * | 46340 | 2147441940
46341 | * | 46341 | integer out of range
65536 | * | -32768 | -2147483648
-2147483648 | * | -1 | integer out of range
-2147483648 | * | 0 | 0
46341 | * | 46341b | 2147488281b
-1b | * | -2147483648 | 2147483648b
4294967296b | * | 2147483648b | bigint out of range
-4294967296b | * | 2147483648b | -9223372036854775808b
-9223372036854775808b | * | -1 | bigint out of range
0 | * | -9223372036854775808b | 0b
";

/// Whether a row of operand, operator, operand and result is right.
fn computation_holds(alloc: Global, row: &str) -> Result<bool, AllocError> {
    let (a, rest) = cut(row);
    let (op, rest) = cut(rest);
    let (b, wanted) = cut(rest);
    gives(alloc, a, op, b, wanted)
}

#[test]
fn computes(rt: HostRuntime) -> Result<(), AllocError> {
    let alloc = rt.alloc();
    for row in COMPUTATIONS.lines() {
        assert!(rt; computation_holds(alloc, row)?, "{row}");
    }
    Ok(())
}

/// Dividend, divisor, quotient, remainder.
const DIVISIONS: &str = "\
7 | 2 | 3 | 1
-7 | 2 | -3 | -1
7 | -2b | -3b | 1b
-7b | -2b | 3b | -1b
-1 | 2 | 0 | -1
0 | -2147483648 | 0 | 0
-2147483648 | 1 | -2147483648 | 0
-2147483648 | -1 | integer out of range | 0
-2147483648 | -1b | 2147483648b | 0b
-9223372036854775808b | 1 | -9223372036854775808b | 0b
-9223372036854775808b | -1 | bigint out of range | 0b
-9223372036854775808b | -1b | bigint out of range | 0b
9223372036854775807b | -9223372036854775808b | 0b | 9223372036854775807b
-9223372036854775808b | 9223372036854775807b | -1b | -1b
1 | 0 | division by zero | division by zero
0 | 0b | division by zero | division by zero
-9223372036854775808b | 0 | division by zero | division by zero
1b | 0b | division by zero | division by zero
";

/// Whether a row has the quotient and the remainder right.
fn division_holds(alloc: Global, row: &str) -> Result<bool, AllocError> {
    let (a, rest) = cut(row);
    let (b, rest) = cut(rest);
    let (quotient, remainder) = cut(rest);
    Ok(gives(alloc, a, "/", b, quotient)? && gives(alloc, a, "%", b, remainder)?)
}

#[test]
fn divides(rt: HostRuntime) -> Result<(), AllocError> {
    let alloc = rt.alloc();
    for row in DIVISIONS.lines() {
        assert!(rt; division_holds(alloc, row)?, "{row}");
    }
    Ok(())
}

/// Operand, negated operand.
const NEGATIONS: &str = "\
5 | -5
0 | 0
2147483647 | -2147483647
-2147483648 | integer out of range
2147483648b | -2147483648b
-2147483648b | 2147483648b
-9223372036854775808b | bigint out of range
null | null
";

/// Whether a row has the negated operand right.
fn negation_holds(alloc: Global, row: &str) -> Result<bool, AllocError> {
    let (a, negated) = cut(row);
    let operand = value(alloc, a)?;
    let got = negate(&operand);
    drop(operand);
    is_outcome(alloc, got, negated)
}

#[test]
fn negates(rt: HostRuntime) -> Result<(), AllocError> {
    let alloc = rt.alloc();
    for row in NEGATIONS.lines() {
        assert!(rt; negation_holds(alloc, row)?, "- {row}");
    }
    Ok(())
}

/// Operand, operator, operand, result.
const COMPUTATIONS_WITH_NULL: &str = "\
null | + | 0 | null
null | - | 0 | null
null | * | 0 | null
null | / | 0 | null
null | % | 0 | null
-2147483648 | + | null | null
-2147483648 | - | null | null
-2147483648 | * | null | null
-2147483648 | / | null | null
-2147483648 | % | null | null
null | + | 0b | null
null | - | 0b | null
null | * | 0b | null
null | / | 0b | null
null | % | 0b | null
9223372036854775807b | + | null | null
9223372036854775807b | - | null | null
9223372036854775807b | * | null | null
9223372036854775807b | / | null | null
9223372036854775807b | % | null | null
null | + | null | null
null | - | null | null
null | * | null | null
null | / | null | null
null | % | null | null
";

#[test]
fn takes_nulls(rt: HostRuntime) -> Result<(), AllocError> {
    let alloc = rt.alloc();
    for row in COMPUTATIONS_WITH_NULL.lines() {
        assert!(rt; computation_holds(alloc, row)?, "{row}");
    }
    Ok(())
}

/// The order that a table writes.
fn order(shown: &str) -> Option<Ordering> {
    match shown {
        "<" => Some(Ordering::Less),
        "=" => Some(Ordering::Equal),
        ">" => Some(Ordering::Greater),
        _ => None,
    }
}

/// Operand, order, operand.
const ORDERS: &str = "\
false | < | true
true | = | true
-2147483648 | < | 2147483647
0 | > | -1
2147483648b | > | -1
-2147483648 | > | -2147483649b
2147483647 | = | 2147483647b
-9223372036854775808b | < | 9223372036854775807b
'a' | < | 'ab'
'Z' | < | 'a'
'a ' | > | 'a'
'10' | < | '9'
'~' | > | ' ~'
'' | = | ''
null | null | null
null | null | false
1 | null | null
null | null | 1b
'' | null | null
";

/// Whether a row has the order of its operands right.
fn order_holds(alloc: Global, row: &str) -> Result<bool, AllocError> {
    let (a, rest) = cut(row);
    let (wanted, b) = cut(rest);
    let left = value(alloc, a)?;
    let right = value(alloc, b)?;
    let got = compare(&left, &right);
    drop(left);
    drop(right);
    Ok(got == order(wanted))
}

#[test]
fn compares(rt: HostRuntime) -> Result<(), AllocError> {
    let alloc = rt.alloc();
    for row in ORDERS.lines() {
        assert!(rt; order_holds(alloc, row)?, "{row}");
    }
    Ok(())
}

/// The truth that a table writes.
fn truth(shown: &str) -> Option<bool> {
    match shown {
        "true" => Some(true),
        "false" => Some(false),
        _ => None,
    }
}

/// Operand, operand, both, either.
const TRUTHS: &str = "\
true | true | true | true
true | false | false | true
false | false | false | false
true | null | null | true
false | null | false | null
null | null | null | null
";

/// Whether a row has AND and OR of its operands right, in either order.
fn truths_hold(row: &str) -> bool {
    let (a, rest) = cut(row);
    let (b, rest) = cut(rest);
    let (both, either) = cut(rest);
    let (a, b) = (truth(a), truth(b));
    let (both, either) = (truth(both), truth(either));
    and(a, b) == both && and(b, a) == both && or(a, b) == either && or(b, a) == either
}

#[test]
fn combines_truths(rt: HostRuntime) {
    for row in TRUTHS.lines() {
        assert!(rt; truths_hold(row), "{row}");
    }
    assert_eq!(rt; not(Some(true)), Some(false));
    assert_eq!(rt; not(Some(false)), Some(true));
    assert_eq!(rt; not(None), None);
}

/// Whether the operands, one behind the other, are this.
fn joins(alloc: Global, left: Value, right: Value, wanted: Result<Value, TextFault>) -> bool {
    let got = concat(alloc, &left, &right);
    drop(left);
    drop(right);
    let is_same = got == wanted;
    drop(got);
    drop(wanted);
    is_same
}

/// Operand, operand, the two as one.
const CONCATENATIONS: &str = "\
'ab' | 'c' | 'abc'
'' | ' ' | ' '
'' | '' | ''
'ab' | null | null
null | '' | null
null | null | null
";

/// Whether a row has its operands as one right.
fn concatenation_holds(alloc: Global, row: &str) -> Result<bool, AllocError> {
    let (a, rest) = cut(row);
    let (b, whole) = cut(rest);
    let left = value(alloc, a)?;
    let right = value(alloc, b)?;
    let wanted = value(alloc, whole)?;
    Ok(joins(alloc, left, right, Ok(wanted)))
}

#[test]
fn concatenates(rt: HostRuntime) -> Result<(), AllocError> {
    let alloc = rt.alloc();
    for row in CONCATENATIONS.lines() {
        assert!(rt; concatenation_holds(alloc, row)?, "{row}");
    }
    Ok(())
}

/// A text of so many letters, at most 4,096.
fn letters(alloc: Global, count: usize) -> Result<Value, AllocError> {
    let bytes = [b'x'; 4096];
    let (front, _) = bytes.split_at(count.min(4096));
    Ok(Value::Text(Text::from_slice(alloc, front)?))
}

/// The text of as many letters as a table writes.
fn counted_letters(alloc: Global, shown: &str) -> Result<Value, AllocError> {
    letters(alloc, shown.parse::<usize>().map_err(|_| AllocError)?)
}

/// The longest text where it is taken, else the refusal.
fn longest(alloc: Global, is_taken: bool) -> Result<Result<Value, TextFault>, AllocError> {
    if is_taken {
        Ok(Ok(letters(alloc, 4096)?))
    } else {
        Ok(Err(TextFault::TooLong))
    }
}

/// Letters, letters, whether the text of both is taken.
const LENGTHS: &str = "\
4095 | 1 | true
1 | 4095 | true
4096 | 0 | true
4096 | 1 | false
1 | 4096 | false
4096 | 4096 | false
";

/// Whether a row says rightly which texts are taken.
fn length_holds(alloc: Global, row: &str) -> Result<bool, AllocError> {
    let (a, rest) = cut(row);
    let (b, is_taken) = cut(rest);
    let left = counted_letters(alloc, a)?;
    let right = counted_letters(alloc, b)?;
    let wanted = longest(alloc, is_taken == "true")?;
    Ok(joins(alloc, left, right, wanted))
}

#[test]
fn limits_texts(rt: HostRuntime) -> Result<(), AllocError> {
    let alloc = rt.alloc();
    for row in LENGTHS.lines() {
        assert!(rt; length_holds(alloc, row)?, "{row}");
    }
    let long = letters(alloc, 4096)?;
    assert!(rt; joins(alloc, Value::Null, long, Ok(Value::Null)));
    Ok(())
}

/// The kind that a table writes.
fn kind(shown: &str) -> Kind {
    match shown {
        "integer" => Kind::Int,
        "bigint" => Kind::Big,
        "text" => Kind::Text,
        _ => Kind::Bool,
    }
}

/// Value, kind, fitted value.
const FITTINGS: &str = "\
-2147483648 | integer | -2147483648
-2147483648 | bigint | -2147483648b
2147483647b | integer | 2147483647
-2147483648b | integer | -2147483648
2147483648b | integer | integer out of range
-2147483649b | integer | integer out of range
-9223372036854775808b | integer | integer out of range
9223372036854775807b | bigint | 9223372036854775807b
null | text | null
null | integer | null
true | boolean | true
'' | text | ''
";

/// Whether a row has the fitted value right.
fn fitting_holds(alloc: Global, row: &str) -> Result<bool, AllocError> {
    let (given, rest) = cut(row);
    let (shown, fitted) = cut(rest);
    let got = fit(value(alloc, given)?, kind(shown));
    is_outcome(alloc, got, fitted)
}

#[test]
fn fits(rt: HostRuntime) -> Result<(), AllocError> {
    let alloc = rt.alloc();
    for row in FITTINGS.lines() {
        assert!(rt; fitting_holds(alloc, row)?, "{row}");
    }
    Ok(())
}
