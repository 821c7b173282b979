//! Values from outside: PostgreSQL's manual, and a server of version 15 that was asked each row.
//!
//! A table writes `5` for an integer, `5b` for a bigint, `'a'` for a text, and an error by its
//! text. It is a text of one row a line: tables of tuples take many times as long to prove.
use super::BinaryOp::{And, Compare, Compute, Concat, IsDistinctFrom, IsNotDistinctFrom, Or};
use super::*;
use pg_values::Value::{Bool, Int, Null};
use pg_values::{Kind, Text, Value};
use std::alloc::{AllocError, Global};

const NO_ROWS: [Option<&[Value]>; 0] = [];

/// The first cell of a row, and the cells behind it.
fn cut(row: &str) -> (&str, &str) {
    row.split_once(" | ").unwrap_or((row, ""))
}

fn text(alloc: Global, letters: &str) -> Result<Value, AllocError> {
    let bytes = letters.as_bytes();
    if bytes.len() > Text::MAX_LEN {
        return Err(AllocError);
    }
    Ok(Value::Text(Text::from_slice(alloc, bytes)?))
}

/// The value that a table writes; what is none ends the test.
fn value(alloc: Global, shown: &str) -> Result<Value, AllocError> {
    if let Some(letters) = shown.strip_prefix("'") {
        return text(alloc, letters.strip_suffix("'").unwrap_or(letters));
    }
    if let Some(digits) = shown.strip_suffix("b") {
        let number = digits.parse::<i64>().map_err(|_| AllocError)?;
        return Ok(Value::Big(number));
    }
    Ok(match shown {
        "null" => Null,
        "true" => Bool(true),
        "false" => Bool(false),
        _ => Int(shown.parse::<i32>().map_err(|_| AllocError)?),
    })
}

/// The result that a table writes.
fn outcome(alloc: Global, shown: &str) -> Result<Result<Value, EvalFault>, AllocError> {
    Ok(match shown {
        "integer out of range" => Err(EvalFault::IntRange),
        "bigint out of range" => Err(EvalFault::BigRange),
        "division by zero" => Err(EvalFault::ZeroDivisor),
        _ => Ok(value(alloc, shown)?),
    })
}

/// The kind that a table writes.
fn kind(shown: &str) -> Result<Option<Kind>, KindFault> {
    match shown {
        "integer" => Ok(Some(Kind::Int)),
        "bigint" => Ok(Some(Kind::Big)),
        "text" => Ok(Some(Kind::Text)),
        "boolean" => Ok(Some(Kind::Bool)),
        _ => Err(KindFault::NoOperator),
    }
}

fn arithmetic(shown: &str) -> Arithmetic {
    match shown {
        "+" => Arithmetic::Add,
        "-" => Arithmetic::Subtract,
        "*" => Arithmetic::Multiply,
        "/" => Arithmetic::Divide,
        _ => Arithmetic::Remainder,
    }
}

fn comparison(shown: &str) -> Option<Comparison> {
    match shown {
        "=" => Some(Comparison::Equal),
        "<>" => Some(Comparison::NotEqual),
        "<" => Some(Comparison::Less),
        "<=" => Some(Comparison::LessOrEqual),
        ">" => Some(Comparison::Greater),
        ">=" => Some(Comparison::GreaterOrEqual),
        _ => None,
    }
}

/// The operator that is one sign.
fn sign(shown: &str) -> BinaryOp {
    match comparison(shown) {
        Some(comparison) => Compare(comparison),
        None => Compute(arithmetic(shown)),
    }
}

fn operator(shown: &str) -> BinaryOp {
    match shown {
        "or" => Or,
        "and" => And,
        "is distinct from" => IsDistinctFrom,
        "is not distinct from" => IsNotDistinctFrom,
        "||" => Concat,
        _ => sign(shown),
    }
}

fn unary_operator(shown: &str) -> UnaryOp {
    match shown {
        "not" => UnaryOp::Not,
        "is null" => UnaryOp::IsNull,
        "is not null" => UnaryOp::IsNotNull,
        _ => UnaryOp::Negate,
    }
}

fn of_two(alloc: Global, op: BinaryOp, a: Value, b: Value) -> Result<Expr, AllocError> {
    Expr::binary(alloc, op, Expr::literal(a), Expr::literal(b))
}

/// The expression of an operator and two operands that a table writes.
fn written(alloc: Global, a: &str, op: &str, b: &str) -> Result<Expr, AllocError> {
    let left = value(alloc, a)?;
    let right = value(alloc, b)?;
    of_two(alloc, operator(op), left, right)
}

/// The expression of an operator and one operand that a table writes.
fn unary_written(alloc: Global, op: &str, a: &str) -> Result<Expr, AllocError> {
    let operand = value(alloc, a)?;
    Expr::unary(alloc, unary_operator(op), Expr::literal(operand))
}

/// Whether this is the result that a table writes.
fn is_outcome(
    alloc: Global,
    got: Result<Value, EvalFault>,
    shown: &str,
) -> Result<bool, AllocError> {
    let wanted = outcome(alloc, shown)?;
    let is_same = got == wanted;
    drop(got);
    drop(wanted);
    Ok(is_same)
}

/// The value of an expression that reads no row.
fn value_of(alloc: Global, expr: &Expr) -> Result<Value, EvalFault> {
    let env = Env::new(NO_ROWS.as_slice(), None);
    eval(alloc, expr, &env)
}

/// Whether the expression, which reads no row, has this result.
fn has_outcome(alloc: Global, expr: Expr, wanted: &str) -> Result<bool, AllocError> {
    let got = value_of(alloc, &expr);
    drop(expr);
    is_outcome(alloc, got, wanted)
}

/// Whether `a op b` gives this result.
fn gives(alloc: Global, a: &str, op: &str, b: &str, wanted: &str) -> Result<bool, AllocError> {
    let expr = written(alloc, a, op, b)?;
    has_outcome(alloc, expr, wanted)
}

/// `1 / 0 = 1`
fn failing(alloc: Global) -> Result<Expr, AllocError> {
    let quotient = of_two(alloc, Compute(Arithmetic::Divide), Int(1), Int(0))?;
    Expr::binary(
        alloc,
        Compare(Comparison::Equal),
        quotient,
        Expr::literal(Int(1)),
    )
}

/// Operator; low and high; low and low; high and low; a value and NULL; NULL and NULL.
const COMPARISONS: &str = "\
= | false | true | false | null | null
<> | true | false | true | null | null
< | true | false | false | null | null
<= | true | true | false | null | null
> | false | false | true | null | null
>= | false | true | true | null | null
is distinct from | true | false | true | true | false
is not distinct from | false | true | false | false | true
";

/// A low value and a higher one.
const PAIRS: &str = "\
false | true
-1 | 0
2147483647 | 2147483648b
-2147483649b | -2147483648
-9223372036854775808b | 9223372036854775807b
'Z' | 'a'
'' | ' '
";

/// Whether the operator of a row of `COMPARISONS` compares the two values as the row says.
fn compares(alloc: Global, row: &str, low: &str, high: &str) -> Result<bool, AllocError> {
    let (op, rest) = cut(row);
    let (below, rest) = cut(rest);
    let (same, rest) = cut(rest);
    let (above, _) = cut(rest);
    Ok(
        gives(alloc, low, op, high, below)?
            && gives(alloc, low, op, low, same)?
            && gives(alloc, high, op, low, above)?,
    )
}

/// What a row of `COMPARISONS` says of a value and NULL, and of NULL and NULL.
fn cells_of_null(row: &str) -> (&str, &str) {
    let (_, rest) = cut(row);
    let (_, rest) = cut(rest);
    let (_, rest) = cut(rest);
    let (_, rest) = cut(rest);
    cut(rest)
}

/// Whether the operator of a row of `COMPARISONS` takes NULL beside each value as the row says.
fn takes_null(alloc: Global, row: &str, low: &str, high: &str) -> Result<bool, AllocError> {
    let (op, _) = cut(row);
    let (with_null, _) = cells_of_null(row);
    Ok(gives(alloc, low, op, "null", with_null)? && gives(alloc, "null", op, high, with_null)?)
}

/// Whether the operator of a row of `COMPARISONS` takes two NULLs as the row says.
fn takes_nulls(alloc: Global, row: &str) -> Result<bool, AllocError> {
    let (op, _) = cut(row);
    let (_, of_nulls) = cells_of_null(row);
    gives(alloc, "null", op, "null", of_nulls)
}

fn pair_holds(alloc: Global, row: &str, pair: &str) -> Result<bool, AllocError> {
    let (low, high) = cut(pair);
    Ok(compares(alloc, row, low, high)? && takes_null(alloc, row, low, high)?)
}

/// The first of `PAIRS` at which a row of `COMPARISONS` is wrong, or nothing.
fn wrong_pair(alloc: Global, row: &str) -> Result<&'static str, AllocError> {
    for pair in PAIRS.lines() {
        if !pair_holds(alloc, row, pair)? {
            return Ok(pair);
        }
    }
    Ok("")
}

#[test]
fn compares_values_of_each_kind(rt: HostRuntime) -> Result<(), AllocError> {
    let alloc = rt.alloc();
    for row in COMPARISONS.lines() {
        assert_eq!(rt; wrong_pair(alloc, row)?, "", "{row}");
        assert!(rt; takes_nulls(alloc, row)?, "{row}");
    }
    Ok(())
}

/// Operand, operator, operand, result.
const OPERATIONS: &str = "\
2 | + | 3 | 5
1 | + | 1b | 2b
null | + | 1 | null
2 | - | 5 | -3
65536 | * | 32768 | integer out of range
-9223372036854775808b | * | -1 | bigint out of range
-7 | / | 2 | -3
-7 | % | 2 | -1
1b | % | 0 | division by zero
'a' | || | 'b' | 'ab'
'' | || | null | null
null | || | null | null
true | and | true | true
true | and | false | false
true | and | null | null
false | and | true | false
false | and | false | false
false | and | null | false
null | and | true | null
null | and | false | false
null | and | null | null
true | or | true | true
true | or | false | true
true | or | null | true
false | or | true | true
false | or | false | false
false | or | null | null
null | or | true | true
null | or | false | null
null | or | null | null
";

/// Whether a row of operand, operator, operand and result is right.
fn operation_holds(alloc: Global, row: &str) -> Result<bool, AllocError> {
    let (a, rest) = cut(row);
    let (op, rest) = cut(rest);
    let (b, wanted) = cut(rest);
    gives(alloc, a, op, b, wanted)
}

#[test]
fn evaluates_operators(rt: HostRuntime) -> Result<(), AllocError> {
    let alloc = rt.alloc();
    for row in OPERATIONS.lines() {
        assert!(rt; operation_holds(alloc, row)?, "{row}");
    }
    Ok(())
}

#[test]
fn refuses_a_text_that_is_too_long(rt: HostRuntime) -> Result<(), AllocError> {
    let alloc = rt.alloc();
    let longest = Value::Text(Text::from_slice(alloc, [b'x'; 4096].as_slice())?);
    let longer = of_two(alloc, Concat, longest, text(alloc, "x")?)?;
    let got = value_of(alloc, &longer);
    drop(longer);
    assert_eq!(rt; got, Err(EvalFault::TooLong));
    Ok(())
}

/// Operator, operand, result.
const UNARY_OPERATIONS: &str = "\
not | true | false
not | false | true
not | null | null
is null | null | true
is null | 0 | false
is null | false | false
is null | '' | false
is not null | null | false
is not null | 0b | true
- | 5 | -5
- | null | null
- | -2147483648 | integer out of range
";

/// Whether a row of operator, operand and result is right.
fn unary_operation_holds(alloc: Global, row: &str) -> Result<bool, AllocError> {
    let (op, rest) = cut(row);
    let (a, wanted) = cut(rest);
    let expr = unary_written(alloc, op, a)?;
    has_outcome(alloc, expr, wanted)
}

#[test]
fn evaluates_unary_operators(rt: HostRuntime) -> Result<(), AllocError> {
    let alloc = rt.alloc();
    for row in UNARY_OPERATIONS.lines() {
        assert!(rt; unary_operation_holds(alloc, row)?, "{row}");
    }
    Ok(())
}

/// Left operand, operator, result beside a right operand that fails.
const DECISIONS: &str = "\
false | and | false
null | and | division by zero
true | or | true
false | or | division by zero
";

/// The expression of a left operand and an operator that a table writes, beside what fails.
fn beside_failing(alloc: Global, left: &str, op: &str) -> Result<Expr, AllocError> {
    let left = value(alloc, left)?;
    let right = failing(alloc)?;
    Expr::binary(alloc, operator(op), Expr::literal(left), right)
}

fn copies(alloc: Global, expr: &Expr) -> Result<bool, AllocError> {
    let copy = expr.copy(alloc)?;
    let is_same = copy.is_same(expr);
    drop(copy);
    Ok(is_same)
}

/// Whether a row has the result right.
fn decision_holds(alloc: Global, row: &str) -> Result<bool, AllocError> {
    let (left, rest) = cut(row);
    let (op, wanted) = cut(rest);
    let expr = beside_failing(alloc, left, op)?;
    has_outcome(alloc, expr, wanted)
}

/// Whether the expression of a row is the same as its copy.
fn copy_holds(alloc: Global, row: &str) -> Result<bool, AllocError> {
    let (left, rest) = cut(row);
    let (op, _) = cut(rest);
    let expr = beside_failing(alloc, left, op)?;
    copies(alloc, &expr)
}

#[test]
fn stops_where_decided(rt: HostRuntime) -> Result<(), AllocError> {
    let alloc = rt.alloc();
    for row in DECISIONS.lines() {
        assert!(rt; decision_holds(alloc, row)?, "{row}");
        assert!(rt; copy_holds(alloc, row)?, "copy: {row}");
    }
    Ok(())
}

/// Whether this is its value where the action is `DELETE`, source 0 has no row, and source 1 has
/// the row of `5` and `'DELETE'`.
fn reads(alloc: Global, expr: Expr, wanted: Value) -> Result<bool, AllocError> {
    let word = Text::from_slice(alloc, b"DELETE".as_slice())?;
    let row = [Int(5), Value::Text(word.copy(alloc)?)];
    let rows = [None, Some(row.as_slice())];
    let env = Env::new(rows.as_slice(), Some(&word));
    let got = eval(alloc, &expr, &env);
    drop(expr);
    let wanted = Ok(wanted);
    Ok(got == wanted)
}

#[test]
fn reads_columns_and_the_action(rt: HostRuntime) -> Result<(), AllocError> {
    let alloc = rt.alloc();
    let is_null = Expr::unary(alloc, UnaryOp::IsNull, Expr::column(0, 0))?;
    assert!(rt; reads(alloc, is_null, Bool(true))?);
    let negated = Expr::unary(alloc, UnaryOp::Negate, Expr::column(1, 0))?;
    assert!(rt; reads(alloc, negated, Int(-5))?);
    let equal = Expr::binary(
        alloc,
        Compare(Comparison::Equal),
        Expr::action(),
        Expr::column(1, 1),
    )?;
    assert!(rt; reads(alloc, equal, Bool(true))?);
    Ok(())
}

#[test]
fn reads_no_action_as_null(rt: HostRuntime) -> Result<(), AllocError> {
    let alloc = rt.alloc();
    let row = [Int(5), text(alloc, "DELETE")?];
    let rows = [None, Some(row.as_slice())];
    let absent = Env::new(rows.as_slice(), None);
    assert_eq!(rt; eval(alloc, &Expr::action(), &absent), Ok(Null));
    Ok(())
}

/// One source with a bigint column and a text column.
fn two_columns(alloc: Global) -> Result<Shape, AllocError> {
    let mut shape = Shape::new(alloc);
    shape.push([Some(Kind::Big), Some(Kind::Text)].to_vec(alloc)?)?;
    Ok(shape)
}

/// Whether the expression has the kind that a table writes.
fn has_kind(expr: Expr, shape: &Shape, shown: &str) -> bool {
    let found = kind_of(&expr, shape);
    drop(expr);
    found == kind(shown)
}

/// Operand, operator, operand, kind.
const KINDS: &str = "\
null | + | null | integer
1 | + | 1b | bigint
1b | / | null | bigint
1 | % | 1 | integer
true | + | 1 | none
1 | - | '1' | none
1 | < | 1b | boolean
null | = | null | boolean
'1' | = | 1 | none
true | > | null | boolean
'' | is distinct from | null | boolean
1 | is distinct from | true | none
true | is not distinct from | 't' | none
null | and | true | boolean
true | and | 't' | none
1 | or | true | none
null | || | null | text
'a' | || | null | text
null | || | 1 | none
";

/// Whether a row of operand, operator, operand and kind is right.
fn kind_holds(alloc: Global, row: &str, shape: &Shape) -> Result<bool, AllocError> {
    let (a, rest) = cut(row);
    let (op, rest) = cut(rest);
    let (b, found) = cut(rest);
    let expr = written(alloc, a, op, b)?;
    Ok(has_kind(expr, shape, found))
}

#[test]
fn finds_kinds(rt: HostRuntime) -> Result<(), AllocError> {
    let alloc = rt.alloc();
    let shape = two_columns(alloc)?;
    for row in KINDS.lines() {
        assert!(rt; kind_holds(alloc, row, &shape)?, "{row}");
    }
    Ok(())
}

/// Operator, operand, kind.
const UNARY_KINDS: &str = "\
not | null | boolean
not | 1 | none
is null | '' | boolean
is not null | null | boolean
- | null | integer
- | 1b | bigint
- | '1' | none
";

/// Whether a row of operator, operand and kind is right.
fn unary_kind_holds(alloc: Global, row: &str, shape: &Shape) -> Result<bool, AllocError> {
    let (op, rest) = cut(row);
    let (a, found) = cut(rest);
    let expr = unary_written(alloc, op, a)?;
    Ok(has_kind(expr, shape, found))
}

#[test]
fn finds_kinds_of_unary_operators(rt: HostRuntime) -> Result<(), AllocError> {
    let alloc = rt.alloc();
    let shape = two_columns(alloc)?;
    for row in UNARY_KINDS.lines() {
        assert!(rt; unary_kind_holds(alloc, row, &shape)?, "{row}");
    }
    Ok(())
}

#[test]
fn finds_kinds_of_parts(rt: HostRuntime) -> Result<(), AllocError> {
    let alloc = rt.alloc();
    let shape = two_columns(alloc)?;
    assert_eq!(rt; kind_of(&Expr::literal(Null), &shape), Ok(None));
    assert_eq!(rt; kind_of(&Expr::column(0, 1), &shape), Ok(Some(Kind::Text)));
    let refused = written(alloc, "true", "+", "1")?;
    let is_null = Expr::unary(alloc, UnaryOp::IsNull, refused)?;
    assert!(rt; has_kind(is_null, &shape, "none"));
    Ok(())
}
