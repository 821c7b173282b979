ghost use Rattle.std.specs.Prelude.{◌≡◌, ◌≢◌, IfOk};
ghost use Rattle.pg_exprs.specs.Evaluation.{arithmetic_value, comparison_value, are_distinct, unary_value, binary_value, decides, eval as eval_of, is_null, truth_of, truth_value};
ghost use Rattle.pg_exprs.specs.Operand.{operand_outcome};

use crate::environment::Env;
use crate::expr::{Expr, Node};
use crate::operator::{Arithmetic, BinaryOp, Comparison, UnaryOp};
use pg_values::{
    NumberFault, TextFault, Value, add, and, compare, concat, copy_value, divide, multiply, negate,
    not, or, remainder, subtract,
};
use std::alloc::{AllocError, Global};
use std::cmp::Ordering;
use thiserror::Error;

/// Why an expression has no value.
#[derive(Clone, Copy, Debug, PartialEq, Eq, Error)]
pub enum EvalFault {
    #[error("integer out of range")]
    IntRange,
    #[error("bigint out of range")]
    BigRange,
    #[error("division by zero")]
    ZeroDivisor,
    #[error("text longer than 4096 bytes")]
    TooLong,
    #[error("out of memory")]
    Memory,
}

impl From<NumberFault> for EvalFault {
    ghost use Rattle.std.specs.Prelude.{◌≡◌};
    ghost use Rattle.pg_exprs.specs.Evaluation.{number_cause};

    ghost from_gives = { λ fault cause. cause ≡ number_cause fault };

    fn from(fault: NumberFault) -> EvalFault {
        match fault {
            NumberFault::IntRange => EvalFault::IntRange,
            NumberFault::BigRange => EvalFault::BigRange,
            NumberFault::ZeroDivisor => EvalFault::ZeroDivisor,
        }
    }
}

impl From<TextFault> for EvalFault {
    ghost use Rattle.std.specs.Prelude.{◌≡◌};
    ghost use Rattle.pg_exprs.specs.Evaluation.{text_cause};

    ghost from_gives = { λ fault cause. cause ≡ text_cause fault };

    fn from(fault: TextFault) -> EvalFault {
        match fault {
            TextFault::TooLong => EvalFault::TooLong,
            TextFault::Memory => EvalFault::Memory,
        }
    }
}

impl From<AllocError> for EvalFault {
    ghost use Rattle.std.specs.Prelude.{◌≡◌};
    ghost use Rattle.pg_exprs.specs.declared.evaluate.EvalFault.TheVariants.{Memory};

    ghost from_gives = { λ _ cause. cause ≡ Memory };

    fn from(_refused: AllocError) -> EvalFault {
        EvalFault::Memory
    }
}

/// A value of the expression or of a row, or one that the evaluation made.
#[derive(Drop)]
enum Operand<'expr, 'values> {
    Literal(&'expr Value),
    Column(&'values Value),
    Made(Value),
}

impl Operand<'_, '_> {
    ghost use Rattle.pg_exprs.specs.Operand.{operand_value};

    fn value(&self) -> &Value
        ensures { result.now ≡ operand_value self.now }
    {
        match self {
            Operand::Literal(value) => value,
            Operand::Column(value) => value,
            Operand::Made(value) => value,
        }
    }

    fn into_value(self, alloc: Global) -> Result<Value, AllocError>
        ensures { IfOk result (λ value. value ≡ operand_value self.entry) }
    {
        match self {
            Operand::Literal(value) => copy_value(alloc, value),
            Operand::Column(value) => copy_value(alloc, value),
            Operand::Made(value) => Ok(value),
        }
    }
}

fn truth(value: &Value) -> Option<bool>
    ensures { result ≡ truth_of value.now }
{
    match value {
        Value::Bool(truth) => Some(*truth),
        _ => None,
    }
}

fn from_truth(truth: Option<bool>) -> Value
    ensures { result ≡ truth_value truth }
{
    match truth {
        Some(truth) => Value::Bool(truth),
        None => Value::Null,
    }
}

fn is_null_value(value: &Value) -> bool
    ensures { result ≡ is_null value.now }
{
    matches!(value, Value::Null)
}

fn is_distinct(a: &Value, b: &Value) -> bool
    ensures { result ≡ are_distinct a.now b.now }
{
    match (a, b) {
        (Value::Null, Value::Null) => false,
        _ => compare(a, b) != Some(Ordering::Equal),
    }
}

fn compared(op: Comparison, order: Option<Ordering>) -> Value
    ensures { result ≡ comparison_value op order }
{
    let Some(order) = order else {
        return Value::Null;
    };
    Value::Bool(match op {
        Comparison::Equal => order.is_eq(),
        Comparison::NotEqual => order.is_ne(),
        Comparison::Less => order.is_lt(),
        Comparison::LessOrEqual => order.is_le(),
        Comparison::Greater => order.is_gt(),
        Comparison::GreaterOrEqual => order.is_ge(),
    })
}

fn computed(op: Arithmetic, a: &Value, b: &Value) -> Result<Value, NumberFault>
    ensures { result ≡ arithmetic_value op a.now b.now }
{
    match op {
        Arithmetic::Add => add(a, b),
        Arithmetic::Subtract => subtract(a, b),
        Arithmetic::Multiply => multiply(a, b),
        Arithmetic::Divide => divide(a, b),
        Arithmetic::Remainder => remainder(a, b),
    }
}

fn unary(op: UnaryOp, a: &Value) -> Result<Value, EvalFault>
    ensures { result ≡ unary_value op a.now }
{
    match op {
        UnaryOp::Not => Ok(from_truth(not(truth(a)))),
        UnaryOp::IsNull => Ok(Value::Bool(is_null_value(a))),
        UnaryOp::IsNotNull => Ok(Value::Bool(!is_null_value(a))),
        UnaryOp::Negate => Ok(negate(a)?),
    }
}

fn binary(alloc: Global, op: BinaryOp, a: &Value, b: &Value) -> Result<Value, EvalFault>
    ensures { result ≢ Err EvalFault.Memory → result ≡ binary_value op a.now b.now }
{
    match op {
        BinaryOp::Or => Ok(from_truth(or(truth(a), truth(b)))),
        BinaryOp::And => Ok(from_truth(and(truth(a), truth(b)))),
        BinaryOp::IsDistinctFrom => Ok(Value::Bool(is_distinct(a, b))),
        BinaryOp::IsNotDistinctFrom => Ok(Value::Bool(!is_distinct(a, b))),
        BinaryOp::Compare(op) => Ok(compared(op, compare(a, b))),
        BinaryOp::Concat => Ok(concat(alloc, a, b)?),
        BinaryOp::Compute(op) => Ok(computed(op, a, b)?),
    }
}

fn is_decided(op: BinaryOp, left: &Value) -> bool
    ensures { result ≡ decides op left.now }
{
    match (op, left) {
        (BinaryOp::And, Value::Bool(false)) => true,
        (BinaryOp::Or, Value::Bool(true)) => true,
        _ => false,
    }
}

fn evaluate<'expr, 'values>(
    alloc: Global,
    expr: &'expr Expr,
    env: &Env<'_, 'values>,
) -> Result<Operand<'expr, 'values>, EvalFault>
    ensures { result ≢ Err EvalFault.Memory → operand_outcome result ≡ eval_of expr.now env.now }
{
    match &expr.node {
        Node::Literal(value) => Ok(Operand::Literal(value)),
        Node::Column(source, column) => match env.column(*source, *column) {
            Some(value) => Ok(Operand::Column(value)),
            None => Ok(Operand::Made(Value::Null)),
        },
        Node::Action => match env.action() {
            Some(text) => Ok(Operand::Made(Value::Text(text.copy(alloc)?))),
            None => Ok(Operand::Made(Value::Null)),
        },
        Node::Unary(op, operand) => {
            let operand = evaluate(alloc, operand, env)?;
            Ok(Operand::Made(unary(*op, operand.value())?))
        }
        Node::Binary(op, left, right) => {
            let left = evaluate(alloc, left, env)?;
            if is_decided(*op, left.value()) {
                return Ok(left);
            }
            let right = evaluate(alloc, right, env)?;
            Ok(Operand::Made(binary(alloc, *op, left.value(), right.value())?))
        }
    }
}

/// The value of an expression. Unless memory is refused, it is the definition's value, or its first
/// error: operands come from left to right, and the right side of an AND or OR only where the left
/// does not decide.
pub fn eval(alloc: Global, expr: &Expr, env: &Env<'_, '_>) -> Result<Value, EvalFault>
    ensures { result ≢ Err EvalFault.Memory → result ≡ eval_of expr.now env.now }
{
    Ok(evaluate(alloc, expr, env)?.into_value(alloc)?)
}
