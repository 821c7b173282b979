ghost use Rattle.std.specs.Prelude.{◌≡◌};
ghost use Rattle.pg_exprs.specs.Kinds.{is_boolean, is_number, is_text, are_comparable, number_kind, kind_if, unary_kind as kind_of_unary, binary_kind as kind_of_binary, kind_of as kind_of_tree};

use crate::expr::{Expr, Node};
use crate::operator::{BinaryOp, UnaryOp};
use crate::shape::Shape;
use pg_values::Kind;
use thiserror::Error;

/// Why an expression has no kind.
#[derive(Clone, Copy, Debug, PartialEq, Eq, Error)]
pub enum KindFault {
    /// An operator does not take operands of these kinds.
    #[error("operator does not take these kinds")]
    NoOperator,
}

/// Whether something that takes a boolean takes an operand of this kind: a boolean, or a bare NULL.
pub fn takes_boolean(kind: Option<Kind>) -> bool
    ensures { result ≡ is_boolean kind }
{
    matches!(kind, None | Some(Kind::Bool))
}

fn takes_number(kind: Option<Kind>) -> bool
    ensures { result ≡ is_number kind }
{
    matches!(kind, None | Some(Kind::Int | Kind::Big))
}

fn takes_text(kind: Option<Kind>) -> bool
    ensures { result ≡ is_text kind }
{
    matches!(kind, None | Some(Kind::Text))
}

fn compares(a: Option<Kind>, b: Option<Kind>) -> bool
    ensures { result ≡ are_comparable a b }
{
    (takes_boolean(a) && takes_boolean(b))
        || (takes_number(a) && takes_number(b))
        || (takes_text(a) && takes_text(b))
}

fn of_numbers(a: Option<Kind>, b: Option<Kind>) -> Kind
    ensures { result ≡ number_kind a b }
{
    match (a, b) {
        (Some(Kind::Big), _) | (_, Some(Kind::Big)) => Kind::Big,
        _ => Kind::Int,
    }
}

fn taken(taken: bool, kind: Kind) -> Result<Option<Kind>, KindFault>
    ensures { result ≡ kind_if taken kind }
{
    if taken {
        Ok(Some(kind))
    } else {
        Err(KindFault::NoOperator)
    }
}

/// The kind of an operator over an operand of this kind. `NoOperator` comes exactly where it does
/// not take it.
pub fn unary_kind(op: UnaryOp, a: Option<Kind>) -> Result<Option<Kind>, KindFault>
    ensures { result ≡ kind_of_unary op a }
{
    match op {
        UnaryOp::Not => taken(takes_boolean(a), Kind::Bool),
        UnaryOp::IsNull | UnaryOp::IsNotNull => Ok(Some(Kind::Bool)),
        UnaryOp::Negate => taken(takes_number(a), of_numbers(a, None)),
    }
}

/// The kind of an operator over operands of these kinds. `NoOperator` comes exactly where it does
/// not take them.
pub fn binary_kind(
    op: BinaryOp,
    a: Option<Kind>,
    b: Option<Kind>,
) -> Result<Option<Kind>, KindFault>
    ensures { result ≡ kind_of_binary op a b }
{
    match op {
        BinaryOp::Or | BinaryOp::And => taken(takes_boolean(a) && takes_boolean(b), Kind::Bool),
        BinaryOp::IsDistinctFrom | BinaryOp::IsNotDistinctFrom | BinaryOp::Compare(_) => taken(
            compares(a, b),
            Kind::Bool,
        ),
        BinaryOp::Concat => taken(takes_text(a) && takes_text(b), Kind::Text),
        BinaryOp::Compute(_) => taken(takes_number(a) && takes_number(b), of_numbers(a, b)),
    }
}

/// The kind of an expression, where its columns have the kinds of the shape: `None` for a bare
/// NULL, which is taken as any kind. `NoOperator` comes exactly where an operator does not take its
/// operands.
pub fn kind_of(expr: &Expr, shape: &Shape) -> Result<Option<Kind>, KindFault>
    ensures { result ≡ kind_of_tree expr.now shape.now }
{
    match &expr.node {
        Node::Literal(value) => Ok(value.kind()),
        Node::Column(source, column) => Ok(shape.column(*source, *column)),
        Node::Action => Ok(Some(Kind::Text)),
        Node::Unary(op, operand) => unary_kind(*op, kind_of(operand, shape)?),
        Node::Binary(op, left, right) => {
            let left = kind_of(left, shape)?;
            let right = kind_of(right, shape)?;
            binary_kind(*op, left, right)
        }
    }
}
