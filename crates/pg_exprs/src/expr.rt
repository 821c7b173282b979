ghost use Rattle.std.specs.Prelude.{◌≡◌, IfOk, ◌↔◌, IsTrue};
ghost use Rattle.pg_exprs.specs.Tree.{literal, column as column_tree, action, unary, binary};

use crate::operator::{BinaryOp, UnaryOp};
use pg_lists::{IsSame, TryCopy};
use pg_values::{Value, copy_value};
use std::alloc::{AllocError, Global};
use std::marker::Model;

/// An expression, which contracts see as its `Tree`.
#[cycle(expr)]
#[derive(Drop)]
pub struct Expr {
    pub node: Node,
}

/// The outermost part of an expression.
#[cycle(expr)]
#[derive(Drop)]
pub enum Node {
    /// A value.
    Literal(Value),
    /// A source and one of its columns, both counted from 0.
    Column(u32, u32),
    /// `merge_action()`.
    Action,
    /// An operator over its operand.
    Unary(UnaryOp, Box<Expr>),
    /// An operator between its left and its right operand.
    Binary(BinaryOp, Box<Expr>, Box<Expr>),
}

impl Model for Expr {
    ghost use Rattle.pg_exprs.specs.Tree.{Tree, nodes};
    ghost use Rattle.pg_exprs.specs.Code.{coded_tree};

    ghost Value = { Tree };

    ghost coded = { coded_tree };

    ghost use Rattle.pg_exprs.specs.Node.{tree_of};

    ghost view = { λ e. tree_of e.node };

    ghost size = { nodes };
}

impl Expr {
    /// The expression that is this value.
    pub fn literal(value: Value) -> Expr
        ensures { result ≡ literal value }
    {
        Expr {
            node: Node::Literal(value),
        }
    }

    /// The column of a source, both counted from 0.
    pub fn column(source: u32, column: u32) -> Expr
        ensures { result ≡ column_tree source column }
    {
        Expr {
            node: Node::Column(source, column),
        }
    }

    /// `merge_action()`, which tells the action of a MERGE that gave a row.
    pub fn action() -> Expr
        ensures { result ≡ action }
    {
        Expr { node: Node::Action }
    }

    /// The operator over the operand; `AllocError` where there is no room for its node.
    pub fn unary(alloc: Global, op: UnaryOp, operand: Expr) -> Result<Expr, AllocError>
        ensures { IfOk result (λ expr. expr ≡ unary op operand) }
    {
        let operand = Box::new(alloc, operand)?;
        Ok(Expr {
            node: Node::Unary(op, operand),
        })
    }

    /// The operator between the two; `AllocError` where there is no room for their nodes.
    pub fn binary(alloc: Global, op: BinaryOp, left: Expr, right: Expr) -> Result<Expr, AllocError>
        ensures { IfOk result (λ expr. expr ≡ binary op left right) }
    {
        let left = Box::new(alloc, left)?;
        let right = Box::new(alloc, right)?;
        Ok(Expr {
            node: Node::Binary(op, left, right),
        })
    }

    /// A tree of its own, equal to this one; `AllocError` where there is no room for it.
    pub fn copy(&self, alloc: Global) -> Result<Expr, AllocError>
        ensures { IfOk result (λ expr. expr ≡ self.now) }
    {
        match &self.node {
            Node::Literal(value) => Ok(Expr::literal(copy_value(alloc, value)?)),
            Node::Column(source, column) => Ok(Expr::column(*source, *column)),
            Node::Action => Ok(Expr::action()),
            Node::Unary(op, operand) => Expr::unary(alloc, *op, operand.copy(alloc)?),
            Node::Binary(op, left, right) => Expr::binary(
                alloc,
                *op,
                left.copy(alloc)?,
                right.copy(alloc)?,
            ),
        }
    }

    /// Whether the two are one tree.
    pub fn is_same(&self, other: &Expr) -> bool
        ensures { IsTrue result ↔ (self.now ≡ other.now) }
    {
        match (&self.node, &other.node) {
            (Node::Literal(a), Node::Literal(b)) => a == b,
            (Node::Column(s, c), Node::Column(t, d)) => s == t && c == d,
            (Node::Action, Node::Action) => true,
            (Node::Unary(op, a), Node::Unary(other, b)) => op == other && a.is_same(b),
            (Node::Binary(op, a, b), Node::Binary(other, c, d)) => op == other
                && a.is_same(c)
                && b.is_same(d),
            _ => false,
        }
    }
}

impl TryCopy for Expr {
    fn try_copy(&self, alloc: Global) -> Result<Expr, AllocError> {
        self.copy(alloc)
    }
}

impl IsSame for Expr {
    fn is_same(&self, other: &Expr) -> bool {
        Expr::is_same(self, other)
    }
}
