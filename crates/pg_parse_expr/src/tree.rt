ghost use Rattle.std.specs.Prelude.{◌≡◌, ◌<◌, ◌≤◌, IfOk};
ghost use Rattle.pg_parse_expr.specs.Node.{tree_of};
ghost use Rattle.pg_parse_expr.specs.Tree.{height, literal, column as column_tree, column_of as column_of_tree, action, unary, binary};

use pg_exprs::{BinaryOp, UnaryOp};
use pg_lexer::NameText;
use pg_values::Value;
use std::alloc::{AllocError, Global};
use std::marker::Model;

/// An expression as it is written, which contracts see as its `Tree`: at most 64 nodes on a path.
#[cycle(expr_tree)]
#[derive(Drop)]
pub struct ExprTree {
    node: Node,
    height: u32,
}

/// The outermost part of an expression.
#[cycle(expr_tree)]
#[derive(Drop)]
pub enum Node {
    Literal(Value),
    /// A column by its name.
    Column(NameText),
    /// A column by the name of its source and its own.
    ColumnOf(NameText, NameText),
    /// `merge_action()`.
    Action,
    Unary(UnaryOp, Box<ExprTree>),
    Binary(BinaryOp, Box<ExprTree>, Box<ExprTree>),
}

impl Model for ExprTree {
    ghost use Rattle.std.specs.Prelude.{◌≡◌, ◌≤◌};
    ghost use Rattle.pg_parse_expr.specs.Tree.{Tree, height as tree_height, size as tree_size};
    ghost use Rattle.pg_parse_expr.specs.Code.{coded_tree};

    ghost Value = { Tree };

    ghost coded = { coded_tree };

    ghost use Rattle.pg_parse_expr.specs.Node.{tree_of};

    ghost view = { λ e. tree_of e.node };

    ghost invariant = { λ e. (e.height ≡ tree_height (tree_of e.node)) × (e.height ≤ 64) };

    ghost size = { tree_size };
}

impl ExprTree {
    /// The most nodes on a path of a tree.
    pub const MAX_HEIGHT: u32 = 64;

    pub fn literal(value: Value) -> ExprTree
        ensures { result ≡ literal value }
    {
        ExprTree {
            node: Node::Literal(value),
            height: 1,
        }
    }

    pub fn column(name: NameText) -> ExprTree
        ensures { result ≡ column_tree name }
    {
        ExprTree {
            node: Node::Column(name),
            height: 1,
        }
    }

    pub fn column_of(source: NameText, name: NameText) -> ExprTree
        ensures { result ≡ column_of_tree source name }
    {
        ExprTree {
            node: Node::ColumnOf(source, name),
            height: 1,
        }
    }

    pub fn action() -> ExprTree
        ensures { result ≡ action }
    {
        ExprTree {
            node: Node::Action,
            height: 1,
        }
    }

    pub fn unary(alloc: Global, op: UnaryOp, operand: ExprTree) -> Result<ExprTree, AllocError>
        requires { height operand < 64 }
        ensures { IfOk result (λ tree. tree ≡ unary op operand) }
    {
        let height = 1 + operand.height();
        let operand = Box::new(alloc, operand)?;
        Ok(ExprTree {
            node: Node::Unary(op, operand),
            height,
        })
    }

    pub fn binary(
        alloc: Global,
        op: BinaryOp,
        left: ExprTree,
        right: ExprTree,
    ) -> Result<ExprTree, AllocError>
        requires left_fits { height left < 64 }
        requires right_fits { height right < 64 }
        ensures { IfOk result (λ tree. tree ≡ binary op left right) }
    {
        let height = 1 + left.height().max(right.height());
        let left = Box::new(alloc, left)?;
        let right = Box::new(alloc, right)?;
        Ok(ExprTree {
            node: Node::Binary(op, left, right),
            height,
        })
    }

    /// The outermost part.
    pub fn node(&self) -> &Node
        ensures { tree_of result.now ≡ self.now }
    {
        &self.node
    }

    /// The most nodes on a path down from the top.
    pub fn height(&self) -> u32
        ensures height { result ≡ height self.now }
        ensures limit { height self.now ≤ 64 }
    {
        self.height
    }
}
