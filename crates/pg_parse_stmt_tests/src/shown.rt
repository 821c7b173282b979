//! Trees as text, for the tests: each part as it was read, with the words that may be left out.
use itoa::Buffer;
use pg_exprs::{Arithmetic, BinaryOp, Comparison, UnaryOp};
use pg_lexer::NameText;
use pg_lists::Items;
use pg_parse_expr::{ExprTree, Node};
use pg_parse_stmt::*;
use pg_values::{Kind, Value};
use std::alloc::AllocError;

type Done = Result<(), AllocError>;

/// What is shown in a text.
pub(crate) trait Show {
    fn show(&self, text: &mut Vec<u8>) -> Done;
}

fn put(text: &mut Vec<u8>, piece: &str) -> Done {
    text.extend_from_slice(piece.as_bytes())
}

fn show_list<T: Show>(text: &mut Vec<u8>, list: &Items<T>) -> Done {
    for (at, item) in list.as_slice().iter().enumerate() {
        if at > 0 {
            put(text, ", ")?;
        }
        item.show(text)?;
    }
    Ok(())
}

fn show_in_brackets<T: Show>(text: &mut Vec<u8>, list: &Items<T>) -> Done {
    put(text, "(")?;
    show_list(text, list)?;
    put(text, ")")
}

/// A list behind a word, where there is one.
fn show_listed<T: Show>(text: &mut Vec<u8>, word: &str, list: &Items<T>) -> Done {
    if !list.is_empty() {
        put(text, word)?;
        show_list(text, list)?;
    }
    Ok(())
}

/// A part behind a word, where it is written.
fn show_optional<T: Show>(text: &mut Vec<u8>, word: &str, part: &Option<T>) -> Done {
    if let Some(part) = part {
        put(text, word)?;
        part.show(text)?;
    }
    Ok(())
}

impl Show for NameText {
    fn show(&self, text: &mut Vec<u8>) -> Done {
        text.extend_from_slice(self.as_bytes())
    }
}

impl Show for Value {
    fn show(&self, text: &mut Vec<u8>) -> Done {
        match self {
            Value::Null => put(text, "null"),
            Value::Bool(true) => put(text, "true"),
            Value::Bool(false) => put(text, "false"),
            Value::Int(number) => put(text, Buffer::new().format(*number)),
            Value::Big(number) => {
                put(text, Buffer::new().format(*number))?;
                put(text, "b")
            }
            Value::Text(value) => {
                put(text, "'")?;
                text.extend_from_slice(value.as_slice())?;
                put(text, "'")
            }
        }
    }
}

fn binary_sign(op: BinaryOp) -> &'static str {
    match op {
        BinaryOp::Or => "(or ",
        BinaryOp::And => "(and ",
        BinaryOp::IsDistinctFrom => "(distinct ",
        BinaryOp::IsNotDistinctFrom => "(same ",
        BinaryOp::Compare(Comparison::Equal) => "(= ",
        BinaryOp::Compare(Comparison::NotEqual) => "(<> ",
        BinaryOp::Compare(Comparison::Less) => "(< ",
        BinaryOp::Compare(Comparison::LessOrEqual) => "(<= ",
        BinaryOp::Compare(Comparison::Greater) => "(> ",
        BinaryOp::Compare(Comparison::GreaterOrEqual) => "(>= ",
        BinaryOp::Concat => "(|| ",
        BinaryOp::Compute(Arithmetic::Add) => "(+ ",
        BinaryOp::Compute(Arithmetic::Subtract) => "(- ",
        BinaryOp::Compute(Arithmetic::Multiply) => "(* ",
        BinaryOp::Compute(Arithmetic::Divide) => "(/ ",
        BinaryOp::Compute(Arithmetic::Remainder) => "(% ",
    }
}

fn unary_sign(op: UnaryOp) -> &'static str {
    match op {
        UnaryOp::Not => "(not ",
        UnaryOp::IsNull => "(null? ",
        UnaryOp::IsNotNull => "(some? ",
        UnaryOp::Negate => "(neg ",
    }
}

fn show_expr(text: &mut Vec<u8>, tree: &ExprTree) -> Done {
    match tree.node() {
        Node::Literal(value) => value.show(text),
        Node::Column(name) => name.show(text),
        Node::ColumnOf(source, name) => {
            source.show(text)?;
            put(text, ".")?;
            name.show(text)
        }
        Node::Action => put(text, "action()"),
        Node::Unary(op, operand) => {
            put(text, unary_sign(*op))?;
            show_expr(text, operand)?;
            put(text, ")")
        }
        Node::Binary(op, left, right) => {
            put(text, binary_sign(*op))?;
            show_expr(text, left)?;
            put(text, " ")?;
            show_expr(text, right)?;
            put(text, ")")
        }
    }
}

impl Show for ExprTree {
    fn show(&self, text: &mut Vec<u8>) -> Done {
        show_expr(text, self)
    }
}

impl Show for Items<ExprTree> {
    fn show(&self, text: &mut Vec<u8>) -> Done {
        show_in_brackets(text, self)
    }
}

impl Show for Item {
    fn show(&self, text: &mut Vec<u8>) -> Done {
        match self {
            Item::All => put(text, "*"),
            Item::AllOf(name) => {
                name.show(text)?;
                put(text, ".*")
            }
            Item::Expr(expr, name) => {
                expr.show(text)?;
                show_optional(text, " as ", name)
            }
        }
    }
}

impl Show for TableRef {
    fn show(&self, text: &mut Vec<u8>) -> Done {
        self.name.show(text)?;
        show_optional(text, " as ", &self.alias)
    }
}

impl Show for Source {
    fn show(&self, text: &mut Vec<u8>) -> Done {
        match self {
            Source::Table(table) => table.show(text),
            Source::Values(values) => {
                show_listed(text, "(values ", &values.rows)?;
                put(text, ") as ")?;
                values.alias.show(text)?;
                show_in_brackets(text, &values.columns)
            }
            Source::Query(query) => {
                put(text, "(")?;
                query.query.show(text)?;
                put(text, ") as ")?;
                query.alias.show(text)
            }
        }
    }
}

fn show_from<S: Show>(text: &mut Vec<u8>, word: &str, from: &Items<Joined<S>>) -> Done {
    for (at, joined) in from.as_slice().iter().enumerate() {
        match (at, &joined.on) {
            (0, _) => put(text, word)?,
            (_, None) => put(text, ", ")?,
            (_, Some(_)) => put(text, " join ")?,
        }
        joined.source.show(text)?;
        show_optional(text, " on ", &joined.on)?;
    }
    Ok(())
}

impl Show for Subselect {
    fn show(&self, text: &mut Vec<u8>) -> Done {
        show_listed(text, "select ", &self.items)?;
        show_from(text, " from ", &self.from)?;
        show_optional(text, " where ", &self.condition)
    }
}

impl Show for OrderKey {
    fn show(&self, text: &mut Vec<u8>) -> Done {
        self.expr.show(text)?;
        put(
            text,
            match (self.direction, self.nulls) {
                (Direction::Ascending, NullsPlace::First) => " asc first",
                (Direction::Ascending, NullsPlace::Last) => " asc last",
                (Direction::Descending, NullsPlace::First) => " desc first",
                (Direction::Descending, NullsPlace::Last) => " desc last",
            },
        )
    }
}

impl Show for u64 {
    fn show(&self, text: &mut Vec<u8>) -> Done {
        put(text, Buffer::new().format(*self))
    }
}

impl Show for Locking {
    fn show(&self, text: &mut Vec<u8>) -> Done {
        put(
            text,
            match self.strength {
                LockStrength::KeyShare => "key share",
                LockStrength::Share => "share",
                LockStrength::NoKeyUpdate => "no key update",
                LockStrength::Update => "update",
            },
        )?;
        show_optional(text, " of ", &self.table)?;
        put(
            text,
            match self.wait {
                LockWait::Wait => " wait",
                LockWait::Fail => " fail",
                LockWait::Skip => " skip",
            },
        )
    }
}

impl Show for Select {
    fn show(&self, text: &mut Vec<u8>) -> Done {
        show_listed(text, "select ", &self.items)?;
        show_from(text, " from ", &self.from)?;
        show_optional(text, " where ", &self.condition)?;
        show_listed(text, " order by ", &self.order)?;
        show_optional(text, " limit ", &self.limit)?;
        show_optional(text, " for ", &self.locking)
    }
}

impl Show for Rows {
    fn show(&self, text: &mut Vec<u8>) -> Done {
        match self {
            Rows::Values(rows) => show_listed(text, " values ", rows),
            Rows::Query(query) => {
                put(text, " ")?;
                query.show(text)
            }
        }
    }
}

impl Show for Element {
    fn show(&self, text: &mut Vec<u8>) -> Done {
        match self {
            Element::Column(name) => name.show(text),
            Element::Expr(expr) => {
                put(text, "expr ")?;
                expr.show(text)
            }
        }
    }
}

impl Show for ConflictTarget {
    fn show(&self, text: &mut Vec<u8>) -> Done {
        match self {
            ConflictTarget::Elements(elements, predicate) => {
                show_in_brackets(text, elements)?;
                show_optional(text, " where ", predicate)
            }
            ConflictTarget::Constraint(name) => {
                put(text, "on ")?;
                name.show(text)
            }
        }
    }
}

impl Show for Assignment {
    fn show(&self, text: &mut Vec<u8>) -> Done {
        self.column.show(text)?;
        put(text, " = ")?;
        self.value.show(text)
    }
}

impl Show for Conflict {
    fn show(&self, text: &mut Vec<u8>) -> Done {
        match self {
            Conflict::Nothing(target) => {
                put(text, "nothing")?;
                show_optional(text, " ", target)
            }
            Conflict::Update(upsert) => {
                put(text, "update ")?;
                upsert.target.show(text)?;
                show_listed(text, " set ", &upsert.sets)?;
                show_optional(text, " where ", &upsert.condition)
            }
        }
    }
}

/// Columns in brackets, where they are written.
fn show_columns(text: &mut Vec<u8>, columns: &Names) -> Done {
    if columns.is_empty() {
        return Ok(());
    }
    put(text, " ")?;
    show_in_brackets(text, columns)
}

impl Show for Insert {
    fn show(&self, text: &mut Vec<u8>) -> Done {
        put(text, "insert ")?;
        self.table.show(text)?;
        show_optional(text, " as ", &self.alias)?;
        show_columns(text, &self.columns)?;
        self.rows.show(text)?;
        show_optional(text, " conflict ", &self.conflict)?;
        show_listed(text, " returning ", &self.returning)
    }
}

impl Show for Update {
    fn show(&self, text: &mut Vec<u8>) -> Done {
        put(text, "update ")?;
        self.target.show(text)?;
        show_listed(text, " set ", &self.sets)?;
        show_from(text, " from ", &self.from)?;
        show_optional(text, " where ", &self.condition)?;
        show_listed(text, " returning ", &self.returning)
    }
}

impl Show for Delete {
    fn show(&self, text: &mut Vec<u8>) -> Done {
        put(text, "delete ")?;
        self.target.show(text)?;
        show_from(text, " using ", &self.using)?;
        show_optional(text, " where ", &self.condition)?;
        show_listed(text, " returning ", &self.returning)
    }
}

impl Show for Change {
    fn show(&self, text: &mut Vec<u8>) -> Done {
        match self {
            Change::Update(sets) => show_listed(text, " update ", sets),
            Change::Delete => put(text, " delete"),
            Change::Nothing => put(text, " nothing"),
        }
    }
}

impl Show for Addition {
    fn show(&self, text: &mut Vec<u8>) -> Done {
        match self {
            Addition::Insert(columns, values) => {
                put(text, " insert")?;
                show_columns(text, columns)?;
                put(text, " ")?;
                show_in_brackets(text, values)
            }
            Addition::Nothing => put(text, " nothing"),
        }
    }
}

impl Show for When {
    fn show(&self, text: &mut Vec<u8>) -> Done {
        match self {
            When::Matched(condition, change) => {
                put(text, "matched")?;
                show_optional(text, " and ", condition)?;
                change.show(text)
            }
            When::NotBySource(condition, change) => {
                put(text, "by source")?;
                show_optional(text, " and ", condition)?;
                change.show(text)
            }
            When::NotByTarget(condition, addition) => {
                put(text, "by target")?;
                show_optional(text, " and ", condition)?;
                addition.show(text)
            }
        }
    }
}

impl Show for Merge {
    fn show(&self, text: &mut Vec<u8>) -> Done {
        put(text, "merge ")?;
        self.target.show(text)?;
        put(text, " using ")?;
        self.source.show(text)?;
        put(text, " on ")?;
        self.on.show(text)?;
        show_listed(text, " when ", &self.clauses)?;
        show_listed(text, " returning ", &self.returning)
    }
}

impl Show for ColumnConstraint {
    fn show(&self, text: &mut Vec<u8>) -> Done {
        match self {
            ColumnConstraint::Primary => put(text, " primary"),
            ColumnConstraint::Unique => put(text, " unique"),
            ColumnConstraint::Check(expr) => {
                put(text, " check ")?;
                expr.show(text)
            }
        }
    }
}

impl Show for ColumnRule {
    fn show(&self, text: &mut Vec<u8>) -> Done {
        match self {
            ColumnRule::NotNull => put(text, " not null"),
            ColumnRule::Default(value) => {
                put(text, " default ")?;
                value.show(text)
            }
            ColumnRule::Constraint(name, constraint) => {
                show_optional(text, " constraint ", name)?;
                constraint.show(text)
            }
        }
    }
}

fn kind_name(kind: Kind) -> &'static str {
    match kind {
        Kind::Bool => " boolean",
        Kind::Int => " integer",
        Kind::Big => " bigint",
        Kind::Text => " text",
    }
}

impl Show for TableConstraint {
    fn show(&self, text: &mut Vec<u8>) -> Done {
        match self {
            TableConstraint::Primary(columns) => {
                put(text, " primary ")?;
                show_in_brackets(text, columns)
            }
            TableConstraint::Unique(columns) => {
                put(text, " unique ")?;
                show_in_brackets(text, columns)
            }
            TableConstraint::Check(expr) => {
                put(text, " check ")?;
                expr.show(text)
            }
        }
    }
}

impl Show for TablePart {
    fn show(&self, text: &mut Vec<u8>) -> Done {
        match self {
            TablePart::Column(column) => {
                column.name.show(text)?;
                put(text, kind_name(column.kind))?;
                for rule in column.rules.as_slice() {
                    rule.show(text)?;
                }
                Ok(())
            }
            TablePart::Constraint(name, constraint) => {
                put(text, "constraint")?;
                show_optional(text, " ", name)?;
                constraint.show(text)
            }
        }
    }
}

impl Show for StmtTree {
    fn show(&self, text: &mut Vec<u8>) -> Done {
        match self {
            StmtTree::Begin => put(text, "begin"),
            StmtTree::Commit => put(text, "commit"),
            StmtTree::Rollback => put(text, "rollback"),
            StmtTree::Select(select) => select.show(text),
            StmtTree::Insert(insert) => insert.show(text),
            StmtTree::Update(update) => update.show(text),
            StmtTree::Delete(delete) => delete.show(text),
            StmtTree::Merge(merge) => merge.show(text),
            StmtTree::CreateTable(table) => {
                put(text, "table ")?;
                table.name.show(text)?;
                put(text, " ")?;
                show_in_brackets(text, &table.parts)
            }
            StmtTree::CreateIndex(index) => {
                put(text, "index ")?;
                index.name.show(text)?;
                put(text, " on ")?;
                index.table.show(text)?;
                put(text, " ")?;
                show_in_brackets(text, &index.elements)?;
                show_optional(text, " where ", &index.predicate)
            }
        }
    }
}
