ghost use Rattle.std.specs.Prelude.{◌≡◌};
ghost use Rattle.std.specs.List.{list_all};
ghost use Rattle.pg_analyse.specs.Built.{are_built_rows as built_rows, is_built_assignment as built_assignment, is_built_condition as built_condition, is_built_declaration as built_declaration, is_built_delete as built_delete, is_built_expr as built_expr, is_built_from as built_from, is_built_insert as built_insert, is_built_item as built_item, is_built_part as built_part, is_built_select as built_select, is_built_statement as built_statement, is_built_update as built_update, is_table as table_source};

use pg_parse_expr::{ExprTree, Node};
use pg_parse_stmt::{
    Assignment, Delete, Insert, Item, Joined, Rows, Select, Source, StmtTree, TablePart, Tuple,
    Update,
};

/// Whether the statement has a form that `analyse` is built for.
pub fn is_built_statement(tree: &StmtTree) -> bool
    ensures { result ≡ built_statement tree.now }
{
    match tree {
        StmtTree::Begin | StmtTree::Commit | StmtTree::Rollback => true,
        StmtTree::Select(select) => is_built_select(select),
        StmtTree::Insert(insert) => is_built_insert(insert),
        StmtTree::Update(update) => is_built_update(update),
        StmtTree::Delete(delete) => is_built_delete(delete),
        StmtTree::Merge(_) | StmtTree::CreateTable(_) | StmtTree::CreateIndex(_) => false,
    }
}

/// Whether the statement has a form that `declare` is built for.
pub fn is_built_declaration(tree: &StmtTree) -> bool
    ensures { result ≡ built_declaration tree.now }
{
    match tree {
        StmtTree::CreateTable(table) => are_built_parts(table.parts.as_slice()),
        StmtTree::Begin
        | StmtTree::Commit
        | StmtTree::Rollback
        | StmtTree::Select(_)
        | StmtTree::Insert(_)
        | StmtTree::Update(_)
        | StmtTree::Delete(_)
        | StmtTree::Merge(_)
        | StmtTree::CreateIndex(_) => false,
    }
}

fn is_built_select(select: &Select) -> bool
    ensures { result ≡ built_select select.now }
{
    are_built_items(select.items.as_slice())
        && is_built_from(select.from.as_slice())
        && is_built_condition(&select.condition)
        && select.order.as_slice().is_empty()
        && select.limit.is_none()
        && select.locking.is_none()
}

fn is_built_insert(insert: &Insert) -> bool
    ensures { result ≡ built_insert insert.now }
{
    are_built_rows(&insert.rows)
        && insert.conflict.is_none()
        && insert.returning.as_slice().is_empty()
}

fn is_built_update(update: &Update) -> bool
    ensures { result ≡ built_update update.now }
{
    are_built_assignments(update.sets.as_slice())
        && update.from.as_slice().is_empty()
        && is_built_condition(&update.condition)
        && update.returning.as_slice().is_empty()
}

fn is_built_delete(delete: &Delete) -> bool
    ensures { result ≡ built_delete delete.now }
{
    delete.using.as_slice().is_empty()
        && is_built_condition(&delete.condition)
        && delete.returning.as_slice().is_empty()
}

fn are_built_assignments(sets: &[Assignment]) -> bool
    ensures { result ≡ list_all built_assignment sets.now }
{
    for set in sets {
        if !is_built_expr(&set.value) {
            return false;
        }
    }
    true
}

fn is_built_expr(tree: &ExprTree) -> bool
    ensures { result ≡ built_expr tree.now }
{
    match tree.node() {
        Node::Literal(_) | Node::Column(_) | Node::ColumnOf(_, _) => true,
        Node::Action => false,
        Node::Unary(_, operand) => is_built_expr(operand),
        Node::Binary(_, left, right) => is_built_expr(left) && is_built_expr(right),
    }
}

fn is_built_condition(condition: &Option<ExprTree>) -> bool
    ensures { result ≡ built_condition condition.now }
{
    match condition {
        None => true,
        Some(tree) => is_built_expr(tree),
    }
}

fn is_built_item(item: &Item) -> bool
    ensures { result ≡ built_item item.now }
{
    match item {
        Item::All | Item::AllOf(_) => true,
        Item::Expr(tree, _) => is_built_expr(tree),
    }
}

fn are_built_items(items: &[Item]) -> bool
    ensures { result ≡ list_all built_item items.now }
{
    for item in items {
        if !is_built_item(item) {
            return false;
        }
    }
    true
}

fn is_table(source: &Source) -> bool
    ensures { result ≡ table_source source.now }
{
    matches!(source, Source::Table(_))
}

fn is_built_from(from: &[Joined<Source>]) -> bool
    ensures { result ≡ built_from from.now }
{
    match from {
        [joined] => is_table(&joined.source) && joined.on.is_none(),
        _ => false,
    }
}

fn is_built_tuple(tuple: &[ExprTree]) -> bool
    ensures { result ≡ list_all built_expr tuple.now }
{
    for tree in tuple {
        if !is_built_expr(tree) {
            return false;
        }
    }
    true
}

fn are_built_tuples(tuples: &[Tuple]) -> bool
    ensures { result ≡ list_all (list_all built_expr) tuples.now }
{
    for tuple in tuples {
        if !is_built_tuple(tuple.as_slice()) {
            return false;
        }
    }
    true
}

fn are_built_rows(rows: &Rows) -> bool
    ensures { result ≡ built_rows rows.now }
{
    match rows {
        Rows::Values(tuples) => are_built_tuples(tuples.as_slice()),
        Rows::Query(_) => false,
    }
}

fn is_built_part(part: &TablePart) -> bool
    ensures { result ≡ built_part part.now }
{
    match part {
        TablePart::Column(column) => column.rules.as_slice().is_empty(),
        TablePart::Constraint(_, _) => false,
    }
}

fn are_built_parts(parts: &[TablePart]) -> bool
    ensures { result ≡ list_all built_part parts.now }
{
    for part in parts {
        if !is_built_part(part) {
            return false;
        }
    }
    true
}
