ghost use Rattle.std.specs.Prelude.{◌≡◌, [], IfErr, IfOk, OnOk, Ok};
ghost use Rattle.pg_exprs.specs.Kinds.{kind_of};
ghost use Rattle.pg_exprs.specs.Tree.{column as resolved_column};
ghost use Rattle.pg_resolve.specs.Causes.{Stops};
ghost use Rattle.pg_resolve.specs.Resolved.{column_in as column_number, column_of_errors, column_of_kind, condition_errors, expr_errors, first_place, kind_in, name_errors, place_of, place_or_first, expr_of_tree};
ghost use Rattle.pg_resolve.specs.Scope.{places, scope_kinds};

use crate::AnalyseFault;
use crate::name::{name_of, number};
use crate::scope::{Found, Scope, find_column, kind_at};
use pg_exprs::{Expr, binary_kind, takes_boolean, unary_kind};
use pg_lexer::NameText;
use pg_model::SqlError;
use pg_parse_expr::{ExprTree, Node};
use pg_values::{Kind, copy_value};
use std::alloc::Global;

/// The expression with columns in place of their names, and its kind, which is none for a bare
/// NULL; or its first error.
#[tactic(auto, using(crate::proofs::Stopping::stops_before, crate::proofs::Stopping::stops_behind))]
pub fn resolve(
    alloc: Global,
    scope: &Scope,
    tree: &ExprTree,
) -> Result<(Expr, Option<Kind>), AnalyseFault>
    ensures expr { IfOk result (λ given. given.0 ≡ expr_of_tree scope.now tree.now) }
    ensures kind { IfOk result (λ given. kind_in scope.now tree.now ≡ Ok given.1) }
    ensures ok { OnOk result (expr_errors scope.now tree.now ≡ []) }
    ensures err { IfErr result (λ fault. Stops (expr_errors scope.now tree.now) fault) }
{
    match tree.node() {
        Node::Literal(value) => {
            let kind = value.kind();
            let value = copy_value(alloc, value)?;
            Ok((Expr::literal(value), kind))
        }
        Node::Column(name) => resolve_name(alloc, scope, name),
        Node::ColumnOf(source, name) => resolve_qualified(alloc, scope, source, name),
        Node::Action => Err(AnalyseFault::Error(SqlError::NoOperator)),
        Node::Unary(op, operand) => {
            let (operand, kind) = resolve(alloc, scope, operand)?;
            let kind = unary_kind(*op, kind)?;
            let expr = Expr::unary(alloc, *op, operand)?;
            Ok((expr, kind))
        }
        Node::Binary(op, left, right) => {
            let (left, left_kind) = resolve(alloc, scope, left)?;
            let (right, right_kind) = resolve(alloc, scope, right)?;
            let kind = binary_kind(*op, left_kind, right_kind)?;
            let expr = Expr::binary(alloc, *op, left, right)?;
            Ok((expr, kind))
        }
    }
}

/// A condition, resolved, which is boolean; or its first error.
#[tactic(auto, using(crate::proofs::Stopping::stops_before, crate::proofs::Stopping::stops_behind))]
pub fn resolve_condition(
    alloc: Global,
    scope: &Scope,
    tree: &ExprTree,
) -> Result<Expr, AnalyseFault>
    ensures expr { IfOk result (λ expr. expr ≡ expr_of_tree scope.now tree.now) }
    ensures ok { OnOk result (condition_errors scope.now tree.now ≡ []) }
    ensures err { IfErr result (λ fault. Stops (condition_errors scope.now tree.now) fault) }
{
    let (expr, kind) = resolve(alloc, scope, tree)?;
    if !takes_boolean(kind) {
        return Err(AnalyseFault::Error(SqlError::WrongKind));
    }
    Ok(expr)
}

/// A column by its numbers, and its kind.
fn column_at(scope: &Scope, source: u32, column: u32) -> (Expr, Option<Kind>)
    ensures expr { result.0 ≡ resolved_column source column }
    ensures kind { kind_of (resolved_column source column) (scope_kinds scope.now) ≡ Ok result.1 }
{
    (Expr::column(source, column), kind_at(scope, source, column))
}

/// The column that a bare name means, and its kind; or the error of the name.
#[tactic(auto, using(crate::proofs::Finding::one_place, crate::proofs::Finding::one_errors, crate::proofs::Finding::no_place, crate::proofs::Finding::several_places))]
fn resolve_name(
    alloc: Global,
    scope: &Scope,
    name: &NameText,
) -> Result<(Expr, Option<Kind>), AnalyseFault>
    ensures expr { IfOk result (λ given. given.0 ≡ first_place (places scope.now name.now)) }
    ensures kind { IfOk result (λ given.
        kind_of (first_place (places scope.now name.now)) (scope_kinds scope.now) ≡ Ok given.1) }
    ensures ok { OnOk result (name_errors name.now (places scope.now name.now) ≡ []) }
    ensures err { IfErr result (λ fault.
        Stops (name_errors name.now (places scope.now name.now)) fault) }
{
    match find_column(scope, name.as_bytes())? {
        Found::Nowhere => Err(AnalyseFault::Error(SqlError::NoColumn(name_of(alloc, name)?))),
        Found::At(source, column) => Ok(column_at(scope, source, column)),
        Found::Several => Err(AnalyseFault::Error(SqlError::Ambiguous(name_of(alloc, name)?))),
    }
}

/// The number of a column by its name, in the source of that number.
fn column_in(scope: &Scope, source: usize, name: &[u8]) -> Option<usize>
    ensures { result ≡ column_number scope.now source name.now }
{
    scope.get(source)?.columns.find(name)
}

/// The column of a source, both by their names, and its kind; or the first error of the names.
fn resolve_qualified(
    alloc: Global,
    scope: &Scope,
    source: &NameText,
    name: &NameText,
) -> Result<(Expr, Option<Kind>), AnalyseFault>
    ensures expr { IfOk result (λ given.
        given.0 ≡ place_or_first (place_of scope.now source.now name.now)) }
    ensures kind { IfOk result (λ given.
        column_of_kind scope.now source.now name.now ≡ Ok given.1) }
    ensures ok { OnOk result
        (column_of_errors scope.now source.now name.now ≡ []) }
    ensures err { IfErr result (λ fault.
        Stops (column_of_errors scope.now source.now name.now) fault) }
{
    let Some(at) = scope.find(source.as_bytes()) else {
        return Err(AnalyseFault::Error(SqlError::NoRelation(name_of(alloc, source)?)));
    };
    let Some(column) = column_in(scope, at, name.as_bytes()) else {
        return Err(AnalyseFault::Error(SqlError::NoColumn(name_of(alloc, name)?)));
    };
    Ok(column_at(scope, number(at)?, number(column)?))
}
