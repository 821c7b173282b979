ghost use Rattle.std.specs.Prelude.{◌≡◌, ◌++◌, ◌∷◌, [], IfErr, IfOk, OnOk, flat_map};
ghost use Rattle.std.specs.Option.{option_map};
ghost use Rattle.pg_resolve.specs.declared.fault.AnalyseFault.TheVariants.{Memory};
ghost use Rattle.pg_parse_stmt.specs.declared.tree.Item.TheVariants.{AllOf};
ghost use Rattle.pg_resolve.specs.Causes.{Stops, in_order};
ghost use Rattle.pg_analyse.specs.Queries.{all_columns_from, columns_from, item_errors, item_exprs, known_as, known_name as known, part_errors, reference_errors, relation_errors, scope_of, select_phases, select_of_tree, sources_of, tables_in, where_errors};
ghost use Rattle.pg_resolve.specs.Resolved.{expr_of_tree};
ghost use Rattle.pg_resolve.specs.Scope.{source_names};

use crate::tables::table_named;
use pg_exprs::Expr;
use pg_lexer::NameText;
use pg_lists::{Items, TryCopy};
use pg_model::{Catalogue, Columns, Exprs, Select, Source, Sources, SqlError};
use pg_names::{Name, NamedItems};
use pg_parse_expr::ExprTree;
use pg_parse_stmt::{
    Item, Select as SelectTree, Source as SourceTree, Sources as FromList, TableRef,
};
use pg_resolve::{AnalyseFault, Known, Scope, name_of, number, resolve, resolve_condition};
use std::alloc::{AllocError, Global};

/// A SELECT with its names resolved, or its first error.
#[tactic(auto, using(pg_resolve::proofs::Stopping::stops_before))]
pub(crate) fn analyse_select(
    alloc: Global,
    catalogue: &Catalogue,
    select: &SelectTree,
) -> Result<Select, AnalyseFault>
    ensures select { IfOk result (λ given. given ≡ select_of_tree catalogue.now select.now) }
    ensures ok { OnOk result (in_order (select_phases catalogue.now select.now) ≡ []) }
    ensures err { IfErr result (λ fault.
        Stops (in_order (select_phases catalogue.now select.now)) fault) }
{
    let (scope, sources) = relations(alloc, catalogue, &select.from)?;
    let (items, condition) = resolve_parts(alloc, &scope, select)?;
    drop(scope);
    Ok(Select {
        items,
        sources,
        condition,
    })
}

/// The items of a SELECT and its condition, or the first error of their expressions.
#[tactic(auto, using(pg_resolve::proofs::Stopping::stops_before, pg_resolve::proofs::Stopping::stops_behind))]
fn resolve_parts(
    alloc: Global,
    scope: &Scope,
    select: &SelectTree,
) -> Result<(Exprs, Option<Expr>), AnalyseFault>
    ensures items { IfOk result (λ given.
        given.0 ≡ flat_map (item_exprs scope.now) select.now.items) }
    ensures condition { IfOk result (λ given.
        given.1 ≡ option_map (expr_of_tree scope.now) select.now.condition) }
    ensures ok { OnOk result (part_errors scope.now select.now ≡ []) }
    ensures err { IfErr result (λ fault. Stops (part_errors scope.now select.now) fault) }
{
    let items = resolve_items(alloc, scope, select.items.as_slice())?;
    let condition = resolve_where(alloc, scope, &select.condition)?;
    Ok((items, condition))
}

/// What the expressions of a SELECT may name, and its sources; or the first error of their names.
#[tactic(auto, using(crate::proofs::Relating::step_scope, crate::proofs::Relating::step_sources, crate::proofs::Relating::step_relations, crate::proofs::Relating::step_stops))]
fn relations(
    alloc: Global,
    catalogue: &Catalogue,
    from: &FromList,
) -> Result<(Scope, Sources), AnalyseFault>
    ensures scope { IfOk result (λ given. given.0 ≡ scope_of catalogue.now (tables_in from.now)) }
    ensures sources { IfOk result (λ given.
        given.1 ≡ sources_of catalogue.now (tables_in from.now)) }
    ensures ok { OnOk result (relation_errors catalogue.now [] (tables_in from.now) ≡ []) }
    ensures err { IfErr result (λ fault.
        Stops (relation_errors catalogue.now [] (tables_in from.now)) fault) }
{
    let mut scope = NamedItems::new(alloc);
    let mut sources = Items::new(alloc);
    let list = from.as_slice();
    for joined in list {
        if let SourceTree::Table(table) = &joined.source {
            push_table(alloc, catalogue, table, &mut scope, &mut sources)?;
        }
    }
    Ok((scope, sources))
}

/// Puts a table behind the other sources, unless it does not exist or one of them has its name.
#[tactic(auto, using(pg_resolve::proofs::Stopping::stops_before, pg_resolve::proofs::Stopping::stops_behind))]
fn push_table(
    alloc: Global,
    catalogue: &Catalogue,
    table: &TableRef,
    scope: &mut Scope,
    sources: &mut Sources,
) -> Result<(), AnalyseFault>
    ensures scope { OnOk result (scope.new ≡ scope.old ++ known_as catalogue.now table.now ∷ []) }
    ensures sources { OnOk result
        (sources.new ≡ sources.old ++ sources_of catalogue.now (table.now ∷ [])) }
    ensures ok { OnOk result
        (reference_errors catalogue.now (source_names scope.old) table.now ≡ []) }
    ensures err { IfErr result (λ fault.
        Stops (reference_errors catalogue.now (source_names scope.old) table.now) fault) }
{
    let named = table_named(alloc, catalogue, &table.name)?;
    let name = known_name(alloc, table)?;
    if scope.find(name.as_slice()).is_some() {
        return Err(AnalyseFault::Error(SqlError::SameAlias(name)));
    }
    let columns = named.shape.columns.try_copy(alloc)?;
    scope.push(Known { name, columns })?;
    sources.push(Source::Table(named))?;
    Ok(())
}

/// The name that expressions know a table by.
pub(crate) fn known_name(alloc: Global, table: &TableRef) -> Result<Name, AllocError>
    ensures { IfOk result (λ name. name ≡ known table.now) }
{
    match &table.alias {
        Some(alias) => name_of(alloc, alias),
        None => name_of(alloc, &table.name),
    }
}

/// The expressions that the items of a SELECT mean, or the first error of an item.
#[tactic(auto, using(pg_resolve::proofs::Stopping::stops_before, pg_resolve::proofs::Stopping::stops_behind, crate::proofs::Steps::step_list))]
fn resolve_items(alloc: Global, scope: &Scope, items: &[Item]) -> Result<Exprs, AnalyseFault>
    ensures exprs { IfOk result (λ exprs. exprs ≡ flat_map (item_exprs scope.now) items.now) }
    ensures ok { OnOk result (flat_map (item_errors scope.now) items.now ≡ []) }
    ensures err { IfErr result (λ fault. Stops (flat_map (item_errors scope.now) items.now) fault) }
{
    let mut exprs = Items::new(alloc);
    for item in items {
        push_item(alloc, scope, item, &mut exprs)?;
    }
    Ok(exprs)
}

/// Puts the expressions that an item means behind the others, or answers its first error.
fn push_item(
    alloc: Global,
    scope: &Scope,
    item: &Item,
    exprs: &mut Exprs,
) -> Result<(), AnalyseFault>
    ensures exprs { OnOk result (exprs.new ≡ exprs.old ++ item_exprs scope.now item.now) }
    ensures ok { OnOk result (item_errors scope.now item.now ≡ []) }
    ensures err { IfErr result (λ fault. Stops (item_errors scope.now item.now) fault) }
{
    match item {
        Item::All => push_all_columns(scope, exprs),
        Item::AllOf(name) => push_columns_of(alloc, scope, name, exprs),
        Item::Expr(tree, _) => {
            let (expr, _kind) = resolve(alloc, scope, tree)?;
            exprs.push(expr)?;
            Ok(())
        }
    }
}

/// Puts the columns of all sources behind the other expressions.
#[tactic(auto, using(crate::proofs::Steps::step_list))]
fn push_all_columns(scope: &Scope, exprs: &mut Exprs) -> Result<(), AnalyseFault>
    ensures ok { OnOk result (exprs.new ≡ exprs.old ++ all_columns_from 0 scope.now) }
    ensures err { IfErr result (λ fault. fault ≡ Memory) }
{
    let sources = scope.as_slice();
    let mut at = 0;
    for known in sources {
        push_columns(number(at)?, &known.columns, exprs)?;
        at += 1;
    }
    Ok(())
}

/// Puts the columns of the source of that name behind the other expressions.
fn push_columns_of(
    alloc: Global,
    scope: &Scope,
    name: &NameText,
    exprs: &mut Exprs,
) -> Result<(), AnalyseFault>
    ensures exprs { OnOk result (exprs.new ≡ exprs.old ++ item_exprs scope.now (AllOf name.now)) }
    ensures ok { OnOk result (item_errors scope.now (AllOf name.now) ≡ []) }
    ensures err { IfErr result (λ fault. Stops (item_errors scope.now (AllOf name.now)) fault) }
{
    let Some(at) = scope.find(name.as_bytes()) else {
        return Err(AnalyseFault::Error(SqlError::NoRelation(name_of(alloc, name)?)));
    };
    let known = &scope.as_slice()[at];
    push_columns(number(at)?, &known.columns, exprs)?;
    Ok(())
}

/// Puts all columns of the source of that number behind the other expressions.
#[tactic(auto, using(crate::proofs::Steps::step_list))]
fn push_columns(source: u32, columns: &Columns, exprs: &mut Exprs) -> Result<(), AnalyseFault>
    ensures ok { OnOk result (exprs.new ≡ exprs.old ++ columns_from source 0 columns.now) }
    ensures err { IfErr result (λ fault. fault ≡ Memory) }
{
    let all = columns.as_slice();
    let mut at = 0;
    for _column in all {
        exprs.push(Expr::column(source, number(at)?))?;
        at += 1;
    }
    Ok(())
}

/// The condition behind WHERE, or its first error.
pub(crate) fn resolve_where(
    alloc: Global,
    scope: &Scope,
    condition: &Option<ExprTree>,
) -> Result<Option<Expr>, AnalyseFault>
    ensures condition { IfOk result (λ given.
        given ≡ option_map (expr_of_tree scope.now) condition.now) }
    ensures ok { OnOk result (where_errors scope.now condition.now ≡ []) }
    ensures err { IfErr result (λ fault. Stops (where_errors scope.now condition.now) fault) }
{
    match condition {
        None => Ok(None),
        Some(tree) => Ok(Some(resolve_condition(alloc, scope, tree)?)),
    }
}
