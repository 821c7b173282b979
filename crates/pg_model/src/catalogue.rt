use pg_exprs::Expr;
use pg_lists::{IsSame, Items, TryCopy};
use pg_names::{Name, Named, NamedItems};
use pg_shared::Shared;
use pg_values::{Kind, Value};
use std::alloc::{AllocError, Global};

/// A column of a table.
#[derive(Drop)]
pub struct Column {
    pub name: Name,
    pub kind: Kind,
    /// Whether NULL is refused.
    pub not_null: bool,
    /// What an INSERT that leaves the column out stores: NULL where no DEFAULT is written.
    pub default: Value,
}

/// The columns of a table, in order of declaration. Their names differ.
pub type Columns = NamedItems<Column>;

/// A CHECK of a table. Its expression names columns as those of source 0.
#[derive(Drop)]
pub struct Check {
    pub name: Name,
    pub expr: Expr,
}

/// The CHECKs of a table, in the order written.
pub type Checks = Items<Check>;

/// A table as it was declared. Its copies share its columns and CHECKs, so that one takes no more
/// than its name.
#[derive(Drop)]
pub struct TableShape {
    pub name: Name,
    pub columns: Shared<Columns>,
    pub checks: Shared<Checks>,
}

/// The tables of a script, in order of declaration. Their names differ.
pub type Catalogue = NamedItems<TableShape>;

impl Named for Column {
    ghost named = { λ column. column.name };

    fn name(&self) -> &Name {
        &self.name
    }
}

impl Named for TableShape {
    ghost named = { λ shape. shape.name };

    fn name(&self) -> &Name {
        &self.name
    }
}

impl TryCopy for Column {
    fn try_copy(&self, alloc: Global) -> Result<Column, AllocError> {
        let name = self.name.try_copy(alloc)?;
        let default = self.default.try_copy(alloc)?;
        Ok(Column {
            name,
            kind: self.kind,
            not_null: self.not_null,
            default,
        })
    }
}

impl IsSame for Column {
    fn is_same(&self, other: &Column) -> bool {
        self.name.is_same(&other.name)
            && self.kind == other.kind
            && self.not_null == other.not_null
            && self.default.is_same(&other.default)
    }
}

impl TryCopy for Check {
    fn try_copy(&self, alloc: Global) -> Result<Check, AllocError> {
        let name = self.name.try_copy(alloc)?;
        let expr = self.expr.try_copy(alloc)?;
        Ok(Check { name, expr })
    }
}

impl IsSame for Check {
    fn is_same(&self, other: &Check) -> bool {
        self.name.is_same(&other.name) && self.expr.is_same(&other.expr)
    }
}

impl TryCopy for TableShape {
    fn try_copy(&self, alloc: Global) -> Result<TableShape, AllocError> {
        let name = self.name.try_copy(alloc)?;
        let columns = self.columns.try_copy(alloc)?;
        let checks = self.checks.try_copy(alloc)?;
        Ok(TableShape {
            name,
            columns,
            checks,
        })
    }
}

impl IsSame for TableShape {
    fn is_same(&self, other: &TableShape) -> bool {
        self.name.is_same(&other.name)
            && self.columns.is_same(&other.columns)
            && self.checks.is_same(&other.checks)
    }
}
