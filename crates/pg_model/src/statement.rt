use crate::TableShape;
use pg_exprs::Expr;
use pg_lists::{IsSame, Items, TryCopy};
use std::alloc::{AllocError, Global};

/// A list of expressions.
pub type Exprs = Items<Expr>;

/// Numbers of columns, from 0 in order of declaration.
pub type ColumnNumbers = Items<u32>;

/// The rows that a VALUES list proposes, each as its expressions.
pub type ProposedRows = Items<Exprs>;

/// A table that a statement names: its number, from 0 in order of declaration, and its shape.
#[derive(Drop)]
pub struct NamedTable {
    pub table: u32,
    pub shape: TableShape,
}

/// A source of a FROM list. The sources of a statement are numbered from 0 in the order written.
#[derive(Drop)]
pub enum Source {
    Table(NamedTable),
}

/// The sources of a statement, in the order written.
pub type Sources = Items<Source>;

/// `SELECT items FROM sources [WHERE condition]`, where `*` stands as the columns that it means.
#[derive(Drop)]
pub struct Select {
    pub items: Exprs,
    pub sources: Sources,
    pub condition: Option<Expr>,
}

/// `INSERT INTO target VALUES rows`.
///
/// The expressions of a row are for the first of `columns`, in order: those of the list of columns,
/// or all columns of the table where no list is written. A row may be shorter than the latter.
#[derive(Drop)]
pub struct Insert {
    pub target: NamedTable,
    pub columns: ColumnNumbers,
    pub rows: ProposedRows,
}

/// A column, by its number, and the expression whose value it is set to.
#[derive(Drop)]
pub struct Assignment {
    pub column: u32,
    pub value: Expr,
}

/// A SET list, in the order written.
pub type Assignments = Items<Assignment>;

/// What an UPDATE or a DELETE makes of a row.
#[derive(Drop)]
pub enum Action {
    /// The columns that the list names are set, and all others stay as they are.
    Set(Assignments),
    /// The row is gone.
    Delete,
}

/// `UPDATE target SET .. [FROM sources] [WHERE condition]`, or `DELETE FROM target [USING sources]
/// [WHERE condition]`.
///
/// In its expressions the target is source 0, and the sources are numbered from 1 in the order
/// written.
#[derive(Drop)]
pub struct Change {
    pub target: NamedTable,
    pub action: Action,
    pub sources: Sources,
    pub condition: Option<Expr>,
}

/// A statement with its names resolved.
#[derive(Drop)]
pub enum Statement {
    Begin,
    Commit,
    Rollback,
    Select(Select),
    Insert(Insert),
    Change(Change),
}

impl TryCopy for NamedTable {
    fn try_copy(&self, alloc: Global) -> Result<NamedTable, AllocError> {
        let shape = self.shape.try_copy(alloc)?;
        Ok(NamedTable {
            table: self.table,
            shape,
        })
    }
}

impl IsSame for NamedTable {
    fn is_same(&self, other: &NamedTable) -> bool {
        self.table == other.table && self.shape.is_same(&other.shape)
    }
}

impl TryCopy for Source {
    fn try_copy(&self, alloc: Global) -> Result<Source, AllocError> {
        match self {
            Source::Table(table) => Ok(Source::Table(table.try_copy(alloc)?)),
        }
    }
}

impl IsSame for Source {
    fn is_same(&self, other: &Source) -> bool {
        match (self, other) {
            (Source::Table(a), Source::Table(b)) => a.is_same(b),
        }
    }
}

impl TryCopy for Select {
    fn try_copy(&self, alloc: Global) -> Result<Select, AllocError> {
        let items = self.items.try_copy(alloc)?;
        let sources = self.sources.try_copy(alloc)?;
        let condition = self.condition.try_copy(alloc)?;
        Ok(Select {
            items,
            sources,
            condition,
        })
    }
}

impl IsSame for Select {
    fn is_same(&self, other: &Select) -> bool {
        self.items.is_same(&other.items)
            && self.sources.is_same(&other.sources)
            && self.condition.is_same(&other.condition)
    }
}

impl TryCopy for Insert {
    fn try_copy(&self, alloc: Global) -> Result<Insert, AllocError> {
        let target = self.target.try_copy(alloc)?;
        let columns = self.columns.try_copy(alloc)?;
        let rows = self.rows.try_copy(alloc)?;
        Ok(Insert {
            target,
            columns,
            rows,
        })
    }
}

impl IsSame for Insert {
    fn is_same(&self, other: &Insert) -> bool {
        self.target.is_same(&other.target)
            && self.columns.is_same(&other.columns)
            && self.rows.is_same(&other.rows)
    }
}

impl TryCopy for Assignment {
    fn try_copy(&self, alloc: Global) -> Result<Assignment, AllocError> {
        let value = self.value.try_copy(alloc)?;
        Ok(Assignment {
            column: self.column,
            value,
        })
    }
}

impl IsSame for Assignment {
    fn is_same(&self, other: &Assignment) -> bool {
        self.column == other.column && self.value.is_same(&other.value)
    }
}

impl TryCopy for Action {
    fn try_copy(&self, alloc: Global) -> Result<Action, AllocError> {
        match self {
            Action::Set(assignments) => Ok(Action::Set(assignments.try_copy(alloc)?)),
            Action::Delete => Ok(Action::Delete),
        }
    }
}

impl IsSame for Action {
    fn is_same(&self, other: &Action) -> bool {
        match (self, other) {
            (Action::Set(a), Action::Set(b)) => a.is_same(b),
            (Action::Delete, Action::Delete) => true,
            _ => false,
        }
    }
}

impl TryCopy for Change {
    fn try_copy(&self, alloc: Global) -> Result<Change, AllocError> {
        let target = self.target.try_copy(alloc)?;
        let action = self.action.try_copy(alloc)?;
        let sources = self.sources.try_copy(alloc)?;
        let condition = self.condition.try_copy(alloc)?;
        Ok(Change {
            target,
            action,
            sources,
            condition,
        })
    }
}

impl IsSame for Change {
    fn is_same(&self, other: &Change) -> bool {
        self.target.is_same(&other.target)
            && self.action.is_same(&other.action)
            && self.sources.is_same(&other.sources)
            && self.condition.is_same(&other.condition)
    }
}

impl TryCopy for Statement {
    fn try_copy(&self, alloc: Global) -> Result<Statement, AllocError> {
        match self {
            Statement::Begin => Ok(Statement::Begin),
            Statement::Commit => Ok(Statement::Commit),
            Statement::Rollback => Ok(Statement::Rollback),
            Statement::Select(select) => Ok(Statement::Select(select.try_copy(alloc)?)),
            Statement::Insert(insert) => Ok(Statement::Insert(insert.try_copy(alloc)?)),
            Statement::Change(change) => Ok(Statement::Change(change.try_copy(alloc)?)),
        }
    }
}

impl IsSame for Statement {
    fn is_same(&self, other: &Statement) -> bool {
        match (self, other) {
            (Statement::Begin, Statement::Begin)
            | (Statement::Commit, Statement::Commit)
            | (Statement::Rollback, Statement::Rollback) => true,
            (Statement::Select(a), Statement::Select(b)) => a.is_same(b),
            (Statement::Insert(a), Statement::Insert(b)) => a.is_same(b),
            (Statement::Change(a), Statement::Change(b)) => a.is_same(b),
            _ => false,
        }
    }
}
