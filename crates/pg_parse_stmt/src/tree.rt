//! Statements as they are written: one field for each part that the grammar names, and nothing for the words that may
//! be left out. A list that may be left out is empty where it is; no list that is written is empty.

use pg_lexer::NameText;
use pg_lists::Items;
use pg_parse_expr::ExprTree;
use pg_values::{Kind, Value};

/// Names with commas between them.
pub type Names = Items<NameText>;

/// The expressions of one row: `(expr, ..)`.
pub type Tuple = Items<ExprTree>;

/// What SELECT and RETURNING list.
#[derive(Drop)]
pub enum Item {
    /// `*`
    All,
    /// `name.*`
    AllOf(NameText),
    /// An expression, and its name behind AS.
    Expr(ExprTree, Option<NameText>),
}

/// A table by its name, and its alias.
#[derive(Drop)]
pub struct TableRef {
    pub name: NameText,
    pub alias: Option<NameText>,
}

/// A source of a FROM or USING list.
#[derive(Drop)]
pub enum Source {
    Table(TableRef),
    Values(ValuesSource),
    Query(QuerySource),
}

/// `(VALUES (expr, ..), ..) alias (names)`
#[derive(Drop)]
pub struct ValuesSource {
    pub rows: Items<Tuple>,
    pub alias: NameText,
    pub columns: Names,
}

/// `(SELECT ..) alias`
#[derive(Drop)]
pub struct QuerySource {
    pub query: Subselect,
    pub alias: NameText,
}

/// A source with the condition of its join: none for the first one, and none behind a comma.
#[derive(Drop)]
pub struct Joined<S> {
    pub source: S,
    pub on: Option<ExprTree>,
}

/// A FROM or USING list.
pub type Sources = Items<Joined<Source>>;

/// `SELECT items FROM from [WHERE condition]`, over tables alone.
#[derive(Drop)]
pub struct Subselect {
    pub items: Items<Item>,
    pub from: Items<Joined<TableRef>>,
    pub condition: Option<ExprTree>,
}

#[derive(Clone, Copy, Debug, PartialEq, Eq)]
pub enum Direction {
    Ascending,
    Descending,
}

/// Where NULL stands in an order.
#[derive(Clone, Copy, Debug, PartialEq, Eq)]
pub enum NullsPlace {
    First,
    Last,
}

/// One key of ORDER BY. Where it is not written, the direction is ascending, and NULL counts as the greatest value.
#[derive(Drop)]
pub struct OrderKey {
    pub expr: ExprTree,
    pub direction: Direction,
    pub nulls: NullsPlace,
}

/// The strengths of row locks, weakest first.
#[derive(Clone, Copy, Debug, PartialEq, Eq)]
pub enum LockStrength {
    KeyShare,
    Share,
    NoKeyUpdate,
    Update,
}

/// What a locking SELECT does at a row that another session holds.
#[derive(Clone, Copy, Debug, PartialEq, Eq)]
pub enum LockWait {
    Wait,
    /// `NOWAIT`
    Fail,
    /// `SKIP LOCKED`
    Skip,
}

/// `FOR strength [OF table] [NOWAIT | SKIP LOCKED]`
#[derive(Drop)]
pub struct Locking {
    pub strength: LockStrength,
    pub table: Option<NameText>,
    pub wait: LockWait,
}

#[derive(Drop)]
pub struct Select {
    pub items: Items<Item>,
    pub from: Sources,
    pub condition: Option<ExprTree>,
    pub order: Items<OrderKey>,
    pub limit: Option<u64>,
    pub locking: Option<Locking>,
}

/// The rows that an INSERT proposes.
#[derive(Drop)]
pub enum Rows {
    Values(Items<Tuple>),
    Query(Subselect),
}

/// A part of an index's key.
#[derive(Drop)]
pub enum Element {
    Column(NameText),
    /// `(expr)`
    Expr(ExprTree),
}

/// What names the indexes of an ON CONFLICT.
#[derive(Drop)]
pub enum ConflictTarget {
    /// `(elements) [WHERE predicate]`
    Elements(Items<Element>, Option<ExprTree>),
    /// `ON CONSTRAINT name`
    Constraint(NameText),
}

/// `column = value`
#[derive(Drop)]
pub struct Assignment {
    pub column: NameText,
    pub value: ExprTree,
}

/// `ON CONFLICT target DO UPDATE SET sets [WHERE condition]`
#[derive(Drop)]
pub struct Upsert {
    pub target: ConflictTarget,
    pub sets: Items<Assignment>,
    pub condition: Option<ExprTree>,
}

#[derive(Drop)]
pub enum Conflict {
    /// `ON CONFLICT [target] DO NOTHING`
    Nothing(Option<ConflictTarget>),
    Update(Upsert),
}

#[derive(Drop)]
pub struct Insert {
    pub table: NameText,
    pub alias: Option<NameText>,
    pub columns: Names,
    pub rows: Rows,
    pub conflict: Option<Conflict>,
    pub returning: Items<Item>,
}

#[derive(Drop)]
pub struct Update {
    pub target: TableRef,
    pub sets: Items<Assignment>,
    pub from: Sources,
    pub condition: Option<ExprTree>,
    pub returning: Items<Item>,
}

#[derive(Drop)]
pub struct Delete {
    pub target: TableRef,
    pub using: Sources,
    pub condition: Option<ExprTree>,
    pub returning: Items<Item>,
}

/// What a WHEN clause does with a row of the target.
#[derive(Drop)]
pub enum Change {
    Update(Items<Assignment>),
    Delete,
    /// `DO NOTHING`
    Nothing,
}

/// What a WHEN clause does with a row of the source that matches none of the target.
#[derive(Drop)]
pub enum Addition {
    /// `INSERT [(columns)] VALUES (values)`
    Insert(Names, Tuple),
    /// `DO NOTHING`
    Nothing,
}

/// A WHEN clause of MERGE: its condition behind AND, and what it does.
#[derive(Drop)]
pub enum When {
    /// `WHEN MATCHED`
    Matched(Option<ExprTree>, Change),
    /// `WHEN NOT MATCHED BY SOURCE`
    NotBySource(Option<ExprTree>, Change),
    /// `WHEN NOT MATCHED [BY TARGET]`
    NotByTarget(Option<ExprTree>, Addition),
}

#[derive(Drop)]
pub struct Merge {
    pub target: TableRef,
    pub source: Source,
    pub on: ExprTree,
    pub clauses: Items<When>,
    pub returning: Items<Item>,
}

/// A constraint behind a column.
#[derive(Drop)]
pub enum ColumnConstraint {
    Primary,
    Unique,
    /// `CHECK (expr)`
    Check(ExprTree),
}

/// What stands behind a column's kind.
#[derive(Drop)]
pub enum ColumnRule {
    NotNull,
    Default(Value),
    /// The constraint's name behind CONSTRAINT, and the constraint.
    Constraint(Option<NameText>, ColumnConstraint),
}

/// `name kind rules`
#[derive(Drop)]
pub struct ColumnPart {
    pub name: NameText,
    pub kind: Kind,
    pub rules: Items<ColumnRule>,
}

/// A constraint that is a part of its own.
#[derive(Drop)]
pub enum TableConstraint {
    Primary(Names),
    Unique(Names),
    /// `CHECK (expr)`
    Check(ExprTree),
}

/// What CREATE TABLE lists.
#[derive(Drop)]
pub enum TablePart {
    Column(ColumnPart),
    /// The constraint's name behind CONSTRAINT, and the constraint.
    Constraint(Option<NameText>, TableConstraint),
}

#[derive(Drop)]
pub struct CreateTable {
    pub name: NameText,
    pub parts: Items<TablePart>,
}

/// `CREATE UNIQUE INDEX name ON table (elements) [WHERE predicate]`
#[derive(Drop)]
pub struct CreateIndex {
    pub name: NameText,
    pub table: NameText,
    pub elements: Items<Element>,
    pub predicate: Option<ExprTree>,
}

/// A statement as it is written.
#[derive(Drop)]
pub enum StmtTree {
    /// `BEGIN`
    Begin,
    /// `COMMIT` or `END`
    Commit,
    /// `ROLLBACK` or `ABORT`
    Rollback,
    Select(Select),
    Insert(Insert),
    Update(Update),
    Delete(Delete),
    Merge(Merge),
    CreateTable(CreateTable),
    CreateIndex(CreateIndex),
}
