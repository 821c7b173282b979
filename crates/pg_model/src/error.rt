use pg_lists::{IsSame, Items, TryCopy};
use pg_names::Name;
use std::alloc::{AllocError, Global};

/// What there is too much of in a CREATE.
#[derive(Clone, Copy, Debug, PartialEq, Eq)]
pub enum Counted {
    Tables,
    Columns,
}

/// Names of sessions.
pub type SessionNames = Items<Name>;

/// An error of a statement, in PostgreSQL's terms. Each has a state of five digits and letters and
/// a text, which `docs/errors.md` lists.
#[derive(Debug, Drop)]
pub enum SqlError {
    /// 25P02: the block has failed, and the statement does not end it.
    Aborted,
    /// 42P01: there is no table, or no source, of that name.
    NoRelation(Name),
    /// 42712: two sources have that name.
    SameAlias(Name),
    /// 42703: there is no column of that name.
    NoColumn(Name),
    /// 42701: a list of columns has that name twice.
    ColumnTwice(Name),
    /// 42601: a SET list has that name twice.
    SetTwice(Name),
    /// 42702: columns of several sources have that name.
    Ambiguous(Name),
    /// 42601: a row has too few or too many expressions.
    WrongCount,
    /// 42883: an operator does not take operands of these kinds.
    NoOperator,
    /// 42804: a condition that is not boolean, or a stored value of another kind.
    WrongKind,
    /// 42P07: a table of that name was declared before.
    RelationExists(Name),
    /// 54000: more tables or columns than the limit.
    TooMany(Counted),
    /// 54000: a text of more than 4,096 bytes.
    TooLong,
    /// 22003: a number that an integer does not hold.
    IntRange,
    /// 22003: a number that a bigint does not hold.
    BigRange,
    /// 22012: division by zero.
    ZeroDivisor,
    /// 40P01: the session's wait would close a cycle of sessions of these names, of which each waits
    /// for the next, and the last for the first. The first is the session itself.
    Deadlock(SessionNames),
}

impl TryCopy for SqlError {
    fn try_copy(&self, alloc: Global) -> Result<SqlError, AllocError> {
        let error = match self {
            SqlError::Aborted => SqlError::Aborted,
            SqlError::NoRelation(name) => SqlError::NoRelation(name.try_copy(alloc)?),
            SqlError::SameAlias(name) => SqlError::SameAlias(name.try_copy(alloc)?),
            SqlError::NoColumn(name) => SqlError::NoColumn(name.try_copy(alloc)?),
            SqlError::ColumnTwice(name) => SqlError::ColumnTwice(name.try_copy(alloc)?),
            SqlError::SetTwice(name) => SqlError::SetTwice(name.try_copy(alloc)?),
            SqlError::Ambiguous(name) => SqlError::Ambiguous(name.try_copy(alloc)?),
            SqlError::WrongCount => SqlError::WrongCount,
            SqlError::NoOperator => SqlError::NoOperator,
            SqlError::WrongKind => SqlError::WrongKind,
            SqlError::RelationExists(name) => SqlError::RelationExists(name.try_copy(alloc)?),
            SqlError::TooMany(counted) => SqlError::TooMany(*counted),
            SqlError::TooLong => SqlError::TooLong,
            SqlError::IntRange => SqlError::IntRange,
            SqlError::BigRange => SqlError::BigRange,
            SqlError::ZeroDivisor => SqlError::ZeroDivisor,
            SqlError::Deadlock(names) => SqlError::Deadlock(names.try_copy(alloc)?),
        };
        Ok(error)
    }
}

impl IsSame for SqlError {
    fn is_same(&self, other: &SqlError) -> bool {
        match (self, other) {
            (SqlError::NoRelation(a), SqlError::NoRelation(b))
            | (SqlError::SameAlias(a), SqlError::SameAlias(b))
            | (SqlError::NoColumn(a), SqlError::NoColumn(b))
            | (SqlError::ColumnTwice(a), SqlError::ColumnTwice(b))
            | (SqlError::SetTwice(a), SqlError::SetTwice(b))
            | (SqlError::Ambiguous(a), SqlError::Ambiguous(b))
            | (SqlError::RelationExists(a), SqlError::RelationExists(b)) => a.is_same(b),
            (SqlError::TooMany(a), SqlError::TooMany(b)) => a == b,
            (SqlError::Deadlock(a), SqlError::Deadlock(b)) => a.is_same(b),
            (SqlError::Aborted, SqlError::Aborted)
            | (SqlError::WrongCount, SqlError::WrongCount)
            | (SqlError::NoOperator, SqlError::NoOperator)
            | (SqlError::WrongKind, SqlError::WrongKind)
            | (SqlError::TooLong, SqlError::TooLong)
            | (SqlError::IntRange, SqlError::IntRange)
            | (SqlError::BigRange, SqlError::BigRange)
            | (SqlError::ZeroDivisor, SqlError::ZeroDivisor) => true,
            _ => false,
        }
    }
}
