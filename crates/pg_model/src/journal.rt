use crate::SqlError;
use pg_lists::Items;
use pg_multi::Strength;
use pg_values::Values;

/// Rows of values, as a reply returns them or a table holds them.
pub type Rows = Items<Values>;

/// The tag of a reply: what the statement did, and to how many rows.
#[derive(Clone, Copy, Debug, PartialEq, Eq)]
pub enum Tag {
    Begin,
    Commit,
    Rollback,
    /// `INSERT 0 n`
    Insert(u64),
    /// `UPDATE n`
    Update(u64),
    /// `DELETE n`
    Delete(u64),
    /// `SELECT n`
    Select(u64),
}

/// The reply to a statement: its tag and the rows that it returns. An integer in these rows is kept
/// as a bigint.
#[derive(Debug, Drop)]
pub struct Reply {
    pub tag: Tag,
    pub rows: Rows,
}

/// What a session did in one atomic step.
///
/// Rows, candidates and transactions are numbered from 1, tables from 0; row numbers are per table.
#[derive(Debug, Drop)]
pub enum EntryAct {
    /// The statement took its snapshot: it sees that many commits.
    Snapped(u32),
    /// The candidate of that number was taken up.
    Found(u64),
    /// The row was locked at that strength, to the end of the transaction.
    Locked {
        table: u32,
        row: u64,
        strength: Strength,
    },
    /// The proposed row drew its number.
    Placed {
        table: u32,
        row: u64,
    },
    /// The placed values became the first version of their row.
    Inserted {
        table: u32,
        row: u64,
    },
    /// The row got a newest version with new values.
    Updated {
        table: u32,
        row: u64,
    },
    /// The row got a newest version that says that it is gone.
    Deleted {
        table: u32,
        row: u64,
    },
    /// The candidate was passed over: it has no act.
    Passed,
    /// The session began to wait for that session's transaction to end.
    Waits(u32),
    /// The transaction committed.
    Committed,
    /// A ROLLBACK ended the open transaction.
    RolledBack,
    /// The statement was answered.
    Replied(Reply),
    /// The statement has failed, which ends the transaction.
    Failed(SqlError),
    /// The session ended.
    Closed,
}

/// An entry of the journal: an act of a session.
#[derive(Debug, Drop)]
pub struct Entry {
    pub session: u32,
    pub act: EntryAct,
}

/// The entries of a run, in order.
pub type Journal = Items<Entry>;

/// The committed rows of each table, in order of declaration and of row number.
pub type Tables = Items<Rows>;

/// What a run leaves: its journal, and the committed rows of each table.
#[derive(Debug, Drop)]
pub struct Finished {
    pub journal: Journal,
    pub tables: Tables,
}
