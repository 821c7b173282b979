use crate::Candidate;
use pg_lists::Items;
use pg_model::{Rows, SqlError, Tag};
use pg_xacts::Me;

/// The transaction block of a session.
#[derive(Clone, Copy, Debug, PartialEq, Eq)]
pub enum Block {
    NoBlock,
    /// BEGIN opened one.
    OpenBlock,
    /// A statement of it has failed.
    FailedBlock,
}

/// A version of a row, named by who wrote it: there is at most one of that name in a row.
#[derive(Clone, Copy, Debug, PartialEq, Eq)]
pub struct VersionName {
    /// The number of the transaction that wrote it.
    pub writer: u32,
    /// The command of that transaction that wrote it.
    pub command: u32,
}

/// How far the candidate has come that was taken up last.
#[derive(Clone, Copy, Debug, PartialEq, Eq)]
pub enum Stage {
    /// It has had its act, or there is none.
    Between,
    Found,
    /// Its row is locked; that version was current then.
    Locked(VersionName),
    /// Its proposed row is placed under that number.
    Placed(u64),
}

/// A statement that has its snapshot.
#[derive(Debug, Drop)]
pub struct Running {
    pub me: Me,
    /// The number of commits that the statement sees.
    pub snapshot: u32,
    /// Its candidates, or their first error.
    pub candidates: Result<Items<Candidate>, SqlError>,
    /// The number of the candidate taken up last, counted from 1, or 0.
    pub candidate: u64,
    /// How far that has come.
    pub stage: Stage,
    /// How many acts the tag counts.
    pub acts: u64,
    /// The rows that these return.
    pub output: Rows,
}

/// Where a session stands.
#[derive(Debug, Drop)]
pub enum Progress {
    /// Between two statements.
    Idle,
    Inside(Running),
    /// In a COMMIT or ROLLBACK whose transaction has ended, and that has yet to be answered so.
    Ending(Tag),
    /// At its end.
    Closed,
}

/// A session: its block, its open transaction, and how far its statement has come.
#[derive(Debug, Drop)]
pub struct SessionView {
    /// The number of its lines that have a reply.
    pub answered: u64,
    pub block: Block,
    /// The number of its open transaction.
    pub transaction: Option<u32>,
    /// The number of commands of that, or 0 where none is open.
    pub command: u32,
    pub progress: Progress,
}
