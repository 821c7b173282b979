use pg_model::{EntryAct, SqlError};
use pg_xacts::On;

/// What a step of an open statement answers.
#[derive(Debug, Drop)]
pub enum Act {
    /// It did this, which is an entry of the journal.
    Entry(EntryAct),
    /// It came nearer to its end, and there is no entry.
    Quiet,
    /// It has to wait for this.
    Blocked(On),
    /// It fails with this error.
    Failed(SqlError),
    /// Nothing is left to be done but its reply.
    Done,
    /// The step did not get the memory that it needs, and changed nothing.
    Memory,
}
