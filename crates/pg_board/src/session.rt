use pg_insert::Insert;
use pg_model::Tag;
use pg_select::Select;
use pg_update::Change;
use pg_world::Block;

/// The machine of an open statement.
#[derive(Drop)]
pub enum Machine {
    Insert(Insert),
    Select(Select),
    Change(Change),
}

/// Where a session stands.
#[derive(Drop)]
pub enum Place {
    /// Between two statements.
    Idle,
    /// Inside a statement that has its snapshot.
    Inside(Machine),
    /// Inside a COMMIT or ROLLBACK whose transaction has ended; it is answered with the tag.
    Ending(Tag),
    /// It has ended.
    Closed,
}

/// A session as the server keeps it.
#[derive(Drop)]
pub struct Session {
    /// How many of its statements have a reply.
    pub answered: u64,
    pub block: Block,
    /// The number of its open transaction.
    pub transaction: Option<u32>,
    /// The number of its transaction's last command.
    pub command: u32,
    pub place: Place,
}
