/// The status of a transaction.
#[derive(Clone, Copy, Debug, PartialEq, Eq)]
pub enum XStatus {
    /// It was begun, and has not ended.
    Running,
    /// Committed, with its place in the commit order, from 1.
    Committed(u32),
    /// Rolled back.
    RolledBack,
}

/// A transaction: the session that began it, and its status.
#[derive(Clone, Copy, Debug, PartialEq, Eq)]
pub struct Transaction {
    pub session: u32,
    pub status: XStatus,
}
