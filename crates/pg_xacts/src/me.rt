/// Who acts: a session, with its transaction and the number of that transaction's command.
#[derive(Clone, Copy, Debug, PartialEq, Eq)]
pub struct Me {
    pub session: u32,
    /// The number of the transaction; 0 for setup.
    pub xact: u32,
    /// The number of the command in the transaction.
    pub command: u32,
}
