use pg_values::Values;

/// A version of a row.
#[derive(Debug, Drop)]
pub struct Version {
    /// The values, or `None` where the version says that the row is gone.
    pub values: Option<Values>,
    /// The number of the transaction that wrote it.
    pub writer: u32,
    /// The command of that transaction that wrote it.
    pub command: u32,
}
