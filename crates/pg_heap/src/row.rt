use crate::Version;
use pg_lists::Items;

/// A row of a table.
#[derive(Debug, Drop)]
pub struct Row {
    /// Its number in the table, counted from 1.
    pub number: u64,
    /// Its versions, oldest first; a row without one is gone.
    pub versions: Items<Version>,
}
