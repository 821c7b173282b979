use pg_heap::Version;
use pg_lists::Items;
use pg_values::Values;

/// A row of a source, and the version of it that the statement sees, which has values.
#[derive(Debug, Drop)]
pub struct SeenRow {
    /// The number of the row in its table, counted from 1.
    pub row: u64,
    pub version: Version,
}

/// A candidate: the rows that it was made of, one for each source, and what was made of them.
#[derive(Debug, Drop)]
pub struct Candidate {
    pub partners: Items<SeenRow>,
    /// The proposed row of an INSERT, or the output row of a plain SELECT.
    pub made: Values,
}
