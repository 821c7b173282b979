use pg_heap::Version;
use pg_lists::Items;

/// The version that a statement sees of a row. It has values.
#[derive(Debug, Drop)]
pub struct SeenVersion {
    /// The number of the row, counted from 1.
    pub row: u64,
    /// The number of the version, counted from 1.
    pub number: u64,
    pub version: Version,
}

/// What a statement sees among some of the version numbers.
#[derive(Debug, Drop)]
pub struct Scan {
    /// In order of version number.
    pub seen: Items<SeenVersion>,
    /// The version number behind them, or `None` where no number is left.
    pub next: Option<u64>,
}
