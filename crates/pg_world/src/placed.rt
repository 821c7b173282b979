use pg_values::Values;
use pg_xacts::Me;

/// A proposed row that waits to be stored.
#[derive(Debug, Drop)]
pub struct PlacedRow {
    /// The row number that it drew, counted from 1.
    pub row: u64,
    /// Who placed it.
    pub me: Me,
    pub values: Values,
}
