use crate::PlacedRow;
use pg_heap::Row;
use pg_lists::Items;
use pg_multi::RowLock;

/// A table.
#[derive(Debug, Drop)]
pub struct TableView {
    /// A row for each number that it has drawn, in order of number.
    pub rows: Items<Row>,
    /// What is placed there.
    pub placed: Items<PlacedRow>,
    /// For each row, in order of number, the locks on it: of running transactions alone.
    pub locks: Items<Items<RowLock>>,
}
