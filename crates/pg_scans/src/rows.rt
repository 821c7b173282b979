ghost use Rattle.std.specs.Prelude.{◌≡◌, ◌++◌, IfOk, OnErr, OnOk, map, ℕ};
ghost use Rattle.pg_scans.specs.Readings.{AreDrawn};
ghost use Rattle.pg_table.specs.Scanned.{in_row_order, seen_row_of};

use pg_lists::Items;
use pg_rows::SeenVersion;
use pg_world::SeenRow;
use std::alloc::{AllocError, Global};

/// The rows with the versions that were found.
fn rows_found(alloc: Global, found: Items<SeenVersion>) -> Result<Vec<SeenRow>, AllocError>
    ensures { IfOk result (λ rows. rows.items ≡ map seen_row_of found) }
{
    let mut rows = Vec::new(alloc);
    for seen in found.into_vec() {
        rows.push(SeenRow {
            row: seen.row,
            version: seen.version,
        })?;
    }
    Ok(rows)
}

/// Puts the rows that were found behind others; or refuses for want of memory alone and leaves
/// these as they were.
pub fn append_rows(
    alloc: Global,
    rows: &mut Vec<SeenRow>,
    found: Items<SeenVersion>,
) -> Result<(), AllocError>
    ensures ok { OnOk result (rows.new.items ≡ rows.old.items ++ map seen_row_of found) }
    ensures err { OnErr result (rows.new.items ≡ rows.old.items) }
{
    let mut more = rows_found(alloc, found)?;
    rows.append(&mut more)?;
    Ok(())
}

/// Puts the rows that were found to others, in order of row number; or refuses for want of memory
/// alone and leaves these as they were.
pub fn append_in_order(
    alloc: Global,
    rows: &mut Vec<SeenRow>,
    found: Items<SeenVersion>,
) -> Result<(), AllocError>
    ensures ok { OnOk result ((drawn : ℕ) →
        AreDrawn drawn (rows.old.items ++ map seen_row_of found) →
        rows.new.items ≡ in_row_order drawn (rows.old.items ++ map seen_row_of found)) }
    ensures err { OnErr result (rows.new.items ≡ rows.old.items) }
{
    let before = rows.len();
    append_rows(alloc, rows, found)?;
    match rows.sort_by_key(|seen| seen.row) {
        Ok(()) => Ok(()),
        Err(refused) => {
            rows.truncate(before);
            Err(refused)
        }
    }
}
