ghost use Rattle.std.specs.Prelude.{◌≡◌, [], IfOk, map};
ghost use Rattle.pg_heap.specs.Current.{live_rows};
ghost use Rattle.pg_relation.specs.Printed.{tables_of};
ghost use Rattle.pg_table.specs.States.{table_shown};
ghost use Rattle.pg_board.specs.Servers.{kept_world};
ghost use Rattle.pg_board.specs.Shown.{tables_shown};

use crate::server::Server;
use pg_lists::Items;
use pg_model::{Rows, Tables};
use pg_table::Table;
use pg_xacts::Xacts;
use std::alloc::{AllocError, Global};

/// The committed rows of each table of the server.
pub fn committed_tables(alloc: Global, server: &Server) -> Result<Tables, AllocError>
    ensures { IfOk result (λ tables. tables ≡ tables_of (kept_world server.now)) }
{
    committed_rows(alloc, server.tables.as_slice(), &server.xacts)
}

/// The committed rows of each of the tables.
fn committed_rows(alloc: Global, tables: &[Table], xacts: &Xacts) -> Result<Tables, AllocError>
    ensures { IfOk result (λ committed. committed ≡ map (λ table.
        live_rows xacts.now [] table.rows) (tables_shown tables.now)) }
{
    let mut committed = Items::new(alloc);
    for table in tables {
        committed.push(rows_of(alloc, table, xacts)?)?;
    }
    Ok(committed)
}

/// The committed rows of a table.
fn rows_of(alloc: Global, table: &Table, xacts: &Xacts) -> Result<Rows, AllocError>
    ensures { IfOk result (λ rows. rows ≡ live_rows xacts.now [] (table_shown table.now).rows) }
{
    table.committed(alloc, xacts)
}
