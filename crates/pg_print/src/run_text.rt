ghost use Rattle.std.specs.Prelude.{◌≡◌, ◌++◌, IfOk, OnOk, codes, drop, flat_map, length};
ghost use Rattle.pg_model.specs.Printed.{entry_text, failure_text, reply_text, run_text, table_text, tables_text};
ghost use Rattle.pg_model.specs.Texts.{with_line_end, row_text};

use crate::errors::put_error;
use crate::pieces::{put_row, put_tag, session_name};
use pg_lists::Items;
use pg_model::{Entry, EntryAct, Finished, Reply, Rows, Script, SqlError, TableShape};
use pg_values::Values;
use std::alloc::{AllocError, Global};

/// The text of a run of a script: the replies and failures in journal order, and then the committed
/// rows of each table, in order of declaration.
///
/// Each line ends with LF. A row that a reply returns is a line `session> VALUES`, the reply itself
/// `session: TAG`, and a failure `session: ERROR STATE: TEXT`. A table is a line `table NAME` and a
/// line for each row. Values are joined by `|`: NULL is `null`, a boolean `t` or `f`, a number is
/// in decimal, and a text stands between `'` with each `'` in it doubled. A number that is not one
/// of the script's sessions has the empty name. Tables are printed as long as there are both a name
/// and rows. Refuses for want of memory alone.
pub fn print(alloc: Global, script: &Script, finished: &Finished) -> Result<Items<u8>, AllocError>
    ensures { IfOk result (λ text. text ≡
        run_text script.now finished.now.journal finished.now.tables) }
{
    let mut out = Vec::new(alloc);
    put_entries(&mut out, script, finished.journal.as_slice())?;
    put_tables(
        &mut out,
        script.catalogue.as_slice(),
        finished.tables.as_slice(),
    )?;
    Ok(Items::from_vec(out))
}

fn put_entries(out: &mut Vec<u8>, script: &Script, entries: &[Entry]) -> Result<(), AllocError>
    ensures { OnOk result (out.new.items ≡ out.old.items ++ flat_map
        (entry_text script.now) entries.now) }
{
    for entry in entries {
        put_entry(out, script, entry)?;
    }
    Ok(())
}

fn put_entry(out: &mut Vec<u8>, script: &Script, entry: &Entry) -> Result<(), AllocError>
    ensures { OnOk result (out.new.items ≡ out.old.items ++ entry_text script.now entry.now) }
{
    let name = session_name(script, entry.session);
    match &entry.act {
        EntryAct::Replied(reply) => put_reply(out, name, reply),
        EntryAct::Failed(error) => put_failure(out, name, error),
        EntryAct::Snapped(_)
        | EntryAct::Found(_)
        | EntryAct::Locked { .. }
        | EntryAct::Placed { .. }
        | EntryAct::Inserted { .. }
        | EntryAct::Updated { .. }
        | EntryAct::Deleted { .. }
        | EntryAct::Passed
        | EntryAct::Waits(_)
        | EntryAct::Committed
        | EntryAct::RolledBack
        | EntryAct::Closed => Ok(()),
    }
}

fn put_reply(out: &mut Vec<u8>, name: &[u8], reply: &Reply) -> Result<(), AllocError>
    ensures { OnOk result (out.new.items ≡ out.old.items ++ reply_text name.now reply.now) }
{
    put_returned(out, name, reply.rows.as_slice())?;
    out.extend_from_slice(name)?;
    out.extend_from_slice(b": ")?;
    put_tag(out, reply.tag)?;
    out.push(b'\n')?;
    Ok(())
}

fn put_returned(out: &mut Vec<u8>, name: &[u8], rows: &[Values]) -> Result<(), AllocError>
    ensures { OnOk result (out.new.items ≡ out.old.items
        ++ flat_map (λ row. with_line_end (name.now ++ codes "> " ++ row_text row)) rows.now) }
{
    for row in rows {
        out.extend_from_slice(name)?;
        out.extend_from_slice(b"> ")?;
        put_row(out, row.as_slice())?;
        out.push(b'\n')?;
    }
    Ok(())
}

fn put_failure(out: &mut Vec<u8>, name: &[u8], error: &SqlError) -> Result<(), AllocError>
    ensures { OnOk result (out.new.items ≡ out.old.items ++ failure_text name.now error.now) }
{
    out.extend_from_slice(name)?;
    out.extend_from_slice(b": ERROR ")?;
    put_error(out, b": ", error)?;
    out.push(b'\n')?;
    Ok(())
}

fn put_tables(out: &mut Vec<u8>, shapes: &[TableShape], tables: &[Rows]) -> Result<(), AllocError>
    ensures { OnOk result (out.new.items ≡ out.old.items ++ tables_text shapes.now tables.now) }
{
    let mut shapes = shapes;
    let mut tables = tables;
    while let (Some((shape, more_shapes)), Some((rows, more_tables))) = (
        shapes.split_first(),
        tables.split_first(),
    ) {
        put_table(out, shape, rows.as_slice())?;
        shapes = more_shapes;
        tables = more_tables;
    }
    Ok(())
}

fn put_table(out: &mut Vec<u8>, shape: &TableShape, rows: &[Values]) -> Result<(), AllocError>
    ensures { OnOk result (out.new.items ≡ out.old.items ++ table_text shape.now rows.now) }
{
    out.extend_from_slice(b"table ")?;
    out.extend_from_slice(shape.name.as_slice())?;
    out.push(b'\n')?;
    for row in rows {
        put_row(out, row.as_slice())?;
        out.push(b'\n')?;
    }
    Ok(())
}
