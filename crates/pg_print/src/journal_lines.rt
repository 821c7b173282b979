ghost use Rattle.std.specs.Prelude.{◌≡◌, ◌++◌, IfOk, OnOk, codes, decimal, drop, flat_map};
ghost use Rattle.pg_model.specs.Printed.{act_words, entry_line, journal_text, row_words};
ghost use Rattle.pg_model.specs.Texts.{row_text, strength_text, tag_text};

use crate::errors::put_error;
use crate::pieces::{put_number, put_row, put_tag, session_name, table_name};
use pg_lists::Items;
use pg_model::{Entry, EntryAct, Reply, Script};
use pg_multi::Strength;
use pg_values::Values;
use std::alloc::{AllocError, Global};

/// The text of a journal of a script: the line of each entry, as `write_entry` gives it.
///
/// Refuses for want of memory alone.
pub fn journal_text(
    alloc: Global,
    script: &Script,
    journal: &[Entry],
) -> Result<Items<u8>, AllocError>
    ensures { IfOk result (λ text. text ≡ journal_text script.now journal.now) }
{
    let mut out = Vec::new(alloc);
    for entry in journal {
        put_line(&mut out, script, entry)?;
    }
    Ok(Items::from_vec(out))
}

/// The line of an entry in the text of a journal, `session WORDS`, ended by LF.
///
/// The words of an entry are `snapped COMMITS`, `found NUMBER`, `locked TABLE ROW STRENGTH`, `placed
/// TABLE ROW`, `inserted TABLE ROW`, `updated TABLE ROW`, `deleted TABLE ROW`, `passed`, `waits
/// SESSION`, `committed`, `rolled back`, `replied TAG (VALUES) ..`, `failed STATE TEXT` or
/// `closed`. A number that is not one of the script's sessions or tables has the empty name.
/// Refuses for want of memory alone.
pub fn write_entry(alloc: Global, script: &Script, entry: &Entry) -> Result<Items<u8>, AllocError>
    ensures { IfOk result (λ text. text ≡ entry_line script.now entry.now) }
{
    let mut out = Vec::new(alloc);
    put_line(&mut out, script, entry)?;
    Ok(Items::from_vec(out))
}

fn put_line(out: &mut Vec<u8>, script: &Script, entry: &Entry) -> Result<(), AllocError>
    ensures { OnOk result (out.new.items ≡ out.old.items ++ entry_line script.now entry.now) }
{
    out.extend_from_slice(session_name(script, entry.session))?;
    out.push(b' ')?;
    put_act(out, script, &entry.act)?;
    out.push(b'\n')?;
    Ok(())
}

fn put_act(out: &mut Vec<u8>, script: &Script, act: &EntryAct) -> Result<(), AllocError>
    ensures { OnOk result (out.new.items ≡ out.old.items ++ act_words script.now act.now) }
{
    match act {
        EntryAct::Snapped(commits) => put_counted(out, b"snapped ", u64::from(*commits)),
        EntryAct::Found(number) => put_counted(out, b"found ", *number),
        EntryAct::Locked {
            table,
            row,
            strength,
        } => put_locked(out, script, *table, *row, *strength),
        EntryAct::Placed { table, row } => put_on_row(out, script, b"placed", *table, *row),
        EntryAct::Inserted { table, row } => put_on_row(out, script, b"inserted", *table, *row),
        EntryAct::Updated { table, row } => put_on_row(out, script, b"updated", *table, *row),
        EntryAct::Deleted { table, row } => put_on_row(out, script, b"deleted", *table, *row),
        EntryAct::Passed => out.extend_from_slice(b"passed"),
        EntryAct::Waits(other) => {
            out.extend_from_slice(b"waits ")?;
            out.extend_from_slice(session_name(script, *other))
        }
        EntryAct::Committed => out.extend_from_slice(b"committed"),
        EntryAct::RolledBack => out.extend_from_slice(b"rolled back"),
        EntryAct::Replied(reply) => put_replied(out, reply),
        EntryAct::Failed(error) => {
            out.extend_from_slice(b"failed ")?;
            put_error(out, b" ", error)
        }
        EntryAct::Closed => out.extend_from_slice(b"closed"),
    }
}

fn put_counted(out: &mut Vec<u8>, word: &[u8], number: u64) -> Result<(), AllocError>
    ensures { OnOk result (out.new.items ≡ out.old.items ++ word.now ++ decimal number) }
{
    out.extend_from_slice(word)?;
    put_number(out, number)
}

fn put_on_row(
    out: &mut Vec<u8>,
    script: &Script,
    done: &[u8],
    table: u32,
    row: u64,
) -> Result<(), AllocError>
    ensures { OnOk result (out.new.items ≡ out.old.items
        ++ row_words script.now done.now table row) }
{
    out.extend_from_slice(done)?;
    out.push(b' ')?;
    out.extend_from_slice(table_name(script, table))?;
    put_counted(out, b" ", row)
}

fn strength_text(strength: Strength) -> &'static [u8]
    ensures { result.now ≡ strength_text strength }
{
    match strength {
        Strength::KeyShare => b"key share",
        Strength::Share => b"share",
        Strength::NoKeyUpdate => b"no key update",
        Strength::Update => b"update",
    }
}

fn put_locked(
    out: &mut Vec<u8>,
    script: &Script,
    table: u32,
    row: u64,
    strength: Strength,
) -> Result<(), AllocError>
    ensures { OnOk result (out.new.items ≡ out.old.items
        ++ row_words script.now (codes "locked") table row ++ codes " "
        ++ strength_text strength) }
{
    put_on_row(out, script, b"locked", table, row)?;
    out.push(b' ')?;
    out.extend_from_slice(strength_text(strength))
}

fn put_replied(out: &mut Vec<u8>, reply: &Reply) -> Result<(), AllocError>
    ensures { OnOk result (out.new.items ≡ out.old.items ++ codes "replied "
        ++ tag_text reply.now.tag
        ++ flat_map (λ row. codes " (" ++ row_text row ++ codes ")") reply.now.rows) }
{
    out.extend_from_slice(b"replied ")?;
    put_tag(out, reply.tag)?;
    put_bracketed(out, reply.rows.as_slice())
}

fn put_bracketed(out: &mut Vec<u8>, rows: &[Values]) -> Result<(), AllocError>
    ensures { OnOk result (out.new.items
        ≡ out.old.items ++ flat_map (λ row. codes " (" ++ row_text row ++ codes ")") rows.now) }
{
    for row in rows {
        out.extend_from_slice(b" (")?;
        put_row(out, row.as_slice())?;
        out.push(b')')?;
    }
    Ok(())
}
