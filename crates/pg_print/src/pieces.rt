// The parts that the texts are made of; each function appends one.
ghost use Rattle.std.specs.Prelude.{◌≡◌, ◌++◌, ◌∷◌, [], OnOk, decimal, drop, flat_map, map};
ghost use Rattle.std.specs.Fmt.{signed_decimal};
ghost use Rattle.pg_model.specs.Printed.{session_name, table_name};
ghost use Rattle.pg_model.specs.Texts.{quoted_form, row_text, tag_text, value_text};

use itoa::Buffer;
use pg_model::{Script, Tag};
use pg_values::Value;
use std::alloc::AllocError;

/// Puts a number in decimal behind the text. Refuses for want of memory alone.
pub fn put_number(out: &mut Vec<u8>, number: u64) -> Result<(), AllocError>
    ensures { OnOk result (out.new.items ≡ out.old.items ++ decimal number) }
{
    let mut buffer = Buffer::new();
    out.extend_from_slice(buffer.format(number).as_bytes())
}

fn put_signed(out: &mut Vec<u8>, number: i64) -> Result<(), AllocError>
    ensures { OnOk result (out.new.items ≡ out.old.items ++ signed_decimal number) }
{
    let mut buffer = Buffer::new();
    out.extend_from_slice(buffer.format(number).as_bytes())
}

fn put_doubled(out: &mut Vec<u8>, bytes: &[u8]) -> Result<(), AllocError>
    ensures { OnOk result (out.new.items ≡ out.old.items ++ quoted_form bytes.now) }
{
    for byte in bytes {
        if *byte == b'\'' {
            out.extend_from_slice(b"''")?;
        } else {
            out.push(*byte)?;
        }
    }
    Ok(())
}

fn put_text(out: &mut Vec<u8>, bytes: &[u8]) -> Result<(), AllocError>
    ensures { OnOk result (out.new.items ≡ out.old.items ++ 39 ∷
        (quoted_form bytes.now ++ 39 ∷ [])) }
{
    out.push(b'\'')?;
    put_doubled(out, bytes)?;
    out.push(b'\'')?;
    Ok(())
}

fn put_value(out: &mut Vec<u8>, value: &Value) -> Result<(), AllocError>
    ensures { OnOk result (out.new.items ≡ out.old.items ++ value_text value.now) }
{
    match value {
        Value::Null => out.extend_from_slice(b"null"),
        Value::Bool(true) => out.extend_from_slice(b"t"),
        Value::Bool(false) => out.extend_from_slice(b"f"),
        Value::Int(number) => put_signed(out, i64::from(*number)),
        Value::Big(number) => put_signed(out, *number),
        Value::Text(text) => put_text(out, text.as_slice()),
    }
}

fn put_more_values(out: &mut Vec<u8>, values: &[Value]) -> Result<(), AllocError>
    ensures { OnOk result (out.new.items
        ≡ out.old.items ++ flat_map (λ value. 124 ∷ value_text value) values.now) }
{
    for value in values {
        out.push(b'|')?;
        put_value(out, value)?;
    }
    Ok(())
}

/// Puts the values of a row behind the text, joined by `|`. Refuses for want of memory alone.
pub fn put_row(out: &mut Vec<u8>, values: &[Value]) -> Result<(), AllocError>
    ensures { OnOk result (out.new.items ≡ out.old.items ++ row_text values.now) }
{
    if let Some((first, more)) = values.split_first() {
        put_value(out, first)?;
        put_more_values(out, more)?;
    }
    Ok(())
}

/// Puts the tag of a reply behind the text. Refuses for want of memory alone.
pub fn put_tag(out: &mut Vec<u8>, tag: Tag) -> Result<(), AllocError>
    ensures { OnOk result (out.new.items ≡ out.old.items ++ tag_text tag) }
{
    match tag {
        Tag::Begin => out.extend_from_slice(b"BEGIN"),
        Tag::Commit => out.extend_from_slice(b"COMMIT"),
        Tag::Rollback => out.extend_from_slice(b"ROLLBACK"),
        Tag::Insert(rows) => {
            out.extend_from_slice(b"INSERT 0 ")?;
            put_number(out, rows)
        }
        Tag::Update(rows) => {
            out.extend_from_slice(b"UPDATE ")?;
            put_number(out, rows)
        }
        Tag::Delete(rows) => {
            out.extend_from_slice(b"DELETE ")?;
            put_number(out, rows)
        }
        Tag::Select(rows) => {
            out.extend_from_slice(b"SELECT ")?;
            put_number(out, rows)
        }
    }
}

/// The name of a session, which is empty where there is none of that number.
pub fn session_name(script: &Script, session: u32) -> &[u8]
    ensures { result.now ≡ session_name script.now session }
{
    match script.sessions.get(session as usize) {
        Some(name) => name,
        None => b"",
    }
}

/// The name of a table, which is empty where there is none of that number.
pub fn table_name(script: &Script, table: u32) -> &[u8]
    ensures { result.now ≡ table_name script.now table }
{
    match script.catalogue.get(table as usize) {
        Some(shape) => shape.name.as_slice(),
        None => b"",
    }
}
