// The state and the text of an error; each function that puts appends one.
ghost use Rattle.std.specs.Prelude.{◌≡◌, ◌++◌, ◌∷◌, IfOk, OnOk, codes};
ghost use Rattle.pg_model.specs.Errors.{counted_text, cycle_text, deadlock_text, error_state, error_text, quoted_name, wait_text};

use pg_lists::Items;
use pg_model::{Counted, SqlError};
use pg_names::Name;
use std::alloc::{AllocError, Global};

/// The five digits and letters of an error's state.
fn state_of(error: &SqlError) -> &[u8]
    ensures { result.now ≡ error_state error.now }
{
    match error {
        SqlError::Aborted => b"25P02",
        SqlError::NoRelation(_) => b"42P01",
        SqlError::SameAlias(_) => b"42712",
        SqlError::NoColumn(_) => b"42703",
        SqlError::ColumnTwice(_) => b"42701",
        SqlError::SetTwice(_) => b"42601",
        SqlError::Ambiguous(_) => b"42702",
        SqlError::WrongCount => b"42601",
        SqlError::NoOperator => b"42883",
        SqlError::WrongKind => b"42804",
        SqlError::RelationExists(_) => b"42P07",
        SqlError::TooMany(_) => b"54000",
        SqlError::TooLong => b"54000",
        SqlError::IntRange => b"22003",
        SqlError::BigRange => b"22003",
        SqlError::ZeroDivisor => b"22012",
        SqlError::Deadlock(_) => b"40P01",
    }
}

fn counted_text(counted: Counted) -> &'static [u8]
    ensures { result.now ≡ counted_text counted }
{
    match counted {
        Counted::Tables => b"tables",
        Counted::Columns => b"columns",
    }
}

/// Words, a name between `"`, and words.
fn put_named(out: &mut Vec<u8>, before: &[u8], name: &[u8], after: &[u8]) -> Result<(), AllocError>
    ensures { OnOk result (out.new.items ≡ out.old.items ++ before.now ++ quoted_name name.now
        ++ after.now) }
{
    out.extend_from_slice(before)?;
    out.push(b'"')?;
    out.extend_from_slice(name)?;
    out.push(b'"')?;
    out.extend_from_slice(after)
}

/// That the session of one name waits for that of another.
fn put_wait(out: &mut Vec<u8>, name: &Name, other: &Name) -> Result<(), AllocError>
    ensures { OnOk result (out.new.items ≡ out.old.items ++ wait_text name.now other.now) }
{
    out.extend_from_slice(name.as_slice())?;
    out.extend_from_slice(b" waits for ")?;
    out.extend_from_slice(other.as_slice())
}

/// The first wait of a cycle that `first` closes, and what stands before the others.
fn put_first_wait(
    out: &mut Vec<u8>,
    first: &Name,
    name: &Name,
    others: &[Name],
) -> Result<(), AllocError>
    ensures { OnOk result (out.new.items ++ cycle_text first.now others.now
        ≡ out.old.items ++ cycle_text first.now (name.now ∷ others.now)) }
{
    match others.first() {
        Some(next) => {
            put_wait(out, name, next)?;
            out.extend_from_slice(b", ")
        }
        None => put_wait(out, name, first),
    }
}

/// The waits of a cycle that `first` closes.
fn put_waits(out: &mut Vec<u8>, first: &Name, names: &[Name]) -> Result<(), AllocError>
    ensures { OnOk result (out.new.items ≡ out.old.items ++ cycle_text first.now names.now) }
{
    let mut names = names;
    while let Some((name, others)) = names.split_first() {
        put_first_wait(out, first, name, others)?;
        names = others;
    }
    Ok(())
}

/// A cycle of sessions, from its first on.
fn put_cycle(out: &mut Vec<u8>, names: &[Name]) -> Result<(), AllocError>
    ensures { OnOk result (out.new.items ≡ out.old.items ++ deadlock_text names.now) }
{
    match names.first() {
        Some(first) => put_waits(out, first, names),
        None => Ok(()),
    }
}

/// That a wait would close a cycle, and the cycle.
fn put_deadlock(out: &mut Vec<u8>, names: &[Name]) -> Result<(), AllocError>
    ensures { OnOk result (out.new.items
        ≡ out.old.items ++ (codes "deadlock detected, cycle " ++ deadlock_text names.now)) }
{
    out.extend_from_slice(b"deadlock detected, cycle ")?;
    put_cycle(out, names)
}

fn put_error_text(out: &mut Vec<u8>, error: &SqlError) -> Result<(), AllocError>
    ensures { OnOk result (out.new.items ≡ out.old.items ++ error_text error.now) }
{
    match error {
        SqlError::Aborted => out.extend_from_slice(
            b"current transaction is aborted, commands ignored until end of transaction block",
        ),
        SqlError::NoRelation(name) => put_named(
            out,
            b"relation ",
            name.as_slice(),
            b" does not exist",
        ),
        SqlError::SameAlias(name) => {
            put_named(
                out,
                b"table name ",
                name.as_slice(),
                b" specified more than once",
            )
        }
        SqlError::NoColumn(name) => put_named(out, b"column ", name.as_slice(), b" does not exist"),
        SqlError::ColumnTwice(name) => put_named(
            out,
            b"column ",
            name.as_slice(),
            b" specified more than once",
        ),
        SqlError::SetTwice(name) => put_named(
            out,
            b"column ",
            name.as_slice(),
            b" is set more than once",
        ),
        SqlError::Ambiguous(name) => put_named(
            out,
            b"column reference ",
            name.as_slice(),
            b" is ambiguous",
        ),
        SqlError::WrongCount => out.extend_from_slice(b"wrong number of expressions"),
        SqlError::NoOperator => out.extend_from_slice(
            b"operator or function does not take these kinds",
        ),
        SqlError::WrongKind => out.extend_from_slice(b"kinds do not fit"),
        SqlError::RelationExists(name) => put_named(
            out,
            b"relation ",
            name.as_slice(),
            b" already exists",
        ),
        SqlError::TooMany(counted) => {
            out.extend_from_slice(b"too many ")?;
            out.extend_from_slice(counted_text(*counted))
        }
        SqlError::TooLong => out.extend_from_slice(b"text longer than 4096 bytes"),
        SqlError::IntRange => out.extend_from_slice(b"integer out of range"),
        SqlError::BigRange => out.extend_from_slice(b"bigint out of range"),
        SqlError::ZeroDivisor => out.extend_from_slice(b"division by zero"),
        SqlError::Deadlock(names) => put_deadlock(out, names.as_slice()),
    }
}

/// An error's state, what stands between, and its text.
pub fn put_error(out: &mut Vec<u8>, between: &[u8], error: &SqlError) -> Result<(), AllocError>
    ensures { OnOk result (out.new.items
        ≡ out.old.items ++ error_state error.now ++ between.now ++ error_text error.now) }
{
    out.extend_from_slice(state_of(error))?;
    out.extend_from_slice(between)?;
    put_error_text(out, error)
}

/// An error in words: its state, a space and its text. Refuses for want of memory alone.
pub fn write_error(alloc: Global, error: &SqlError) -> Result<Items<u8>, AllocError>
    ensures { IfOk result (λ text. text
        ≡ error_state error.now ++ codes " " ++ error_text error.now) }
{
    let mut out = Vec::new(alloc);
    put_error(&mut out, b" ", error)?;
    Ok(Items::from_vec(out))
}
