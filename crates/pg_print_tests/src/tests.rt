ghost use Rattle.std.specs.Prelude.{◌≡◌, ◌∷◌, [], IfOk, codes, false, true};
ghost use Rattle.pg_values.specs.declared.value.Kind.TheVariants as kind;
ghost use Rattle.pg_values.specs.declared.value.Value.TheVariants as value;
ghost use Rattle.pg_model.specs.Statements.{is_catalogue};

use pg_lists::Items;
use pg_model::{
    Catalogue, Column, Columns, Counted, Entry, EntryAct, Finished, Reply, Rows, Script,
    SessionNames, SqlError, TableShape, Tag,
};
use pg_multi::Strength;
use pg_names::{Name, NamedItems, Names};
use pg_print::*;
use pg_shared::Shared;
use pg_values::{Kind, Text, Value};
use std::alloc::{AllocError, Global};
use std::test::Fail;

fn sessions(alloc: Global) -> Result<Names, AllocError>
    ensures { IfOk result (λ names. names ≡ codes "a" ∷ codes "b" ∷ []) }
{
    let mut names = Names::new(alloc);
    names.push(Name::from_slice(alloc, b"a")?)?;
    names.push(Name::from_slice(alloc, b"b")?)?;
    Ok(names)
}

fn columns(alloc: Global) -> Result<Columns, AllocError>
    ensures { IfOk result (λ columns. columns ≡ record {
      name = codes "k";
      kind = kind.Int;
      not_null = false;
      default = value.Null;
    } ∷ []) }
{
    let mut columns = NamedItems::new(alloc);
    columns.push(Column {
        name: Name::from_slice(alloc, b"k")?,
        kind: Kind::Int,
        not_null: false,
        default: Value::Null,
    })?;
    Ok(columns)
}

fn shape(alloc: Global, name: Name) -> Result<TableShape, AllocError>
    ensures { IfOk result (λ shape. shape ≡ record {
      name = name;
      columns = record {
        name = codes "k";
        kind = kind.Int;
        not_null = false;
        default = value.Null;
      } ∷ [];
      checks = [];
    }) }
{
    let columns = Shared::new(alloc, columns(alloc)?)?;
    let checks = Shared::new(alloc, Items::new(alloc))?;
    Ok(TableShape {
        name,
        columns,
        checks,
    })
}

fn catalogue(alloc: Global) -> Result<Catalogue, AllocError>
    ensures { IfOk result (λ catalogue. is_catalogue catalogue ≡ true) }
{
    let mut catalogue = NamedItems::new(alloc);
    catalogue.push(shape(alloc, Name::from_slice(alloc, b"t")?)?)?;
    catalogue.push(shape(alloc, Name::from_slice(alloc, b"empty")?)?)?;
    Ok(catalogue)
}

/// A script with the sessions `a` and `b` and the tables `t` and `empty`.
fn script(alloc: Global) -> Result<Script, AllocError> {
    let sessions = sessions(alloc)?;
    let catalogue = catalogue(alloc)?;
    let Script {
        version,
        mode,
        setup,
        lines,
        ..
    } = Script::empty(alloc);
    Ok(Script {
        version,
        mode,
        sessions,
        catalogue,
        setup,
        lines,
    })
}

/// Two rows: one with each kind of value, and one with an empty text.
fn two_rows(alloc: Global) -> Result<Rows, AllocError> {
    let quoted = Value::Text(Text::from_slice(alloc, b"it's '|")?);
    let all = vec![in alloc;
        Value::Null,
        Value::Bool(true),
        Value::Bool(false),
        Value::Int(-7),
        Value::Big(i64::MIN),
        quoted,
    ]?;
    let empty = vec![in alloc; Value::Text(Text::from_slice(alloc, b"")?)]?;
    let rows = vec![in alloc; Items::from_vec(all), Items::from_vec(empty)]?;
    Ok(Items::from_vec(rows))
}

fn put(journal: &mut Vec<Entry>, session: u32, act: EntryAct) -> Result<(), AllocError> {
    journal.push(Entry { session, act })?;
    Ok(())
}

fn reply(journal: &mut Vec<Entry>, tag: Tag, rows: Rows) -> Result<(), AllocError> {
    put(journal, 0, EntryAct::Replied(Reply { tag, rows }))
}

fn fail(journal: &mut Vec<Entry>, error: SqlError) -> Result<(), AllocError> {
    put(journal, 1, EntryAct::Failed(error))
}

/// Acts other than replies and failures, the last one of a session and of a table that the script
/// has not.
fn acts(alloc: Global) -> Result<Vec<Entry>, AllocError> {
    let mut journal = Vec::new(alloc);
    put(&mut journal, 0, EntryAct::Snapped(12))?;
    put(&mut journal, 1, EntryAct::Found(1))?;
    put(&mut journal, 1, EntryAct::Placed { table: 0, row: 3 })?;
    put(&mut journal, 1, EntryAct::Inserted { table: 1, row: 3 })?;
    put(&mut journal, 1, EntryAct::Committed)?;
    put(&mut journal, 0, EntryAct::RolledBack)?;
    put(&mut journal, 0, EntryAct::Closed)?;
    put(&mut journal, 2, EntryAct::Placed { table: 2, row: 1 })?;
    Ok(journal)
}

fn lock(journal: &mut Vec<Entry>, strength: Strength) -> Result<(), AllocError> {
    let act = EntryAct::Locked {
        table: 0,
        row: 1,
        strength,
    };
    put(journal, 0, act)
}

/// A lock of each strength, acts that change rows, and waits, the last one for a session that the
/// script has not.
fn changes(alloc: Global) -> Result<Vec<Entry>, AllocError> {
    let mut journal = Vec::new(alloc);
    lock(&mut journal, Strength::KeyShare)?;
    lock(&mut journal, Strength::Share)?;
    lock(&mut journal, Strength::NoKeyUpdate)?;
    lock(&mut journal, Strength::Update)?;
    put(&mut journal, 0, EntryAct::Updated { table: 0, row: 1 })?;
    put(&mut journal, 1, EntryAct::Deleted { table: 1, row: 2 })?;
    put(&mut journal, 0, EntryAct::Passed)?;
    put(&mut journal, 0, EntryAct::Waits(1))?;
    put(&mut journal, 1, EntryAct::Waits(2))?;
    Ok(journal)
}

fn replies(alloc: Global) -> Result<Vec<Entry>, AllocError> {
    let mut journal = Vec::new(alloc);
    reply(&mut journal, Tag::Begin, Items::new(alloc))?;
    reply(&mut journal, Tag::Commit, Items::new(alloc))?;
    reply(&mut journal, Tag::Rollback, Items::new(alloc))?;
    reply(&mut journal, Tag::Insert(0), Items::new(alloc))?;
    reply(&mut journal, Tag::Update(3), Items::new(alloc))?;
    reply(&mut journal, Tag::Delete(1), Items::new(alloc))?;
    reply(&mut journal, Tag::Select(2), two_rows(alloc)?)?;
    Ok(journal)
}

fn failures(alloc: Global) -> Result<Vec<Entry>, AllocError> {
    let mut journal = Vec::new(alloc);
    fail(&mut journal, SqlError::Aborted)?;
    fail(
        &mut journal,
        SqlError::NoRelation(Name::from_slice(alloc, b"x_1")?),
    )?;
    fail(
        &mut journal,
        SqlError::SameAlias(Name::from_slice(alloc, b"x")?),
    )?;
    fail(
        &mut journal,
        SqlError::NoColumn(Name::from_slice(alloc, b"x")?),
    )?;
    fail(
        &mut journal,
        SqlError::ColumnTwice(Name::from_slice(alloc, b"x")?),
    )?;
    fail(
        &mut journal,
        SqlError::Ambiguous(Name::from_slice(alloc, b"x")?),
    )?;
    fail(&mut journal, SqlError::WrongCount)?;
    fail(&mut journal, SqlError::NoOperator)?;
    fail(&mut journal, SqlError::WrongKind)?;
    fail(
        &mut journal,
        SqlError::RelationExists(Name::from_slice(alloc, b"x")?),
    )?;
    fail(&mut journal, SqlError::TooMany(Counted::Tables))?;
    fail(&mut journal, SqlError::TooMany(Counted::Columns))?;
    fail(&mut journal, SqlError::TooLong)?;
    fail(&mut journal, SqlError::IntRange)?;
    fail(&mut journal, SqlError::BigRange)?;
    fail(&mut journal, SqlError::ZeroDivisor)?;
    Ok(journal)
}

/// The names of the sessions `a`, `b` and `c`.
fn three_names(alloc: Global) -> Result<SessionNames, AllocError> {
    let mut names = Items::new(alloc);
    names.push(Name::from_slice(alloc, b"a")?)?;
    names.push(Name::from_slice(alloc, b"b")?)?;
    names.push(Name::from_slice(alloc, b"c")?)?;
    Ok(names)
}

/// A column that is set twice, and cycles of three sessions, of one and of none.
fn change_failures(alloc: Global) -> Result<Vec<Entry>, AllocError> {
    let mut journal = Vec::new(alloc);
    let mut one = Items::new(alloc);
    one.push(Name::from_slice(alloc, b"b")?)?;
    let x = Name::from_slice(alloc, b"x")?;
    fail(&mut journal, SqlError::SetTwice(x))?;
    fail(&mut journal, SqlError::Deadlock(three_names(alloc)?))?;
    fail(&mut journal, SqlError::Deadlock(one))?;
    fail(&mut journal, SqlError::Deadlock(Items::new(alloc)))?;
    Ok(journal)
}

#[test]
fn acts_have_their_lines(rt: HostRuntime) -> Result<(), Fail> {
    let alloc = rt.alloc();
    let want =
        "a snapped 12\nb found 1\nb placed t 3\nb inserted empty 3\nb committed\na rolled back\na closed\n \
        placed  1\n";
    let text = journal_text(alloc, &script(alloc)?, acts(alloc)?.as_slice())?;
    assert_eq!(rt; text.as_slice(), want.as_bytes());
    Ok(())
}

#[test]
fn changes_have_their_lines(rt: HostRuntime) -> Result<(), Fail> {
    let alloc = rt.alloc();
    let want =
        "a locked t 1 key share\na locked t 1 share\na locked t 1 no key update\na locked t 1 update\n\
        a updated t 1\nb deleted empty 2\na passed\na waits b\nb waits \n";
    let text = journal_text(alloc, &script(alloc)?, changes(alloc)?.as_slice())?;
    assert_eq!(rt; text.as_slice(), want.as_bytes());
    Ok(())
}

#[test]
fn failures_of_changes_have_their_lines(rt: HostRuntime) -> Result<(), Fail> {
    let alloc = rt.alloc();
    let want = "b failed 42601 column \"x\" is set more than once\n\
        b failed 40P01 deadlock detected, cycle a waits for b, b waits for c, c waits for a\n\
        b failed 40P01 deadlock detected, cycle b waits for b\n\
        b failed 40P01 deadlock detected, cycle \n";
    let text = journal_text(alloc, &script(alloc)?, change_failures(alloc)?.as_slice())?;
    assert_eq!(rt; text.as_slice(), want.as_bytes());
    Ok(())
}

#[test]
fn replies_have_their_lines(rt: HostRuntime) -> Result<(), Fail> {
    let alloc = rt.alloc();
    let want = "a replied BEGIN\na replied COMMIT\na replied ROLLBACK\na replied INSERT 0 0\n\
        a replied UPDATE 3\na replied DELETE 1\n\
        a replied SELECT 2 (null|t|f|-7|-9223372036854775808|'it''s ''|') ('')\n";
    let text = journal_text(alloc, &script(alloc)?, replies(alloc)?.as_slice())?;
    assert_eq!(rt; text.as_slice(), want.as_bytes());
    Ok(())
}

#[test]
fn failures_have_their_lines(rt: HostRuntime) -> Result<(), Fail> {
    let alloc = rt.alloc();
    let want =
        "b failed 25P02 current transaction is aborted, commands ignored until end of transaction block\n\
        b failed 42P01 relation \"x_1\" does not exist\nb failed 42712 table name \"x\" specified more than once\n\
        b failed 42703 column \"x\" does not exist\nb failed 42701 column \"x\" specified more than once\n\
        b failed 42702 column reference \"x\" is ambiguous\nb failed 42601 wrong number of expressions\n\
        b failed 42883 operator or function does not take these kinds\nb failed 42804 kinds do not fit\n\
        b failed 42P07 relation \"x\" already exists\nb failed 54000 too many tables\nb failed 54000 too many columns\n\
        b failed 54000 text longer than 4096 bytes\nb failed 22003 integer out of range\n\
        b failed 22003 bigint out of range\nb failed 22012 division by zero\n";
    let text = journal_text(alloc, &script(alloc)?, failures(alloc)?.as_slice())?;
    assert_eq!(rt; text.as_slice(), want.as_bytes());
    Ok(())
}

#[test]
fn an_entry_has_one_line(rt: HostRuntime) -> Result<(), Fail> {
    let alloc = rt.alloc();
    let entry = Entry {
        session: 1,
        act: EntryAct::Failed(SqlError::ZeroDivisor),
    };
    let text = write_entry(alloc, &script(alloc)?, &entry)?;
    drop(entry);
    assert_eq!(rt;
        text.as_slice(),
        b"b failed 22012 division by zero\n".as_slice()
    );
    Ok(())
}

#[test]
fn a_run_prints_replies_failures_and_tables(rt: HostRuntime) -> Result<(), Fail> {
    let alloc = rt.alloc();
    let mut journal = replies(alloc)?;
    put(&mut journal, 1, EntryAct::Committed)?;
    fail(
        &mut journal,
        SqlError::NoColumn(Name::from_slice(alloc, b"x")?),
    )?;
    let finished = Finished {
        journal: Items::from_vec(journal),
        tables: Items::from_vec(vec![in alloc; two_rows(alloc)?, Items::new(alloc)]?),
    };
    let want = "a: BEGIN\na: COMMIT\na: ROLLBACK\na: INSERT 0 0\na: UPDATE 3\na: DELETE 1\n\
        a> null|t|f|-7|-9223372036854775808|'it''s ''|'\na> ''\na: SELECT 2\n\
        b: ERROR 42703: column \"x\" does not exist\ntable t\n\
        null|t|f|-7|-9223372036854775808|'it''s ''|'\n''\ntable empty\n";
    let text = print(alloc, &script(alloc)?, &finished)?;
    drop(finished);
    assert_eq!(rt; text.as_slice(), want.as_bytes());
    Ok(())
}
