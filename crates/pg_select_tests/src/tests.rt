//! INSERTs into a table of one integer and SELECTs from it, step by step.
ghost use Rattle.pg_select.specs.Steps.{IsSelecting};

use pg_exprs::Expr;
use pg_insert::Insert;
use pg_lists::Items;
use pg_model::{Catalogue, Column, Columns, NamedTable, Source, TableShape};
use pg_names::{Name, NamedItems};
use pg_plans::Act;
use pg_select::{Select, new_select_is_selecting};
use pg_shared::Shared;
use pg_table::TableSet;
use pg_values::{Kind, Value};
use pg_xacts::{Me, Xacts};
use std::alloc::{AllocError, Global};

/// `CREATE TABLE t (k integer)`
fn columns(alloc: Global) -> Result<Columns, AllocError> {
    let mut columns = NamedItems::new(alloc);
    columns.push(Column {
        name: Name::from_slice(alloc, b"k")?,
        kind: Kind::Int,
        not_null: false,
        default: Value::Null,
    })?;
    Ok(columns)
}

fn shape(alloc: Global) -> Result<TableShape, AllocError> {
    Ok(TableShape {
        name: Name::from_slice(alloc, b"t")?,
        columns: Shared::new(alloc, columns(alloc)?)?,
        checks: Shared::new(alloc, Items::new(alloc))?,
    })
}

/// The empty table.
fn tables(alloc: Global) -> Result<TableSet, AllocError> {
    let mut catalogue: Catalogue = NamedItems::new(alloc);
    catalogue.push(shape(alloc)?)?;
    TableSet::new(alloc, &catalogue)
}

fn named_table(alloc: Global) -> Result<NamedTable, AllocError> {
    Ok(NamedTable {
        table: 0,
        shape: shape(alloc)?,
    })
}

/// `INSERT INTO t VALUES (a), (b), ..`, of bigints
fn insert(alloc: Global, numbers: &[i64]) -> Result<pg_model::Insert, AllocError> {
    let mut rows = Items::new(alloc);
    for number in numbers {
        let mut exprs = Items::new(alloc);
        exprs.push(Expr::literal(Value::Big(*number)))?;
        rows.push(exprs)?;
    }
    let mut columns = Items::new(alloc);
    columns.push(0)?;
    Ok(pg_model::Insert {
        target: named_table(alloc)?,
        columns,
        rows,
    })
}

/// `SELECT k FROM t`
fn select(alloc: Global) -> Result<pg_model::Select, AllocError> {
    let mut items = Items::new(alloc);
    items.push(Expr::column(0, 0))?;
    let mut sources = Items::new(alloc);
    sources.push(Source::Table(named_table(alloc)?))?;
    Ok(pg_model::Select {
        items,
        sources,
        condition: None,
    })
}

fn me(xact: u32, command: u32) -> Me {
    Me {
        session: 0,
        xact,
        command,
    }
}

/// Appends what a step of an INSERT answers, and tells whether it made an entry.
fn put_step(
    text: &mut String,
    alloc: Global,
    machine: &mut Insert,
    statement: &pg_model::Insert,
    tables: &mut TableSet,
    xacts: &Xacts,
) -> Result<bool, AllocError> {
    let act = machine.step(statement, tables, xacts);
    let is_entry = matches!(&act, Act::Entry(_));
    let shown = format!(in alloc; "{act:?};");
    drop(act);
    text.push_str(shown?.as_str())?;
    Ok(is_entry)
}

/// Appends what the steps of an INSERT answer, up to the first that makes no entry.
fn put_steps(
    text: &mut String,
    alloc: Global,
    machine: &mut Insert,
    statement: &pg_model::Insert,
    tables: &mut TableSet,
) -> Result<(), AllocError> {
    let xacts = Xacts::new(alloc);
    for _step in 0..1000u32 {
        if !put_step(text, alloc, machine, statement, tables, &xacts)? {
            break;
        }
    }
    Ok(())
}

/// Appends the tag of an INSERT.
fn put_tag(text: &mut String, alloc: Global, machine: &Insert) -> Result<(), AllocError> {
    let reply = machine.reply()?;
    let shown = format!(in alloc; "{:?}", reply.tag);
    drop(reply);
    text.push_str(shown?.as_str())
}

/// Appends what the steps of an INSERT answer, one behind the other, and its tag.
fn put_inserted(
    text: &mut String,
    alloc: Global,
    tables: &mut TableSet,
    numbers: &[i64],
    me: Me,
) -> Result<(), AllocError> {
    let statement = insert(alloc, numbers)?;
    let mut machine = Insert::new(alloc, &statement, me, 0)?;
    let steps = put_steps(text, alloc, &mut machine, &statement, tables);
    let tag = put_tag(text, alloc, &machine);
    drop(machine);
    drop(statement);
    steps?;
    tag
}

/// How many steps of a SELECT are quiet before another comes.
fn quiet_steps(
    machine: &mut Select,
    statement: &pg_model::Select,
    tables: &TableSet,
    xacts: &Xacts,
) -> u32
    requires { IsSelecting statement.now tables.now xacts.now machine.old }
{
    let mut steps = 0;
    while steps < 1000 {
        let act = machine.step(statement, tables, xacts);
        let is_quiet = matches!(&act, Act::Quiet);
        drop(act);
        if !is_quiet {
            return steps;
        }
        steps += 1;
    }
    steps
}

/// How many rows a SELECT answers.
fn rows_of(machine: &Select) -> Result<usize, AllocError> {
    let reply = machine.reply()?;
    let rows = reply.rows.len();
    drop(reply);
    Ok(rows)
}

/// How many steps of a SELECT are quiet, and how many rows it answers.
fn selected(
    alloc: Global,
    statement: &pg_model::Select,
    tables: &TableSet,
    me: Me,
) -> Result<(u32, usize), AllocError> {
    let xacts = Xacts::new(alloc);
    let snapshot = xacts.snapshot()?;
    let mut machine = Select::new(alloc, statement, me, snapshot)?;
    new_select_is_selecting();
    let quiet = quiet_steps(&mut machine, statement, tables, &xacts);
    let rows = rows_of(&machine);
    drop(machine);
    Ok((quiet, rows?))
}

/// Appends how many steps of a SELECT are quiet, and how many rows it answers.
fn put_selected(
    text: &mut String,
    alloc: Global,
    tables: &TableSet,
    me: Me,
) -> Result<(), AllocError> {
    let statement = select(alloc)?;
    let found = selected(alloc, &statement, tables, me);
    drop(statement);
    let (quiet, rows) = found?;
    text.push_str(format!(in alloc; " {quiet} {rows};")?.as_str())
}

/// Adds so many rows of setup.
fn fill(alloc: Global, tables: &mut TableSet, rows: u32) -> Result<(), AllocError> {
    let mut numbers = Vec::new(alloc);
    for _row in 0..rows {
        numbers.push(1)?;
    }
    let mut text = String::new(alloc);
    put_inserted(&mut text, alloc, tables, numbers.as_slice(), me(0, 0))
}

/// Appends what a SELECT answers of a table, then by the command that has written one more row, and
/// by the next one.
fn put_selects(text: &mut String, alloc: Global, tables: &mut TableSet) -> Result<(), AllocError> {
    put_selected(text, alloc, tables, me(1, 1))?;
    let mut steps = String::new(alloc);
    put_inserted(&mut steps, alloc, tables, &[1], me(1, 1))?;
    put_selected(text, alloc, tables, me(1, 1))?;
    put_selected(text, alloc, tables, me(1, 2))
}

/// What SELECTs of a table with so many rows of setup answer.
fn selects_text(alloc: Global, rows: u32) -> Result<String, AllocError> {
    let mut text = format!(in alloc; "{rows}:")?;
    let mut tables = tables(alloc)?;
    fill(alloc, &mut tables, rows)?;
    put_selects(&mut text, alloc, &mut tables)?;
    Ok(text)
}

/// What the steps of an INSERT into an empty table answer.
fn insert_text(alloc: Global, numbers: &[i64]) -> Result<String, AllocError> {
    let mut text = String::new(alloc);
    let mut tables = tables(alloc)?;
    put_inserted(&mut text, alloc, &mut tables, numbers, me(1, 1))?;
    Ok(text)
}

#[test]
fn an_insert_takes_a_step_for_each_entry(rt: HostRuntime) -> Result<(), AllocError> {
    let text = insert_text(rt.alloc(), &[1, 2])?;
    assert_eq!(rt;
        text.as_str(),
        "\
Entry(Found(1));Entry(Placed { table: 0, row: 1 });Entry(Inserted { table: 0, row: 1 });\
Entry(Found(2));Entry(Placed { table: 0, row: 2 });Entry(Inserted { table: 0, row: 2 });\
Done;Insert(2)"
    );
    Ok(())
}

#[test]
fn an_insert_fails_before_its_first_entry(rt: HostRuntime) -> Result<(), AllocError> {
    let text = insert_text(rt.alloc(), &[1, 2147483648])?;
    assert_eq!(rt; text.as_str(), "Failed(IntRange);Insert(0)");
    Ok(())
}

#[test]
fn a_select_reads_piece_by_piece(rt: HostRuntime) -> Result<(), AllocError> {
    for (rows, wanted) in [
        (0, "0: 2 0; 2 0; 2 1;"),
        (64, "64: 2 64; 3 64; 3 65;"),
        (150, "150: 4 150; 4 150; 4 151;"),
    ] {
        assert_eq!(rt; selects_text(rt.alloc(), rows)?.as_str(), wanted);
    }
    Ok(())
}
