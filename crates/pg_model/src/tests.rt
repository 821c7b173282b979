ghost use Rattle.std.specs.Prelude.{◌≡◌, ◌∷◌, [], Err, IfOk, false, true};
ghost use Rattle.std.specs.Str.{bytes_eq};
ghost use Rattle.pg_values.specs.Kind.{kind_of_value};
ghost use Rattle.pg_model.specs.Kinds.{may_be_stored};
ghost use Rattle.pg_model.specs.Limits.{is_written};
ghost use Rattle.pg_model.specs.Statements.{is_catalogue};
ghost use Rattle.pg_model.specs.declared.error.SqlError.TheVariants.{WrongKind};
ghost use Rattle.pg_model.specs.declared.script.Content.TheVariants.{Given};

use super::*;
use pg_exprs::Expr;
use pg_lists::{IsSame, Items, TryCopy};
use pg_names::{Name, Named, NamedItems, Names};
use pg_shared::Shared;
use pg_values::{Kind, Text, Value};
use std::alloc::{AllocError, Global};
use std::test::Fail;

fn sessions(alloc: Global, first: &[u8], second: &[u8]) -> Result<Names, AllocError>
    requires first { is_written first.now ≡ true }
    requires second { is_written second.now ≡ true }
    requires differ { bytes_eq second.now first.now ≡ false }
    ensures { IfOk result (λ names. names ≡ first.now ∷ second.now ∷ []) }
{
    let mut names = Names::new(alloc);
    names.push(Name::from_slice(alloc, first)?)?;
    names.push(Name::from_slice(alloc, second)?)?;
    Ok(names)
}

fn table(alloc: Global, kind: Kind, default: Value) -> Result<TableShape, AllocError>
    requires { may_be_stored (kind_of_value default) kind ≡ true }
    ensures { IfOk result (λ shape. is_catalogue (shape ∷ []) ≡ true) }
{
    let mut columns = NamedItems::new(alloc);
    columns.push(Column {
        name: Name::from_slice(alloc, b"k")?,
        kind,
        not_null: true,
        default,
    })?;
    Ok(TableShape {
        name: Name::from_slice(alloc, b"t")?,
        columns: Shared::new(alloc, columns)?,
        checks: Shared::new(alloc, Items::new(alloc))?,
    })
}

fn catalogue(alloc: Global, kind: Kind, default: Value) -> Result<Catalogue, AllocError>
    requires { may_be_stored (kind_of_value default) kind ≡ true }
    ensures { IfOk result (λ catalogue. is_catalogue catalogue ≡ true) }
{
    let mut catalogue = NamedItems::new(alloc);
    catalogue.push(table(alloc, kind, default)?)?;
    Ok(catalogue)
}

/// One line, whose analysis has found an error.
fn lines(alloc: Global, number: u32) -> Result<Lines, AllocError>
    ensures { IfOk result (λ lines. lines
        ≡ record { number = number; content = Given 0 (Err WrongKind) } ∷ []) }
{
    let mut lines = Items::new(alloc);
    lines.push(Line {
        number,
        content: Content::Given {
            session: 0,
            statement: Err(SqlError::WrongKind),
        },
    })?;
    Ok(lines)
}

/// A script with two sessions, a table with a column of that kind and default, and a line of that
/// number.
fn script(
    alloc: Global,
    first: &[u8],
    second: &[u8],
    kind: Kind,
    default: Value,
    number: u32,
) -> Result<Script, AllocError>
    requires first { is_written first.now ≡ true }
    requires second { is_written second.now ≡ true }
    requires differ { bytes_eq first.now second.now ≡ false }
    requires opposite { bytes_eq second.now first.now ≡ false }
    requires stored { may_be_stored (kind_of_value default) kind ≡ true }
{
    let sessions = sessions(alloc, first, second)?;
    let catalogue = catalogue(alloc, kind, default)?;
    let lines = lines(alloc, number)?;
    let setup = Items::new(alloc);
    Ok(Script {
        version: 1,
        mode: Mode::Stepped,
        sessions,
        catalogue,
        setup,
        lines,
    })
}

#[test]
fn a_copy_of_a_script_is_the_same(rt: HostRuntime) -> Result<(), Fail> {
    let alloc = rt.alloc();
    let given = script(alloc, b"a", b"b", Kind::Int, Value::Null, 3)?;
    assert!(rt; is_another(alloc, Script::empty(alloc))?);
    assert!(rt; is_copied(alloc, given)?);
    Ok(())
}

/// Whether a script is another than the one with the sessions a and b, an integer column and line
/// 3.
fn is_another(alloc: Global, other: Script) -> Result<bool, AllocError> {
    let given = script(alloc, b"a", b"b", Kind::Int, Value::Null, 3)?;
    let same = given.is_same(&other);
    drop(given);
    drop(other);
    Ok(!same)
}

#[test]
fn scripts_differ_by_their_sessions(rt: HostRuntime) -> Result<(), Fail> {
    let alloc = rt.alloc();
    let named = script(alloc, b"a", b"c", Kind::Int, Value::Null, 3)?;
    assert!(rt; is_another(alloc, named)?);
    let turned = script(alloc, b"b", b"a", Kind::Int, Value::Null, 3)?;
    assert!(rt; is_another(alloc, turned)?);
    Ok(())
}

#[test]
fn scripts_differ_by_their_columns_and_lines(rt: HostRuntime) -> Result<(), Fail> {
    let alloc = rt.alloc();
    let wider = script(alloc, b"a", b"b", Kind::Big, Value::Null, 3)?;
    assert!(rt; is_another(alloc, wider)?);
    let filled = script(alloc, b"a", b"b", Kind::Int, Value::Int(0), 3)?;
    assert!(rt; is_another(alloc, filled)?);
    let later = script(alloc, b"a", b"b", Kind::Int, Value::Null, 4)?;
    assert!(rt; is_another(alloc, later)?);
    Ok(())
}

/// Whether a copy is the same.
fn is_copied<T: TryCopy + IsSame>(alloc: Global, given: T) -> Result<bool, AllocError> {
    let copy = given.try_copy(alloc)?;
    let same = copy.is_same(&given);
    drop(copy);
    drop(given);
    Ok(same)
}

fn target(alloc: Global) -> Result<NamedTable, AllocError> {
    let shape = table(
        alloc,
        Kind::Text,
        Value::Text(Text::from_slice(alloc, b"x")?),
    )?;
    Ok(NamedTable { table: 0, shape })
}

#[test]
fn statements_are_copied(rt: HostRuntime) -> Result<(), Fail> {
    let alloc = rt.alloc();
    let select = Select {
        items: Items::from_vec(vec![in alloc; Expr::column(0, 0)]?),
        sources: Items::from_vec(vec![in alloc; Source::Table(target(alloc)?)]?),
        condition: Some(Expr::literal(Value::Bool(true))),
    };
    let row = Items::from_vec(vec![in alloc; Expr::literal(Value::Null)]?);
    let insert = Insert {
        target: target(alloc)?,
        columns: Items::from_vec(vec![in alloc; 0]?),
        rows: Items::from_vec(vec![in alloc; row]?),
    };
    assert!(rt; is_copied(alloc, Statement::Select(select))?);
    assert!(rt; is_copied(alloc, SetupInsert { number: 2, insert })?);
    assert!(rt; is_copied(alloc, Statement::Begin)?);
    assert!(rt; is_copied(alloc, Statement::Commit)?);
    assert!(rt; is_copied(alloc, Statement::Rollback)?);
    assert!(rt; !Statement::Commit.is_same(&Statement::Rollback));
    Ok(())
}

#[test]
fn changes_are_copied(rt: HostRuntime) -> Result<(), Fail> {
    let alloc = rt.alloc();
    let assignment = Assignment {
        column: 0,
        value: Expr::column(0, 0),
    };
    let update = Change {
        target: target(alloc)?,
        action: Action::Set(Items::from_vec(vec![in alloc; assignment]?)),
        sources: Items::new(alloc),
        condition: Some(Expr::literal(Value::Bool(true))),
    };
    let delete = Change {
        target: target(alloc)?,
        action: Action::Delete,
        sources: Items::new(alloc),
        condition: None,
    };
    assert!(rt; !update.action.is_same(&delete.action));
    assert!(rt; is_copied(alloc, Statement::Change(update))?);
    assert!(rt; is_copied(alloc, Statement::Change(delete))?);
    Ok(())
}

#[test]
fn targets_are_copied(rt: HostRuntime) -> Result<(), Fail> {
    let alloc = rt.alloc();
    let named = Target::Constraint(Name::from_slice(alloc, b"t_pkey")?);
    let listed = Target::Elements {
        elements: Items::from_vec(vec![in alloc; Expr::column(0, 0)]?),
        predicate: None,
    };
    assert!(rt; !named.is_same(&listed));
    assert!(rt; is_copied(alloc, named)?);
    assert!(rt; is_copied(alloc, listed)?);
    assert!(rt; is_copied(alloc, Target::Any)?);
    Ok(())
}

#[test]
fn checks_and_names_are_copied(rt: HostRuntime) -> Result<(), Fail> {
    let alloc = rt.alloc();
    let check = Check {
        name: Name::from_slice(alloc, b"t_check")?,
        expr: Expr::literal(Value::Bool(true)),
    };
    let shape = table(alloc, Kind::Bool, Value::Bool(false))?;
    assert_eq!(rt; shape.name().as_slice(), b"t".as_slice());
    assert!(rt; is_copied(alloc, check)?);
    assert!(rt; is_copied(alloc, shape)?);
    Ok(())
}

#[test]
fn errors_are_copied(rt: HostRuntime) -> Result<(), Fail> {
    let alloc = rt.alloc();
    let x = Name::from_slice(alloc, b"x")?;
    let other = SqlError::NoColumn(Name::from_slice(alloc, b"y")?);
    assert!(rt; !SqlError::NoColumn(x.try_copy(alloc)?).is_same(&other));
    drop(other);
    assert!(rt; is_copied(alloc, SqlError::NoRelation(x.try_copy(alloc)?))?);
    assert!(rt; is_copied(alloc, SqlError::SameAlias(x.try_copy(alloc)?))?);
    assert!(rt; is_copied(alloc, SqlError::NoColumn(x.try_copy(alloc)?))?);
    assert!(rt; is_copied(alloc, SqlError::ColumnTwice(x.try_copy(alloc)?))?);
    assert!(rt; is_copied(alloc, SqlError::SetTwice(x.try_copy(alloc)?))?);
    assert!(rt; is_copied(alloc, SqlError::Ambiguous(x.try_copy(alloc)?))?);
    assert!(rt; is_copied(alloc, SqlError::RelationExists(x))?);
    Ok(())
}

/// The error of a cycle of two sessions.
fn deadlock(alloc: Global, first: Name, second: Name) -> Result<SqlError, AllocError> {
    Ok(SqlError::Deadlock(Items::from_vec(vec![in alloc; first, second]?)))
}

#[test]
fn deadlocks_are_copied(rt: HostRuntime) -> Result<(), Fail> {
    let alloc = rt.alloc();
    let a = Name::from_slice(alloc, b"a")?;
    let b = Name::from_slice(alloc, b"b")?;
    let turned = deadlock(alloc, b.try_copy(alloc)?, a.try_copy(alloc)?)?;
    let given = deadlock(alloc, a, b)?;
    assert!(rt; !given.is_same(&turned));
    drop(turned);
    assert!(rt; is_copied(alloc, given)?);
    Ok(())
}

#[test]
fn errors_without_names_are_copied(rt: HostRuntime) -> Result<(), Fail> {
    let alloc = rt.alloc();
    assert!(rt; is_copied(alloc, SqlError::Aborted)?);
    assert!(rt; is_copied(alloc, SqlError::WrongCount)?);
    assert!(rt; is_copied(alloc, SqlError::NoOperator)?);
    assert!(rt; is_copied(alloc, SqlError::WrongKind)?);
    assert!(rt; is_copied(alloc, SqlError::TooMany(Counted::Tables))?);
    assert!(rt; is_copied(alloc, SqlError::TooMany(Counted::Columns))?);
    assert!(rt; is_copied(alloc, SqlError::TooLong)?);
    assert!(rt; is_copied(alloc, SqlError::IntRange)?);
    assert!(rt; is_copied(alloc, SqlError::BigRange)?);
    assert!(rt; is_copied(alloc, SqlError::ZeroDivisor)?);
    Ok(())
}
