//! Statements by their texts, with their first errors, worked out by hand from the rules.
use pg_analyse::*;
use pg_lexer::read_front;
use pg_model::{Catalogue, Counted, SqlError};
use pg_names::{Name, NamedItems};
use pg_parse_stmt::{StmtTree, parse_stmt};
use std::alloc::{AllocError, Global};

/// The most bytes of a line.
const MAX_LINE: usize = 1048576;

/// Statements over the tables `t (a integer, b text, c boolean, d bigint)` and `u (a integer)`,
/// each with what analysis answers.
const STATEMENTS: &str = "begin => fits
commit => fits
rollback => fits
select * from t => fits
select t.* from t => fits
select a, t.b from t where c => fits
select x.a from t as x => fits
select a + d from t => fits
select null from t where null => fits
select a from v => no relation v
select t.a from t as x => no relation t
select x.* from t => no relation x
select e from t => no column e
select t.e from t => no column e
select a + b from t => no operator
select not a from t => no operator
select a from t where a => wrong kind
select a from t where a + b = e => no operator
select e from t where x.a => no column e
select a from t where x.a + e => no relation x
insert into t values (1, 'x', true, 2) => fits
insert into t values (1) => fits
insert into t (c, a) values (null, 2) => fits
insert into t (a) values (null) => fits
insert into v values (e) => no relation v
insert into t (e) values (1) => no column e
insert into t (a, b, a) values (1) => column twice a
insert into t (a, a, e) values (1) => column twice a
insert into t (a, b) values (1) => wrong count
insert into t (a) values (1, 2) => wrong count
insert into t values (1, 'x', true, 2, 3) => wrong count
insert into t (a) values (e), (1, 2) => wrong count
insert into t (a) values (a) => no column a
insert into t (a) values (t.a) => no relation t
insert into t (a) values ('x') => wrong kind
insert into t (a, b) values ('x', 1 + 'y') => no operator
insert into t (b) values ('x'), (1) => wrong kind
select t.a from t, u => later
select a from t order by a => later
update t set a = 1 from u => later
update t set a = 1 returning a => later
update t set a = merge_action() => later
delete from t using u => later
delete from t returning a => later
merge into t using u on t.a = u.a when matched then delete => later
insert into t values (1) returning a => later
insert into t values (1) on conflict do nothing => later
create table v (a integer) => later";

/// UPDATEs and DELETEs of those tables, each with what analysis answers.
const CHANGES: &str = "update t set a = 1 => fits
update t set a = a + 1, b = b || 'x' where c => fits
update t as x set a = x.d, d = x.a where x.b is null => fits
update t x set a = null, b = null, c = null, d = null => fits
update t set c = null where null => fits
update v set e = 1, e = 2 => no relation v
update t set e = x.a => no column e
update t set e = 1, e = 2 => no column e
update t set a = 1, b = 'x', a = 2, e = 3 => set twice a
update t set a = e, a = 2 => set twice a
update t set a = t.e => no column e
update t as x set a = t.a => no relation t
update t set a = u.a => no relation u
update t set b = 1, a = e => no column e
update t set b = 1 where e => no column e
update t set a = a + b where a => no operator
update t set b = 1 where c and a => no operator
update t set b = 1 where a => wrong kind
update t set a = b => wrong kind
update t set d = 'x' => wrong kind
update t set a = 1, c = a where null => wrong kind
delete from t => fits
delete from t as x where x.a = a => fits
delete from t where null => fits
delete from v where e => no relation v
delete from t as x where t.a = 1 => no relation t
delete from t where e = 1 => no column e
delete from t where not a => no operator
delete from t where a => wrong kind";

/// Declarations behind those tables, each with what analysis answers.
const DECLARATIONS: &str = "create table v (a integer) => fits
create table v (a integer, b text, c boolean, d bigint) => fits
create table t (a integer, a text) => relation exists t
create table v (a integer, b text, a text, b text) => column twice a
create table v (a integer not null) => later
create table v (a integer primary key) => later
create unique index i on t (a) => later
begin => later";

/// The tree of a statement, where it is one.
fn tree_of(alloc: Global, line: &str) -> Result<Option<StmtTree>, AllocError> {
    let line = line.as_bytes();
    if line.len() > MAX_LINE {
        return Ok(None);
    }
    let lexed = read_front(alloc, line, 1)?;
    match parse_stmt(alloc, 1, &lexed.tokens, lexed.end) {
        Ok(tree) => Ok(Some(tree)),
        Err(_) => Ok(None),
    }
}

/// The words of an error without a name.
fn words(error: &SqlError) -> &str {
    match error {
        SqlError::WrongCount => "wrong count",
        SqlError::NoOperator => "no operator",
        SqlError::WrongKind => "wrong kind",
        SqlError::TooMany(Counted::Tables) => "too many tables",
        SqlError::TooMany(Counted::Columns) => "too many columns",
        _ => "another error",
    }
}

/// A name behind words.
fn named(alloc: Global, words: &str, name: &Name) -> Result<Vec<u8>, AllocError> {
    let mut text = Vec::from_slice(alloc, words.as_bytes())?;
    text.extend_from_slice(name.as_slice())?;
    Ok(text)
}

/// The words of a fault.
fn shown(alloc: Global, fault: &AnalyseFault) -> Result<Vec<u8>, AllocError> {
    match fault {
        AnalyseFault::Later => Vec::from_slice(alloc, b"later"),
        AnalyseFault::Memory => Vec::from_slice(alloc, b"memory"),
        AnalyseFault::Error(SqlError::NoRelation(name)) => named(alloc, "no relation ", name),
        AnalyseFault::Error(SqlError::NoColumn(name)) => named(alloc, "no column ", name),
        AnalyseFault::Error(SqlError::ColumnTwice(name)) => named(alloc, "column twice ", name),
        AnalyseFault::Error(SqlError::SetTwice(name)) => named(alloc, "set twice ", name),
        AnalyseFault::Error(SqlError::Ambiguous(name)) => named(alloc, "ambiguous ", name),
        AnalyseFault::Error(SqlError::RelationExists(name)) => named(
            alloc,
            "relation exists ",
            name,
        ),
        AnalyseFault::Error(error) => Vec::from_slice(alloc, words(error).as_bytes()),
    }
}

/// What the analysis of a text answers.
fn analysed(alloc: Global, catalogue: &Catalogue, line: &str) -> Result<Vec<u8>, AllocError> {
    let Some(tree) = tree_of(alloc, line)? else {
        return Vec::from_slice(alloc, b"no statement");
    };
    let answer = analyse(alloc, 1, catalogue, &tree);
    drop(tree);
    match answer {
        Ok(statement) => {
            drop(statement);
            Vec::from_slice(alloc, b"fits")
        }
        Err(fault) => shown(alloc, &fault),
    }
}

/// What the declaration of a text answers.
fn declared(alloc: Global, catalogue: &mut Catalogue, line: &str) -> Result<Vec<u8>, AllocError> {
    let Some(tree) = tree_of(alloc, line)? else {
        return Vec::from_slice(alloc, b"no statement");
    };
    let answer = declare(alloc, catalogue, &tree);
    drop(tree);
    match answer {
        Ok(()) => Vec::from_slice(alloc, b"fits"),
        Err(fault) => shown(alloc, &fault),
    }
}

/// The catalogue of the two tables.
fn tables(alloc: Global) -> Result<Catalogue, AllocError> {
    let mut catalogue = NamedItems::new(alloc);
    let _ = declared(
        alloc,
        &mut catalogue,
        "create table t (a integer, b text, c boolean, d bigint)",
    )?;
    let _ = declared(alloc, &mut catalogue, "create table u (a integer)")?;
    Ok(catalogue)
}

/// What a row of a table writes, and what it wants.
fn cut(row: &str) -> Result<(&str, &str), AllocError> {
    row.split_once(" => ").ok_or(AllocError)
}

/// Nothing where a row got what it wants, and else what it got.
fn difference(alloc: Global, wanted: &str, got: &[u8]) -> Result<Option<String>, AllocError> {
    if got == wanted.as_bytes() {
        return Ok(None);
    }
    let got = str::from_utf8(got).unwrap_or("what is no text");
    Ok(Some(String::from_str(alloc, got)?))
}

/// What the analysis of a text over the two tables answers, unless it is what is wanted.
fn is_analysed_otherwise(
    alloc: Global,
    line: &str,
    wanted: &str,
) -> Result<Option<String>, AllocError> {
    let catalogue = tables(alloc)?;
    let answer = analysed(alloc, &catalogue, line)?;
    difference(alloc, wanted, answer.as_slice())
}

/// What the declaration of a text behind the two tables answers, unless it is what is wanted.
fn is_declared_otherwise(
    alloc: Global,
    line: &str,
    wanted: &str,
) -> Result<Option<String>, AllocError> {
    let mut catalogue = tables(alloc)?;
    let answer = declared(alloc, &mut catalogue, line)?;
    difference(alloc, wanted, answer.as_slice())
}

/// The first statement that is not analysed as its row says, and its answer.
fn first_wrong_statement(alloc: Global, table: &str) -> Result<Option<(&str, String)>, AllocError> {
    for row in table.lines() {
        let (line, wanted) = cut(row)?;
        if let Some(got) = is_analysed_otherwise(alloc, line, wanted)? {
            return Ok(Some((row, got)));
        }
    }
    Ok(None)
}

/// The first declaration that is not answered as its row says, and its answer.
fn first_wrong_declaration(
    alloc: Global,
    table: &str,
) -> Result<Option<(&str, String)>, AllocError> {
    for row in table.lines() {
        let (line, wanted) = cut(row)?;
        if let Some(got) = is_declared_otherwise(alloc, line, wanted)? {
            return Ok(Some((row, got)));
        }
    }
    Ok(None)
}

#[test]
fn statements_are_analysed(rt: HostRuntime) -> Result<(), AllocError> {
    assert_eq!(rt; first_wrong_statement(rt.alloc(), STATEMENTS)?, None);
    Ok(())
}

#[test]
fn changes_are_analysed(rt: HostRuntime) -> Result<(), AllocError> {
    assert_eq!(rt; first_wrong_statement(rt.alloc(), CHANGES)?, None);
    Ok(())
}

#[test]
fn tables_are_declared(rt: HostRuntime) -> Result<(), AllocError> {
    assert_eq!(rt; first_wrong_declaration(rt.alloc(), DECLARATIONS)?, None);
    Ok(())
}

#[test]
fn tables_are_at_most_64(rt: HostRuntime) -> Result<(), AllocError> {
    let mut catalogue = tables(rt.alloc())?;
    for at in 0..62u32 {
        let line = format!(in rt.alloc(); "create table x{at} (a integer)")?;
        let answer = declared(rt.alloc(), &mut catalogue, line.as_str())?;
        assert_eq!(rt; answer.as_slice(), b"fits".as_slice());
    }
    let answer = declared(rt.alloc(), &mut catalogue, "create table y (a integer)")?;
    assert_eq!(rt; answer.as_slice(), b"too many tables".as_slice());
    Ok(())
}
