//! Statements with the candidates that they have, worked out by hand.
use crate::cases::{cut, difference, put_candidates, read, rows_of, statement_of};
use pg_lists::Items;
use pg_model::{Line, Script, Statement};
use pg_plans::{SeenRows, candidates, tables_read};
use std::alloc::{AllocError, Global};

/// Scripts, each with the candidates of its lines. Each line sees the rows that the first line
/// proposes. Before the candidates stand the tables that the statement reads. The candidates of an
/// UPDATE or DELETE are the rows of which they are made.
const CASES: &str = "\
rc 1 stepped
setup: CREATE TABLE t (x integer, y bigint)
a: INSERT INTO t VALUES (1, 10), (2, 20)
a: SELECT y, x FROM t
a: SELECT x FROM t WHERE x = 2
a: SELECT x FROM t WHERE NULL
a: SELECT x, x + 1, NULL FROM t WHERE y > 10
a: BEGIN
=>
[Int(1), Big(10)][Int(2), Big(20)]
from 0 [Big(10), Int(1)][Big(20), Int(2)]
from 0 [Int(2)]
from 0 none
from 0 [Int(2), Int(3), Null]
none

rc 1 stepped
setup: CREATE TABLE s (v text)
setup: CREATE TABLE t (x integer, y bigint)
a: INSERT INTO t VALUES (1, 5), (2, 0)
a: SELECT 10 / y FROM t WHERE x = 1
a: SELECT 10 / y FROM t WHERE x = 2
a: SELECT 2147483647 + x FROM t WHERE 10 / y = 2
a: SELECT 10 / y FROM t WHERE 2147483647 + x = 5
=>
[Int(1), Big(5)][Int(2), Big(0)]
from 1 [Big(2)]
from 1 22012 division by zero
from 1 22012 division by zero
from 1 22003 integer out of range

rc 1 stepped
setup: CREATE TABLE t (x integer, y bigint)
a: INSERT INTO t (y) VALUES (1), (2)
a: INSERT INTO t (y, x) VALUES (1, 2)
a: INSERT INTO t VALUES (1)
a: INSERT INTO t (x) VALUES (2147483648)
a: INSERT INTO t VALUES (2147483648, 1 / 0)
a: INSERT INTO t (y, x) VALUES (1 / 0, 2147483648)
a: INSERT INTO t (x) VALUES (1), (1 / 0), (2147483648)
=>
[Null, Big(1)][Null, Big(2)]
[Int(2), Big(1)]
[Int(1), Null]
22003 integer out of range
22003 integer out of range
22012 division by zero
22012 division by zero

rc 1 stepped
setup: CREATE TABLE t (x integer, y bigint)
a: INSERT INTO t VALUES (1, 10), (2, 20)
a: UPDATE t SET y = y + 1 WHERE x = 2
a: UPDATE t SET x = 1 / 0
a: UPDATE t SET y = 3 WHERE NULL
a: DELETE FROM t WHERE y > 5
a: DELETE FROM t WHERE 1 / (x - 1) = 1
=>
[Int(1), Big(10)][Int(2), Big(20)]
from 0 [Int(2), Big(20)]
from 0 [Int(1), Big(10)][Int(2), Big(20)]
from 0 none
from 0 [Int(1), Big(10)][Int(2), Big(20)]
from 0 22012 division by zero";

/// The rows that the first line of a script proposes, as they are seen.
fn first_rows(alloc: Global, script: &Script) -> Result<SeenRows, AllocError> {
    let first = script.lines.get(0).ok_or(AllocError)?;
    let mut seen = Items::new(alloc);
    seen.push(rows_of(alloc, first)?)?;
    Ok(seen)
}

/// The table that a statement reads.
fn table_read(alloc: Global, statement: &Statement) -> Result<&'static str, AllocError> {
    let tables = tables_read(alloc, statement)?;
    Ok(match tables.as_slice() {
        [] => "",
        [0] => "from 0 ",
        [1] => "from 1 ",
        _ => "from others ",
    })
}

/// Appends what is made of the statement of a line.
fn put_line(
    alloc: Global,
    text: &mut Vec<u8>,
    line: &Line,
    seen: &SeenRows,
) -> Result<(), AllocError> {
    let statement = statement_of(line)?;
    text.extend_from_slice(table_read(alloc, statement)?.as_bytes())?;
    let answer = candidates(alloc, statement, seen);
    let put = put_candidates(alloc, text, &answer);
    drop(answer);
    put?;
    text.push(b'\n')?;
    Ok(())
}

/// What is made of the statements of a script.
fn script_text(alloc: Global, script: &Script) -> Result<Vec<u8>, AllocError> {
    let seen = first_rows(alloc, script)?;
    let mut text = Vec::new(alloc);
    for line in script.lines.as_slice() {
        put_line(alloc, &mut text, line, &seen)?;
    }
    Ok(text)
}

/// What is made of the statements of a case, unless it is what the case wants.
fn is_made_otherwise(alloc: Global, case: &str) -> Result<Option<String>, AllocError> {
    let case = format!(in alloc; "{case}\n")?;
    let (text, wanted) = cut(case.as_str());
    let script = read(alloc, text)?;
    let got = script_text(alloc, &script);
    drop(script);
    difference(alloc, wanted, got?.as_slice())
}

/// The first case of which is made otherwise than it wants, and what that is.
fn first_wrong(alloc: Global, cases: &str) -> Result<Option<(&str, String)>, AllocError> {
    for case in cases.split("\n\n") {
        if let Some(got) = is_made_otherwise(alloc, case)? {
            return Ok(Some((case, got)));
        }
    }
    Ok(None)
}

#[test]
fn statements_have_their_candidates(rt: HostRuntime) -> Result<(), AllocError> {
    assert_eq!(rt; first_wrong(rt.alloc(), CASES)?, None);
    Ok(())
}
