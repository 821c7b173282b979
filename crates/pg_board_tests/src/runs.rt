//! Scripts that are run to their end in the stepped order.
use crate::cases::{cut, difference, read};
use pg_board::{Board, BoardFault};
use pg_lists::Items;
use pg_model::{Finished, Rows, Script, SqlError};
use pg_print::{journal_text, print, write_error};
use std::alloc::{AllocError, Global};

/// Scripts, each with its journal and then its tables, or with the error of its setup.
const RUNS: &str = "\
rc 1 stepped
setup: CREATE TABLE t (k integer)
setup: INSERT INTO t VALUES (1)
a: BEGIN
a: INSERT INTO t VALUES (2)
a: SELECT k FROM t
b: SELECT k FROM t
a: INSERT INTO t VALUES (3)
a: SELECT k FROM t WHERE k > 1
a: COMMIT
b: SELECT k FROM t
=>
a replied BEGIN
a snapped 0
a found 1
a placed t 2
a inserted t 2
a replied INSERT 0 1
a snapped 0
a replied SELECT 2 (1) (2)
b snapped 0
b committed
b replied SELECT 1 (1)
a snapped 1
a found 1
a placed t 3
a inserted t 3
a replied INSERT 0 1
a snapped 1
a replied SELECT 2 (2) (3)
a committed
a replied COMMIT
b snapped 2
b committed
b replied SELECT 3 (1) (2) (3)
a closed
b closed
table t
1
2
3

rc 1 stepped
setup: CREATE TABLE t (k integer)
a: BEGIN
a: INSERT INTO t VALUES (1)
a: INSERT INTO t VALUES (2), (2147483647 + 1)
a: SELECT k FROM t
a: BEGIN
b: SELECT k FROM t
a: COMMIT
a: SELECT k FROM t
b: INSERT INTO t VALUES (3)
=>
a replied BEGIN
a snapped 0
a found 1
a placed t 1
a inserted t 1
a replied INSERT 0 1
a snapped 0
a failed 22003 integer out of range
a failed 25P02 current transaction is aborted, commands ignored until end of transaction block
a failed 25P02 current transaction is aborted, commands ignored until end of transaction block
b snapped 0
b committed
b replied SELECT 0
a replied ROLLBACK
a snapped 1
a committed
a replied SELECT 0
b snapped 2
b found 1
b placed t 2
b inserted t 2
b committed
b replied INSERT 0 1
a closed
b closed
table t
3

rc 1 stepped
setup: CREATE TABLE t (k integer)
a: INSERT INTO t VALUES (1), (2)
a: INSERT INTO t VALUES (3), (1 / 0)
a: SELECT k FROM t
=>
a snapped 0
a found 1
a placed t 1
a inserted t 1
a found 2
a placed t 2
a inserted t 2
a committed
a replied INSERT 0 2
a snapped 1
a failed 22012 division by zero
a snapped 1
a committed
a replied SELECT 2 (1) (2)
a closed
table t
1
2

rc 1 stepped
setup: CREATE TABLE t (k integer)
a: BEGIN
a: INSERT INTO t VALUES (1)
a: ROLLBACK
a: BEGIN
a: INSERT INTO t VALUES (2)
=>
a replied BEGIN
a snapped 0
a found 1
a placed t 1
a inserted t 1
a replied INSERT 0 1
a rolled back
a replied ROLLBACK
a replied BEGIN
a snapped 0
a found 1
a placed t 2
a inserted t 2
a replied INSERT 0 1
a closed
table t

rc 1 stepped
setup: CREATE TABLE t (k integer)
a: COMMIT
a: BEGIN
a: BEGIN
a: SELECT x FROM t
a: ROLLBACK
a: SELECT k FROM u
a: SELECT k FROM t
=>
a replied COMMIT
a replied BEGIN
a replied BEGIN
a failed 42703 column \"x\" does not exist
a replied ROLLBACK
a failed 42P01 relation \"u\" does not exist
a snapped 0
a committed
a replied SELECT 0
a closed
table t

rc 1 stepped
setup: CREATE TABLE t (k integer, v text)
setup: CREATE TABLE empty (k integer)
setup: CREATE TABLE u (k bigint)
setup: INSERT INTO u VALUES (5), (6)
b: INSERT INTO t (v) VALUES ('x')
a: SELECT k FROM u
b: INSERT INTO u VALUES (7)
=>
b snapped 0
b found 1
b placed t 1
b inserted t 1
b committed
b replied INSERT 0 1
a snapped 1
a committed
a replied SELECT 2 (5) (6)
b snapped 2
b found 1
b placed u 3
b inserted u 3
b committed
b replied INSERT 0 1
b closed
a closed
table t
null|'x'
table empty
table u
5
6
7

rc 1 stepped
setup: CREATE TABLE t (k integer)
setup: INSERT INTO t VALUES (1)
=>
table t
1

rc 1 stepped
setup: CREATE TABLE t (k integer)
setup: INSERT INTO t VALUES (1)
# a line between
setup: INSERT INTO t VALUES (2), (2147483647 + 1)
setup: INSERT INTO t VALUES (1 / 0)
a: BEGIN
=>
line 5: 22003 integer out of range

rc 1 stepped
setup: CREATE TABLE t (k integer)
setup: INSERT INTO t VALUES (1 / 0)
=>
line 3: 22012 division by zero";

/// The sessions move in the stepped order until each has ended; too many steps end the test.
fn run(board: &mut Board<'_>) -> Result<(), AllocError> {
    for _ in 0..10000 {
        let Some(session) = board.next() else {
            return Ok(());
        };
        let _ = board.step(session);
    }
    Err(AllocError)
}

/// What a board leaves on which each session has ended; any other ends the test.
fn finish(mut board: Board<'_>) -> Result<Finished, AllocError> {
    if board.next().is_some() {
        drop(board);
        return Err(AllocError);
    }
    match board.finish() {
        Ok(finished) => Ok(finished),
        Err((board, error)) => {
            drop(board);
            Err(error)
        }
    }
}

/// Appends the tables at the end of a run.
fn put_tables(
    alloc: Global,
    text: &mut Vec<u8>,
    script: &Script,
    tables: Items<Rows>,
) -> Result<(), AllocError> {
    let tables = Finished {
        journal: Items::new(alloc),
        tables,
    };
    let shown = print(alloc, script, &tables);
    drop(tables);
    text.extend_from_slice(shown?.as_slice())
}

/// The lines of the journal, and behind them the tables.
fn finished_text(
    alloc: Global,
    script: &Script,
    finished: Finished,
) -> Result<Vec<u8>, AllocError> {
    let Finished { journal, tables } = finished;
    let entries = journal_text(alloc, script, journal.as_slice());
    drop(journal);
    let mut text = Vec::from_slice(alloc, entries?.as_slice())?;
    put_tables(alloc, &mut text, script, tables)?;
    Ok(text)
}

/// The line and the error of a fault of setup.
fn error_text(alloc: Global, line: u32, error: &SqlError) -> Result<Vec<u8>, AllocError> {
    let mut text = Vec::from_slice(alloc, format!(in alloc; "line {line}: ")?.as_bytes())?;
    text.extend_from_slice(write_error(alloc, error)?.as_slice())?;
    text.push(b'\n')?;
    Ok(text)
}

/// What the run of a script leaves, or why there is none; want of memory ends the test.
fn run_text(alloc: Global, script: &Script) -> Result<Vec<u8>, AllocError> {
    match Board::new(alloc, script) {
        Ok(mut board) => {
            run(&mut board)?;
            finished_text(alloc, script, finish(board)?)
        }
        Err(BoardFault::Setup { line, error }) => {
            let text = error_text(alloc, line, &error);
            drop(error);
            text
        }
        Err(BoardFault::Memory) => Err(AllocError),
    }
}

/// What the run of a case leaves, unless it is what the case wants.
fn is_run_otherwise(alloc: Global, case: &str) -> Result<Option<String>, AllocError> {
    let case = format!(in alloc; "{case}\n")?;
    let (text, wanted) = cut(case.as_str());
    let script = read(alloc, text)?;
    let got = run_text(alloc, &script);
    drop(script);
    difference(alloc, wanted, got?.as_slice())
}

/// The first case that is run otherwise than it wants, and what that leaves.
pub(crate) fn first_wrong(
    alloc: Global,
    cases: &str,
) -> Result<Option<(&str, String)>, AllocError> {
    for case in cases.split("\n\n") {
        if let Some(got) = is_run_otherwise(alloc, case)? {
            return Ok(Some((case, got)));
        }
    }
    Ok(None)
}

#[test]
fn scripts_are_run(rt: HostRuntime) -> Result<(), AllocError> {
    assert_eq!(rt; first_wrong(rt.alloc(), RUNS)?, None);
    Ok(())
}
