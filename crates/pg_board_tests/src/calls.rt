//! Sessions that step in any order.
use crate::cases::{cut, difference, read};
use pg_board::{Board, Step};
use pg_model::Script;
use pg_print::journal_text;
use std::alloc::{AllocError, Global};

/// Scripts, each with calls and what they answer, and with the journal that they leave. `next` asks
/// who moves next, and the name of a session lets it step until it has made an entry.
const CALLS: &str = "\
rc 1 stepped
a: BEGIN
b: BEGIN
=>
a idle
b idle
next a
b idle
next a
a moved
a idle
next b
a moved
a closed
next b
b moved
next b
b moved
b closed
next nobody
=>
a replied BEGIN
a closed
b replied BEGIN
b closed

rc 1 stepped
setup: CREATE TABLE t (k integer)
setup: INSERT INTO t VALUES (1)
b: BEGIN
b: INSERT INTO t VALUES (2)
a: SELECT k FROM t
=>
next b
b moved
b idle
next b
b moved
next b
b moved
a idle
b moved
b moved
next b
b moved
next a
a moved
next a
b moved
b closed
next a
a moved
a moved
next a
a moved
a closed
next nobody
=>
b replied BEGIN
b snapped 0
b found 1
b placed t 2
b inserted t 2
b replied INSERT 0 1
a snapped 0
b closed
a committed
a replied SELECT 1 (1)
a closed

rc 1 stepped
setup: CREATE TABLE t (k integer)
setup: INSERT INTO t VALUES (1)
a: BEGIN
a: UPDATE t SET k = 2
b: UPDATE t SET k = 3
a: COMMIT
=>
next a
a moved
next a
a moved
a moved
a moved
a moved
a moved
next b
b moved
b moved
b moved
b waiting
next a
b waiting
a moved
b moved
next b
a moved
next a
b moved
next b
b moved
b moved
next a
a moved
a closed
b moved
next nobody
=>
a replied BEGIN
a snapped 0
a found 1
a locked t 1 no key update
a updated t 1
a replied UPDATE 1
b snapped 0
b found 1
b waits a
a committed
b locked t 1 no key update
a replied COMMIT
b updated t 1
b committed
b replied UPDATE 1
a closed
b closed

rc 1 stepped
=>
next nobody
=>";

/// What a step came to; none where it made no entry, and the session can go on.
fn word(step: Step, has_entry: bool) -> Option<&'static str> {
    match step {
        Step::Idle => Some("idle"),
        Step::Closed => Some("closed"),
        Step::Waiting(_) => Some("waiting"),
        Step::Memory => Some("out of memory"),
        _ if has_entry => Some("moved"),
        _ => None,
    }
}

/// One step of a session, where the script has one of that number.
fn step_once(board: &mut Board<'_>, session: usize) -> Option<Step> {
    if session >= board.script().sessions.len() {
        return None;
    }
    Some(board.step(u32::try_from(session).ok()?))
}

/// What the steps of a session come to, up to its next entry; too many steps end the test.
fn step(board: &mut Board<'_>, session: usize) -> Result<&'static str, AllocError> {
    let before = board.journal().len();
    for _ in 0..10000 {
        let step = step_once(board, session).ok_or(AllocError)?;
        if let Some(word) = word(step, before < board.journal().len()) {
            return Ok(word);
        }
    }
    Err(AllocError)
}

/// The name of a session.
fn name(script: &Script, session: u32) -> &[u8] {
    script.sessions.get(session as usize).unwrap_or(b"?")
}

/// Appends who moves next.
fn put_next(text: &mut Vec<u8>, board: &mut Board<'_>) -> Result<(), AllocError> {
    match board.next() {
        Some(session) => text.extend_from_slice(name(board.script(), session)),
        None => text.extend_from_slice(b"nobody"),
    }
}

/// Lets the session of that name step, and appends what it comes to; where there is none of that
/// name, the test ends.
fn put_step(text: &mut Vec<u8>, board: &mut Board<'_>, name: &str) -> Result<(), AllocError> {
    let session = board
        .script()
        .sessions
        .find(name.as_bytes())
        .ok_or(AllocError)?;
    text.extend_from_slice(step(board, session)?.as_bytes())
}

/// Makes the call of a line, and appends the line as the answer has it.
fn put_call(text: &mut Vec<u8>, board: &mut Board<'_>, line: &str) -> Result<(), AllocError> {
    let (call, _) = line.split_once(" ").ok_or(AllocError)?;
    text.extend_from_slice(call.as_bytes())?;
    text.push(b' ')?;
    match call {
        "next" => put_next(text, board)?,
        name => put_step(text, board, name)?,
    }
    text.push(b'\n')?;
    Ok(())
}

/// The calls with what they answer, and behind them the journal.
fn calls_text(alloc: Global, board: &mut Board<'_>, calls: &str) -> Result<Vec<u8>, AllocError> {
    let mut text = Vec::new(alloc);
    for line in calls.lines() {
        put_call(&mut text, board, line)?;
    }
    let entries = journal_text(alloc, board.script(), board.journal())?;
    text.extend_from_slice(b"=>\n")?;
    text.extend_from_slice(entries.as_slice())?;
    Ok(text)
}

/// A board of the script; an error of setup ends the test.
fn board_of(alloc: Global, script: &Script) -> Result<Board<'_>, AllocError> {
    match Board::new(alloc, script) {
        Ok(board) => Ok(board),
        Err(fault) => {
            drop(fault);
            Err(AllocError)
        }
    }
}

/// What the calls of a case answer, unless it is what the case wants.
fn is_answered_otherwise(alloc: Global, case: &str) -> Result<Option<String>, AllocError> {
    let case = format!(in alloc; "{case}\n")?;
    let (text, wanted) = cut(case.as_str());
    let (calls, _) = cut(wanted);
    let script = read(alloc, text)?;
    let mut board = board_of(alloc, &script)?;
    let got = calls_text(alloc, &mut board, calls);
    drop(board);
    drop(script);
    difference(alloc, wanted, got?.as_slice())
}

/// The first case whose calls are answered otherwise than it wants, and what they answer.
fn first_wrong(alloc: Global, cases: &str) -> Result<Option<(&str, String)>, AllocError> {
    for case in cases.split("\n\n") {
        if let Some(got) = is_answered_otherwise(alloc, case)? {
            return Ok(Some((case, got)));
        }
    }
    Ok(None)
}

#[test]
fn sessions_step_in_any_order(rt: HostRuntime) -> Result<(), AllocError> {
    assert_eq!(rt; first_wrong(rt.alloc(), CALLS)?, None);
    Ok(())
}
