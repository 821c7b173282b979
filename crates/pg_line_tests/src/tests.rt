//! Lines with their forms, worked out from the rules by hand.
//!
//! A table writes a session with its place as `a@1`, and a statement by its first words or its
//! fault. It is a text of one row a line: tables of tuples take many times as long to prove.
use pg_line::*;
use pg_parse_stmt::StmtTree;
use std::alloc::{AllocError, Global};

/// The most bytes of a line.
const MAX_LINE: usize = 1048576;

/// The first words of a statement.
fn words(tree: &StmtTree) -> &'static str {
    match tree {
        StmtTree::Begin => "begin",
        StmtTree::Commit => "commit",
        StmtTree::Rollback => "rollback",
        StmtTree::Select(_) => "select",
        StmtTree::Insert(_) => "insert",
        StmtTree::Update(_) => "update",
        StmtTree::Delete(_) => "delete",
        StmtTree::Merge(_) => "merge",
        StmtTree::CreateTable(_) => "create table",
        StmtTree::CreateIndex(_) => "create index",
    }
}

fn label_word(label: Label) -> &'static str {
    match label {
        Label::Snapped => "snapped",
        Label::Found => "found",
        Label::Locked => "locked",
        Label::Placed => "placed",
        Label::Claimed => "claimed",
        Label::Acted => "acted",
    }
}

fn shown_fault(alloc: Global, fault: PlaceFault) -> Result<String, AllocError> {
    match fault {
        PlaceFault::Byte(place) => format!(in alloc; "byte {place}"),
        PlaceFault::Literal(place) => format!(in alloc; "literal {place}"),
        PlaceFault::LongName(place) => format!(in alloc; "name {place}"),
        PlaceFault::Syntax(place) => format!(in alloc; "syntax {place}"),
        PlaceFault::Depth(place) => format!(in alloc; "depth {place}"),
        PlaceFault::Items(place) => format!(in alloc; "items {place}"),
    }
}

fn shown_outcome(
    alloc: Global,
    outcome: Result<StmtTree, PlaceFault>,
) -> Result<String, AllocError> {
    match outcome {
        Ok(tree) => {
            let shown = words(&tree);
            drop(tree);
            String::from_str(alloc, shown)
        }
        Err(fault) => shown_fault(alloc, fault),
    }
}

/// A session with its place, behind a word and before another.
fn shown_session(
    alloc: Global,
    before: &str,
    session: &SessionName,
    behind: &str,
) -> Result<Vec<u8>, AllocError> {
    let mut text = Vec::from_slice(alloc, before.as_bytes())?;
    text.extend_from_slice(session.name.as_slice())?;
    let place = format!(in alloc; "@{}", session.place)?;
    text.extend_from_slice(place.as_bytes())?;
    text.extend_from_slice(behind.as_bytes())?;
    Ok(text)
}

/// A session that is given a statement.
fn shown_given(
    alloc: Global,
    session: &SessionName,
    outcome: Result<StmtTree, PlaceFault>,
) -> Result<Vec<u8>, AllocError> {
    let shown = shown_outcome(alloc, outcome)?;
    let mut text = shown_session(alloc, "", session, " ")?;
    text.extend_from_slice(shown.as_bytes())?;
    Ok(text)
}

/// A statement behind `setup`.
fn shown_setup(
    alloc: Global,
    outcome: Result<StmtTree, PlaceFault>,
) -> Result<Vec<u8>, AllocError> {
    let shown = shown_outcome(alloc, outcome)?;
    let mut text = Vec::from_slice(alloc, b"setup ")?;
    text.extend_from_slice(shown.as_bytes())?;
    Ok(text)
}

fn shown_pause(alloc: Global, session: &SessionName, label: Label) -> Result<Vec<u8>, AllocError> {
    let mut text = shown_session(alloc, "pause ", session, " ")?;
    text.extend_from_slice(label_word(label).as_bytes())?;
    Ok(text)
}

/// What a table writes for a form.
fn shown(alloc: Global, form: LineForm) -> Result<Vec<u8>, AllocError> {
    match form {
        LineForm::Comment => Vec::from_slice(alloc, b"comment"),
        LineForm::Setup(outcome) => shown_setup(alloc, outcome),
        LineForm::Given(session, outcome) => shown_given(alloc, &session, outcome),
        LineForm::Pause(session, label) => shown_pause(alloc, &session, label),
        LineForm::Go(session) => shown_session(alloc, "go ", &session, ""),
        LineForm::Cut(session) => shown_session(alloc, "cut ", &session, ""),
        LineForm::Unknown => Vec::from_slice(alloc, b"unknown"),
    }
}

/// Line, form.
const LINES: &str = "\
# => comment
 => comment
\t  => comment
# a: begin => comment
 \t#' => comment
setup: CREATE TABLE t (a integer) => setup create table
\tsetup \t:BEGIN; => setup begin
SETUP: BEGIN => unknown
Setup: BEGIN => unknown
setup begin => unknown
a: BEGIN => a@1 begin
  A_1\t:\tcommit; => a_1@3 commit
_:select a from t => _@1 select
KEY: rollback => key@1 rollback
SELECT: begin => unknown
1a: begin => unknown
pause: begin => unknown
Go: begin => unknown
a b: begin => unknown
a-: begin => unknown
: begin => unknown
a => unknown
go \x7f => unknown
pause a at found => pause a@7 found
 pause\tB  at claimed\t => pause b@8 claimed
pause a at snapped => pause a@7 snapped
pause a at locked => pause a@7 locked
pause a at placed => pause a@7 placed
pause a at acted => pause a@7 acted
pause a at Found => unknown
pause a at => unknown
pause a at found b => unknown
PAUSE a at found => unknown
pause a AT found => unknown
pause cut at found => unknown
go a => go a@4
cut  Z => cut z@6
go a; => unknown
Go a => unknown
go from => unknown
goa => unknown
a: => a@1 syntax 3
a: select => a@1 syntax 10
setup: select from t => setup syntax 15
a: begin begin => a@1 syntax 10
a: # => a@1 byte 4
a: begin # => a@1 byte 10
a: selec 'x => a@1 syntax 4
a: select 'x => a@1 literal 11
a: select 'a\tb' => a@1 byte 13
a: select 9223372036854775808 from t => a@1 literal 11
a: update nnnnnnnnnnnnnnnnnnnnnnnnnnnnnnnnnnnnnnnnnnnnnnnnnnnnnnnnnnnnnnnn set a = 1 => a@1 name 11
nnnnnnnnnnnnnnnnnnnnnnnnnnnnnnnnnnnnnnnnnnnnnnnnnnnnnnnnnnnnnnnn: begin => nnnnnnnnnnnnnnnnnnnnnnnnnnnnnnnnnnnnnnnnnnnnnnnnnnnnnnnnnnnnnnnn@1 begin
a: select ----------------------------------------------------------------1 from t => a@1 depth 75
a: select * from a,a,a,a,a,a,a,a,a => a@1 items 34
";

/// Whether the line of a row has the form behind it.
fn holds(alloc: Global, row: &str) -> Result<bool, AllocError> {
    let (line, wanted) = row.split_once(" => ").unwrap_or((row, ""));
    if line.len() > MAX_LINE {
        return Ok(false);
    }
    let form = read_line(alloc, 1, line.as_bytes())?;
    let text = shown(alloc, form)?;
    Ok(text.as_slice() == wanted.as_bytes())
}

#[test]
fn lines_have_their_forms(rt: HostRuntime) -> Result<(), AllocError> {
    let alloc = rt.alloc();
    for row in LINES.lines() {
        assert!(rt; holds(alloc, row)?, "{row}");
    }
    Ok(())
}

#[test]
fn the_law_is_called() {
    each_line_has_at_most_one_form();
}
