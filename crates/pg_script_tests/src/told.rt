//! How the tables of the tests write scripts, and what they write for the answers.
use pg_model::{
    Action, Assignments, Change, Column, Content, Counted, Insert, Line, Mode, Script, Select,
    Source, SqlError, Statement, TableShape,
};
use pg_names::Name;
use pg_script::{Reason, ScriptFault};
use pg_values::Kind;
use std::alloc::{AllocError, Global};

/// Appends a piece with a number in place of `$`.
fn put_numbered(
    alloc: Global,
    text: &mut String,
    number: u32,
    piece: &str,
) -> Result<(), AllocError> {
    let number = format!(in alloc; "{number}")?;
    let numbered = piece.replace(alloc, "$", number.as_str())?;
    text.push_str(numbered.as_str())
}

/// Appends a piece so many times, with the numbers from 1 on in place of `$`.
fn put_times(alloc: Global, text: &mut String, times: u32, piece: &str) -> Result<(), AllocError> {
    let is_numbered = piece.contains("$");
    for number in 1..=times {
        if is_numbered {
            put_numbered(alloc, text, number, piece)?;
        } else {
            text.push_str(piece)?;
        }
    }
    Ok(())
}

/// Appends what a table writes as `3 x$}y`: `x1x2x3y`.
fn put_written(alloc: Global, text: &mut String, written: &str) -> Result<(), AllocError> {
    let (repeated, behind) = written.split_once("}").ok_or(AllocError)?;
    let (times, piece) = repeated.split_once(" ").ok_or(AllocError)?;
    let times = times.parse::<u32>().map_err(|_| AllocError)?;
    put_times(alloc, text, times, piece)?;
    text.push_str(behind)
}

/// The script that a table writes in a row: ` // ` stands between lines, and `{3 x$}` for `x1x2x3`.
pub(crate) fn script_of(alloc: Global, row: &str) -> Result<String, AllocError> {
    let mut text = String::new(alloc);
    for (at, written) in row.split("{").enumerate() {
        if at == 0 {
            text.push_str(written)?;
        } else {
            put_written(alloc, &mut text, written)?;
        }
    }
    text.replace(alloc, " // ", "\n")
}

/// Appends words, a name between `"`, and words.
fn put_named(
    text: &mut Vec<u8>,
    before: &str,
    name: &Name,
    behind: &str,
) -> Result<(), AllocError> {
    text.extend_from_slice(before.as_bytes())?;
    text.extend_from_slice(b" \"")?;
    text.extend_from_slice(name.as_slice())?;
    text.extend_from_slice(b"\" ")?;
    text.extend_from_slice(behind.as_bytes())
}

/// The state and the text of an error without names.
fn words_of(error: &SqlError) -> &'static str {
    match error {
        SqlError::WrongCount => "42601 wrong number of expressions",
        SqlError::NoOperator => "42883 operator or function does not take these kinds",
        SqlError::WrongKind => "42804 kinds do not fit",
        SqlError::TooMany(Counted::Tables) => "54000 too many tables",
        SqlError::TooMany(Counted::Columns) => "54000 too many columns",
        _ => "an error that no reading finds",
    }
}

/// Appends the state and the text of an error.
fn put_error(text: &mut Vec<u8>, error: &SqlError) -> Result<(), AllocError> {
    match error {
        SqlError::NoRelation(name) => put_named(text, "42P01 relation", name, "does not exist"),
        SqlError::NoColumn(name) => put_named(text, "42703 column", name, "does not exist"),
        SqlError::ColumnTwice(name) => {
            put_named(text, "42701 column", name, "specified more than once")
        }
        SqlError::SetTwice(name) => put_named(text, "42601 column", name, "is set more than once"),
        SqlError::RelationExists(name) => {
            put_named(text, "42P07 relation", name, "already exists")
        }
        _ => text.extend_from_slice(words_of(error).as_bytes()),
    }
}

/// The words of a reason that has no place.
fn words(reason: &Reason) -> &'static str {
    match reason {
        Reason::Size => "size",
        Reason::Header => "header",
        Reason::Later => "later",
        Reason::Line => "line",
        Reason::Free => "free",
        Reason::Order => "order",
        Reason::Sessions => "sessions",
        Reason::Place => "place",
        _ => "another reason",
    }
}

/// Appends a reason with a place.
fn put_placed(
    alloc: Global,
    text: &mut Vec<u8>,
    reason: &str,
    place: u32,
) -> Result<(), AllocError> {
    let shown = format!(in alloc; "{reason} at {place}")?;
    text.extend_from_slice(shown.as_bytes())
}

/// Appends a reason.
fn put_reason(alloc: Global, text: &mut Vec<u8>, reason: &Reason) -> Result<(), AllocError> {
    match reason {
        Reason::Byte(place) => put_placed(alloc, text, "byte", *place),
        Reason::Literal(place) => put_placed(alloc, text, "literal", *place),
        Reason::LongName(place) => put_placed(alloc, text, "name", *place),
        Reason::Syntax(place) => put_placed(alloc, text, "syntax", *place),
        Reason::Depth(place) => put_placed(alloc, text, "depth", *place),
        Reason::Items(place) => put_placed(alloc, text, "items", *place),
        Reason::Error(error) => put_error(text, error),
        _ => text.extend_from_slice(words(reason).as_bytes()),
    }
}

/// The line that is refused, and the reason.
fn refusal(alloc: Global, fault: &ScriptFault) -> Result<Vec<u8>, AllocError> {
    let ScriptFault::Refused { line, reason } = fault else {
        return Err(AllocError);
    };
    let mut text = Vec::from_slice(alloc, format!(in alloc; "line {line}: ")?.as_bytes())?;
    put_reason(alloc, &mut text, reason)?;
    Ok(text)
}

/// Appends the error that a line has, if it has one.
fn put_line_error(alloc: Global, text: &mut Vec<u8>, line: &Line) -> Result<(), AllocError> {
    let Content::Given {
        session: _,
        statement,
    } = &line.content;
    if let Err(error) = statement {
        text.extend_from_slice(format!(in alloc; ", line {}: ", line.number)?.as_bytes())?;
        put_error(text, error)?;
    }
    Ok(())
}

/// `read`, and the lines that have errors.
fn reading(alloc: Global, script: &Script) -> Result<Vec<u8>, AllocError> {
    let mut text = Vec::from_slice(alloc, b"read")?;
    for line in script.lines.as_slice() {
        put_line_error(alloc, &mut text, line)?;
    }
    Ok(text)
}

/// What a table writes for the answer to a script: the refused line with the reason, or `read` and
/// the lines with errors.
pub(crate) fn told(
    alloc: Global,
    answer: Result<Script, ScriptFault>,
) -> Result<Vec<u8>, AllocError> {
    match answer {
        Ok(script) => {
            let text = reading(alloc, &script);
            drop(script);
            text
        }
        Err(fault) => {
            let text = refusal(alloc, &fault);
            drop(fault);
            text
        }
    }
}

fn kind_word(kind: Kind) -> &'static str {
    match kind {
        Kind::Bool => "boolean",
        Kind::Int => "integer",
        Kind::Big => "bigint",
        Kind::Text => "text",
    }
}

fn put_column(text: &mut Vec<u8>, column: &Column) -> Result<(), AllocError> {
    text.push(b' ')?;
    text.extend_from_slice(column.name.as_slice())?;
    text.push(b' ')?;
    text.extend_from_slice(kind_word(column.kind).as_bytes())
}

fn put_table(text: &mut Vec<u8>, table: &TableShape) -> Result<(), AllocError> {
    text.extend_from_slice(b", table ")?;
    text.extend_from_slice(table.name.as_slice())?;
    for column in table.columns.as_slice() {
        put_column(text, column)?;
    }
    Ok(())
}

/// Appends the table of an INSERT, the columns, and how many rows there are.
fn put_insert(alloc: Global, text: &mut Vec<u8>, insert: &Insert) -> Result<(), AllocError> {
    let rows = insert.rows.len();
    text.extend_from_slice(format!(in alloc;
        "insert {rows} into {}",
        insert.target.table
    )?.as_bytes())?;
    for column in insert.columns.as_slice() {
        text.extend_from_slice(format!(in alloc; " {column}")?.as_bytes())?;
    }
    Ok(())
}

/// Appends how many items a SELECT has, its table, and whether there is a condition.
fn put_select(alloc: Global, text: &mut Vec<u8>, select: &Select) -> Result<(), AllocError> {
    let items = select.items.len();
    text.extend_from_slice(format!(in alloc; "select {items}")?.as_bytes())?;
    for source in select.sources.as_slice() {
        let Source::Table(named) = source;
        text.extend_from_slice(format!(in alloc; " from {}", named.table)?.as_bytes())?;
    }
    if select.condition.is_some() {
        text.extend_from_slice(b" where")?;
    }
    Ok(())
}

/// Appends the table of an UPDATE with the columns that it sets, or of a DELETE, and whether there
/// is a condition.
fn put_change(alloc: Global, text: &mut Vec<u8>, change: &Change) -> Result<(), AllocError> {
    let table = change.target.table;
    match &change.action {
        Action::Set(assignments) => {
            text.extend_from_slice(format!(in alloc; "update {table}")?.as_bytes())?;
            put_columns_set(alloc, text, assignments)?;
        }
        Action::Delete => {
            text.extend_from_slice(format!(in alloc; "delete from {table}")?.as_bytes())?;
        }
    }
    if change.condition.is_some() {
        text.extend_from_slice(b" where")?;
    }
    Ok(())
}

/// Appends the columns that a SET list names.
fn put_columns_set(
    alloc: Global,
    text: &mut Vec<u8>,
    assignments: &Assignments,
) -> Result<(), AllocError> {
    for assignment in assignments.as_slice() {
        text.extend_from_slice(format!(in alloc; " {}", assignment.column)?.as_bytes())?;
    }
    Ok(())
}

fn put_statement(
    alloc: Global,
    text: &mut Vec<u8>,
    statement: &Statement,
) -> Result<(), AllocError> {
    match statement {
        Statement::Begin => text.extend_from_slice(b"begin"),
        Statement::Commit => text.extend_from_slice(b"commit"),
        Statement::Rollback => text.extend_from_slice(b"rollback"),
        Statement::Select(select) => put_select(alloc, text, select),
        Statement::Insert(insert) => put_insert(alloc, text, insert),
        Statement::Change(change) => put_change(alloc, text, change),
    }
}

fn put_line(alloc: Global, text: &mut Vec<u8>, line: &Line) -> Result<(), AllocError> {
    let Content::Given { session, statement } = &line.content;
    text.extend_from_slice(format!(in alloc; ", {} session {session} ", line.number)?.as_bytes())?;
    match statement {
        Ok(statement) => put_statement(alloc, text, statement),
        Err(error) => put_error(text, error),
    }
}

/// Appends the names of the sessions, and the tables.
fn put_names(text: &mut Vec<u8>, script: &Script) -> Result<(), AllocError> {
    for session in 0..script.sessions.len() {
        text.extend_from_slice(b", ")?;
        text.extend_from_slice(script.sessions.get(session).unwrap_or(b"?"))?;
    }
    for table in script.catalogue.as_slice() {
        put_table(text, table)?;
    }
    Ok(())
}

/// Appends the INSERTs of setup and the lines of the sessions.
fn put_lines(alloc: Global, text: &mut Vec<u8>, script: &Script) -> Result<(), AllocError> {
    for setup in script.setup.as_slice() {
        text.extend_from_slice(format!(in alloc; ", {} setup ", setup.number)?.as_bytes())?;
        put_insert(alloc, text, &setup.insert)?;
    }
    for line in script.lines.as_slice() {
        put_line(alloc, text, line)?;
    }
    Ok(())
}

/// What a table writes for the parts of a script.
pub(crate) fn parts(alloc: Global, script: &Script) -> Result<Vec<u8>, AllocError> {
    let mode = match script.mode {
        Mode::Stepped => "stepped",
        Mode::Free => "free",
    };
    let mut text = Vec::from_slice(alloc, mode.as_bytes())?;
    put_names(&mut text, script)?;
    put_lines(alloc, &mut text, script)?;
    Ok(text)
}
