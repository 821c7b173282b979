//! How the tables of the tests write scripts, and what they write for candidates. An empty line
//! stands between two cases, and `=>` between a script and what is wanted.
use pg_heap::Version;
use pg_lists::{Items, TryCopy};
use pg_model::{Content, Line, Script, Statement};
use pg_plans::{PlanFault, candidates};
use pg_print::write_error;
use pg_script::read_script;
use pg_values::Values;
use pg_world::{Candidate, SeenRow};
use std::alloc::{AllocError, Global};

/// The script of a case, and what is wanted.
pub(crate) fn cut(case: &str) -> (&str, &str) {
    case.split_once("\n=>\n").unwrap_or((case, ""))
}

/// The script that a case writes; a refused one ends the test.
pub(crate) fn read(alloc: Global, text: &str) -> Result<Script, AllocError> {
    match read_script(alloc, text.as_bytes()) {
        Ok(script) => Ok(script),
        Err(fault) => {
            drop(fault);
            Err(AllocError)
        }
    }
}

/// The statement of a line; one that analysis refused ends the test.
pub(crate) fn statement_of(line: &Line) -> Result<&Statement, AllocError> {
    let Content::Given {
        session: _,
        statement,
    } = &line.content;
    match statement {
        Ok(statement) => Ok(statement),
        Err(_) => Err(AllocError),
    }
}

/// Appends values, as `Debug` writes them.
fn put_values(alloc: Global, text: &mut Vec<u8>, values: &Values) -> Result<(), AllocError> {
    let shown = format!(in alloc; "{:?}", values.as_slice())?;
    text.extend_from_slice(shown.as_bytes())
}

/// Appends the values of the rows of which a candidate was made.
fn put_partners(alloc: Global, text: &mut Vec<u8>, partners: &[SeenRow]) -> Result<(), AllocError> {
    for row in partners {
        if let Some(values) = &row.version.values {
            put_values(alloc, text, values)?;
        }
    }
    Ok(())
}

/// Appends what was made for each candidate, or the rows of which it was made where nothing is made
/// of them yet.
fn put_made(alloc: Global, text: &mut Vec<u8>, candidates: &[Candidate]) -> Result<(), AllocError> {
    if candidates.is_empty() {
        return text.extend_from_slice(b"none");
    }
    for candidate in candidates {
        if candidate.made.is_empty() {
            put_partners(alloc, text, candidate.partners.as_slice())?;
        } else {
            put_values(alloc, text, &candidate.made)?;
        }
    }
    Ok(())
}

/// Appends what was made for each candidate, or the error; want of memory ends the test.
pub(crate) fn put_candidates(
    alloc: Global,
    text: &mut Vec<u8>,
    answer: &Result<Items<Candidate>, PlanFault>,
) -> Result<(), AllocError> {
    match answer {
        Ok(candidates) => put_made(alloc, text, candidates.as_slice()),
        Err(PlanFault::Error(error)) => {
            text.extend_from_slice(write_error(alloc, error)?.as_slice())
        }
        Err(PlanFault::Memory) => Err(AllocError),
    }
}

/// What is seen of a source for which these rows were proposed.
fn seen_rows(alloc: Global, proposed: &[Candidate]) -> Result<Items<SeenRow>, AllocError> {
    let mut rows = Items::new(alloc);
    for candidate in proposed {
        let values = candidate.made.try_copy(alloc)?;
        rows.push(SeenRow {
            row: 1,
            version: Version {
                values: Some(values),
                writer: 1,
                command: 1,
            },
        })?;
    }
    Ok(rows)
}

/// The rows that a line proposes, as they are seen; an error ends the test.
pub(crate) fn rows_of(alloc: Global, line: &Line) -> Result<Items<SeenRow>, AllocError> {
    let statement = statement_of(line)?;
    match candidates(alloc, statement, &Items::new(alloc)) {
        Ok(proposed) => {
            let rows = seen_rows(alloc, proposed.as_slice());
            drop(proposed);
            rows
        }
        Err(fault) => {
            drop(fault);
            Err(AllocError)
        }
    }
}

/// Nothing where a case got what it wants, and else what it got.
pub(crate) fn difference(
    alloc: Global,
    wanted: &str,
    got: &[u8],
) -> Result<Option<String>, AllocError> {
    if got == wanted.as_bytes() {
        return Ok(None);
    }
    let got = str::from_utf8(got).unwrap_or("what is no text");
    Ok(Some(String::from_str(alloc, got)?))
}
