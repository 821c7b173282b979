//! How the tables of the tests write scripts and what is wanted of them: an empty line stands
//! between two cases, and `=>` between the parts of a case.
use pg_model::Script;
use pg_script::read_script;
use std::alloc::{AllocError, Global};

/// The first part of a case, and what stands behind it.
pub(crate) fn cut(case: &str) -> (&str, &str) {
    case.split_once("\n=>\n").unwrap_or((case, ""))
}

/// The script that a case writes; a refused one ends the test.
pub(crate) fn read(alloc: Global, text: &str) -> Result<Script, AllocError> {
    match read_script(alloc, text.as_bytes()) {
        Ok(script) => Ok(script),
        Err(fault) => {
            drop(fault);
            Err(AllocError)
        }
    }
}

/// Nothing where a case got what it wants, and else what it got.
pub(crate) fn difference(
    alloc: Global,
    wanted: &str,
    got: &[u8],
) -> Result<Option<String>, AllocError> {
    if got == wanted.as_bytes() {
        return Ok(None);
    }
    let got = str::from_utf8(got).unwrap_or("what is no text");
    Ok(Some(String::from_str(alloc, got)?))
}
