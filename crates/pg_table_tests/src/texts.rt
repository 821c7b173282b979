//! Calls that stand in a text with what they answer: how they are read, and how answers are
//! written.
use crate::helpers::{committed, seen};
use pg_table::Table;
use pg_xacts::{Me, Xacts};
use std::alloc::{AllocError, Global};

/// What stands before a sign, and what stands behind it.
pub fn cut<'a>(text: &'a str, sign: &str) -> (&'a str, &'a str) {
    text.split_once(sign).unwrap_or((text, ""))
}

/// The first of some numbers, 0 where there is none, and those behind it.
pub fn first(numbers: &str) -> (u32, &str) {
    let (number, others) = cut(numbers, " ");
    (number.parse::<u32>().unwrap_or(0), others)
}

/// Appends a number that is answered.
pub fn put(text: &mut String, alloc: Global, number: u64) -> Result<(), AllocError> {
    text.push_str(format!(in alloc; " -> {number}")?.as_str())
}

/// Appends a number that may be none.
pub fn put_found(text: &mut String, alloc: Global, found: Option<u64>) -> Result<(), AllocError> {
    match found {
        Some(number) => put(text, alloc, number),
        None => text.push_str(" -> none"),
    }
}

/// Appends the row numbers and the values that a statement sees.
pub fn put_seen(
    text: &mut String,
    alloc: Global,
    table: &Table,
    xacts: &Xacts,
    me: Me,
) -> Result<(), AllocError> {
    let rows = seen(alloc, table, xacts, me)?;
    text.push_str(" ->")?;
    for (row, value) in rows.iter() {
        text.push_str(format!(in alloc; " {row}:{value}")?.as_str())?;
    }
    Ok(())
}

/// Appends the values of the committed rows.
pub fn put_committed(
    text: &mut String,
    alloc: Global,
    table: &Table,
    xacts: &Xacts,
) -> Result<(), AllocError> {
    let values = committed(alloc, table, xacts)?;
    text.push_str(" ->")?;
    for value in values.iter() {
        text.push_str(format!(in alloc; " {value}")?.as_str())?;
    }
    Ok(())
}
