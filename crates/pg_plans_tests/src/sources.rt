//! A SELECT of two sources, which no script says yet.
use crate::cases::{cut, difference, put_candidates, read, rows_of};
use pg_exprs::Expr;
use pg_lists::Items;
use pg_model::{Line, Script, Select, Statement};
use pg_plans::{SeenRows, candidates};
use std::alloc::{AllocError, Global};

/// A script whose lines propose the rows of two sources, and what a SELECT of the first column of
/// each has.
const PAIRS: &str = "\
rc 1 stepped
setup: CREATE TABLE t (x integer, y bigint)
a: INSERT INTO t VALUES (1), (2)
a: INSERT INTO t VALUES (3), (4), (3)
=>
[Int(1), Int(3)][Int(1), Int(4)][Int(1), Int(3)][Int(2), Int(3)][Int(2), Int(4)][Int(2), Int(3)]";

/// The first columns of two sources.
fn first_columns(alloc: Global) -> Result<Select, AllocError> {
    let mut items = Items::new(alloc);
    items.push(Expr::column(0, 0))?;
    items.push(Expr::column(1, 0))?;
    Ok(Select {
        items,
        sources: Items::new(alloc),
        condition: None,
    })
}

/// What is seen of sources for which the lines propose the rows.
fn seen_of(alloc: Global, lines: &[Line]) -> Result<SeenRows, AllocError> {
    let mut seen = Items::new(alloc);
    for line in lines {
        seen.push(rows_of(alloc, line)?)?;
    }
    Ok(seen)
}

/// What is selected of sources for which the lines of the script propose the rows.
fn selected_text(alloc: Global, script: &Script) -> Result<Vec<u8>, AllocError> {
    let seen = seen_of(alloc, script.lines.as_slice())?;
    let select = Statement::Select(first_columns(alloc)?);
    let answer = candidates(alloc, &select, &seen);
    drop(select);
    let mut text = Vec::new(alloc);
    let put = put_candidates(alloc, &mut text, &answer);
    drop(answer);
    put?;
    Ok(text)
}

/// What is selected of two sources, unless it is what the case wants.
fn is_selected_otherwise(alloc: Global, case: &str) -> Result<Option<String>, AllocError> {
    let (text, wanted) = cut(case);
    let script = read(alloc, text)?;
    let got = selected_text(alloc, &script);
    drop(script);
    difference(alloc, wanted, got?.as_slice())
}

#[test]
fn sources_are_combined_in_order(rt: HostRuntime) -> Result<(), AllocError> {
    assert_eq!(rt; is_selected_otherwise(rt.alloc(), PAIRS)?, None);
    Ok(())
}
