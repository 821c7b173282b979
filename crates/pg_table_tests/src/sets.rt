//! A transaction ends in every table of a set.
use crate::helpers::{commit, committed, me, two, values};
use crate::inserts::InsertSet;
use pg_lists::Items;
use pg_model::{Catalogue, TableShape};
use pg_names::{Name, NamedItems};
use pg_shared::Shared;
use std::alloc::{AllocError, Global};

/// A catalogue of one table.
fn catalogue(alloc: Global) -> Result<Catalogue, AllocError> {
    let mut catalogue = NamedItems::new(alloc);
    catalogue.push(TableShape {
        name: Name::from_slice(alloc, b"t")?,
        columns: Shared::new(alloc, NamedItems::new(alloc))?,
        checks: Shared::new(alloc, Items::new(alloc))?,
    })?;
    Ok(catalogue)
}

/// A set of one table: in it one transaction has a row, and another has two, of which the second
/// was placed first.
fn written(alloc: Global) -> Result<InsertSet, AllocError> {
    let mut tables = InsertSet::new(alloc, &catalogue(alloc)?)?;
    tables.add(0, me(1, 1), values(alloc, 10)?)?;
    tables.add(0, me(2, 1), values(alloc, 20)?)?;
    tables.place(0, me(2, 1), values(alloc, 30)?)?;
    tables.settle(0, 3);
    Ok(tables)
}

/// The values that are left in all tables once the first transaction was rolled back and the other
/// has committed.
fn values_left(alloc: Global) -> Result<Vec<i32>, AllocError> {
    let mut xacts = two(alloc)?;
    let mut tables = written(alloc)?;
    tables.undo_all(1);
    commit(&mut xacts, 2);
    tables.ended_all(2);
    let mut left = Vec::new(alloc);
    for table in tables.tables().as_slice() {
        left.append(&mut committed(alloc, table, &xacts)?)?;
    }
    Ok(left)
}

#[test]
fn a_transaction_ends_in_every_table(rt: HostRuntime) -> Result<(), AllocError> {
    let left = values_left(rt.alloc())?;
    assert_eq!(rt; left.as_slice(), [20, 30].as_slice());
    Ok(())
}

#[test]
fn a_set_has_a_table_for_each_of_its_catalogue(rt: HostRuntime) -> Result<(), AllocError> {
    let written = written(rt.alloc())?;
    let tables = written.tables();
    assert_eq!(rt;
        (
            tables.len(),
            tables.get(0).is_some(),
            tables.get(1).is_some()
        ),
        (1, true, false)
    );
    Ok(())
}
