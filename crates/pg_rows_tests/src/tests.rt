use pg_heap::State;
use pg_lists::Items;
use pg_rows::*;
use pg_values::{Value, Values};
use pg_xacts::{Me, Xacts};
use std::alloc::{AllocError, Global};
use std::test::Fail;

const ME: Me = Me {
    session: 0,
    xact: 0,
    command: 1,
};

fn values_of(alloc: Global, number: i32) -> Result<Values, AllocError> {
    let mut values = Items::new(alloc);
    values.push(Value::Int(number))?;
    Ok(values)
}

fn attach(store: &mut RowStore, version: u64) {
    if store.state(version) == Some(State::Placed) {
        store.attach(version);
    }
}

fn discard(store: &mut RowStore, version: u64) {
    if store.state(version) == Some(State::Placed) {
        store.discard(version);
    }
}

fn newest(store: &RowStore, row: u64) -> Option<u64> {
    if row == 0 || row > store.count() {
        return None;
    }
    store.newest(row)
}

fn command_of(store: &RowStore, version: u64) -> Option<u32> {
    store.state(version)?;
    Some(store.version(version).command)
}

#[test]
fn a_draft_becomes_the_newest_version(rt: HostRuntime) -> Result<(), Fail> {
    let alloc = rt.alloc();
    let mut store = RowStore::new(alloc);
    let (row, first) = store.draw(&ME, values_of(alloc, 10)?)?;
    let (other, second) = store.draw(&ME, values_of(alloc, 20)?)?;
    assert_eq!(rt; (row, first, other, second), (1, 1, 2, 2));
    assert_eq!(rt; newest(&store, 1), None);
    attach(&mut store, first);
    discard(&mut store, second);
    assert_eq!(rt; newest(&store, 1), Some(1));
    assert_eq!(rt; newest(&store, 2), None);
    assert_eq!(rt; command_of(&store, 2), Some(1));
    Ok(())
}
