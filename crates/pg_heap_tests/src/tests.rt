ghost use Rattle.std.specs.Prelude.{◌↔◌, ◌<◌, ◌≤◌, IsTrue, length};

use pg_heap::*;
use pg_lists::Items;
use pg_values::Value;
use pg_xacts::Me;
use std::alloc::{AllocError, Global};
use std::test::Fail;

/// Places a version of the row 1, with one number as its values.
fn place(alloc: Global, heap: &mut Heap, xact: u32, number: i32) -> Result<u64, AllocError> {
    let mut values = Items::new(alloc);
    values.push(Value::Int(number))?;
    let writer = Me {
        session: 0,
        xact,
        command: 1,
    };
    heap.place(1, Some(values), writer)
}

fn is_drawn(heap: &Heap, version: u64) -> bool
    ensures { IsTrue result ↔ ((0 < version) × (version ≤ length heap.now)) }
{
    0 < version && version <= heap.count()
}

/// Links two versions where that is allowed.
fn link(heap: &mut Heap, before: u64, after: u64) {
    if !is_drawn(heap, before) || !is_drawn(heap, after) {
        return;
    }
    if heap.state(before) == State::Dead || heap.state(after) == State::Dead {
        return;
    }
    if heap.successor(before).is_none()
        && heap.predecessor(after).is_none()
        && heap.successor(after).is_none()
    {
        heap.link(before, after);
    }
}

/// A placed version becomes settled.
fn settle(heap: &mut Heap, version: u64) {
    if is_drawn(heap, version) && heap.state(version) == State::Placed {
        heap.settle(version);
    }
}

/// A placed version becomes dead.
fn kill(heap: &mut Heap, version: u64) {
    if is_drawn(heap, version) && heap.state(version) == State::Placed {
        heap.kill(version);
    }
}

/// The state of a version and its links, as a text.
fn shown(alloc: Global, heap: &Heap, version: u64) -> Result<String, AllocError> {
    if !is_drawn(heap, version) {
        return String::from_str(alloc, "none");
    }
    let state = heap.state(version);
    let before = heap.predecessor(version);
    let after = heap.successor(version);
    format!(in alloc; "{state:?} {before:?} {after:?}")
}

#[test]
fn a_rollback_ends_versions_and_links(rt: HostRuntime) -> Result<(), Fail> {
    let alloc = rt.alloc();
    let mut heap = Heap::new(alloc);
    for (xact, number) in [(1, 10), (2, 20), (2, 30), (3, 40)] {
        place(alloc, &mut heap, xact, number)?;
    }
    for version in 1..4 {
        settle(&mut heap, version);
    }
    link(&mut heap, 1, 2);
    link(&mut heap, 2, 3);
    kill(&mut heap, 4);
    heap.undo(2);
    assert_eq!(rt; shown(alloc, &heap, 1)?.as_str(), "Settled None None");
    assert_eq!(rt; shown(alloc, &heap, 2)?.as_str(), "Dead None None");
    assert_eq!(rt; shown(alloc, &heap, 3)?.as_str(), "Dead None None");
    assert_eq!(rt; shown(alloc, &heap, 4)?.as_str(), "Dead None None");
    Ok(())
}

#[test]
fn a_piece_has_64_numbers(rt: HostRuntime) -> Result<(), Fail> {
    let alloc = rt.alloc();
    let mut heap = Heap::new(alloc);
    for number in 0..70 {
        place(alloc, &mut heap, 1, number)?;
    }
    let first = heap.scan(0);
    assert_eq!(rt; (first.first, first.count, first.next), (1, 64, Some(65)));
    let second = heap.scan(65);
    assert_eq!(rt; (second.first, second.count, second.next), (65, 6, None));
    assert_eq!(rt; heap.scan(71).count, 0);
    if is_drawn(&heap, 70) {
        assert_eq!(rt; heap.fetch(70).writer, 1);
        assert_eq!(rt; heap.row_of(70), 1);
    }
    Ok(())
}
