use super::*;
use pg_multi::Strength;
use std::alloc::{AllocError, Global};
use std::test::Fail;

/// Three rows that nobody has locked.
fn three_rows(alloc: Global) -> Result<Locks, AllocError> {
    let mut locks = Locks::new(alloc);
    for _ in 0..3 {
        locks.add_row()?;
    }
    Ok(locks)
}

/// Whom a transaction has to wait for, if it asks for the row at that strength.
fn blocker(locks: &Locks, row: u64, me: u32, strength: Strength) -> Option<u32> {
    if row == 0 || row > locks.count() {
        return None;
    }
    locks.blocker(row, me, strength)
}

/// Asks for the row at that strength.
fn hold(
    locks: &mut Locks,
    xact: u32,
    row: u64,
    strength: Strength,
) -> Result<Option<u32>, AllocError> {
    if row == 0 || row > locks.count() {
        return Ok(None);
    }
    locks.hold(xact, row, strength)
}

#[test]
fn a_row_is_held_where_nobody_blocks(rt: HostRuntime) -> Result<(), Fail> {
    let mut locks = three_rows(rt.alloc())?;
    assert_eq!(rt; locks.count(), 3);
    assert_eq!(rt; hold(&mut locks, 4, 2, Strength::NoKeyUpdate)?, None);
    assert_eq!(rt; hold(&mut locks, 7, 2, Strength::KeyShare)?, None);
    assert_eq!(rt; hold(&mut locks, 7, 2, Strength::Share)?, Some(4));
    assert_eq!(rt; hold(&mut locks, 4, 2, Strength::Update)?, Some(7));
    assert_eq!(rt; blocker(&locks, 2, 9, Strength::KeyShare), None);
    assert_eq!(rt; blocker(&locks, 2, 9, Strength::Update), Some(4));
    assert_eq!(rt; blocker(&locks, 1, 9, Strength::Update), None);
    Ok(())
}

#[test]
fn an_end_takes_the_locks_of_one_transaction(rt: HostRuntime) -> Result<(), Fail> {
    let mut locks = three_rows(rt.alloc())?;
    hold(&mut locks, 4, 1, Strength::Update)?;
    hold(&mut locks, 4, 3, Strength::NoKeyUpdate)?;
    hold(&mut locks, 7, 3, Strength::KeyShare)?;
    locks.end(4);
    assert_eq!(rt; blocker(&locks, 1, 9, Strength::Update), None);
    assert_eq!(rt; blocker(&locks, 3, 9, Strength::NoKeyUpdate), None);
    assert_eq!(rt; blocker(&locks, 3, 9, Strength::Update), Some(7));
    locks.end(4);
    assert_eq!(rt; blocker(&locks, 3, 9, Strength::Update), Some(7));
    Ok(())
}

#[test]
fn the_last_row_goes_with_its_locks(rt: HostRuntime) -> Result<(), Fail> {
    let mut locks = three_rows(rt.alloc())?;
    hold(&mut locks, 5, 3, Strength::Update)?;
    locks.remove_last_row();
    assert_eq!(rt; locks.count(), 2);
    locks.add_row()?;
    assert_eq!(rt; locks.count(), 3);
    assert_eq!(rt; blocker(&locks, 3, 9, Strength::KeyShare), None);
    hold(&mut locks, 9, 3, Strength::KeyShare)?;
    locks.end(5);
    assert_eq!(rt; blocker(&locks, 3, 5, Strength::Update), Some(9));
    Ok(())
}
