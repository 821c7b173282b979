use super::*;
use std::alloc::{AllocError, Global};
use std::test::Fail;

const STRENGTHS: [Strength; 4] = [
    Strength::KeyShare,
    Strength::Share,
    Strength::NoKeyUpdate,
    Strength::Update,
];

/// Whether the row of the table for one strength is as given, column by column.
fn is_row(asked: Strength, squares: [bool; 4]) -> bool {
    conflicts(asked, STRENGTHS[0]) == squares[0]
        && conflicts(asked, STRENGTHS[1]) == squares[1]
        && conflicts(asked, STRENGTHS[2]) == squares[2]
        && conflicts(asked, STRENGTHS[3]) == squares[3]
}

#[test]
fn the_table_has_sixteen_squares(rt: HostRuntime) {
    assert!(rt; is_row(Strength::KeyShare, [false, false, false, true]));
    assert!(rt; is_row(Strength::Share, [false, false, true, true]));
    assert!(rt; is_row(Strength::NoKeyUpdate, [false, true, true, true]));
    assert!(rt; is_row(Strength::Update, [true, true, true, true]));
}

#[test]
fn the_order_goes_from_weak_to_strong(rt: HostRuntime) {
    assert!(rt; Strength::KeyShare < Strength::Share);
    assert!(rt; Strength::Share < Strength::NoKeyUpdate);
    assert!(rt; Strength::NoKeyUpdate < Strength::Update);
}

/// The locks of six transactions, more than stand in the value itself.
fn six(alloc: Global) -> Result<Members, AllocError> {
    let mut members = Members::new(alloc);
    for xact in [5, 3, 8, 1, 9, 4] {
        members.join(xact, Strength::KeyShare)?;
    }
    Ok(members)
}

#[test]
fn the_lowest_other_is_named(rt: HostRuntime) -> Result<(), Fail> {
    let mut members = six(rt.alloc())?;
    assert_eq!(rt; members.blockers(7, Strength::Update), Some(1));
    assert_eq!(rt; members.blockers(1, Strength::Update), Some(3));
    assert_eq!(rt; members.blockers(7, Strength::NoKeyUpdate), None);
    members.join(8, Strength::Share)?;
    assert_eq!(rt; members.blockers(7, Strength::NoKeyUpdate), Some(8));
    members.leave(8);
    assert_eq!(rt; members.blockers(7, Strength::NoKeyUpdate), None);
    Ok(())
}

#[test]
fn the_stronger_is_kept(rt: HostRuntime) -> Result<(), Fail> {
    let mut members = six(rt.alloc())?;
    members.join(3, Strength::NoKeyUpdate)?;
    members.join(3, Strength::Share)?;
    assert_eq!(rt; members.strongest_of(3), Some(Strength::NoKeyUpdate));
    assert_eq!(rt; members.strongest_of(4), Some(Strength::KeyShare));
    assert_eq!(rt; members.strongest_of(2), None);
    for xact in 0..10 {
        members.leave(xact);
    }
    assert!(rt; members.is_empty());
    Ok(())
}
