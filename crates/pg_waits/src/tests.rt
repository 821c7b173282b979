use super::*;
use pg_xacts::{On, Until};
use std::test::Fail;

/// Asks for a wait, where it may be asked for.
fn ask(waits: &mut Waits, me: u32, session: u32, until: Until) -> Option<WaitAnswer> {
    let count = waits.sessions();
    if me >= count || session >= count || me == session || waits.waits_for(me).is_some() {
        return None;
    }
    Some(waits.wait(me, On { session, until }))
}

/// Whether the answer is that the session waits.
fn is_waiting(answer: &Option<WaitAnswer>) -> bool {
    match answer {
        Some(WaitAnswer::Waiting) => true,
        Some(WaitAnswer::Cycle(_)) | None => false,
    }
}

/// Whether the answer is that ring.
fn is_ring(answer: &Option<WaitAnswer>, sessions: &[u32]) -> bool {
    match answer {
        Some(WaitAnswer::Cycle(ring)) => ring.as_slice() == sessions,
        Some(WaitAnswer::Waiting) | None => false,
    }
}

#[test]
fn a_ring_of_three_is_named(rt: HostRuntime) -> Result<(), Fail> {
    let mut waits = Waits::new(rt.alloc(), 5)?;
    let first = ask(&mut waits, 0, 3, Until::Transaction);
    let second = ask(&mut waits, 3, 1, Until::Candidate);
    let beside = ask(&mut waits, 2, 0, Until::Transaction);
    let last = ask(&mut waits, 1, 0, Until::Transaction);
    assert!(rt; is_waiting(&first) && is_waiting(&second) && is_waiting(&beside));
    assert!(rt; is_ring(&last, &[1, 0, 3]));
    assert_eq!(rt; waits.waits_for(1), None);
    assert_eq!(rt; waits.waits_for(3), Some(1));
    Ok(())
}

#[test]
fn waits_end_with_what_is_waited_for(rt: HostRuntime) -> Result<(), Fail> {
    let mut waits = Waits::new(rt.alloc(), 4)?;
    let first = ask(&mut waits, 0, 3, Until::Transaction);
    let second = ask(&mut waits, 1, 3, Until::Candidate);
    let own = ask(&mut waits, 3, 2, Until::Transaction);
    assert!(rt; is_waiting(&first) && is_waiting(&second) && is_waiting(&own));
    waits.settled(3);
    assert_eq!(rt; waits.waits_for(0), Some(3));
    assert_eq!(rt; waits.waits_for(1), None);
    waits.ended(3);
    assert_eq!(rt; waits.waits_for(0), None);
    assert_eq!(rt; waits.waits_for(3), None);
    Ok(())
}
