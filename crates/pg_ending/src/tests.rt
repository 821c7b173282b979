use super::*;
use crate::clock::{Clock, Tick, run_down};
use std::test::Fail;

#[test]
fn the_first_number_that_differs_decides(rt: HostRuntime) {
    let long = [0u64, 9, 7];
    let low = [1u64, 0];
    let high = [1u64, 5];
    let top = [2u64, 0];
    assert!(rt; is_less(&low, &high));
    assert!(rt; is_less(&high, &top));
    assert!(rt; !is_less(&top, &high));
    assert!(rt; !is_less(&low, &low));
    assert!(rt; !is_less(&long, &low), "lists of two lengths");
}

#[test]
fn a_round_brings_steps(rt: HostRuntime) -> Result<(), Fail> {
    let ticks = run_down(
        rt.alloc(),
        Clock {
            rounds: 2,
            steps: 1,
        },
        2,
    )?;
    let want = [
        Tick::Step,
        Tick::Round,
        Tick::Step,
        Tick::Step,
        Tick::Round,
        Tick::Step,
        Tick::Step,
    ];
    assert_eq!(rt; ticks.as_slice(), want.as_slice());
    Ok(())
}
