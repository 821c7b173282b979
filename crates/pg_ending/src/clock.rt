//! The worked example: a loop that ends because its weight falls.
ghost use Rattle.std.specs.Prelude.{◌≡◌, IfOk, Some};
ghost use Rattle.pg_ending.specs.Runs.{IsRunOf};
ghost use Rattle.pg_ending.specs.Countdown.{next_tick, after_tick};

use std::alloc::{AllocError, Global};

/// What a clock does: a step, or a round, which brings new steps.
#[derive(Clone, Copy, Debug, PartialEq, Eq)]
pub enum Tick {
    Step,
    Round,
}

/// The rounds and the steps that are left.
#[derive(Clone, Copy)]
pub struct Clock {
    pub rounds: u64,
    pub steps: u64,
}

/// What the clock does next: a step while one is left, else a round, and nothing where neither is
/// left.
pub fn next(clock: &Clock) -> Option<Tick>
    ensures { result ≡ next_tick clock.now }
{
    match (clock.rounds, clock.steps) {
        (0, 0) => None,
        (_, 0) => Some(Tick::Round),
        _ => Some(Tick::Step),
    }
}

/// Does it: a round brings `refill` steps.
pub fn take(clock: &mut Clock, tick: Tick, refill: u64)
    requires { next_tick clock.old ≡ Some tick }
    ensures { clock.new ≡ after_tick refill clock.old tick }
{
    match tick {
        Tick::Step => clock.steps -= 1,
        Tick::Round => {
            clock.rounds -= 1;
            clock.steps = refill;
        }
    }
}

/// All that the clock does, in order, until nothing is left.
#[tactic(auto, using(crate::proofs::Countdown::clock_steps_fall, crate::proofs::Countdown::clock_runs_more, crate::proofs::Countdown::clock_runs_end))]
pub fn run_down(alloc: Global, mut clock: Clock, refill: u64) -> Result<Vec<Tick>, AllocError>
    ensures { IfOk result (λ v. IsRunOf next_tick (after_tick refill) clock v.items) }
{
    let mut ticks = Vec::new(alloc);
    while let Some(tick) = next(&clock) {
        ticks.push(tick)?;
        take(&mut clock, tick, refill);
    }
    Ok(ticks)
}
