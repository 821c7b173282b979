//! Which session waits for which other one, and the ring that a further wait would close.
#![tactic(auto)]

mod laws;
mod ring;
mod wait_answer;
mod waits;

pub use laws::{
    begun_wait_stands, no_ring_where_waits_lead_elsewhere, nobody_waits_for_itself,
    nobody_waits_for_the_ended, ring_is_exact, ring_is_named_where_a_cycle_closes, ring_is_short,
    sessions_stay, settled_candidate_ends_its_waits, waits_form_no_cycle,
};
pub use ring::Ring;
pub use wait_answer::WaitAnswer;
pub use waits::Waits;

#[cfg(test)]
mod tests;
