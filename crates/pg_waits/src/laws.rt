//! The laws of waits, each the contract of a function that does nothing.

ghost use Rattle.std.specs.Prelude.{◌≡◌, ◌≢◌, ◌<◌, ◌≤◌, ◌↔◌, ℕ, List, Option, None, Some, length};
ghost use Rattle.pg_xacts.specs.declared.on.On.{On};
ghost use Rattle.pg_xacts.specs.declared.on.Until.TheVariants.{Candidate, Transaction};
ghost use Rattle.pg_waits.specs.Slots.{no_waits, wait_of, waits_for};
ghost use Rattle.pg_waits.specs.Chains.{IsRing, Leads, ring_of};
ghost use Rattle.pg_waits.specs.Cycles.{HasNoCycle};
ghost use Rattle.pg_waits.specs.Effects.{wait_begun, waits_asked, waits_ended, waits_settled};

/// Waits form no cycle: there is none at the start, and none comes by a wait that is asked for, nor
/// by what ends waits.
pub fn waits_form_no_cycle()
    ensures none { (sessions : ℕ) → HasNoCycle (no_waits sessions) }
    ensures asked { (slots : List (Option On)) (me : ℕ) (on : On) → HasNoCycle slots →
        me < length slots → waits_for slots me ≡ None → me ≢ on.session →
        HasNoCycle (waits_asked slots me on) }
    ensures settled { (slots : List (Option On)) (session : ℕ) → HasNoCycle slots →
        HasNoCycle (waits_settled slots session) }
    ensures ended { (slots : List (Option On)) (session : ℕ) → HasNoCycle slots →
        HasNoCycle (waits_ended slots session) }
{}

/// A ring is named exactly where the wait would close a cycle.
pub fn ring_is_named_where_a_cycle_closes()
    ensures { (slots : List (Option On)) (me : ℕ) (on : On) → HasNoCycle slots →
        me < length slots → waits_for slots me ≡ None → me ≢ on.session →
        (ring_of slots me on.session ≡ None) ↔ HasNoCycle (wait_begun slots me on) }
{}

/// What is named is the ring, and each ring is named.
pub fn ring_is_exact()
    ensures { (slots : List (Option On)) (me other : ℕ) (ring : List ℕ) →
        waits_for slots me ≡ None →
        (ring_of slots me other ≡ Some ring) ↔ IsRing slots me other ring }
{}

/// No ring is named exactly where the waits of the other session do not lead to `me`.
pub fn no_ring_where_waits_lead_elsewhere()
    ensures { (slots : List (Option On)) (me other : ℕ) → waits_for slots me ≡ None →
        (ring_of slots me other ≡ None) ↔ (Leads slots other me → ⊥) }
{}

/// A ring has no more sessions than there are.
pub fn ring_is_short()
    ensures { (slots : List (Option On)) (me other : ℕ) (ring : List ℕ) → me < length slots →
        waits_for slots me ≡ None → IsRing slots me other ring → length ring ≤ length slots }
{}

/// Nobody waits for itself.
pub fn nobody_waits_for_itself()
    ensures { (slots : List (Option On)) (session : ℕ) → HasNoCycle slots →
        waits_for slots session ≢ Some session }
{}

/// A wait that begins is there, and every other one is as it was.
pub fn begun_wait_stands()
    ensures own { (slots : List (Option On)) (me : ℕ) (on : On) → me < length slots →
        wait_of (wait_begun slots me on) me ≡ Some on }
    ensures others { (slots : List (Option On)) (me other : ℕ) (on : On) → other ≢ me →
        wait_of (wait_begun slots me on) other ≡ wait_of slots other }
{}

/// Once a session's transaction has ended, nobody waits for the session, and it does not wait; who
/// waits for another one goes on waiting.
pub fn nobody_waits_for_the_ended()
    ensures nobody { (slots : List (Option On)) (session me : ℕ) →
        waits_for (waits_ended slots session) me ≢ Some session }
    ensures own { (slots : List (Option On)) (session : ℕ) →
        wait_of (waits_ended slots session) session ≡ None }
    ensures others { (slots : List (Option On)) (session me : ℕ) → me ≢ session →
        waits_for slots me ≢ Some session →
        wait_of (waits_ended slots session) me ≡ wait_of slots me }
{}

/// Once a session's candidate is done with, nobody waits for it; who waits for the session's
/// transaction goes on waiting, and so does who waits for another session.
pub fn settled_candidate_ends_its_waits()
    ensures candidate { (slots : List (Option On)) (session me : ℕ) →
        wait_of slots me ≡ Some (record { session = session; until = Candidate }) →
        wait_of (waits_settled slots session) me ≡ None }
    ensures transaction { (slots : List (Option On)) (session me other : ℕ) →
        wait_of slots me ≡ Some (record { session = other; until = Transaction }) →
        wait_of (waits_settled slots session) me ≡ wait_of slots me }
    ensures others { (slots : List (Option On)) (session me : ℕ) →
        waits_for slots me ≢ Some session →
        wait_of (waits_settled slots session) me ≡ wait_of slots me }
{}

/// There are as many sessions afterwards as before.
pub fn sessions_stay()
    ensures begun { (slots : List (Option On)) (me : ℕ) (on : On) →
        length (wait_begun slots me on) ≡ length slots }
    ensures settled { (slots : List (Option On)) (session : ℕ) →
        length (waits_settled slots session) ≡ length slots }
    ensures ended { (slots : List (Option On)) (session : ℕ) →
        length (waits_ended slots session) ≡ length slots }
{}
