ghost use Rattle.std.specs.Prelude.{◌≡◌, ◌≢◌, ◌<◌, ◌≤◌, IfOk, None, length};
ghost use Rattle.pg_lists.specs.Numbered.{with_item};
ghost use Rattle.pg_waits.specs.Chains.{ring_of};
ghost use Rattle.pg_waits.specs.Cycles.{HasNoCycle};
ghost use Rattle.pg_waits.specs.Slots.{no_waits, waits_for};
ghost use Rattle.pg_waits.specs.Effects.{is_for, is_for_candidate_of, slot_left, wait_answer, waits_asked, waits_ended, waits_left, waits_settled};

use crate::{Ring, WaitAnswer};
use pg_xacts::{On, Until};
use std::alloc::{AllocError, Global};
use std::marker::Model;

/// What each session waits for, by its number: a session waits for at most one other.
#[derive(Drop)]
pub struct Waits {
    slots: Vec<Option<On>>,
}

impl Model for Waits {
    ghost use Rattle.std.specs.Prelude.{List, Option};
    ghost use Rattle.pg_xacts.specs.declared.on.On.{On};
    ghost use Rattle.pg_waits.specs.Cycles.{AreWaits};

    ghost Value = { List (Option On) };

    ghost view = { λ w. w.slots.items };

    ghost invariant = { λ w. AreWaits w.slots.items };
}

impl Waits {
    /// So many sessions, of which none waits; or refuses for want of memory alone.
    pub fn new(alloc: Global, sessions: u32) -> Result<Waits, AllocError>
        requires { sessions ≤ 32 }
        ensures { IfOk result (λ waits. waits ≡ no_waits sessions) }
    {
        let slots = vec![in alloc; None; sessions as usize]?;
        Ok(Waits { slots })
    }

    /// How many sessions there are.
    pub fn sessions(&self) -> u32
        ensures { result ≡ length self.now }
    {
        self.slots.len() as u32
    }

    /// The session that `me` waits for, if it waits.
    pub fn waits_for(&self, me: u32) -> Option<u32>
        ensures session { result ≡ waits_for self.now me }
        ensures acyclic { HasNoCycle self.now }
    {
        awaited(self.slots.as_slice(), me)
    }

    /// `me` waits from now on; or, where the waits of the other session lead to `me`, nothing
    /// changes, and the ring is named that the wait would close. This takes no memory.
    pub fn wait(&mut self, me: u32, on: On) -> WaitAnswer
        requires mine { me < length self.old }
        requires other { on.session < length self.old }
        requires free { waits_for self.old me ≡ None }
        requires apart { me ≢ on.session }
        ensures answer { result ≡ wait_answer self.old me on.session }
        ensures after { self.new ≡ waits_asked self.old me on }
    {
        match ring_closed(self.slots.as_slice(), me, on.session) {
            Some(ring) => WaitAnswer::Cycle(ring),
            None => {
                self.slots[me as usize] = Some(on);
                WaitAnswer::Waiting
            }
        }
    }

    /// The session's candidate has its act, or was withdrawn: who waits for it waits no more. This
    /// takes no memory.
    pub fn settled(&mut self, session: u32)
        ensures { self.new ≡ waits_settled self.old session }
    {
        end_candidate_waits(&mut self.slots, session);
    }

    /// The session's transaction has ended: who waits for the session waits no more, nor does the
    /// session itself. This takes no memory.
    pub fn ended(&mut self, session: u32)
        ensures { self.new ≡ waits_ended self.old session }
    {
        end_waits(&mut self.slots, session);
        end_own_wait(&mut self.slots, session);
    }
}

/// The session that a session waits for.
fn awaited(slots: &[Option<On>], session: u32) -> Option<u32>
    ensures { result ≡ waits_for slots.now session }
{
    match slots.get(session as usize) {
        Some(Some(on)) => Some(on.session),
        Some(None) | None => None,
    }
}

/// The ring that a wait of `me` for another session would close, if it would: it is walked from
/// the other session on, and has room for as many sessions as there are.
fn ring_closed(slots: &[Option<On>], me: u32, other: u32) -> Option<Ring>
    requires few { length slots.now ≤ 32 }
    requires mine { me < length slots.now }
    requires free { waits_for slots.now me ≡ None }
    ensures { result ≡ ring_of slots.now me other }
{
    let mut ring = Ring::of(me);
    let mut last = other;
    for _walked in 1..slots.len() {
        ring.push(last);
        match awaited(slots, last) {
            None => return None,
            Some(next) if next == me => return Some(ring),
            Some(next) => last = next,
        }
    }
    None
}

/// The slot, where a wait for the session's candidate has ended.
fn settled_slot(slot: Option<On>, session: u32) -> Option<On>
    ensures { result ≡ slot_left (is_for_candidate_of session) slot }
{
    match slot {
        Some(on) if on.session == session && on.until == Until::Candidate => None,
        other => other,
    }
}

/// The slot, where a wait for the session has ended.
fn ended_slot(slot: Option<On>, session: u32) -> Option<On>
    ensures { result ≡ slot_left (is_for session) slot }
{
    match slot {
        Some(on) if on.session == session => None,
        other => other,
    }
}

/// Ends the waits for the session's candidate.
fn end_candidate_waits(slots: &mut Vec<Option<On>>, session: u32)
    ensures { slots.new.items ≡ waits_left (is_for_candidate_of session) slots.old.items }
{
    for slot in slots.iter_mut() {
        *slot = settled_slot(*slot, session);
    }
}

/// Ends the waits for the session.
fn end_waits(slots: &mut Vec<Option<On>>, session: u32)
    ensures { slots.new.items ≡ waits_left (is_for session) slots.old.items }
{
    for slot in slots.iter_mut() {
        *slot = ended_slot(*slot, session);
    }
}

/// Ends the session's own wait.
fn end_own_wait(slots: &mut Vec<Option<On>>, session: u32)
    ensures { slots.new.items ≡ with_item slots.old.items session None }
{
    if let Some(slot) = slots.get_mut(session as usize) {
        *slot = None;
    }
}
