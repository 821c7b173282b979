ghost use Rattle.std.specs.Prelude.{◌≡◌};
ghost use Rattle.std.specs.Option.{option_map_or};
ghost use Rattle.pg_lists.specs.Numbered.{with_changed_nth_item};
ghost use Rattle.pg_heap.specs.Slots.{version_undone, with_predecessor, with_state, with_successor};

use crate::{Slot, State};

/// The version of a number is in another state.
pub fn set_state(slots: &mut Vec<Slot>, number: u64, state: State)
    ensures { slots.new.items ≡ with_state slots.old.items number state }
{
    let Some(before) = number.checked_sub(1) else {
        return;
    };
    if let Some(slot) = slots.get_mut(before as usize) {
        slot.state = state;
    }
}

/// The link from a version to the one before it is as given.
pub fn set_predecessor(slots: &mut Vec<Slot>, number: u64, link: Option<u64>)
    ensures { slots.new.items ≡ with_predecessor slots.old.items number link }
{
    let Some(before) = number.checked_sub(1) else {
        return;
    };
    if let Some(slot) = slots.get_mut(before as usize) {
        slot.before = link;
    }
}

/// The link from a version to the one after it is as given.
pub fn set_successor(slots: &mut Vec<Slot>, number: u64, link: Option<u64>)
    ensures { slots.new.items ≡ with_successor slots.old.items number link }
{
    let Some(before) = number.checked_sub(1) else {
        return;
    };
    if let Some(slot) = slots.get_mut(before as usize) {
        slot.after = link;
    }
}

/// The version of a number is dead, and no link leads to it or from it.
pub fn bury(slots: &mut Vec<Slot>, number: u64)
    ensures { slots.new.items ≡ version_undone slots.old.items number }
{
    let Some(before) = number.checked_sub(1) else {
        return;
    };
    let Some(slot) = slots.get_mut(before as usize) else {
        return;
    };
    slot.state = State::Dead;
    let before = slot.before.take();
    let after = slot.after.take();
    if let Some(other) = before {
        set_successor(slots, other, None);
    }
    if let Some(other) = after {
        set_predecessor(slots, other, None);
    }
}
