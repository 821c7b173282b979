//! Who has waited, in the order in which the waits began.

ghost use Rattle.std.specs.Prelude.{◌≡◌, ◌<◌, vec_capacity, vec_len};
ghost use Rattle.pg_relation.specs.Schedules.{waited_with, without};
ghost use Rattle.pg_board.specs.Kept.{begins_wait};

use pg_model::EntryAct;

/// The session has moved: it has not waited since, unless it begins to wait; then it is the last.
#[tactic(auto, using(crate::proofs::Scheduling::waited_by))]
pub fn moved(waited: &mut Vec<u32>, number: u32, act: &EntryAct)
    requires { vec_len waited.old < vec_capacity waited.old }
    ensures { waited.new.items
        ≡ waited_with (without number waited.old.items) number act.now }
{
    forget(waited, number);
    if begins_wait(act) {
        waited.push_reserved(number);
    }
}

/// The session is none of those that have waited.
fn forget(waited: &mut Vec<u32>, number: u32)
    requires { vec_len waited.old < vec_capacity waited.old }
    ensures others { waited.new.items ≡ without number waited.old.items }
    ensures room { vec_len waited.new < vec_capacity waited.new }
{
    waited.retain(|other| *other != number);
}

/// Whether a session waits from that act on.
fn begins_wait(act: &EntryAct) -> bool
    ensures { result ≡ begins_wait act.now }
{
    matches!(act, EntryAct::Waits(_))
}
