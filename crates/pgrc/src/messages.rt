// What the program says to its user.
ghost use Rattle.std.specs.Prelude.{◌≤◌};
ghost use Rattle.pgrc.specs.Statuses.{IsTold};

use pg_outside::{Sink, write_all};

/// Says a text. A fault of the sink is left at that. It takes no memory.
pub fn tell<E: Sink>(errors: &mut E, text: &[u8])
    ensures told { IsTold (E.taken errors.old) (E.taken errors.new)
        (E.faults errors.old) (E.faults errors.new) text.now }
    ensures later { E.faults errors.old ≤ E.faults errors.new }
{
    let _ = write_all(errors, text);
}
