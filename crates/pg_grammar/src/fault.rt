//! Why tokens are not read.
ghost use Rattle.std.specs.Prelude.{◌≡◌};
ghost use Rattle.pg_grammar.specs.declared.fault.Fault.TheVariants.{Memory};

use std::alloc::{AllocError, AllocFailed};

/// Why tokens are not read. A number is how many tokens are left where the fault stands.
#[derive(Clone, Copy, Debug, PartialEq, Eq)]
pub enum Fault {
    /// What is before begins a sentence, and one token more, or the end, does not.
    Syntax(usize),
    /// The next token makes a path of more nodes than the limit.
    Deep(usize),
    /// The next token begins one source more than the limit.
    Many(usize),
    /// Out of memory.
    Memory,
}

impl From<AllocError> for Fault {
    ghost from_gives = { λ e f. f ≡ Memory };

    fn from(_error: AllocError) -> Fault {
        Fault::Memory
    }
}

impl<T: Drop> From<AllocFailed<T>> for Fault {
    ghost from_gives = { λ e f. f ≡ Memory };

    fn from(_error: AllocFailed<T>) -> Fault {
        Fault::Memory
    }
}
