use pg_model::SqlError;
use std::alloc::AllocError;

/// Why there is no board of a script.
#[derive(Debug, Drop)]
pub enum BoardFault {
    /// A setup INSERT raised an error; the line's number in the script is counted from 1.
    Setup { line: u32, error: SqlError },
    /// There was no memory.
    Memory,
}

impl From<AllocError> for BoardFault {
    ghost use Rattle.std.specs.Prelude.{◌≡◌};
    ghost use Rattle.pg_board.specs.declared.fault.BoardFault.TheVariants.{Memory};

    ghost from_gives = { λ _ fault. fault ≡ Memory };

    fn from(_refused: AllocError) -> BoardFault {
        BoardFault::Memory
    }
}
