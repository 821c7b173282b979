ghost use Rattle.std.specs.Prelude.{ℕ, List};
ghost use Rattle.std.specs.declared.option.Option.{Option};
ghost use Rattle.std.specs.Io.{WritesAtMost};
ghost use Rattle.std.specs.Io.KnownBytes.{WriteAppends};
ghost use Rattle.pg_outside.specs.Causes.{HasCause};
ghost use Rattle.pg_outside.specs.Writes.{TakesSome};

use crate::source::Failed;

/// Where bytes go.
///
/// `taken` is what the sink has taken so far, where it tells that.
/// `faults` counts the writes that failed. It never falls, and stands still at `u64::MAX`.
pub trait Sink {
    ghost taken: { Self → Option (List ℕ) };

    ghost faults: { Self → ℕ };

    /// Takes the front of `piece` and answers how many bytes that was, at least one of a piece that
    /// is not empty. After `Failed` nothing was taken.
    fn write(&mut self, piece: &[u8]) -> Result<usize, Failed>
        ensures bound { WritesAtMost result piece.now }
        ensures some { TakesSome result piece.now }
        ensures bytes { WriteAppends (taken self.old) (taken self.new) result piece.now }
        ensures cause { HasCause (faults self.old) (faults self.new) result };
}
