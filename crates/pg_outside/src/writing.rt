ghost use Rattle.std.specs.Prelude.{◌≡◌};

use crate::sink::Sink;
use crate::source::Failed;
use std::io::{ErrorKind, Stderr, Stdout, Write};

/// A writer of std as a sink: it counts each error as a fault, and so each write that takes nothing
/// of a piece that is not empty.
///
/// A write that was interrupted is made again. What was taken is what the writer itself tells of
/// that, which for standard output and standard error is nothing. Nothing is kept back: a piece is
/// handed on by one write.
#[derive(Drop)]
pub struct Writing<W: Write> {
    inner: W,
    faults: u64,
}

/// Standard output as a sink.
pub type StdoutSink = Writing<Stdout>;

/// Standard error as a sink.
pub type StderrSink = Writing<Stderr>;

impl<W: Write> Writing<W> {
    /// A sink over this writer, which has not failed yet.
    pub fn new(inner: W) -> Writing<W>
        ensures taken { ⟦<Writing<W> as Sink>⟧.taken result ≡ W.contents inner }
        ensures faults { ⟦<Writing<W> as Sink>⟧.faults result ≡ 0 }
    {
        Writing { inner, faults: 0 }
    }
}

impl<W: Write> Sink for Writing<W> {
    ghost taken = { λ s. W.contents s.inner };

    ghost faults = { λ s. s.faults };

    fn write(&mut self, piece: &[u8]) -> Result<usize, Failed> {
        for _ in 0..u64::MAX {
            match self.inner.write(piece) {
                Ok(0) if !piece.is_empty() => break,
                Ok(count) => return Ok(count),
                Err(error) if error.kind() == ErrorKind::Interrupted => {}
                Err(_) => break,
            }
        }
        self.faults = self.faults.saturating_add(1);
        Err(Failed)
    }
}
