//! A sink over a writer.
ghost use Rattle.std.specs.Prelude.{◌≡◌, None};

use crate::writing::{Failed, Sink};
use std::io::{Stdout, Write};

/// A writer that tells what it holds at all times, or never does.
pub trait Output: Write {
    ghost use Rattle.std.specs.Prelude.{◌≡◌, None};

    /// What isn't told at one time is told at none.
    ghost untold_stays: { (before after : Self) →
        Self.contents before ≡ None → Self.contents after ≡ None };
}

/// Standard output never tells.
impl Output for Stdout {
    ghost untold_stays = { λ _ _ untold. untold };
}

/// A sink that hands its bytes to a writer. A write that fails, or takes nothing of some bytes, is a fault. Their counter
/// stays at its last value.
#[derive(Drop)]
pub struct WriterSink<W> {
    writer: W,
    faults: u64,
}

impl<W: Output> WriterSink<W> {
    /// A sink over this writer, with no fault yet.
    pub fn new(writer: W) -> Self
        ensures written { ⟦<WriterSink<W> as Sink>⟧.written result ≡ W.contents writer }
        ensures faults { ⟦<WriterSink<W> as Sink>⟧.faults result ≡ 0 }
    {
        WriterSink { writer, faults: 0 }
    }
}

impl<W: Output> Sink for WriterSink<W> {
    ghost written = { λ sink. W.contents sink.writer };

    ghost faults = { λ sink. sink.faults };

    fn write(&mut self, piece: &[u8]) -> Result<usize, Failed> {
        match self.writer.write(piece) {
            Ok(taken) if taken > 0 || piece.is_empty() => Ok(taken),
            _ => {
                self.faults = self.faults.saturating_add(1);
                Err(Failed)
            }
        }
    }
}
