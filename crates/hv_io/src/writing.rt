//! Bytes that are written in order.
ghost use Rattle.std.specs.Prelude.{◌≡◌, ◌≤◌, ◌<◌, ℕ, List, IfOk, OnOk, OnErr, length, take};
ghost use Rattle.hv_io.specs.Faults.{IsFaultCounted};
ghost use Rattle.hv_io.specs.Sink.{appended, AppendsPart};

use thiserror::Error;

/// A write took nothing.
#[derive(Clone, Copy, Debug, PartialEq, Eq, Error)]
#[error("the write failed")]
pub struct Failed;

/// Something that takes bytes in order, as standard output does.
pub trait Sink {
    ghost use Rattle.std.specs.Prelude.{ℕ, List, Option};

    /// The bytes written so far, where the object tells them.
    ghost written: { Self → Option (List ℕ) };

    /// How many faults have been counted.
    ghost faults: { Self → ℕ };

    /// Takes some of the first bytes of `piece`, and says how many.
    ///
    /// # Errors
    ///
    /// [`Failed`] comes only with a fault that is counted. Nothing of the piece was taken then.
    fn write(&mut self, piece: &[u8]) -> Result<usize, Failed>
        ensures faults_rise { faults self.old ≤ faults self.new }

        ensures taken { IfOk result (λ n. written self.new ≡
            appended (written self.old) (take n piece.now)) }
        ensures within { IfOk result (λ n. n ≤ length piece.now) }
        ensures goes_on { IfOk result (λ n. 0 < length piece.now → 0 < n) }

        ensures nothing_taken { OnErr result (written self.new ≡ written self.old) }
        ensures failed { OnErr result (IsFaultCounted (faults self.old) (faults self.new)) };
}

/// Writes all of `bytes`, in as many calls of `write` as the sink asks for.
///
/// # Errors
///
/// [`Failed`] where a call of `write` fails. A part of the bytes, from their start, was written by then.
pub fn put_all<S: Sink>(sink: &mut S, bytes: &[u8]) -> Result<(), Failed>
    ensures faults_rise { S.faults sink.old ≤ S.faults sink.new }
    ensures all { OnOk result (S.written sink.new ≡ appended (S.written sink.old) bytes.now) }
    ensures part { OnErr result (AppendsPart (S.written sink.old) (S.written sink.new) bytes.now) }
    ensures failed { OnErr result (IsFaultCounted (S.faults sink.old) (S.faults sink.new)) }
{
    let mut done = 0;
    while done < bytes.len() {
        done += sink.write(&bytes[done..])?;
    }
    Ok(())
}
