//! A place in bytes, which goes on as they are read.

ghost use Rattle.std.specs.Prelude.{◌≡◌, ◌≢◌, ◌<◌, ◌≤◌, true, false, [], drop, length};

use crate::bytes::{fixed, front, number_at};
use crate::error::CertError;

/// Bytes, and the place of the next byte that is read.
#[derive(Drop)]
pub struct Cursor<'a> {
    pub bytes: &'a [u8],
    pub at: usize,
    ghost within: { at ≤ length bytes.now },
}

impl<'a> Cursor<'a> {
    ghost use Rattle.spec_certificate_text.specs.Clauses.{has_next_hypothesis};
    ghost use Rattle.spec_certificate_text.specs.Outcomes as outcomes;
    ghost use Rattle.spec_certificate_text.specs.Outcomes.{read_fixed, read_number};
    ghost use Rattle.fact_reader.specs.Gives.{same};
    ghost use Rattle.fact_reader.specs.Reads.{left_of, Reads, Passes};

    /// Whether no byte is left.
    #[tactic(auto, using(crate::proofs::Places::ends))]
    pub fn is_at_end(&self) -> bool
        ensures end { result ≡ true → left_of self.now ≡ [] }
        ensures more { result ≡ false → left_of self.now ≢ [] }
    {
        self.at == self.bytes.len()
    }

    /// The next byte; 0 at the end.
    pub fn front(&self) -> u8
        ensures is { result ≡ outcomes.front (left_of self.now) }
        ensures there { 0 < result → self.now.at < length self.now.bytes.now }
    {
        front(self.bytes, self.at)
    }

    /// The byte behind so many others; 0 where there is none.
    pub fn front_behind(&self, others: usize) -> u8
        ensures { result ≡ outcomes.front (drop others (left_of self.now)) }
    {
        front(&self.bytes[self.at..], others)
    }

    /// Whether behind a hypothesis another follows, and no constraint.
    pub fn has_next_hypothesis(&self) -> bool
        ensures { result ≡ has_next_hypothesis (left_of self.now) }
    {
        self.front() == b',' && self.front_behind(2) != b'd'
    }

    /// Passes over the text, which has to stand there.
    pub fn pass(&mut self, text: &[u8]) -> Result<(), CertError>
        ensures read { Passes (read_fixed text.now) self.old self.new result }
        ensures same { self.new.bytes.now ≡ self.old.bytes.now }
    {
        self.at = fixed(text, self.bytes, self.at)?;
        Ok(())
    }

    /// The number that stands there: all digits.
    pub fn number(&mut self) -> Result<u32, CertError>
        ensures read { Reads same read_number self.old self.new result }
        ensures same { self.new.bytes.now ≡ self.old.bytes.now }
    {
        let (found, behind) = number_at(self.bytes, self.at)?;
        self.at = behind;
        Ok(found)
    }
}
