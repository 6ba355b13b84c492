//! Writing the text of an outcome.

ghost use Rattle.std.specs.Prelude.{◌≡◌, ◌≢◌, ◌≤◌, ◌⊎◌};
ghost use Rattle.hv_io.specs.Faults.{IsFaultCounted};
ghost use Rattle.hv_io.specs.Sink.{appended, AppendsPart};
ghost use Rattle.call_outcomes.specs.Outcome.{Becomes};
ghost use Rattle.call_outcomes.specs.SeenOutcome.{outcome_of};
ghost use Rattle.call_outcomes.specs.Text.{HasText, words_of, outcome_bytes, status_of};
ghost use Rattle.call_outcomes.specs.Writing.{IsWritten};

use crate::outcome::Outcome;
use crate::text::{READ_FAULT, USAGE, WANT_OF_MEMORY, outcome_text, status};
use hv_io::{Sink, put_all};
use pi_tree::Protocol;
use std::alloc::Global;

/// The status of a call whose text could not all be written.
const NOT_WRITTEN: u8 = 6;

/// What a call ends with: the outcome, and the program's exit status.
pub struct Answer {
    pub status: u8,
    pub outcome: Outcome,
}

impl Drop for Answer {
    fn drop(self) {
        let Answer { status: _, outcome } = self;
        drop(outcome);
    }
}

/// Writes a text, and answers with the outcome and its status, or with 6 where a part could not be written.
pub fn finish<S: Sink>(outcome: Outcome, text: &[u8], out: &mut S) -> Answer
    ensures outcome { result.outcome ≡ outcome }
    ensures faults_rise { S.faults out.old ≤ S.faults out.new }
    ensures fault { result.status ≡ 6 → IsFaultCounted (S.faults out.old) (S.faults out.new) }
    ensures status { result.status ≢ 6 → result.status ≡ status_of (outcome_of outcome) }
    ensures whole { result.status ≢ 6 → S.written out.new ≡ appended (S.written out.old) text.now }
    ensures part { result.status ≡ 6 →
        AppendsPart (S.written out.old) (S.written out.new) text.now }
{
    let status = match put_all(out, text) {
        Ok(()) => status(&outcome),
        Err(_) => NOT_WRITTEN,
    };
    Answer { status, outcome }
}

/// Makes an outcome's text and writes it. The text of `Usage`, `ReadFault` and `Memory` takes no memory; in place of another
/// outcome `Memory` may come.
pub fn respond<S: Sink>(
    alloc: Global,
    protocol: Option<&Protocol>,
    outcome: Outcome,
    format: u8,
    out: &mut S,
) -> Answer
    requires words { HasText (words_of protocol) (outcome_of outcome) }
    requires format { (format ≡ 1) ⊎ (format ≡ 2) }
    ensures outcome { Becomes (outcome_of outcome) (outcome_of result.outcome) }
    ensures words { HasText (words_of protocol.entry) (outcome_of result.outcome) }
    ensures faults_rise { S.faults out.old ≤ S.faults out.new }
    ensures fault { result.status ≡ 6 → IsFaultCounted (S.faults out.old) (S.faults out.new) }
    ensures status { result.status ≢ 6 → result.status ≡ status_of (outcome_of result.outcome) }
    ensures written { IsWritten result.status (S.written out.old) (S.written out.new)
        (outcome_bytes format (words_of protocol.entry) (outcome_of result.outcome)) }
{
    match &outcome {
        Outcome::Usage => finish(outcome, USAGE, out),
        Outcome::ReadFault => finish(outcome, READ_FAULT, out),
        Outcome::Memory => finish(outcome, WANT_OF_MEMORY, out),
        _ => match outcome_text(alloc, protocol, &outcome, format) {
            Ok(text) => finish(outcome, &text, out),
            Err(_) => {
                drop(outcome);
                finish(Outcome::Memory, WANT_OF_MEMORY, out)
            }
        },
    }
}
