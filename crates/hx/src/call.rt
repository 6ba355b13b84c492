//! The call that the program makes: words and files in, an answer and its text out.

ghost use Rattle.std.specs.Prelude.{◌≡◌, ◌≢◌, ◌≤◌};
ghost use Rattle.hv_io.specs.Faults.{IsFaultCounted};
ghost use Rattle.hx.specs.Status.{HasStatus};

use crate::commands::read_words;
use crate::numbered::put_numbered;
use crate::outcome::{Answer, Outcome, Refusal, status};
use crate::showing::page;
use hv_io::{Files, Sink, put_all, put_words};
use std::alloc::{AllocError, Global};

/// What is written for words that are no command.
const USAGE: &[u8] =
    b"usage: points FILE | log FILE QUERY [--budget N] | warn FILE [--strict] | draw FILE RUN [--svg | --width N] | draw FILE --attack QUERY [--svg | --width N] [--budget N] | why FILE QUERY [--budget N] | attack FILE QUERY [--budget N] | reach FILE [--budget N] [--runs] | certify FILE QUERY [--budget N] [--format F] | check FILE REPORT\n";

/// What is written for a run with more steps than are drawn.
const LONG_RUN: &[u8] = b"long run: 2000 steps are drawn at most\n";

/// What is written where a file could not be read.
const READ_FAULT: &[u8] = b"read fault\n";

/// What is written where there was no memory.
const WANT_OF_MEMORY: &[u8] = b"want of memory\n";

/// The status of a call whose text could not all be written.
const NOT_WRITTEN: u8 = 6;

/// Puts the line that refuses a text, as the verifier writes it.
fn put_refusal(out: &mut Vec<u8>, refusal: Refusal) -> Result<(), AllocError> {
    match refusal {
        Refusal::Protocol { line, column, code } => {
            put_words(out, format_args!("refused {line}:{column} {code}\n"))
        }
        Refusal::Report { line, code } => {
            put_words(out, format_args!("refused report {line} {code}\n"))
        }
        Refusal::Run { line, code } => put_words(out, format_args!("refused run {line} {code}\n")),
    }
}

/// Puts the text of an outcome that shows nothing.
fn put_outcome(out: &mut Vec<u8>, outcome: Outcome) -> Result<(), AllocError> {
    match outcome {
        Outcome::Shown | Outcome::NotFound | Outcome::Warned => Ok(()),
        Outcome::NoQuery(query) => put_numbered(out, "no query ", u64::from(query), "\n"),
        Outcome::Stuck(number, error) => put_words(out, format_args!("stuck {number}: {error}\n")),
        Outcome::LongRun => out.extend_from_slice(LONG_RUN),
        Outcome::Refused(refusal) => put_refusal(out, refusal),
        Outcome::Usage => out.extend_from_slice(USAGE),
        Outcome::ReadFault => out.extend_from_slice(READ_FAULT),
        Outcome::Memory => out.extend_from_slice(WANT_OF_MEMORY),
    }
}

/// Writes a text, and answers with the outcome and its status, or with 6 where a part could not be written.
fn finish<S: Sink>(outcome: Outcome, text: &[u8], out: &mut S) -> Answer
    ensures faults_rise { S.faults out.old ≤ S.faults out.new }
    ensures fault { result.status ≡ 6 → IsFaultCounted (S.faults out.old) (S.faults out.new) }
    ensures status { result.status ≢ 6 → HasStatus result.outcome result.status }
{
    let status = match put_all(out, text) {
        Ok(()) => status(outcome),
        Err(_) => NOT_WRITTEN,
    };
    Answer { status, outcome }
}

/// Writes the text of an outcome that shows nothing.
fn finish_bare<S: Sink>(alloc: Global, outcome: Outcome, out: &mut S) -> Answer
    ensures faults_rise { S.faults out.old ≤ S.faults out.new }
    ensures fault { result.status ≡ 6 → IsFaultCounted (S.faults out.old) (S.faults out.new) }
    ensures status { result.status ≢ 6 → HasStatus result.outcome result.status }
{
    let mut text = Vec::new(alloc);
    match put_outcome(&mut text, outcome) {
        Ok(()) => finish(outcome, &text, out),
        Err(_) => finish(Outcome::Memory, WANT_OF_MEMORY, out),
    }
}

/// Does what the words ask for, and writes it. The first word is the program's name.
///
/// The outcome is `Usage` where the words ask for nothing. Else the files are loaded, `Refused` where the verifier refuses them,
/// for the same reason and at the same place. `NoQuery`, `Stuck` and `LongRun` say why nothing is shown of a protocol and a run
/// that were read.
pub fn show<F: Files, S: Sink>(
    alloc: Global,
    words: &[String],
    files: &mut F,
    out: &mut S,
) -> Answer
    // The status is that of the outcome, or 6 with a fault of the sink that was counted.
    ensures faults_rise { S.faults out.old ≤ S.faults out.new }
    ensures fault { result.status ≡ 6 → IsFaultCounted (S.faults out.old) (S.faults out.new) }
    ensures status { result.status ≢ 6 → HasStatus result.outcome result.status }
{
    let Some(asked) = read_words(words) else {
        return finish_bare(alloc, Outcome::Usage, out);
    };
    match page(alloc, asked, files) {
        Ok(page) => finish(page.outcome, &page.text, out),
        Err(outcome) => finish_bare(alloc, outcome, out),
    }
}
