//! The call that the program makes: words and a file in, an answer and its text out.

ghost use Rattle.std.specs.Prelude.{◌≡◌, ◌≢◌, ◌≤◌, ◌⊎◌, ℕ, List, None, map};
ghost use Rattle.std.specs.String.{string_bytes};
ghost use Rattle.hv_io.specs.Faults.{IsFaultCounted};
ghost use Rattle.command_words.specs.Request as request;
ghost use Rattle.command_words.specs.Request.{request_seen};
ghost use Rattle.protocol_loading.specs.Outside.{outside};
ghost use Rattle.call_outcomes.specs.Outcome as own;
ghost use Rattle.call_outcomes.specs.Outcome.{Becomes};
ghost use Rattle.call_outcomes.specs.SeenOutcome.{outcome_of};
ghost use Rattle.call_outcomes.specs.Text.{outcome_bytes, status_of};
ghost use Rattle.call_outcomes.specs.Writing.{IsWritten};
ghost use Rattle.verifier_cli.specs.Command.{IsAskable};
ghost use Rattle.verifier_cli.specs.Words.{Asks, IsNoCommand};
ghost use Rattle.verifier_cli.specs.World.{World, format_of};

use crate::deciding::decide;
use crate::decision::Decision;
use crate::read_back::verdicts_are_read_back;
use call_outcomes::{Answer, Outcome, USAGE, WANT_OF_MEMORY, finish, respond};
use command_words::laws::{asked_budgets, asked_formats, asked_stages};
use command_words::{Request, read_words};
use hv_io::{Files, Sink};
use std::alloc::Global;

/// The format of certificates of a request that prints none.
const NO_CERTIFICATES: u8 = 1;

/// The format of the certificates that are printed for what is asked.
fn format_of(asked: Request<'_>) -> u8
    requires { IsAskable (request_seen asked) }
    ensures known { (result ≡ 1) ⊎ (result ≡ 2) }
    ensures asked { result ≡ format_of (request_seen asked.entry) }
{
    match asked {
        Request::Verify { format, .. } => format as u8,
        _ => NO_CERTIFICATES,
    }
}

/// Does what is asked, and writes the outcome's text.
fn answer<F: Files, S: Sink>(
    alloc: Global,
    asked: Request<'_>,
    files: &mut F,
    out: &mut S,
) -> Answer
    requires { IsAskable (request_seen asked) }
    ensures world { World (request_seen asked.entry)
        (outside F.held F.faults F.loads files.old files.new) (outcome_of result.outcome)
        (λ text. IsWritten result.status (S.written out.old) (S.written out.new) text) }
    ensures held_stays { (name : List ℕ) → F.held files.new name ≡ F.held files.old name }
    ensures read_faults_rise { (name : List ℕ) →
        F.faults files.old name ≤ F.faults files.new name }
    ensures write_faults_rise { S.faults out.old ≤ S.faults out.new }
    ensures status { result.status ≢ 6 →
        result.status ≡ status_of (outcome_of result.outcome) }
    ensures write_fault { result.status ≡ 6 →
        IsFaultCounted (S.faults out.old) (S.faults out.new) }
{
    verdicts_are_read_back();
    let Decision { protocol, outcome } = decide(alloc, asked, files);
    let answer = respond(alloc, protocol.as_ref(), outcome, format_of(asked), out);
    drop(protocol);
    answer
}

/// Does what the words ask for, and writes the outcome's text. The first word is the program's name.
///
/// The outcome is `Usage` exactly where the words ask for nothing. Else the protocol's file is loaded. Where that fails, the
/// outcome is `ReadFault`, and else it is about the bytes that were read: `Refused` where they spell no protocol, with the
/// reason and the place. Where they spell one, `verify` comes to `Verified` with the verdict of each query, and `list` to
/// `Listed` with the clauses of a query, to `ListLarge` or to `NoQuery`. `check` then loads the report's file, and `replay` the
/// run's: that comes to `ReadFault`, to `Refused`, or to `Checked` with what is found of each query's claim, or to `Replayed` with
/// what the steps show. `ring` takes no file: it comes to `Ring` with the summary. `Memory` may come in place of any of these.
pub fn top<F: Files, S: Sink>(alloc: Global, words: &[String], files: &mut F, out: &mut S) -> Answer
    // The words ask for nothing: no file is loaded, and the usage is written.
    ensures usage { IsNoCommand (map string_bytes words.now) →
        Becomes own.Usage (outcome_of result.outcome) }
    ensures usage_only { outcome_of result.outcome ≡ own.Usage →
        IsNoCommand (map string_bytes words.now) }
    ensures usage_text { IsNoCommand (map string_bytes words.now) →
        IsWritten result.status (S.written out.old) (S.written out.new)
        (outcome_bytes 1 None (outcome_of result.outcome)) }
    ensures usage_loads { IsNoCommand (map string_bytes words.now) →
        F.loads files.new ≡ F.loads files.old }

    // They ask for something: there is one list of bytes of each file that is read, by which all that the definitions say
    // of the request is so: the outcome, the headline, that attacks violate their queries, the text that is written, what
    // `check` finds in it, and which outcomes come where the files are accepted.
    ensures world { (asked : request.Request) → Asks (map string_bytes words.now) asked →
        World asked (outside F.held F.faults F.loads files.old files.new)
        (outcome_of result.outcome) (λ text.
        IsWritten result.status (S.written out.old) (S.written out.new) text) }

    ensures held_stays { (name : List ℕ) → F.held files.new name ≡ F.held files.old name }
    ensures read_faults_rise { (name : List ℕ) →
        F.faults files.old name ≤ F.faults files.new name }
    ensures write_faults_rise { S.faults out.old ≤ S.faults out.new }

    // The status is that of the outcome, or 6 with a fault of the sink that was counted.
    ensures status { result.status ≢ 6 →
        result.status ≡ status_of (outcome_of result.outcome) }
    ensures write_fault { result.status ≡ 6 →
        IsFaultCounted (S.faults out.old) (S.faults out.new) }
{
    asked_budgets();
    asked_formats();
    asked_stages();
    match read_words(alloc, words) {
        Ok(Some(asked)) => answer(alloc, asked, files, out),
        Ok(None) => finish(Outcome::Usage, USAGE, out),
        Err(_) => finish(Outcome::Memory, WANT_OF_MEMORY, out),
    }
}
