//! The command `replay`: what the steps of a run show.

ghost use Rattle.std.specs.Prelude.{◌≡◌, ◌<◌, ◌≤◌, ◌^◌, ℕ, List, None, length, IfOk, IfErr};
ghost use Rattle.spec_calculus.specs.Bounds.{most_run_bytes};
ghost use Rattle.command_words.specs.Request as request;
ghost use Rattle.pi_tree.specs.Protocols.{protocol_of};
ghost use Rattle.protocol_loading.specs.Outside.{OfFile, outside};
ghost use Rattle.run_replay.specs.Limits.{IsLimited};
ghost use Rattle.call_outcomes.specs.SeenOutcome.{outcome_of};
ghost use Rattle.call_outcomes.specs.Text.{HasText};
ghost use Rattle.verifier_cli.specs.Unread.{IfRead};
ghost use Rattle.verifier_cli.specs.Replaying.{SpellsSteps, IsOutcomeOfReplay, RunsOn};
ghost use Rattle.verifier_cli.specs.RunReading.{run_not_loaded, run_not_read, IsUnreadRun};
ghost use Rattle.verifier_cli.specs.Requests.{ComesTo};

use crate::loading::load_protocol;
use call_outcomes::{Outcome, Refusal, RunCode};
use hv_io::Files;
use pi_tree::{MOST_RUN_BYTES, Protocol};
use protocol_loading::{Unloaded, load_text};
use run_replay::{RunError, Steps, read_run, replay};
use spec_protocol_scope::{never_both, one_protocol, one_refusal};
use std::alloc::Global;

/// What a call comes to whose run could not be loaded.
fn run_not_loaded(why: Unloaded) -> Outcome
    ensures { outcome_of result ≡ run_not_loaded why }
{
    match why {
        Unloaded::Failed => Outcome::ReadFault,
        Unloaded::TooLong => Outcome::Refused(Refusal::Run {
            line: 1,
            code: RunCode::LongFile,
        }),
        Unloaded::Memory => Outcome::Memory,
    }
}

/// What a call comes to whose run could not be read.
fn run_not_read(error: RunError) -> Outcome
    ensures { outcome_of result ≡ run_not_read error }
{
    let (line, code) = match error {
        RunError::Word(line) => (line, RunCode::Word),
        RunError::Number(line) => (line, RunCode::Number),
        RunError::LongLine(line) => (line, RunCode::LongLine),
        RunError::Memory(_) => return Outcome::Memory,
    };
    Outcome::Refused(Refusal::Run { line, code })
}

/// The steps that a file spells, or what the call comes to where it spells none.
fn load_run<F: Files>(alloc: Global, run: &str, files: &mut F) -> Result<Steps, Outcome>
    ensures held_stays { (name : List ℕ) → F.held files.new name ≡ F.held files.old name }
    ensures read_faults_rise { (name : List ℕ) → F.faults files.old name ≤ F.faults files.new name }
    ensures few { IfOk result (λ steps. length steps < 2 ^ 32) }
    ensures spelled { IfOk result (λ steps.
        OfFile (outside F.held F.faults F.loads files.old files.new) run.now most_run_bytes
        (λ bytes. SpellsSteps bytes steps)) }
    ensures unread { IfErr result (λ outcome.
        IsUnreadRun (outside F.held F.faults F.loads files.old files.new) run.now
        (outcome_of outcome)) }
{
    spec_run_text::few_steps();
    match load_text(run, MOST_RUN_BYTES, files) {
        Err(why) => Err(run_not_loaded(why)),
        Ok(bytes) => match read_run(alloc, &bytes) {
            Ok(steps) => Ok(steps),
            Err(error) => Err(run_not_read(error)),
        },
    }
}

/// What replaying the steps comes to.
fn replayed(alloc: Global, protocol: &Protocol, steps: &Steps) -> Outcome
    requires limits { IsLimited (protocol_of protocol.now) }
    requires few { length steps.now < 2 ^ 32 }
    ensures { IsOutcomeOfReplay (protocol_of protocol.now) steps.now (outcome_of result) }
{
    match replay(alloc, protocol, &steps.items) {
        Ok(replayed) => Outcome::Replayed(replayed),
        Err(_) => Outcome::Memory,
    }
}

/// Loads a run of the protocol and replays it.
fn replay_run<F: Files>(alloc: Global, protocol: &Protocol, run: &str, files: &mut F) -> Outcome
    requires { IsLimited (protocol_of protocol.now) }
    ensures held_stays { (name : List ℕ) → F.held files.new name ≡ F.held files.old name }
    ensures read_faults_rise { (name : List ℕ) → F.faults files.old name ≤ F.faults files.new name }
    ensures shown { IfRead (outside F.held F.faults F.loads files.old files.new) run.now
        most_run_bytes (outcome_of result) (λ text.
        RunsOn (protocol_of protocol.now) text (outcome_of result)) }
{
    spec_run_text::one_run();
    spec_run_text::one_refusal();
    spec_run_text::never_both();
    match load_run(alloc, run, files) {
        Err(outcome) => outcome,
        Ok(steps) => replayed(alloc, protocol, &steps),
    }
}

/// Loads a protocol and a run, and replays that.
pub(crate) fn replay_file<F: Files>(alloc: Global, file: &str, run: &str, files: &mut F) -> Outcome
    ensures held_stays { (name : List ℕ) → F.held files.new name ≡ F.held files.old name }
    ensures read_faults_rise { (name : List ℕ) → F.faults files.old name ≤ F.faults files.new name }
    ensures words { HasText None (outcome_of result) }
    ensures comes { ComesTo (request.Replay file.now run.now)
        (outside F.held F.faults F.loads files.old files.new) None (outcome_of result) }
{
    one_protocol();
    one_refusal();
    never_both();
    match load_protocol(alloc, file, files) {
        Err(outcome) => outcome,
        Ok(protocol) => {
            let outcome = replay_run(alloc, &protocol, run, files);
            drop(protocol);
            outcome
        }
    }
}
