//! The processes' steps of one thread: what each changes where it is possible, and why it is refused.

ghost use Rattle.std.specs.Prelude.{IfOk, IfErr};
ghost use Rattle.spec_calculus.specs.Runs as calculus;
ghost use Rattle.pi_model.specs.Running.{Changes, Refuses};

use crate::errors::{ApplyError, StepError};
use crate::running::Run;
use crate::standing::{point_after, standing_of};
use pi_configurations::changes::Change;
use pi_configurations::happenings::Happened;
use pi_configurations::knowing::knows;
use pi_configurations::threads::Thread;
use pi_tree::{Process, Slot, Value};
use term_values::{Bound, evaluate, evaluate_all, some_large_at};

/// The thread at a parallel composition becomes two.
#[tactic(auto, using(crate::proofs::ThreadSteps::of_split, pi_configurations::proofs::Points::of_points))]
pub fn split(run: &Run, number: u32) -> Result<Change, ApplyError>
    ensures possible { IfOk result (Changes run.now (calculus.Split number)) }
    ensures refused { IfErr result (Refuses run.now (calculus.Split number)) }
{
    let at = standing_of(run, number)?;
    match at.process {
        Process::Par(left, _) => {
            let right = point_after(at.point + 1, left);
            let begun = Thread::At(right, at.environment.copy(run.alloc)?);
            Ok(Change::Split(number, at.point + 1, begun))
        }
        _ => Err(ApplyError::Refused(StepError::WrongForm)),
    }
}

/// The thread at a replication gives one more copy.
#[tactic(auto, using(crate::proofs::ThreadSteps::of_copy, pi_configurations::proofs::Points::of_points))]
pub fn copy(run: &Run, number: u32) -> Result<Change, ApplyError>
    ensures possible { IfOk result (Changes run.now (calculus.Copy number)) }
    ensures refused { IfErr result (Refuses run.now (calculus.Copy number)) }
{
    let at = standing_of(run, number)?;
    match at.process {
        Process::Copies(_) => {
            let begun = Thread::At(at.point + 1, at.environment.copy(run.alloc)?);
            Ok(Change::Begin(begun))
        }
        _ => Err(ApplyError::Refused(StepError::WrongForm)),
    }
}

/// The thread's restriction makes a name.
#[tactic(auto, using(crate::proofs::ThreadSteps::of_make, pi_configurations::proofs::Points::of_points))]
pub fn make(run: &Run, number: u32) -> Result<Change, ApplyError>
    ensures possible { IfOk result (Changes run.now (calculus.Make number)) }
    ensures refused { IfErr result (Refuses run.now (calculus.Make number)) }
{
    let at = standing_of(run, number)?;
    match at.process {
        Process::New(_, _) => {
            let mut environment = at.environment.copy(run.alloc)?;
            environment.bind(Slot::Made(at.point), Value::Made(at.point, run.conf.next))?;
            Ok(Change::Make(number, Thread::At(at.point + 1, environment)))
        }
        _ => Err(ApplyError::Refused(StepError::WrongForm)),
    }
}

/// The attacker hears the message of the thread at an output on a channel that is known.
#[tactic(auto, using(crate::proofs::ThreadSteps::of_hear, pi_configurations::proofs::Points::of_points))]
pub fn hear(run: &Run, number: u32) -> Result<Change, ApplyError>
    ensures possible { IfOk result (Changes run.now (calculus.Hear number)) }
    ensures refused { IfErr result (Refuses run.now (calculus.Hear number)) }
{
    let at = standing_of(run, number)?;
    match at.process {
        Process::Output(channel, message, _) => {
            if !knows(run.conf, channel, &Bound::All(at.environment)) {
                return Err(ApplyError::Refused(StepError::UnknownChannel));
            }
            if some_large_at(at.process, at.environment) {
                return Err(ApplyError::Refused(StepError::Large));
            }
            let value = evaluate(message, run.alloc, at.environment)?;
            Ok(Change::Hear(number, at.point + 1, value))
        }
        _ => Err(ApplyError::Refused(StepError::WrongForm)),
    }
}

/// The thread performs its event.
#[tactic(auto, using(crate::proofs::ThreadSteps::of_mark, pi_configurations::proofs::Points::of_points))]
pub fn mark(run: &Run, number: u32) -> Result<Change, ApplyError>
    ensures possible { IfOk result (Changes run.now (calculus.Mark number)) }
    ensures refused { IfErr result (Refuses run.now (calculus.Mark number)) }
{
    let at = standing_of(run, number)?;
    match at.process {
        Process::Event(performed, _) => {
            if some_large_at(at.process, at.environment) {
                return Err(ApplyError::Refused(StepError::Large));
            }
            let args = evaluate_all(&performed.args, run.alloc, at.environment)?;
            let event = performed.event;
            Ok(Change::Mark(number, at.point + 1, Happened { event, args }))
        }
        _ => Err(ApplyError::Refused(StepError::WrongForm)),
    }
}
