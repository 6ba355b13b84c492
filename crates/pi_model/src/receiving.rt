//! The processes' steps by which a thread receives: what each changes where it is possible, and why it is
//! refused.

ghost use Rattle.std.specs.Prelude.{◌≡◌, ◌+◌, ◌^◌, ◌<◌, ◌||◌, IfOk, IfErr};
ghost use Rattle.std.specs.List.{list_any};
ghost use Rattle.std.specs.Rc.{rc_value};
ghost use Rattle.spec_calculus.specs.Limits.{is_large, terms_at};
ghost use Rattle.spec_calculus.specs.Matching.{matched};
ghost use Rattle.spec_calculus.specs.Runs as calculus;
ghost use Rattle.spec_calculus.specs.Runs.{received};
ghost use Rattle.spec_calculus.specs.Values.{values_of};
ghost use Rattle.pi_tree.specs.Patterns.{pattern_of};
ghost use Rattle.pi_tree.specs.Processes.{process_of};
ghost use Rattle.pi_tree.specs.Values.{value_of};
ghost use Rattle.pi_model.specs.Running.{StandsIn, IsWithin, Changes, Refuses};
ghost use Rattle.pi_configurations.specs.Threads.{thread_of};

use crate::errors::{ApplyError, StepError};
use crate::running::Run;
use crate::standing::{Stand, standing_of};
use pi_configurations::changes::Change;
use pi_configurations::configurations::{is_thread, known_value};
use pi_configurations::knowing::knows;
use pi_configurations::threads::Thread;
use pi_tree::{Pat, Process, Value};
use std::alloc::{AllocError, Global};
use std::rc::Rc;
use term_values::{
    Bound, Environment, evaluate, evaluate_shared, is_value_of, matched, matched_shared,
    some_large_at,
};

/// The thread at an input once it has received a value of which its pattern binds so much: it goes on, and else it has ended.
fn going_on(
    alloc: Global,
    point: u32,
    environment: &Environment,
    matching: Option<Environment>,
) -> Result<Thread, AllocError>
    requires { point + 1 < 2 ^ 32 }
    ensures { IfOk result (λ t. thread_of t ≡ received point environment.now matching) }
{
    match matching {
        None => Ok(Thread::Ended),
        Some(bindings) => Ok(Thread::At(point + 1, environment.extended(alloc, bindings)?)),
    }
}

/// The thread at an input with that pattern once it has received the value: it goes on where the value
/// matches, and else it has ended.
fn received(
    alloc: Global,
    point: u32,
    environment: &Environment,
    pattern: &Pat,
    value: &Value,
) -> Result<Thread, AllocError>
    requires { point + 1 < 2 ^ 32 }
    ensures { IfOk result (λ t. thread_of t ≡
        received point environment.now (matched environment.now (pattern_of pattern.now)
        (value_of value.now))) }
{
    let matching = matched(alloc, environment, pattern, value)?;
    going_on(alloc, point, environment, matching)
}

/// The same; a pattern that is a variable shares the value.
fn received_shared(
    alloc: Global,
    point: u32,
    environment: &Environment,
    pattern: &Pat,
    value: &Rc<Value>,
) -> Result<Thread, AllocError>
    requires { point + 1 < 2 ^ 32 }
    ensures { IfOk result (λ t. thread_of t ≡
        received point environment.now (matched environment.now (pattern_of pattern.now)
        (value_of (rc_value value.now)))) }
{
    let matching = matched_shared(alloc, environment, pattern, value)?;
    going_on(alloc, point, environment, matching)
}

/// The thread at an input on a channel that is known receives a known value.
#[tactic(auto, using(crate::proofs::ThreadSteps::of_say, pi_configurations::proofs::Points::of_points))]
pub fn say(run: &Run, number: u32, known: u32) -> Result<Change, ApplyError>
    ensures possible { IfOk result (Changes run.now (calculus.Say number known)) }
    ensures refused { IfErr result (Refuses run.now (calculus.Say number known)) }
{
    let at = standing_of(run, number)?;
    match at.process {
        Process::Input(channel, pattern, _) => {
            if !knows(run.conf, channel, &Bound::All(at.environment)) {
                return Err(ApplyError::Refused(StepError::UnknownChannel));
            }
            let value = known_value(run.conf, known).ok_or(StepError::NoKnowledge)?;
            if some_large_at(at.process, at.environment) {
                return Err(ApplyError::Refused(StepError::Large));
            }
            let thread = received(run.alloc, at.point, at.environment, pattern, value)?;
            Ok(Change::Replace(number, thread))
        }
        _ => Err(ApplyError::Refused(StepError::WrongForm)),
    }
}

/// Whether the value of a term that is written where the one or the other stands is large.
fn some_large_at_either(from: &Stand, to: &Stand) -> bool
    ensures { result ≡ (list_any is_large (values_of from.now.environment.now
        (terms_at (process_of from.now.process.now))) || list_any is_large
        (values_of to.now.environment.now (terms_at (process_of to.now.process.now)))) }
{
    some_large_at(from.process, from.environment) || some_large_at(to.process, to.environment)
}

/// An output meets an input, whose channels are the terms there.
#[tactic(auto, using(crate::proofs::Passing::of_meeting, pi_configurations::proofs::Points::of_points))]
fn meet(
    run: &Run,
    sender: u32,
    receiver: u32,
    from: &Stand,
    to: &Stand,
) -> Result<Change, ApplyError>
    requires sends { StandsIn run.now sender from.now }
    requires sends_within { IsWithin run.now from.now }
    requires receives { StandsIn run.now receiver to.now }
    requires receives_within { IsWithin run.now to.now }
    ensures possible { IfOk result (Changes run.now (calculus.Pass sender receiver)) }
    ensures refused { IfErr result (Refuses run.now (calculus.Pass sender receiver)) }
{
    match from.process {
        Process::Output(channel, message, _) => match to.process {
            Process::Input(on, pattern, _) => {
                let channel = evaluate(channel, run.alloc, from.environment)?;
                let same = is_value_of(on, &channel, &Bound::All(to.environment));
                drop(channel);
                if !same {
                    return Err(ApplyError::Refused(StepError::ChannelsDiffer));
                }
                if some_large_at_either(from, to) {
                    return Err(ApplyError::Refused(StepError::Large));
                }
                let message = evaluate_shared(message, run.alloc, from.environment)?;
                let thread = received_shared(
                    run.alloc,
                    to.point,
                    to.environment,
                    pattern,
                    &message,
                )?;
                Ok(Change::Pass(sender, from.point + 1, receiver, thread))
            }
            _ => Err(ApplyError::Refused(StepError::WrongForm)),
        },
        _ => Err(ApplyError::Refused(StepError::WrongForm)),
    }
}

/// An output meets an input of another thread on an equal channel.
#[tactic(auto, using(crate::proofs::Passing::of_pass))]
pub fn pass(run: &Run, sender: u32, receiver: u32) -> Result<Change, ApplyError>
    ensures possible { IfOk result (Changes run.now (calculus.Pass sender receiver)) }
    ensures refused { IfErr result (Refuses run.now (calculus.Pass sender receiver)) }
{
    if !is_thread(run.conf, sender) || !is_thread(run.conf, receiver) {
        return Err(ApplyError::Refused(StepError::NoThread));
    }
    let from = match standing_of(run, sender) {
        Ok(from) => from,
        Err(_) => return Err(ApplyError::Refused(StepError::WrongForm)),
    };
    let to = match standing_of(run, receiver) {
        Ok(to) => to,
        Err(_) => return Err(ApplyError::Refused(StepError::WrongForm)),
    };
    meet(run, sender, receiver, &from, &to)
}
