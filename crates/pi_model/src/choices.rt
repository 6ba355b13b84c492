//! The steps of a thread at a `let`: what each changes where it is possible, and why it is refused.

ghost use Rattle.std.specs.Prelude.{IfOk, IfErr};
ghost use Rattle.spec_calculus.specs.Runs as calculus;
ghost use Rattle.pi_model.specs.Running.{Changes, Refuses};

use crate::errors::{ApplyError, StepError};
use crate::running::Run;
use crate::standing::{point_after, standing_of};
use crate::steps::Numbers;
use pi_configurations::changes::Change;
use pi_configurations::threads::Thread;
use pi_tree::Process;
use term_values::{
    Context, matched, some_large_at, some_large_tried, some_value_matches, value_at,
};

/// The thread at a `let` goes on with the value of that label, which matches its pattern.
#[tactic(auto, using(crate::proofs::ThreadSteps::of_take, pi_configurations::proofs::Points::of_points))]
pub fn take(run: &Run, number: u32, label: &Numbers) -> Result<Change, ApplyError>
    ensures possible { IfOk result (Changes run.now (calculus.Take number label.now)) }
    ensures refused { IfErr result (Refuses run.now (calculus.Take number label.now)) }
{
    let at = standing_of(run, number)?;
    match at.process {
        Process::Let(pattern, expression, _, _) => {
            let context = Context {
                alloc: run.alloc,
                protocol: run.protocol,
                environment: at.environment,
            };
            let found = value_at(&context, expression, &label.items)?.ok_or(StepError::NoRule)?;
            let matching = matched(run.alloc, at.environment, pattern, &found.value);
            let large = found.large;
            drop(found);
            let bindings = matching?.ok_or(StepError::NoRule)?;
            if some_large_at(at.process, at.environment) || large {
                return Err(ApplyError::Refused(StepError::Large));
            }
            let environment = at.environment.extended(run.alloc, bindings)?;
            Ok(Change::Replace(number, Thread::At(at.point + 1, environment)))
        }
        _ => Err(ApplyError::Refused(StepError::WrongForm)),
    }
}

/// The thread at a `let` goes to its else branch, where none of its values matches.
#[tactic(auto, using(crate::proofs::ThreadSteps::of_fail, pi_configurations::proofs::Points::of_points))]
pub fn fail(run: &Run, number: u32) -> Result<Change, ApplyError>
    ensures possible { IfOk result (Changes run.now (calculus.Fail number)) }
    ensures refused { IfErr result (Refuses run.now (calculus.Fail number)) }
{
    let at = standing_of(run, number)?;
    match at.process {
        Process::Let(pattern, expression, next, _) => {
            let context = Context {
                alloc: run.alloc,
                protocol: run.protocol,
                environment: at.environment,
            };
            if some_value_matches(&context, pattern, expression)? {
                return Err(ApplyError::Refused(StepError::NotFailing));
            }
            let large = some_large_tried(&context, expression)?;
            if some_large_at(at.process, at.environment) || large {
                return Err(ApplyError::Refused(StepError::Large));
            }
            Ok(Change::Advance(number, point_after(at.point + 1, next)))
        }
        _ => Err(ApplyError::Refused(StepError::WrongForm)),
    }
}
