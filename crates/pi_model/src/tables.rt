//! The steps of tables: what each changes where it is possible, and why it is refused.

ghost use Rattle.std.specs.Prelude.{IfOk, IfErr};
ghost use Rattle.spec_calculus.specs.Runs as calculus;
ghost use Rattle.pi_model.specs.Running.{Changes, Refuses};

use crate::errors::{ApplyError, StepError};
use crate::running::Run;
use crate::standing::{point_after, standing_of};
use held_entries::{Held, Wanted, some_large_side};
use pi_configurations::changes::Change;
use pi_configurations::threads::Thread;
use pi_tree::Process;
use term_values::{evaluate_all, some_large_at};

/// The thread writes its entry into its table.
#[tactic(auto, using(crate::proofs::TableSteps::of_put, pi_configurations::proofs::Points::of_points))]
pub fn put(run: &Run, number: u32) -> Result<Change, ApplyError>
    ensures possible { IfOk result (Changes run.now (calculus.Put number)) }
    ensures refused { IfErr result (Refuses run.now (calculus.Put number)) }
{
    let at = standing_of(run, number)?;
    match at.process {
        Process::Insert(table, arguments, _) => {
            if some_large_at(at.process, at.environment) {
                return Err(ApplyError::Refused(StepError::Large));
            }
            let args = evaluate_all(arguments, run.alloc, at.environment)?;
            let table = *table;
            Ok(Change::Put(number, at.point + 1, Held { table, args }))
        }
        _ => Err(ApplyError::Refused(StepError::WrongForm)),
    }
}

/// The thread at a `get` takes the entry of that number, the second, where it matches and meets the condition.
#[tactic(auto, using(crate::proofs::TableSteps::of_fetch, pi_configurations::proofs::Points::of_points))]
pub fn fetch(run: &Run, number: u32, entry: u32) -> Result<Change, ApplyError>
    ensures possible { IfOk result (Changes run.now (calculus.Fetch number entry)) }
    ensures refused { IfErr result (Refuses run.now (calculus.Fetch number entry)) }
{
    let at = standing_of(run, number)?;
    match at.process {
        Process::Get(table, patterns, condition, _, _) => {
            let wanted = Wanted {
                alloc: run.alloc,
                environment: at.environment,
                patterns,
                condition,
            };
            let held = run.conf.entries.get(entry).ok_or(StepError::NoEntry)?;
            let taken = held.taken(*table, &wanted)?;
            let environment = taken.ok_or(StepError::NoEntry)?;
            let large = some_large_side(condition, &environment);
            if some_large_at(at.process, at.environment) || large {
                return Err(ApplyError::Refused(StepError::Large));
            }
            Ok(Change::Replace(number, Thread::At(at.point + 1, environment)))
        }
        _ => Err(ApplyError::Refused(StepError::WrongForm)),
    }
}

/// The thread at a `get` goes to its else branch, where it may take no entry.
#[tactic(auto, using(crate::proofs::TableSteps::of_miss, pi_configurations::proofs::Points::of_points))]
pub fn miss(run: &Run, number: u32) -> Result<Change, ApplyError>
    ensures possible { IfOk result (Changes run.now (calculus.Miss number)) }
    ensures refused { IfErr result (Refuses run.now (calculus.Miss number)) }
{
    let at = standing_of(run, number)?;
    match at.process {
        Process::Get(table, patterns, condition, next, _) => {
            let wanted = Wanted {
                alloc: run.alloc,
                environment: at.environment,
                patterns,
                condition,
            };
            if run.conf.entries.some_taken(*table, &wanted)? {
                return Err(ApplyError::Refused(StepError::NotFailing));
            }
            let large = run.conf.entries.some_large(*table, &wanted)?;
            if some_large_at(at.process, at.environment) || large {
                return Err(ApplyError::Refused(StepError::Large));
            }
            Ok(Change::Advance(number, point_after(at.point + 1, next)))
        }
        _ => Err(ApplyError::Refused(StepError::WrongForm)),
    }
}
