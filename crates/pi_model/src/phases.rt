//! The step by which the next phase begins.

ghost use Rattle.std.specs.Prelude.{◌≡◌, ◌++◌, map, IfOk, IfErr, OnOk};
ghost use Rattle.spec_calculus.specs.Points.{nodes};
ghost use Rattle.spec_calculus.specs.Runs as calculus;
ghost use Rattle.pi_tree.specs.Processes.{process_of};
ghost use Rattle.pi_configurations.specs.Moves.{awaited};
ghost use Rattle.pi_model.specs.Running.{Changes, Refuses};

use crate::errors::{ApplyError, StepError};
use crate::running::Run;
use pi_configurations::changes::Change;
use pi_tree::Process;
use std::alloc::AllocError;

/// The phase that the process waits for, 0 where it waits for none.
fn awaited(process: &Process) -> u32
    ensures { result ≡ awaited (process_of process.now) }
{
    match process {
        Process::Phase(number, _) => *number,
        _ => 0,
    }
}

/// Lists the phase that each node of the process waits for, in pre-order, at the end of the list.
#[tactic(auto, using(crate::proofs::NextPhase::of_listing))]
fn list_awaited(process: &Process, phases: &mut Vec<u32>) -> Result<(), AllocError>
    ensures { OnOk result (phases.new.items ≡
        phases.old.items ++ map awaited (nodes (process_of process.now))) }
{
    phases.push(awaited(process))?;
    match process {
        Process::Nil => Ok(()),
        Process::Output(_, _, next) => list_awaited(next, phases),
        Process::Input(_, _, next) => list_awaited(next, phases),
        Process::Par(left, right) => {
            list_awaited(left, phases)?;
            list_awaited(right, phases)
        }
        Process::Copies(copied) => list_awaited(copied, phases),
        Process::New(_, next) => list_awaited(next, phases),
        Process::Let(_, _, next, otherwise) => {
            list_awaited(next, phases)?;
            list_awaited(otherwise, phases)
        }
        Process::Event(_, next) => list_awaited(next, phases),
        Process::Phase(_, next) => list_awaited(next, phases),
        Process::Insert(_, _, next) => list_awaited(next, phases),
        Process::Get(_, _, _, next, otherwise) => {
            list_awaited(next, phases)?;
            list_awaited(otherwise, phases)
        }
    }
}

/// The next phase begins, unless the protocol has none that is later.
#[tactic(auto, using(crate::proofs::NextPhase::of_next))]
pub fn next(run: &Run) -> Result<Change, ApplyError>
    ensures possible { IfOk result (Changes run.now calculus.Next) }
    ensures refused { IfErr result (Refuses run.now calculus.Next) }
{
    if run.conf.phase >= run.protocol.greatest_phase() {
        return Err(ApplyError::Refused(StepError::WrongForm));
    }
    let mut phases = Vec::new(run.alloc);
    list_awaited(&run.protocol.main, &mut phases)?;
    Ok(Change::Next(run.conf.phase + 1, phases))
}
