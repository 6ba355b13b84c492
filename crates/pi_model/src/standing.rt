//! Where a thread stands, and which points come after.

ghost use Rattle.std.specs.Prelude.{◌≡◌, ◌^◌, ◌<◌, IfOk, IfErr};
ghost use Rattle.spec_calculus.specs.Points.{point_after};
ghost use Rattle.pi_tree.specs.Processes.{process_of};
ghost use Rattle.pi_configurations.specs.Configurations.{configuration_of};
ghost use Rattle.pi_model.specs.Plans.{StandsNowhere};
ghost use Rattle.pi_model.specs.Running.{StandsIn, IsWithin};

use crate::errors::StepError;
use crate::running::Run;
use pi_configurations::threads::Thread;
use pi_tree::Process;
use term_values::Environment;

/// Where a thread stands: the point, what the thread has bound, and the process that is there.
#[derive(Clone, Copy)]
pub struct Stand<'a> {
    pub point: u32,
    pub environment: &'a Environment,
    pub process: &'a Process,
}

/// Where the thread of that number stands, if there is one that has not ended.
#[tactic(auto, using(pi_configurations::proofs::Points::of_standing))]
pub fn standing_of<'a>(run: &Run<'a>, number: u32) -> Result<Stand<'a>, StepError>
    ensures stands { IfOk result (StandsIn run.now number) }
    ensures within { IfOk result (IsWithin run.now) }
    ensures nowhere { IfErr result (StandsNowhere (configuration_of run.now.conf.now) number) }
{
    match run.conf.threads.get(number) {
        None => Err(StepError::NoThread),
        Some(thread) => match thread {
            Thread::Ended => Err(StepError::WrongForm),
            Thread::At(point, environment) => Ok(Stand {
                point: *point,
                environment,
                process: run.protocol.node(*point),
            }),
        },
    }
}

/// The point after a process that begins at the point.
pub fn point_after(point: u32, process: &Process) -> u32
    requires { point_after point (process_of process.now) < 2 ^ 32 }
    ensures { result ≡ point_after point (process_of process.now) }
{
    point + process.count_nodes()
}
