//! What steps reach.

ghost use Rattle.std.specs.Prelude.{◌<◌, ◌^◌, length, map, IfOk};
ghost use Rattle.pi_tree.specs.Protocols.{protocol_of};
ghost use Rattle.pi_model.specs.Steps.{step_of};
ghost use Rattle.run_replay.specs.Limits.{IsLimited};
ghost use Rattle.run_replay.specs.Reached.{IsReached};

use pi_model::{ApplyError, Conf, Step, StepError, apply, start};
use pi_tree::Protocol;
use std::alloc::{AllocError, Global};

/// What steps reach.
#[derive(Drop)]
pub enum Reached {
    /// Their end.
    End(Conf),
    /// The number, from 1, of the first step that is refused, and why.
    Refused(u64, StepError),
}

/// What the steps reach from the start.
pub fn reach(alloc: Global, protocol: &Protocol, steps: &[Step]) -> Result<Reached, AllocError>
    requires limits { IsLimited (protocol_of protocol.now) }
    requires fewer { length steps.now < 2 ^ 32 }
    ensures { IfOk result (λ reached. IsReached (protocol_of protocol.now) (map step_of steps.now)
        reached) }
{
    let mut conf = start(alloc, protocol)?;
    for step in steps {
        match apply(alloc, protocol, &mut conf, step) {
            Ok(()) => {}
            Err(ApplyError::Refused(error)) => return Ok(Reached::Refused(conf.steps + 1, error)),
            Err(ApplyError::Memory(error)) => return Err(error),
        }
    }
    Ok(Reached::End(conf))
}
