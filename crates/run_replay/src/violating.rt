//! Whether a run violates one query.

ghost use Rattle.std.specs.Prelude.{◌≡◌, ◌<◌, ◌≤◌, ◌^◌, length, map, Some, IfOk, IsTrue};
ghost use Rattle.spec_calculus.specs.Points.{numbered};
ghost use Rattle.spec_calculus.specs.Syntax as calculus;
ghost use Rattle.pi_tree.specs.Protocols.{protocol_of};
ghost use Rattle.pi_model.specs.Steps.{step_of};
ghost use Rattle.run_replay.specs.Limits.{IsLimited};
ghost use Rattle.run_replay.specs.Reached.{IsDoneSomewhere, IsViolatedSometime};

use crate::fronts::open_count;
use crate::reach::{Reached, reach};
use pi_model::{Step, steps_only_add, violated};
use pi_tree::Protocol;
use std::alloc::{AllocError, Global};

/// Whether the query of that number is violated after some number of the steps: it is where that is told, and where it is and none of
/// the steps is refused, that is told. It costs one replay of the steps at whose ends the query is open, whatever other queries there
/// are.
pub fn violates(
    alloc: Global,
    protocol: &Protocol,
    steps: &[Step],
    query: u32,
) -> Result<bool, AllocError>
    requires limits { IsLimited (protocol_of protocol.now) }
    requires fewer { length steps.now < 2 ^ 32 }
    requires query { (0 < query) × (query ≤ length protocol.now.queries) }
    ensures violated { IfOk result (λ is_violated. IsTrue is_violated → (q : calculus.Query) →
        numbered (protocol_of protocol.now).queries query ≡ Some q →
        IsViolatedSometime (protocol_of protocol.now) (map step_of steps.now) q) }
    ensures all { IfOk result (λ is_violated.
        IsDoneSomewhere (protocol_of protocol.now) (map step_of steps.now) →
        (q : calculus.Query) → numbered (protocol_of protocol.now).queries query ≡ Some q →
        IsViolatedSometime (protocol_of protocol.now) (map step_of steps.now) q →
        IsTrue is_violated) }
{
    steps_only_add();
    let count = open_count(protocol, steps, query);
    match reach(alloc, protocol, &steps[..count])? {
        Reached::End(end) => Ok(violated(protocol, &end, query)),
        Reached::Refused(_, _) => Ok(false),
    }
}
