//! Since when a query is violated.
//!
//! What is violated stays violated while the query is open. So among steps at whose ends it is open, the least number
//! after which it is violated is found by bisection, where each try replays a front of them: n steps take n log n steps,
//! and not n looks at all that is known.

ghost use Rattle.std.specs.Prelude.{◌≡◌, ◌<◌, ◌≤◌, ◌^◌, ◌↔◌, ℕ, length, map, Some, IfOk, IsTrue, take};
ghost use Rattle.spec_calculus.specs.Points.{numbered};
ghost use Rattle.spec_calculus.specs.Runs.{Configuration};
ghost use Rattle.pi_tree.specs.Protocols.{protocol_of};
ghost use Rattle.pi_model.specs.Steps.{step_of};
ghost use Rattle.spec_calculus.specs.Syntax as calculus;
ghost use Rattle.run_replay.specs.Limits.{IsLimited};
ghost use Rattle.run_replay.specs.Replay.{IsDone, IsViolatedAfter, IsFirstViolation};
ghost use Rattle.run_replay.specs.Reached.{IsDoneSomewhere, TellsViolation, TellsFirst, IsViolatedAtEnd, IsOpenAlong};

use crate::reach::{Reached, reach};
use pi_model::{Step, steps_only_add, violated};
use pi_tree::Protocol;
use std::alloc::{AllocError, Global};

/// Whether the query is violated after these steps, of which none is refused.
pub fn violated_after(
    alloc: Global,
    protocol: &Protocol,
    steps: &[Step],
    query: u32,
) -> Result<bool, AllocError>
    requires limits { IsLimited (protocol_of protocol.now) }
    requires fewer { length steps.now < 2 ^ 32 }
    requires query { (0 < query) × (query ≤ length protocol.now.queries) }
    requires done { IsDoneSomewhere (protocol_of protocol.now) (map step_of steps.now) }
    ensures { IfOk result (λ is_violated. TellsViolation (protocol_of protocol.now)
        (map step_of steps.now) query is_violated) }
{
    match reach(alloc, protocol, steps)? {
        Reached::End(end) => Ok(violated(protocol, &end, query)),
        Reached::Refused(_, _) => unreachable!(),
    }
}

/// The least number of steps after which the query is violated, which it is after all of them. It is open after each
/// number of them.
pub fn first_violation(
    alloc: Global,
    protocol: &Protocol,
    steps: &[Step],
    query: u32,
) -> Result<u64, AllocError>
    requires limits { IsLimited (protocol_of protocol.now) }
    requires fewer { length steps.now < 2 ^ 32 }
    requires query { (0 < query) × (query ≤ length protocol.now.queries) }
    requires done { IsDoneSomewhere (protocol_of protocol.now) (map step_of steps.now) }
    requires still_open { IsOpenAlong (protocol_of protocol.now) (map step_of steps.now) query }
    requires violated { IsViolatedAtEnd (protocol_of protocol.now) (map step_of steps.now) query }
    ensures { IfOk result (λ first. TellsFirst (protocol_of protocol.now) (map step_of steps.now)
        query (Some first)) }
{
    steps_only_add();
    let mut low = 0;
    let mut high = steps.len();
    while low < high {
        let middle = low + (high - low) / 2;
        if violated_after(alloc, protocol, &steps[..middle], query)? {
            high = middle;
        } else {
            low = middle + 1;
        }
    }
    Ok(high as u64)
}
