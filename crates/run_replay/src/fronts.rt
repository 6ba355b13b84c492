//! The steps of a run at whose ends a query is open: for one of secrecy those before its phase has passed.

ghost use Rattle.std.specs.Prelude.{◌≡◌, ◌<◌, ◌≤◌, length, map, take};
ghost use Rattle.spec_calculus.specs.Phases.{steps_up_to};
ghost use Rattle.spec_calculus.specs.Standing.{phases_begun};
ghost use Rattle.pi_tree.specs.Protocols.{protocol_of};
ghost use Rattle.pi_model.specs.Steps.{step_of};
ghost use Rattle.run_replay.specs.Reached.{IsOpenCount};

use pi_model::Step;
use pi_tree::{Protocol, Query};

/// How many phases begin with the step.
fn phases_begun(step: &Step) -> u64
    ensures begun { result ≡ phases_begun (step_of step.now) }
    ensures few { result ≤ 1 }
{
    match step {
        Step::Next => 1,
        _ => 0,
    }
}

/// How many steps are made before a phase begins that is later than that one.
#[tactic(auto, using(crate::proofs::Open::of_steps))]
fn steps_up_to(steps: &[Step], phase: u32) -> usize
    ensures within { result ≤ length steps.now }
    ensures up_to { take result (map step_of steps.now) ≡
        steps_up_to phase 0 (map step_of steps.now) }
{
    let last = u64::from(phase);
    let mut begun = 0u64;
    for (index, step) in steps.iter().enumerate() {
        let next = begun + phases_begun(step);
        if last < next {
            return index;
        }
        begun = next;
    }
    steps.len()
}

/// How many of the steps are made while the query of that number is open.
#[tactic(auto, using(crate::proofs::Open::of_counts))]
pub fn open_count(protocol: &Protocol, steps: &[Step], query: u32) -> usize
    requires query { (0 < query) × (query ≤ length protocol.now.queries) }
    ensures within { result ≤ length steps.now }
    ensures still_open { IsOpenCount (protocol_of protocol.now) (map step_of steps.now) query
        result }
{
    match protocol.query(query) {
        Query::Secret(_, phase) => steps_up_to(steps, *phase),
        Query::SecretNew(_, phase) => steps_up_to(steps, *phase),
        Query::Corr { .. } => steps.len(),
    }
}
