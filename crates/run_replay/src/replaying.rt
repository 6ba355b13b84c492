//! Runs replayed.

ghost use Rattle.std.specs.Prelude.{◌<◌, ◌^◌, ◌≤◌, length, map, IfOk};
ghost use Rattle.pi_tree.specs.Protocols.{protocol_of};
ghost use Rattle.pi_model.specs.Steps.{step_of};
ghost use Rattle.run_replay.specs.Limits.{IsLimited};
ghost use Rattle.run_replay.specs.Replay.{IsDone, AreFirstViolations};
ghost use Rattle.pi_configurations.specs.Configurations.{configuration_of};
ghost use Rattle.run_replay.specs.Reached.{IsDoneSomewhere, IsOpenAlong, IsOpenCount, TellsFirst, TellsViolation};
ghost use Rattle.run_replay.specs.Shown.{Replays};

use crate::bisect::{first_violation, violated_after};
use crate::fronts::open_count;
use crate::reach::{Reached, reach};
use pi_model::{Conf, Step, StepError, steps_only_add, violated};
use pi_tree::{Kind, Protocol};
use std::alloc::{AllocError, Global};
use std::marker::Model;

/// For each query in order the least number of steps after which it is violated, 0 where it is at the start,
/// or `None` where it never is.
pub struct Firsts {
    pub items: Vec<Option<u64>>,
}

impl Drop for Firsts {
    fn drop(self) {
        let Firsts { items } = self;
        drop(items);
    }
}

impl Model for Firsts {
    ghost use Rattle.std.specs.Prelude.{ℕ, List, Option};

    ghost Value = { List (Option ℕ) };

    ghost view = { λ a. a.items.items };
}

/// What a replay shows.
#[derive(Drop)]
pub enum Replayed {
    /// The run's end, and since when each query is violated.
    Done(Conf, Firsts),
    /// The number, from 1, of the first step that is refused, and why.
    Stuck(u64, StepError),
}

/// Since when the query is violated in steps at whose ends it is open, by whether it is after all of them.
fn first_in(
    alloc: Global,
    protocol: &Protocol,
    steps: &[Step],
    query: u32,
    is_violated: bool,
) -> Result<Option<u64>, AllocError>
    requires limits { IsLimited (protocol_of protocol.now) }
    requires fewer { length steps.now < 2 ^ 32 }
    requires query { (0 < query) × (query ≤ length protocol.now.queries) }
    requires done { IsDoneSomewhere (protocol_of protocol.now) (map step_of steps.now) }
    requires still_open { IsOpenAlong (protocol_of protocol.now) (map step_of steps.now) query }
    requires told { TellsViolation (protocol_of protocol.now) (map step_of steps.now) query
        is_violated }
    ensures { IfOk result (λ first. TellsFirst (protocol_of protocol.now) (map step_of steps.now)
        query first) }
{
    steps_only_add();
    if is_violated {
        Ok(Some(first_violation(alloc, protocol, steps, query)?))
    } else {
        Ok(None)
    }
}

/// Since when the query is violated, if it is, where it is open after no more than so many steps.
fn first_before(
    alloc: Global,
    protocol: &Protocol,
    steps: &[Step],
    query: u32,
    count: usize,
) -> Result<Option<u64>, AllocError>
    requires limits { IsLimited (protocol_of protocol.now) }
    requires fewer { length steps.now < 2 ^ 32 }
    requires query { (0 < query) × (query ≤ length protocol.now.queries) }
    requires done { IsDoneSomewhere (protocol_of protocol.now) (map step_of steps.now) }
    requires within { count ≤ length steps.now }
    requires still_open { IsOpenCount (protocol_of protocol.now) (map step_of steps.now) query
        count }
    ensures { IfOk result (λ first. TellsFirst (protocol_of protocol.now) (map step_of steps.now)
        query first) }
{
    let front = &steps[..count];
    let is_violated = violated_after(alloc, protocol, front, query)?;
    let first = first_in(alloc, protocol, front, query, is_violated)?;
    Ok(first)
}

/// Since when the query is violated in a run that ends so, if it is. One of secrecy whose phase has passed at the end is
/// asked after the steps before that.
fn first_of(
    alloc: Global,
    protocol: &Protocol,
    steps: &[Step],
    end: &Conf,
    query: u32,
) -> Result<Option<u64>, AllocError>
    requires limits { IsLimited (protocol_of protocol.now) }
    requires fewer { length steps.now < 2 ^ 32 }
    requires query { (0 < query) × (query ≤ length protocol.now.queries) }
    requires done { IsDone (protocol_of protocol.now) (map step_of steps.now)
        (configuration_of end.now) }
    ensures { IfOk result (λ first. TellsFirst (protocol_of protocol.now) (map step_of steps.now)
        query first) }
{
    let count = open_count(protocol, steps, query);
    if count < steps.len() {
        return first_before(alloc, protocol, steps, query, count);
    }
    let is_violated = violated(protocol, end, query);
    first_in(alloc, protocol, steps, query, is_violated)
}

/// Since when each query is violated in a run that ends so.
fn first_violations(
    alloc: Global,
    protocol: &Protocol,
    steps: &[Step],
    end: &Conf,
) -> Result<Firsts, AllocError>
    requires limits { IsLimited (protocol_of protocol.now) }
    requires fewer { length steps.now < 2 ^ 32 }
    requires done { IsDone (protocol_of protocol.now) (map step_of steps.now)
        (configuration_of end.now) }
    ensures { IfOk result (λ firsts. AreFirstViolations (protocol_of protocol.now)
        (map step_of steps.now) protocol.now.queries firsts) }
{
    let mut items = Vec::new(alloc);
    for index in 0..protocol.count(Kind::Query) {
        items.push(first_of(alloc, protocol, steps, end, index + 1)?)?;
    }
    Ok(Firsts { items })
}

/// The steps are applied one after the other from the start. Where none is refused, each query's first
/// violation is told beside the end; else the first step that is refused.
///
/// A query that is violated costs the run over again, log n times for n steps; so does one of secrecy whose phase has
/// passed at the end, once.
pub fn replay(alloc: Global, protocol: &Protocol, steps: &[Step]) -> Result<Replayed, AllocError>
    requires limits { IsLimited (protocol_of protocol.now) }
    requires fewer { length steps.now < 2 ^ 32 }
    ensures { IfOk result (λ replayed. Replays (protocol_of protocol.now) (map step_of steps.now)
        replayed) }
{
    match reach(alloc, protocol, steps)? {
        Reached::End(end) => {
            let firsts = first_violations(alloc, protocol, steps, &end)?;
            Ok(Replayed::Done(end, firsts))
        }
        Reached::Refused(number, error) => Ok(Replayed::Stuck(number, error)),
    }
}
