//! Where runs end.

ghost use Rattle.std.specs.Prelude.{◌≡◌, true};
ghost use Rattle.pi_tree.specs.Protocols.{protocol_of};
ghost use Rattle.run_replay.specs.Limits.{IsLimited};

use pi_model::{Conf, Step, violated};
use pi_tree::{Kind, Protocol};
use run_replay::{Replayed, read_run, replay};
use std::alloc::{AllocError, Global};

/// Whether the protocol is within the limits of a replay.
fn is_limited(protocol: &Protocol) -> bool
    ensures { result ≡ true → IsLimited (protocol_of protocol.now) }
{
    protocol.count(Kind::Point) < u32::MAX
        && protocol.count(Kind::Free) < u32::MAX
        && protocol.count(Kind::Query) < u32::MAX
}

/// What is there at the end of the run of the protocol, if it spells steps that are all possible.
pub fn end(alloc: Global, protocol: &Protocol, run: &[u8]) -> Result<String, AllocError> {
    match read_run(alloc, run) {
        Ok(steps) => end_of_steps(alloc, protocol, &steps.items),
        Err(_) => String::from_str(alloc, "no steps"),
    }
}

/// The same of these steps, if neither they nor the protocol are too much.
fn end_of_steps(alloc: Global, protocol: &Protocol, steps: &[Step]) -> Result<String, AllocError> {
    if !is_limited(protocol) || steps.len() >= u32::MAX as usize {
        return String::from_str(alloc, "too much");
    }
    let replayed = Box::new(alloc, replay(alloc, protocol, steps)?)?;
    match &*replayed {
        Replayed::Done(end, _) => end_text(alloc, protocol, end),
        Replayed::Stuck(..) => String::from_str(alloc, "no end"),
    }
}

/// How many threads, known values and events there are, the number of the next name, the last known value, and whether each
/// query is violated.
fn end_text(alloc: Global, protocol: &Protocol, end: &Conf) -> Result<String, AllocError> {
    let last = last_known(alloc, end)?;
    let violations = violations(alloc, protocol, end)?;
    let threads = end.threads.items.len();
    let known = end.known.items.len();
    let events = end.events.items.len();
    format!(in alloc;
        "{threads} {known} {events} {} {last} {violations:?}",
        end.next
    )
}

/// A copy of the last known value, if there is one, as text.
fn last_known(alloc: Global, end: &Conf) -> Result<String, AllocError> {
    let last = match end.known.items.last() {
        Some(value) => Some(value.copy(alloc)?),
        None => None,
    };
    format!(in alloc; "{last:?}")
}

/// Whether each query is violated.
fn violations(alloc: Global, protocol: &Protocol, end: &Conf) -> Result<Vec<bool>, AllocError> {
    let mut violations = Vec::new(alloc);
    for index in 0..protocol.count(Kind::Query) {
        violations.push(violated(protocol, end, index + 1))?;
    }
    Ok(violations)
}
