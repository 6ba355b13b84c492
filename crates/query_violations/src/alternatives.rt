//! Whether the events of an alternative are among those that were performed.
//!
//! The search takes next the event that the fewest of the performed ones fit under what is bound by then (fail
//! first; Haralick and Elliott 1980). It takes no memory: what an event binds is looked up where it stands, and
//! which events are found is told by the calls that are open.

ghost use Rattle.std.specs.Prelude.{◌≡◌, ◌<◌, Some, map, length, slice_get};
ghost use Rattle.std.specs.List.{list_any};
ghost use Rattle.pi_tree.specs.Events.{event_of};
ghost use Rattle.term_values.specs.Bound.{bound_of};
ghost use Rattle.query_violations.specs.Alternatives.{found_of, is_found, missing_of, candidates, IsFewest};
ghost use Rattle.query_violations.specs.Correspondences.{bound_by, fits, all_found, IsConsistent};
ghost use Rattle.pi_configurations.specs.Happenings.{performed_of};

use pi_configurations::happenings::Happened;
use pi_tree::{Alternatives, Atom, Atoms};
use term_values::{Bound, are_values_of};

/// Which events of an alternative are found, by their indices.
#[derive(Clone, Copy)]
enum Found<'a> {
    Nothing,
    /// Those that were found before, and the one at that index.
    And(&'a Found<'a>, usize),
}

impl Found<'_> {
    /// Whether the event at that index is found.
    fn has(&self, index: usize) -> bool
        ensures { result ≡ is_found (found_of self.now) index }
    {
        match self {
            Found::Nothing => false,
            Found::And(before, last) => *last == index || before.has(index),
        }
    }
}

/// What is bound already, and then what stands at the places of the event's arguments.
pub fn beside<'a>(bound: &'a Bound<'a>, event: &'a Atom, happened: &'a Happened) -> Bound<'a>
    ensures { bound_of result ≡ bound_by (bound_of bound.now) (event_of event.now)
        (performed_of happened.now) }
{
    Bound::Beside(bound, &event.args, &happened.args.items)
}

/// Whether the performed event is an instance of the event under an extension of what is bound.
pub fn fits<'a>(bound: &'a Bound<'a>, event: &'a Atom, happened: &'a Happened) -> bool
    ensures { result ≡ fits (bound_of bound.now) (event_of event.now) (performed_of happened.now) }
{
    let extended = beside(bound, event, happened);
    event.event == happened.event && are_values_of(&event.args, &happened.args.items, &extended)
}

/// How many of the performed events fit.
fn candidates<'a>(bound: &'a Bound<'a>, event: &'a Atom, performed: &'a [Happened]) -> usize
    ensures { result ≡ candidates (bound_of bound.now) (map performed_of performed.now)
        (event_of event.now) }
{
    let mut count = 0;
    for happened in performed {
        if fits(bound, event, happened) {
            count += 1;
        }
    }
    count
}

/// The index of the event that isn't found yet and that the fewest of the performed ones fit. Where one event is
/// left nothing is counted.
#[tactic(auto, using(crate::proofs::Choosing::of_choice))]
fn fewest<'a>(
    events: &'a Atoms,
    found: &Found,
    bound: &'a Bound<'a>,
    performed: &'a [Happened],
) -> Option<usize>
    ensures { IsFewest (candidates (bound_of bound.now) (map performed_of performed.now))
        (found_of found.now) events.now (length events.now) result }
{
    let mut best = None;
    for (index, event) in events.items.iter().enumerate() {
        if found.has(index) {
            continue;
        }
        best = match best {
            None => Some(index),
            Some(earlier) => {
                let least = candidates(bound, &events.items[earlier], performed);
                if candidates(bound, event, performed) < least {
                    Some(index)
                } else {
                    Some(earlier)
                }
            }
        };
    }
    best
}

/// The event at that index.
#[tactic(auto, using(crate::proofs::Searching::of_items))]
fn event_at(events: &Atoms, index: usize) -> &Atom
    requires { index < length events.now }
    ensures { slice_get events.now index ≡ Some (event_of result.now) }
{
    &events.items[index]
}

/// Whether an extension of what is bound finds all the events that aren't found yet among the performed ones.
#[tactic(auto, using(crate::proofs::Searching::of_search))]
fn all_found<'a, 'f>(
    events: &'a Atoms,
    found: &'f Found<'f>,
    bound: &'a Bound<'a>,
    performed: &'a [Happened],
) -> bool
    requires { IsConsistent (bound_of bound.now) }
    ensures { result ≡ all_found (missing_of (found_of found.now) events.now) (bound_of bound.now)
        (map performed_of performed.now) }
{
    let Some(index) = fewest(events, found, bound, performed) else {
        return true;
    };
    let event = event_at(events, index);
    let more = Found::And(found, index);
    for happened in performed {
        if fits(bound, event, happened) {
            let extended = beside(bound, event, happened);
            if all_found(events, &more, &extended, performed) {
                return true;
            }
        }
    }
    false
}

/// Whether all events of the alternative are found.
#[tactic(auto, using(crate::proofs::Searching::of_search))]
fn precedes<'a>(alternative: &'a Atoms, bound: &'a Bound<'a>, performed: &'a [Happened]) -> bool
    requires { IsConsistent (bound_of bound.now) }
    ensures { result ≡ all_found alternative.now (bound_of bound.now)
        (map performed_of performed.now) }
{
    let nothing = Found::Nothing;
    all_found(alternative, &nothing, bound, performed)
}

/// Whether all events of one of the alternatives are found.
pub fn some_precede<'a>(
    alternatives: &'a Alternatives,
    bound: &'a Bound<'a>,
    performed: &'a [Happened],
) -> bool
    requires { IsConsistent (bound_of bound.now) }
    ensures { result ≡ list_any (λ alternative.
        all_found alternative (bound_of bound.now) (map performed_of performed.now))
        alternatives.now }
{
    for alternative in &alternatives.items {
        if precedes(alternative, bound, performed) {
            return true;
        }
    }
    false
}
