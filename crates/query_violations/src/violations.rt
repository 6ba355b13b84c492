//! Whether a configuration violates a query (Blanchet 2016, sections 2.3 and 3.2). No memory is taken.

ghost use Rattle.std.specs.Prelude.{◌≡◌, ◌<◌, ◌≤◌, [], Some, IsTrue, ◌↔◌, map, length};
ghost use Rattle.std.specs.List.{list_any};
ghost use Rattle.spec_calculus.specs.Points.{numbered};
ghost use Rattle.spec_calculus.specs.Secrecy.{IsViolated};
ghost use Rattle.spec_calculus.specs.Syntax as calculus;
ghost use Rattle.pi_tree.specs.Events.{event_of};
ghost use Rattle.pi_tree.specs.Queries.{query_of};
ghost use Rattle.pi_tree.specs.Values.{value_of};
ghost use Rattle.pi_configurations.specs.Configurations.{configuration_of};
ghost use Rattle.query_violations.specs.Correspondences.{unpreceded, some_unpreceded, is_made_at, is_violated};
ghost use Rattle.pi_configurations.specs.Happenings.{performed_of};

use crate::alternatives::{beside, fits, some_precede};
use pi_configurations::configurations::Conf;
use pi_configurations::happenings::{Happened, Happenings};
use pi_configurations::knowing::knows;
use pi_tree::{Alternatives, Atom, Protocol, Query, Value};
use term_values::Bound;

/// Whether the event is an instance of the left side that no alternative precedes.
#[tactic(auto, using(crate::proofs::Searching::of_search))]
fn is_unpreceded<'a>(
    left: &'a Atom,
    alternatives: &'a Alternatives,
    before: &'a [Happened],
    happened: &'a Happened,
) -> bool
    ensures { result ≡ unpreceded (event_of left.now) alternatives.now (map performed_of before.now)
        (performed_of happened.now) }
{
    if !fits(&Bound::Nothing, left, happened) {
        return false;
    }
    let nothing = Bound::Nothing;
    let bound = beside(&nothing, left, happened);
    !some_precede(alternatives, &bound, before)
}

/// Whether one of the events is.
fn some_unpreceded(left: &Atom, alternatives: &Alternatives, events: &Happenings) -> bool
    ensures { result ≡ some_unpreceded (event_of left.now) alternatives.now [] events.now }
{
    for (index, happened) in events.items.iter().enumerate() {
        if is_unpreceded(left, alternatives, &events.items[..index], happened) {
            return true;
        }
    }
    false
}

/// Whether the value is a name that the restriction at the point made.
fn is_made_at(point: u32, value: &Value) -> bool
    ensures { result ≡ is_made_at point (value_of value.now) }
{
    match value {
        Value::Made(at, _) => *at == point,
        Value::Free(_) | Value::Fresh(_) | Value::App(..) | Value::Tuple(_) => false,
    }
}

/// Whether the attacker knows a name that the restriction at the point made.
fn knows_made(conf: &Conf, point: u32) -> bool
    ensures { result ≡ list_any (is_made_at point) conf.now.known }
{
    for value in &conf.known.items {
        if is_made_at(point, value) {
            return true;
        }
    }
    false
}

/// Whether the configuration violates the query. One of secrecy is asked up to its phase alone.
#[tactic(auto, using(std::proofs::lemmas::Bool::Decides::nat_tests))]
fn is_violated(query: &Query, conf: &Conf) -> bool
    ensures { result ≡ is_violated (query_of query.now) (configuration_of conf.now) }
{
    match query {
        Query::Secret(message, phase) => {
            conf.phase <= *phase && knows(conf, message, &Bound::Nothing)
        }
        Query::SecretNew(point, phase) => conf.phase <= *phase && knows_made(conf, *point),
        Query::Corr { left, alternatives } => some_unpreceded(left, alternatives, &conf.events),
    }
}

/// Whether the configuration violates the protocol's query of that number. It takes no memory.
#[tactic(auto, using(crate::proofs::Deciding::of_violations))]
pub fn violated(protocol: &Protocol, conf: &Conf, query: u32) -> bool
    requires there { (0 < query) × (query ≤ length protocol.now.queries) }
    ensures { (q : calculus.Query) → numbered protocol.now.queries query ≡ Some q →
        IsTrue result ↔ IsViolated q (configuration_of conf.now) }
{
    is_violated(protocol.query(query), conf)
}
