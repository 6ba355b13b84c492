//! Events: the clause that it may have run, and the hypothesis that it must have.

ghost use Rattle.std.specs.Prelude.{◌≡◌, map, IfOk, IfSome};
ghost use Rattle.std.specs.List.{AllByRecursion};
ghost use Rattle.pi_tree.specs.Events.{event_of};
ghost use Rattle.spec_clauses.specs.Fact as horn;
ghost use Rattle.spec_clauses.specs.Fact.{Ev};
ghost use Rattle.spec_translation.specs.Visit.{event_terms};
ghost use Rattle.spec_clauses.specs.Variables.{AreBelow};
ghost use Rattle.term_tree.specs.Bank.{tree_at, AreKnown, Grows};
ghost use Rattle.clause_terms.specs.Conditions.{HasShortTuples};
ghost use Rattle.unified_visits.specs.Places.{protocol_at};
ghost use Rattle.process_visits.specs.Forms.{below_event, IsSmallVisit, EventAdds};
ghost use Rattle.process_visits.specs.Telling.{TellsVisit};
ghost use Rattle.unified_visits.specs.Visits.{visit_at, IsVisitIn};

use crate::large::some_large_term;
use crate::listing::Listing;
use clause_form::{Clause, Fact, Ids};
use clause_terms::terms_in;
use pi_tree::Atom;
use std::alloc::{AllocError, Global};
use term_tree::Bank;
use unified_visits::place::Place;
use unified_visits::sizes::is_large_visit;
use unified_visits::visit::Visit;

/// The raw clause of an event with these arguments.
fn event_clause(
    alloc: Global,
    visit: &Visit,
    event: u32,
    arguments: &Ids,
) -> Result<Clause, AllocError>
    ensures { IfOk result (λ raw. raw ≡
        record {
          hypotheses = visit.now.hypotheses;
          diffs = visit.now.diffs;
          conclusion = horn.Ev event arguments.now;
        }) }
{
    let hyps = visit.hypotheses.copy(alloc)?;
    let diffs = visit.diffs.listed(alloc)?;
    let arguments = arguments.copy(alloc)?;
    Ok(Clause {
        hyps,
        diffs,
        concl: Fact::Ev(event, arguments),
    })
}

/// The visit below an event with these arguments; none where it is too large.
fn event_below<B: Bank>(
    alloc: Global,
    bank: &B,
    visit: &Visit,
    event: u32,
    arguments: Ids,
) -> Result<Option<Visit>, AllocError>
    requires visit { IsVisitIn (B.trees bank.now) visit.now }
    requires arguments { AreKnown (B.trees bank.now) arguments }
    requires below { AreBelow visit.now.next (map (tree_at (B.trees bank.now)) arguments) }
    ensures { IfOk result (λ found. IsSmallVisit (B.trees bank.now)
        (below_event (visit_at (B.trees bank.now) visit.now) event
        (map (tree_at (B.trees bank.now)) arguments)) found) }
{
    let made = visit.with_event(alloc, event, arguments)?;
    if is_large_visit(bank, &made) {
        return Ok(None);
    }
    Ok(Some(made))
}

/// Adds what an event adds, and the visit below it; none where it is too large. On `Err` the bank may have grown.
pub fn add_event<B: Bank>(
    place: &Place<'_>,
    bank: &mut B,
    listing: &mut Listing,
    visit: &Visit,
    atom: &Atom,
) -> Result<Option<Visit>, AllocError>
    requires visit { IsVisitIn (B.trees bank.old) visit.now }
    requires short { AllByRecursion HasShortTuples (event_of atom.now).arguments }
    ensures grows { Grows (B.trees bank.old) (B.trees bank.new) }
    ensures adds { IfOk result (λ found. EventAdds (protocol_at place.now)
        (visit_at (B.trees bank.old) visit.now) (event_of atom.now) (B.trees bank.new) listing.old
        listing.new found) }
    ensures tells { let P = protocol_at place.now in
        let v = visit_at (B.trees bank.old) visit.now in
        IfOk result (λ found. IfSome found (λ made. TellsVisit place.now.point v
        (Ev (event_of atom.now).event (event_terms P v (event_of atom.now)))
        listing.old listing.new)) }
{
    if some_large_term(place, bank, &visit.scope, &atom.args) {
        return Ok(None);
    }
    let arguments = terms_in(place.alloc, bank, place.protocol, &visit.scope, &atom.args)?;
    let raw = event_clause(place.alloc, visit, atom.event, &arguments)?;
    let added = listing.add(place, bank, visit, raw)?;
    if added {
        return event_below(place.alloc, bank, visit, atom.event, arguments);
    }
    Ok(None)
}
