//! Entries that are taken: the terms of the patterns, with new variables, and the condition's terms, which have to become
//! one.

ghost use Rattle.std.specs.Prelude.{◌≡◌, false, Option, IfOk};
ghost use Rattle.std.specs.List.{AllByRecursion};
ghost use Rattle.spec_calculus.specs.Tables.{row_pattern, sides};
ghost use Rattle.spec_translation.specs.Conversion.{bound_numbers};
ghost use Rattle.spec_translation.specs.Visit as translation;
ghost use Rattle.spec_translation.specs.Choice.{GoesOn};
ghost use Rattle.term_tree.specs.Bank.{Grows};
ghost use Rattle.pi_tree.specs.Terms.{term_of};
ghost use Rattle.pi_tree.specs.Processes.{condition_of};
ghost use Rattle.clause_terms.specs.Conditions.{HasShortTuples, IsShortPattern};
ghost use Rattle.clause_terms.specs.Scopes.{scope_at, IsScopeIn};
ghost use Rattle.process_visits.specs.Entries.{WithEntry, met_choice, IsEntryWay, EntryGoes};
ghost use Rattle.process_visits.specs.Forms.{are_large_in};
ghost use Rattle.unified_visits.specs.Places.{protocol_at};
ghost use Rattle.unified_visits.specs.Spans.{IsSpan};
ghost use Rattle.unified_visits.specs.Visits.{visit_at, IsVisitIn};

use crate::forms::Get;
use crate::large::is_large_term;
use clause_terms::{Holes, Scope, patterns_grown, row_scope, term_in};
use pi_tree::{Pats, Term};
use std::alloc::AllocError;
use term_tree::Bank;
use unified_visits::numbers::bound_numbers_in;
use unified_visits::place::Place;
use unified_visits::spans::{Span, span_of};
use unified_visits::unified::visit_under;
use unified_visits::visit::Visit;
use unify_match::{Binds, unify};
use visit_choices::ways::{Way, way_to};

/// New variables for those that patterns bind, from the base on.
fn span_in(place: &Place<'_>, base: u32, patterns: &Pats) -> Result<Span, AllocError>
    ensures { IfOk result (λ span. IsSpan base (bound_numbers (row_pattern patterns.now)) span) }
{
    let numbers = bound_numbers_in(place.alloc, patterns)?;
    span_of(base, &numbers)
}

/// The visit with the entry that a `get` takes. On `Err` the bank may have grown.
fn with_entry<B: Bank>(
    place: &Place<'_>,
    bank: &mut B,
    visit: &Visit,
    get: &Get<'_>,
) -> Result<Visit, AllocError>
    requires visit { IsVisitIn (B.trees bank.old) visit.now }
    requires short { AllByRecursion IsShortPattern get.now.patterns.now }
    ensures grows { Grows (B.trees bank.old) (B.trees bank.new) }
    ensures names { IfOk result (λ made. WithEntry (protocol_at place.now)
        (visit_at (B.trees bank.old) visit.now) get.now.table get.now.patterns.now
        (B.trees bank.new) made) }
{
    let span = span_in(place, visit.next, get.patterns)?;
    let holes = Holes {
        scope: &visit.scope,
        at: span.at,
    };
    let terms = patterns_grown(place.alloc, bank, place.protocol, &holes, get.patterns)?;
    let bound = row_scope(place.alloc, bank, span.at, get.patterns)?;
    let made = visit.with_scope(place.alloc, bound, span.next)?;
    made.with_entry(place.alloc, get.table, terms)
}

/// How a `get` goes on from the visit with the entry, where neither term of its condition is too large. On `Err` the bank
/// may have grown.
fn met_way<B: Bank>(
    place: &Place<'_>,
    bank: &mut B,
    made: &Visit,
    left: &Term,
    right: &Term,
) -> Result<Way, AllocError>
    requires visit { IsVisitIn (B.trees bank.old) made.now }
    requires left { HasShortTuples (term_of left.now) }
    requires right { HasShortTuples (term_of right.now) }
    ensures grows { Grows (B.trees bank.old) (B.trees bank.new) }
    ensures goes { IfOk result (λ way. (out : Option translation.Visit)
        × GoesOn (met_choice (protocol_at place.now) (visit_at (B.trees bank.old) made.now)
        (term_of left.now) (term_of right.now)) out
        × IsEntryWay (B.trees bank.new) false out way) }
{
    let first = term_in(place.alloc, bank, place.protocol, &made.scope, left)?;
    let second = term_in(place.alloc, bank, place.protocol, &made.scope, right)?;
    let mut binds = Binds::new(place.alloc)?;
    if !unify(bank, first, second, &mut binds)? {
        return Ok(Way::Nowhere);
    }
    let found = visit_under(place.alloc, bank, &binds, made)?;
    Ok(way_to(bank, found))
}

/// Whether a term of the condition is too large where the entry is taken.
fn is_large_condition<B: Bank>(
    place: &Place<'_>,
    bank: &B,
    scope: &Scope,
    condition: &Option<(Term, Term)>,
) -> bool
    requires { IsScopeIn (B.trees bank.now) scope.now }
    ensures { result ≡ are_large_in (protocol_at place.now) (scope_at (B.trees bank.now) scope.now)
        (sides (condition_of condition.now)) }
{
    match condition {
        None => false,
        Some((left, right)) => {
            is_large_term(place, bank, scope, left) || is_large_term(place, bank, scope, right)
        }
    }
}

/// How a `get` goes on that is not too large by what its patterns compare. On `Err` the bank may have grown.
pub fn entry_way<B: Bank>(
    place: &Place<'_>,
    bank: &mut B,
    visit: &Visit,
    get: &Get<'_>,
) -> Result<Way, AllocError>
    requires visit { IsVisitIn (B.trees bank.old) visit.now }
    requires short { AllByRecursion IsShortPattern get.now.patterns.now }
    requires sides { AllByRecursion HasShortTuples (sides (condition_of get.now.condition.now)) }
    ensures grows { Grows (B.trees bank.old) (B.trees bank.new) }
    ensures goes { IfOk result (EntryGoes (protocol_at place.now)
        (visit_at (B.trees bank.old) visit.now) get.now.table get.now.patterns.now
        (condition_of get.now.condition.now) (B.trees bank.new)) }
{
    let made = with_entry(place, bank, visit, get)?;
    if is_large_condition(place, bank, &made.scope, get.condition) {
        return Ok(Way::Large);
    }
    match get.condition {
        None => Ok(way_to(bank, Some(made))),
        Some((left, right)) => met_way(place, bank, &made, left, right),
    }
}
