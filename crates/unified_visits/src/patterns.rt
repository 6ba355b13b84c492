//! Visits with what a pattern binds.

ghost use Rattle.std.specs.Prelude.{◌≡◌, ◌≤◌, IfOk};
ghost use Rattle.pi_tree.specs.Patterns.{pattern_of};
ghost use Rattle.spec_translation.specs.Conversion.{bound_numbers};
ghost use Rattle.spec_translation.specs.Choice.{with_pattern};
ghost use Rattle.term_tree.specs.Bank.{Grows};
ghost use Rattle.clause_terms.specs.Fresh.{fresh_of};
ghost use Rattle.clause_terms.specs.Conditions.{IsShortPattern};
ghost use Rattle.unified_visits.specs.Places.{protocol_at};
ghost use Rattle.unified_visits.specs.Visits.{visit_at, IsVisitIn, NamesVisit};
ghost use Rattle.unified_visits.specs.Spans.{IsSpan};
ghost use Rattle.unified_visits.specs.Patterns.{WithPattern};

use crate::numbers::bound_numbers;
use crate::place::Place;
use crate::spans::{Span, span_of};
use crate::visit::Visit;
use clause_terms::{Holes, pattern_scope, pattern_term};
use pi_tree::Pat;
use std::alloc::AllocError;
use term_tree::{Bank, Id};

/// New variables for those that a pattern binds, from the base on.
fn span_for(place: &Place<'_>, base: u32, pattern: &Pat) -> Result<Span, AllocError>
    ensures { IfOk result (λ span. IsSpan base (bound_numbers (pattern_of pattern.now)) span) }
{
    let numbers = bound_numbers(place.alloc, pattern)?;
    span_of(base, &numbers)
}

/// A copy of the visit with what a pattern binds. On `Err` the bank may have grown.
fn with_bound<B: Bank>(
    place: &Place<'_>,
    bank: &mut B,
    visit: &Visit,
    span: Span,
    pattern: &Pat,
) -> Result<Visit, AllocError>
    requires visit { IsVisitIn (B.trees bank.old) visit.now }
    requires up { visit.now.next ≤ span.at.base }
    requires span { IsSpan span.at.base (bound_numbers (pattern_of pattern.now)) span }
    ensures grows { Grows (B.trees bank.old) (B.trees bank.new) }
    ensures names { IfOk result (λ made. NamesVisit (B.trees bank.new) made
        (with_pattern (visit_at (B.trees bank.old) visit.now) (pattern_of pattern.now)
        (fresh_of span.at))) }
    ensures next { IfOk result (λ made. made.next ≡ span.next) }
{
    let bound = pattern_scope(place.alloc, bank, span.at, pattern)?;
    visit.with_scope(place.alloc, bound, span.next)
}

/// The visit with what a pattern binds, and the pattern's term. On `Err` the bank may have grown.
pub fn with_pattern<B: Bank>(
    place: &Place<'_>,
    bank: &mut B,
    visit: &Visit,
    base: u32,
    pattern: &Pat,
) -> Result<(Visit, Id), AllocError>
    requires visit { IsVisitIn (B.trees bank.old) visit.now }
    requires up { visit.now.next ≤ base }
    requires short { IsShortPattern (pattern_of pattern.now) }
    ensures grows { Grows (B.trees bank.old) (B.trees bank.new) }
    ensures names { IfOk result (λ made. WithPattern (protocol_at place.now)
        (visit_at (B.trees bank.old) visit.now) (pattern_of pattern.now) base (B.trees bank.new)
        made.0 made.1) }
{
    let span = span_for(place, base, pattern)?;
    let holes = Holes {
        scope: &visit.scope,
        at: span.at,
    };
    let term = pattern_term(place.alloc, bank, place.protocol, &holes, pattern)?;
    let made = with_bound(place, bank, visit, span, pattern)?;
    Ok((made, term))
}
