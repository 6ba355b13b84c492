//! Inputs: the message is the pattern's term, with new variables.

ghost use Rattle.std.specs.Prelude.{IfOk, MatchOption};
ghost use Rattle.pi_tree.specs.Terms.{term_of};
ghost use Rattle.pi_tree.specs.Patterns.{pattern_of};
ghost use Rattle.spec_translation.specs.Conversion.{Fresh};
ghost use Rattle.spec_translation.specs.Visit as translation;
ghost use Rattle.spec_translation.specs.Visit.{IsFresh};
ghost use Rattle.spec_translation.specs.Choice.{with_pattern};
ghost use Rattle.term_tree.specs.Bank.{Grows};
ghost use Rattle.clause_terms.specs.Conditions.{HasShortTuples, IsShortPattern};
ghost use Rattle.unified_visits.specs.Places.{protocol_at};
ghost use Rattle.process_visits.specs.Forms.{IsLargeInput, Receives};
ghost use Rattle.unified_visits.specs.Visits.{visit_at, IsVisitIn, NamesVisit};

use crate::channels::sent;
use crate::large::{is_large_term, some_large_compared};
use clause_terms::term_in;
use pi_tree::{Pat, Term};
use std::alloc::AllocError;
use term_tree::Bank;
use unified_visits::patterns::with_pattern;
use unified_visits::place::Place;
use unified_visits::sizes::is_large_visit;
use unified_visits::visit::Visit;

/// The visit below an input that is not too large by what it evaluates. On `Err` the bank may have grown.
fn received<B: Bank>(
    place: &Place<'_>,
    bank: &mut B,
    visit: &Visit,
    channel: &Term,
    pattern: &Pat,
) -> Result<Visit, AllocError>
    requires visit { IsVisitIn (B.trees bank.old) visit.now }
    requires channel { HasShortTuples (term_of channel.now) }
    requires short { IsShortPattern (pattern_of pattern.now) }
    ensures grows { Grows (B.trees bank.old) (B.trees bank.new) }
    ensures names { IfOk result (λ made. (at : Fresh)
        × IsFresh (visit_at (B.trees bank.old) visit.now) (pattern_of pattern.now) at
        × NamesVisit (B.trees bank.new) made (translation.after_input (protocol_at place.now)
        (visit_at (B.trees bank.old) visit.now) (term_of channel.now) (pattern_of pattern.now)
        at)) }
{
    let channel = term_in(place.alloc, bank, place.protocol, &visit.scope, channel)?;
    let (bound, message) = with_pattern(place, bank, visit, visit.next, pattern)?;
    let fact = sent(bank, place.protocol, bound.phase, channel, message);
    bound.with_message(fact, message)
}

/// The visit below an input; none where it is too large. On `Err` the bank may have grown.
pub fn after_input<B: Bank>(
    place: &Place<'_>,
    bank: &mut B,
    visit: &Visit,
    channel: &Term,
    pattern: &Pat,
) -> Result<Option<Visit>, AllocError>
    requires visit { IsVisitIn (B.trees bank.old) visit.now }
    requires channel { HasShortTuples (term_of channel.now) }
    requires short { IsShortPattern (pattern_of pattern.now) }
    ensures grows { Grows (B.trees bank.old) (B.trees bank.new) }
    ensures receives { IfOk result (λ found. MatchOption found
        (IsLargeInput (protocol_at place.now) (visit_at (B.trees bank.old) visit.now)
        (term_of channel.now) (pattern_of pattern.now))
        (λ made. Receives (protocol_at place.now) (visit_at (B.trees bank.old) visit.now)
        (term_of channel.now) (pattern_of pattern.now) (B.trees bank.new) made)) }
{
    if is_large_term(place, bank, &visit.scope, channel) {
        return Ok(None);
    }
    if some_large_compared(place, bank, &visit.scope, pattern) {
        return Ok(None);
    }
    let made = received(place, bank, visit, channel, pattern)?;
    if is_large_visit(bank, &made) {
        return Ok(None);
    }
    Ok(Some(made))
}
