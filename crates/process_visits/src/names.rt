//! Restrictions: the name over the messages and the sessions.

ghost use Rattle.std.specs.Prelude.{◌≡◌, false, true, IfOk, IfSome, MatchOption};
ghost use Rattle.spec_translation.specs.Visit as translation;
ghost use Rattle.term_tree.specs.Bank.{Grows};
ghost use Rattle.unified_visits.specs.Visits.{visit_at, IsVisitIn, NamesVisit};

use clause_terms::Standing;
use name_abstraction::name_of_point;
use pi_tree::Slot;
use std::alloc::AllocError;
use term_tree::Bank;
use unified_visits::place::Place;
use unified_visits::sizes::is_large_visit;
use unified_visits::visit::Visit;

/// The visit below a restriction. On `Err` the bank may have grown.
fn with_name<B: Bank>(place: &Place<'_>, bank: &mut B, visit: &Visit) -> Result<Visit, AllocError>
    requires { IsVisitIn (B.trees bank.old) visit.now }
    ensures grows { Grows (B.trees bank.old) (B.trees bank.new) }
    ensures names { IfOk result (λ made. NamesVisit (B.trees bank.new) made
        (translation.after_new (visit_at (B.trees bank.old) visit.now) place.now.point)) }
{
    let term = name_of_point(
        place.alloc,
        bank,
        place.point,
        &visit.messages.items,
        &visit.sessions.items,
    )?;
    let slot = Slot::Made(place.point);
    visit.with_standing(place.alloc, Standing { slot, term })
}

/// The visit below a restriction; none where it is too large. On `Err` the bank may have grown.
pub fn after_new<B: Bank>(
    place: &Place<'_>,
    bank: &mut B,
    visit: &Visit,
) -> Result<Option<Visit>, AllocError>
    requires { IsVisitIn (B.trees bank.old) visit.now }
    ensures grows { Grows (B.trees bank.old) (B.trees bank.new) }
    ensures large { IfOk result (λ found. MatchOption found
        (translation.is_large_visit
        (translation.after_new (visit_at (B.trees bank.old) visit.now) place.now.point) ≡ true)
        (λ made. translation.is_large_visit
        (translation.after_new (visit_at (B.trees bank.old) visit.now) place.now.point) ≡ false)) }
    ensures names { IfOk result (λ found. IfSome found
        (λ made. NamesVisit (B.trees bank.new) made
        (translation.after_new (visit_at (B.trees bank.old) visit.now) place.now.point))) }
{
    let made = with_name(place, bank, visit)?;
    if is_large_visit(bank, &made) {
        return Ok(None);
    }
    Ok(Some(made))
}
