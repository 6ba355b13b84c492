//! Phases: the visit of what waits for one.

ghost use Rattle.std.specs.Prelude.{IfOk, List};
ghost use Rattle.spec_terms.specs.Term.{Term};
ghost use Rattle.spec_translation.specs.Visit as translation;
ghost use Rattle.unified_visits.specs.Visits.{visit_at, IsVisitIn, NamesVisit};

use std::alloc::{AllocError, Global};
use unified_visits::visit::Visit;

/// The visit in the phase that begins.
pub fn after_phase(alloc: Global, visit: &Visit, number: u32) -> Result<Visit, AllocError>
    ensures { IfOk result (λ made. (all : List Term) → IsVisitIn all visit.now →
        NamesVisit all made (translation.after_phase (visit_at all visit.now) number)) }
{
    visit.in_phase(alloc, number)
}
