//! Replications: a new variable for the number of a copy.

ghost use Rattle.std.specs.Prelude.{IfOk};
ghost use Rattle.spec_calculus.specs.Bounds.{most_points};
ghost use Rattle.spec_translation.specs.Visit as translation;
ghost use Rattle.term_tree.specs.Bank.{Grows};
ghost use Rattle.unified_visits.specs.Visits.{visit_at, IsVisitIn, NamesVisit, HasFewCopies};

use std::alloc::{AllocError, Global};
use term_tree::Bank;
use unified_visits::visit::Visit;

/// The visit below a replication. On `Err` the bank may have grown.
pub fn after_copy<B: Bank>(alloc: Global, bank: &mut B, visit: &Visit) -> Result<Visit, AllocError>
    requires visit { IsVisitIn (B.trees bank.old) visit.now }
    requires copies { HasFewCopies most_points visit.now }
    ensures grows { Grows (B.trees bank.old) (B.trees bank.new) }
    ensures names { IfOk result (λ made. NamesVisit (B.trees bank.new) made
        (translation.after_copy (visit_at (B.trees bank.old) visit.now) visit.now.next)) }
{
    let session = bank.var(visit.next)?;
    visit.with_session(alloc, session, visit.next + 1)
}
