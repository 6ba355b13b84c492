//! Entries that are written: the clause that the table may have them.

ghost use Rattle.std.specs.Prelude.{◌≡◌, true, false, IfOk, MatchBool};
ghost use Rattle.std.specs.List.{AllByRecursion};
ghost use Rattle.spec_clauses.specs.Fact.{Tab};
ghost use Rattle.spec_clauses.specs.Norm.{norms};
ghost use Rattle.spec_translation.specs.Visit.{written_terms};
ghost use Rattle.term_tree.specs.Bank.{Grows};
ghost use Rattle.clause_terms.specs.Conditions.{HasShortTuples};
ghost use Rattle.process_visits.specs.Forms.{Adds, insert_raw, is_large_insert, ShowsClause};
ghost use Rattle.unified_visits.specs.Places.{protocol_at};
ghost use Rattle.process_visits.specs.Telling.{TellsVisit};
ghost use Rattle.unified_visits.specs.Visits.{visit_at, IsVisitIn};

use crate::forms::Insert;
use crate::large::some_large_term;
use crate::listing::Listing;
use clause_form::{Clause, Fact};
use clause_terms::terms_in;
use std::alloc::AllocError;
use term_tree::Bank;
use unified_visits::place::Place;
use unified_visits::visit::Visit;

/// The raw clause of an `insert`. On `Err` the bank may have grown.
fn insert_clause<B: Bank>(
    place: &Place<'_>,
    bank: &mut B,
    visit: &Visit,
    insert: &Insert<'_>,
) -> Result<Clause, AllocError>
    requires visit { IsVisitIn (B.trees bank.old) visit.now }
    requires short { AllByRecursion HasShortTuples insert.now.arguments.now }
    ensures grows { Grows (B.trees bank.old) (B.trees bank.new) }
    ensures names { IfOk result (λ raw. ShowsClause (B.trees bank.new) raw
        (insert_raw (protocol_at place.now) (visit_at (B.trees bank.old) visit.now)
        insert.now.table insert.now.arguments.now)) }
{
    let hyps = visit.hypotheses.copy(place.alloc)?;
    let diffs = visit.diffs.listed(place.alloc)?;
    let arguments = terms_in(
        place.alloc,
        bank,
        place.protocol,
        &visit.scope,
        insert.arguments,
    )?;
    Ok(Clause {
        hyps,
        diffs,
        concl: Fact::Tab(insert.table, arguments),
    })
}

/// Adds what an `insert` adds, unless it is too large, and tells whether it did. On `Err` the bank may have grown.
pub fn add_insert<B: Bank>(
    place: &Place<'_>,
    bank: &mut B,
    listing: &mut Listing,
    visit: &Visit,
    insert: &Insert<'_>,
) -> Result<bool, AllocError>
    requires visit { IsVisitIn (B.trees bank.old) visit.now }
    requires short { AllByRecursion HasShortTuples insert.now.arguments.now }
    ensures grows { Grows (B.trees bank.old) (B.trees bank.new) }
    ensures large { IfOk result (λ added. MatchBool added
        (is_large_insert (protocol_at place.now) (visit_at (B.trees bank.old) visit.now)
        insert.now.table insert.now.arguments.now ≡ false)
        (is_large_insert (protocol_at place.now) (visit_at (B.trees bank.old) visit.now)
        insert.now.table insert.now.arguments.now ≡ true)) }
    ensures adds { IfOk result (λ added. added ≡ true
        → Adds (B.trees bank.new) listing.old listing.new
        (norms (insert_raw (protocol_at place.now) (visit_at (B.trees bank.old) visit.now)
        insert.now.table insert.now.arguments.now))) }
    ensures tells { let P = protocol_at place.now in
        let v = visit_at (B.trees bank.old) visit.now in
        IfOk result (λ added. added ≡ true → TellsVisit place.now.point v
        (Tab insert.now.table (written_terms P v insert.now.arguments.now))
        listing.old listing.new) }
{
    if some_large_term(place, bank, &visit.scope, insert.arguments) {
        return Ok(false);
    }
    let raw = insert_clause(place, bank, visit, insert)?;
    listing.add(place, bank, visit, raw)
}
