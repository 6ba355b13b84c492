//! Outputs: the clause that the message may be sent.

ghost use Rattle.std.specs.Prelude.{◌≡◌, false, true, IfOk, MatchBool};
ghost use Rattle.spec_clauses.specs.Norm.{norms};
ghost use Rattle.spec_translation.specs.Conversion as translation;
ghost use Rattle.spec_translation.specs.Visit.{sent};
ghost use Rattle.pi_tree.specs.Terms.{term_of};
ghost use Rattle.term_tree.specs.Bank.{Grows};
ghost use Rattle.clause_form.specs.Facts.{fact_of};
ghost use Rattle.clause_form.specs.Seen.{NamesFact};
ghost use Rattle.clause_terms.specs.Conditions.{HasShortTuples};
ghost use Rattle.clause_terms.specs.Scopes.{scope_at, IsScopeIn};
ghost use Rattle.unified_visits.specs.Places.{protocol_at};
ghost use Rattle.process_visits.specs.Forms.{Adds, output_raw, is_large_output, ShowsClause};
ghost use Rattle.process_visits.specs.Telling.{TellsVisit};
ghost use Rattle.unified_visits.specs.Visits.{visit_at, IsVisitIn};

use crate::channels::sent;
use crate::forms::Output;
use crate::large::is_large_term;
use crate::listing::Listing;
use clause_form::{Clause, Fact};
use clause_terms::term_in;
use pi_tree::Term;
use std::alloc::AllocError;
use term_tree::Bank;
use unified_visits::place::Place;
use unified_visits::visit::Visit;

/// That the message may be sent on the channel, where the output is visited. On `Err` the bank may have grown.
fn sent_in<B: Bank>(
    place: &Place<'_>,
    bank: &mut B,
    visit: &Visit,
    channel: &Term,
    message: &Term,
) -> Result<Fact, AllocError>
    requires scope { IsScopeIn (B.trees bank.old) visit.now.scope }
    requires channel { HasShortTuples (term_of channel.now) }
    requires message { HasShortTuples (term_of message.now) }
    ensures grows { Grows (B.trees bank.old) (B.trees bank.new) }
    ensures names { let P = protocol_at place.now in
        let bound = scope_at (B.trees bank.old) visit.now.scope in
        IfOk result (λ fact. NamesFact (B.trees bank.new) (fact_of fact)
        (sent P visit.now.phase (translation.term_in P bound (term_of channel.now))
        (translation.term_in P bound (term_of message.now)))) }
{
    let channel = term_in(place.alloc, bank, place.protocol, &visit.scope, channel)?;
    let message = term_in(place.alloc, bank, place.protocol, &visit.scope, message)?;
    Ok(sent(bank, place.protocol, visit.phase, channel, message))
}

/// The raw clause of an output. On `Err` the bank may have grown.
fn output_clause<B: Bank>(
    place: &Place<'_>,
    bank: &mut B,
    visit: &Visit,
    channel: &Term,
    message: &Term,
) -> Result<Clause, AllocError>
    requires visit { IsVisitIn (B.trees bank.old) visit.now }
    requires channel { HasShortTuples (term_of channel.now) }
    requires message { HasShortTuples (term_of message.now) }
    ensures grows { Grows (B.trees bank.old) (B.trees bank.new) }
    ensures names { IfOk result (λ raw. ShowsClause (B.trees bank.new) raw
        (output_raw (protocol_at place.now) (visit_at (B.trees bank.old) visit.now)
        (term_of channel.now) (term_of message.now))) }
{
    let hyps = visit.hypotheses.copy(place.alloc)?;
    let diffs = visit.diffs.listed(place.alloc)?;
    let concl = sent_in(place, bank, visit, channel, message)?;
    Ok(Clause { hyps, diffs, concl })
}

/// Adds what an output adds, unless it is too large, and tells whether it did. On `Err` the bank may have grown.
pub fn add_output<B: Bank>(
    place: &Place<'_>,
    bank: &mut B,
    listing: &mut Listing,
    visit: &Visit,
    output: &Output<'_>,
) -> Result<bool, AllocError>
    requires visit { IsVisitIn (B.trees bank.old) visit.now }
    requires channel { HasShortTuples (term_of output.now.channel.now) }
    requires message { HasShortTuples (term_of output.now.message.now) }
    ensures grows { Grows (B.trees bank.old) (B.trees bank.new) }
    ensures large { IfOk result (λ added. MatchBool added
        (is_large_output (protocol_at place.now) (visit_at (B.trees bank.old) visit.now)
        (term_of output.now.channel.now) (term_of output.now.message.now) ≡ false)
        (is_large_output (protocol_at place.now) (visit_at (B.trees bank.old) visit.now)
        (term_of output.now.channel.now) (term_of output.now.message.now) ≡ true)) }
    ensures adds { IfOk result (λ added. added ≡ true
        → Adds (B.trees bank.new) listing.old listing.new
        (norms (output_raw (protocol_at place.now) (visit_at (B.trees bank.old) visit.now)
        (term_of output.now.channel.now) (term_of output.now.message.now)))) }
    ensures tells { let P = protocol_at place.now in
        let v = visit_at (B.trees bank.old) visit.now in
        IfOk result (λ added. added ≡ true → TellsVisit place.now.point v
        (sent P v.phase (translation.term_in P v.scope (term_of output.now.channel.now))
        (translation.term_in P v.scope (term_of output.now.message.now)))
        listing.old listing.new) }
{
    if is_large_term(place, bank, &visit.scope, output.channel) {
        return Ok(false);
    }
    if is_large_term(place, bank, &visit.scope, output.message) {
        return Ok(false);
    }
    let raw = output_clause(place, bank, visit, output.channel, output.message)?;
    listing.add(place, bank, visit, raw)
}
