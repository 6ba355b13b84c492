//! Whether clauses begin with others.

ghost use Rattle.std.specs.Prelude.{◌≡◌, true, map};
ghost use Rattle.clause_diffs.specs.Diffs.{diffs_at, AreDiffsIn};
ghost use Rattle.clause_form.specs.Facts.{fact_of};
ghost use Rattle.clause_form.specs.Seen.{fact_at, clause_at, AreFactsIn, IsClauseIn, AreClausesIn};
ghost use Rattle.cert_writer.specs.Known.{BeginWith};

use clause_diffs::same_diff;
use clause_form::{Clause, Diff, Fact, same_fact};
use term_tree::Bank;

/// Whether facts are the same, item by item.
fn are_same_facts<B: Bank>(bank: &B, lefts: &[Fact], rights: &[Fact]) -> bool
    requires lefts { AreFactsIn (B.trees bank.now) (map fact_of lefts.now) }
    requires rights { AreFactsIn (B.trees bank.now) (map fact_of rights.now) }
    ensures { let all = B.trees bank.now in result ≡ true →
        map (fact_at all) (map fact_of lefts.now) ≡ map (fact_at all) (map fact_of rights.now) }
{
    if lefts.len() != rights.len() {
        return false;
    }
    'each: for (i, left) in lefts.iter().enumerate() {
        if !same_fact(bank, left, &rights[i]) {
            return false;
        }
    }
    true
}

/// Whether constraints are the same, item by item.
fn are_same_diffs<B: Bank>(bank: &B, lefts: &[Diff], rights: &[Diff]) -> bool
    requires lefts { AreDiffsIn (B.trees bank.now) lefts.now }
    requires rights { AreDiffsIn (B.trees bank.now) rights.now }
    ensures { result ≡ true →
        diffs_at (B.trees bank.now) lefts.now ≡ diffs_at (B.trees bank.now) rights.now }
{
    if lefts.len() != rights.len() {
        return false;
    }
    'each: for (i, left) in lefts.iter().enumerate() {
        if !same_diff(bank, left, &rights[i]) {
            return false;
        }
    }
    true
}

/// Whether two clauses are the same.
fn is_same_clause<B: Bank>(bank: &B, left: &Clause, right: &Clause) -> bool
    requires left { IsClauseIn (B.trees bank.now) left.now }
    requires right { IsClauseIn (B.trees bank.now) right.now }
    ensures { result ≡ true →
        clause_at (B.trees bank.now) left.now ≡ clause_at (B.trees bank.now) right.now }
{
    if !same_fact(bank, &left.concl, &right.concl) {
        return false;
    }
    if !are_same_diffs(bank, &left.diffs.items, &right.diffs.items) {
        return false;
    }
    are_same_facts(bank, &left.hyps.items, &right.hyps.items)
}

/// Whether the clauses begin with the others.
pub(crate) fn begin_with<B: Bank>(bank: &B, live: &[Clause], front: &[Clause]) -> bool
    requires live { AreClausesIn (B.trees bank.now) live.now }
    requires front { AreClausesIn (B.trees bank.now) front.now }
    ensures { result ≡ true → BeginWith (B.trees bank.now) live.now front.now }
{
    if live.len() < front.len() {
        return false;
    }
    'each: for (i, clause) in front.iter().enumerate() {
        if !is_same_clause(bank, &live[i], clause) {
            return false;
        }
    }
    true
}
