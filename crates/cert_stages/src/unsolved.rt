//! The clauses of a certificate of which a hypothesis is chosen.

ghost use Rattle.std.specs.Prelude.{◌≡◌, Some, length, map, IfOk};
ghost use Rattle.std.specs.List.{AllByRecursion};
ghost use Rattle.spec_clauses.specs.Selection.{Selection};
ghost use Rattle.spec_derivations.specs.Choice.{at_place};
ghost use Rattle.spec_fingerprints.specs.Fingerprints.{fingerprint_of};
ghost use Rattle.clause_form.specs.Fit.{AreFit};
ghost use Rattle.clause_form.specs.Seen.{clause_at, IsClauseIn};
ghost use Rattle.clause_resolve.specs.Apart.{IsHypothesisAt};
ghost use Rattle.fact_fingerprint.specs.Seen.{fingerprint_seen};
ghost use Rattle.cert_stages.specs.Answers.{numbered_at, AreRight};
ghost use Rattle.cert_stages.specs.Unsolved.{unsolved_from, places_of, IsUnsolvedOne};

use crate::checker::Checker;
use crate::choosing::number_at;
use clause_form::Clause;
use fact_fingerprint::{Fingerprint, fingerprint_of_fact};
use std::alloc::AllocError;
use term_tree::Bank;

/// A clause of which a hypothesis is chosen: its place, and that of the hypothesis, each from 0, and the hypothesis' fingerprint.
#[derive(Clone, Copy)]
pub struct Unsolved {
    pub place: usize,
    pub at: usize,
    pub print: Fingerprint,
}

/// A clause at a place with its hypothesis at `at`.
fn unsolved_one<B: Bank>(bank: &B, clause: &Clause, place: usize, at: usize) -> Unsolved
    requires known { IsClauseIn (B.trees bank.now) clause.now }
    requires there { IsHypothesisAt (clause_at (B.trees bank.now) clause.now) at }
    ensures places { places_of result ≡ (place, at) }
    ensures print { (chosen : Selection) →
        at_place (clause_at (B.trees bank.now) clause.now).hypotheses at ≡ Some chosen →
        fingerprint_seen result.print ≡ fingerprint_of chosen.fact }
{
    let facts = clause.hyps.items.as_slice();
    let print = fingerprint_of_fact(bank, &facts[at]);
    Unsolved { place, at, print }
}

/// The clauses of which a hypothesis is chosen, in their order.
pub fn unsolved_ones<B: Bank>(bank: &B, checker: &Checker<'_>) -> Result<Vec<Unsolved>, AllocError>
    requires fit { AreFit (B.trees bank.now) checker.now.clauses.now }
    requires as_many { length checker.now.numbers.now ≡ length checker.now.clauses.now }
    requires right { AreRight checker.now.numbers.now
        (numbered_at (B.trees bank.now) checker.now.clauses.now) }
    ensures places { IfOk result (λ found. map places_of found.items ≡
        unsolved_from 0 checker.now.numbers.now) }
    ensures each { IfOk result (λ found. AllByRecursion (IsUnsolvedOne (B.trees bank.now)
        checker.now.clauses.now checker.now.numbers.now) found.items) }
{
    let mut found = Vec::new(checker.alloc);
    'each: for (place, clause) in checker.clauses.iter().enumerate() {
        let number = number_at(checker, place);
        match number.checked_sub(1) {
            Some(at) => found.push(unsolved_one(bank, clause, place, at))?,
            None => {}
        }
    }
    Ok(found)
}
