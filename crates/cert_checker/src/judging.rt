//! The stages of a check, one after the other.

ghost use Rattle.std.specs.Prelude.{◌≡◌, List, drop, length, IfOk};
ghost use Rattle.spec_terms.specs.Term.{Term};
ghost use Rattle.spec_clauses.specs.Fact.{Clause};
ghost use Rattle.spec_well_formed.specs.Limits.{IsWithinLimits};
ghost use Rattle.spec_certificates.specs.Certificate.{CoverRowHolds, numbered_from};
ghost use Rattle.spec_certificates.specs.Ruling.{IsRuledBy};
ghost use Rattle.pi_tree.specs.Protocols.{protocol_of};
ghost use Rattle.pi_tree.specs.Accessors.{IsThere};
ghost use Rattle.pi_tree.specs.declared.accessors.Kind.TheVariants.{Query as OfQueries};
ghost use Rattle.query_derive.specs.GoalRows.{OfQuery};
ghost use Rattle.cert_stages.specs.Answers.{numbered_at, AreRight, IsShownSo};
ghost use Rattle.cert_checker.specs.Reached.{IsTranslatedTo, HasCovered, HasClosed};
ghost use Rattle.cert_checker.specs.Rulings.{ruling_of};
ghost use Rattle.clause_form.specs.Fit.{AreFit};
ghost use Rattle.cert_stages.specs.Checked.{cert_in};

use crate::left_over::left_over;
use crate::pairing::are_closed;
use crate::ruling::Ruling;
use cert_stages::{Checker, Closed, Shown, are_satisfied};
use std::alloc::AllocError;
use term_tree::Bank;

/// What is ruled behind the pairs, where the cover rows before the place were used.
fn judge_goals<B: Bank>(bank: &B, checker: &Checker<'_>, row: usize) -> Result<Ruling, AllocError>
    requires fit { AreFit (B.trees bank.now) checker.now.clauses.now }
    requires as_many { length checker.now.numbers.now ≡ length checker.now.clauses.now }
    requires limits { IsWithinLimits (protocol_of checker.now.protocol.now) }
    requires there { IsThere (protocol_of checker.now.protocol.now) OfQueries checker.now.query }
    ensures { let P = protocol_of checker.now.protocol.now in
        let cert = cert_in (B.trees bank.now) checker.now in
        IfOk result (λ ruling. OfQuery P checker.now.query (λ q.
        HasClosed checker.now.numbers.now P q cert (drop row cert.rows) →
        IsRuledBy checker.now.numbers.now P q cert (ruling_of ruling))) }
{
    match are_satisfied(bank, checker)? {
        Shown::All(goal) => Ok(left_over(checker, row, goal)),
        Shown::Except(number) => Ok(Ruling::Goal(number)),
    }
}

/// What is ruled behind the translation, where the cover rows before the place were used. The bank is as before.
fn judge_pairs<B: Bank>(
    bank: &mut B,
    checker: &Checker<'_>,
    row: usize,
) -> Result<Ruling, AllocError>
    requires fit { AreFit (B.trees bank.old) checker.now.clauses.now }
    requires as_many { length checker.now.numbers.now ≡ length checker.now.clauses.now }
    requires right { AreRight checker.now.numbers.now
        (numbered_at (B.trees bank.old) checker.now.clauses.now) }
    requires limits { IsWithinLimits (protocol_of checker.now.protocol.now) }
    requires there { IsThere (protocol_of checker.now.protocol.now) OfQueries checker.now.query }
    ensures ruled { let P = protocol_of checker.now.protocol.now in
        let cert = cert_in (B.trees bank.old) checker.now in
        IfOk result (λ ruling. OfQuery P checker.now.query (λ q.
        HasCovered checker.now.numbers.now P q cert (drop row cert.rows) →
        IsRuledBy checker.now.numbers.now P q cert (ruling_of ruling))) }
    ensures bank { B.trees bank.new ≡ B.trees bank.old }
{
    match are_closed(bank, checker, row)? {
        Closed::All(next) => judge_goals(bank, checker, next),
        Closed::Except(pair) => Ok(Ruling::Closure(pair.solved, pair.unsolved, pair.resolvent)),
    }
}

/// What is ruled behind the translation by what cover rows show of its clauses. The bank is as before.
pub(crate) fn judge<B: Bank>(
    bank: &mut B,
    checker: &Checker<'_>,
    shown: Shown,
) -> Result<Ruling, AllocError>
    requires fit { AreFit (B.trees bank.old) checker.now.clauses.now }
    requires as_many { length checker.now.numbers.now ≡ length checker.now.clauses.now }
    requires right { AreRight checker.now.numbers.now
        (numbered_at (B.trees bank.old) checker.now.clauses.now) }
    requires limits { IsWithinLimits (protocol_of checker.now.protocol.now) }
    requires there { IsThere (protocol_of checker.now.protocol.now) OfQueries checker.now.query }
    ensures ruled { let P = protocol_of checker.now.protocol.now in
        let cert = cert_in (B.trees bank.old) checker.now in
        (given : List (Clause Term)) →
        IsShownSo (CoverRowHolds cert.clauses) (numbered_from 1 given) cert.rows 0 shown →
        IfOk result (λ ruling. OfQuery P checker.now.query (λ q.
        IsTranslatedTo checker.now.numbers.now P q cert given →
        IsRuledBy checker.now.numbers.now P q cert (ruling_of ruling))) }
    ensures bank { B.trees bank.new ≡ B.trees bank.old }
{
    match shown {
        Shown::All(next) => judge_pairs(bank, checker, next),
        Shown::Except(number) => Ok(Ruling::Cover(number)),
    }
}
