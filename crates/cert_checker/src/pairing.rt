//! All pairs of a clause that rests with one of which a hypothesis is chosen: each resolvent is covered by the next row.

ghost use Rattle.std.specs.Prelude.{◌≡◌, length, map, IfOk};
ghost use Rattle.std.specs.List.{AllByRecursion};
ghost use Rattle.spec_certificates.specs.Certificate.{pairs_by};
ghost use Rattle.clause_form.specs.Fit.{AreFit, clauses_at};
ghost use Rattle.cert_stages.specs.Answers.{numbered_at, chosen_by, AreRight, IsClosedSo};
ghost use Rattle.cert_stages.specs.Unsolved.{unsolved_from, places_of, IsUnsolvedOne};

use cert_stages::{Checker, Closed, Unsolved, close_one, unsolved_ones};
use std::alloc::AllocError;
use term_tree::Bank;

/// Whether the resolvents of each clause that rests with each other one are covered. The bank is as before.
fn close_all<B: Bank>(
    bank: &mut B,
    checker: &Checker<'_>,
    unsolved: &[Unsolved],
    from: usize,
) -> Result<Closed, AllocError>
    requires fit { AreFit (B.trees bank.old) checker.now.clauses.now }
    requires as_many { length checker.now.numbers.now ≡ length checker.now.clauses.now }
    requires right { AreRight checker.now.numbers.now
        (numbered_at (B.trees bank.old) checker.now.clauses.now) }
    requires places { map places_of unsolved.now ≡ unsolved_from 0 checker.now.numbers.now }
    requires each { AllByRecursion (IsUnsolvedOne (B.trees bank.old)
        checker.now.clauses.now checker.now.numbers.now) unsolved.now }
    ensures closed { let all = B.trees bank.old in IfOk result (λ closed.
        IsClosedSo (clauses_at all checker.now.clauses.now)
        (let each = numbered_at all checker.now.clauses.now in
        pairs_by (chosen_by checker.now.numbers.now) each each)
        checker.now.rows.now from closed) }
    ensures bank { B.trees bank.new ≡ B.trees bank.old }
{
    let mut next = from;
    'each: for solved in 0..checker.clauses.len() {
        match close_one(bank, checker, solved, unsolved, next)? {
            Closed::All(left) => next = left,
            Closed::Except(pair) => return Ok(Closed::Except(pair)),
        }
    }
    Ok(Closed::All(next))
}

/// Whether the resolvents of all pairs are covered, by the rows from a place on in order. The clauses of which a hypothesis is chosen
/// are sought out once, since nearly all clauses may rest. The bank is as before.
pub(crate) fn are_closed<B: Bank>(
    bank: &mut B,
    checker: &Checker<'_>,
    from: usize,
) -> Result<Closed, AllocError>
    requires fit { AreFit (B.trees bank.old) checker.now.clauses.now }
    requires as_many { length checker.now.numbers.now ≡ length checker.now.clauses.now }
    requires right { AreRight checker.now.numbers.now
        (numbered_at (B.trees bank.old) checker.now.clauses.now) }
    ensures closed { let all = B.trees bank.old in IfOk result (λ closed.
        IsClosedSo (clauses_at all checker.now.clauses.now)
        (let each = numbered_at all checker.now.clauses.now in
        pairs_by (chosen_by checker.now.numbers.now) each each)
        checker.now.rows.now from closed) }
    ensures bank { B.trees bank.new ≡ B.trees bank.old }
{
    let unsolved = unsolved_ones(bank, checker)?;
    close_all(bank, checker, &unsolved, from)
}
