//! Pairs of a clause that rests, called solved, with one of which a hypothesis is chosen, called unsolved: each resolvent is covered by
//! the next row.

ghost use Rattle.std.specs.Prelude.{◌≡◌, ◌<◌, ◌+◌, ◌^◌, suc, Some, length, map, slice_get, IfOk};
ghost use Rattle.std.specs.List.{AllByRecursion};
ghost use Rattle.spec_fingerprints.specs.Fingerprints.{fingerprint_of};
ghost use Rattle.fact_fingerprint.specs.Seen.{fingerprint_seen};
ghost use Rattle.clause_form.specs.Seen.{clause_at, IdClause};
ghost use Rattle.cert_stages.specs.declared.shown.Shown.TheVariants as shown_so;
ghost use Rattle.clause_form.specs.Fit.{AreFit, clauses_at};
ghost use Rattle.cert_stages.specs.Answers.{numbered_at, where_shown, chosen_by, AreRight};
ghost use Rattle.cert_stages.specs.Answers.{IsClosedSo, pair_at, pairs_at, pairs_at_resting};
ghost use Rattle.cert_stages.specs.Unsolved.{unsolved_from, places_of, IsUnsolvedOne};

use crate::checker::Checker;
use crate::choosing::number_at;
use crate::covering::are_covered;
use crate::shown::{Closed, OpenPair, Shown};
use crate::unsolved::Unsolved;
use clause_resolve::{Resolved, resolvents_at};
use fact_fingerprint::{Fingerprint, conclusion_fingerprint, may_meet};
use std::alloc::AllocError;
use term_tree::Bank;

/// The places, from 0, of a clause that rests and of one of which a hypothesis is chosen.
#[derive(Clone, Copy)]
pub(crate) struct Pair {
    pub solved: usize,
    pub unsolved: usize,
}

/// What comes of a pair whose resolvent of that number isn't covered.
fn uncovered(pair: Pair, resolvent: u64) -> Closed
    requires solved { pair.solved + 1 < 2 ^ 64 }
    requires unsolved { pair.unsolved + 1 < 2 ^ 64 }
    ensures { result ≡ where_shown pair.solved pair.unsolved (shown_so.Except resolvent) }
{
    Closed::Except(OpenPair {
        solved: pair.solved as u64 + 1,
        unsolved: pair.unsolved as u64 + 1,
        resolvent,
    })
}

/// What comes of a pair where that is shown of its resolvents.
fn closed_where(pair: Pair, shown: Shown) -> Closed
    requires solved { pair.solved + 1 < 2 ^ 64 }
    requires unsolved { pair.unsolved + 1 < 2 ^ 64 }
    ensures { result ≡ where_shown pair.solved pair.unsolved shown }
{
    match shown {
        Shown::All(next) => Closed::All(next),
        Shown::Except(number) => uncovered(pair, number),
    }
}

/// Whether the resolvents of a pair, on the hypothesis at that place, are covered by the rows from a place on. The bank is
/// as before.
fn close_pair<B: Bank>(
    bank: &mut B,
    checker: &Checker<'_>,
    pair: Pair,
    at: usize,
    from: usize,
) -> Result<Closed, AllocError>
    requires fit { AreFit (B.trees bank.old) checker.now.clauses.now }
    requires right { AreRight checker.now.numbers.now
        (numbered_at (B.trees bank.old) checker.now.clauses.now) }
    requires solved { pair.solved < length checker.now.clauses.now }
    requires unsolved { pair.unsolved < length checker.now.clauses.now }
    requires chosen { slice_get checker.now.numbers.now pair.unsolved ≡ Some (suc at) }
    ensures closed { let all = B.trees bank.old in IfOk result (λ closed.
        IsClosedSo (clauses_at all checker.now.clauses.now)
        (pair_at (chosen_by checker.now.numbers.now)
        (numbered_at all checker.now.clauses.now) pair.solved pair.unsolved)
        checker.now.rows.now from closed) }
    ensures bank { B.trees bank.new ≡ B.trees bank.old }
{
    let mark = bank.mark();
    let solved = &checker.clauses[pair.solved];
    let unsolved = &checker.clauses[pair.unsolved];
    match resolvents_at(checker.alloc, bank, solved, unsolved, at)? {
        Resolved::NoUnifier => Ok(Closed::All(from)),
        Resolved::Large => Ok(uncovered(pair, 0)),
        Resolved::Clauses(made) => {
            let covered = are_covered(bank, checker, &made.items, from);
            bank.back(mark);
            let shown = covered?;
            Ok(closed_where(pair, shown))
        }
    }
}

/// A clause that rests, by its place and the fingerprint of its conclusion.
#[derive(Clone, Copy)]
pub(crate) struct Solving {
    pub solved: usize,
    pub print: Fingerprint,
}

/// Whether the resolvents of a clause that rests with another are covered by the rows from a place on. Where fingerprints tell
/// that there is no unifier, no row is used. The bank is as before.
fn close_met<B: Bank>(
    bank: &mut B,
    checker: &Checker<'_>,
    solving: &Solving,
    one: &Unsolved,
    from: usize,
) -> Result<Closed, AllocError>
    requires fit { AreFit (B.trees bank.old) checker.now.clauses.now }
    requires right { AreRight checker.now.numbers.now
        (numbered_at (B.trees bank.old) checker.now.clauses.now) }
    requires solved { solving.now.solved < length checker.now.clauses.now }
    requires unsolved { IsUnsolvedOne (B.trees bank.old) checker.now.clauses.now
        checker.now.numbers.now one.now }
    requires print { (c : IdClause) →
        slice_get checker.now.clauses.now solving.now.solved ≡ Some c →
        fingerprint_seen solving.now.print ≡
        fingerprint_of (clause_at (B.trees bank.old) c).conclusion }
    ensures closed { let all = B.trees bank.old in IfOk result (λ closed.
        IsClosedSo (clauses_at all checker.now.clauses.now)
        (pair_at (chosen_by checker.now.numbers.now)
        (numbered_at all checker.now.clauses.now) solving.now.solved one.now.place)
        checker.now.rows.now from closed) }
    ensures bank { B.trees bank.new ≡ B.trees bank.old }
{
    if !may_meet(&solving.print, &one.print) {
        return Ok(Closed::All(from));
    }
    let pair = Pair {
        solved: solving.solved,
        unsolved: one.place,
    };
    close_pair(bank, checker, pair, one.at, from)
}

/// Whether the resolvents of a clause that rests with each other one are covered. The bank is as before.
fn close_solved<B: Bank>(
    bank: &mut B,
    checker: &Checker<'_>,
    solved: usize,
    unsolved: &[Unsolved],
    from: usize,
) -> Result<Closed, AllocError>
    requires fit { AreFit (B.trees bank.old) checker.now.clauses.now }
    requires as_many { length checker.now.numbers.now ≡ length checker.now.clauses.now }
    requires right { AreRight checker.now.numbers.now
        (numbered_at (B.trees bank.old) checker.now.clauses.now) }
    requires solved { solved < length checker.now.clauses.now }
    requires places { map places_of unsolved.now ≡ unsolved_from 0 checker.now.numbers.now }
    requires each { AllByRecursion (IsUnsolvedOne (B.trees bank.old)
        checker.now.clauses.now checker.now.numbers.now) unsolved.now }
    ensures closed { let all = B.trees bank.old in IfOk result (λ closed.
        IsClosedSo (clauses_at all checker.now.clauses.now)
        (pairs_at (chosen_by checker.now.numbers.now)
        (numbered_at all checker.now.clauses.now) solved)
        checker.now.rows.now from closed) }
    ensures bank { B.trees bank.new ≡ B.trees bank.old }
{
    let solving = Solving {
        solved,
        print: conclusion_fingerprint(bank, &checker.clauses[solved]),
    };
    let mut next = from;
    'each: for one in unsolved {
        match close_met(bank, checker, &solving, one, next)? {
            Closed::All(left) => next = left,
            Closed::Except(pair) => return Ok(Closed::Except(pair)),
        }
    }
    Ok(Closed::All(next))
}

/// Whether the resolvents of a clause with each of which a hypothesis is chosen are covered, where it rests; where it doesn't, no
/// row is used. The bank is as before.
pub fn close_one<B: Bank>(
    bank: &mut B,
    checker: &Checker<'_>,
    solved: usize,
    unsolved: &[Unsolved],
    from: usize,
) -> Result<Closed, AllocError>
    requires fit { AreFit (B.trees bank.old) checker.now.clauses.now }
    requires as_many { length checker.now.numbers.now ≡ length checker.now.clauses.now }
    requires right { AreRight checker.now.numbers.now
        (numbered_at (B.trees bank.old) checker.now.clauses.now) }
    requires solved { solved < length checker.now.clauses.now }
    requires places { map places_of unsolved.now ≡ unsolved_from 0 checker.now.numbers.now }
    requires each { AllByRecursion (IsUnsolvedOne (B.trees bank.old)
        checker.now.clauses.now checker.now.numbers.now) unsolved.now }
    ensures closed { let all = B.trees bank.old in IfOk result (λ closed.
        IsClosedSo (clauses_at all checker.now.clauses.now)
        (pairs_at_resting (chosen_by checker.now.numbers.now)
        (numbered_at all checker.now.clauses.now) solved)
        checker.now.rows.now from closed) }
    ensures bank { B.trees bank.new ≡ B.trees bank.old }
{
    if number_at(checker, solved) > 0 {
        return Ok(Closed::All(from));
    }
    close_solved(bank, checker, solved, unsolved, from)
}
