//! The numbers beside the clauses of a certificate: whether they are right, and those that selection chooses by.

ghost use Rattle.std.specs.Prelude.{◌≡◌, ◌↔◌, ◌<◌, suc, Some, IsTrue, length, slice_get, IfOk};
ghost use Rattle.spec_clauses.specs.Selection.{select};
ghost use Rattle.spec_derivations.specs.Choice.{CanRest, IsRight, number_of};
ghost use Rattle.spec_certificates.specs.Certificate.{numbers_for};
ghost use Rattle.clause_form.specs.Fit.{clauses_at};
ghost use Rattle.clause_form.specs.Seen.{clause_at, IsClauseIn, AreClausesIn};
ghost use Rattle.cert_stages.specs.Answers.{numbered_at, AreRightSo};
ghost use Rattle.cert_stages.specs.Numbers.{said_at, number_for};
ghost use Rattle.cert_stages.specs.Lowering.{IsNormalIn, AreNormalIn};

use crate::checker::Checker;
use clause_form::{Clause, is_selectable, is_variable_known};
use literal_selection::{is_solved, selected};
use std::alloc::{AllocError, Global};
use term_tree::Bank;

/// Whether the clause may rest.
fn can_rest<B: Bank>(bank: &B, clause: &Clause) -> bool
    requires { IsClauseIn (B.trees bank.now) clause.now }
    ensures { IsTrue result ↔ CanRest (clause_at (B.trees bank.now) clause.now) }
{
    is_solved(bank, clause) || !is_variable_known(bank, &clause.concl)
}

/// Whether the clause has a hypothesis at that place, from 0, which can be selected.
fn can_choose<B: Bank>(bank: &B, clause: &Clause, at: usize) -> bool
    requires { IsClauseIn (B.trees bank.now) clause.now }
    ensures { IsTrue result ↔ IsRight (clause_at (B.trees bank.now) clause.now) (suc at) }
{
    match clause.hyps.items.get(at) {
        None => false,
        Some(fact) => is_selectable(bank, fact),
    }
}

/// Whether the number is right beside the clause: it may rest, or the hypothesis of that number is there and can be selected.
fn is_right<B: Bank>(bank: &B, clause: &Clause, number: usize) -> bool
    requires { IsClauseIn (B.trees bank.now) clause.now }
    ensures { IsTrue result ↔ IsRight (clause_at (B.trees bank.now) clause.now) number }
{
    match number.checked_sub(1) {
        None => can_rest(bank, clause),
        Some(at) => can_choose(bank, clause, at),
    }
}

/// The number beside the clause at that place, from 0.
pub(crate) fn number_at(checker: &Checker<'_>, place: usize) -> usize
    requires { place < length checker.now.numbers.now }
    ensures { slice_get checker.now.numbers.now place ≡ Some result }
{
    checker.numbers[place]
}

/// The number, from 1, of the first clause beside which the number isn't right.
pub fn first_wrong<B: Bank>(bank: &B, checker: &Checker<'_>) -> Option<u64>
    requires known { AreClausesIn (B.trees bank.now) checker.now.clauses.now }
    requires as_many { length checker.now.numbers.now ≡ length checker.now.clauses.now }
    ensures { AreRightSo checker.now.numbers.now
        (numbered_at (B.trees bank.now) checker.now.clauses.now) result }
{
    'each: for (k, clause) in checker.clauses.iter().enumerate() {
        let number = number_at(checker, k);
        if !is_right(bank, clause, number) {
            return Some(k as u64 + 1);
        }
    }
    None
}

/// The number of a clause's selected hypothesis, from 1; 0 where the clause is solved.
fn selected_number<B: Bank>(bank: &B, clause: &Clause) -> usize
    requires { IsNormalIn (B.trees bank.now) clause.now }
    ensures { result ≡ number_of (select (clause_at (B.trees bank.now) clause.now).hypotheses) }
{
    match selected(bank, clause) {
        Some(at) => at + 1,
        None => 0,
    }
}

/// What is said of the clause at that place; `None` where nothing is.
fn said_of(said: &[Option<usize>], place: usize) -> Option<usize>
    ensures { result ≡ said_at said.now place }
{
    match said.get(place) {
        Some(number) => *number,
        None => None,
    }
}

/// The number that is said of a clause, and selection's where none is.
fn number_for<B: Bank>(bank: &B, clause: &Clause, said: Option<usize>) -> usize
    requires { IsNormalIn (B.trees bank.now) clause.now }
    ensures { result ≡ number_for (clause_at (B.trees bank.now) clause.now) said }
{
    match said {
        Some(number) => number,
        None => selected_number(bank, clause),
    }
}

/// The numbers beside clauses by what is said of these, in their order: selection's, where nothing is.
pub fn numbers_for<B: Bank>(
    alloc: Global,
    bank: &B,
    clauses: &[Clause],
    said: &[Option<usize>],
) -> Result<Vec<usize>, AllocError>
    requires { AreNormalIn (B.trees bank.now) clauses.now }
    ensures { IfOk result (λ numbers. numbers.items ≡
        numbers_for (clauses_at (B.trees bank.now) clauses.now) said.now) }
{
    let mut numbers = Vec::with_capacity(alloc, clauses.len())?;
    'each: for (k, clause) in clauses.iter().enumerate() {
        numbers.push(number_for(bank, clause, said_of(said, k)))?;
    }
    Ok(numbers)
}
