//! Clauses over ids as clauses over trees, their constraints as those of a text are read: the variables that a constraint binds are
//! numbered from the least number above all variables of the clause itself.

ghost use Rattle.std.specs.Prelude.{◌≡◌, ℕ, ◌<◌, ◌≤◌, max, map, flat_map, IfOk};
ghost use Rattle.std.specs.List.{AllByRecursion};
ghost use Rattle.spec_clauses.specs.Diff.{diff_variables};
ghost use Rattle.spec_clauses.specs.Variables.{all_terms, AreBelow};
ghost use Rattle.clause_diffs.specs.Diffs.{diffs_at, AreDiffsIn};
ghost use Rattle.clause_form.specs.Bounds.{above};
ghost use Rattle.clause_form.specs.Seen.{clause_at, IsClauseIn, AreClausesIn};

use cert_form::{PlainClauses, bound_from};
use clause_diffs::own_variables;
use clause_form::{Clause, Diff, PlainClause, PlainDiff, PlainDiffs, above_variables, read_out};
use std::alloc::{AllocError, Global};
use std::rc::Rc;
use term_tree::Bank;

/// The greater of a number and the least number above others.
fn above_numbers(numbers: &[u32], least: u64) -> u64
    ensures { result ≡ max least (above numbers.now) }
{
    let mut found = least;
    for number in numbers {
        found = found.max(u64::from(*number) + 1);
    }
    found
}

/// The greater of a number and the least number above the clause's variables in constraints.
fn above_own<B: Bank>(
    alloc: Global,
    bank: &B,
    diffs: &[Diff],
    least: u64,
) -> Result<u64, AllocError>
    requires { AreDiffsIn (B.trees bank.now) diffs.now }
    ensures { IfOk result (λ found. found ≡ max least
        (above (flat_map diff_variables (diffs_at (B.trees bank.now) diffs.now)))) }
{
    let mut found = least;
    for diff in diffs {
        let own = own_variables(alloc, bank, diff)?;
        found = above_numbers(&own, found);
    }
    Ok(found)
}

/// The least number above all variables of the clause itself.
///
/// `Err` comes for want of memory, and where it is past 32 bits.
fn above_clause<B: Bank>(alloc: Global, bank: &B, clause: &Clause) -> Result<u32, AllocError>
    requires { IsClauseIn (B.trees bank.now) clause.now }
    ensures below { IfOk result (λ next.
        AreBelow next (all_terms (clause_at (B.trees bank.now) clause.now))) }
    ensures least { IfOk result (λ next. (n : ℕ) →
        AreBelow n (all_terms (clause_at (B.trees bank.now) clause.now)) → next ≤ n) }
{
    let facts = above_variables(bank, clause);
    let all = above_own(alloc, bank, &clause.diffs.items, facts)?;
    match u32::try_from(all) {
        Ok(next) => Ok(next),
        Err(_) => Err(AllocError),
    }
}

/// The constraint, with its bound variables from a number on that is above the clause's.
fn bound_behind(alloc: Global, diff: &PlainDiff, next: u32) -> Result<PlainDiff, AllocError>
    requires { AllByRecursion (λ x. x < next) (diff_variables diff.now) }
    ensures { IfOk result (λ made. made ≡ diff.now) }
{
    let sides = bound_from(alloc, diff, next)?;
    Ok(PlainDiff {
        first: next,
        left: sides.left,
        right: sides.right,
    })
}

/// The same of constraints.
fn all_bound_behind(alloc: Global, diffs: &PlainDiffs, next: u32) -> Result<PlainDiffs, AllocError>
    requires { AllByRecursion (λ d. AllByRecursion (λ x. x < next) (diff_variables d)) diffs.now }
    ensures { IfOk result (λ made. made ≡ diffs.now) }
{
    let mut items = Vec::with_capacity(alloc, diffs.items.len())?;
    'each: for diff in &diffs.items {
        let made = bound_behind(alloc, diff, next)?;
        items.push(made)?;
    }
    Ok(PlainDiffs { items })
}

/// The clause over trees that a clause over ids stands for.
fn spelled<B: Bank>(alloc: Global, bank: &B, clause: &Clause) -> Result<PlainClause, AllocError>
    requires { IsClauseIn (B.trees bank.now) clause.now }
    ensures { IfOk result (λ plain. plain ≡ clause_at (B.trees bank.now) clause.now) }
{
    if clause.diffs.items.is_empty() {
        return read_out(alloc, bank, clause);
    }
    let next = above_clause(alloc, bank, clause)?;
    let mut read = read_out(alloc, bank, clause)?;
    read.diffs = all_bound_behind(alloc, &read.diffs, next)?;
    Ok(read)
}

/// The clauses over trees that clauses over ids stand for.
///
/// `Err` comes for want of memory, and where the least number above a clause's variables is past 32 bits.
pub(crate) fn spelled_clauses<B: Bank>(
    alloc: Global,
    bank: &B,
    clauses: &[Clause],
) -> Result<PlainClauses, AllocError>
    requires { AreClausesIn (B.trees bank.now) clauses.now }
    ensures { IfOk result (λ plain. plain ≡ map (clause_at (B.trees bank.now)) clauses.now) }
{
    let mut items = Vec::with_capacity(alloc, clauses.len())?;
    'each: for clause in clauses {
        let read = spelled(alloc, bank, clause)?;
        let held = Rc::new(alloc, read)?;
        items.push(held)?;
    }
    Ok(PlainClauses { items })
}
