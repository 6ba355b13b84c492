//! An unsolved clause whose variables are set apart from those of all solved clauses, by one offset.

ghost use Rattle.std.specs.Prelude.{◌≡◌, ℕ, ◌<◌, ◌≤◌, ◌++◌, ◌+◌, length, map, take, drop, IfOk, OnErr};
ghost use Rattle.spec_trees.specs.Tree.{bind};
ghost use Rattle.spec_terms.specs.Unifier.{moved};
ghost use Rattle.spec_calculus.specs.Bounds.{most_symbols};
ghost use Rattle.spec_clauses.specs.Diff.{diff_under};
ghost use Rattle.spec_clauses.specs.Fact.{fact_under, clause_under};
ghost use Rattle.term_tree.specs.Bank.{tree_at, Grows};
ghost use Rattle.clause_diffs.specs.Diffs.{diff_at, diffs_at, IsDiffIn, AreDiffsIn, AreDiffLeavesBelow, NameTerms, NamesDiff, NameDiffs};
ghost use Rattle.clause_form.specs.Facts.{fact_of};
ghost use Rattle.clause_form.specs.Fit.{HasLowVariables};
ghost use Rattle.clause_form.specs.Seen.{fact_at, clause_at, IsClauseIn, NamesFact, NameFacts, NamesClause};
ghost use Rattle.clause_resolve.specs.Low.{AreLow, IsLowFact, AreLowFacts, AreDiffsBelow, bound_from, AreBelowBound};
ghost use Rattle.spec_derivations.specs.Choice.{at_place};
ghost use Rattle.clause_resolve.specs.Apart.{IsSelectedAt, IsHypothesisAt, IsApartOf, IsApart};

use clause_diffs::{Diff, Diffs, Ids};
use clause_form::{Clause, Fact, Facts};
use limits::MOST_SYMBOLS;
use std::alloc::{AllocError, Global};
use term_tree::{Bank, Id};
use unify_match::shifted;

/// The number from which on variables are numbered that are set apart: the limit of size, since a clause
/// that is its own norm has variables below its size.
const OFFSET: u32 = MOST_SYMBOLS as u32;

/// An unsolved clause set apart: its selected hypothesis, and the clause of the others and the conclusion.
#[derive(Drop)]
pub struct Apart {
    pub selected: Fact,
    pub rest: Clause,
}

/// The terms set apart. On `Err` the bank may have grown.
fn shifted_terms<B: Bank>(alloc: Global, bank: &mut B, terms: &[Id]) -> Result<Ids, AllocError>
    requires { AreLow (B.trees bank.old) terms.now }
    ensures grows { Grows (B.trees bank.old) (B.trees bank.new) }
    ensures names { IfOk result (λ made. NameTerms (B.trees bank.new) made
        (map (bind (moved most_symbols)) (map (tree_at (B.trees bank.old)) terms.now))) }
{
    let mut items = Vec::with_capacity(alloc, terms.len())?;
    'each: for term in terms {
        let next = shifted(alloc, bank, *term, OFFSET)?;
        items.push(next)?;
    }
    Ok(Ids { items })
}

/// A fact set apart. On `Err` the bank may have grown.
fn shifted_fact<B: Bank>(alloc: Global, bank: &mut B, fact: &Fact) -> Result<Fact, AllocError>
    requires { IsLowFact (B.trees bank.old) (fact_of fact.now) }
    ensures grows { Grows (B.trees bank.old) (B.trees bank.new) }
    ensures names { IfOk result (λ made. NamesFact (B.trees bank.new) (fact_of made)
        (fact_under (moved most_symbols) (fact_at (B.trees bank.old) (fact_of fact.now)))) }
{
    if let Fact::Att(phase, term) = fact {
        let made = shifted(alloc, bank, *term, OFFSET)?;
        return Ok(Fact::Att(*phase, made));
    }
    let terms = fact.terms();
    let made = shifted_terms(alloc, bank, terms.as_slice())?;
    Ok(Fact::made_of(fact.head(), made))
}

/// The facts set apart. On `Err` the bank may have grown.
fn shifted_facts<B: Bank>(alloc: Global, bank: &mut B, facts: &[Fact]) -> Result<Facts, AllocError>
    requires { AreLowFacts (B.trees bank.old) (map fact_of facts.now) }
    ensures grows { Grows (B.trees bank.old) (B.trees bank.new) }
    ensures names { IfOk result (λ made. NameFacts (B.trees bank.new) made
        (map (fact_under (moved most_symbols))
        (map (fact_at (B.trees bank.old)) (map fact_of facts.now)))) }
{
    let mut items = Vec::with_capacity(alloc, facts.len())?;
    'each: for fact in facts {
        let next = shifted_fact(alloc, bank, fact)?;
        items.push(next)?;
    }
    Ok(Facts { items })
}

/// The facts but the one at a place, set apart. On `Err` the bank may have grown.
fn shifted_others<B: Bank>(
    alloc: Global,
    bank: &mut B,
    facts: &[Fact],
    at: usize,
) -> Result<Facts, AllocError>
    requires facts { AreLowFacts (B.trees bank.old) (map fact_of facts.now) }
    requires at { at < length facts.now }
    ensures grows { Grows (B.trees bank.old) (B.trees bank.new) }
    ensures names { let trees = map (fact_at (B.trees bank.old)) (map fact_of facts.now) in
        IfOk result (λ made. NameFacts (B.trees bank.new) made
        (map (fact_under (moved most_symbols)) (take at trees ++ drop (at + 1) trees))) }
{
    let mut made = shifted_facts(alloc, bank, &facts[..at])?;
    let mut later = shifted_facts(alloc, bank, &facts[at + 1..])?;
    made.items.append(&mut later.items)?;
    Ok(made)
}

/// The number from which on a constraint that is set apart binds variables, where its variables are below the limit of
/// size.
fn raised(first: u32) -> u32
    ensures own { (x : ℕ) → x < most_symbols → x < first → x + most_symbols < result }
    ensures bound { (x : ℕ) → x < most_symbols → first ≤ x → result ≡ first + most_symbols }
{
    first.saturating_add(OFFSET)
}

/// A constraint set apart, with the variables that it binds. On `Err` the bank may have grown.
fn shifted_diff<B: Bank>(alloc: Global, bank: &mut B, diff: &Diff) -> Result<Diff, AllocError>
    requires known { IsDiffIn (B.trees bank.old) diff.now }
    requires low { AreDiffLeavesBelow most_symbols (B.trees bank.old) diff.now }
    ensures grows { Grows (B.trees bank.old) (B.trees bank.new) }
    ensures names { IfOk result (λ made. NamesDiff (B.trees bank.new) made
        (diff_under (moved most_symbols) (diff_at (B.trees bank.old) diff.now))) }
    ensures low { IfOk result (λ made. AreDiffLeavesBelow bound_from (B.trees bank.new) made) }
{
    let left = shifted_terms(alloc, bank, &diff.left.items)?;
    let right = shifted_terms(alloc, bank, &diff.right.items)?;
    Ok(Diff {
        first: raised(diff.first),
        left,
        right,
    })
}

/// The constraints set apart. On `Err` the bank may have grown.
fn shifted_diffs<B: Bank>(alloc: Global, bank: &mut B, diffs: &[Diff]) -> Result<Diffs, AllocError>
    requires known { AreDiffsIn (B.trees bank.old) diffs.now }
    requires low { AreDiffsBelow most_symbols (B.trees bank.old) diffs.now }
    ensures grows { Grows (B.trees bank.old) (B.trees bank.new) }
    ensures names { IfOk result (λ made. NameDiffs (B.trees bank.new) made
        (map (diff_under (moved most_symbols)) (diffs_at (B.trees bank.old) diffs.now))) }
    ensures low { IfOk result (λ made. AreDiffsBelow bound_from (B.trees bank.new) made) }
{
    let mut items = Vec::with_capacity(alloc, diffs.len())?;
    'each: for diff in diffs {
        let next = shifted_diff(alloc, bank, diff)?;
        items.push(next)?;
    }
    Ok(Diffs { items })
}

/// The clause with the hypothesis at a place, set apart. On `Err` the bank may have grown.
fn shifted_clause<B: Bank>(
    alloc: Global,
    bank: &mut B,
    unsolved: &Clause,
    at: usize,
) -> Result<Apart, AllocError>
    requires known { IsClauseIn (B.trees bank.old) unsolved.now }
    requires low { HasLowVariables (B.trees bank.old) unsolved.now }
    requires there { IsHypothesisAt (clause_at (B.trees bank.old) unsolved.now) at }
    ensures grows { Grows (B.trees bank.old) (B.trees bank.new) }
    ensures apart { let c = clause_at (B.trees bank.old) unsolved.now in
        IfOk result (λ made. IsApartOf (at_place c.hypotheses at) (B.trees bank.new) c made) }
{
    let facts = unsolved.hyps.items.as_slice();
    let selected = shifted_fact(alloc, bank, &facts[at])?;
    let hyps = shifted_others(alloc, bank, facts, at)?;
    let diffs = shifted_diffs(alloc, bank, &unsolved.diffs.items)?;
    let concl = shifted_fact(alloc, bank, &unsolved.concl)?;
    Ok(Apart {
        selected,
        rest: Clause { hyps, diffs, concl },
    })
}

/// A clause with all its variables set apart from those of clauses whose variables are below the limit of size. On `Err`
/// the bank may have grown.
pub(crate) fn moved_clause<B: Bank>(
    alloc: Global,
    bank: &mut B,
    clause: &Clause,
) -> Result<Clause, AllocError>
    requires known { IsClauseIn (B.trees bank.old) clause.now }
    requires low { HasLowVariables (B.trees bank.old) clause.now }
    ensures grows { Grows (B.trees bank.old) (B.trees bank.new) }
    ensures names { IfOk result (λ made. NamesClause (B.trees bank.new) made
        (clause_under (moved most_symbols) (clause_at (B.trees bank.old) clause.now))) }
    ensures low { IfOk result (λ made.
        AreBelowBound (B.trees bank.new) made.conclusion made.diffs) }
{
    let hyps = shifted_facts(alloc, bank, &clause.hyps.items)?;
    let diffs = shifted_diffs(alloc, bank, &clause.diffs.items)?;
    let concl = shifted_fact(alloc, bank, &clause.concl)?;
    Ok(Clause { hyps, diffs, concl })
}

/// A clause with its hypothesis at a place, set apart from all clauses with variables below the limit of size, as
/// those have that are their own norms within it.
///
/// `Err` comes only for want of memory; then the bank is as before.
pub(crate) fn set_apart_at<B: Bank>(
    alloc: Global,
    bank: &mut B,
    unsolved: &Clause,
    at: usize,
) -> Result<Apart, AllocError>
    requires known { IsClauseIn (B.trees bank.old) unsolved.now }
    requires low { HasLowVariables (B.trees bank.old) unsolved.now }
    requires there { IsHypothesisAt (clause_at (B.trees bank.old) unsolved.now) at }
    ensures grows { Grows (B.trees bank.old) (B.trees bank.new) }
    ensures apart { let c = clause_at (B.trees bank.old) unsolved.now in
        IfOk result (λ made. IsApartOf (at_place c.hypotheses at) (B.trees bank.new) c made) }
    ensures err { OnErr result (B.trees bank.new ≡ B.trees bank.old) }
{
    let mark = bank.mark();
    match shifted_clause(alloc, bank, unsolved, at) {
        Ok(made) => Ok(made),
        Err(error) => {
            bank.back(mark);
            Err(error)
        }
    }
}

/// An unsolved clause, whose hypothesis at `at` is selected, set apart from all clauses with variables
/// below the limit of size, as those have that are their own norms within it.
///
/// `Err` comes only for want of memory; then the bank is as before.
pub fn set_apart<B: Bank>(
    alloc: Global,
    bank: &mut B,
    unsolved: &Clause,
    at: usize,
) -> Result<Apart, AllocError>
    requires known { IsClauseIn (B.trees bank.old) unsolved.now }
    requires low { HasLowVariables (B.trees bank.old) unsolved.now }
    requires selected { IsSelectedAt (clause_at (B.trees bank.old) unsolved.now) at }
    ensures grows { Grows (B.trees bank.old) (B.trees bank.new) }
    ensures apart { IfOk result (λ made. IsApart (B.trees bank.new)
        (clause_at (B.trees bank.old) unsolved.now) made) }
    ensures err { OnErr result (B.trees bank.new ≡ B.trees bank.old) }
{
    set_apart_at(alloc, bank, unsolved, at)
}
