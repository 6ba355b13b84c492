//! Resolution of a solved clause with an unsolved one, on its selected hypothesis (Blanchet 2001, section 4;
//! resolution with free selection, Bachmair and Ganzinger 2001).

ghost use Rattle.std.specs.Prelude.{◌≡◌, ◌<◌, ◌++◌, true, false, nat_lt, Option, length};
ghost use Rattle.std.specs.Prelude.{IfOk, OnErr, MatchResult};
ghost use Rattle.std.specs.List.{remove};
ghost use Rattle.spec_terms.specs.Binding.{resolved};
ghost use Rattle.spec_clauses.specs.Fact.{Clause as ClauseOf, clause_size, clause_under};
ghost use Rattle.spec_clauses.specs.Selection.{Selection};
ghost use Rattle.spec_clauses.specs.Norm.{norms};
ghost use Rattle.spec_clauses.specs.Limits.{is_large_raw, IsWithinLimit};
ghost use Rattle.spec_terms.specs.Term.{Term};
ghost use Rattle.term_tree.specs.Bank.{Grows, capped};
ghost use Rattle.unify_match.specs.Seen.{seen, IsReady};
ghost use Rattle.clause_form.specs.Fit.{HasLowVariables, AreLowWithinLimit};
ghost use Rattle.clause_form.specs.Seen.{clause_at, IsClauseIn, NameClauses};
ghost use Rattle.clause_resolve.specs.Stops.{StopsAt};
ghost use Rattle.clause_resolve.specs.Joining.{together, without, IsFoundOf};
ghost use Rattle.clause_resolve.specs.Low.{bound_from, AreDiffsBelow, AreBelowBound, KeepsBelow};
ghost use Rattle.clause_resolve.specs.Apart.{IsSelectedAt, IsHypothesisAt, IsApartIn};
ghost use Rattle.clause_resolve.specs.Apart.{IsApartOf, IsMoved};
ghost use Rattle.clause_resolve.specs.Answers.{IsAnswerFor, IsAnswerAt, IsAnswerOf};
ghost use Rattle.clause_resolve.specs.Answers.{LeavesBank, AreFoundLow};

use crate::apart::{Apart, moved_clause, set_apart_at};
use crate::applying::applied_clause;
use crate::clash::clash;
use crate::meeting::unify_facts;
use crate::parts::some_part_large;
use crate::stop::Stop;
use clause_diffs::Diffs;
use clause_form::{Clause, Clauses, Facts, size_of};
use clause_norms::norms_of;
use std::alloc::{AllocError, Global};
use term_tree::Bank;
use unify_match::Binds;

/// What a pair of clauses gives.
#[derive(Drop)]
pub enum Resolved {
    /// The solved clause's conclusion and the selected hypothesis have no unifier.
    NoUnifier,
    /// The raw resolvent, or a flat part of it, has more symbols than the limit.
    Large,
    /// The norms of the raw resolvent's flat parts, in order, tautologies left out.
    Clauses(Clauses),
}

/// The norms of the flat parts of a raw clause within the limit of size, unless one of the parts is over it. On
/// `Err` the bank may have grown.
fn resolvents_of<B: Bank>(alloc: Global, bank: &mut B, raw: &Clause) -> Result<Clauses, Stop>
    requires known { IsClauseIn (B.trees bank.old) raw.now }
    requires small { IsWithinLimit (clause_at (B.trees bank.old) raw.now) }
    ensures grows { Grows (B.trees bank.old) (B.trees bank.new) }
    ensures outcome { let tree = clause_at (B.trees bank.old) raw.now in
        MatchResult result
        (λ made. (is_large_raw tree ≡ false) × NameClauses (B.trees bank.new) made (norms tree))
        (λ stop. StopsAt stop (is_large_raw tree ≡ true)) }
    ensures low { IfOk result (λ made. AreLowWithinLimit (B.trees bank.new) made) }
{
    if some_part_large(bank, raw) {
        return Err(Stop::Large);
    }
    let made = norms_of(alloc, bank, raw)?;
    Ok(made)
}

/// The resolvents of a clause under a unifier. On `Err` the bank may have grown.
fn resolvents_under<B: Bank>(
    alloc: Global,
    bank: &mut B,
    binds: &Binds,
    joined: &Clause,
) -> Result<Clauses, Stop>
    requires known { IsClauseIn (B.trees bank.old) joined.now }
    requires ready { IsReady (B.trees bank.old) binds.now.pairs }
    requires low { AreDiffsBelow bound_from (B.trees bank.old) joined.now.diffs }
    requires kept { KeepsBelow bound_from
        (resolved (seen (B.trees bank.old) binds.now.pairs)) }
    ensures grows { Grows (B.trees bank.old) (B.trees bank.new) }
    ensures outcome { let raw = clause_under (resolved (seen (B.trees bank.old) binds.now.pairs))
        (clause_at (B.trees bank.old) joined.now) in
        MatchResult result
        (λ made. (is_large_raw raw ≡ false) × NameClauses (B.trees bank.new) made (norms raw))
        (λ stop. StopsAt stop (is_large_raw raw ≡ true)) }
    ensures low { IfOk result (λ made. AreLowWithinLimit (B.trees bank.new) made) }
{
    let raw = applied_clause(alloc, bank, binds, joined)?;
    resolvents_of(alloc, bank, &raw)
}

/// The same, with the bank taken back where there are none.
fn found_under<B: Bank>(
    alloc: Global,
    bank: &mut B,
    binds: &Binds,
    joined: &Clause,
) -> Result<Resolved, AllocError>
    requires known { IsClauseIn (B.trees bank.old) joined.now }
    requires ready { IsReady (B.trees bank.old) binds.now.pairs }
    requires low { AreDiffsBelow bound_from (B.trees bank.old) joined.now.diffs }
    requires kept { KeepsBelow bound_from
        (resolved (seen (B.trees bank.old) binds.now.pairs)) }
    ensures grows { Grows (B.trees bank.old) (B.trees bank.new) }
    ensures found { IfOk result (λ found. IsFoundOf (B.trees bank.new)
        (clause_under (resolved (seen (B.trees bank.old) binds.now.pairs))
        (clause_at (B.trees bank.old) joined.now)) found) }
    ensures low { IfOk result (λ found. AreFoundLow (B.trees bank.new) found) }
    ensures as_before { IfOk result
        (λ found. LeavesBank (B.trees bank.old) (B.trees bank.new) found) }
    ensures err { OnErr result (B.trees bank.new ≡ B.trees bank.old) }
{
    let mark = bank.mark();
    match resolvents_under(alloc, bank, binds, joined) {
        Ok(made) => Ok(Resolved::Clauses(made)),
        Err(Stop::Large) => {
            bank.back(mark);
            Ok(Resolved::Large)
        }
        Err(Stop::Memory(error)) => {
            bank.back(mark);
            Err(error)
        }
    }
}

/// The constraints of two clauses.
fn both_diffs(alloc: Global, first: &Diffs, second: &Diffs) -> Result<Diffs, AllocError>
    ensures { IfOk result (λ made. made ≡ first.now ++ second.now) }
{
    let mut diffs = first.copy(alloc)?;
    let mut others = second.copy(alloc)?;
    diffs.items.append(&mut others.items)?;
    Ok(diffs)
}

/// The hypotheses and the constraints of two clauses, and the second one's conclusion.
pub(crate) fn joined(alloc: Global, solved: &Clause, rest: &Clause) -> Result<Clause, AllocError>
    ensures { IfOk result (λ made. made ≡ together solved.now rest.now) }
{
    let mut hyps = solved.hyps.copy(alloc)?;
    let mut others = rest.hyps.copy(alloc)?;
    hyps.items.append(&mut others.items)?;
    let diffs = both_diffs(alloc, &solved.diffs, &rest.diffs)?;
    let concl = rest.concl.copy(alloc)?;
    Ok(Clause { hyps, diffs, concl })
}

/// The same as `resolvents_at`, with an unsolved clause that was set apart, in this bank or before it grew: so it is
/// set apart once for many solved clauses.
///
/// `Err` comes only for want of memory; then, and where there are no clauses, the bank is as before.
pub fn resolve_apart<B: Bank>(
    alloc: Global,
    bank: &mut B,
    solved: &Clause,
    apart: &Apart,
) -> Result<Resolved, AllocError>
    requires solved { IsClauseIn (B.trees bank.old) solved.now }
    requires solved_low { HasLowVariables (B.trees bank.old) solved.now }
    requires apart { IsApartIn (B.trees bank.old) apart.now }
    ensures grows { Grows (B.trees bank.old) (B.trees bank.new) }
    ensures answer { (chosen : Option Selection) (unsolved : ClauseOf Term) →
        IsApartOf chosen (B.trees bank.old) unsolved apart.now →
        IfOk result (λ found. IsAnswerFor chosen (B.trees bank.new)
        (clause_at (B.trees bank.old) solved.now) unsolved found) }
    ensures low { IfOk result (λ found. AreFoundLow (B.trees bank.new) found) }
    ensures as_before { IfOk result
        (λ found. LeavesBank (B.trees bank.old) (B.trees bank.new) found) }
    ensures err { OnErr result (B.trees bank.new ≡ B.trees bank.old) }
{
    if clash(bank, &solved.concl, &apart.selected) {
        return Ok(Resolved::NoUnifier);
    }
    let mut binds = Binds::new(alloc)?;
    if !unify_facts(bank, &solved.concl, &apart.selected, &mut binds)? {
        return Ok(Resolved::NoUnifier);
    }
    let clause = joined(alloc, solved, &apart.rest)?;
    found_under(alloc, bank, &binds, &clause)
}

/// The facts but the one at a place.
#[tactic(auto, using(crate::proofs::Removing::removed))]
fn without_fact(alloc: Global, facts: &Facts, at: usize) -> Result<Facts, AllocError>
    requires { at < length facts.now }
    ensures { IfOk result (λ made. made ≡ remove facts.now at) }
{
    let mut made = facts.copy(alloc)?;
    let _ = made.items.remove(at);
    Ok(made)
}

/// The hypotheses of a clause, and those of another but the one at `at`, with the constraints of both and that one's
/// conclusion.
fn joined_without(
    alloc: Global,
    moved: &Clause,
    unsolved: &Clause,
    at: usize,
) -> Result<Clause, AllocError>
    requires { at < length unsolved.now.hypotheses }
    ensures { IfOk result (λ made. made ≡ together moved.now (without at unsolved.now)) }
{
    let mut hyps = moved.hyps.copy(alloc)?;
    let mut others = without_fact(alloc, &unsolved.hyps, at)?;
    hyps.items.append(&mut others.items)?;
    let diffs = both_diffs(alloc, &moved.diffs, &unsolved.diffs)?;
    let concl = unsolved.concl.copy(alloc)?;
    Ok(Clause { hyps, diffs, concl })
}

/// The answer of a pair whose solved clause was set apart as a whole. Where there are no clauses the bank may have grown.
fn resolve_moved<B: Bank>(
    alloc: Global,
    bank: &mut B,
    moved: &Clause,
    unsolved: &Clause,
    at: usize,
) -> Result<Resolved, AllocError>
    requires moved { IsClauseIn (B.trees bank.old) moved.now }
    requires moved_low { AreBelowBound (B.trees bank.old) moved.now.conclusion moved.now.diffs }
    requires unsolved { IsClauseIn (B.trees bank.old) unsolved.now }
    requires unsolved_low { HasLowVariables (B.trees bank.old) unsolved.now }
    requires there { IsHypothesisAt (clause_at (B.trees bank.old) unsolved.now) at }
    ensures grows { Grows (B.trees bank.old) (B.trees bank.new) }
    ensures answer { (solved : ClauseOf Term) → IsMoved (B.trees bank.old) solved moved.now →
        IfOk result (λ found. IsAnswerAt at (B.trees bank.new) solved
        (clause_at (B.trees bank.old) unsolved.now) found) }
    ensures low { IfOk result (λ found. AreFoundLow (B.trees bank.new) found) }
{
    let mut binds = Binds::new(alloc)?;
    let facts = unsolved.hyps.items.as_slice();
    if !unify_facts(bank, &moved.concl, &facts[at], &mut binds)? {
        return Ok(Resolved::NoUnifier);
    }
    let clause = joined_without(alloc, moved, unsolved, at)?;
    found_under(alloc, bank, &binds, &clause)
}

/// Whether the first of two clauses has fewer symbols. Takes no memory.
fn is_smaller<B: Bank>(bank: &B, first: &Clause, second: &Clause) -> bool
    requires first { IsClauseIn (B.trees bank.now) first.now }
    requires second { IsClauseIn (B.trees bank.now) second.now }
    ensures { result ≡ nat_lt (capped (clause_size (clause_at (B.trees bank.now) first.now)))
        (capped (clause_size (clause_at (B.trees bank.now) second.now))) }
{
    size_of(bank, first) < size_of(bank, second)
}

/// The answer of a pair, anew: the smaller one of its clauses is set apart. Where there are no clauses the bank may have
/// grown.
fn resolvents_grown<B: Bank>(
    alloc: Global,
    bank: &mut B,
    solved: &Clause,
    unsolved: &Clause,
    at: usize,
) -> Result<Resolved, AllocError>
    requires solved { IsClauseIn (B.trees bank.old) solved.now }
    requires solved_low { HasLowVariables (B.trees bank.old) solved.now }
    requires unsolved { IsClauseIn (B.trees bank.old) unsolved.now }
    requires unsolved_low { HasLowVariables (B.trees bank.old) unsolved.now }
    requires there { IsHypothesisAt (clause_at (B.trees bank.old) unsolved.now) at }
    ensures grows { Grows (B.trees bank.old) (B.trees bank.new) }
    ensures answer { IfOk result (λ found. IsAnswerAt at (B.trees bank.new)
        (clause_at (B.trees bank.old) solved.now)
        (clause_at (B.trees bank.old) unsolved.now) found) }
    ensures low { IfOk result (λ found. AreFoundLow (B.trees bank.new) found) }
{
    if is_smaller(bank, solved, unsolved) {
        let moved = moved_clause(alloc, bank, solved)?;
        return resolve_moved(alloc, bank, &moved, unsolved, at);
    }
    let apart = set_apart_at(alloc, bank, unsolved, at)?;
    resolve_apart(alloc, bank, solved, &apart)
}

/// The resolvents of a clause with another on its hypothesis at `at`, whichever that is, or that the facts have no
/// unifier, or that the pair is large. Where predicates, events or roots of terms differ, it takes no memory.
///
/// `Err` comes only for want of memory; then, and where there are no clauses, the bank is as before.
pub fn resolvents_at<B: Bank>(
    alloc: Global,
    bank: &mut B,
    solved: &Clause,
    unsolved: &Clause,
    at: usize,
) -> Result<Resolved, AllocError>
    requires solved { IsClauseIn (B.trees bank.old) solved.now }
    requires solved_low { HasLowVariables (B.trees bank.old) solved.now }
    requires unsolved { IsClauseIn (B.trees bank.old) unsolved.now }
    requires unsolved_low { HasLowVariables (B.trees bank.old) unsolved.now }
    requires there { IsHypothesisAt (clause_at (B.trees bank.old) unsolved.now) at }
    ensures grows { Grows (B.trees bank.old) (B.trees bank.new) }
    ensures answer { IfOk result (λ found. IsAnswerAt at (B.trees bank.new)
        (clause_at (B.trees bank.old) solved.now)
        (clause_at (B.trees bank.old) unsolved.now) found) }
    ensures low { IfOk result (λ found. AreFoundLow (B.trees bank.new) found) }
    ensures as_before { IfOk result
        (λ found. LeavesBank (B.trees bank.old) (B.trees bank.new) found) }
    ensures err { OnErr result (B.trees bank.new ≡ B.trees bank.old) }
{
    let facts = unsolved.hyps.items.as_slice();
    if clash(bank, &solved.concl, &facts[at]) {
        return Ok(Resolved::NoUnifier);
    }
    let mark = bank.mark();
    match resolvents_grown(alloc, bank, solved, unsolved, at) {
        Ok(Resolved::Clauses(made)) => Ok(Resolved::Clauses(made)),
        Ok(Resolved::NoUnifier) => {
            bank.back(mark);
            Ok(Resolved::NoUnifier)
        }
        Ok(Resolved::Large) => {
            bank.back(mark);
            Ok(Resolved::Large)
        }
        Err(error) => {
            bank.back(mark);
            Err(error)
        }
    }
}

/// The resolvents of a solved clause with an unsolved one whose hypothesis at `at` is selected: the same as
/// `resolvents_at`.
pub fn resolvents<B: Bank>(
    alloc: Global,
    bank: &mut B,
    solved: &Clause,
    unsolved: &Clause,
    at: usize,
) -> Result<Resolved, AllocError>
    requires solved { IsClauseIn (B.trees bank.old) solved.now }
    requires solved_low { HasLowVariables (B.trees bank.old) solved.now }
    requires unsolved { IsClauseIn (B.trees bank.old) unsolved.now }
    requires unsolved_low { HasLowVariables (B.trees bank.old) unsolved.now }
    requires selected { IsSelectedAt (clause_at (B.trees bank.old) unsolved.now) at }
    ensures grows { Grows (B.trees bank.old) (B.trees bank.new) }
    ensures answer { IfOk result (λ found. IsAnswerOf (B.trees bank.new)
        (clause_at (B.trees bank.old) solved.now)
        (clause_at (B.trees bank.old) unsolved.now) found) }
    ensures low { IfOk result (λ found. AreFoundLow (B.trees bank.new) found) }
    ensures as_before { IfOk result
        (λ found. LeavesBank (B.trees bank.old) (B.trees bank.new) found) }
    ensures err { OnErr result (B.trees bank.new ≡ B.trees bank.old) }
{
    resolvents_at(alloc, bank, solved, unsolved, at)
}
