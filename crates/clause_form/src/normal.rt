//! The norm of a clause (Blanchet 2016, section 3.3.1: elimination of duplicate hypotheses, of tautologies and
//! of useless hypotheses).

ghost use Rattle.std.specs.Prelude.{◌≡◌, ◌&&◌, not, cond, [], ◌∷◌, ◌++◌, filter, map, IfOk, OnOk, OnErr};
ghost use Rattle.std.specs.List.{list_any, list_all};
ghost use Rattle.spec_clauses.specs.Fact.{is_variable_known as is_variable_known_fact};
ghost use Rattle.spec_clauses.specs.Limits.{IsWithinLimit};
ghost use Rattle.spec_clauses.specs.Selection.{is_solved};
ghost use Rattle.spec_clauses.specs.Variables.{fact_variables, firm_variables};
ghost use Rattle.spec_clauses.specs.Norm.{norm as norm_of, numbered_anew, generalized};
ghost use Rattle.spec_clauses.specs.Norm.{is_lonely as is_lonely_fact, is_known as is_known_fact, is_passed_on as is_passed_on_fact};
ghost use Rattle.term_tree.specs.Bank.{Grows};
ghost use Rattle.clause_diffs.specs.Diffs.{AreDiffsIn};
ghost use Rattle.clause_form.specs.Facts.{fact_of, clause_of};
ghost use Rattle.clause_form.specs.Fit.{HasLowVariables};
ghost use Rattle.clause_form.specs.Normals.{NamesNorm, IfClause, AreOwn, BindAfter, simplest, needed_norm, kept_numbers};
ghost use Rattle.clause_form.specs.Seen.{fact_at, clause_at, IsFactIn, AreFactsIn, IsClauseIn, NameFacts, NamesClause};

use crate::anchors::needed_of;
use crate::facts::{Clause, Fact, Facts};
use crate::renumbering::numbered_clause;
use crate::repeats::without_repeats;
use crate::same::is_among;
use crate::selectable::{are_solved, is_variable_known};
use crate::standing::stands_in_hypotheses;
use crate::variables::{variables_elsewhere, variables_of};
use clause_diffs::{Counts, Diff, Diffs, is_void};
use std::alloc::{AllocError, Global};
use term_tree::{Bank, Node};

/// The norm of a clause, if it has one.
#[derive(Drop)]
pub enum Normal {
    /// The conclusion is among the hypotheses, or no substitution meets a constraint.
    Tautology,
    Clause(Clause),
}

/// Whether the fact is `att` of a variable that isn't among these numbers.
fn is_lonely<B: Bank>(bank: &B, numbers: &Counts, fact: &Fact) -> bool
    requires { IsFactIn (B.trees bank.now) (fact_of fact.now) }
    ensures { result ≡ is_lonely_fact numbers.now (fact_at (B.trees bank.now) (fact_of fact.now)) }
{
    match fact {
        Fact::Att(_, term) => match bank.node(*term) {
            Node::Var(number) => !numbers.has(number),
            Node::App(_, _) => false,
        },
        _ => false,
    }
}

/// Adds a copy of a fact, unless it is `att` of a variable that isn't among these numbers.
fn add_unless_lonely<B: Bank>(
    alloc: Global,
    bank: &B,
    numbers: &Counts,
    facts: &mut Facts,
    fact: &Fact,
) -> Result<(), AllocError>
    requires { IsFactIn (B.trees bank.now) (fact_of fact.now) }
    ensures { OnOk result (facts.new ≡ facts.old ++ cond
        (is_lonely_fact numbers.now (fact_at (B.trees bank.now) (fact_of fact.now))) []
        (fact_of fact.now ∷ [])) }
{
    if is_lonely(bank, numbers, fact) {
        return Ok(());
    }
    let copied = fact.copy(alloc)?;
    facts.push(copied)?;
    Ok(())
}

/// Copies of the facts but those `att` of a variable that isn't among these numbers.
fn each_shared<B: Bank>(
    alloc: Global,
    bank: &B,
    numbers: &Counts,
    facts: &[Fact],
) -> Result<Facts, AllocError>
    requires { AreFactsIn (B.trees bank.now) (map fact_of facts.now) }
    ensures { IfOk result (λ kept. NameFacts (B.trees bank.now) kept
        (filter (λ h. not (is_lonely_fact numbers.now h))
        (map (fact_at (B.trees bank.now)) (map fact_of facts.now)))) }
{
    let mut kept = Facts::new(alloc);
    for fact in facts {
        add_unless_lonely(alloc, bank, numbers, &mut kept, fact)?;
    }
    Ok(kept)
}

/// Whether none of the facts is `att` of a variable that isn't among these numbers.
fn none_lonely<B: Bank>(bank: &B, numbers: &Counts, facts: &[Fact]) -> bool
    requires { AreFactsIn (B.trees bank.now) (map fact_of facts.now) }
    ensures { result ≡ list_all (λ h. not (is_lonely_fact numbers.now h))
        (map (fact_at (B.trees bank.now)) (map fact_of facts.now)) }
{
    for fact in facts {
        if is_lonely(bank, numbers, fact) {
            return false;
        }
    }
    true
}

/// The facts but those `att` of a variable that isn't among these numbers.
fn without_lonely<B: Bank>(
    alloc: Global,
    bank: &B,
    numbers: &Counts,
    facts: Facts,
) -> Result<Facts, AllocError>
    requires { AreFactsIn (B.trees bank.now) facts }
    ensures { IfOk result (λ kept. NameFacts (B.trees bank.now) kept
        (filter (λ h. not (is_lonely_fact numbers.now h))
        (map (fact_at (B.trees bank.now)) facts))) }
{
    if none_lonely(bank, numbers, &facts.items) {
        return Ok(facts);
    }
    each_shared(alloc, bank, numbers, &facts.items)
}

/// The hypotheses but those `att` of a variable that stands in such hypotheses alone, of whatever phases.
fn shared_hypotheses<B: Bank>(
    alloc: Global,
    bank: &B,
    concl: &Fact,
    hyps: Facts,
) -> Result<Facts, AllocError>
    requires concl { IsFactIn (B.trees bank.now) (fact_of concl.now) }
    requires hyps { AreFactsIn (B.trees bank.now) hyps }
    ensures { let trees = map (fact_at (B.trees bank.now)) hyps in
        let variables = fact_variables
        (fact_at (B.trees bank.now) (fact_of concl.now)) ++ firm_variables trees in
        IfOk result (λ kept. NameFacts (B.trees bank.now) kept
        (filter (λ h. not (is_lonely_fact variables h)) trees)) }
{
    let occurring = variables_elsewhere(alloc, bank, concl, &hyps.items)?;
    let numbers = Counts::new(alloc, occurring)?;
    without_lonely(alloc, bank, &numbers, hyps)
}

/// The variables of the facts that the norm of a flat clause keeps, each as often as it occurs there; those of its conclusion where
/// the norm says that the attacker has everything. By their first occurrence they have the norm's numbers.
pub fn kept_variables<B: Bank>(
    alloc: Global,
    bank: &B,
    clause: &Clause,
) -> Result<Vec<u32>, AllocError>
    requires { IsClauseIn (B.trees bank.now) clause.now }
    ensures { IfOk result (λ numbers. numbers.items ≡
        kept_numbers (simplest (clause_at (B.trees bank.now) clause.now))) }
{
    let copied = clause.hyps.copy(alloc)?;
    let kept = without_repeats(alloc, bank, copied)?;
    let few = shared_hypotheses(alloc, bank, &clause.concl, kept)?;
    if is_general(bank, &clause.concl, &few.items) {
        return variables_of(alloc, bank, &clause.concl, &[]);
    }
    variables_of(alloc, bank, &clause.concl, &few.items)
}

/// Whether the fact is `att` of a variable, of whatever phase.
fn is_known<B: Bank>(bank: &B, number: u32, fact: &Fact) -> bool
    requires { IsFactIn (B.trees bank.now) (fact_of fact.now) }
    ensures { result ≡ is_known_fact number (fact_at (B.trees bank.now) (fact_of fact.now)) }
{
    match fact {
        Fact::Att(_, term) => match bank.node(*term) {
            Node::Var(known) => number == known,
            Node::App(_, _) => false,
        },
        _ => false,
    }
}

/// Whether one of the facts is.
fn is_known_among<B: Bank>(bank: &B, number: u32, facts: &[Fact]) -> bool
    requires { AreFactsIn (B.trees bank.now) (map fact_of facts.now) }
    ensures { result ≡ list_any (is_known_fact number) (map (fact_at (B.trees bank.now))
        (map fact_of facts.now)) }
{
    for fact in facts {
        if is_known(bank, number, fact) {
            return true;
        }
    }
    false
}

/// Whether the conclusion is `att` of a variable that stands in hypotheses, and in `att` of it alone.
pub(crate) fn is_passed_on<B: Bank>(bank: &B, concl: &Fact, hyps: &[Fact]) -> bool
    requires concl { IsFactIn (B.trees bank.now) (fact_of concl.now) }
    requires hyps { AreFactsIn (B.trees bank.now) (map fact_of hyps.now) }
    ensures { result ≡ is_passed_on_fact (map (fact_at (B.trees bank.now)) (map fact_of hyps.now))
        (fact_at (B.trees bank.now) (fact_of concl.now)) }
{
    match concl {
        Fact::Att(_, term) => match bank.node(*term) {
            Node::Var(number) => {
                is_known_among(bank, number, hyps) && !stands_in_hypotheses(bank, number, hyps)
            }
            Node::App(_, _) => false,
        },
        _ => false,
    }
}

/// Whether the clause is solved and concludes `att` of a variable that isn't only passed on.
pub(crate) fn is_general<B: Bank>(bank: &B, concl: &Fact, hyps: &[Fact]) -> bool
    requires concl { IsFactIn (B.trees bank.now) (fact_of concl.now) }
    requires hyps { AreFactsIn (B.trees bank.now) (map fact_of hyps.now) }
    ensures { let facts = map (fact_at (B.trees bank.now)) (map fact_of hyps.now) in
        let concluded = fact_at (B.trees bank.now) (fact_of concl.now) in
        result ≡ ((is_solved facts && is_variable_known_fact concluded) &&
        not (is_passed_on_fact facts concluded)) }
{
    are_solved(bank, hyps) && is_variable_known(bank, concl) && !is_passed_on(bank, concl, hyps)
}

/// The clause, or the one that says that the attacker has everything where this one does, with its
/// variables numbered. On `Err` the bank may have grown.
fn generalized_clause<B: Bank>(
    alloc: Global,
    bank: &mut B,
    concl: &Fact,
    hyps: &[Fact],
    diffs: &[Diff],
) -> Result<Clause, AllocError>
    requires concl { IsFactIn (B.trees bank.old) (fact_of concl.now) }
    requires hyps { AreFactsIn (B.trees bank.old) (map fact_of hyps.now) }
    requires diffs { AreDiffsIn (B.trees bank.old) diffs.now }
    requires own { AreOwn (clause_at (B.trees bank.old)
        (clause_of concl.now hyps.now diffs.now)) }
    ensures grows { Grows (B.trees bank.old) (B.trees bank.new) }
    ensures names { IfOk result (λ made. NamesClause (B.trees bank.new) made
        (numbered_anew (generalized (clause_at (B.trees bank.old)
        (clause_of concl.now hyps.now diffs.now))))) }
    ensures first { IfOk result (λ made. BindAfter (B.trees bank.new) made) }
{
    if is_general(bank, concl, hyps) {
        return numbered_clause(alloc, bank, concl, &[], &[]);
    }
    numbered_clause(alloc, bank, concl, hyps, diffs)
}

/// The norm of the clause with this conclusion, these hypotheses and these constraints, where all of them are needed and
/// some substitution meets each. On `Err` the bank may have grown.
fn norm_of_needed<B: Bank>(
    alloc: Global,
    bank: &mut B,
    concl: &Fact,
    hyps: Facts,
    diffs: &[Diff],
) -> Result<Normal, AllocError>
    requires concl { IsFactIn (B.trees bank.old) (fact_of concl.now) }
    requires hyps { AreFactsIn (B.trees bank.old) hyps }
    requires diffs { AreDiffsIn (B.trees bank.old) diffs.now }
    requires own { AreOwn (simplest (clause_at (B.trees bank.old) record {
      hypotheses = hyps;
      diffs = diffs.now;
      conclusion = fact_of concl.now;
    })) }
    ensures grows { Grows (B.trees bank.old) (B.trees bank.new) }
    ensures names { IfOk result (λ normal. NamesNorm (B.trees bank.new) normal
        (needed_norm (clause_at (B.trees bank.old) record {
          hypotheses = hyps;
          diffs = diffs.now;
          conclusion = fact_of concl.now;
        }))) }
    ensures first { IfOk result (λ normal. IfClause normal (BindAfter (B.trees bank.new))) }
{
    let kept = without_repeats(alloc, bank, hyps)?;
    if is_among(bank, &kept.items, concl) {
        return Ok(Normal::Tautology);
    }
    let few = shared_hypotheses(alloc, bank, concl, kept)?;
    let made = generalized_clause(alloc, bank, concl, &few.items, diffs)?;
    Ok(Normal::Clause(made))
}

/// The norm of the clause with this conclusion, these hypotheses and these constraints. On `Err` the bank may have grown.
fn norm_grown<B: Bank>(
    alloc: Global,
    bank: &mut B,
    concl: &Fact,
    hyps: Facts,
    diffs: &Diffs,
) -> Result<Normal, AllocError>
    requires concl { IsFactIn (B.trees bank.old) (fact_of concl.now) }
    requires hyps { AreFactsIn (B.trees bank.old) hyps }
    requires diffs { AreDiffsIn (B.trees bank.old) diffs.now }
    ensures grows { Grows (B.trees bank.old) (B.trees bank.new) }
    ensures names { IfOk result (λ normal. NamesNorm (B.trees bank.new) normal
        (norm_of (clause_at (B.trees bank.old) record {
          hypotheses = hyps;
          diffs = diffs.now;
          conclusion = fact_of concl.now;
        }))) }
    ensures low { IfOk result (λ normal. IfClause normal (λ made.
        IsWithinLimit (clause_at (B.trees bank.new) made) →
        HasLowVariables (B.trees bank.new) made)) }
{
    if is_void(alloc, bank, &diffs.items)? {
        return Ok(Normal::Tautology);
    }
    let few = needed_of(alloc, bank, concl, &hyps.items, &diffs.items)?;
    norm_of_needed(alloc, bank, concl, hyps, &few.items)
}

/// The norm of a clause: constraints that say nothing are dropped, then equal hypotheses but the first, then those that
/// say only that the attacker has something, and variables are numbered by their first occurrence. A term that isn't
/// renumbered keeps its id.
///
/// `Err` comes for want of memory, and where a clause with constraints has 2 ^ 32 variables; then the bank is as before.
pub fn norm<B: Bank>(alloc: Global, bank: &mut B, clause: Clause) -> Result<Normal, AllocError>
    requires { IsClauseIn (B.trees bank.old) clause }
    ensures grows { Grows (B.trees bank.old) (B.trees bank.new) }
    ensures names { IfOk result (λ normal. NamesNorm (B.trees bank.new) normal
        (norm_of (clause_at (B.trees bank.old) clause))) }
    ensures low { IfOk result (λ normal. IfClause normal (λ made.
        IsWithinLimit (clause_at (B.trees bank.new) made) →
        HasLowVariables (B.trees bank.new) made)) }
    ensures err { OnErr result (B.trees bank.new ≡ B.trees bank.old) }
{
    let mark = bank.mark();
    let (hyps, diffs, concl) = clause.apart();
    match norm_grown(alloc, bank, &concl, hyps, &diffs) {
        Ok(normal) => Ok(normal),
        Err(error) => {
            bank.back(mark);
            Err(error)
        }
    }
}
