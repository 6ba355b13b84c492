//! Clauses under the bindings of a unifier, as long as they are within the limit of size: what is left of the
//! limit is counted before each term is built.

ghost use Rattle.std.specs.Prelude.{◌≡◌, ◌+◌, ◌<◌, ◌≤◌, map, MatchResult};
ghost use Rattle.spec_trees.specs.Tree.{bind, size};
ghost use Rattle.spec_terms.specs.Binding.{resolved};
ghost use Rattle.spec_calculus.specs.Bounds.{most_symbols};
ghost use Rattle.spec_clauses.specs.Fact.{total, fact_size, clause_size, fact_under, clause_under};
ghost use Rattle.spec_clauses.specs.Limits.{IsWithinLimit};
ghost use Rattle.term_tree.specs.Bank.{tree_at, AreKnown, Grows};
ghost use Rattle.unify_match.specs.Seen.{seen, IsReady};
ghost use Rattle.clause_diffs.specs.Diffs.{NameTerms};
ghost use Rattle.clause_form.specs.Facts.{fact_of};
ghost use Rattle.clause_form.specs.Seen.{fact_at, clause_at, IsFactIn, AreFactsIn, IsClauseIn, NamesFact, NameFacts, NamesClause};
ghost use Rattle.clause_resolve.specs.Low.{bound_from, AreDiffsBelow, KeepsBelow};
ghost use Rattle.clause_resolve.specs.Stops.{StopsAt};

use crate::lifting::applied_diffs;
use crate::spending::{applied, spend};
use crate::stop::Stop;
use clause_diffs::Ids;
use clause_form::{Clause, Fact, Facts, head_symbols};
use limits::MOST_SYMBOLS;
use std::alloc::Global;
use term_tree::{Bank, Id};
use unify_match::Binds;

/// The terms under the bindings. On `Err` the bank may have grown.
fn applied_terms<B: Bank>(
    alloc: Global,
    bank: &mut B,
    binds: &Binds,
    terms: &[Id],
    left: &mut u64,
) -> Result<Ids, Stop>
    requires known { AreKnown (B.trees bank.old) terms.now }
    requires ready { IsReady (B.trees bank.old) binds.now.pairs }
    requires small { left.old ≤ most_symbols }
    ensures grows { Grows (B.trees bank.old) (B.trees bank.new) }
    ensures at_most { left.new ≤ left.old }
    ensures outcome { let trees = map (bind (resolved (seen (B.trees bank.old) binds.now.pairs)))
        (map (tree_at (B.trees bank.old)) terms.now) in
        MatchResult result
        (λ made. NameTerms (B.trees bank.new) made trees × (left.new + total size trees ≡ left.old))
        (λ stop. StopsAt stop (left.old < total size trees)) }
{
    let mut items = Vec::with_capacity(alloc, terms.len())?;
    'each: for term in terms {
        let next = applied(bank, binds, *term, left)?;
        items.push(next)?;
    }
    Ok(Ids { items })
}

/// A fact under the bindings. On `Err` the bank may have grown.
fn applied_fact<B: Bank>(
    alloc: Global,
    bank: &mut B,
    binds: &Binds,
    fact: &Fact,
    left: &mut u64,
) -> Result<Fact, Stop>
    requires known { IsFactIn (B.trees bank.old) (fact_of fact.now) }
    requires ready { IsReady (B.trees bank.old) binds.now.pairs }
    requires small { left.old ≤ most_symbols }
    ensures grows { Grows (B.trees bank.old) (B.trees bank.new) }
    ensures at_most { left.new ≤ left.old }
    ensures outcome { let tree = fact_under (resolved (seen (B.trees bank.old) binds.now.pairs))
        (fact_at (B.trees bank.old) (fact_of fact.now)) in
        MatchResult result
        (λ made. NamesFact (B.trees bank.new) (fact_of made) tree ×
        (left.new + fact_size tree ≡ left.old))
        (λ stop. StopsAt stop (left.old < fact_size tree)) }
{
    spend(head_symbols(fact.head()), left)?;
    if let Fact::Att(phase, term) = fact {
        let made = applied(bank, binds, *term, left)?;
        return Ok(Fact::Att(*phase, made));
    }
    let terms = fact.terms();
    let made = applied_terms(alloc, bank, binds, terms.as_slice(), left)?;
    Ok(Fact::made_of(fact.head(), made))
}

/// The facts under the bindings. On `Err` the bank may have grown.
fn applied_facts<B: Bank>(
    alloc: Global,
    bank: &mut B,
    binds: &Binds,
    facts: &[Fact],
    left: &mut u64,
) -> Result<Facts, Stop>
    requires known { AreFactsIn (B.trees bank.old) (map fact_of facts.now) }
    requires ready { IsReady (B.trees bank.old) binds.now.pairs }
    requires small { left.old ≤ most_symbols }
    ensures grows { Grows (B.trees bank.old) (B.trees bank.new) }
    ensures outcome { let trees = map (fact_under
        (resolved (seen (B.trees bank.old) binds.now.pairs)))
        (map (fact_at (B.trees bank.old)) (map fact_of facts.now)) in
        MatchResult result
        (λ made. NameFacts (B.trees bank.new) made trees ×
        (left.new + total fact_size trees ≡ left.old))
        (λ stop. StopsAt stop (left.old < total fact_size trees)) }
{
    let mut items = Vec::with_capacity(alloc, facts.len())?;
    'each: for fact in facts {
        let next = applied_fact(alloc, bank, binds, fact, left)?;
        items.push(next)?;
    }
    Ok(Facts { items })
}

/// The clause under the bindings, unless it has more symbols than the limit. On `Err` the bank may have grown.
pub(crate) fn applied_clause<B: Bank>(
    alloc: Global,
    bank: &mut B,
    binds: &Binds,
    clause: &Clause,
) -> Result<Clause, Stop>
    requires known { IsClauseIn (B.trees bank.old) clause.now }
    requires ready { IsReady (B.trees bank.old) binds.now.pairs }
    requires low { AreDiffsBelow bound_from (B.trees bank.old) clause.now.diffs }
    requires kept { KeepsBelow bound_from
        (resolved (seen (B.trees bank.old) binds.now.pairs)) }
    ensures grows { Grows (B.trees bank.old) (B.trees bank.new) }
    ensures outcome { let tree = clause_under (resolved (seen (B.trees bank.old) binds.now.pairs))
        (clause_at (B.trees bank.old) clause.now) in
        MatchResult result
        (λ made. NamesClause (B.trees bank.new) made tree × IsWithinLimit tree)
        (λ stop. StopsAt stop (most_symbols < clause_size tree)) }
{
    let mut left = MOST_SYMBOLS;
    let concl = applied_fact(alloc, bank, binds, &clause.concl, &mut left)?;
    let hyps = applied_facts(alloc, bank, binds, &clause.hyps.items, &mut left)?;
    let diffs = applied_diffs(alloc, bank, binds, &clause.diffs.items, &mut left)?;
    Ok(Clause { hyps, diffs, concl })
}
