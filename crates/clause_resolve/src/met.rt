//! A solved clause and an unsolved one under their unifier, before the resolvent is normed.

ghost use Rattle.std.specs.Prelude.{◌≡◌, true, false, IfOk, MatchResult};
ghost use Rattle.spec_terms.specs.Binding.{resolved};
ghost use Rattle.spec_terms.specs.Term.{Term};
ghost use Rattle.spec_clauses.specs.Fact.{Clause as ClauseOf, clause_under};
ghost use Rattle.spec_clauses.specs.Limits.{is_large_raw, IsWithinLimit};
ghost use Rattle.term_tree.specs.Bank.{Grows};
ghost use Rattle.unify_match.specs.Seen.{seen, IsReady};
ghost use Rattle.clause_form.specs.Fit.{HasLowVariables};
ghost use Rattle.clause_form.specs.Seen.{clause_at, IsClauseIn, NamesClause};
ghost use Rattle.clause_resolve.specs.Apart.{IsApartIn, IsApart};
ghost use Rattle.clause_resolve.specs.Low.{bound_from, AreDiffsBelow, KeepsBelow};
ghost use Rattle.clause_resolve.specs.Met.{IsMetBy};
ghost use Rattle.clause_resolve.specs.Stops.{StopsAt};

use crate::apart::Apart;
use crate::applying::applied_clause;
use crate::meeting::unify_facts;
use crate::parts::some_part_large;
use crate::resolving::joined;
use crate::stop::Stop;
use clause_form::Clause;
use std::alloc::{AllocError, Global};
use term_tree::Bank;
use unify_match::Binds;

/// A most general unifier of the solved clause's conclusion and the selected hypothesis, and the raw resolvent.
#[derive(Drop)]
pub struct Met {
    pub binds: Binds,
    pub raw: Clause,
}

/// The raw clause, which is within the limit of size, unless one of its flat parts is over it.
fn fitting<B: Bank>(bank: &B, raw: Clause) -> Result<Clause, Stop>
    requires known { IsClauseIn (B.trees bank.now) raw }
    requires small { IsWithinLimit (clause_at (B.trees bank.now) raw) }
    ensures { let tree = clause_at (B.trees bank.now) raw in
        MatchResult result
        (λ made. (is_large_raw tree ≡ false) × NamesClause (B.trees bank.now) made tree)
        (λ stop. StopsAt stop (is_large_raw tree ≡ true)) }
{
    if some_part_large(bank, &raw) {
        return Err(Stop::Large);
    }
    Ok(raw)
}

/// A clause under a unifier, unless it or a flat part of it is over the limit of size. On `Err` the bank may have grown.
fn raw_under<B: Bank>(
    alloc: Global,
    bank: &mut B,
    binds: &Binds,
    joined: &Clause,
) -> Result<Clause, Stop>
    requires known { IsClauseIn (B.trees bank.old) joined.now }
    requires ready { IsReady (B.trees bank.old) binds.now.pairs }
    requires low { AreDiffsBelow bound_from (B.trees bank.old) joined.now.diffs }
    requires kept { KeepsBelow bound_from
        (resolved (seen (B.trees bank.old) binds.now.pairs)) }
    ensures grows { Grows (B.trees bank.old) (B.trees bank.new) }
    ensures outcome { let raw = clause_under (resolved (seen (B.trees bank.old) binds.now.pairs))
        (clause_at (B.trees bank.old) joined.now) in
        MatchResult result
        (λ made. (is_large_raw raw ≡ false) × NamesClause (B.trees bank.new) made raw)
        (λ stop. StopsAt stop (is_large_raw raw ≡ true)) }
{
    let raw = applied_clause(alloc, bank, binds, joined)?;
    fitting(bank, raw)
}

/// What a solved clause and an unsolved one that was set apart become by a most general unifier; none where there is no unifier, or
/// where the raw resolvent or a flat part of it has more symbols than the limit. The bank may have grown.
pub fn meet<B: Bank>(
    alloc: Global,
    bank: &mut B,
    solved: &Clause,
    apart: &Apart,
) -> Result<Option<Met>, AllocError>
    requires solved { IsClauseIn (B.trees bank.old) solved.now }
    requires solved_low { HasLowVariables (B.trees bank.old) solved.now }
    requires apart { IsApartIn (B.trees bank.old) apart.now }
    ensures grows { Grows (B.trees bank.old) (B.trees bank.new) }
    ensures meets { (unsolved : ClauseOf Term) → IsApart (B.trees bank.old) unsolved apart.now →
        IfOk result (λ found. IsMetBy (B.trees bank.new)
        (clause_at (B.trees bank.old) solved.now) unsolved found) }
{
    let mut binds = Binds::new(alloc)?;
    if !unify_facts(bank, &solved.concl, &apart.selected, &mut binds)? {
        return Ok(None);
    }
    let clause = joined(alloc, solved, &apart.rest)?;
    match raw_under(alloc, bank, &binds, &clause) {
        Ok(raw) => Ok(Some(Met { binds, raw })),
        Err(Stop::Large) => Ok(None),
        Err(Stop::Memory(error)) => Err(error),
    }
}
