//! The norms of a raw clause's flat parts: what a raw clause gives to a list of clauses.
#![tactic(auto)]

ghost use Rattle.std.specs.Prelude.{◌≡◌, List, [], ◌∷◌, ◌++◌, map, filter_map, IfOk, OnOk, OnErr};
ghost use Rattle.spec_terms.specs.Term.{Term};
ghost use Rattle.spec_clauses.specs.Fact.{Clause as ClauseOf};
ghost use Rattle.spec_clauses.specs.Norm.{norm as norm_of, norms};
ghost use Rattle.term_tree.specs.Bank.{Grows};
ghost use Rattle.clause_form.specs.Fit.{AreLowWithinLimit};
ghost use Rattle.clause_form.specs.Seen.{clause_at, IsClauseIn, AreClausesIn, NameClauses};

use clause_form::{Clause, Clauses, Normal, flatten, norm};
use std::alloc::{AllocError, Global};
use term_tree::Bank;

/// Adds the norm of a clause, if it has one. On `Err` the bank may have grown.
fn add_norm<B: Bank>(
    alloc: Global,
    bank: &mut B,
    part: Clause,
    made: &mut Clauses,
) -> Result<(), AllocError>
    requires { IsClauseIn (B.trees bank.old) part }
    ensures grows { Grows (B.trees bank.old) (B.trees bank.new) }
    ensures names { OnOk result ((before : List (ClauseOf Term)) → NameClauses (B.trees bank.old)
        made.old before → NameClauses (B.trees bank.new) made.new
        (before ++ filter_map norm_of (clause_at (B.trees bank.old) part ∷ []))) }
    ensures low { OnOk result (AreClausesIn (B.trees bank.old) made.old →
        AreLowWithinLimit (B.trees bank.old) made.old →
        AreLowWithinLimit (B.trees bank.new) made.new) }
{
    match norm(alloc, bank, part)? {
        Normal::Tautology => Ok(()),
        Normal::Clause(clause) => {
            made.items.push(clause)?;
            Ok(())
        }
    }
}

/// The norms of clauses in order, tautologies left out. On `Err` the bank may have grown.
fn norms_of_all<B: Bank>(alloc: Global, bank: &mut B, parts: Clauses) -> Result<Clauses, AllocError>
    requires { AreClausesIn (B.trees bank.old) parts }
    ensures grows { Grows (B.trees bank.old) (B.trees bank.new) }
    ensures names { IfOk result (λ made. NameClauses (B.trees bank.new) made
        (filter_map norm_of (map (clause_at (B.trees bank.old)) parts))) }
    ensures low { IfOk result (λ made. AreLowWithinLimit (B.trees bank.new) made) }
{
    let mut made = Clauses {
        items: Vec::new(alloc),
    };
    for part in parts.items {
        add_norm(alloc, bank, part, &mut made)?;
    }
    Ok(made)
}

/// The norms of a clause's flat parts in order, tautologies left out.
///
/// `Err` comes for want of memory, and where a part with constraints has 2 ^ 32 variables; then the bank is as before.
pub fn norms_of<B: Bank>(
    alloc: Global,
    bank: &mut B,
    clause: &Clause,
) -> Result<Clauses, AllocError>
    requires { IsClauseIn (B.trees bank.old) clause.now }
    ensures grows { Grows (B.trees bank.old) (B.trees bank.new) }
    ensures names { IfOk result (λ made. NameClauses (B.trees bank.new) made
        (norms (clause_at (B.trees bank.old) clause.now))) }
    ensures low { IfOk result (λ made. AreLowWithinLimit (B.trees bank.new) made) }
    ensures err { OnErr result (B.trees bank.new ≡ B.trees bank.old) }
{
    let parts = flatten(alloc, bank, clause)?;
    let mark = bank.mark();
    match norms_of_all(alloc, bank, parts) {
        Ok(made) => Ok(made),
        Err(error) => {
            bank.back(mark);
            Err(error)
        }
    }
}
