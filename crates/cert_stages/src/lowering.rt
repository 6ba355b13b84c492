//! The clauses of a certificate with variables of low numbers. A certificate may number the variables that its constraints bind from
//! any number on; resolution wants them low.

ghost use Rattle.std.specs.Prelude.{◌≡◌, ◌↔◌, IsTrue, true, length, IfOk};
ghost use Rattle.spec_clauses.specs.Norm.{IsNormal};
ghost use Rattle.term_tree.specs.Bank.{Grows};
ghost use Rattle.clause_form.specs.Fit.{IsLowWithinLimit, AreLowWithinLimit, clauses_at};
ghost use Rattle.clause_form.specs.Seen.{clause_at, IsClauseIn, NamesClause, NameClauses};
ghost use Rattle.cert_stages.specs.Lowering.{AreNormalIn, AreUnconstrained};

use clause_form::{Clause, Clauses, Normal, norm};
use std::alloc::{AllocError, Global};
use term_tree::Bank;

/// Whether a clause has no constraints.
fn is_unconstrained(clause: &Clause) -> bool
    ensures { IsTrue result ↔ (length clause.now.diffs ≡ 0) }
{
    clause.diffs.items.len() == 0
}

/// Whether no clause has constraints.
pub fn are_unconstrained(clauses: &[Clause]) -> bool
    ensures { result ≡ true → AreUnconstrained clauses.now }
{
    'each: for clause in clauses {
        if !is_unconstrained(clause) {
            return false;
        }
    }
    true
}

/// A clause that is its own norm, with variables of low numbers. On `Err` the bank may have grown.
fn low_clause<B: Bank>(alloc: Global, bank: &mut B, clause: &Clause) -> Result<Clause, AllocError>
    requires known { IsClauseIn (B.trees bank.old) clause.now }
    requires normal { IsNormal (clause_at (B.trees bank.old) clause.now) }
    ensures grows { Grows (B.trees bank.old) (B.trees bank.new) }
    ensures names { IfOk result (λ made. NamesClause (B.trees bank.new) made
        (clause_at (B.trees bank.old) clause.now)) }
    ensures low { IfOk result (λ made. IsLowWithinLimit (B.trees bank.new) made) }
{
    let copied = clause.copy(alloc)?;
    match norm(alloc, bank, copied)? {
        Normal::Tautology => unreachable!(),
        Normal::Clause(made) => Ok(made),
    }
}

/// The same of clauses, in order. On `Err` the bank may have grown.
pub fn low_clauses<B: Bank>(
    alloc: Global,
    bank: &mut B,
    clauses: &[Clause],
) -> Result<Clauses, AllocError>
    requires { AreNormalIn (B.trees bank.old) clauses.now }
    ensures grows { Grows (B.trees bank.old) (B.trees bank.new) }
    ensures names { IfOk result (λ made. NameClauses (B.trees bank.new) made
        (clauses_at (B.trees bank.old) clauses.now)) }
    ensures low { IfOk result (λ made. AreLowWithinLimit (B.trees bank.new) made) }
{
    let mut items = Vec::new(alloc);
    'each: for clause in clauses {
        let made = low_clause(alloc, bank, clause)?;
        items.push(made)?;
    }
    Ok(Clauses { items })
}
