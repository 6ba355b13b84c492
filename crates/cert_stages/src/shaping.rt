//! The clauses of a certificate in a bank, and their shape.

ghost use Rattle.std.specs.Prelude.{◌≡◌, ◌↔◌, IsTrue, IfOk};
ghost use Rattle.spec_certificates.specs.Certificate.{HasArguments};
ghost use Rattle.term_tree.specs.Bank.{Grows};
ghost use Rattle.clause_form.specs.Facts.{fact_of};
ghost use Rattle.clause_form.specs.Seen.{fact_at, clause_at, IsClauseIn, AreClausesIn, NameClauses};
ghost use Rattle.cert_stages.specs.Answers.{numbered_at};
ghost use Rattle.cert_stages.specs.Stages.{HasShape};
ghost use Rattle.cert_stages.specs.Shaping.{AreShaped};

use cert_form::PlainClauses;
use clause_form::{Clause, Clauses, Fact, copy_into, is_normal, size_of};
use pi_tree::MOST_SYMBOLS;
use std::alloc::{AllocError, Global};
use term_tree::Bank;

/// Whether the fact has so many arguments, if it is `bad`.
fn has_arguments<B: Bank>(bank: &B, fact: &Fact, arguments: usize) -> bool
    ensures { IsTrue result ↔
        HasArguments arguments (fact_at (B.trees bank.now) (fact_of fact.now)) }
{
    match fact {
        Fact::Bad(terms) => terms.items.len() == arguments,
        Fact::Att(..) | Fact::Mess(..) | Fact::Tab(..) | Fact::Ev(..) | Fact::Mev(..) => true,
    }
}

/// Whether a clause has the shape of a certificate's, for a query whose `bad` has so many arguments.
fn is_shaped<B: Bank>(
    alloc: Global,
    bank: &B,
    clause: &Clause,
    arguments: usize,
) -> Result<bool, AllocError>
    requires { IsClauseIn (B.trees bank.now) clause.now }
    ensures { IfOk result (λ yes. IsTrue yes ↔
        HasShape arguments (clause_at (B.trees bank.now) clause.now)) }
{
    if size_of(bank, clause) > MOST_SYMBOLS {
        return Ok(false);
    }
    if !is_normal(alloc, bank, clause)? {
        return Ok(false);
    }
    Ok(has_arguments(bank, &clause.concl, arguments))
}

/// The number, from 1, of the first clause that hasn't the shape of a certificate's, for a query whose `bad` has so many
/// arguments. Takes memory only for clauses with constraints.
pub fn first_misshapen<B: Bank>(
    alloc: Global,
    bank: &B,
    clauses: &[Clause],
    arguments: usize,
) -> Result<Option<u64>, AllocError>
    requires { AreClausesIn (B.trees bank.now) clauses.now }
    ensures { IfOk result (AreShaped arguments (numbered_at (B.trees bank.now) clauses.now)) }
{
    'each: for (k, clause) in clauses.iter().enumerate() {
        if !is_shaped(alloc, bank, clause, arguments)? {
            return Ok(Some(k as u64 + 1));
        }
    }
    Ok(None)
}

/// The clauses of a certificate, copied into the bank. On `Err` the bank may have grown.
pub fn copied<B: Bank>(
    alloc: Global,
    bank: &mut B,
    clauses: &PlainClauses,
) -> Result<Clauses, AllocError>
    ensures grows { Grows (B.trees bank.old) (B.trees bank.new) }
    ensures names { IfOk result (λ made. NameClauses (B.trees bank.new) made clauses.now) }
{
    let mut items = Vec::new(alloc);
    'each: for (k, plain) in clauses.items.iter().enumerate() {
        let clause = copy_into(alloc, bank, plain)?;
        items.push(clause)?;
    }
    Ok(Clauses { items })
}
