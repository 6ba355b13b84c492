//! Clauses read out of a bank, and lists that share them.

ghost use Rattle.std.specs.Prelude.{◌≡◌, ◌++◌, length, map, IfOk, OnOk};
ghost use Rattle.clause_form.specs.Seen.{clause_at, AreClausesIn};

use crate::certs::PlainClauses;
use clause_form::{Clause, read_out};
use std::alloc::{AllocError, Global};
use std::rc::Rc;
use term_tree::Bank;

/// Puts the clauses over trees that clauses over ids stand for behind others.
///
/// `Err` is want of memory. Nothing is said of the clauses then.
pub fn read_behind<B: Bank>(
    alloc: Global,
    bank: &B,
    clauses: &[Clause],
    plain: &mut PlainClauses,
) -> Result<(), AllocError>
    requires { AreClausesIn (B.trees bank.now) clauses.now }
    ensures { OnOk result
        (plain.new ≡ plain.old ++ map (clause_at (B.trees bank.now)) clauses.now) }
{
    'each: for clause in clauses {
        let read = read_out(alloc, bank, clause)?;
        let held = Rc::new(alloc, read)?;
        plain.items.push(held)?;
    }
    Ok(())
}

/// The clauses over trees that clauses over ids stand for.
///
/// `Err` is want of memory.
pub fn read_clauses<B: Bank>(
    alloc: Global,
    bank: &B,
    clauses: &[Clause],
) -> Result<PlainClauses, AllocError>
    requires { AreClausesIn (B.trees bank.now) clauses.now }
    ensures { IfOk result (λ plain. plain ≡ map (clause_at (B.trees bank.now)) clauses.now) }
{
    let mut plain = PlainClauses {
        items: Vec::new(alloc),
    };
    read_behind(alloc, bank, clauses, &mut plain)?;
    Ok(plain)
}

/// The same clauses in a list of its own, which shares them.
///
/// `Err` is want of memory.
pub fn share_clauses(alloc: Global, clauses: &PlainClauses) -> Result<PlainClauses, AllocError>
    ensures { IfOk result (λ shared. shared ≡ clauses.now) }
{
    let mut items = Vec::with_capacity(alloc, clauses.items.len())?;
    'each: for clause in &clauses.items {
        let held = clause.clone()?;
        items.push(held)?;
    }
    Ok(PlainClauses { items })
}

/// How many clauses there are.
pub fn count_clauses(clauses: &PlainClauses) -> usize
    ensures { result ≡ length clauses.now }
{
    clauses.items.len()
}
