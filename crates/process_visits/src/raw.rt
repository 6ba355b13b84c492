//! Raw clauses: they are counted before their norms are made.

ghost use Rattle.std.specs.Prelude.{◌≡◌, map, IfOk};
ghost use Rattle.std.specs.List.{list_any};
ghost use Rattle.spec_clauses.specs.Limits.{is_large_clause, is_large_raw};
ghost use Rattle.clause_form.specs.Seen.{clause_at, IsClauseIn, AreClausesIn};

use clause_form::{Clause, Clauses, flatten, size_of};
use pi_tree::MOST_SYMBOLS;
use std::alloc::{AllocError, Global};
use term_tree::Bank;

/// Whether the clause has more symbols than the limit.
fn is_large_clause<B: Bank>(bank: &B, clause: &Clause) -> bool
    requires { IsClauseIn (B.trees bank.now) clause.now }
    ensures { result ≡ is_large_clause (clause_at (B.trees bank.now) clause.now) }
{
    size_of(bank, clause) > MOST_SYMBOLS
}

/// Whether one of the clauses has.
fn some_large_clause<B: Bank>(bank: &B, clauses: &Clauses) -> bool
    requires { AreClausesIn (B.trees bank.now) clauses.now }
    ensures { result ≡ list_any is_large_clause (map (clause_at (B.trees bank.now)) clauses.now) }
{
    for clause in &clauses.items {
        if is_large_clause(bank, clause) {
            return true;
        }
    }
    false
}

/// Whether the clause or a flat part of it has.
pub fn is_large_raw<B: Bank>(alloc: Global, bank: &B, clause: &Clause) -> Result<bool, AllocError>
    requires { IsClauseIn (B.trees bank.now) clause.now }
    ensures { IfOk result (λ large. large ≡
        is_large_raw (clause_at (B.trees bank.now) clause.now)) }
{
    if is_large_clause(bank, clause) {
        return Ok(true);
    }
    let parts = flatten(alloc, bank, clause)?;
    Ok(some_large_clause(bank, &parts))
}
