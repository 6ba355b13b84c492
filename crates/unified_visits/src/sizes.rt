//! Visits that are too large.

ghost use Rattle.std.specs.Prelude.{◌≡◌, ◌<◌, not, nat_le, length, map};
ghost use Rattle.std.specs.List.{list_any};
ghost use Rattle.spec_calculus.specs.Bounds.{most_symbols};
ghost use Rattle.spec_clauses.specs.Fact.{fact_size};
ghost use Rattle.spec_translation.specs.Visit as translation;
ghost use Rattle.clause_form.specs.Facts.{fact_of};
ghost use Rattle.term_tree.specs.Bank.{tree_at};
ghost use Rattle.clause_form.specs.Seen.{fact_at, IsFactIn, AreFactsIn};
ghost use Rattle.clause_terms.specs.Scopes.{scope_at, IsScopeIn};
ghost use Rattle.clause_terms.specs.Slots.{held_of};
ghost use Rattle.unified_visits.specs.Visits.{visit_at, IsVisitIn};

use crate::visit::Visit;
use clause_form::{Fact, size_of_fact};
use clause_terms::Standing;
use pi_tree::MOST_SYMBOLS;
use term_tree::{Bank, Id};

/// Whether the term that the id names has more symbols than the limit.
fn is_over<B: Bank>(bank: &B, id: Id) -> bool
    requires { id.index < length (B.trees bank.now) }
    ensures { result ≡ translation.is_large_term (tree_at (B.trees bank.now) id) }
{
    bank.size(id) > MOST_SYMBOLS
}

/// Whether what a leaf stands for in the scope has.
fn is_large_scope<B: Bank>(bank: &B, scope: &[Standing]) -> bool
    requires { IsScopeIn (B.trees bank.now) (map held_of scope.now) }
    ensures { result ≡ list_any (λ b. translation.is_large_term b.term)
        (scope_at (B.trees bank.now) (map held_of scope.now)) }
{
    for standing in scope {
        if is_over(bank, standing.term) {
            return true;
        }
    }
    false
}

/// Whether the fact has.
fn is_large_fact<B: Bank>(bank: &B, fact: &Fact) -> bool
    requires { IsFactIn (B.trees bank.now) (fact_of fact.now) }
    ensures { result ≡ not (nat_le (fact_size (fact_at (B.trees bank.now) (fact_of fact.now)))
        most_symbols) }
{
    size_of_fact(bank, fact) > MOST_SYMBOLS
}

/// Whether one of the facts has.
fn some_large_fact<B: Bank>(bank: &B, facts: &[Fact]) -> bool
    requires { AreFactsIn (B.trees bank.now) (map fact_of facts.now) }
    ensures { result ≡ list_any (λ h. not (nat_le (fact_size h) most_symbols))
        (map (fact_at (B.trees bank.now)) (map fact_of facts.now)) }
{
    for fact in facts {
        if is_large_fact(bank, fact) {
            return true;
        }
    }
    false
}

/// Whether a term of the scope or a hypothesis of the visit has.
pub fn is_large_visit<B: Bank>(bank: &B, visit: &Visit) -> bool
    requires { IsVisitIn (B.trees bank.now) visit.now }
    ensures { result ≡ translation.is_large_visit (visit_at (B.trees bank.now) visit.now) }
{
    is_large_scope(bank, &visit.scope.items) || some_large_fact(bank, &visit.hypotheses.items)
}
