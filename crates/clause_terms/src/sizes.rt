//! Sizes of terms where a process is visited, told without making the terms.

ghost use Rattle.std.specs.Prelude.{◌≡◌, ℕ, ◌+◌, map};
ghost use Rattle.spec_trees.specs.Tree.{size};
ghost use Rattle.spec_calculus.specs.Syntax.{Protocol};
ghost use Rattle.spec_clauses.specs.Fact.{total};
ghost use Rattle.spec_translation.specs.Conversion as translation;
ghost use Rattle.term_tree.specs.Bank.{capped};
ghost use Rattle.pi_tree.specs.Terms.{term_of};
ghost use Rattle.pi_tree.specs.Slots.{name_of};
ghost use Rattle.clause_terms.specs.Scopes.{scope_at, IsScopeIn};

use crate::scopes::Scope;
use pi_tree::{Slot, Term, Terms};
use term_tree::{Bank, SIZE_LIMIT};

/// So many symbols more, as they are told.
fn add_symbols(symbols: u64, more: u64) -> u64
    ensures { (m n : ℕ) → symbols ≡ capped m → more ≡ capped n → result ≡ capped (m + n) }
{
    symbols.saturating_add(more).min(SIZE_LIMIT)
}

/// The size of the term that a slot stands for.
fn bound_size<B: Bank>(bank: &B, scope: &Scope, slot: Slot) -> u64
    requires { IsScopeIn (B.trees bank.now) scope.now }
    ensures { result ≡ capped (size (translation.leaf_term (scope_at (B.trees bank.now) scope.now)
        (name_of slot))) }
{
    match scope.find(slot) {
        Some(id) => bank.size(id),
        None => 1,
    }
}

/// The size of a term where it is visited, or `SIZE_LIMIT` where it is greater. Takes no memory.
#[cycle(size)]
pub fn size_in<B: Bank>(bank: &B, scope: &Scope, term: &Term) -> u64
    requires { IsScopeIn (B.trees bank.now) scope.now }
    ensures { (P : Protocol) → result ≡ capped (size (translation.term_in P
        (scope_at (B.trees bank.now) scope.now) (term_of term.now))) }
{
    match term {
        Term::Var(number) => bound_size(bank, scope, Slot::Var(*number)),
        Term::Made(point) => bound_size(bank, scope, Slot::Made(*point)),
        Term::Free(_) => 1,
        Term::App(_, arguments) => add_symbols(1, sizes_in(bank, scope, arguments)),
        Term::Tuple(parts) => add_symbols(1, sizes_in(bank, scope, parts)),
    }
}

/// The sizes of terms together.
#[cycle(size)]
fn sizes_in<B: Bank>(bank: &B, scope: &Scope, terms: &Terms) -> u64
    requires { IsScopeIn (B.trees bank.now) scope.now }
    ensures { (P : Protocol) → result ≡ capped (total size
        (map (translation.term_in P (scope_at (B.trees bank.now) scope.now)) terms.now)) }
{
    let mut symbols = 0u64;
    for term in &terms.items {
        symbols = add_symbols(symbols, size_in(bank, scope, term));
    }
    symbols
}
