//! What is counted before it is built: terms and facts over the limit of size.

ghost use Rattle.std.specs.Prelude.{◌≡◌, ◌<◌, ◌++◌};
ghost use Rattle.spec_trees.specs.Tree.{trees};
ghost use Rattle.spec_calculus.specs.Limits.{compared, compared_row};
ghost use Rattle.pi_tree.specs.Terms.{term_of};
ghost use Rattle.spec_trees.specs.Leaves.{leaves, row_leaves};
ghost use Rattle.pi_tree.specs.Patterns.{pattern_of};
ghost use Rattle.pi_tree.specs.Expressions.{expression_of};
ghost use Rattle.spec_translation.specs.Conversion.{term_in};
ghost use Rattle.spec_translation.specs.Visit as translation;
ghost use Rattle.clause_terms.specs.Scopes.{scope_at, IsScopeIn};
ghost use Rattle.unified_visits.specs.Places.{protocol_at};
ghost use Rattle.process_visits.specs.Forms.{are_large_in};

use clause_terms::{Scope, size_in};
use pi_tree::{Expr, Exprs, MOST_SYMBOLS, Pat, Pats, Term, Terms};
use term_tree::Bank;
use unified_visits::place::Place;

/// Whether the term has more symbols than the limit where it is visited.
pub fn is_large_term<B: Bank>(place: &Place<'_>, bank: &B, scope: &Scope, term: &Term) -> bool
    requires { IsScopeIn (B.trees bank.now) scope.now }
    ensures { result ≡ translation.is_large_term
        (term_in (protocol_at place.now) (scope_at (B.trees bank.now) scope.now)
        (term_of term.now)) }
{
    size_in(bank, scope, term) > MOST_SYMBOLS
}

/// Whether one of the terms has.
pub fn some_large_term<B: Bank>(place: &Place<'_>, bank: &B, scope: &Scope, terms: &Terms) -> bool
    requires { IsScopeIn (B.trees bank.now) scope.now }
    ensures { result ≡ are_large_in (protocol_at place.now) (scope_at (B.trees bank.now) scope.now)
        terms.now }
{
    for term in &terms.items {
        if is_large_term(place, bank, scope, term) {
            return true;
        }
    }
    false
}

/// Whether a term with which the pattern compares has.
#[cycle(compared)]
pub fn some_large_compared<B: Bank>(
    place: &Place<'_>,
    bank: &B,
    scope: &Scope,
    pattern: &Pat,
) -> bool
    requires { IsScopeIn (B.trees bank.now) scope.now }
    ensures { result ≡ are_large_in (protocol_at place.now) (scope_at (B.trees bank.now) scope.now)
        (compared (pattern_of pattern.now)) }
{
    match pattern {
        Pat::Bind(_) => false,
        Pat::Equal(term) => is_large_term(place, bank, scope, term),
        Pat::App(_, arguments) => some_large_compared_in(place, bank, scope, arguments),
        Pat::Tuple(parts) => some_large_compared_in(place, bank, scope, parts),
    }
}

/// Whether a term with which one of the patterns compares has.
#[tactic(auto, using(crate::proofs::Tests::of_lists))]
#[cycle(compared)]
pub fn some_large_compared_in<B: Bank>(
    place: &Place<'_>,
    bank: &B,
    scope: &Scope,
    patterns: &Pats,
) -> bool
    requires { IsScopeIn (B.trees bank.now) scope.now }
    ensures { result ≡ are_large_in (protocol_at place.now) (scope_at (B.trees bank.now) scope.now)
        (compared_row (trees patterns.now)) }
{
    for pattern in &patterns.items {
        if some_large_compared(place, bank, scope, pattern) {
            return true;
        }
    }
    false
}

/// Whether a part of the expression without destructors has.
#[cycle(parts)]
pub fn some_large_in<B: Bank>(place: &Place<'_>, bank: &B, scope: &Scope, expression: &Expr) -> bool
    requires { IsScopeIn (B.trees bank.now) scope.now }
    ensures { result ≡ are_large_in (protocol_at place.now) (scope_at (B.trees bank.now) scope.now)
        (leaves (expression_of expression.now)) }
{
    match expression {
        Expr::Term(term) => is_large_term(place, bank, scope, term),
        Expr::App(_, parts) | Expr::Call(_, parts) => some_large_part(place, bank, scope, parts),
        Expr::Tuple(parts) => some_large_part(place, bank, scope, parts),
    }
}

/// Whether a part of one of the expressions has.
#[tactic(auto, using(crate::proofs::Tests::of_lists))]
#[cycle(parts)]
fn some_large_part<B: Bank>(place: &Place<'_>, bank: &B, scope: &Scope, parts: &Exprs) -> bool
    requires { IsScopeIn (B.trees bank.now) scope.now }
    ensures { result ≡ are_large_in (protocol_at place.now) (scope_at (B.trees bank.now) scope.now)
        (row_leaves (trees parts.now)) }
{
    for part in &parts.items {
        if some_large_in(place, bank, scope, part) {
            return true;
        }
    }
    false
}

/// Whether a term that a `let` evaluates, or with which its pattern compares, is too large.
#[tactic(auto, using(crate::proofs::Tests::of_lists))]
pub fn is_large_let<B: Bank>(
    place: &Place<'_>,
    bank: &B,
    scope: &Scope,
    pattern: &Pat,
    expression: &Expr,
) -> bool
    requires { IsScopeIn (B.trees bank.now) scope.now }
    ensures { result ≡ are_large_in (protocol_at place.now) (scope_at (B.trees bank.now) scope.now)
        (compared (pattern_of pattern.now) ++ leaves (expression_of expression.now)) }
{
    some_large_compared(place, bank, scope, pattern)
        || some_large_in(place, bank, scope, expression)
}
