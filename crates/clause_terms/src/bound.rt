//! What patterns bind.

ghost use Rattle.std.specs.Prelude.{◌≡◌, List, ◌++◌, flat_map, IfOk, OnOk, OnErr};
ghost use Rattle.std.specs.List.{AllByRecursion};
ghost use Rattle.spec_calculus.specs.Tables.{row_pattern};
ghost use Rattle.spec_translation.specs.Conversion as translation;
ghost use Rattle.term_tree.specs.Bank.{Grows};
ghost use Rattle.pi_tree.specs.Patterns.{pattern_of};
ghost use Rattle.clause_terms.specs.Conditions.{HasRoomAt};
ghost use Rattle.clause_terms.specs.Fresh.{fresh_of};
ghost use Rattle.clause_terms.specs.Scopes.{NamesScope};

use crate::patterns::{Fresh, fresh_variable};
use crate::scopes::{Scope, Standing};
use pi_tree::{Pat, Pats, Slot};
use std::alloc::{AllocError, Global};
use term_tree::Bank;

/// Adds what a pattern binds. On `Err` the bank may have grown.
#[cycle(bound)]
fn add_bound<B: Bank>(
    bank: &mut B,
    at: Fresh,
    pattern: &Pat,
    scope: &mut Scope,
) -> Result<(), AllocError>
    requires room { HasRoomAt (fresh_of at) (pattern_of pattern.now) }
    ensures grows { Grows (B.trees bank.old) (B.trees bank.new) }
    ensures names { OnOk result ((before : translation.Scope) → NamesScope (B.trees bank.old)
        scope.old before → NamesScope (B.trees bank.new) scope.new
        (before ++ translation.pattern_scope (fresh_of at) (pattern_of pattern.now))) }
{
    match pattern {
        Pat::Bind(number) => {
            let term = fresh_variable(bank, at, *number)?;
            scope.push(Standing {
                slot: Slot::Var(*number),
                term,
            })
        }
        Pat::Equal(_) => Ok(()),
        Pat::App(_, arguments) => add_all_bound(bank, at, arguments, scope),
        Pat::Tuple(parts) => add_all_bound(bank, at, parts, scope),
    }
}

/// Adds what patterns bind. On `Err` the bank may have grown.
#[cycle(bound)]
fn add_all_bound<B: Bank>(
    bank: &mut B,
    at: Fresh,
    patterns: &Pats,
    scope: &mut Scope,
) -> Result<(), AllocError>
    requires room { AllByRecursion (HasRoomAt (fresh_of at)) patterns.now }
    ensures grows { Grows (B.trees bank.old) (B.trees bank.new) }
    ensures names { OnOk result ((before : translation.Scope) → NamesScope (B.trees bank.old)
        scope.old before → NamesScope (B.trees bank.new) scope.new
        (before ++ flat_map (translation.pattern_scope (fresh_of at)) patterns.now)) }
{
    for pattern in &patterns.items {
        add_bound(bank, at, pattern, scope)?;
    }
    Ok(())
}

/// What a pattern binds. On `Err` the bank may have grown.
fn scope_grown<B: Bank>(
    alloc: Global,
    bank: &mut B,
    at: Fresh,
    pattern: &Pat,
) -> Result<Scope, AllocError>
    requires room { HasRoomAt (fresh_of at) (pattern_of pattern.now) }
    ensures grows { Grows (B.trees bank.old) (B.trees bank.new) }
    ensures names { IfOk result (λ scope. NamesScope (B.trees bank.new) scope
        (translation.pattern_scope (fresh_of at) (pattern_of pattern.now))) }
{
    let mut scope = Scope::new(alloc);
    add_bound(bank, at, pattern, &mut scope)?;
    Ok(scope)
}

/// What patterns bind in a row. On `Err` the bank may have grown.
pub fn row_scope<B: Bank>(
    alloc: Global,
    bank: &mut B,
    at: Fresh,
    patterns: &Pats,
) -> Result<Scope, AllocError>
    requires room { AllByRecursion (HasRoomAt (fresh_of at)) patterns.now }
    ensures grows { Grows (B.trees bank.old) (B.trees bank.new) }
    ensures names { IfOk result (λ scope. NamesScope (B.trees bank.new) scope
        (translation.pattern_scope (fresh_of at) (row_pattern patterns.now))) }
{
    let mut scope = Scope::new(alloc);
    add_all_bound(bank, at, patterns, &mut scope)?;
    Ok(scope)
}

/// The variables that a pattern binds, in order, each with its new variable.
///
/// `Err` comes only for want of memory; then the bank is as before.
pub fn pattern_scope<B: Bank>(
    alloc: Global,
    bank: &mut B,
    at: Fresh,
    pattern: &Pat,
) -> Result<Scope, AllocError>
    requires room { HasRoomAt (fresh_of at) (pattern_of pattern.now) }
    ensures grows { Grows (B.trees bank.old) (B.trees bank.new) }
    ensures names { IfOk result (λ scope. NamesScope (B.trees bank.new) scope
        (translation.pattern_scope (fresh_of at) (pattern_of pattern.now))) }
    ensures err { OnErr result (B.trees bank.new ≡ B.trees bank.old) }
{
    let mark = bank.mark();
    match scope_grown(alloc, bank, at, pattern) {
        Ok(scope) => Ok(scope),
        Err(error) => {
            bank.back(mark);
            Err(error)
        }
    }
}
