//! Patterns where a process is visited: the variables that they bind are new.

ghost use Rattle.std.specs.Prelude.{◌≡◌, ◌+◌, ◌-◌, ◌^◌, ◌<◌, map, IfOk, OnErr};
ghost use Rattle.std.specs.List.{AllByRecursion};
ghost use Rattle.spec_translation.specs.Conversion as translation;
ghost use Rattle.term_tree.specs.Bank.{Names, Grows};
ghost use Rattle.clause_form.specs.Seen.{NameTerms};
ghost use Rattle.pi_tree.specs.Patterns.{pattern_of};
ghost use Rattle.pi_tree.specs.Protocols.{protocol_of};
ghost use Rattle.clause_terms.specs.Conditions.{IsShortPattern, HasRoomAt};
ghost use Rattle.clause_terms.specs.Fresh.{fresh_of};
ghost use Rattle.clause_terms.specs.Scopes.{scope_at, IsScopeIn};

use crate::in_scope::term_grown;
use crate::scopes::Scope;
use crate::symbols::constructor_symbol;
use clause_form::Ids;
use pi_tree::{Pat, Pats, Protocol};
use std::alloc::{AllocError, Global};
use term_tree::{Bank, Id, Sym};

/// Where new variables begin, and the number of the first that becomes one.
#[derive(Clone, Copy)]
pub struct Fresh {
    pub base: u32,
    pub first: u32,
}

/// What the holes of a pattern stand for: names that are bound for what the scope has for them, those that the
/// pattern binds for new variables.
#[derive(Clone, Copy)]
pub struct Holes<'a> {
    pub scope: &'a Scope,
    pub at: Fresh,
}

/// The new variable for the one of that number.
pub(crate) fn fresh_variable<B: Bank>(
    bank: &mut B,
    at: Fresh,
    number: u32,
) -> Result<Id, AllocError>
    requires { (fresh_of at).base + (number - (fresh_of at).first) < 2 ^ 32 }
    ensures grows { Grows (B.trees bank.old) (B.trees bank.new) }
    ensures names { IfOk result (λ id. Names (B.trees bank.new) id
        (translation.fresh_leaf (fresh_of at) number)) }
    ensures err { OnErr result (B.trees bank.new ≡ B.trees bank.old) }
{
    bank.var(at.base + number.saturating_sub(at.first))
}

/// The term of a pattern. On `Err` the bank may have grown.
#[cycle(pattern)]
fn pattern_grown<B: Bank>(
    alloc: Global,
    bank: &mut B,
    protocol: &Protocol,
    holes: &Holes,
    pattern: &Pat,
) -> Result<Id, AllocError>
    requires scope { IsScopeIn (B.trees bank.old) holes.now.scope.now }
    requires short { IsShortPattern (pattern_of pattern.now) }
    requires room { HasRoomAt (fresh_of holes.now.at) (pattern_of pattern.now) }
    ensures grows { Grows (B.trees bank.old) (B.trees bank.new) }
    ensures names { IfOk result (λ id. Names (B.trees bank.new) id
        (translation.pattern_term (protocol_of protocol.now)
        (scope_at (B.trees bank.old) holes.now.scope.now) (fresh_of holes.now.at)
        (pattern_of pattern.now))) }
{
    match pattern {
        Pat::Bind(number) => fresh_variable(bank, holes.at, *number),
        Pat::Equal(term) => term_grown(alloc, bank, protocol, holes.scope, term),
        Pat::App(constructor, arguments) => {
            let ids = patterns_grown(alloc, bank, protocol, holes, arguments)?;
            bank.app(constructor_symbol(protocol, *constructor), &ids.items)
        }
        Pat::Tuple(parts) => {
            let ids = patterns_grown(alloc, bank, protocol, holes, parts)?;
            bank.app(Sym::Tuple(parts.items.len() as u32), &ids.items)
        }
    }
}

/// The terms of patterns, as `pattern_term` has each. On `Err` the bank may have grown.
#[cycle(pattern)]
pub fn patterns_grown<B: Bank>(
    alloc: Global,
    bank: &mut B,
    protocol: &Protocol,
    holes: &Holes,
    patterns: &Pats,
) -> Result<Ids, AllocError>
    requires scope { IsScopeIn (B.trees bank.old) holes.now.scope.now }
    requires short { AllByRecursion IsShortPattern patterns.now }
    requires room { AllByRecursion (HasRoomAt (fresh_of holes.now.at)) patterns.now }
    ensures grows { Grows (B.trees bank.old) (B.trees bank.new) }
    ensures names { IfOk result (λ ids. NameTerms (B.trees bank.new) ids
        (map (translation.pattern_term (protocol_of protocol.now)
        (scope_at (B.trees bank.old) holes.now.scope.now) (fresh_of holes.now.at)) patterns.now)) }
{
    let mut items = Vec::new(alloc);
    for pattern in &patterns.items {
        let id = pattern_grown(alloc, bank, protocol, holes, pattern)?;
        items.push(id)?;
    }
    Ok(Ids { items })
}

/// The term of a pattern: its variables are new, its other leaves are what they are in `term_in`.
///
/// `Err` comes only for want of memory; then the bank is as before.
pub fn pattern_term<B: Bank>(
    alloc: Global,
    bank: &mut B,
    protocol: &Protocol,
    holes: &Holes,
    pattern: &Pat,
) -> Result<Id, AllocError>
    requires scope { IsScopeIn (B.trees bank.old) holes.now.scope.now }
    requires short { IsShortPattern (pattern_of pattern.now) }
    requires room { HasRoomAt (fresh_of holes.now.at) (pattern_of pattern.now) }
    ensures grows { Grows (B.trees bank.old) (B.trees bank.new) }
    ensures names { IfOk result (λ id. Names (B.trees bank.new) id
        (translation.pattern_term (protocol_of protocol.now)
        (scope_at (B.trees bank.old) holes.now.scope.now) (fresh_of holes.now.at)
        (pattern_of pattern.now))) }
    ensures err { OnErr result (B.trees bank.new ≡ B.trees bank.old) }
{
    let mark = bank.mark();
    match pattern_grown(alloc, bank, protocol, holes, pattern) {
        Ok(id) => Ok(id),
        Err(error) => {
            bank.back(mark);
            Err(error)
        }
    }
}
