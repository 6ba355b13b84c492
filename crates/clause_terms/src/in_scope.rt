//! Terms of a process where it is visited.

ghost use Rattle.std.specs.Prelude.{◌≡◌, map, IfOk, OnErr};
ghost use Rattle.std.specs.List.{AllByRecursion};
ghost use Rattle.spec_translation.specs.Conversion as translation;
ghost use Rattle.term_tree.specs.Bank.{Names, Grows};
ghost use Rattle.clause_form.specs.Seen.{NameTerms};
ghost use Rattle.pi_tree.specs.Terms.{term_of};
ghost use Rattle.pi_tree.specs.Protocols.{protocol_of};
ghost use Rattle.pi_tree.specs.Slots.{name_of};
ghost use Rattle.clause_terms.specs.Conditions.{HasShortTuples};
ghost use Rattle.clause_terms.specs.Scopes.{scope_at, IsScopeIn};

use crate::scopes::Scope;
use crate::symbols::constructor_symbol;
use clause_form::Ids;
use pi_tree::{Protocol, Slot, Term, Terms};
use std::alloc::{AllocError, Global};
use term_tree::{Bank, Id, Sym};

/// The term that a slot stands for; a slot that is not bound is the free name 0, which nothing declares.
fn bound_term<B: Bank>(bank: &mut B, scope: &Scope, slot: Slot) -> Result<Id, AllocError>
    requires { IsScopeIn (B.trees bank.old) scope.now }
    ensures grows { Grows (B.trees bank.old) (B.trees bank.new) }
    ensures names { IfOk result (λ id. Names (B.trees bank.new) id
        (translation.leaf_term (scope_at (B.trees bank.old) scope.now) (name_of slot))) }
{
    match scope.find(slot) {
        Some(id) => Ok(id),
        None => bank.app(Sym::Free(0), &[]),
    }
}

/// A term in a scope. On `Err` the bank may have grown.
#[cycle(term)]
pub(crate) fn term_grown<B: Bank>(
    alloc: Global,
    bank: &mut B,
    protocol: &Protocol,
    scope: &Scope,
    term: &Term,
) -> Result<Id, AllocError>
    requires scope { IsScopeIn (B.trees bank.old) scope.now }
    requires short { HasShortTuples (term_of term.now) }
    ensures grows { Grows (B.trees bank.old) (B.trees bank.new) }
    ensures names { IfOk result (λ id. Names (B.trees bank.new) id
        (translation.term_in (protocol_of protocol.now) (scope_at (B.trees bank.old) scope.now)
        (term_of term.now))) }
{
    match term {
        Term::Var(number) => bound_term(bank, scope, Slot::Var(*number)),
        Term::Made(point) => bound_term(bank, scope, Slot::Made(*point)),
        Term::Free(number) => bank.app(Sym::Free(*number), &[]),
        Term::App(constructor, arguments) => {
            let ids = terms_grown(alloc, bank, protocol, scope, arguments)?;
            bank.app(constructor_symbol(protocol, *constructor), &ids.items)
        }
        Term::Tuple(parts) => {
            let ids = terms_grown(alloc, bank, protocol, scope, parts)?;
            bank.app(Sym::Tuple(parts.items.len() as u32), &ids.items)
        }
    }
}

/// Terms in a scope. On `Err` the bank may have grown.
#[cycle(term)]
fn terms_grown<B: Bank>(
    alloc: Global,
    bank: &mut B,
    protocol: &Protocol,
    scope: &Scope,
    terms: &Terms,
) -> Result<Ids, AllocError>
    requires scope { IsScopeIn (B.trees bank.old) scope.now }
    requires short { AllByRecursion HasShortTuples terms.now }
    ensures grows { Grows (B.trees bank.old) (B.trees bank.new) }
    ensures names { IfOk result (λ ids. NameTerms (B.trees bank.new) ids
        (map (translation.term_in (protocol_of protocol.now)
        (scope_at (B.trees bank.old) scope.now)) terms.now)) }
{
    let mut items = Vec::new(alloc);
    for term in &terms.items {
        let id = term_grown(alloc, bank, protocol, scope, term)?;
        items.push(id)?;
    }
    Ok(Ids { items })
}

/// A term of the process where it is visited: the leaves that are bound are what the scope has for them, each
/// other one the free name 0, which nothing declares.
///
/// `Err` comes only for want of memory; then the bank is as before.
pub fn term_in<B: Bank>(
    alloc: Global,
    bank: &mut B,
    protocol: &Protocol,
    scope: &Scope,
    term: &Term,
) -> Result<Id, AllocError>
    requires scope { IsScopeIn (B.trees bank.old) scope.now }
    requires short { HasShortTuples (term_of term.now) }
    ensures grows { Grows (B.trees bank.old) (B.trees bank.new) }
    ensures names { IfOk result (λ id. Names (B.trees bank.new) id
        (translation.term_in (protocol_of protocol.now) (scope_at (B.trees bank.old) scope.now)
        (term_of term.now))) }
    ensures err { OnErr result (B.trees bank.new ≡ B.trees bank.old) }
{
    let mark = bank.mark();
    match term_grown(alloc, bank, protocol, scope, term) {
        Ok(id) => Ok(id),
        Err(error) => {
            bank.back(mark);
            Err(error)
        }
    }
}

/// Terms of the process where it is visited, as `term_in` has each.
///
/// `Err` comes only for want of memory; then the bank is as before.
pub fn terms_in<B: Bank>(
    alloc: Global,
    bank: &mut B,
    protocol: &Protocol,
    scope: &Scope,
    terms: &Terms,
) -> Result<Ids, AllocError>
    requires scope { IsScopeIn (B.trees bank.old) scope.now }
    requires short { AllByRecursion HasShortTuples terms.now }
    ensures grows { Grows (B.trees bank.old) (B.trees bank.new) }
    ensures names { IfOk result (λ ids. NameTerms (B.trees bank.new) ids
        (map (translation.term_in (protocol_of protocol.now)
        (scope_at (B.trees bank.old) scope.now)) terms.now)) }
    ensures err { OnErr result (B.trees bank.new ≡ B.trees bank.old) }
{
    let mark = bank.mark();
    match terms_grown(alloc, bank, protocol, scope, terms) {
        Ok(ids) => Ok(ids),
        Err(error) => {
            bank.back(mark);
            Err(error)
        }
    }
}
