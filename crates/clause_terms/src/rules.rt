//! Terms whose variables are numbered from 1, as those of rules and queries are: the variables from a base on stand for them.

ghost use Rattle.std.specs.Prelude.{◌≡◌, map, IfOk, OnErr};
ghost use Rattle.std.specs.List.{AllByRecursion};
ghost use Rattle.spec_translation.specs.Conversion as translation;
ghost use Rattle.term_tree.specs.Bank.{Names, Grows};
ghost use Rattle.clause_form.specs.Seen.{NameTerms};
ghost use Rattle.pi_tree.specs.Terms.{term_of};
ghost use Rattle.pi_tree.specs.Protocols.{protocol_of};
ghost use Rattle.clause_terms.specs.Conditions.{HasShortTuples, HasRoomFrom};

use crate::symbols::constructor_symbol;
use clause_form::Ids;
use pi_tree::{Protocol, Term, Terms};
use std::alloc::{AllocError, Global};
use term_tree::{Bank, Id, Sym};

/// A term over the variables from the base on. On `Err` the bank may have grown.
#[cycle(rule)]
fn rule_term_grown<B: Bank>(
    alloc: Global,
    bank: &mut B,
    protocol: &Protocol,
    base: u32,
    term: &Term,
) -> Result<Id, AllocError>
    requires short { HasShortTuples (term_of term.now) }
    requires room { HasRoomFrom base (term_of term.now) }
    ensures grows { Grows (B.trees bank.old) (B.trees bank.new) }
    ensures names { IfOk result (λ id. Names (B.trees bank.new) id
        (translation.rule_term (protocol_of protocol.now) base (term_of term.now))) }
{
    match term {
        Term::Var(number) => bank.var(base + number.saturating_sub(1)),
        Term::Made(_) => bank.app(Sym::Free(0), &[]),
        Term::Free(number) => bank.app(Sym::Free(*number), &[]),
        Term::App(constructor, arguments) => {
            let ids = rule_terms_grown(alloc, bank, protocol, base, arguments)?;
            bank.app(constructor_symbol(protocol, *constructor), &ids.items)
        }
        Term::Tuple(parts) => {
            let ids = rule_terms_grown(alloc, bank, protocol, base, parts)?;
            bank.app(Sym::Tuple(parts.items.len() as u32), &ids.items)
        }
    }
}

/// Terms over the variables from the base on. On `Err` the bank may have grown.
#[cycle(rule)]
fn rule_terms_grown<B: Bank>(
    alloc: Global,
    bank: &mut B,
    protocol: &Protocol,
    base: u32,
    terms: &Terms,
) -> Result<Ids, AllocError>
    requires short { AllByRecursion HasShortTuples terms.now }
    requires room { AllByRecursion (HasRoomFrom base) terms.now }
    ensures grows { Grows (B.trees bank.old) (B.trees bank.new) }
    ensures names { IfOk result (λ ids. NameTerms (B.trees bank.new) ids
        (map (translation.rule_term (protocol_of protocol.now) base) terms.now)) }
{
    let mut items = Vec::new(alloc);
    for term in &terms.items {
        let id = rule_term_grown(alloc, bank, protocol, base, term)?;
        items.push(id)?;
    }
    Ok(Ids { items })
}

/// A term of a rule: its variable 1 is the variable of the base, and so on.
///
/// `Err` comes only for want of memory; then the bank is as before.
pub fn rule_term<B: Bank>(
    alloc: Global,
    bank: &mut B,
    protocol: &Protocol,
    base: u32,
    term: &Term,
) -> Result<Id, AllocError>
    requires short { HasShortTuples (term_of term.now) }
    requires room { HasRoomFrom base (term_of term.now) }
    ensures grows { Grows (B.trees bank.old) (B.trees bank.new) }
    ensures names { IfOk result (λ id. Names (B.trees bank.new) id
        (translation.rule_term (protocol_of protocol.now) base (term_of term.now))) }
    ensures err { OnErr result (B.trees bank.new ≡ B.trees bank.old) }
{
    let mark = bank.mark();
    match rule_term_grown(alloc, bank, protocol, base, term) {
        Ok(id) => Ok(id),
        Err(error) => {
            bank.back(mark);
            Err(error)
        }
    }
}

/// Terms of a rule, as `rule_term` has each.
///
/// `Err` comes only for want of memory; then the bank is as before.
pub fn rule_terms<B: Bank>(
    alloc: Global,
    bank: &mut B,
    protocol: &Protocol,
    base: u32,
    terms: &Terms,
) -> Result<Ids, AllocError>
    requires short { AllByRecursion HasShortTuples terms.now }
    requires room { AllByRecursion (HasRoomFrom base) terms.now }
    ensures grows { Grows (B.trees bank.old) (B.trees bank.new) }
    ensures names { IfOk result (λ ids. NameTerms (B.trees bank.new) ids
        (map (translation.rule_term (protocol_of protocol.now) base) terms.now)) }
    ensures err { OnErr result (B.trees bank.new ≡ B.trees bank.old) }
{
    let mark = bank.mark();
    match rule_terms_grown(alloc, bank, protocol, base, terms) {
        Ok(ids) => Ok(ids),
        Err(error) => {
            bank.back(mark);
            Err(error)
        }
    }
}
