//! The constructors that the attacker applies.

ghost use Rattle.std.specs.Prelude.{◌≡◌, ◌+◌, ◌^◌, ◌<◌, ◌&&◌, not, [], ◌∷◌, ◌++◌, length, filter_map, IfOk, OnOk};
ghost use Rattle.std.specs.List.{enumerate_from};
ghost use Rattle.spec_translation.specs.Attacker.{variables_from, constructor_applied};
ghost use Rattle.term_tree.specs.Bank.{Grows};
ghost use Rattle.clause_form.specs.Seen.{NameTerms};
ghost use Rattle.pi_tree.specs.Names.{declared_of};
ghost use Rattle.attacker_clauses.specs.Listed.{Adds};

use crate::listing::{InPhase, add_known};
use clause_form::{Clauses, Ids};
use pi_tree::{Declarations, Declared};
use std::alloc::{AllocError, Global};
use term_tree::{Bank, Sym};

/// So many variables, from 0 on. On `Err` the bank may have grown.
fn variables<B: Bank>(alloc: Global, bank: &mut B, count: u32) -> Result<Ids, AllocError>
    ensures grows { Grows (B.trees bank.old) (B.trees bank.new) }
    ensures names { IfOk result (λ made. NameTerms (B.trees bank.new) made
        (variables_from 0 count)) }
{
    let mut items = Vec::new(alloc);
    for number in 0..count {
        let variable = bank.var(number)?;
        items.push(variable)?;
    }
    Ok(Ids { items })
}

/// Whether the attacker needs a clause to apply the constructor.
fn is_applied(declared: &Declared) -> bool
    ensures { result ≡ ((declared_of declared.now).public && not
        (declared_of declared.now).is_data) }
{
    declared.public && !declared.is_data
}

/// Adds that in the phase the attacker applies a constructor, if it is public and no data constructor. On `Err` the
/// bank may have grown.
fn add_constructor<B: Bank>(
    at: InPhase,
    bank: &mut B,
    number: u32,
    declared: &Declared,
    list: &mut Clauses,
) -> Result<(), AllocError>
    ensures grows { Grows (B.trees bank.old) (B.trees bank.new) }
    ensures adds { OnOk result (Adds (B.trees bank.old) list.old (B.trees bank.new) list.new
        (filter_map (constructor_applied at.phase) ((number, declared_of declared.now) ∷ []))) }
{
    if !is_applied(declared) {
        return Ok(());
    }
    let arguments = variables(at.alloc, bank, declared.arity)?;
    let made = bank.app(Sym::Ctor(number), &arguments.items)?;
    add_known(at, bank, &arguments.items, made, list)
}

/// Adds that in the phase the attacker applies the public constructors that are no data constructors. On `Err` the
/// bank may have grown.
pub(crate) fn add_constructors<B: Bank>(
    at: InPhase,
    bank: &mut B,
    ctors: &Declarations,
    list: &mut Clauses,
) -> Result<(), AllocError>
    requires { length ctors.now < 2 ^ 32 }
    ensures grows { Grows (B.trees bank.old) (B.trees bank.new) }
    ensures adds { OnOk result (Adds (B.trees bank.old) list.old (B.trees bank.new) list.new
        (filter_map (constructor_applied at.phase) (enumerate_from 1 ctors.now))) }
{
    for (index, declared) in ctors.items.iter().enumerate() {
        add_constructor(at, bank, index as u32 + 1, declared, list)?;
    }
    Ok(())
}
