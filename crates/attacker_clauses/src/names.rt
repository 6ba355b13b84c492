//! What the attacker has at first: public free names, and names of his own.

ghost use Rattle.std.specs.Prelude.{◌≡◌, ◌+◌, ◌^◌, ◌<◌, [], ◌∷◌, ◌++◌, length, filter_map, OnOk};
ghost use Rattle.std.specs.List.{enumerate_from};
ghost use Rattle.spec_translation.specs.Attacker.{name_known, fresh_known};
ghost use Rattle.term_tree.specs.Bank.{Grows};
ghost use Rattle.pi_tree.specs.Names.{declared_of};
ghost use Rattle.attacker_clauses.specs.Listed.{Adds};

use crate::listing::{InPhase, add_known};
use clause_form::Clauses;
use pi_tree::{Declarations, Declared};
use std::alloc::{AllocError, Global};
use term_tree::{Bank, Sym};

/// Adds that the attacker has a free name, if it is public. On `Err` the bank may have grown.
fn add_name<B: Bank>(
    alloc: Global,
    bank: &mut B,
    number: u32,
    declared: &Declared,
    list: &mut Clauses,
) -> Result<(), AllocError>
    ensures grows { Grows (B.trees bank.old) (B.trees bank.new) }
    ensures adds { OnOk result (Adds (B.trees bank.old) list.old (B.trees bank.new) list.new
        (filter_map name_known ((number, declared_of declared.now) ∷ []))) }
{
    if !declared.public {
        return Ok(());
    }
    let name = bank.app(Sym::Free(number), &[])?;
    add_known(InPhase { alloc, phase: 0 }, bank, &[], name, list)
}

/// Adds that the attacker has the public free names. On `Err` the bank may have grown.
pub(crate) fn add_names<B: Bank>(
    alloc: Global,
    bank: &mut B,
    frees: &Declarations,
    list: &mut Clauses,
) -> Result<(), AllocError>
    requires { length frees.now < 2 ^ 32 }
    ensures grows { Grows (B.trees bank.old) (B.trees bank.new) }
    ensures adds { OnOk result (Adds (B.trees bank.old) list.old (B.trees bank.new) list.new
        (filter_map name_known (enumerate_from 1 frees.now))) }
{
    for (index, declared) in frees.items.iter().enumerate() {
        add_name(alloc, bank, index as u32 + 1, declared, list)?;
    }
    Ok(())
}

/// Adds that the attacker has names of his own. On `Err` the bank may have grown.
pub(crate) fn add_own_names<B: Bank>(
    alloc: Global,
    bank: &mut B,
    list: &mut Clauses,
) -> Result<(), AllocError>
    ensures grows { Grows (B.trees bank.old) (B.trees bank.new) }
    ensures adds { OnOk result (Adds (B.trees bank.old) list.old (B.trees bank.new) list.new
        (fresh_known ∷ [])) }
{
    let variable = bank.var(0)?;
    let name = bank.app(Sym::Attacker, &[variable])?;
    add_known(InPhase { alloc, phase: 0 }, bank, &[], name, list)
}
