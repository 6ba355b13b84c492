//! What the attacker has at first: public free names, and names of his own.

ghost use Rattle.std.specs.Prelude.{◌≡◌, ◌^◌, ◌<◌, [], ◌∷◌, map, filter_map, length, OnOk};
ghost use Rattle.std.specs.List.{enumerate_from};
ghost use Rattle.spec_translation.specs.Attacker.{name_known, fresh_known};
ghost use Rattle.spec_attack_runs.specs.Gathered.{idle};
ghost use Rattle.pi_tree.specs.Names.{declared_of};
ghost use Rattle.clause_sources.specs.Listed.{Tells};

use crate::raws::{known, variables};
use clause_form::Tree;
use clause_sources::{Action, Sources, add_sources};
use pi_tree::{Declarations, Declared};
use std::alloc::{AllocError, Global};
use term_tree::{Bank, Sym};

/// Adds that the attacker has a free name, if it is public.
fn add_name<B: Bank>(
    alloc: Global,
    bank: &mut B,
    number: u32,
    declared: &Declared,
    sources: &mut Sources,
) -> Result<(), AllocError>
    ensures bank { B.trees bank.new ≡ B.trees bank.old }
    ensures tells { OnOk result (Tells sources.old sources.new
        (map idle (filter_map name_known ((number, declared_of declared.now) ∷ [])))) }
{
    if !declared.public {
        return Ok(());
    }
    let none = variables(alloc, 0)?;
    let arguments = variables(alloc, 0)?;
    let name = Tree::App(Sym::Free(number), arguments);
    let raw = known(alloc, 0, none, 0, name)?;
    add_sources(alloc, bank, &raw, &Action::Idle, sources)
}

/// Adds that the attacker has the public free names.
pub(crate) fn add_names<B: Bank>(
    alloc: Global,
    bank: &mut B,
    frees: &Declarations,
    sources: &mut Sources,
) -> Result<(), AllocError>
    requires { length frees.now < 2 ^ 32 }
    ensures bank { B.trees bank.new ≡ B.trees bank.old }
    ensures tells { OnOk result (Tells sources.old sources.new
        (map idle (filter_map name_known (enumerate_from 1 frees.now)))) }
{
    'each: for (index, declared) in frees.items.iter().enumerate() {
        add_name(alloc, bank, index as u32 + 1, declared, sources)?;
    }
    Ok(())
}

/// Adds that the attacker has names of his own.
pub(crate) fn add_own_names<B: Bank>(
    alloc: Global,
    bank: &mut B,
    sources: &mut Sources,
) -> Result<(), AllocError>
    ensures bank { B.trees bank.new ≡ B.trees bank.old }
    ensures tells { OnOk result (Tells sources.old sources.new (idle fresh_known ∷ [])) }
{
    let none = variables(alloc, 0)?;
    let arguments = variables(alloc, 1)?;
    let name = Tree::App(Sym::Attacker, arguments);
    let raw = known(alloc, 0, none, 0, name)?;
    add_sources(alloc, bank, &raw, &Action::Idle, sources)
}
