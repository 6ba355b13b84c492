//! The constructors that the attacker applies.

ghost use Rattle.std.specs.Prelude.{◌≡◌, ◌^◌, ◌<◌, not, ◌&&◌, [], ◌∷◌, filter_map, length, OnOk};
ghost use Rattle.std.specs.List.{enumerate_from};
ghost use Rattle.pi_tree.specs.Names.{declared_of};
ghost use Rattle.attacker_sources.specs.Deeds.{constructor_deed};
ghost use Rattle.clause_sources.specs.Listed.{Tells};

use crate::raws::{InPhase, known, variables};
use clause_form::Tree;
use clause_sources::{Action, Sources, add_sources};
use pi_tree::{Declarations, Declared};
use std::alloc::AllocError;
use term_tree::{Bank, Sym};

/// Whether the attacker needs a clause to apply the constructor.
fn is_applied(declared: &Declared) -> bool
    ensures { result ≡ ((declared_of declared.now).public && not
        (declared_of declared.now).is_data) }
{
    declared.public && !declared.is_data
}

/// Adds that in the phase the attacker applies a constructor, if it is public and no data constructor.
fn add_constructor<B: Bank>(
    at: InPhase,
    bank: &mut B,
    number: u32,
    declared: &Declared,
    sources: &mut Sources,
) -> Result<(), AllocError>
    ensures bank { B.trees bank.new ≡ B.trees bank.old }
    ensures tells { OnOk result (Tells sources.old sources.new
        (filter_map (constructor_deed at.phase) ((number, declared_of declared.now) ∷ []))) }
{
    if !is_applied(declared) {
        return Ok(());
    }
    let parts = variables(at.alloc, declared.arity)?;
    let arguments = variables(at.alloc, declared.arity)?;
    let made = Tree::App(Sym::Ctor(number), arguments);
    let raw = known(at.alloc, at.phase, parts, at.phase, made)?;
    add_sources(at.alloc, bank, &raw, &Action::Builds(number), sources)
}

/// Adds that in the phase the attacker applies the public constructors that are no data constructors.
pub(crate) fn add_constructors<B: Bank>(
    at: InPhase,
    bank: &mut B,
    ctors: &Declarations,
    sources: &mut Sources,
) -> Result<(), AllocError>
    requires { length ctors.now < 2 ^ 32 }
    ensures bank { B.trees bank.new ≡ B.trees bank.old }
    ensures tells { OnOk result (Tells sources.old sources.new
        (filter_map (constructor_deed at.phase) (enumerate_from 1 ctors.now))) }
{
    'each: for (index, declared) in ctors.items.iter().enumerate() {
        add_constructor(at, bank, index as u32 + 1, declared, sources)?;
    }
    Ok(())
}
