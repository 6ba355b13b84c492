//! What the attacker can do in a phase, and what he keeps in the next.

ghost use Rattle.std.specs.Prelude.{◌≡◌, ◌+◌, ◌^◌, ◌<◌, [], ◌∷◌, length, OnOk};
ghost use Rattle.std.specs.List.{AllByRecursion};
ghost use Rattle.spec_calculus.specs.Points.{greatest_phase};
ghost use Rattle.spec_translation.specs.Attacker.{message_heard, message_sent, kept_known};
ghost use Rattle.spec_attack_runs.specs.Gathered.{idle, deeds_in, deeds_after};
ghost use Rattle.pi_tree.specs.Protocols.{protocol_of};
ghost use Rattle.attacker_clauses.specs.Conditions.{CanAllBeRenamed};
ghost use Rattle.attacker_sources.specs.Deeds.{HasFewRules};
ghost use Rattle.clause_sources.specs.Listed.{Tells};

use crate::constructors::add_constructors;
use crate::raws::{InPhase, heard, known, sent, variables};
use crate::rules::add_destructors;
use clause_form::Tree;
use clause_sources::{Action, Sources, add_sources};
use pi_tree::Protocol;
use std::alloc::{AllocError, Global};
use term_tree::Bank;

/// Adds that in the phase the attacker hears and sends.
fn add_channels<B: Bank>(at: InPhase, bank: &mut B, sources: &mut Sources) -> Result<(), AllocError>
    ensures bank { B.trees bank.new ≡ B.trees bank.old }
    ensures tells { OnOk result (Tells sources.old sources.new
        (idle (message_heard at.phase) ∷ idle (message_sent at.phase) ∷ [])) }
{
    let hears = heard(at.alloc, at.phase)?;
    add_sources(at.alloc, bank, &hears, &Action::Idle, sources)?;
    let sends = sent(at.alloc, at.phase)?;
    add_sources(at.alloc, bank, &sends, &Action::Idle, sources)
}

/// Adds what the attacker can do in the phase: apply constructors and rules, hear and send.
pub(crate) fn add_phase<B: Bank>(
    at: InPhase,
    bank: &mut B,
    protocol: &Protocol,
    sources: &mut Sources,
) -> Result<(), AllocError>
    requires constructors { length (protocol_of protocol.now).constructors < 2 ^ 32 }
    requires rules { AllByRecursion CanAllBeRenamed (protocol_of protocol.now).destructors }
    requires few { HasFewRules (protocol_of protocol.now) }
    ensures bank { B.trees bank.new ≡ B.trees bank.old }
    ensures tells { OnOk result (Tells sources.old sources.new
        (deeds_in (protocol_of protocol.now) at.phase)) }
{
    add_constructors(at, bank, &protocol.ctors, sources)?;
    add_destructors(at, bank, protocol, sources)?;
    add_channels(at, bank, sources)
}

/// Adds that the attacker keeps in the next phase what he has in the phase.
fn add_kept<B: Bank>(at: InPhase, bank: &mut B, sources: &mut Sources) -> Result<(), AllocError>
    requires { at.phase + 1 < 2 ^ 32 }
    ensures bank { B.trees bank.new ≡ B.trees bank.old }
    ensures tells { OnOk result (Tells sources.old sources.new
        (idle (kept_known at.phase) ∷ [])) }
{
    let parts = variables(at.alloc, 1)?;
    let raw = known(at.alloc, at.phase, parts, at.phase + 1, Tree::Var(0))?;
    add_sources(at.alloc, bank, &raw, &Action::Idle, sources)
}

/// Adds what the attacker keeps in the next phase, and what he can do there.
fn add_next_phase<B: Bank>(
    at: InPhase,
    bank: &mut B,
    protocol: &Protocol,
    sources: &mut Sources,
) -> Result<(), AllocError>
    requires room { at.phase + 1 < 2 ^ 32 }
    requires constructors { length (protocol_of protocol.now).constructors < 2 ^ 32 }
    requires rules { AllByRecursion CanAllBeRenamed (protocol_of protocol.now).destructors }
    requires few { HasFewRules (protocol_of protocol.now) }
    ensures bank { B.trees bank.new ≡ B.trees bank.old }
    ensures tells { OnOk result (Tells sources.old sources.new
        (idle (kept_known at.phase) ∷ deeds_in (protocol_of protocol.now) (at.phase + 1))) }
{
    add_kept(at, bank, sources)?;
    let next = InPhase {
        alloc: at.alloc,
        phase: at.phase + 1,
    };
    add_phase(next, bank, protocol, sources)
}

/// Adds what the attacker keeps and can do in each phase after the first, up to the greatest.
pub(crate) fn add_later_phases<B: Bank>(
    alloc: Global,
    bank: &mut B,
    protocol: &Protocol,
    sources: &mut Sources,
) -> Result<(), AllocError>
    requires constructors { length (protocol_of protocol.now).constructors < 2 ^ 32 }
    requires rules { AllByRecursion CanAllBeRenamed (protocol_of protocol.now).destructors }
    requires few { HasFewRules (protocol_of protocol.now) }
    ensures bank { B.trees bank.new ≡ B.trees bank.old }
    ensures tells { OnOk result (Tells sources.old sources.new
        (deeds_after (protocol_of protocol.now) 0
        (greatest_phase (protocol_of protocol.now).main))) }
{
    'each: for phase in 0..protocol.greatest_phase() {
        add_next_phase(InPhase { alloc, phase }, bank, protocol, sources)?;
    }
    Ok(())
}
