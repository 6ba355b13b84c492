//! What the attacker can do in a phase, and what he keeps in the next.

ghost use Rattle.std.specs.Prelude.{◌≡◌, ◌+◌, ◌-◌, ◌^◌, ◌<◌, ◌≤◌, [], ◌∷◌, ◌++◌, length, IfOk, OnOk};
ghost use Rattle.std.specs.List.{AllByRecursion};
ghost use Rattle.spec_calculus.specs.Points.{greatest_phase};
ghost use Rattle.spec_clauses.specs.Fact.{Att};
ghost use Rattle.spec_translation.specs.Attacker.{done_in, kept_known, done_after};
ghost use Rattle.term_tree.specs.Bank.{Grows};
ghost use Rattle.pi_tree.specs.Protocols.{protocol_of};
ghost use Rattle.attacker_clauses.specs.Conditions.{CanAllBeRenamed};
ghost use Rattle.attacker_clauses.specs.Listed.{Adds};

use crate::channels::add_channels;
use crate::constructors::add_constructors;
use crate::destructors::add_destructors;
use crate::listing::{InPhase, add_raw};
use clause_form::{Clause, Clauses, Diffs, Fact, Facts};
use pi_tree::Protocol;
use std::alloc::{AllocError, Global};
use term_tree::{Bank, Id};

/// Adds what the attacker can do in the phase: apply constructors and rules, hear and send. On `Err` the bank may have
/// grown.
pub(crate) fn add_phase<B: Bank>(
    at: InPhase,
    bank: &mut B,
    protocol: &Protocol,
    list: &mut Clauses,
) -> Result<(), AllocError>
    requires constructors { length (protocol_of protocol.now).constructors < 2 ^ 32 }
    requires rules { AllByRecursion CanAllBeRenamed (protocol_of protocol.now).destructors }
    ensures grows { Grows (B.trees bank.old) (B.trees bank.new) }
    ensures adds { OnOk result (Adds (B.trees bank.old) list.old (B.trees bank.new) list.new
        (done_in (protocol_of protocol.now) at.phase)) }
{
    add_constructors(at, bank, &protocol.ctors, list)?;
    add_destructors(at, bank, protocol, list)?;
    add_channels(at, bank, list)
}

/// That the attacker has a term in the phase.
fn kept_facts(at: InPhase, term: Id) -> Result<Facts, AllocError>
    ensures { IfOk result (λ facts. facts ≡ Att at.phase term ∷ []) }
{
    let mut facts = Facts::new(at.alloc);
    facts.push(Fact::Att(at.phase, term))?;
    Ok(facts)
}

/// Adds that the attacker keeps in the next phase what he has in the phase. On `Err` the bank may have grown.
fn add_kept<B: Bank>(at: InPhase, bank: &mut B, list: &mut Clauses) -> Result<(), AllocError>
    requires { at.phase + 1 < 2 ^ 32 }
    ensures grows { Grows (B.trees bank.old) (B.trees bank.new) }
    ensures adds { OnOk result (Adds (B.trees bank.old) list.old (B.trees bank.new) list.new
        (kept_known at.phase ∷ [])) }
{
    let term = bank.var(0)?;
    let hyps = kept_facts(at, term)?;
    let raw = Clause {
        hyps,
        diffs: Diffs::new(at.alloc),
        concl: Fact::Att(at.phase + 1, term),
    };
    add_raw(at.alloc, bank, raw, list)
}

/// Adds what the attacker keeps in the next phase, and what he can do there. On `Err` the bank may have grown.
fn add_next_phase<B: Bank>(
    at: InPhase,
    bank: &mut B,
    protocol: &Protocol,
    list: &mut Clauses,
) -> Result<(), AllocError>
    requires room { at.phase + 1 < 2 ^ 32 }
    requires constructors { length (protocol_of protocol.now).constructors < 2 ^ 32 }
    requires rules { AllByRecursion CanAllBeRenamed (protocol_of protocol.now).destructors }
    ensures grows { Grows (B.trees bank.old) (B.trees bank.new) }
    ensures adds { OnOk result (Adds (B.trees bank.old) list.old (B.trees bank.new) list.new
        (kept_known at.phase ∷ done_in (protocol_of protocol.now) (at.phase + 1))) }
{
    add_kept(at, bank, list)?;
    let next = InPhase {
        alloc: at.alloc,
        phase: at.phase + 1,
    };
    add_phase(next, bank, protocol, list)
}

/// Adds what the attacker keeps and can do in each phase after the first, up to the greatest. On `Err` the bank may have
/// grown.
pub(crate) fn add_later_phases<B: Bank>(
    alloc: Global,
    bank: &mut B,
    protocol: &Protocol,
    list: &mut Clauses,
) -> Result<(), AllocError>
    requires constructors { length (protocol_of protocol.now).constructors < 2 ^ 32 }
    requires rules { AllByRecursion CanAllBeRenamed (protocol_of protocol.now).destructors }
    ensures grows { Grows (B.trees bank.old) (B.trees bank.new) }
    ensures adds { OnOk result (Adds (B.trees bank.old) list.old (B.trees bank.new) list.new
        (done_after (protocol_of protocol.now) 0
        (greatest_phase (protocol_of protocol.now).main))) }
{
    for phase in 0..protocol.greatest_phase() {
        add_next_phase(InPhase { alloc, phase }, bank, protocol, list)?;
    }
    Ok(())
}
