//! The attacker's clauses: what he has at first, what he makes, what he sends and receives, and what he keeps from phase to
//! phase (Blanchet 2016, sections 3.3.1 and 4.1.5).
#![tactic(auto)]

ghost use Rattle.std.specs.Prelude.{◌≡◌, ◌^◌, ◌<◌, length, IfOk, OnErr};
ghost use Rattle.std.specs.List.{AllByRecursion};
ghost use Rattle.spec_well_formed.specs.Limits.{IsWithinLimits};
ghost use Rattle.spec_well_formed.specs.Rules.{HasProperRules};
ghost use Rattle.spec_well_formed.specs.WellFormed.{IsWellScoped};
ghost use Rattle.spec_translation.specs.Translation.{attacker_clauses as clauses_of};
ghost use Rattle.term_tree.specs.Bank.{Grows};
ghost use Rattle.clause_form.specs.Fit.{AreLowWithinLimit};
ghost use Rattle.clause_form.specs.Seen.{NameClauses};
ghost use Rattle.pi_tree.specs.Protocols.{protocol_of};
ghost use Rattle.attacker_clauses.specs.Conditions.{CanAllBeRenamed};
ghost use Rattle.attacker_clauses.specs.Listed.{Lists};

mod channels;
mod constructors;
mod destructors;
mod listing;
mod names;
mod phases;

use crate::listing::InPhase;
use crate::names::{add_names, add_own_names};
use crate::phases::{add_later_phases, add_phase};
use clause_form::Clauses;
use pi_tree::Protocol;
use std::alloc::{AllocError, Global};
use term_tree::Bank;

/// The attacker's clauses. On `Err` the bank may have grown.
fn list_grown<B: Bank>(
    alloc: Global,
    bank: &mut B,
    protocol: &Protocol,
) -> Result<Clauses, AllocError>
    requires frees { length (protocol_of protocol.now).frees < 2 ^ 32 }
    requires constructors { length (protocol_of protocol.now).constructors < 2 ^ 32 }
    requires rules { AllByRecursion CanAllBeRenamed (protocol_of protocol.now).destructors }
    ensures grows { Grows (B.trees bank.old) (B.trees bank.new) }
    ensures listed { IfOk result (λ list. Lists (B.trees bank.new) list
        (clauses_of (protocol_of protocol.now))) }
{
    let mut list = Clauses {
        items: Vec::new(alloc),
    };
    add_names(alloc, bank, &protocol.frees, &mut list)?;
    add_own_names(alloc, bank, &mut list)?;
    let first = InPhase { alloc, phase: 0 };
    add_phase(first, bank, protocol, &mut list)?;
    add_later_phases(alloc, bank, protocol, &mut list)?;
    Ok(list)
}

/// The attacker's clauses, in order: that he has the public free names and names of his own; that he applies the public
/// constructors that are no data constructors, and the rules of the destructors; that he hears and sends on channels
/// that he has; and for each later phase, up to the greatest, that he keeps what he has in the phase before, and can do the
/// same in that one. The numbers of their variables are low.
///
/// The conditions hold of each protocol that is read. `Err` comes only for want of memory; then the bank is as before.
pub fn attacker_list<B: Bank>(
    alloc: Global,
    bank: &mut B,
    protocol: &Protocol,
) -> Result<Clauses, AllocError>
    requires limits { IsWithinLimits (protocol_of protocol.now) }
    requires rules { HasProperRules (protocol_of protocol.now) }
    requires scoped { IsWellScoped (protocol_of protocol.now) }
    ensures grows { Grows (B.trees bank.old) (B.trees bank.new) }
    ensures names { IfOk result (λ list. NameClauses (B.trees bank.new) list
        (clauses_of (protocol_of protocol.now))) }
    ensures low { IfOk result (λ list. AreLowWithinLimit (B.trees bank.new) list) }
    ensures err { OnErr result (B.trees bank.new ≡ B.trees bank.old) }
{
    let mark = bank.mark();
    match list_grown(alloc, bank, protocol) {
        Ok(list) => Ok(list),
        Err(error) => {
            bank.back(mark);
            Err(error)
        }
    }
}
