//! The sources of all of the attacker's clauses.

ghost use Rattle.std.specs.Prelude.{◌≡◌, IfOk};
ghost use Rattle.spec_well_formed.specs.Limits.{IsWithinLimits};
ghost use Rattle.spec_well_formed.specs.Rules.{HasProperRules};
ghost use Rattle.spec_well_formed.specs.WellFormed.{IsWellScoped};
ghost use Rattle.spec_attack_runs.specs.Gathered.{attacker_sources as sources_of_attacker};
ghost use Rattle.pi_tree.specs.Protocols.{protocol_of};

use crate::names::{add_names, add_own_names};
use crate::phases::{add_later_phases, add_phase};
use crate::raws::InPhase;
use clause_sources::Sources;
use pi_tree::Protocol;
use std::alloc::{AllocError, Global};
use term_tree::Bank;

/// The sources of the attacker's clauses, in order. The bank is as before.
///
/// The conditions hold of each protocol that is read. `Err` comes for want of memory.
pub fn attacker_sources<B: Bank>(
    alloc: Global,
    bank: &mut B,
    protocol: &Protocol,
) -> Result<Sources, AllocError>
    requires limits { IsWithinLimits (protocol_of protocol.now) }
    requires rules { HasProperRules (protocol_of protocol.now) }
    requires scoped { IsWellScoped (protocol_of protocol.now) }
    ensures bank { B.trees bank.new ≡ B.trees bank.old }
    ensures tells { IfOk result (λ sources.
        sources ≡ sources_of_attacker (protocol_of protocol.now)) }
{
    let mut sources = Sources::new(alloc);
    add_names(alloc, bank, &protocol.frees, &mut sources)?;
    add_own_names(alloc, bank, &mut sources)?;
    add_phase(InPhase { alloc, phase: 0 }, bank, protocol, &mut sources)?;
    add_later_phases(alloc, bank, protocol, &mut sources)?;
    Ok(sources)
}
