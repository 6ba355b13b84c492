//! The attack that an unsatisfied clause tells.

ghost use Rattle.std.specs.Prelude.{◌≡◌, ℕ, Some, List, map, option_map, IfOk};
ghost use Rattle.spec_calculus.specs.Points.{numbered};
ghost use Rattle.spec_calculus.specs.Syntax.{Query as QueryOf};
ghost use Rattle.spec_well_formed.specs.Limits.{IsWithinLimits};
ghost use Rattle.spec_well_formed.specs.Rules.{HasProperRules};
ghost use Rattle.spec_well_formed.specs.Queries.{HasProperQueries};
ghost use Rattle.spec_well_formed.specs.WellFormed.{IsWellScoped};
ghost use Rattle.spec_saturation.specs.Key.{Entry};
ghost use Rattle.pi_tree.specs.Protocols.{protocol_of};
ghost use Rattle.pi_tree.specs.Accessors.{IsThere};
ghost use Rattle.pi_tree.specs.declared.accessors.Kind.TheVariants.{Query as OfQueries};
ghost use Rattle.pi_model.specs.Steps.{step_of};
ghost use Rattle.clause_translate.specs.Whole.{IsLargeAt};
ghost use Rattle.log_entries.specs.PlainLogs.{TellPlainLog};
ghost use Rattle.clause_instances.specs.Derivations.{HasNormedLog};
ghost use Rattle.attack_compiling.specs.Compiled.{AreFew};
ghost use Rattle.attack_run.specs.Told.{IsTold, AreCompiled};

use attack_compiling::{Compilation, compiled};
use clause_instances::{Derivation, instances_of};
use clause_translate::sources;
use log_entries::PlainLog;
use pi_model::Step;
use pi_tree::Protocol;
use run_replay::{Steps, violates};
use std::alloc::{AllocError, Global};
use term_store::SharedBank;

/// The steps that the entry of that number is compiled to; none where it is compiled to nothing.
fn steps_of(
    alloc: Global,
    protocol: &Protocol,
    query: u32,
    log: &PlainLog,
    entry: usize,
) -> Result<Option<Vec<Step>>, AllocError>
    requires limits { IsWithinLimits (protocol_of protocol.now) }
    requires rules { HasProperRules (protocol_of protocol.now) }
    requires scoped { IsWellScoped (protocol_of protocol.now) }
    requires queries { HasProperQueries (protocol_of protocol.now) }
    requires there { IsThere (protocol_of protocol.now) OfQueries query }
    requires small { (point : ℕ) → IsLargeAt (protocol_of protocol.now) point → ⊥ }
    requires normed { HasNormedLog log.now }
    ensures few { IfOk result (λ found. AreFew (option_map (λ steps. steps.items) found)) }
    ensures compiled { (q : QueryOf) (entries : List Entry) →
        numbered (protocol_of protocol.now).queries query ≡ Some q →
        TellPlainLog log.now entries → IfOk result (λ found. AreCompiled
        (protocol_of protocol.now) q entries entry
        (option_map (λ steps. map step_of steps.items) found)) }
{
    let mut bank = SharedBank::new(alloc)?;
    let told = sources(alloc, &mut bank, protocol, query)?;
    let derivation = Derivation {
        alloc,
        sources: &told,
        log,
    };
    let Some(instances) = instances_of(&derivation, &mut bank, entry)? else {
        return Ok(None);
    };
    let compilation = Compilation {
        alloc,
        protocol,
        sources: &told,
        instances: &instances,
    };
    compiled(&compilation, &mut bank)
}

/// The attack on the query of that number which the entry of that number tells: the run that its derivation is compiled to, where a
/// beginning of it ends in a violation of the query. None where there is no such run.
pub fn reconstruct(
    alloc: Global,
    protocol: &Protocol,
    query: u32,
    log: &PlainLog,
    entry: usize,
) -> Result<Option<Steps>, AllocError>
    requires limits { IsWithinLimits (protocol_of protocol.now) }
    requires rules { HasProperRules (protocol_of protocol.now) }
    requires scoped { IsWellScoped (protocol_of protocol.now) }
    requires queries { HasProperQueries (protocol_of protocol.now) }
    requires there { IsThere (protocol_of protocol.now) OfQueries query }
    requires small { (point : ℕ) → IsLargeAt (protocol_of protocol.now) point → ⊥ }
    requires normed { HasNormedLog log.now }
    ensures { IfOk result (λ attack.
        IsTold (protocol_of protocol.now) query log.now entry attack) }
{
    let Some(items) = steps_of(alloc, protocol, query, log, entry)? else {
        return Ok(None);
    };
    if violates(alloc, protocol, &items, query)? {
        return Ok(Some(Steps { items }));
    }
    Ok(None)
}
