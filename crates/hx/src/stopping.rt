//! Where the compilation of instances stops.

ghost use Rattle.std.specs.Prelude.{◌≡◌, ◌+◌, ◌*◌, ◌^◌, ◌<◌, Some, List, [], length, nat_eq, slice_get, IfOk};
ghost use Rattle.spec_calculus.specs.Points.{nodes, greatest_phase};
ghost use Rattle.spec_terms.specs.Term.{Term};
ghost use Rattle.spec_attack_runs.specs.Source.{Source as SourceOf, stage_of};
ghost use Rattle.spec_attack_runs.specs.Compiling.{State as StateOf, start_state};
ghost use Rattle.spec_attack_runs.specs.Attack.{most_steps};
ghost use Rattle.pi_tree.specs.Protocols.{protocol_of};
ghost use Rattle.term_tree.specs.Bank.{Grows};
ghost use Rattle.clause_instances.specs.Instances.{NamesInstance, NameInstances, AreKnownInstances};
ghost use Rattle.attack_state.specs.States.{IsRun, IsState};
ghost use Rattle.hx.specs.Stops.{StopsAt, StopsBy, PlacesOne, StopsIn, RunsOn};

use attack_compiling::{Compilation, compile_at, stage_of};
use attack_state::State;
use clause_instances::Instance;
use log_text::Stop;
use std::alloc::AllocError;
use term_store::SharedBank;

/// The run so far, and the instances that were compiled, in the order in which they are.
#[derive(Drop)]
pub(crate) struct Progress {
    pub state: State,
    pub compiled: Vec<usize>,
}

/// The instance that stops a compilation, and how many steps stand before it.
#[derive(Clone, Copy)]
pub(crate) struct Stopped {
    pub instance: usize,
    pub steps: usize,
}

/// Whether the instance is one of the phase.
fn is_in(compilation: &Compilation<'_>, instance: &Instance, phase: u32) -> bool
    ensures { (all : List Term) (one : SourceOf) →
        NamesInstance all compilation.now.sources.now instance.now one →
        result ≡ nat_eq (stage_of one) phase }
{
    let sources = compilation.sources;
    match sources.items.get(instance.source) {
        None => false,
        Some(source) => stage_of(source) == phase,
    }
}

/// Compiles the instance of that index behind those before, where it is one of the phase; tells where that can't be done.
fn placed(
    compilation: &Compilation<'_>,
    bank: &mut SharedBank,
    progress: &mut Progress,
    index: usize,
    phase: u32,
) -> Result<Option<Stopped>, AllocError>
    requires run { IsRun (protocol_of compilation.now.protocol.now) progress.old.state }
    requires known { AreKnownInstances bank.old compilation.now.instances.now }
    requires there { index < length compilation.now.instances.now }
    ensures grows { Grows bank.old bank.new }
    ensures run { IfOk result (RunsOn (protocol_of compilation.now.protocol.now) progress.new) }
    ensures places { (st : StateOf) (all : List SourceOf) (one : SourceOf) →
        IsState bank.old progress.old.state st →
        NameInstances bank.old compilation.now.sources.now compilation.now.instances.now all →
        slice_get all index ≡ Some one → IfOk result
        (PlacesOne (protocol_of compilation.now.protocol.now) phase one bank.new st
        progress.old progress.new index) }
{
    let instances = compilation.instances;
    let instance = &instances.items[index];
    if !is_in(compilation, instance, phase) {
        return Ok(None);
    }
    let steps = progress.state.steps.len();
    if !compile_at(compilation, bank, &mut progress.state, instance, phase)? {
        return Ok(Some(Stopped {
            instance: index,
            steps,
        }));
    }
    progress.compiled.push(index)?;
    Ok(None)
}

/// Compiles the instances of a phase behind those before, up to the first that can't be.
fn stopped_in(
    compilation: &Compilation<'_>,
    bank: &mut SharedBank,
    progress: &mut Progress,
    phase: u32,
) -> Result<Option<Stopped>, AllocError>
    requires run { IsRun (protocol_of compilation.now.protocol.now) progress.old.state }
    requires known { AreKnownInstances bank.old compilation.now.instances.now }
    ensures grows { Grows bank.old bank.new }
    ensures run { IfOk result (RunsOn (protocol_of compilation.now.protocol.now) progress.new) }
    ensures stops { (st : StateOf) (all : List SourceOf) → IsState bank.old progress.old.state st →
        NameInstances bank.old compilation.now.sources.now compilation.now.instances.now all →
        IfOk result (StopsIn (protocol_of compilation.now.protocol.now) phase all bank.new st
        progress.old.compiled.items progress.new) }
{
    let instances = compilation.instances;
    'each: for index in 0..instances.items.len() {
        match placed(compilation, bank, progress, index, phase)? {
            None => {}
            Some(stopped) => return Ok(Some(stopped)),
        }
    }
    Ok(None)
}

/// Compiles the instances, those of each phase in their order, up to the first that can't be.
fn stopped_of(
    compilation: &Compilation<'_>,
    bank: &mut SharedBank,
    progress: &mut Progress,
) -> Result<Option<Stopped>, AllocError>
    requires phases { greatest_phase (protocol_of compilation.now.protocol.now).main + 1 < 2 ^ 32 }
    requires known { AreKnownInstances bank.old compilation.now.instances.now }
    requires run { IsRun (protocol_of compilation.now.protocol.now) progress.old.state }
    requires start { (all : List Term) →
        IsState all progress.old.state (start_state (protocol_of compilation.now.protocol.now)) }
    requires none { progress.old.compiled.items ≡ [] }
    ensures grows { Grows bank.old bank.new }
    ensures stops { (all : List SourceOf) → NameInstances bank.old compilation.now.sources.now
        compilation.now.instances.now all → IfOk result
        (StopsBy (protocol_of compilation.now.protocol.now) all progress.new) }
{
    let protocol = compilation.protocol;
    'each: for phase in 0..protocol.greatest_phase() + 1 {
        match stopped_in(compilation, bank, progress, phase)? {
            None => {}
            Some(stopped) => return Ok(Some(stopped)),
        }
    }
    Ok(None)
}

/// Where the compilation of the instances stops, those of each phase in their order, as `reconstruct` compiles them; none where
/// they are all compiled. On `Err` the bank may have grown.
pub(crate) fn stop_of(
    compilation: &Compilation<'_>,
    bank: &mut SharedBank,
) -> Result<Option<Stop>, AllocError>
    requires frees { length (protocol_of compilation.now.protocol.now).frees + 2 * most_steps <
        2 ^ 32 }
    requires points { length (nodes (protocol_of compilation.now.protocol.now).main) + 1 < 2 ^ 32 }
    requires phases { greatest_phase (protocol_of compilation.now.protocol.now).main + 1 < 2 ^ 32 }
    requires known { AreKnownInstances bank.old compilation.now.instances.now }
    ensures grows { Grows bank.old bank.new }
    ensures stops { (all : List SourceOf) → NameInstances bank.old compilation.now.sources.now
        compilation.now.instances.now all → IfOk result
        (StopsAt (protocol_of compilation.now.protocol.now) all) }
{
    let mut progress = Progress {
        state: State::start(compilation.alloc, compilation.protocol)?,
        compiled: Vec::new(compilation.alloc),
    };
    match stopped_of(compilation, bank, &mut progress) {
        Err(error) => {
            drop(progress);
            Err(error)
        }
        Ok(None) => {
            drop(progress);
            Ok(None)
        }
        Ok(Some(stopped)) => Ok(Some(Stop {
            compiled: progress.compiled,
            steps: stopped.steps,
            instance: stopped.instance,
            state: progress.state,
        })),
    }
}
