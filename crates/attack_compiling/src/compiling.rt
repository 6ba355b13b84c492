//! Instances compiled into steps.

ghost use Rattle.std.specs.Prelude.{◌≡◌, ◌+◌, ◌*◌, ◌^◌, ◌<◌, Some, List, [], ◌∷◌, length, slice_get, option_map, IfOk};
ghost use Rattle.spec_clauses.specs.Fact.{phase_of};
ghost use Rattle.spec_calculus.specs.Points.{nodes, greatest_phase};
ghost use Rattle.spec_attack_runs.specs.Source.{Source as SourceOf, stage_of};
ghost use Rattle.spec_attack_runs.specs.Compiling.{State as StateOf};
ghost use Rattle.spec_attack_runs.specs.Attack.{compiled, most_steps};
ghost use Rattle.pi_tree.specs.Protocols.{protocol_of};
ghost use Rattle.term_tree.specs.Bank.{Grows};
ghost use Rattle.clause_form.specs.PlainFacts.{plain_fact_of};
ghost use Rattle.clause_instances.specs.Instances.{NamesInstance, NameInstances, IsKnownInstance, AreKnownInstances};
ghost use Rattle.attack_compiling.specs.Compiled.{compile_in, CompilesTo, AreFew};
ghost use Rattle.attack_state.specs.Outcomes.{Does, GoesOn};
ghost use Rattle.attack_state.specs.States.{IsRun, IsState};

use crate::walking::{Route, walk_to};
use attack_state::State;
use clause_form::PlainFact;
use clause_instances::{Instance, Instances};
use clause_sources::{Action, Source, Sources};
use pi_model::Step;
use pi_tree::Protocol;
use std::alloc::{AllocError, Global};
use term_store::SharedBank;

/// Instances of sources, which are compiled for a protocol.
#[derive(Clone, Copy)]
pub struct Compilation<'a> {
    pub alloc: Global,
    pub protocol: &'a Protocol,
    pub sources: &'a Sources,
    pub instances: &'a Instances,
}

/// The phase of a fact, 0 where it has none.
fn phase_of(fact: &PlainFact) -> u32
    ensures { result ≡ phase_of (plain_fact_of fact.now) }
{
    match fact {
        PlainFact::Att(phase, _) | PlainFact::Mess(phase, _, _) => *phase,
        PlainFact::Tab(..) | PlainFact::Ev(..) | PlainFact::Mev(..) | PlainFact::Bad(_) => 0,
    }
}

/// The phase in which a source is used: of the way, and otherwise of the conclusion.
pub fn stage_of(source: &Source) -> u32
    ensures { result ≡ stage_of source.now }
{
    match source.action() {
        Action::Reaches(way) => way.phase,
        _ => phase_of(&source.raw().concl),
    }
}

/// Adds what an instance of the source adds to the run, and tells whether it can be done.
fn compile_one(
    compilation: &Compilation<'_>,
    bank: &mut SharedBank,
    state: &mut State,
    source: &Source,
    instance: &Instance,
) -> Result<bool, AllocError>
    requires run { IsRun (protocol_of compilation.now.protocol.now) state.old }
    requires known { IsKnownInstance bank.old instance.now }
    ensures grows { Grows bank.old bank.new }
    ensures run { IfOk result (GoesOn (protocol_of compilation.now.protocol.now) state.new) }
    ensures does { (st : StateOf) (one : SourceOf) → IsState bank.old state.old st →
        NamesInstance bank.old compilation.now.sources.now instance.now one →
        slice_get compilation.now.sources.now instance.now.source ≡ Some source.now →
        IfOk result (Does (compiled (protocol_of compilation.now.protocol.now) one) st bank.new
        state.new) }
{
    let alloc = compilation.alloc;
    let protocol = compilation.protocol;
    match source.action() {
        Action::Idle => Ok(true),
        Action::Builds(constructor) => {
            match state.places(alloc, protocol, bank, &instance.supposed.items)? {
                None => Ok(false),
                Some(places) => state.take_step(alloc, protocol, Step::Build(*constructor, places)),
            }
        }
        Action::Reduces(destructor, rule) => {
            match state.places(alloc, protocol, bank, &instance.supposed.items)? {
                None => Ok(false),
                Some(places) => {
                    let step = Step::Reduce(*destructor, *rule, places);
                    state.take_step(alloc, protocol, step)
                }
            }
        }
        Action::Reaches(way) => {
            let route = Route::of(alloc, protocol, way, instance);
            walk_to(&route, bank, state)
        }
    }
}

/// Adds what the instance adds to the run where it is one of the phase, and tells whether it can be done.
pub fn compile_at(
    compilation: &Compilation<'_>,
    bank: &mut SharedBank,
    state: &mut State,
    instance: &Instance,
    phase: u32,
) -> Result<bool, AllocError>
    requires run { IsRun (protocol_of compilation.now.protocol.now) state.old }
    requires known { IsKnownInstance bank.old instance.now }
    ensures grows { Grows bank.old bank.new }
    ensures run { IfOk result (GoesOn (protocol_of compilation.now.protocol.now) state.new) }
    ensures does { (st : StateOf) (one : SourceOf) → IsState bank.old state.old st →
        NamesInstance bank.old compilation.now.sources.now instance.now one →
        IfOk result (Does (compile_in (protocol_of compilation.now.protocol.now) phase
        (one ∷ [])) st bank.new state.new) }
{
    let sources = compilation.sources;
    match sources.items.get(instance.source) {
        None => Ok(false),
        Some(source) => {
            if stage_of(source) != phase {
                return Ok(true);
            }
            compile_one(compilation, bank, state, source, instance)
        }
    }
}

/// Adds what the instances of a phase add, in order, and tells whether all can be done.
fn compile_phase(
    compilation: &Compilation<'_>,
    bank: &mut SharedBank,
    state: &mut State,
    phase: u32,
) -> Result<bool, AllocError>
    requires run { IsRun (protocol_of compilation.now.protocol.now) state.old }
    requires known { AreKnownInstances bank.old compilation.now.instances.now }
    ensures grows { Grows bank.old bank.new }
    ensures run { IfOk result (GoesOn (protocol_of compilation.now.protocol.now) state.new) }
    ensures does { (st : StateOf) (all : List SourceOf) → IsState bank.old state.old st →
        NameInstances bank.old compilation.now.sources.now compilation.now.instances.now all →
        IfOk result (Does (compile_in (protocol_of compilation.now.protocol.now) phase all) st
        bank.new state.new) }
{
    let instances = compilation.instances;
    'each: for instance in &instances.items {
        if !compile_at(compilation, bank, state, instance, phase)? {
            return Ok(false);
        }
    }
    Ok(true)
}

/// The steps that the instances are compiled to, those of each phase in their order; none where they can't be.
pub fn compiled(
    compilation: &Compilation<'_>,
    bank: &mut SharedBank,
) -> Result<Option<Vec<Step>>, AllocError>
    requires frees { length (protocol_of compilation.now.protocol.now).frees + 2 * most_steps <
        2 ^ 32 }
    requires points { length (nodes (protocol_of compilation.now.protocol.now).main) + 1 < 2 ^ 32 }
    requires phases { greatest_phase (protocol_of compilation.now.protocol.now).main + 1 < 2 ^ 32 }
    requires known { AreKnownInstances bank.old compilation.now.instances.now }
    ensures few { IfOk result (λ found. AreFew (option_map (λ steps. steps.items) found)) }
    ensures compiled { (all : List SourceOf) → NameInstances bank.old compilation.now.sources.now
        compilation.now.instances.now all → IfOk result
        (λ found. CompilesTo (protocol_of compilation.now.protocol.now) all
        (option_map (λ steps. steps.items) found)) }
{
    let protocol = compilation.protocol;
    let mut state = State::start(compilation.alloc, protocol)?;
    'each: for phase in 0..protocol.greatest_phase() + 1 {
        if !compile_phase(compilation, bank, &mut state, phase)? {
            return Ok(None);
        }
    }
    Ok(Some(state.steps))
}
