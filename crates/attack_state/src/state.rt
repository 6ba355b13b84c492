//! What is known of a run so far, and one more step of it.

ghost use Rattle.std.specs.Prelude.{◌≡◌, ◌+◌, ◌*◌, ◌^◌, ◌<◌, List, length, map, IfOk};
ghost use Rattle.spec_terms.specs.Term.{Term};
ghost use Rattle.spec_calculus.specs.Points.{nodes};
ghost use Rattle.spec_attack_runs.specs.Attack.{most_steps};
ghost use Rattle.spec_attack_runs.specs.Compiling.{State as StateOf, start_state, stepped, all_stepped, take_step};
ghost use Rattle.pi_tree.specs.Protocols.{protocol_of};
ghost use Rattle.pi_model.specs.Steps.{step_of};
ghost use Rattle.attack_state.specs.Outcomes.{Does, GoesOn};
ghost use Rattle.attack_state.specs.Parts.{part_step, with_parts};
ghost use Rattle.attack_state.specs.States.{IsRun, IsState};

use crate::done::DoneNodes;
use crate::parts::add_parts;
use crate::values::{Known, Names};
use pi_model::{ApplyError, Conf, Step, apply, start};
use pi_tree::Protocol;
use std::alloc::{AllocError, Global};

/// The most steps of which an attack is told.
pub(crate) const MOST_STEPS: usize = 100_000;

/// What is known of the run so far: where it stands, its steps, the values of names, the nodes that were done, and the threads that
/// wait at outputs, in order. Beside it stands where the known values are looked up.
#[derive(Drop)]
pub struct State {
    pub conf: Conf,
    pub steps: Vec<Step>,
    pub names: Names,
    pub done: DoneNodes,
    pub waiting: Vec<u32>,
    pub known: Known,
}

impl State {
    /// Where each run of the protocol starts.
    pub fn start(alloc: Global, protocol: &Protocol) -> Result<State, AllocError>
        requires frees { length (protocol_of protocol.now).frees + 2 * most_steps < 2 ^ 32 }
        requires points { length (nodes (protocol_of protocol.now).main) + 1 < 2 ^ 32 }
        ensures run { IfOk result (IsRun (protocol_of protocol.now)) }
        ensures state { IfOk result (λ state. (all : List Term) →
            IsState all state (start_state (protocol_of protocol.now))) }
    {
        let conf = start(alloc, protocol)?;
        let mut known = Known::new(alloc);
        known.reach(&conf.known)?;
        Ok(State {
            conf,
            steps: Vec::new(alloc),
            names: Names::new(alloc),
            done: DoneNodes::new(alloc),
            waiting: Vec::new(alloc),
            known,
        })
    }

    /// One more step; whether it could be made.
    fn one_step(
        &mut self,
        alloc: Global,
        protocol: &Protocol,
        step: Step,
    ) -> Result<bool, AllocError>
        requires { IsRun (protocol_of protocol.now) self.old }
        ensures run { IfOk result (GoesOn (protocol_of protocol.now) self.new) }
        ensures does { (all : List Term) (st : StateOf) → IsState all self.old st →
            IfOk result (Does (stepped (protocol_of protocol.now) (step_of step)) st all self.new) }
    {
        match apply(alloc, protocol, &mut self.conf, &step) {
            Ok(()) => {
                if self.steps.len() >= MOST_STEPS {
                    return Ok(false);
                }
                self.known.reach(&self.conf.known)?;
                self.steps.push(step)?;
                Ok(true)
            }
            Err(ApplyError::Refused(_)) => Ok(false),
            Err(ApplyError::Memory(error)) => Err(error),
        }
    }

    /// The steps that take these parts, one after the other; whether all of them could be made.
    fn all_parts(
        &mut self,
        alloc: Global,
        protocol: &Protocol,
        parts: &[(u32, u32)],
    ) -> Result<bool, AllocError>
        requires { IsRun (protocol_of protocol.now) self.old }
        ensures run { IfOk result (GoesOn (protocol_of protocol.now) self.new) }
        ensures does { (all : List Term) (st : StateOf) → IsState all self.old st →
            IfOk result (Does (all_stepped (protocol_of protocol.now)
            (map part_step parts.now)) st all self.new) }
    {
        'each: for (place, number) in parts {
            if !self.one_step(alloc, protocol, Step::Part(*place, *number))? {
                return Ok(false);
            }
        }
        Ok(true)
    }

    /// The steps that take the parts of what became known behind the first so many known values, each followed by its own; whether
    /// all of them could be made.
    fn new_parts(
        &mut self,
        alloc: Global,
        protocol: &Protocol,
        before: usize,
    ) -> Result<bool, AllocError>
        requires { IsRun (protocol_of protocol.now) self.old }
        ensures run { IfOk result (GoesOn (protocol_of protocol.now) self.new) }
        ensures does { (all : List Term) (st : StateOf) → IsState all self.old st →
            IfOk result (Does (with_parts (protocol_of protocol.now) before) st all self.new) }
    {
        let Some(value) = self.conf.known.items.get(before) else {
            return Ok(true);
        };
        let place = before as u32 + 1;
        let mut parts = Vec::new(alloc);
        if !add_parts(protocol, place, place, value, &mut parts)? {
            return Ok(false);
        }
        self.all_parts(alloc, protocol, &parts)
    }

    /// A step, and then the parts of the value that it makes known, each followed by its own; whether they could be made.
    pub fn take_step(
        &mut self,
        alloc: Global,
        protocol: &Protocol,
        step: Step,
    ) -> Result<bool, AllocError>
        requires { IsRun (protocol_of protocol.now) self.old }
        ensures run { IfOk result (GoesOn (protocol_of protocol.now) self.new) }
        ensures does { (all : List Term) (st : StateOf) → IsState all self.old st →
            IfOk result (Does (take_step (protocol_of protocol.now) (step_of step)) st all self.new) }
    {
        let before = self.conf.known.items.len();
        if !self.one_step(alloc, protocol, step)? {
            return Ok(false);
        }
        self.new_parts(alloc, protocol, before)
    }
}
