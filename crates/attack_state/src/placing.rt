//! Places of closed terms among the known values.

ghost use Rattle.std.specs.Prelude.{◌≡◌, ◌<◌, ◌^◌, Option, List, length, map, IfOk};
ghost use Rattle.spec_trees.specs.Tree.{trees};
ghost use Rattle.spec_terms.specs.Term.{Term};
ghost use Rattle.spec_attack_runs.specs.Compiling.{State as StateOf, place_in, made_known, placed, row_placed};
ghost use Rattle.pi_tree.specs.Protocols.{protocol_of};
ghost use Rattle.pi_model.specs.Steps.{step_of};
ghost use Rattle.term_tree.specs.Bank.{tree_at, AreKnown};
ghost use Rattle.attack_state.specs.Outcomes.{Places, PlacesOn};
ghost use Rattle.attack_state.specs.Placings.{placed_fresh};
ghost use Rattle.attack_state.specs.States.{IsRun, IsState, KnowsValues};

use crate::state::State;
use pi_model::{Numbers, Step};
use pi_tree::{Protocol, Value};
use std::alloc::{AllocError, Global};
use term_store::SharedBank;
use term_tree::{Bank, Id, Node, Sym};

impl State {
    /// The first known place of the term's value.
    #[inline(never)]
    fn place_in(&self, bank: &SharedBank, term: Id) -> Result<Option<u32>, AllocError>
        requires knows { KnowsValues self.now.conf.known self.now.known }
        requires room { length self.now.conf.known < 2 ^ 32 }
        requires term { term.index < length bank.now }
        ensures { (st : StateOf) → IsState bank.now self.now st →
            IfOk result (λ found. found ≡ place_in st (tree_at bank.now term)) }
    {
        match self.names.value_of(bank, term)? {
            None => Ok(None),
            Some(value) => Ok(self.known.first_place(&self.conf.known, &value)),
        }
    }

    /// A step that makes a value known, and the place that it gets, if it can be made.
    #[inline(never)]
    fn made_known(
        &mut self,
        alloc: Global,
        protocol: &Protocol,
        step: Step,
    ) -> Result<Option<u32>, AllocError>
        requires { IsRun (protocol_of protocol.now) self.old }
        ensures run { IfOk result (PlacesOn (protocol_of protocol.now) self.new) }
        ensures places { (all : List Term) (st : StateOf) → IsState all self.old st →
            IfOk result (Places (made_known (protocol_of protocol.now) (step_of step)) st
            all self.new) }
    {
        let place = self.conf.known.items.len() as u32 + 1;
        if self.take_step(alloc, protocol, step)? {
            return Ok(Some(place));
        }
        Ok(None)
    }

    /// A name of the attacker's own is made for the term, and gets a place.
    #[inline(never)]
    fn fresh_place(
        &mut self,
        alloc: Global,
        protocol: &Protocol,
        term: Id,
    ) -> Result<Option<u32>, AllocError>
        requires { IsRun (protocol_of protocol.now) self.old }
        ensures run { IfOk result (PlacesOn (protocol_of protocol.now) self.new) }
        ensures places { (all : List Term) (st : StateOf) → term.index < length all →
            IsState all self.old st → IfOk result (Places
            (placed_fresh (protocol_of protocol.now) (tree_at all term)) st all self.new) }
    {
        let number = self.conf.next;
        match self.made_known(alloc, protocol, Step::Fresh)? {
            None => Ok(None),
            Some(place) => {
                self.names.push(term, Value::Fresh(number))?;
                Ok(Some(place))
            }
        }
    }

    /// The place of a closed term: the first known place of its value, or else the one that it gets; none where it gets none.
    #[cycle(place)]
    pub fn place(
        &mut self,
        alloc: Global,
        protocol: &Protocol,
        bank: &SharedBank,
        term: Id,
    ) -> Result<Option<u32>, AllocError>
        requires run { IsRun (protocol_of protocol.now) self.old }
        requires term { term.index < length bank.now }
        ensures run { IfOk result (PlacesOn (protocol_of protocol.now) self.new) }
        ensures places { (st : StateOf) → IsState bank.now self.old st → IfOk result (Places
            (placed (protocol_of protocol.now) (tree_at bank.now term)) st bank.now self.new) }
    {
        if let Some(place) = self.place_in(bank, term)? {
            return Ok(Some(place));
        }
        match bank.node(term) {
            Node::Var(_) => Ok(None),
            Node::App(symbol, parts) => match symbol {
                Sym::Data(constructor) => match self.places(alloc, protocol, bank, parts)? {
                    None => Ok(None),
                    Some(places) => {
                        self.made_known(alloc, protocol, Step::Build(constructor, places))
                    }
                },
                Sym::Tuple(_) => match self.places(alloc, protocol, bank, parts)? {
                    None => Ok(None),
                    Some(places) => self.made_known(alloc, protocol, Step::Build(0, places)),
                },
                Sym::Attacker => self.fresh_place(alloc, protocol, term),
                Sym::Ctor(_) => Ok(None),
                Sym::Free(_) => Ok(None),
                Sym::Point(_) => Ok(None),
            },
        }
    }

    /// The places of closed terms.
    #[cycle(place)]
    pub fn places(
        &mut self,
        alloc: Global,
        protocol: &Protocol,
        bank: &SharedBank,
        terms: &[Id],
    ) -> Result<Option<Numbers>, AllocError>
        requires run { IsRun (protocol_of protocol.now) self.old }
        requires terms { AreKnown bank.now terms.now }
        ensures run { IfOk result (PlacesOn (protocol_of protocol.now) self.new) }
        ensures places { (st : StateOf) → IsState bank.now self.old st → IfOk result (Places
            (row_placed (protocol_of protocol.now) (trees (map (tree_at bank.now) terms.now)))
            st bank.now self.new) }
    {
        let mut items = Vec::with_capacity(alloc, terms.len())?;
        'each: for term in terms {
            match self.place(alloc, protocol, bank, *term)? {
                None => return Ok(None),
                Some(place) => items.push(place)?,
            }
        }
        Ok(Some(Numbers { items }))
    }
}
