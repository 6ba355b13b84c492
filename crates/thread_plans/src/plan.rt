//! Plans: what the threads and the attacker are to do, of all instances that an entry comes from.

ghost use Rattle.clause_instances.specs.Instances.{AreKnownInstances, IsKnownInstance};
ghost use Rattle.term_tree.specs.Bank.{AreKnown};

use crate::bounds::{MOST_NODES, MOST_TWINS};
use crate::naming::PlanNames;
use crate::nodes::Node;
use crate::routes::{Route, Twin, Walk};
use clause_form::PlainFact;
use clause_instances::{Instance, Instances};
use clause_sources::{Action, Source, Sources, Way, read_trees};
use pi_tree::{Protocol, Values};
use std::alloc::{AllocError, Global};
use term_store::SharedBank;
use term_tree::Id;

/// An application of a rule of a destructor by the attacker.
pub(crate) struct Reduction {
    pub destructor: u32,
    pub rule: u32,
    pub arguments: Values,
}

impl Drop for Reduction {
    fn drop(self) {
        let Reduction {
            destructor: _,
            rule: _,
            arguments,
        } = self;
        drop(arguments);
    }
}

/// What the threads and the attacker are to do, and what the attacker is to have at the end.
pub struct Plan<'a> {
    pub(crate) nodes: Vec<Node<'a>>,
    pub(crate) reductions: Vec<Reduction>,
    pub(crate) wanted: Vec<Values>,
    names: PlanNames,
}

impl Drop for Plan<'_> {
    fn drop(self) {
        let Plan {
            nodes,
            reductions,
            wanted,
            names,
        } = self;
        drop(nodes);
        drop(reductions);
        drop(wanted);
        drop(names);
    }
}

/// What a plan is made for.
#[derive(Clone, Copy)]
pub struct Planning<'a> {
    pub alloc: Global,
    pub protocol: &'a Protocol,
    pub sources: &'a Sources,
}

/// Whether the clause of the source supposes nothing but what the attacker has.
fn is_wanted(source: &Source) -> bool {
    let raw = source.raw();
    raw.hyps
        .items
        .iter()
        .all(|fact| matches!(fact, PlainFact::Att(..)))
}

impl<'a> Plan<'a> {
    /// Nothing is to be done.
    fn new(alloc: Global) -> Plan<'a> {
        Plan {
            nodes: Vec::new(alloc),
            reductions: Vec::new(alloc),
            wanted: Vec::new(alloc),
            names: PlanNames::new(alloc),
        }
    }

    /// The index of the node, which is added where it isn't there; none where a thread does something else there, or where there
    /// are too many nodes.
    fn index_of(&mut self, node: Node<'a>) -> Result<Option<usize>, AllocError> {
        'each: for (index, other) in self.nodes.iter().enumerate() {
            if other.is_same_place(&node) {
                if other.is_same_deed(&node) {
                    return Ok(Some(index));
                }
                return Ok(None);
            }
        }
        let index = self.nodes.len();
        if index >= MOST_NODES {
            return Ok(None);
        }
        self.nodes.push(node)?;
        Ok(Some(index))
    }

    /// Adds the nodes of the way, and tells whether that can be done.
    fn add_way(&mut self, route: &Route<'a>) -> Result<bool, AllocError> {
        let way = route.way;
        let mut walk = Walk::start(route.protocol);
        'each: for _turn in 0..MOST_NODES {
            let Some(node) = route.node_at(&walk, &mut self.names)? else {
                return Ok(false);
            };
            let Some(index) = self.index_of(node)? else {
                return Ok(false);
            };
            if walk.point == way.point {
                return Ok(true);
            }
            let Some(next) = route.below(&walk, index) else {
                return Ok(false);
            };
            walk = next;
        }
        Ok(false)
    }

    /// Adds the nodes of the way, or none of them, and tells which.
    fn add_whole_way(&mut self, route: &Route<'a>) -> Result<bool, AllocError> {
        let count = self.nodes.len();
        if self.add_way(route)? {
            return Ok(true);
        }
        self.nodes.truncate(count);
        Ok(false)
    }

    /// Adds the nodes of the way, in a copy of its own below that many replications where the thread does something else than
    /// another one in that copy, and tells whether that can be done.
    fn add_beside(&mut self, route: &mut Route<'a>) -> Result<bool, AllocError> {
        let depth = route.sessions.items.len();
        'each: for turn in 0..depth {
            'twins: for number in 1..=MOST_TWINS {
                route.twin = Twin {
                    depth: depth - 1 - turn,
                    number,
                };
                if self.add_whole_way(route)? {
                    return Ok(true);
                }
            }
        }
        Ok(false)
    }

    /// Adds what an instance of a source that goes this way does, and tells whether that can be done.
    fn add_thread(
        &mut self,
        planning: &Planning<'a>,
        bank: &SharedBank,
        way: &'a Way,
        instance: &Instance,
    ) -> Result<bool, AllocError>
        requires { IsKnownInstance bank.now instance.now }
    {
        let alloc = planning.alloc;
        let messages = self.values_at(alloc, bank, &instance.messages.items)?;
        let sessions = self.values_at(alloc, bank, &instance.sessions.items)?;
        let mut route = Route {
            alloc,
            protocol: planning.protocol,
            way,
            messages,
            sessions,
            twin: Twin::none(),
        };
        if self.add_whole_way(&route)? {
            return Ok(true);
        }
        self.add_beside(&mut route)
    }

    /// The values of terms of the bank.
    fn values_at(
        &mut self,
        alloc: Global,
        bank: &SharedBank,
        ids: &[Id],
    ) -> Result<Values, AllocError>
        requires { AreKnown bank.now ids.now }
    {
        let trees = read_trees(alloc, bank, ids)?;
        self.names.values_of(&trees)
    }

    /// Adds what an instance does, and tells whether that can be done.
    fn add(
        &mut self,
        planning: &Planning<'a>,
        bank: &SharedBank,
        instance: &Instance,
    ) -> Result<bool, AllocError>
        requires { IsKnownInstance bank.now instance.now }
    {
        let sources = planning.sources;
        let Some(source) = sources.items.get(instance.source) else {
            return Ok(false);
        };
        match source.action() {
            Action::Builds(_) => Ok(true),
            Action::Idle => {
                if is_wanted(source) {
                    let supposed = self.values_at(planning.alloc, bank, &instance.supposed.items)?;
                    self.wanted.push(supposed)?;
                }
                Ok(true)
            }
            Action::Reduces(destructor, rule) => {
                let arguments = self.values_at(planning.alloc, bank, &instance.supposed.items)?;
                self.reductions.push(Reduction {
                    destructor: *destructor,
                    rule: *rule,
                    arguments,
                })?;
                Ok(true)
            }
            Action::Reaches(way) => self.add_thread(planning, bank, way, instance),
        }
    }
}

/// What the threads and the attacker do in the instances; none where two threads can't be told apart, or there is too much to do.
pub fn planned<'a>(
    planning: &Planning<'a>,
    bank: &SharedBank,
    instances: &Instances,
) -> Result<Option<Plan<'a>>, AllocError>
    requires { AreKnownInstances bank.now instances.now }
{
    let mut plan = Plan::new(planning.alloc);
    'each: for instance in &instances.items {
        if !plan.add(planning, bank, instance)? {
            return Ok(None);
        }
    }
    Ok(Some(plan))
}
