//! Steps of a plan as they become possible, in place of one fixed order.

ghost use Rattle.std.specs.Prelude.{◌<◌, ◌≤◌, length};
ghost use Rattle.spec_well_formed.specs.Limits.{IsWithinLimits};
ghost use Rattle.pi_tree.specs.Protocols.{protocol_of};

use crate::bounds::MOST_ROUNDS;
use crate::nodes::Node;
use crate::plan::Plan;
use crate::running::Run;
use pi_model::{Step, violated};
use pi_tree::{Alternatives, Atoms, Process, Protocol, Query};
use std::alloc::{AllocError, Global};

/// What goes first where an entry that is written would keep a thread from missing it.
#[derive(Clone, Copy, PartialEq, Eq)]
pub enum Order {
    MissesFirst,
    InsertsFirst,
}

/// When a node's turn comes.
#[derive(Clone, Copy, PartialEq, Eq)]
enum Turn {
    /// A thread moves by itself.
    Moves,
    /// A thread hears, is heard, or takes an entry.
    Talks,
    /// An event of which the query doesn't ask whether it came before.
    Marks,
    /// An entry is written, which may keep a thread from missing it.
    Writes,
    /// An event of which the query asks whether it came before.
    Spoils,
    /// Never by itself.
    Never,
}

/// How far a node of the plan has come: its thread, once that is there, and whether the thread has passed it.
#[derive(Clone, Copy)]
pub(crate) struct Progress {
    pub thread: Option<u32>,
    pub is_done: bool,
}

/// What is tried: a plan for the query of that number.
#[derive(Clone, Copy)]
pub struct Attempt<'a> {
    pub alloc: Global,
    pub protocol: &'a Protocol,
    pub query: u32,
    pub plan: &'a Plan<'a>,
    pub order: Order,
    ghost there: { (0 < query) × (query ≤ length protocol.now.queries) },
}

/// A plan that is being carried out: the run so far, how far each node has come, and which reductions were made.
pub(crate) struct Schedule<'a> {
    pub attempt: Attempt<'a>,
    pub run: Run<'a>,
    pub progress: Vec<Progress>,
    reduced: Vec<usize>,
}

impl Drop for Schedule<'_> {
    fn drop(self) {
        let Schedule {
            attempt: _,
            run,
            progress,
            reduced,
        } = self;
        drop(run);
        drop(progress);
        drop(reduced);
    }
}

/// The steps that came of a plan, and whether they end in a violation.
#[derive(Drop)]
pub struct Attempted {
    pub steps: Vec<Step>,
    pub is_violated: bool,
}

/// Whether the event is one of these.
fn is_among(events: &Atoms, event: u32) -> bool {
    events.items.iter().any(|atom| atom.event == event)
}

/// Whether the event is one of an alternative.
fn is_alternative(alternatives: &Alternatives, event: u32) -> bool {
    'each: for events in &alternatives.items {
        if is_among(events, event) {
            return true;
        }
    }
    false
}

/// Whether the query asks if the event came before.
fn is_asked(query: &Query, event: u32) -> bool {
    match query {
        Query::Secret(_, _) | Query::SecretNew(_, _) => false,
        Query::Corr { alternatives, .. } => is_alternative(alternatives, event),
    }
}

impl<'a> Schedule<'a> {
    /// Nothing is done yet.
    fn start(attempt: Attempt<'a>) -> Result<Schedule<'a>, AllocError>
        requires { IsWithinLimits (protocol_of attempt.protocol.now) }
    {
        let run = Run::start(attempt.alloc, attempt.protocol)?;
        let mut progress = Vec::with_capacity(attempt.alloc, attempt.plan.nodes.len())?;
        'each: for node in &attempt.plan.nodes {
            let thread = match node.above {
                None => Some(1),
                Some(_) => None,
            };
            progress.push(Progress {
                thread,
                is_done: false,
            })?;
        }
        Ok(Schedule {
            attempt,
            run,
            progress,
            reduced: Vec::new(attempt.alloc),
        })
    }

    /// The query.
    fn query(&self) -> &'a Query {
        let Attempt {
            protocol,
            query,
            ..
        } = self.attempt;
        protocol.query(query)
    }

    /// The steps of the run.
    fn into_steps(self) -> Vec<Step> {
        let Schedule {
            attempt: _,
            run,
            progress,
            reduced,
        } = self;
        drop(progress);
        drop(reduced);
        run.into_steps()
    }

    /// When the node's turn comes.
    fn turn_of(&self, node: &Node<'_>) -> Turn {
        let is_hasty = self.attempt.order == Order::InsertsFirst;
        match node.process {
            Process::Par(..) | Process::Copies(_) | Process::New(..) | Process::Let(..) => {
                Turn::Moves
            }
            Process::Output(..) | Process::Input(..) => Turn::Talks,
            Process::Event(atom, _) => {
                if self.is_spoiling(atom.event) {
                    Turn::Spoils
                } else {
                    Turn::Marks
                }
            }
            Process::Get(..) => {
                if !node.is_otherwise() {
                    Turn::Talks
                } else if is_hasty {
                    Turn::Writes
                } else {
                    Turn::Moves
                }
            }
            Process::Insert(..) => { if is_hasty { Turn::Talks } else { Turn::Writes } }
            Process::Phase(..) | Process::Nil => Turn::Never,
        }
    }

    /// Whether the query asks if the event came before.
    pub(crate) fn is_spoiling(&self, event: u32) -> bool {
        is_asked(self.query(), event)
    }

    /// Whether the run violates the query by now.
    fn is_violated(&self) -> bool {
        violated(self.attempt.protocol, &self.run.conf, self.attempt.query)
    }

    /// Does what can be done of these nodes, each once in their order, and tells whether that is something.
    fn sweep(&mut self, turn: Turn) -> Result<bool, AllocError> {
        let plan = self.attempt.plan;
        let mut is_any = false;
        'each: for (index, node) in plan.nodes.iter().enumerate() {
            if self.turn_of(node) == turn && self.act(index, node)? {
                is_any = true;
            }
        }
        Ok(is_any)
    }

    /// Does the first of these nodes that can be done, and tells whether there is one.
    fn first(&mut self, turn: Turn) -> Result<bool, AllocError> {
        let plan = self.attempt.plan;
        'each: for (index, node) in plan.nodes.iter().enumerate() {
            if self.turn_of(node) == turn && self.act(index, node)? {
                return Ok(true);
            }
        }
        Ok(false)
    }

    /// The attacker makes the reductions that it can and hasn't made, and tells whether that is something.
    fn reduce(&mut self) -> Result<bool, AllocError> {
        let plan = self.attempt.plan;
        let mut is_any = false;
        'each: for (index, reduction) in plan.reductions.iter().enumerate() {
            if self.is_reduced(index) {
                continue;
            }
            if self.run.reduce(reduction)? {
                self.reduced.push(index)?;
                is_any = true;
            }
        }
        Ok(is_any)
    }

    /// Whether the reduction at the index was made.
    fn is_reduced(&self, index: usize) -> bool {
        self.reduced.iter().any(|done| *done == index)
    }

    /// The attacker builds what it is to have, where it can build all of it, and tells whether that took a step.
    fn want(&mut self) -> Result<bool, AllocError> {
        let plan = self.attempt.plan;
        let count = self.run.steps.len();
        'each: for values in &plan.wanted {
            if self.run.can_build_all(values)? {
                let _places = self.run.build_all(values)?;
            }
        }
        Ok(self.run.steps.len() > count)
    }

    /// One round: the first kind of thing of which something can be done; false where nothing can.
    fn round(&mut self) -> Result<bool, AllocError> {
        if self.reduce()? || self.want()? {
            return Ok(true);
        }
        let is_moved = self.sweep(Turn::Moves)?;
        let is_heard = self.sweep(Turn::Talks)?;
        let is_marked = self.sweep(Turn::Marks)?;
        if is_moved || is_heard || is_marked {
            return Ok(true);
        }
        if self.listen()? || self.first(Turn::Writes)? || self.first(Turn::Spoils)? {
            return Ok(true);
        }
        self.next_phase()
    }

    /// Rounds until the query is violated or nothing can be done; whether it is violated.
    fn rounds(&mut self) -> Result<bool, AllocError> {
        'each: for _turn in 0..MOST_ROUNDS {
            self.run.take_parts()?;
            if self.is_violated() {
                return Ok(true);
            }
            if !self.round()? {
                return Ok(false);
            }
        }
        Ok(false)
    }
}

/// The steps that come of the plan.
pub fn carried_out(attempt: Attempt<'_>) -> Result<Attempted, AllocError>
    requires { IsWithinLimits (protocol_of attempt.protocol.now) }
{
    let mut schedule = Schedule::start(attempt)?;
    let is_violated = schedule.rounds()?;
    let steps = schedule.into_steps();
    Ok(Attempted { steps, is_violated })
}
