//! The walk of a thread down the process to the point of a way: each node on it is done once in each copy, with one step.

ghost use Rattle.std.specs.Prelude.{◌≡◌, ◌+◌, ◌^◌, ◌<◌, ◌≤◌, List, length, take, drop, slice_get, option_map, IfOk, IfSome};
ghost use Rattle.spec_calculus.specs.Points.{nodes};
ghost use Rattle.spec_terms.specs.Term.{Term};
ghost use Rattle.spec_attack_runs.specs.Compiling.{State as StateOf};
ghost use Rattle.spec_attack_runs.specs.Walking.{plain_node, start_walk, walked};
ghost use Rattle.pi_tree.specs.Processes.{process_of};
ghost use Rattle.term_tree.specs.Bank.{Grows};
ghost use Rattle.clause_sources.specs.Seen.{choice_of};
ghost use Rattle.attack_state.specs.Outcomes.{Does, GoesOn};
ghost use Rattle.attack_state.specs.States.{chosen_of, NamesDone, IsRun, IsState};
ghost use Rattle.attack_compiling.specs.Walks.{protocol_at, way_of, walk_of, IsOnWay, IsKnownWay, chosen_node, entry_node, node_at, NamesNode, once_at, below_at, branches_at, Goes, Passes, PassesOn};

use crate::acting::act;
use attack_state::{Chosen, Done, State};
use clause_instances::Instance;
use clause_sources::{Choice, Way};
use pi_model::{Numbers, Threads};
use pi_tree::{Process, Protocol};
use std::alloc::{AllocError, Global};
use term_store::SharedBank;
use term_tree::Id;

/// The way of a thread in an instance: the way of the instance's source, and the closed messages and sessions.
#[derive(Clone, Copy)]
pub(crate) struct Route<'a> {
    pub alloc: Global,
    pub protocol: &'a Protocol,
    pub way: &'a Way,
    pub messages: &'a [Id],
    pub sessions: &'a [Id],
}

/// How far a walk has come: the process that it stands at and its point, the thread that walks, and how many messages, copies and
/// choices are behind it.
#[derive(Clone, Copy)]
pub(crate) struct Walk<'a> {
    pub process: &'a Process,
    pub point: u32,
    pub thread: u32,
    pub messages: usize,
    pub sessions: usize,
    pub choices: usize,
}

impl<'a> Route<'a> {
    /// The way of the instance.
    pub(crate) fn of(
        alloc: Global,
        protocol: &'a Protocol,
        way: &'a Way,
        instance: &'a Instance,
    ) -> Route<'a>
        ensures protocol { result.protocol.now ≡ protocol.now }
        ensures way { result.way.now ≡ way.now }
        ensures messages { result.messages.now ≡ instance.now.messages }
        ensures sessions { result.sessions.now ≡ instance.now.sessions }
    {
        Route {
            alloc,
            protocol,
            way,
            messages: &instance.messages.items,
            sessions: &instance.sessions.items,
        }
    }

    /// The messages that the walk has received.
    pub(crate) fn received(&self, walk: &Walk<'_>) -> &'a [Id]
        requires { walk.now.messages ≤ length self.now.messages.now }
        ensures { result.now ≡ take walk.now.messages self.now.messages.now }
    {
        &self.messages[..walk.messages]
    }

    /// The copies that it comes from.
    pub(crate) fn copied(&self, walk: &Walk<'_>) -> &'a [Id]
        requires { walk.now.sessions ≤ length self.now.sessions.now }
        ensures { result.now ≡ take walk.now.sessions self.now.sessions.now }
    {
        &self.sessions[..walk.sessions]
    }

    /// The next so many messages, or as many as there are.
    pub(crate) fn next_messages(&self, walk: &Walk<'_>, count: usize) -> &'a [Id]
        requires { walk.now.messages ≤ length self.now.messages.now }
        ensures { result.now ≡ take count (drop walk.now.messages self.now.messages.now) }
    {
        let rest = &self.messages[walk.messages..];
        if count <= rest.len() {
            return &rest[..count];
        }
        rest
    }

    /// The next choice.
    pub(crate) fn next_choice(&self, walk: &Walk<'_>) -> Option<&'a Choice>
        ensures choice { option_map (λ choice. choice_of choice.now) result ≡
            slice_get self.now.way.now.choices walk.now.choices }
        ensures counted { IfSome result (λ choice. walk.now.choices < 2 ^ 63) }
    {
        let way = self.way;
        way.choices.items.get(walk.choices)
    }
}

/// A choice of a way, as nodes keep it.
fn chosen(alloc: Global, choice: &Choice) -> Result<Chosen, AllocError>
    ensures { IfOk result (λ kept. chosen_of kept ≡ choice_of choice.now) }
{
    match choice {
        Choice::Else => Ok(Chosen::Else),
        Choice::Taken(label) => {
            let items = label.items.to_vec(alloc)?;
            Ok(Chosen::Taken(Numbers { items }))
        }
    }
}

/// The node at which a walk stands, as it will be when it is done, where nothing is received or chosen there and no thread begins.
fn plain_node(route: &Route<'_>, walk: &Walk<'_>) -> Result<Done, AllocError>
    requires { IsOnWay route.now walk.now }
    ensures { (all : List Term) → IsKnownWay all route.now → IfOk result (λ node.
        NamesDone all node (plain_node walk.now.point (walk_of all route.now walk.now))) }
{
    let alloc = route.alloc;
    let sessions = route.copied(walk).to_vec(alloc)?;
    let choice = Chosen::Taken(Numbers {
        items: Vec::new(alloc),
    });
    Ok(Done {
        point: walk.point,
        sessions,
        messages: Vec::new(alloc),
        choice,
        other: walk.thread,
    })
}

/// The node where a choice is made.
fn chosen_node(route: &Route<'_>, walk: &Walk<'_>, choice: &Choice) -> Result<Done, AllocError>
    requires { IsOnWay route.now walk.now }
    ensures { (all : List Term) → IsKnownWay all route.now → IfOk result (λ node.
        NamesDone all node (chosen_node walk.now.point (walk_of all route.now walk.now)
        (choice_of choice.now))) }
{
    let mut node = plain_node(route, walk)?;
    node.choice = chosen(route.alloc, choice)?;
    Ok(node)
}

/// The node where a choice is made, and so many messages are taken unless it is the else branch.
fn entry_node(
    route: &Route<'_>,
    walk: &Walk<'_>,
    choice: &Choice,
    taken: usize,
) -> Result<Done, AllocError>
    requires { IsOnWay route.now walk.now }
    ensures { (all : List Term) → IsKnownWay all route.now → IfOk result (λ node.
        NamesDone all node (entry_node walk.now.point (walk_of all route.now walk.now) taken
        (choice_of choice.now))) }
{
    let mut node = chosen_node(route, walk, choice)?;
    match choice {
        Choice::Else => Ok(node),
        Choice::Taken(_) => {
            node.messages = route.next_messages(walk, taken).to_vec(route.alloc)?;
            Ok(node)
        }
    }
}

/// The node at which a walk stands, as it will be when it is done; none where the way doesn't tell how.
fn node_of(route: &Route<'_>, walk: &Walk<'_>, other: u32) -> Result<Option<Done>, AllocError>
    requires { IsOnWay route.now walk.now }
    ensures { (all : List Term) → IsKnownWay all route.now → IfOk result (λ found.
        NamesNode all found (node_at (process_of walk.now.process.now) walk.now.point
        (walk_of all route.now walk.now) other)) }
{
    match walk.process {
        Process::Nil => Ok(None),
        Process::Par(..) => {
            let mut node = plain_node(route, walk)?;
            node.other = other;
            Ok(Some(node))
        }
        Process::Input(..) => match route.messages.get(walk.messages) {
            None => Ok(None),
            Some(message) => {
                let mut node = plain_node(route, walk)?;
                node.messages.push(*message)?;
                Ok(Some(node))
            }
        },
        Process::Copies(_) => match route.sessions.get(walk.sessions) {
            None => Ok(None),
            Some(session) => {
                let mut node = plain_node(route, walk)?;
                node.sessions.push(*session)?;
                node.other = other;
                Ok(Some(node))
            }
        },
        Process::Let(..) => match route.next_choice(walk) {
            None => Ok(None),
            Some(choice) => Ok(Some(chosen_node(route, walk, choice)?)),
        },
        Process::Get(_, patterns, ..) => match route.next_choice(walk) {
            None => Ok(None),
            Some(choice) => {
                let taken = patterns.items.len();
                Ok(Some(entry_node(route, walk, choice, taken)?))
            }
        },
        Process::Output(..)
        | Process::New(..)
        | Process::Event(..)
        | Process::Phase(..)
        | Process::Insert(..) => Ok(Some(plain_node(route, walk)?)),
    }
}

/// The walk below a node that was done, with the thread that began there; none where there is nothing below it.
fn below<'a>(route: &Route<'a>, walk: &Walk<'a>, other: u32) -> Option<Walk<'a>>
    requires { IsOnWay route.now walk.now }
    ensures { Goes route.now (λ all. below_at (process_of walk.now.process.now) walk.now.point
        (walk_of all route.now walk.now) other) walk.now.point result }
{
    let next = walk.point + 1;
    match walk.process {
        Process::Nil => None,
        Process::Output(_, _, process)
        | Process::New(_, process)
        | Process::Event(_, process)
        | Process::Phase(_, process)
        | Process::Insert(_, _, process) => Some(Walk {
            process: &**process,
            point: next,
            ..*walk
        }),
        Process::Input(_, _, process) => match route.messages.get(walk.messages) {
            None => None,
            Some(_) => Some(Walk {
                process: &**process,
                point: next,
                messages: walk.messages + 1,
                ..*walk
            }),
        },
        Process::Par(left, right) => {
            let after = next + left.count_nodes();
            let way = route.way;
            if way.point < after {
                return Some(Walk {
                    process: &**left,
                    point: next,
                    ..*walk
                });
            }
            Some(Walk {
                process: &**right,
                point: after,
                thread: other,
                ..*walk
            })
        }
        Process::Copies(process) => match route.sessions.get(walk.sessions) {
            None => None,
            Some(_) => Some(Walk {
                process: &**process,
                point: next,
                thread: other,
                sessions: walk.sessions + 1,
                ..*walk
            }),
        },
        Process::Let(_, _, process, otherwise) => branch(route, walk, process, otherwise, 0),
        Process::Get(_, patterns, _, process, otherwise) => {
            branch(route, walk, process, otherwise, patterns.items.len())
        }
    }
}

/// The walk below a choice: in the branch that was taken, behind so many messages, or in the else branch.
fn branch<'a>(
    route: &Route<'a>,
    walk: &Walk<'a>,
    process: &'a Process,
    otherwise: &'a Process,
    taken: usize,
) -> Option<Walk<'a>>
    requires on_way { IsOnWay route.now walk.now }
    requires points { walk.now.point + 1 + length (nodes (process_of process.now)) +
        length (nodes (process_of otherwise.now)) ≤ length (nodes (protocol_at route.now).main) + 1 }
    ensures { Goes route.now (λ all. branches_at (process_of process.now) (process_of otherwise.now)
        taken walk.now.point (walk_of all route.now walk.now)) walk.now.point result }
{
    match route.next_choice(walk) {
        None => None,
        Some(Choice::Taken(_)) => {
            let messages = walk.messages + route.next_messages(walk, taken).len();
            Some(Walk {
                process,
                point: walk.point + 1,
                messages,
                choices: walk.choices + 1,
                ..*walk
            })
        }
        Some(Choice::Else) => Some(Walk {
            process: otherwise,
            point: walk.point + 1 + process.count_nodes(),
            choices: walk.choices + 1,
            ..*walk
        }),
    }
}

/// How a node went: it was done now or before, with the thread that began there; or it can't be done.
#[derive(Clone, Copy)]
pub(crate) enum Passed {
    Stuck,
    Done(u32),
}

/// The number of the next thread.
fn next_thread(threads: &Threads) -> u32
    requires { length threads.now + 1 < 2 ^ 32 }
    ensures { result ≡ length threads.now + 1 }
{
    threads.items.len() as u32 + 1
}

/// Does the node at which the walk stands, unless it was done in the copy before: then nothing happens, and where it was done
/// otherwise it can't be done.
fn once(
    route: &Route<'_>,
    bank: &mut SharedBank,
    state: &mut State,
    walk: &Walk<'_>,
) -> Result<Passed, AllocError>
    requires run { IsRun (protocol_at route.now) state.old }
    requires on_way { IsOnWay route.now walk.now }
    requires known { IsKnownWay bank.old route.now }
    ensures grows { Grows bank.old bank.new }
    ensures run { IfOk result (PassesOn (protocol_at route.now) state.new) }
    ensures passes { (st : StateOf) → IsState bank.old state.old st → IfOk result (Passes
        (once_at (protocol_at route.now) (process_of walk.now.process.now) walk.now.point
        (walk_of bank.old route.now walk.now)) st bank.new state.new) }
{
    let other = next_thread(&state.conf.threads);
    let Some(node) = node_of(route, walk, other)? else {
        return Ok(Passed::Stuck);
    };
    bank.equal_trees_have_equal_ids();
    if let Some(done) = state.done.find(node.point, &node.sessions) {
        if node.is_same_deed(done) {
            return Ok(Passed::Done(done.other));
        }
        return Ok(Passed::Stuck);
    }
    if !act(state, route, bank, walk)? {
        return Ok(Passed::Stuck);
    }
    let begun = node.other;
    state.done.push(node)?;
    Ok(Passed::Done(begun))
}

/// Walks to the point of the way, and tells whether it can be reached and done.
pub(crate) fn walk_to(
    route: &Route<'_>,
    bank: &mut SharedBank,
    state: &mut State,
) -> Result<bool, AllocError>
    requires run { IsRun (protocol_at route.now) state.old }
    requires known { IsKnownWay bank.old route.now }
    ensures grows { Grows bank.old bank.new }
    ensures run { IfOk result (GoesOn (protocol_at route.now) state.new) }
    ensures walks { (st : StateOf) → IsState bank.old state.old st → IfOk result (Does
        (walked (protocol_at route.now) (protocol_at route.now).main 1
        (start_walk (way_of bank.old route.now))) st bank.new state.new) }
{
    let mut walk = Walk {
        process: &route.protocol.main,
        point: 1,
        thread: 1,
        messages: 0,
        sessions: 0,
        choices: 0,
    };
    let way = route.way;
    'each: loop {
        let Passed::Done(other) = once(route, bank, state, &walk)? else {
            return Ok(false);
        };
        if walk.point == way.point {
            return Ok(true);
        }
        let Some(next) = below(route, &walk, other) else {
            return Ok(false);
        };
        walk = next;
    }
}
