//! The way of an instance, walked down the process node by node.

use crate::naming::PlanNames;
use crate::nodes::Node;
use clause_sources::{Choice, Way};
use pi_tree::{Process, Protocol, Value, Values};
use std::alloc::{AllocError, Global};

/// Which copy a thread has for itself: the one below that many replications, and which of several. Number 0 is for none.
#[derive(Clone, Copy)]
pub(crate) struct Twin {
    pub depth: usize,
    pub number: u32,
}

impl Twin {
    /// No copy of its own.
    pub(crate) fn none() -> Twin {
        Twin {
            depth: 0,
            number: 0,
        }
    }
}

/// The way of a thread in an instance, with the values of its messages and sessions.
pub(crate) struct Route<'a> {
    pub alloc: Global,
    pub protocol: &'a Protocol,
    pub way: &'a Way,
    pub messages: Values,
    pub sessions: Values,
    pub twin: Twin,
}

impl Drop for Route<'_> {
    fn drop(self) {
        let Route {
            alloc,
            protocol: _,
            way: _,
            messages,
            sessions,
            twin: _,
        } = self;
        drop(alloc);
        drop(messages);
        drop(sessions);
    }
}

/// How far a walk has come: its process and the point of that, the node above in the plan, and how many messages, copies and choices
/// are behind it.
#[derive(Clone, Copy)]
pub(crate) struct Walk<'a> {
    pub process: &'a Process,
    pub point: u32,
    pub above: Option<usize>,
    pub is_begun: bool,
    pub messages: usize,
    pub sessions: usize,
    pub choices: usize,
}

impl<'a> Walk<'a> {
    /// At the first point.
    pub(crate) fn start(protocol: &'a Protocol) -> Walk<'a> {
        Walk {
            process: &protocol.main,
            point: 1,
            above: None,
            is_begun: false,
            messages: 0,
            sessions: 0,
            choices: 0,
        }
    }

    /// At the process, which stands next below, in the same thread.
    fn at(&self, process: &'a Process, point: u32, above: usize) -> Walk<'a> {
        Walk {
            process,
            point,
            above: Some(above),
            is_begun: false,
            ..*self
        }
    }
}

/// Adds copies of the first so many values.
fn add_first(
    alloc: Global,
    values: &Values,
    count: usize,
    made: &mut Vec<Value>,
) -> Result<(), AllocError> {
    'each: for value in values.items.iter().take(count) {
        made.push(value.copy(alloc)?)?;
    }
    Ok(())
}

impl<'a> Route<'a> {
    /// The next choice.
    fn choice(&self, walk: &Walk<'a>) -> Option<&'a Choice> {
        let way = self.way;
        way.choices.items.get(walk.choices)
    }

    /// The next so many messages, or as many as there are.
    fn next_messages(&self, walk: &Walk<'a>, count: usize) -> Result<Values, AllocError> {
        let mut items = Vec::new(self.alloc);
        'each: for value in self.messages.items.iter().skip(walk.messages).take(count) {
            items.push(value.copy(self.alloc)?)?;
        }
        Ok(Values { items })
    }

    /// The number in the plan of the name that is made where the walk stands.
    fn name(&self, walk: &Walk<'a>, names: &mut PlanNames) -> Result<u64, AllocError> {
        let mut items = Vec::new(self.alloc);
        add_first(self.alloc, &self.messages, walk.messages, &mut items)?;
        add_first(self.alloc, &self.sessions, walk.sessions, &mut items)?;
        names.number_of(walk.point, Values { items })
    }

    /// Which of several copies of one number begins where the walk stands.
    fn twin_at(&self, walk: &Walk<'a>) -> u32 {
        if walk.sessions == self.twin.depth {
            return self.twin.number;
        }
        0
    }

    /// How many messages are received or taken where the walk stands.
    fn taken_at(&self, walk: &Walk<'a>) -> usize {
        match walk.process {
            Process::Input(..) => 1,
            Process::Get(_, patterns, ..) => match self.choice(walk) {
                Some(Choice::Taken(_)) => patterns.items.len(),
                _ => 0,
            },
            _ => 0,
        }
    }

    /// The number of the copy that begins where the walk stands.
    fn session(&self, walk: &Walk<'a>) -> Result<Option<Value>, AllocError> {
        match self.sessions.items.get(walk.sessions) {
            None => Ok(None),
            Some(session) => {
                let copied = session.copy(self.alloc)?;
                Ok(Some(copied))
            }
        }
    }

    /// The node at which the walk stands; none where the way doesn't tell what is done there.
    pub(crate) fn node_at(
        &self,
        walk: &Walk<'a>,
        names: &mut PlanNames,
    ) -> Result<Option<Node<'a>>, AllocError> {
        let mut node = Node {
            process: walk.process,
            point: walk.point,
            above: walk.above,
            is_begun: walk.is_begun,
            session: None,
            twin: 0,
            taken: self.next_messages(walk, self.taken_at(walk))?,
            choice: None,
            name: 0,
        };
        match walk.process {
            Process::Nil => return Ok(None),
            Process::Copies(_) => {
                node.session = self.session(walk)?;
                node.twin = self.twin_at(walk);
            }
            Process::New(..) => node.name = self.name(walk, names)?,
            Process::Let(..) | Process::Get(..) => node.choice = self.choice(walk),
            _ => {}
        }
        Ok(Some(node))
    }

    /// The walk below the node of that index in the plan; none where there is nothing below it on the way.
    pub(crate) fn below(&self, walk: &Walk<'a>, index: usize) -> Option<Walk<'a>> {
        let next = walk.point.saturating_add(1);
        match walk.process {
            Process::Nil => None,
            Process::Output(_, _, process)
            | Process::New(_, process)
            | Process::Event(_, process)
            | Process::Phase(_, process)
            | Process::Insert(_, _, process) => Some(walk.at(&**process, next, index)),
            Process::Input(_, _, process) => Some(Walk {
                messages: walk.messages.saturating_add(1),
                ..walk.at(&**process, next, index)
            }),
            Process::Par(left, right) => {
                let after = next.saturating_add(left.count_nodes());
                let way = self.way;
                if way.point < after {
                    return Some(walk.at(&**left, next, index));
                }
                Some(Walk {
                    is_begun: true,
                    ..walk.at(&**right, after, index)
                })
            }
            Process::Copies(process) => Some(Walk {
                is_begun: true,
                sessions: walk.sessions.saturating_add(1),
                ..walk.at(&**process, next, index)
            }),
            Process::Let(_, _, process, otherwise) | Process::Get(_, _, _, process, otherwise) => {
                self.branch(walk, index, process, otherwise)
            }
        }
    }

    /// The walk below a choice, in the branch that was taken or in the else branch.
    fn branch(
        &self,
        walk: &Walk<'a>,
        index: usize,
        process: &'a Process,
        otherwise: &'a Process,
    ) -> Option<Walk<'a>> {
        let next = walk.point.saturating_add(1);
        let choices = walk.choices.saturating_add(1);
        match self.choice(walk) {
            None => None,
            Some(Choice::Taken(_)) => Some(Walk {
                messages: walk.messages.saturating_add(self.taken_at(walk)),
                choices,
                ..walk.at(process, next, index)
            }),
            Some(Choice::Else) => {
                let after = next.saturating_add(process.count_nodes());
                Some(Walk {
                    choices,
                    ..walk.at(otherwise, after, index)
                })
            }
        }
    }
}
