//! What a thread does at a node of a plan.

use crate::nodes::Node;
use crate::scheduling::Schedule;
use clause_sources::Choice;
use pi_model::{Numbers, Step};
use pi_tree::{Process, Value};
use std::alloc::AllocError;

impl<'a> Schedule<'a> {
    /// The thread of the node at the index, where it stands there.
    pub(crate) fn thread_at(&self, index: usize, node: &Node<'_>) -> Option<u32> {
        match self.progress.get(index) {
            None => None,
            Some(progress) => match progress.thread {
                None => None,
                Some(thread) => {
                    if !progress.is_done && self.run.stands_at(thread, node.point) {
                        Some(thread)
                    } else {
                        None
                    }
                }
            },
        }
    }

    /// The node at the index is done, and those below it have their threads: this one, or the one that began.
    pub(crate) fn finish(&mut self, index: usize, thread: u32, begun: Option<u32>) {
        let plan = self.attempt.plan;
        if let Some(progress) = self.progress.get_mut(index) {
            progress.is_done = true;
        }
        'each: for (below, node) in plan.nodes.iter().enumerate() {
            if node.above == Some(index) {
                let next = if node.is_begun { begun } else { Some(thread) };
                if let Some(progress) = self.progress.get_mut(below) {
                    progress.thread = next;
                }
            }
        }
    }

    /// Does what the node at the index says, if that can be done; whether it was.
    pub(crate) fn act(&mut self, index: usize, node: &Node<'_>) -> Result<bool, AllocError> {
        let Some(thread) = self.thread_at(index, node) else {
            return Ok(false);
        };
        let begun = self.run.next_thread();
        if !self.pass_node(node, thread)? {
            return Ok(false);
        }
        self.finish(index, thread, begun);
        Ok(true)
    }

    /// The step of the thread at the node, if it is possible.
    fn pass_node(&mut self, node: &Node<'_>, thread: u32) -> Result<bool, AllocError> {
        match node.process {
            Process::Nil | Process::Phase(..) => Ok(false),
            Process::Output(..) => self.run.step(Step::Hear(thread)),
            Process::Input(..) => self.receive(node, thread),
            Process::Par(..) => self.run.step(Step::Split(thread)),
            Process::Copies(_) => self.run.step(Step::Copy(thread)),
            Process::New(..) => self.run.make(thread, node.point, node.name),
            Process::Let(..) => self.choose(node, thread),
            Process::Event(..) => self.run.step(Step::Mark(thread)),
            Process::Insert(..) => self.run.step(Step::Insert(thread)),
            Process::Get(table, ..) => {
                if node.is_otherwise() {
                    self.run.step(Step::Miss(thread))
                } else {
                    self.fetch(node, *table, thread)
                }
            }
        }
    }

    /// A `let` goes on as was chosen.
    fn choose(&mut self, node: &Node<'_>, thread: u32) -> Result<bool, AllocError> {
        match node.choice {
            None => Ok(false),
            Some(Choice::Else) => self.run.step(Step::Fail(thread)),
            Some(Choice::Taken(label)) => {
                let items = label.items.to_vec(self.run.alloc)?;
                self.run.step(Step::Take(thread, Numbers { items }))
            }
        }
    }

    /// A `get` takes the first entry of the table with the node's values.
    fn fetch(&mut self, node: &Node<'_>, table: u32, thread: u32) -> Result<bool, AllocError> {
        let Some(values) = self.run.actuals(&node.taken)? else {
            return Ok(false);
        };
        match self.run.entry_of(table, &values.items) {
            None => Ok(false),
            Some(entry) => self.run.step(Step::Get(thread, entry)),
        }
    }

    /// An input receives its message from the attacker, or from a thread that waits with it.
    fn receive(&mut self, node: &Node<'_>, thread: u32) -> Result<bool, AllocError> {
        let Some(message) = node.taken.items.first() else {
            return Ok(false);
        };
        if self.run.is_open(thread) && self.run.can_build(message)? {
            return match self.run.build(message)? {
                None => Ok(false),
                Some(place) => self.run.step(Step::Say(thread, place)),
            };
        }
        self.receive_from_thread(message, thread)
    }

    /// An input receives the message from a thread that waits with it.
    fn receive_from_thread(&mut self, message: &Value, thread: u32) -> Result<bool, AllocError> {
        let Some(value) = self.run.actual(message)? else {
            return Ok(false);
        };
        let Some(channel) = self.run.channel_of(thread)? else {
            return Ok(false);
        };
        let Some(sender) = self.run.sender_of(&channel, &value) else {
            return Ok(false);
        };
        let sending = self.node_of(sender);
        if !self.run.step(Step::Pass(sender, thread))? {
            return Ok(false);
        }
        if let Some(index) = sending {
            self.finish(index, sender, None);
        }
        Ok(true)
    }

    /// The index of the node at which the thread stands, if the plan has one.
    pub(crate) fn node_of(&self, thread: u32) -> Option<usize> {
        let plan = self.attempt.plan;
        'each: for (index, node) in plan.nodes.iter().enumerate() {
            if self.thread_at(index, node) == Some(thread) {
                return Some(index);
            }
        }
        None
    }

    /// The next phase begins, if there is one, and the threads that waited for it go on.
    pub(crate) fn next_phase(&mut self) -> Result<bool, AllocError> {
        if !self.run.step(Step::Next)? {
            return Ok(false);
        }
        let plan = self.attempt.plan;
        'each: for (index, node) in plan.nodes.iter().enumerate() {
            if let Process::Phase(..) = node.process {
                self.enter(index, node.point);
            }
        }
        Ok(true)
    }

    /// The node at the index, which waits for a phase, is done where its thread went on.
    fn enter(&mut self, index: usize, point: u32) {
        let Some(progress) = self.progress.get(index) else {
            return;
        };
        let (is_done, thread) = (progress.is_done, progress.thread);
        if let Some(thread) = thread {
            if !is_done && self.run.stands_at(thread, point.saturating_add(1)) {
                self.finish(index, thread, None);
            }
        }
    }
}
