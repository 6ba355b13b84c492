//! Threads that listen: where an output on a private channel waits, and the plan has something behind it, any thread will do that comes
//! to an input on that channel.

use crate::bounds::MOST_PASSED;
use crate::nodes::Node;
use crate::running::number_at;
use crate::scheduling::Schedule;
use pi_model::{Numbers, Step};
use pi_tree::{Process, Value};
use std::alloc::AllocError;
use term_values::{Bound, is_value_of};

/// What a thread passes on its way to an input.
#[derive(Clone, Copy, PartialEq, Eq)]
enum Reach {
    /// What it passes by itself alone.
    Near,
    /// Also what the attacker serves, and choices.
    Far,
}

/// The point of the first input on the channel that a thread at the process comes to.
fn input_in(
    process: &Process,
    point: u32,
    channel: &Value,
    bound: &Bound<'_>,
    reach: Reach,
) -> Option<u32> {
    let next = point.saturating_add(1);
    match process {
        Process::Par(left, right) => match input_in(left, next, channel, bound, reach) {
            Some(found) => Some(found),
            None => {
                let after = next.saturating_add(left.count_nodes());
                input_in(right, after, channel, bound, reach)
            }
        },
        Process::Copies(process) | Process::New(_, process) => {
            input_in(process, next, channel, bound, reach)
        }
        Process::Input(on, _, process) => {
            if is_value_of(on, channel, bound) {
                return Some(point);
            }
            if reach == Reach::Near {
                return None;
            }
            input_in(process, next, channel, bound, reach)
        }
        Process::Output(_, _, process)
        | Process::Event(_, process)
        | Process::Let(_, _, process, _) => {
            if reach == Reach::Near {
                return None;
            }
            input_in(process, next, channel, bound, reach)
        }
        Process::Nil | Process::Phase(..) | Process::Insert(..) | Process::Get(..) => None,
    }
}

impl<'a> Schedule<'a> {
    /// Whether the plan has something behind the node at the index.
    fn has_below(&self, index: usize) -> bool {
        let plan = self.attempt.plan;
        plan.nodes.iter().any(|node| node.above == Some(index))
    }

    /// The thread of the node at the index, where it waits at an output on a channel that the attacker doesn't know, with something
    /// of the plan behind it.
    fn waiting(&self, index: usize, node: &Node<'_>) -> Option<u32> {
        let Process::Output(..) = node.process else {
            return None;
        };
        let thread = self.thread_at(index, node)?;
        if self.run.is_open(thread) || !self.has_below(index) {
            return None;
        }
        Some(thread)
    }

    /// The first thread that listens on the channel and that the plan doesn't need.
    fn listener(&self, channel: &Value) -> Option<u32> {
        'each: for index in 0..self.run.conf.threads.items.len() {
            if let Some(thread) = number_at(index) {
                if self.run.listens(thread, channel) && self.node_of(thread).is_none() {
                    return Some(thread);
                }
            }
        }
        None
    }

    /// The point of an input on the channel to which the thread can be led, where it has to be led and the plan doesn't need it.
    fn goal_of(&self, thread: u32, channel: &Value, reach: Reach) -> Option<u32> {
        let stand = self.run.standing(thread)?;
        let is_free = match stand.process {
            Process::Copies(_) => true,
            _ => self.node_of(thread).is_none(),
        };
        if !is_free {
            return None;
        }
        let bound = Bound::All(stand.environment);
        match input_in(stand.process, stand.point, channel, &bound, reach) {
            Some(goal) if goal != stand.point => Some(goal),
            _ => None,
        }
    }

    /// What the thread does next on its way to the point: the thread that goes on there; none where it can't.
    fn led(&mut self, thread: u32, goal: u32) -> Result<Option<u32>, AllocError> {
        let begun = self.run.next_thread();
        let Some(stand) = self.run.standing(thread) else {
            return Ok(None);
        };
        let (step, next) = match stand.process {
            Process::Par(left, _) => {
                let after = stand
                    .point
                    .saturating_add(1)
                    .saturating_add(left.count_nodes());
                let next = if goal < after { Some(thread) } else { begun };
                (Step::Split(thread), next)
            }
            Process::Copies(_) => (Step::Copy(thread), begun),
            Process::New(..) => (Step::Make(thread), Some(thread)),
            Process::Output(..) => (Step::Hear(thread), Some(thread)),
            Process::Event(atom, _) => {
                if self.is_spoiling(atom.event) {
                    return Ok(None);
                }
                (Step::Mark(thread), Some(thread))
            }
            Process::Input(..) => match self.run.taken_by(thread)? {
                None => return Ok(None),
                Some(place) => (Step::Say(thread, place), Some(thread)),
            },
            Process::Let(..) => {
                let items = vec![in self.run.alloc; 0]?;
                (Step::Take(thread, Numbers { items }), Some(thread))
            }
            _ => return Ok(None),
        };
        if self.run.step(step)? {
            return Ok(next);
        }
        Ok(None)
    }

    /// Leads the thread to the point, and tells whether it came there.
    fn lead(&mut self, thread: u32, goal: u32) -> Result<bool, AllocError> {
        let mut thread = thread;
        'each: for _turn in 0..MOST_PASSED {
            if self.run.stands_at(thread, goal) {
                return Ok(true);
            }
            match self.led(thread, goal)? {
                None => return Ok(false),
                Some(next) => thread = next,
            }
        }
        Ok(false)
    }

    /// Leads a thread that the plan doesn't need to an input on the channel, and tells whether one came there.
    fn bring(&mut self, channel: &Value, reach: Reach) -> Result<bool, AllocError> {
        'each: for index in 0..self.run.conf.threads.items.len() {
            if let Some(thread) = number_at(index) {
                if let Some(goal) = self.goal_of(thread, channel, reach) {
                    if self.lead(thread, goal)? {
                        return Ok(true);
                    }
                }
            }
        }
        Ok(false)
    }

    /// Another thread receives what the thread of the node at the index waits with, or is brought to where it can.
    fn serve(&mut self, index: usize, thread: u32) -> Result<bool, AllocError> {
        let Some(channel) = self.run.channel_of(thread)? else {
            return Ok(false);
        };
        if let Some(listener) = self.listener(&channel) {
            if self.run.step(Step::Pass(thread, listener))? {
                self.finish(index, thread, None);
                return Ok(true);
            }
        }
        if self.bring(&channel, Reach::Near)? {
            return Ok(true);
        }
        self.bring(&channel, Reach::Far)
    }

    /// Another thread receives what one of the plan waits with, where there is more to do behind it; whether there is such a thread.
    pub(crate) fn listen(&mut self) -> Result<bool, AllocError> {
        let plan = self.attempt.plan;
        'each: for (index, node) in plan.nodes.iter().enumerate() {
            if let Some(thread) = self.waiting(index, node) {
                if self.serve(index, thread)? {
                    return Ok(true);
                }
            }
        }
        Ok(false)
    }
}
