//! Where threads stand, and what they wait for.

use crate::running::{Run, number_at};
use destructor_rules::are_same;
use pi_configurations::knowing::knows;
use pi_model::{Environment, Thread};
use pi_tree::{Process, Value};
use std::alloc::AllocError;
use term_values::{Bound, evaluate, is_value_of, matched};

/// Where a thread stands: the point, what the thread has bound, and the process that is there.
#[derive(Clone, Copy)]
pub(crate) struct Stand<'a> {
    pub point: u32,
    pub environment: &'a Environment,
    pub process: &'a Process,
}

impl Run<'_> {
    /// Where the thread of that number stands, if there is one that has not ended.
    pub(crate) fn standing(&self, number: u32) -> Option<Stand<'_>> {
        match self.conf.threads.get(number) {
            None => None,
            Some(thread) => match thread {
                Thread::Ended => None,
                Thread::At(point, environment) => Some(Stand {
                    point: *point,
                    environment,
                    process: self.protocol.node(*point),
                }),
            },
        }
    }

    /// Whether the thread of that number stands at the point.
    pub(crate) fn stands_at(&self, thread: u32, point: u32) -> bool {
        match self.conf.threads.get(thread) {
            None => false,
            Some(Thread::Ended) => false,
            Some(Thread::At(at, _)) => *at == point,
        }
    }

    /// The number of the next thread; none where it is past 32 bits.
    pub(crate) fn next_thread(&self) -> Option<u32> {
        number_at(self.conf.threads.items.len())
    }

    /// Whether the thread of that number stands at an input or an output on a channel that the attacker knows.
    pub(crate) fn is_open(&self, thread: u32) -> bool {
        match self.standing(thread) {
            None => false,
            Some(stand) => match stand.process {
                Process::Input(channel, _, _) | Process::Output(channel, _, _) => {
                    knows(&self.conf, channel, &Bound::All(stand.environment))
                }
                _ => false,
            },
        }
    }

    /// The channel of the thread of that number, where it stands at an input or an output.
    pub(crate) fn channel_of(&self, thread: u32) -> Result<Option<Value>, AllocError> {
        match self.standing(thread) {
            None => Ok(None),
            Some(stand) => match stand.process {
                Process::Input(channel, _, _) | Process::Output(channel, _, _) => {
                    let value = evaluate(channel, self.alloc, stand.environment)?;
                    Ok(Some(value))
                }
                _ => Ok(None),
            },
        }
    }

    /// Whether the thread of that number waits at an output of the message on the channel.
    fn offers(&self, thread: u32, channel: &Value, message: &Value) -> bool {
        match self.standing(thread) {
            None => false,
            Some(stand) => match stand.process {
                Process::Output(on, sent, _) => {
                    let bound = Bound::All(stand.environment);
                    is_value_of(on, channel, &bound) && is_value_of(sent, message, &bound)
                }
                _ => false,
            },
        }
    }

    /// The first thread that waits with the message on the channel.
    pub(crate) fn sender_of(&self, channel: &Value, message: &Value) -> Option<u32> {
        'each: for index in 0..self.conf.threads.items.len() {
            if let Some(thread) = number_at(index) {
                if self.offers(thread, channel, message) {
                    return Some(thread);
                }
            }
        }
        None
    }

    /// Whether the thread of that number waits at an input on the channel.
    pub(crate) fn listens(&self, thread: u32, channel: &Value) -> bool {
        match self.standing(thread) {
            None => false,
            Some(stand) => match stand.process {
                Process::Input(on, _, _) => {
                    is_value_of(on, channel, &Bound::All(stand.environment))
                }
                _ => false,
            },
        }
    }

    /// The number of the first known value that the input takes at which the thread of that number stands.
    pub(crate) fn taken_by(&self, thread: u32) -> Result<Option<u32>, AllocError> {
        let Some(stand) = self.standing(thread) else {
            return Ok(None);
        };
        let Process::Input(_, pattern, _) = stand.process else {
            return Ok(None);
        };
        'each: for (index, value) in self.conf.known.items.iter().enumerate() {
            let bound = matched(self.alloc, stand.environment, pattern, value)?;
            if bound.is_some() {
                return Ok(number_at(index));
            }
        }
        Ok(None)
    }

    /// The number of the first entry of the table with these values.
    pub(crate) fn entry_of(&self, table: u32, values: &[Value]) -> Option<u32> {
        'each: for (index, held) in self.conf.entries.items.iter().enumerate() {
            if held.table == table && are_same(&held.args.items, values) {
                return number_at(index);
            }
        }
        None
    }
}
