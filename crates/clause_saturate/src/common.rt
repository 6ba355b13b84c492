//! What the logs of given clauses share whatever the goal behind them is.

ghost use Rattle.std.specs.Prelude.{◌≡◌};
ghost use Rattle.clause_saturate.specs.Common.{log_of};

use log_entries::{Entry, Live, Log};
use std::alloc::Global;
use term_tree::Mark;

/// The part of a log before its goal, which is the same for every goal, and the whole log with the goal of the last
/// `finish`.
pub struct Common {
    pub(crate) alloc: Global,
    /// The log as `begin` left it.
    pub(crate) begun: Log,
    /// Its live entries.
    pub(crate) live: Live,
    pub(crate) budget: u64,
    /// The goal's number among the given clauses.
    pub(crate) number: usize,
    /// The bank as `begin` left it.
    pub(crate) mark: Mark,
    /// The log as `finish` left it.
    pub(crate) finished: Option<Log>,
}

impl Drop for Common {
    fn drop(self) {
        let Common {
            alloc,
            begun,
            live,
            budget: _,
            number: _,
            mark,
            finished,
        } = self;
        drop(alloc);
        drop(begun);
        drop(live);
        drop(mark);
        drop(finished);
    }
}

/// How the logs of given clauses begin, whatever the goal.
#[derive(Drop)]
pub enum Begun {
    /// The entries end, and the goal is due.
    Ready(Common),
    /// There are as many entries as the budget allows before the goal is due, and this one is due.
    Spent(Log, Entry),
    /// The pair of this solved entry and this unsolved one is too large, and met before the goal is due.
    Large(Log, usize, usize),
}

/// How a log ends.
pub enum End {
    /// All that is new is there.
    Closed,
    /// There are as many entries as the budget allows, and this one is due.
    Spent(Entry),
    /// The pair of this solved entry and this unsolved one is too large.
    Large(usize, usize),
}

impl Drop for End {
    fn drop(self) {
        match self {
            End::Closed => {}
            End::Spent(part) => drop(part),
            End::Large(_, _) => {}
        }
    }
}

/// The log: as the last of `begin`, `finish` and `rewind` left it. Takes no memory.
pub fn log(common: &Common) -> &Log
    ensures { result.now ≡ log_of common.now }
{
    match &common.finished {
        Some(log) => log,
        None => &common.begun,
    }
}
