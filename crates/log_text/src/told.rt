//! The log of a query, as it is told.

use log_entries::{PlainEntry, PlainLog};

/// How a log ends. Entries are counted from 1.
pub enum LogEnd {
    /// All that is new is there.
    Closed,
    /// There are as many entries as the budget allows, and this one is due.
    Spent(PlainEntry),
    /// The pair of this solved entry and this unsolved one is too large.
    Large(usize, usize),
}

impl Drop for LogEnd {
    fn drop(self) {
        match self {
            LogEnd::Closed => {}
            LogEnd::Spent(part) => drop(part),
            LogEnd::Large(_, _) => {}
        }
    }
}

/// The log of a query.
pub struct QueryLog {
    /// Its entries.
    pub entries: PlainLog,
    /// How it ends.
    pub end: LogEnd,
    /// How many of the given clauses are the attacker's; these come first.
    pub attackers: usize,
    /// How many given clauses there are; the last is the query's.
    pub given: usize,
    /// Where it is closed, the number of its first entry that doesn't satisfy the query, if there is one.
    pub unmet: Option<usize>,
}

impl Drop for QueryLog {
    fn drop(self) {
        let QueryLog {
            entries,
            end,
            attackers: _,
            given: _,
            unmet: _,
        } = self;
        drop(entries);
        drop(end);
    }
}

/// What is told of the log of a query.
pub enum Told {
    /// The visit of this point is too large, so there is no log.
    TooLarge(u32),
    /// The log.
    Logged(QueryLog),
}

impl Drop for Told {
    fn drop(self) {
        match self {
            Told::TooLarge(_) => {}
            Told::Logged(part) => drop(part),
        }
    }
}
