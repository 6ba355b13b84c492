//! Logs of a saturation, and how they end.

use clause_form::{Clause, PlainClause};
use std::marker::Model;

/// Where a clause comes from. Given clauses, resolvents and entries are counted from 1.
#[derive(Clone, Copy)]
pub enum Origin {
    /// The given clause of this number.
    Given(usize),
    /// Resolvent `k` of a solved entry with an unsolved one.
    Resolvent {
        k: usize,
        solved: usize,
        unsolved: usize,
    },
}

/// An entry of a log: its clause, where that comes from, and the first later entry that subsumes it, if one does.
pub struct Entry {
    pub clause: Clause,
    pub origin: Origin,
    pub by: Option<usize>,
}

impl Drop for Entry {
    fn drop(self) {
        let Entry {
            clause,
            origin,
            by: _,
        } = self;
        drop(clause);
        drop(origin);
    }
}

/// Entries in order.
pub struct Log {
    pub items: Vec<Entry>,
}

impl Drop for Log {
    fn drop(self) {
        let Log { items } = self;
        drop(items);
    }
}

impl Model for Log {
    ghost use Rattle.std.specs.Prelude.{List};
    ghost use Rattle.log_entries.specs.declared.log.Entry.{Entry};
    ghost use Rattle.log_entries.specs.Codes.{coded_entries};

    ghost Value = { List Entry };

    ghost coded = { coded_entries };

    ghost view = { λ a. a.items.items };
}

/// An entry with its clause over owned trees.
pub struct PlainEntry {
    pub clause: PlainClause,
    pub origin: Origin,
    pub by: Option<usize>,
}

impl Drop for PlainEntry {
    fn drop(self) {
        let PlainEntry {
            clause,
            origin,
            by: _,
        } = self;
        drop(clause);
        drop(origin);
    }
}

/// Entries over owned trees, in order.
pub struct PlainLog {
    pub items: Vec<PlainEntry>,
}

impl Drop for PlainLog {
    fn drop(self) {
        let PlainLog { items } = self;
        drop(items);
    }
}

impl Model for PlainLog {
    ghost use Rattle.std.specs.Prelude.{List};
    ghost use Rattle.log_entries.specs.declared.log.PlainEntry.{PlainEntry};
    ghost use Rattle.log_entries.specs.Codes.{coded_plain_entries};

    ghost Value = { List PlainEntry };

    ghost coded = { coded_plain_entries };

    ghost view = { λ a. a.items.items };
}

/// The log of given clauses and a budget, and how it ends.
#[derive(Drop)]
pub enum Saturated {
    /// All that is new is there.
    Closed(Log),
    /// There are as many entries as the budget allows, and this one is due.
    Spent(Log, Entry),
    /// The pair of this solved entry and this unsolved one is too large.
    Large(Log, usize, usize),
}
