//! The pairs that a walk along a log comes to, and why it stops.

use log_entries::Entry;
/// The numbers of a solved entry and an unsolved one.
#[derive(Clone, Copy)]
pub(crate) struct Pair {
    pub solved: usize,
    pub unsolved: usize,
}

/// Why a walk stops before the log is closed.
#[derive(Drop)]
pub enum Stop {
    /// There are as many entries as the budget allows, and this one is due.
    Spent(Entry),
    /// The pair of this solved entry and this unsolved one is too large.
    Large(usize, usize),
}
