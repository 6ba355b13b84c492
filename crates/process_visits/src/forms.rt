//! The forms of processes, each by its parts.

use pi_tree::{Atom, Expr, Pat, Pats, Process, Term, Terms};

/// An output of a message on a channel, and the process below it.
#[derive(Clone, Copy)]
pub struct Output<'a> {
    pub channel: &'a Term,
    pub message: &'a Term,
    pub next: &'a Process,
}

/// An input on a channel of a message that matches a pattern, and the process below it.
#[derive(Clone, Copy)]
pub struct Input<'a> {
    pub channel: &'a Term,
    pub pattern: &'a Pat,
    pub next: &'a Process,
}

/// Two processes in parallel.
#[derive(Clone, Copy)]
pub struct Parallel<'a> {
    pub left: &'a Process,
    pub right: &'a Process,
}

/// A `let`: the process below it where the expression has a value that matches the pattern, and the one where it has
/// none.
#[derive(Clone, Copy)]
pub struct Let<'a> {
    pub pattern: &'a Pat,
    pub expression: &'a Expr,
    pub next: &'a Process,
    pub otherwise: &'a Process,
}

/// An event, and the process below it.
#[derive(Clone, Copy)]
pub struct Event<'a> {
    pub atom: &'a Atom,
    pub next: &'a Process,
}

/// A process that waits for the phase of that number, and goes on in it.
#[derive(Clone, Copy)]
pub struct Phase<'a> {
    pub number: u32,
    pub next: &'a Process,
}

/// An entry that is written into the table of that number, and the process below it.
#[derive(Clone, Copy)]
pub struct Insert<'a> {
    pub table: u32,
    pub arguments: &'a Terms,
    pub next: &'a Process,
}

/// A `get`: the process below it with an entry of the table that matches the patterns and with which the condition is
/// met, and the one where there is none.
#[derive(Clone, Copy)]
pub struct Get<'a> {
    pub table: u32,
    pub patterns: &'a Pats,
    pub condition: &'a Option<(Term, Term)>,
    pub next: &'a Process,
    pub otherwise: &'a Process,
}
