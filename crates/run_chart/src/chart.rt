//! A chart as a value.

use crate::legend::Legend;

/// Where a thread comes from.
#[derive(Clone, Copy)]
pub enum Origin {
    /// It is the one with which the run starts.
    Main,
    /// It began at that point, beside its other half.
    Beside(u32),
    /// It is a copy of the replication at that point.
    Session(u32),
}

/// A thread of a chart.
pub struct Head {
    pub origin: Origin,
    /// The macro in which it stands where it first does something in one; empty where it does nothing in one.
    pub role: Vec<u8>,
}

impl Drop for Head {
    fn drop(self) {
        let Head { origin, role } = self;
        drop(origin);
        drop(role);
    }
}

/// How a row is drawn. Threads are numbered from 1; 0 is the attacker.
#[derive(Clone, Copy)]
pub enum Shape {
    /// A thread begins.
    Begin(u32),
    /// A message goes from the first to the second.
    Arrow(u32, u32),
    /// Something happens in one.
    Note(u32),
    /// Something is so for the whole run from here on: a phase begins.
    Bar,
    /// The query of that number, from 1, is violated from here on.
    Violation(u64),
}

/// A row of a chart.
pub struct Row {
    /// The number of the step, from 1; 0 where the run starts.
    pub step: u64,
    pub shape: Shape,
    /// What is written there; nothing where a thread begins or a query is violated.
    pub text: Vec<u8>,
}

impl Drop for Row {
    fn drop(self) {
        let Row {
            step: _,
            shape,
            text,
        } = self;
        drop(shape);
        drop(text);
    }
}

/// A run as a message sequence chart.
pub struct Chart {
    /// The threads in order.
    pub threads: Vec<Head>,
    /// The rows, from above.
    pub rows: Vec<Row>,
    /// What the abbreviations `M1`, `M2`, .. stand for, in order.
    pub legend: Legend,
}

impl Drop for Chart {
    fn drop(self) {
        let Chart {
            threads,
            rows,
            legend,
        } = self;
        drop(threads);
        drop(rows);
        drop(legend);
    }
}
