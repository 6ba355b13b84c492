//! A reader of certificates by a table of nodes, up to their rows.
//!
//! A number in a clause is looked at once: whether it is that of a node to which the walk through the clauses comes next, and
//! how many symbols there are with its term. No term is made of it: it stands for the id of the node's term, in the bank of the
//! table, so that time and memory grow with the bytes.
#![tactic(auto)]

mod clauses;
mod numbers;
mod walked;

pub use crate::clauses::read_numbered;
