//! Clauses that are offered to a log: where a live entry subsumes one nothing happens, else it is added.
#![tactic(auto)]

mod covered;
mod offering;

pub use crate::offering::offer;
