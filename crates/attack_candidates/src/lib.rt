//! Where attacks are looked for: the entries of a query's log, and of what comes of its goal, that may tell one.
#![tactic(auto)]

mod beginning;
mod found;
mod listing;
mod resolving;
mod searching;

pub use crate::listing::{Candidates, candidates_of};
