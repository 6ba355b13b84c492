//! Sources of clauses over owned trees: what a raw clause gives, beside the clauses that are its norms.
#![tactic(auto)]

mod constraints;
mod numbers;
mod parts;
mod reading;
pub mod source;
mod trees;

pub use crate::parts::{add_source_variables, add_sources};
pub use crate::reading::read_trees;
pub use crate::source::{Action, Choice, Choices, Label, Source, Sources, Way};
