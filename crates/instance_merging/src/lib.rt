//! Instances merged: those that visit one node in one copy are one thread there, so all instances are put under one unifier of what
//! they received there (the reconstruction of attacks from derivations: Allamigeon and Blanchet 2005).
#![tactic(auto)]

mod opening;
mod paths;
mod rounds;
mod unifying;

pub use crate::rounds::{Merging, merged};
