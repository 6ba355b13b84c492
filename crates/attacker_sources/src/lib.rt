//! The sources of the attacker's clauses: what he has at first, what he makes, what he sends and receives, and what he keeps from
//! phase to phase (Blanchet 2016, sections 3.3.1 and 4.1.5).
#![tactic(auto)]

mod constructors;
mod names;
mod phases;
mod raws;
mod rules;
mod whole;

pub use crate::whole::attacker_sources;
