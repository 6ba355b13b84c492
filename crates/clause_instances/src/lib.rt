//! The instances of given clauses that an entry of a log comes from (the reconstruction of attacks from derivations: Allamigeon and
//! Blanchet 2005).
#![tactic(auto)]

mod closing;
mod expansion;
mod given;
pub mod instance;
mod resolved;

pub use crate::expansion::instances_of;
pub use crate::instance::{Derivation, Instance, Instances, MOST_INSTANCES};
