//! Plans of what threads are to do, and runs that come of them step by step as the steps become possible (the reconstruction of attacks
//! from derivations: Allamigeon and Blanchet 2005).
#![tactic(auto)]

mod acting;
mod bounds;
mod knowing;
mod listeners;
mod naming;
mod nodes;
mod plan;
mod routes;
mod running;
mod scheduling;
mod threads;

pub use crate::plan::{Plan, Planning, planned};
pub use crate::scheduling::{Attempt, Attempted, Order, carried_out};
