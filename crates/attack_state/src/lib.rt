//! The state of a run that the instances of an unsatisfied clause are compiled to: where the run stands and its steps, where values are
//! known, the names that were made, and the nodes of the process that were done.
#![tactic(auto)]

pub mod done;
mod parts;
mod placing;
pub mod state;
pub mod values;

pub use crate::done::{Chosen, Done};
pub use crate::state::State;
