//! Walks along a log: the given clauses are offered, then, entry by entry, the resolvents of each with the earlier ones (Blanchet
//! 2001, section 4).
#![tactic(auto)]

mod pairs;
mod saturating;
pub mod stops;

pub use crate::saturating::{saturate, walk_from_goal, walk_to_goal};
pub use crate::stops::Stop;
