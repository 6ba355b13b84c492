//! Visits: what is known where a point of a process is visited, what a pattern binds besides, and visits under unifiers
//! (Blanchet 2016, section 3.3.2).
#![tactic(auto)]

mod built;
mod constrained;
mod excluding;
pub mod numbers;
pub mod patterns;
pub mod place;
mod points;
pub mod sizes;
pub mod spans;
mod substituted;
pub mod unified;
pub mod visit;
