//! Facts that are placed at positions: what stands where, matching, one placing at a time, and whether constraints are kept under
//! a match (Blanchet 2016, section 3.3.1).
#![tactic(auto)]

mod alike;
pub mod board;
mod copied;
mod keeping;
mod matched;
mod matching;
pub mod placing;

pub use crate::keeping::are_kept;
