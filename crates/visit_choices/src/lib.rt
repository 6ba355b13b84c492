//! How the choices of a `let` go on (Blanchet 2016, section 3.3.2).
#![tactic(auto)]

pub mod choice;
pub mod choices;
mod row;
pub mod ways;
