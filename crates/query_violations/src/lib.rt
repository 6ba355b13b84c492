//! Whether a configuration of a run violates a query (Blanchet 2016, sections 2.3 and 3.2).
#![tactic(auto)]

mod alternatives;
pub mod violations;

pub use crate::violations::violated;
