//! A search for a run that violates a query, freer than the one that `verify` makes: it tries what it likes, and a run is found only
//! where its replay ends in a violation of the query (the reconstruction of attacks from derivations: Allamigeon and Blanchet 2005).
#![tactic(auto)]

mod bounds;
pub mod searching;

pub use crate::searching::{Effort, Search, Searched, find_attack};
