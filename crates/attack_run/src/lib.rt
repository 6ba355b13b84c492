//! Attack runs: the run that the instances of an unsatisfied clause are compiled to, where it violates the query (the reconstruction of
//! attacks from derivations: Allamigeon and Blanchet 2005).
#![tactic(auto)]

mod reconstructing;

pub use crate::reconstructing::reconstruct;
