//! The steps that the instances of an unsatisfied clause are compiled to, one after another, phase by phase (the reconstruction of attacks
//! from derivations: Allamigeon and Blanchet 2005).
#![tactic(auto)]

mod acting;
pub mod compiling;
mod standing;
mod walking;

pub use crate::compiling::{Compilation, compile_at, compiled, stage_of};
