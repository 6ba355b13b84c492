//! Runs from their text, and their replay.
//!
//! What a text spells is defined in the crate `run_text`.
#![tactic(auto)]

mod bisect;
mod cut;
mod error;
mod fronts;
mod laws;
mod line;
mod numbers;
mod reach;
mod read;
mod replaying;
mod steps;
mod violating;
mod words;
mod write;

pub use error::RunError;
pub use laws::one_replay;
pub use read::read_run;
pub use replaying::{Firsts, Replayed, replay};
pub use steps::Steps;
pub use violating::violates;
pub use write::{put_step, write_run};
