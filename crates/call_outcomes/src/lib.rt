//! What a call of the program comes to: its outcome, which for the queries of a protocol is their verdicts, the text that is
//! written of it, and the status that it ends with.
#![tactic(auto)]

mod codes;
mod deciding;
pub mod outcome;
mod summary;
mod text;
mod verdicts;
mod writing;

pub use crate::deciding::decided;
pub use crate::outcome::{Finding, Findings, Outcome, Refusal, ReportCode, Ring, RunCode};
pub use crate::text::{USAGE, WANT_OF_MEMORY, outcome_text, status};
pub use crate::writing::{Answer, finish, respond};
