//! The verifier: from words and files to an answer to each query, its text and the program's status.
//!
//! [`top`] is the one call that the program makes; its clauses say what the answers mean.
#![tactic(auto)]

mod call;
mod check;
mod deciding;
mod decision;
mod list;
mod loading;
mod read_back;
mod replay;
mod ringing;
mod verify;

pub use crate::call::top;
pub use call_outcomes::{
    Answer, Finding, Findings, Outcome, Refusal, ReportCode, Ring, RunCode, outcome_text, status,
};
pub use cert_checker::Ruling;
pub use protocol_loading::ProtocolCode;
pub use query_verify::{Verdict, Verdicts, verdicts};
pub use ring_writer::make_ring;
