//! The verdicts of queries: what is decided of the queries of a protocol with a budget, by the one log of the clauses that
//! protocol and query are translated into (Blanchet 2001, section 4).
#![tactic(auto)]

pub mod answers;
mod deciding;
mod question;
mod settled;
mod sharing;

pub use crate::answers::{Verdict, Verdicts};
pub use crate::deciding::{verdict, verdicts};
