//! Certificates whose terms stand in a bank: a term that stands in many places of them is there once.
#![tactic(auto)]

mod certs;
mod clauses;
mod spelling;

pub use crate::certs::SharedCert;
pub use crate::clauses::SharedClauses;
