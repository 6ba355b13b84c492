//! Fingerprints of facts: what stands at some positions of their terms, by which most pairs of facts that no substitution
//! makes one are told apart at a look (fingerprint indexing: Schulz 2012).
#![tactic(auto)]

pub mod fingerprints;
mod meeting;
pub mod ranges;

pub use crate::fingerprints::{
    Fingerprint, clause_fingerprint, conclusion_fingerprint, fingerprint_of_fact,
    hypothesis_fingerprint, hypothesis_fingerprints,
};
pub use crate::meeting::{may_meet, may_resolve};
pub use spec_fingerprints::{
    facts_that_meet_have_fingerprints_that_may, fingerprints_tell_that_there_is_no_unifier,
};
