//! A certificate that is written.

use clause_form::Clause;
use fact_classes::Classes;
use fact_fingerprint::Fingerprint;
use pi_tree::Protocol;
use std::alloc::Global;

/// A certificate that is written: of which query of which protocol, its clauses over a bank, in their order, the fingerprints
/// of their conclusions, and their places by the classes of these.
#[derive(Drop)]
pub(crate) struct Writer<'a> {
    pub alloc: Global,
    pub protocol: &'a Protocol,
    pub query: u32,
    pub live: &'a [Clause],
    pub prints: &'a [Fingerprint],
    pub classes: &'a Classes,
}
