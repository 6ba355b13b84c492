//! A certificate that is to be checked.

use cert_form::Rows;
use clause_form::Clause;
use pi_tree::Protocol;
use std::alloc::Global;

/// A certificate that is to be checked: of which query of which protocol, its rows, its clauses over a bank, in their order, and what it
/// says of these.
#[derive(Drop)]
pub(crate) struct Claim<'a> {
    pub alloc: Global,
    pub protocol: &'a Protocol,
    pub query: u32,
    pub rows: &'a Rows,
    pub goals: &'a Rows,
    pub clauses: &'a [Clause],
    pub said: &'a [Option<usize>],
}
