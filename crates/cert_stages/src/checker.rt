//! A certificate under check.

use cert_form::Rows;
use clause_form::Clause;
use pi_tree::Protocol;
use std::alloc::Global;

/// A certificate under check: of which query of which protocol, its rows, its clauses over a bank, in their order, and the numbers
/// beside these, which say what is chosen of each.
#[derive(Drop)]
pub struct Checker<'a> {
    pub alloc: Global,
    pub protocol: &'a Protocol,
    pub query: u32,
    pub rows: &'a Rows,
    pub goals: &'a Rows,
    pub clauses: &'a [Clause],
    pub numbers: &'a [usize],
}
