//! What is asked.

use pi_tree::Protocol;
use std::alloc::Global;

/// A query of a protocol, and how many entries its log may have.
#[derive(Clone, Copy)]
pub struct Question<'a> {
    pub alloc: Global,
    pub protocol: &'a Protocol,
    pub query: u32,
    pub budget: u64,
}

/// All queries of a protocol, and how many entries the log of each may have.
#[derive(Clone, Copy)]
pub struct Asking<'a> {
    pub alloc: Global,
    pub protocol: &'a Protocol,
    pub budget: u64,
}
