//! The table of a certificate's terms, by which it is written: each distinct term once, in the order in which a walk completes
//! them, with a number; and whether clauses are too large for a table.
#![tactic(auto)]

mod recent;
mod sizes;
mod table;

pub use crate::sizes::is_large_in_nodes;
pub use crate::table::NodeTable;
