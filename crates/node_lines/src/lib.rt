//! The line of a node of a certificate by a table: its head and its numbers, and what is reckoned from these: where a walk through
//! the node begins, and whether a bound variable stands in its term.
#![tactic(auto)]

mod bounds;
pub mod heads;
pub mod nodes;
pub mod numbers;
mod row;

pub use crate::bounds::{bound_at, is_bound_node};
pub use crate::nodes::{Body, TableNode, node, read_body};
pub use crate::numbers::ids_of;
pub use crate::row::{start_at, start_of};
