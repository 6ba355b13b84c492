//! A reader of the nodes of a certificate by a table.
//!
//! Each node that is read is made once, in a bank in which equal trees have equal ids: the node of number n has the id of place
//! n - 1, a node that stands earlier is told by its id, and the sizes of terms are those that the bank keeps. From where a walk
//! through a node may begin, and whether a bound variable stands in its term, is reckoned as the node is read, so that each number
//! in a clause takes one look.
#![tactic(auto)]

mod table;

pub use crate::table::{Table, read_nodes};
