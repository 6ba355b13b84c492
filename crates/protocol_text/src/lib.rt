//! A protocol as text: its expanded process, point by point, with the phase in force at each and the names of the sessions; how terms and
//! patterns are spelled in the words of its file; and what is odd about it and its queries, though it is no fault: what can't happen, by
//! questions of its own, variables of a query that look like a name, names that hide others or that nobody uses, tables that aren't used, and
//! tests with a branch that no run reaches.
#![tactic(auto)]

pub mod dead_tests;
mod hidden;
mod likeness;
mod lines;
mod marks;
mod query_words;
pub mod questions;
mod scopes;
mod sources;
mod spelling;
pub mod tables;
mod text;
mod unused;
mod variables;
mod walk;
mod warnings;

pub use crate::dead_tests::DeadTests;
pub use crate::lines::{put_node, put_points};
pub use crate::marks::{Tests, marked_text, tests_of};
pub use crate::questions::{Impossible, Subject, asking_about, events_behind, subjects};
pub use crate::sources::Source;
pub use crate::spelling::{Wording, declared_word, point_word};
pub use crate::tables::{TableUse, table_use};
pub use crate::variables::{VariableWords, variable_words};
pub use crate::walk::{Place, Spot, spots};
pub use crate::warnings::{Findings, put_warnings};
