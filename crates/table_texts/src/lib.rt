//! Clauses as tables of rows spell them: terms, facts and clauses are read and written, over a few names that are the same in
//! each table.
//!
//! Nothing is proved of what is read and written but that it is safe and ends: the rows of the tables show it.
#![tactic(auto)]

pub mod reading;
pub mod signature;
pub mod writing;
