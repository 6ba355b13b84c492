//! Rows about clauses, and what comes of them.
//!
//! A row is `clause ; expected`, or `clause ; clause ; expected` in a table of pairs, or begins with a query or with
//! declarations. What a row shows is said in `tables`, `terms`, `features`, `pairs`, `fingerprints`, `term_lists`, `goals` and
//! `declarations`, so a new table is a variant there, its file's name, and a function from clauses to a text.

mod asking;
mod declarations;
mod features;
mod fingerprints;
mod goals;
pub mod pairs;
pub mod rows;
mod table;
mod tables;
mod term_lists;
mod terms;
