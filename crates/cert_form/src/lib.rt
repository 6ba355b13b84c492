//! Certificates, and the texts of clauses and certificates: exactly what the definitions say, over the words of a protocol.
#![tactic(auto)]

mod certs;
mod clause_text;
mod moving;
mod nodes;
mod parts;
mod reading_out;
mod term_text;
mod words;
mod writing;

pub use crate::certs::{Cert, PlainClauses, Rows, format_for, put_cert, write_cert};
pub use crate::clause_text::{put_clause, write_clause};
pub use crate::moving::{SpelledSides, bound_from};
pub use crate::reading_out::{count_clauses, read_behind, read_clauses, share_clauses};
