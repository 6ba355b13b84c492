//! A reader of the texts of facts, constraints and clauses, and of what stands between them.
//!
//! The crates `term_reader` and `fact_reader` belong together: they read terms, and facts and clauses, and each meets the
//! definitions of the crate `spec_certificate_text`. Certificates and reports are to be read by what comes above.
#![tactic(auto)]

mod bytes;
mod clauses;
mod cursor;
mod diffs;
mod error;
mod facts;
mod rows;
mod spelled;
mod terms;
mod words;

pub use crate::clauses::{ReadClause, read_clause_by};
pub use crate::cursor::Cursor;
pub use crate::error::{CertError, code_and_place};
pub use crate::spelled::read_clause;
pub use crate::terms::{ReadFact, TermReader};
pub use crate::words::word_end;
