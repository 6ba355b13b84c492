//! The texts of certificates, of either format, and of reports, read: exactly what the definitions of the crates
//! `spec_certificate_text` and `spec_node_reading` read.
//!
//! The crates `term_reader`, `fact_reader`, `node_reader`, `numbered_reader` and `cert_text` belong together: they read terms,
//! facts and clauses, nodes, clauses by numbers, and certificates and reports. What the crate `cert_form` writes is read here, and offered.
#![tactic(auto)]

mod certs;
mod claims;
mod rows;
mod shared_claims;

pub use crate::certs::read_cert;
pub use crate::claims::{Claim, Claims, read_report};
pub use crate::shared_claims::{SharedClaim, SharedClaims, read_shared_report};
pub use cert_form::{Cert, PlainClauses, Rows, write_cert, write_clause};
pub use fact_reader::{CertError, code_and_place};
pub use shared_cert::SharedCert;
