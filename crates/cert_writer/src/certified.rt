//! What comes of a closed log.

use cert_form::Cert;

/// A certificate, or that there is none.
#[derive(Drop)]
pub enum Certified {
    /// The certificate of the log.
    Cert(Cert),
    /// The entry of this number, from 1, is the first live solved one that concludes `bad` and doesn't satisfy the query.
    Unsatisfied(usize),
}
