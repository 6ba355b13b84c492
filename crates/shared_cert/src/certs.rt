//! Certificates over ids.

ghost use Rattle.std.specs.Prelude.{◌≡◌, IfOk};

use crate::clauses::SharedClauses;
use cert_form::{Cert, Rows};
use std::alloc::{AllocError, Global};
use std::marker::Model;

/// A certificate, its clauses over the ids of a bank: seen as the certificate over trees that the ids name. Its rows are those
/// of a `Cert`.
#[derive(Drop)]
pub struct SharedCert {
    pub clauses: SharedClauses,
    pub rows: Rows,
    pub goals: Rows,
}

impl Model for SharedCert {
    ghost use Rattle.spec_certificates.specs.Certificate.{Certificate};
    ghost use Rattle.cert_form.specs.Codes.{coded_certificate};

    ghost Value = { Certificate };

    ghost coded = { coded_certificate };

    ghost view = { λ c. record { clauses = c.clauses; rows = c.rows; goals = c.goals } };
}

impl SharedCert {
    /// The same certificate over trees: each term is made wherever it stands. The variables that a constraint binds are numbered from
    /// the least number above all variables of its clause itself.
    ///
    /// `Err` comes for want of memory, and where that number is past 32 bits.
    pub fn spelled_out(self, alloc: Global) -> Result<Cert, AllocError>
        ensures { IfOk result (λ cert. cert ≡ self) }
    {
        let clauses = self.clauses.spelled_out(alloc)?;
        Ok(Cert {
            clauses,
            rows: self.rows,
            goals: self.goals,
        })
    }
}
