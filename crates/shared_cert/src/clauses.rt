//! Clauses over ids, with their bank.

ghost use Rattle.std.specs.Prelude.{◌≡◌, [], ◌∷◌, ◌++◌, IfOk, OnOk, OnErr};
ghost use Rattle.clause_form.specs.Fit.{clauses_at};
ghost use Rattle.clause_form.specs.Seen.{AreClausesIn};

use crate::spelling::spelled_clauses;
use cert_form::PlainClauses;
use clause_form::{Clauses, PlainClause, copy_into};
use std::alloc::{AllocError, Global};
use std::marker::Model;
use term_store::SharedBank;

/// Clauses over the ids of a bank, in order: seen as the clauses over trees that the ids name. In the bank each term stands once.
#[derive(Drop)]
pub struct SharedClauses {
    bank: SharedBank,
    clauses: Clauses,
}

impl Model for SharedClauses {
    ghost use Rattle.std.specs.Prelude.{List};
    ghost use Rattle.spec_terms.specs.Term.{Term, coded_term};
    ghost use Rattle.spec_clauses.specs.Fact as horn;
    ghost use Rattle.clause_form.specs.Codes.{coded_clauses};

    ghost Value = { List (horn.Clause Term) };

    ghost coded = { coded_clauses coded_term };

    ghost use Rattle.clause_form.specs.Fit.{clauses_at};
    ghost use Rattle.clause_form.specs.Seen.{AreClausesIn};

    ghost view = { λ s. clauses_at s.bank s.clauses };

    ghost invariant = { λ s. AreClausesIn s.bank s.clauses };
}

impl SharedClauses {
    /// No clauses.
    pub fn new(alloc: Global) -> Result<SharedClauses, AllocError>
        ensures { IfOk result (λ none. none ≡ []) }
    {
        let bank = SharedBank::new(alloc)?;
        let items = Vec::new(alloc);
        Ok(SharedClauses {
            bank,
            clauses: Clauses { items },
        })
    }

    /// These clauses, with the bank of their ids.
    pub fn over(bank: SharedBank, clauses: Clauses) -> SharedClauses
        requires { AreClausesIn bank clauses }
        ensures { result ≡ clauses_at bank clauses }
    {
        SharedClauses { bank, clauses }
    }

    /// The bank, and the clauses over its ids.
    pub fn apart(self) -> (SharedBank, Clauses)
        ensures known { AreClausesIn result.0 result.1 }
        ensures are { clauses_at result.0 result.1 ≡ self }
    {
        (self.bank, self.clauses)
    }

    /// One more clause, at the end.
    pub fn push(&mut self, alloc: Global, clause: &PlainClause) -> Result<(), AllocError>
        ensures ok { OnOk result (self.new ≡ self.old ++ clause.now ∷ []) }
        ensures err { OnErr result (self.new ≡ self.old) }
    {
        let made = copy_into(alloc, &mut self.bank, clause)?;
        self.clauses.items.push(made)?;
        Ok(())
    }

    /// The same clauses over trees: each term is made wherever it stands. The variables that a constraint binds are numbered from the
    /// least number above all variables of its clause itself.
    ///
    /// `Err` comes for want of memory, and where that number is past 32 bits.
    pub fn spelled_out(&self, alloc: Global) -> Result<PlainClauses, AllocError>
        ensures { IfOk result (λ plain. plain ≡ self.now) }
    {
        spelled_clauses(alloc, &self.bank, &self.clauses.items)
    }
}
