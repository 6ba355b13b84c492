//! Reading a certificate by numbers with no more than counts in mind: how many nodes of the table the walk through the clauses
//! has completed, and how many symbols there are so far, of the clause and of all clauses.
//!
//! The definitions stand in `specs/`: they are for code, which looks at each number once. The law is the contract of the
//! function below, which does nothing.
#![tactic(auto)]

ghost use Rattle.std.specs.Prelude.{◌≡◌, ℕ, List};
ghost use Rattle.spec_calculus.specs.Syntax.{Protocol};
ghost use Rattle.spec_certificate_text.specs.Outcomes.{next};
ghost use Rattle.spec_certificate_text.specs.Certificates.{certificate_end};
ghost use Rattle.spec_node_reading.specs.Reading.{read_numbered};
ghost use Rattle.spec_node_counts.specs.ReadClauses.{clauses_read};

/// A certificate by numbers is read by counts up to its rows as it is read by the definition.
pub fn numbers_are_read_by_counts()
    ensures { (P : Protocol) (bytes : List ℕ) (at : ℕ) → read_numbered P bytes at ≡
        next (clauses_read P bytes at) (λ cs place rest. certificate_end cs rest place) }
{}
