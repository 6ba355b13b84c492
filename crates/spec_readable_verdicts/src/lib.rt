//! The certificate that is given for a proved query may stand in the text of a report, so that a check reads what a
//! verification wrote.
//!
//! What may stand there is defined below this crate. The function here has an empty body, and its contract is the law.
#![tactic(auto)]

ghost use Rattle.std.specs.Prelude.{ℕ, ◌≤◌, List, Contains};
ghost use Rattle.spec_calculus.specs.Bounds.{most_budget};
ghost use Rattle.spec_calculus.specs.Syntax.{Query, Protocol};
ghost use Rattle.spec_protocol_scope.specs.Spells.{Spells};
ghost use Rattle.spec_certificates.specs.Certificate.{Certificate};
ghost use Rattle.spec_verdicts.specs.Verdict.{Proved, IsVerdict};
ghost use Rattle.spec_certificate_text.specs.Readable.{IsReadableCertificate};

use spec_protocol_scope::{query_leaves, well_scoped, within_limits};

/// The certificate of a query that is proved, with a budget that may be asked for, may stand in a text: its terms are of the
/// protocol and within the limit of levels, its facts stand where they may, its rows are numbers within the limit of digits,
/// and there are no more clauses than the limit.
pub fn proved_certificates_may_stand()
    ensures { (bytes : List ℕ) (P : Protocol) (q : Query) (budget : ℕ) (cert : Certificate) →
        Spells bytes P → Contains P.queries q → budget ≤ most_budget →
        IsVerdict P q budget (Proved cert) → IsReadableCertificate P cert }
{
    query_leaves();
    well_scoped();
    within_limits();
}
