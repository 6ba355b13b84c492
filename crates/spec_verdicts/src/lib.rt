//! Verdicts of queries: what is decided of a protocol and a query with a budget, and the certificate of a query that is proved.
//! The definitions stand in `specs/`; the functions here have empty bodies, and say in their contracts what holds of the
//! definitions.
#![tactic(auto)]

ghost use Rattle.std.specs.Prelude.{◌≡◌, ℕ, List};
ghost use Rattle.spec_calculus.specs.Syntax.{Query, Protocol};
ghost use Rattle.spec_calculus.specs.Secrecy.{Holds};
ghost use Rattle.spec_well_formed.specs.Limits.{IsSmallQuery, IsWithinLimits};
ghost use Rattle.spec_certificates.specs.Shown.{IsProper};
ghost use Rattle.spec_certificates.specs.Certificate.{Certificate};
ghost use Rattle.spec_certificates.specs.Ruling.{Accepted, IsRuled};
ghost use Rattle.spec_verdicts.specs.Verdict.{Verdict, Proved, IsVerdict};
ghost use Rattle.spec_verdicts.specs.Example.{kept, quiet, five_rows};

use spec_soundness::queries_hold;

/// A protocol, a query and a budget have one verdict at most.
pub fn one_verdict()
    ensures { (P : Protocol) (q : Query) (budget : ℕ) (a b : Verdict) →
        IsVerdict P q budget a → IsVerdict P q budget b → a ≡ b }
{}

/// The certificate of a query that is proved is accepted.
pub fn first_certificates_are_accepted()
    ensures { (P : Protocol) (q : Query) (budget : ℕ) (cert : Certificate) →
        IsWithinLimits P → IsSmallQuery q → IsVerdict P q budget (Proved cert) →
        IsRuled P q cert Accepted }
{}

/// Where a query is proved, no run of the protocol beside the attacker violates it.
pub fn proved_queries_hold()
    ensures { (P : Protocol) (q : Query) (budget : ℕ) (cert : Certificate) →
        IsProper P q → IsVerdict P q budget (Proved cert) → Holds P q }
{
    queries_hold()
}

/// The worked example: a secret that never leaves the protocol is proved, with a budget of as many entries as there are
/// clauses, by the certificate in which each clause covers itself.
pub fn a_secret_is_proved()
    ensures { IsVerdict quiet kept 5 (Proved five_rows) }
{}
