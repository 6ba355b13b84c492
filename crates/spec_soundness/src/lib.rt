//! Soundness: where a closed list of clauses shows no violation, no run of the protocol violates the query, and so where a certificate
//! is accepted. The functions here have empty bodies, and say in their contracts what holds of the definitions below.
#![tactic(auto)]

ghost use Rattle.std.specs.Prelude.{◌↔◌, ℕ, List};
ghost use Rattle.spec_calculus.specs.Syntax.{Query, Secret, SecretNew, Correspondence, Protocol};
ghost use Rattle.spec_calculus.specs.Syntax.{Term as Message, EventTerm};
ghost use Rattle.spec_calculus.specs.Secrecy.{Holds};
ghost use Rattle.spec_terms.specs.Term.{Term};
ghost use Rattle.spec_clauses.specs.Fact.{Clause};
ghost use Rattle.spec_derivations.specs.Choice.{Placed};
ghost use Rattle.spec_translation.specs.Satisfied.{IsSatisfied, GoalRowHolds};
ghost use Rattle.spec_certificates.specs.Shown.{IsProper, IsShownBy, IsPlacedShown, IsShown};
ghost use Rattle.spec_certificates.specs.Certificate.{Certificate};
ghost use Rattle.spec_certificates.specs.Ruling.{Accepted, IsRuled, IsRuledBy};
ghost use Rattle.spec_certificates.specs.Announcing.{announced, announcing};
ghost use Rattle.spec_certificates.specs.Example.{kept_key, encrypting};
ghost use Rattle.spec_certificates.specs.Remembering.{kept_secret, remembering};

use spec_certificates::{
    a_key_is_certified, accepted_certificates_show, accepted_numbers_show,
    an_else_branch_is_certified, names_are_certified,
};
use spec_derivations::resting_clauses_suffice;

/// Secrets are kept: where it is shown of a message, or of the names of a restriction, no run of the protocol beside
/// the attacker makes it known up to the phase of the query.
pub fn secrets_are_kept()
    ensures messages { (P : Protocol) (message : Message) (phase : ℕ)
        (all rules : List (Clause Term)) → IsProper P (Secret message phase) →
        IsShownBy P (Secret message phase) all rules → Holds P (Secret message phase) }
    ensures names { (P : Protocol) (point phase : ℕ) (all rules : List (Clause Term)) →
        IsProper P (SecretNew point phase) → IsShownBy P (SecretNew point phase) all rules →
        Holds P (SecretNew point phase) }
{}

/// Correspondences hold: where it is shown, each event that is an instance of the left side is
/// preceded, in every run beside the attacker, by all events of an alternative (Blanchet 2016,
/// section 3.2).
pub fn correspondences_hold()
    ensures { (P : Protocol) (left : EventTerm) (alternatives : List (List EventTerm))
        (all rules : List (Clause Term)) → IsProper P (Correspondence left alternatives) →
        IsShownBy P (Correspondence left alternatives) all rules →
        Holds P (Correspondence left alternatives) }
{}

/// Queries hold: what is shown of a query, of whatever kind, is so in all runs, by whichever rules it is shown.
pub fn resting_queries_hold()
    ensures { (P : Protocol) (q : Query) (all rules : List (Clause Term)) →
        IsProper P q → IsShownBy P q all rules → Holds P q }
{
    secrets_are_kept();
    correspondences_hold();
}

/// So is what a closed list shows, whichever hypotheses are chosen of its clauses.
pub fn placed_queries_hold()
    ensures { (P : Protocol) (q : Query) (all : List (Clause Term)) (placed : List Placed) →
        IsProper P q → IsPlacedShown P q all placed → Holds P q }
{
    resting_clauses_suffice();
    resting_queries_hold();
}

/// And so it is where the largest hypotheses are chosen, and solved clauses rest.
pub fn queries_hold()
    ensures { (P : Protocol) (q : Query) (all clauses : List (Clause Term)) →
        IsProper P q → IsShown P q all clauses → Holds P q }
{
    placed_queries_hold();
}

/// A clause is satisfied exactly where some goal row holds: the number of an alternative, and a
/// position for each of its events.
pub fn goal_rows_tell()
    ensures { (P : Protocol) (left : EventTerm) (alternatives : List (List EventTerm))
        (c : Clause Term) → IsSatisfied P (Correspondence left alternatives) c ↔
        ((number : ℕ) × (row : List ℕ) × GoalRowHolds P left alternatives c number row) }
{}

/// Where a certificate of a query is accepted, no run of the protocol beside the attacker violates the query.
pub fn accepted_queries_hold()
    ensures { (P : Protocol) (q : Query) (cert : Certificate) →
        IsProper P q → IsRuled P q cert Accepted → Holds P q }
{
    accepted_certificates_show();
    queries_hold();
}

/// Nor where one is accepted by the numbers beside its clauses.
pub fn accepted_numbers_hold()
    ensures { (P : Protocol) (q : Query) (cert : Certificate) (numbers : List ℕ) →
        IsProper P q → IsRuledBy numbers P q cert Accepted → Holds P q }
{
    accepted_numbers_show();
    placed_queries_hold();
}

/// The worked examples: no run makes the key known, each end is preceded by what announces its name, and no run makes known
/// what an else branch sends that never runs.
pub fn certified_queries_hold()
    ensures secret { Holds encrypting kept_key }
    ensures correspondence { Holds announcing announced }
    ensures otherwise { Holds remembering kept_secret }
{
    queries_hold();
    a_key_is_certified();
    names_are_certified();
    an_else_branch_is_certified();
}
