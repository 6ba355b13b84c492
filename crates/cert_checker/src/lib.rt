//! The check of a certificate: whether each of its obligations is met by its rows, or which is the first that isn't.
//! Nothing is searched for.
#![tactic(auto)]

ghost use Rattle.std.specs.Prelude.{◌≡◌, ℕ, List};
ghost use Rattle.spec_calculus.specs.Syntax.{Query, Protocol};
ghost use Rattle.spec_terms.specs.Term.{Term};
ghost use Rattle.spec_clauses.specs.Fact.{Clause};
ghost use Rattle.spec_translation.specs.Translation.{LargeAt, IsTranslation};
ghost use Rattle.spec_certificates.specs.Certificate.{Certificate, bad_arguments, numbered_from, pairs_by};
ghost use Rattle.spec_certificates.specs.Certificate.{CoverRowHolds, GoalHolds};
ghost use Rattle.spec_certificates.specs.Ruling as certificates;
ghost use Rattle.spec_certificates.specs.Ruling.{Accepted, NoneLeft, resting_bad, IsRuled, IsRuledBy};
ghost use Rattle.cert_stages.specs.Stages.{FirstMisshapen, FirstUnshown, AreShown, FirstOpen};
ghost use Rattle.cert_stages.specs.Answers.{rests_by, chosen_by, FirstWrong};
ghost use Rattle.cert_checker.specs.Reached.{clauses_of, HasShapes, HasRights, IsTranslatedTo};
ghost use Rattle.cert_checker.specs.Reached.{HasCovered, HasClosed};
ghost use Rattle.cert_checker.specs.Sufficing.{SolvedOnesSuffice};

mod checking;
mod claim;
mod judging;
mod left_over;
mod pairing;
pub mod ruling;

pub use crate::checking::{
    Placed, check_cert, check_cert_in, check_placed_in, check_placed_shared, check_shared,
};
pub use crate::ruling::Ruling;
use spec_certificates::accepted_certificates_show;
use spec_derivations::solved_clauses_suffice;
use spec_translation::one_translation;

/// What is ruled of a certificate by the numbers beside its clauses, by how far its check comes: the first stage that fails says it,
/// and where none does, the rows that are left.
pub fn stages_make_rulings()
    ensures shape { (numbers : List ℕ) (P : Protocol) (q : Query) (cert : Certificate)
        (number : ℕ) → FirstMisshapen (bad_arguments q) (clauses_of cert) number →
        IsRuledBy numbers P q cert (certificates.Shape number) }
    ensures wrong { (numbers : List ℕ) (P : Protocol) (q : Query) (cert : Certificate)
        (number : ℕ) → HasShapes q cert → FirstWrong numbers (clauses_of cert) number →
        IsRuledBy numbers P q cert (certificates.Shape number) }
    ensures translation { (numbers : List ℕ) (P : Protocol) (q : Query) (cert : Certificate)
        (point : ℕ) → HasRights numbers q cert → IsTranslation P q (LargeAt point) →
        IsRuledBy numbers P q cert (certificates.Translation point) }
    ensures cover { (numbers : List ℕ) (P : Protocol) (q : Query) (cert : Certificate)
        (given : List (Clause Term)) (number : ℕ) → IsTranslatedTo numbers P q cert given →
        FirstUnshown (CoverRowHolds cert.clauses) (numbered_from 1 given) cert.rows number →
        IsRuledBy numbers P q cert (certificates.Cover number) }
    ensures closure { (numbers : List ℕ) (P : Protocol) (q : Query) (cert : Certificate)
        (left : List (List ℕ)) (ruling : certificates.Ruling) → HasCovered numbers P q cert left →
        FirstOpen cert.clauses
        (pairs_by (chosen_by numbers) (clauses_of cert) (clauses_of cert)) left ruling →
        IsRuledBy numbers P q cert ruling }
    ensures goal { (numbers : List ℕ) (P : Protocol) (q : Query) (cert : Certificate)
        (left : List (List ℕ)) (number : ℕ) → HasClosed numbers P q cert left →
        FirstUnshown (GoalHolds P q) (resting_bad (rests_by numbers) (clauses_of cert))
        cert.goals number → IsRuledBy numbers P q cert (certificates.Goal number) }
    ensures met { (numbers : List ℕ) (P : Protocol) (q : Query) (cert : Certificate)
        (left goals : List (List ℕ)) (ruling : certificates.Ruling) →
        HasClosed numbers P q cert left → AreShown (GoalHolds P q)
        (resting_bad (rests_by numbers) (clauses_of cert)) cert.goals goals →
        NoneLeft cert left goals ruling → IsRuledBy numbers P q cert ruling }
{}

/// What is derived from the translation is derived by the solved clauses of an accepted certificate alone, with the same
/// events (Blanchet 2001, section 4).
pub fn accepted_certificates_suffice()
    ensures { (P : Protocol) (q : Query) (cert : Certificate) → IsRuled P q cert Accepted →
        SolvedOnesSuffice P q cert.clauses }
{
    accepted_certificates_show();
    one_translation();
    solved_clauses_suffice();
}
