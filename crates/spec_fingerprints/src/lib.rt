//! The fingerprints of facts: what stands at some positions of their terms, by which most pairs of facts without a common
//! instance are told apart at a look. The definitions stand in `specs/`; the functions here have empty bodies, and say in
//! their contracts what holds of the definitions.
#![tactic(auto)]

ghost use Rattle.std.specs.Prelude.{◌≡◌, true, false, Some, length};
ghost use Rattle.spec_terms.specs.Term.{Term, Subst};
ghost use Rattle.spec_clauses.specs.Fact.{Fact, Clause, fact_under};
ghost use Rattle.spec_clauses.specs.Selection.{Selection, select, is_solved};
ghost use Rattle.spec_clauses.specs.Resolvents.{Resolves, NoUnifier};
ghost use Rattle.spec_fingerprints.specs.Fingerprints.{fingerprint_of, may_meet, hypothesis_print, clause_print, may_resolve, positions};
ghost use Rattle.spec_fingerprints.specs.Examples.{encrypted, encrypted_somehow};

/// Where an instance of a fact is one of another, as where they have a unifier once their variables are renamed in any way,
/// their fingerprints may meet.
pub fn facts_that_meet_have_fingerprints_that_may()
    ensures { (f g : Fact Term) (s t : Subst) → fact_under s f ≡ fact_under t g →
        may_meet (fingerprint_of f) (fingerprint_of g) ≡ true }
{}

/// Where the fingerprint of a solved clause's conclusion may not meet that of a selected hypothesis, the pair has no
/// unifier. Likewise of the fingerprints of both clauses, in either order.
pub fn fingerprints_tell_that_there_is_no_unifier()
    ensures facts { (solved unsolved : Clause Term) (at : Selection) →
        may_meet (fingerprint_of solved.conclusion) (fingerprint_of at.fact) ≡ false →
        Resolves solved unsolved at NoUnifier }
    ensures hypothesis { (solved unsolved : Clause Term) (at : Selection) →
        select unsolved.hypotheses ≡ Some at →
        may_resolve (fingerprint_of solved.conclusion) (hypothesis_print unsolved) ≡ false →
        Resolves solved unsolved at NoUnifier }
    ensures solved_first { (solved unsolved : Clause Term) (at : Selection) →
        select unsolved.hypotheses ≡ Some at → is_solved solved.hypotheses ≡ true →
        may_meet (clause_print solved) (clause_print unsolved) ≡ false →
        Resolves solved unsolved at NoUnifier }
    ensures unsolved_first { (solved unsolved : Clause Term) (at : Selection) →
        select unsolved.hypotheses ≡ Some at → is_solved solved.hypotheses ≡ true →
        may_meet (clause_print unsolved) (clause_print solved) ≡ false →
        Resolves solved unsolved at NoUnifier }
{}

/// Ciphertexts under two different keys are told apart, and those under a key and under any are not.
pub fn keys_are_told_apart()
    ensures apart { may_meet (fingerprint_of (encrypted 1)) (fingerprint_of (encrypted 2)) ≡ false }
    ensures same { may_meet (fingerprint_of (encrypted 1)) (fingerprint_of (encrypted 1)) ≡ true }
    ensures any { may_meet (fingerprint_of (encrypted 1)) (fingerprint_of encrypted_somehow)
        ≡ true }
{}

/// There are 32 positions.
pub fn positions_are_few()
    ensures { length positions ≡ 32 }
{}
