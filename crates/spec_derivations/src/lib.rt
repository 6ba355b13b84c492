//! Instances of clauses, derivations, and lists of clauses that are closed under resolution. The definitions stand
//! in `specs/`; the functions here have empty bodies, and say in their contracts what holds of the definitions.
#![tactic(auto)]

ghost use Rattle.std.specs.Prelude.{◌≡◌, ◌↔◌, ◌⊎◌, true, false, Some, List, [], ◌∷◌, ◌++◌};
ghost use Rattle.spec_terms.specs.Term.{Term};
ghost use Rattle.spec_clauses.specs.Fact.{Fact, Att, Bad, Clause};
ghost use Rattle.spec_clauses.specs.Selection.{Selection, select, is_solved};
ghost use Rattle.spec_clauses.specs.Norm.{IsNormal};
ghost use Rattle.spec_clauses.specs.Resolvents.{Answer, NoUnifier, Resolvents, Resolves};
ghost use Rattle.spec_clauses.specs.Inclusion.{Has, IsWithin};
ghost use Rattle.spec_clauses.specs.Subsumption.{IsCovered};
ghost use Rattle.spec_derivations.specs.Derivation.{Instance, is_required_event, Derive};
ghost use Rattle.spec_derivations.specs.Choice.{choice_of, IsRight, Placed, resting_of, number_of};
ghost use Rattle.spec_derivations.specs.Closed.{IsPairClosed, ArePairsClosed, Closes, solved_of};
ghost use Rattle.spec_derivations.specs.Resting.{reads, four_placed, four_clauses};
ghost use Rattle.spec_derivations.specs.Example.{channel, five_clauses, listens, sends_pair, gives_message};
ghost use Rattle.spec_derivations.specs.Laws.{NormLaw, RowLaw, SubsumptionLaw, ResolutionLaw};
ghost use Rattle.spec_derivations.specs.Laws.{RestingClausesSuffice, SolvedClausesSuffice};

/// The law of norm: an instance of a flat clause has what it concludes among its premises, or the clause's norm
/// concludes the same from no more.
pub fn norm_keeps_instances()
    ensures { NormLaw }
{}

/// The laws of rows and of subsumption: where a row holds, and where one clause subsumes another, what an
/// instance of the special clause concludes, the general one concludes from no more.
pub fn subsumption_keeps_instances()
    ensures rows { RowLaw }
    ensures subsumption { SubsumptionLaw }
{}

/// The law of resolution: a chosen hypothesis of an instance is one of its premises, and what a clause that may
/// rest and concludes it makes needless, a flat part of the raw resolvent does without.
pub fn resolution_keeps_chosen_instances()
    ensures { ResolutionLaw }
{}

/// What is derived from given clauses is derived by the clauses that rest of a list that is closed over them, with the
/// same events, whichever hypotheses are chosen of the others (Bachmair and Ganzinger 2001, resolution with free
/// selection). This rests on the three laws alone.
pub fn resting_clauses_suffice()
    ensures suffice { RestingClausesSuffice }
    ensures resting { (placed : List Placed) (c : Clause Term) → Has (resting_of placed) c ↔
        ((p : Placed) × Has placed p × (p.number ≡ 0) × (c ≡ p.clause)) }
{
    norm_keeps_instances();
    subsumption_keeps_instances();
    resolution_keeps_chosen_instances();
}

/// Where the largest hypotheses are chosen, the solved clauses do (Blanchet 2001, section 4).
pub fn solved_clauses_suffice()
    ensures suffice { SolvedClausesSuffice }
    ensures solved { (clauses : List (Clause Term)) (c : Clause Term) →
        Has (solved_of clauses) c ↔ (Has clauses c × (is_solved c.hypotheses ≡ true)) }
{
    resting_clauses_suffice();
}

/// Selection is a choice: the number of what is selected of a clause chooses it, and is right beside the clause.
pub fn selection_is_a_choice()
    ensures chosen { (c : Clause Term) →
        choice_of c (number_of (select c.hypotheses)) ≡ select c.hypotheses }
    ensures right { (c : Clause Term) → IsRight c (number_of (select c.hypotheses)) }
{}

/// The worked example of why a clause that concludes `att` of a variable may rest only where it is solved: of four
/// clauses all numbers are right but that of such a one, and all that their pairs give is covered; `bad` is derived
/// from the four, but not by those that rest.
pub fn rest_matters()
    ensures normal { (p : Placed) → Has four_placed p → IsNormal p.clause }
    ensures right { (p : Placed) → Has four_placed p →
        IsRight p.clause p.number ⊎ (p ≡ reads) }
    ensures wrong { IsRight reads.clause reads.number → ⊥ }
    ensures closed { ArePairsClosed four_placed }
    ensures derived { Derive four_clauses [] (Bad [] ∷ []) }
    ensures lost { Derive (resting_of four_placed) [] (Bad [] ∷ []) → ⊥ }
{}

/// Facts are derived together where they are derived, and more clauses and more events derive no less.
pub fn derivations_are_joined_and_grow()
    ensures both { (clauses : List (Clause Term)) (events fs gs : List (Fact Term)) →
        Derive clauses events fs → Derive clauses events gs → Derive clauses events (fs ++ gs) }
    ensures fewer { (clauses : List (Clause Term)) (events fs gs : List (Fact Term)) →
        IsWithin gs fs → Derive clauses events fs → Derive clauses events gs }
    ensures grown { (clauses others : List (Clause Term)) (events more fs : List (Fact Term)) →
        ((c : Clause Term) → Has clauses c → Has others c) →
        ((f : Fact Term) → Has events f → Has more f) →
        Derive clauses events fs → Derive others more fs }
{}

/// A derived fact that is no required event is concluded by an instance of a clause, from derived premises. A
/// required event that is derived is allowed.
pub fn derivations_have_roots()
    ensures concluded { (clauses : List (Clause Term)) (events : List (Fact Term)) (f : Fact Term) →
        is_required_event f ≡ false → Derive clauses events (f ∷ []) →
        (c : Clause Term) × (premises : List (Fact Term)) ×
        Has clauses c × Instance c premises f × Derive clauses events premises }
    ensures allowed { (clauses : List (Clause Term)) (events fs : List (Fact Term))
        (f : Fact Term) →
        Derive clauses events fs → is_required_event f ≡ true → Has fs f → Has events f }
{}

/// Where no clause of a list concludes `bad`, none is derived.
pub fn only_conclusions_are_derived()
    ensures { (clauses : List (Clause Term)) (events : List (Fact Term)) (ts : List Term) →
        ((c : Clause Term) → Has clauses c → (us : List Term) → c.conclusion ≡ Bad us → ⊥) →
        Derive clauses events (Bad ts ∷ []) → ⊥ }
{}

/// Whether a list is closed depends on what clauses it has alone: not on their order, nor on how often they stand.
pub fn closed_lists_are_sets()
    ensures { (given clauses others : List (Clause Term)) →
        ((c : Clause Term) → Has clauses c ↔ Has others c) →
        Closes given clauses → Closes given others }
{}

/// A pair's answer closes it: where the facts have no unifier, and where the list covers each resolvent.
pub fn answers_close_pairs()
    ensures none { (clauses : List (Clause Term)) (i j : Clause Term) (at : Selection) →
        Resolves i j at NoUnifier → IsPairClosed clauses i j at }
    ensures covered { (clauses cs : List (Clause Term)) (i j : Clause Term) (at : Selection) →
        Resolves i j at (Resolvents cs) → ((c : Clause Term) → Has cs c → IsCovered clauses c) →
        IsPairClosed clauses i j at }
{}

/// The worked example: five clauses are closed over themselves; what is known is derived; what was to stay secret
/// isn't; and of a pair that is heard on a known channel, the part that isn't known makes the one resolvent.
pub fn five_clauses_are_closed()
    ensures closed { Closes five_clauses five_clauses }
    ensures known { Derive five_clauses [] (Att 0 channel ∷ []) }
    ensures kept { Derive five_clauses [] (Bad [] ∷ []) → ⊥ }
    ensures heard { (at : Selection) (answer : Answer) → select listens.hypotheses ≡ Some at →
        Resolves sends_pair listens at answer ↔ (answer ≡ Resolvents (gives_message ∷ [])) }
{
    solved_clauses_suffice();
}
