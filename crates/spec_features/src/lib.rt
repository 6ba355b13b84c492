//! The features of clauses: eight numbers, by which most clauses that don't subsume another are told without a look at
//! them. The definitions stand in `specs/`; the functions here have empty bodies, and say in their contracts what holds of
//! the definitions.
#![tactic(auto)]

ghost use Rattle.std.specs.Prelude.{◌≡◌, ◌<◌, ◌^◌, true, List, [], ◌∷◌};
ghost use Rattle.std.specs.List.{AllByRecursion, list_all};
ghost use Rattle.spec_terms.specs.Term.{Term};
ghost use Rattle.spec_clauses.specs.Fact.{Clause};
ghost use Rattle.spec_clauses.specs.Flat.{is_flat};
ghost use Rattle.spec_clauses.specs.Limits.{IsWithinLimit};
ghost use Rattle.spec_clauses.specs.Subsumption.{Subsumes};
ghost use Rattle.spec_features.specs.Features.{features_of, are_at_most};
ghost use Rattle.spec_features.specs.Examples.{keyed_message, next_entry};

/// No feature of a clause with flat hypotheses is greater than that of a clause that it subsumes.
pub fn subsuming_clauses_have_no_greater_features()
    ensures { (general special : Clause Term) → list_all is_flat general.hypotheses ≡ true →
        Subsumes general special → are_at_most (features_of general) (features_of special) ≡ true }
{}

/// Each feature of a clause within the limit of size fits 16 bits.
pub fn features_are_small()
    ensures { (c : Clause Term) → IsWithinLimit c → AllByRecursion (λ n. n < 2 ^ 16)
        (features_of c) }
{}

/// The features of `att(v0), att(f(v0,c)) => mess(v0,c)`: the first hypothesis is `att` of a variable.
pub fn features_of_a_keyed_message()
    ensures { features_of keyed_message ≡ 1 ∷ 0 ∷ 0 ∷ 0 ∷ 2 ∷ 1 ∷ 1 ∷ 3 ∷ [] }
{}

/// The features of `att@1(v0), tab(t(v0)), mess@1(c,v0) => tab(t(f(v0,c)))`: entries count as messages, in whatever phase.
pub fn features_of_an_entry()
    ensures { features_of next_entry ≡ 0 ∷ 2 ∷ 0 ∷ 0 ∷ 1 ∷ 2 ∷ 4 ∷ 0 ∷ [] }
{}
