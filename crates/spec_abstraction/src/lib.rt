//! The abstraction of runs: what derivations stand behind what happens in a run. The definitions stand in `specs/`; the
//! functions here have empty bodies, and say in their contracts what holds of the definitions.
#![tactic(auto)]

ghost use Rattle.std.specs.Prelude.{◌≡◌, List, Some, Contains, false, map, is_some};
ghost use Rattle.std.specs.List.{list_any};
ghost use Rattle.spec_trees.specs.Tree.{Leaf};
ghost use Rattle.spec_calculus.specs.Syntax.{Pattern, Expression, Query, Protocol};
ghost use Rattle.spec_calculus.specs.Values.{Value, Environment};
ghost use Rattle.spec_calculus.specs.Matching.{matched};
ghost use Rattle.spec_calculus.specs.Choices.{values_at};
ghost use Rattle.spec_calculus.specs.Runs.{Configuration, Step, run};
ghost use Rattle.spec_calculus.specs.Standing.{IsLacking, EnvironmentLacks};
ghost use Rattle.spec_well_formed.specs.Rules.{HasProperRules};
ghost use Rattle.spec_well_formed.specs.Processes.{HasLinearPatterns};
ghost use Rattle.spec_terms.specs.Term.{Term};
ghost use Rattle.spec_clauses.specs.Fact.{Fact, Clause};
ghost use Rattle.spec_clauses.specs.Kept.{AreMetBy};
ghost use Rattle.spec_derivations.specs.Derivation.{AreDerived, Derive};
ghost use Rattle.spec_translation.specs.Translation.{Clauses, IsTranslation};
ghost use Rattle.spec_translation.specs.Otherwise.{choice_diffs};
ghost use Rattle.spec_abstraction.specs.Trace.{trace_of};
ghost use Rattle.spec_abstraction.specs.Naming.{abstracted, abstracted_binding, Names, naming};
ghost use Rattle.spec_abstraction.specs.Taken.{IsTaken, HoldsAll};
ghost use Rattle.spec_abstraction.specs.Derived.{IsDerived};
ghost use Rattle.spec_abstraction.specs.OneToOne.{is_foreign, AreOnce, IsOneToOne};

/// A translation holds the norms of all raw clauses: of the attacker's, of those of all visits, and of the goal.
pub fn translations_hold_all()
    ensures { (P : Protocol) (q : Query) (all : List (Clause Term)) →
        IsTranslation P q (Clauses all) → HoldsAll P q all }
{}

/// What raw clauses derive, a list that has their norms derives, with the same events.
pub fn norms_derive_what_raw_clauses_do()
    ensures { (all : List (Clause Term)) (events facts : List (Fact Term)) →
        AreDerived (IsTaken all) events facts → Derive all events facts }
{}

/// The naming of the names that a run makes gives each its term: its restriction's, over the messages and the copies
/// of the thread that made it.
pub fn runs_are_named()
    ensures { (P : Protocol) (steps : List Step) (c : Configuration) → run P steps ≡ Some c →
        Names P (naming P (trace_of P steps).made) (trace_of P steps).made }
{}

/// Runs are derived: each value that the attacker knows has its `att` of the phase, and of each later one, derived from the
/// translation with the events that were performed, each entry of a table has its `tab`, and each event its `ev` with those
/// before it alone (Blanchet 2016, section 3.3.4).
pub fn runs_are_derived()
    ensures { (P : Protocol) (q : Query) (all : List (Clause Term)) (steps : List Step)
        (c : Configuration) →
        HasProperRules P → HasLinearPatterns P.main → IsTranslation P q (Clauses all) →
        run P steps ≡ Some c →
        IsDerived P (naming P (trace_of P steps).made) all c (trace_of P steps).made }
{}

/// Each name that stands anywhere in a run, and that a restriction made, has an entry in the
/// run's trace.
pub fn names_of_runs_have_entries()
    ensures { (P : Protocol) (steps : List Step) (c : Configuration) → run P steps ≡ Some c →
        IsLacking (is_foreign (trace_of P steps).made) c }
{}

/// In a run each restriction makes at most one name for the same numbers of the copies above it.
pub fn restrictions_run_once()
    ensures { (P : Protocol) (steps : List Step) (c : Configuration) → run P steps ≡ Some c →
        AreOnce (trace_of P steps).made }
{}

/// Where in a run no choice of rules gives a `let` a value that matches its pattern, the terms of the thread's values meet the
/// constraint of each choice: so those constraints are sound for the else branch, whether or not it is translated with them.
pub fn constraints_of_choices_are_met()
    ensures { (P : Protocol) (steps : List Step) (c : Configuration) (environment : Environment)
        (pattern : Pattern) (expression : Expression) →
        HasProperRules P → run P steps ≡ Some c →
        EnvironmentLacks (is_foreign (trace_of P steps).made) environment →
        list_any (λ v. is_some (matched environment pattern v)) (values_at P environment expression)
        ≡ false → AreMetBy Leaf (choice_diffs P (map
        (abstracted_binding P (naming P (trace_of P steps).made)) environment) pattern expression) }
{}

/// The abstraction of a run is one to one on values of its names, and so on what the attacker knows:
/// values with the same term are the same.
pub fn abstraction_is_one_to_one()
    ensures values { (P : Protocol) (steps : List Step) (c : Configuration) → run P steps ≡ Some c →
        IsOneToOne P (naming P (trace_of P steps).made) (trace_of P steps).made }
    ensures known { (P : Protocol) (steps : List Step) (c : Configuration) (v w : Value) →
        run P steps ≡ Some c → Contains c.known v → Contains c.known w →
        abstracted P (naming P (trace_of P steps).made) v
        ≡ abstracted P (naming P (trace_of P steps).made) w → v ≡ w }
{}
