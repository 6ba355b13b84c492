//! What holds of the runs of a protocol beside an attacker, by the definitions of the crate `calculus`
//! (Blanchet 2016, sections 2 and 3). Each law is the contract of a function with an empty body.

ghost use Rattle.std.specs.Prelude.{◌≡◌, ℕ, ◌+◌, ◌<◌, ◌++◌, true, List, length, map, Some, IsNone, IsSome, IsTrue, Contains, ◌↔◌};
ghost use Rattle.std.specs.List.{AllByRecursion};
ghost use Rattle.spec_trees.specs.Tree.{Trees, Node, items_of, some_leaf};
ghost use Rattle.spec_calculus.specs.Syntax.{Variable, Symbol, Pattern, Protocol, Query, Rule};
ghost use Rattle.spec_calculus.specs.Values.{Atom, Value, Environment, same_value, value_of_bound};
ghost use Rattle.spec_calculus.specs.Points.{numbered};
ghost use Rattle.spec_calculus.specs.Matching.{matched, filled, is_binding, IsLinear, instance_of, rule_value, rules_of, IsClosedRule};
ghost use Rattle.spec_calculus.specs.Runs.{Performed, Configuration, Step, can_build, built, is_data, learns, after_step, after_steps, run};
ghost use Rattle.spec_calculus.specs.Refusals.{refusal, IsUniform};
ghost use Rattle.spec_calculus.specs.Secrecy.{IsViolated, IsOpen, Holds};
ghost use Rattle.spec_calculus.specs.Absence.{IsAbsent};
ghost use Rattle.spec_calculus.specs.Standing.{NextIsNew, names_made};

/// A message with a private free name that no term of the main process holds is secret: no run makes
/// it known, whatever its threads, its steps and the names of the attacker.
#[tactic(auto, using(spec_calculus::proofs::Absence::absent_is_secret))]
pub fn absence_is_secrecy()
    ensures { (P : Protocol) (q : Query) → IsAbsent P q → Holds P q }
{}

/// Steps take nothing from what the attacker knows, nor from the events, and so what is violated stays
/// violated while the query is open.
#[tactic(auto, using(spec_calculus::proofs::Growth::knowledge_grows, spec_calculus::proofs::Growth::events_grow, spec_calculus::proofs::Growth::violation_stays))]
pub fn steps_only_add()
    ensures known { (P : Protocol) (c d : Configuration) (steps : List Step) →
        after_steps P c steps ≡ Some d → (more : List Value) × (d.known ≡ c.known ++ more) }
    ensures events { (P : Protocol) (c d : Configuration) (steps : List Step) →
        after_steps P c steps ≡ Some d → (more : List Performed) × (d.events ≡ c.events ++ more) }
    ensures violated { (P : Protocol) (q : Query) (c d : Configuration) (steps : List Step) →
        after_steps P c steps ≡ Some d → IsOpen q d → IsViolated q c → IsViolated q d }
{}

/// The test by which a step compares channels is equality of values.
#[tactic(auto, using(spec_calculus::proofs::Equality::same_value_is_equality))]
pub fn equality_is_decided()
    ensures { (v w : Value) → IsTrue (same_value v w) ↔ (v ≡ w) }
{}

/// Each name that is made is new: in every configuration that a run reaches, the name that is made
/// next stands in no value that is known, bound, performed or written. A step that makes a name takes that
/// number, and no other step does. So names that different steps make differ: where a step makes a name,
/// each name that is made after it has a greater number.
#[tactic(auto, using(spec_calculus::proofs::Freshness::next_is_new, spec_calculus::proofs::Growth::numbers_are_taken, crate::proofs::Naming::later_names_differ))]
pub fn made_names_are_new()
    ensures nowhere { (P : Protocol) (steps : List Step) (c : Configuration) →
        run P steps ≡ Some c → NextIsNew c }
    ensures taken { (P : Protocol) (c d : Configuration) (step : Step) →
        after_step P c step ≡ Some d → d.next ≡ c.next + names_made step }
    ensures differ { (P : Protocol) (c d e : Configuration) (step : Step) (steps : List Step) →
        names_made step ≡ 1 → after_step P c step ≡ Some d → after_steps P d steps ≡ Some e →
        c.next < e.next }
{}

/// A rule of a destructor gives a value exactly of the instances of its left side: that instance of
/// its right side.
#[tactic(auto, using(spec_calculus::proofs::Rules::rules_of_destructors))]
pub fn rules_give_instances()
    ensures instance { (rule : Rule) (vs : List Value) (v : Value) → rule_value rule vs ≡ Some v →
        (s : Environment) × (map (instance_of s) rule.left ≡ vs) × (v ≡ instance_of s rule.right) }
    ensures value { (rule : Rule) (s : Environment) → IsClosedRule rule →
        rule_value rule (map (instance_of s) rule.left) ≡ Some (instance_of s rule.right) }
{}

/// A value matches a pattern that binds no variable twice exactly where it is that pattern with its
/// holes filled, and in one way: the variables' values are determined.
#[tactic(auto, using(spec_calculus::proofs::Patterns::matching))]
pub fn patterns_match_in_one_way()
    ensures filled { (environment bindings : Environment) (pattern : Pattern) (v : Value) →
        IsLinear pattern → matched environment pattern v ≡ Some bindings →
        v ≡ filled environment bindings pattern }
    ensures matched { (environment bindings : Environment) (pattern : Pattern) →
        IsSome (matched environment pattern (filled environment bindings pattern)) }
    ensures unique { (environment s t : Environment) (pattern : Pattern) (i : ℕ) →
        filled environment s pattern ≡ filled environment t pattern →
        some_leaf (is_binding i) pattern ≡ true →
        value_of_bound s (Variable i) ≡ value_of_bound t (Variable i) }
{}

/// The attacker's knowledge is closed under what its steps can do: a public constructor or a tuple, a
/// rule of a destructor, and the parts of data.
#[tactic(auto, using(spec_calculus::proofs::Closure::building_is_closed, spec_calculus::proofs::Closure::reducing_is_closed))]
pub fn knowledge_is_closed()
    ensures build { (P : Protocol) (c : Configuration) (f : ℕ) (vs : List Value) →
        AllByRecursion (Contains c.known) vs → can_build P f (length vs) ≡ true → (step : Step) ×
        (after_step P c step ≡ Some (learns c (built f vs))) }
    ensures reduce { (P : Protocol) (c : Configuration) (d r : ℕ) (rule : Rule) (vs : List Value)
        (v : Value) → numbered (rules_of P d) r ≡ Some rule → AllByRecursion (Contains c.known) vs →
        rule_value rule vs ≡ Some v → (step : Step) × (after_step P c step ≡ Some (learns c v)) }
    ensures part { (P : Protocol) (c : Configuration) (f : Symbol) (vs : Trees Atom Symbol) (i : ℕ)
        (v : Value) → Contains c.known (Node f vs) → is_data P f ≡ true →
        numbered (items_of vs) i ≡ Some v → (step : Step) ×
        (after_step P c step ≡ Some (learns c v)) }
{}

/// A step is refused exactly where it is not possible. The causes are looked at in the order in which
/// the definition lists them; all rules of a destructor take as many arguments.
#[tactic(auto, using(spec_calculus::proofs::Refusals::refusals_are_exact))]
pub fn refusals_are_exact()
    ensures { (P : Protocol) (c : Configuration) (step : Step) → IsUniform P →
        IsNone (refusal P c step) ↔ IsSome (after_step P c step) }
{}
