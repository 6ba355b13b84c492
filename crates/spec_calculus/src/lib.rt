//! The process calculus: protocols as plain data, their runs beside an attacker, and secrecy (the
//! untyped applied pi calculus of Blanchet 2016, sections 2 and 3). The functions here have empty bodies, and say in
//! their contracts what holds of the definitions.
#![tactic(auto)]

ghost use Rattle.std.specs.Prelude.{◌≡◌, ◌↔◌, ℕ, ◌+◌, ◌≤◌, Bool, List, [], ◌∷◌, Some, length, map, take, Contains};
ghost use Rattle.std.specs.Prelude.{filter_map, flat_map};
ghost use Rattle.std.specs.List.{AllByRecursion, list_any};
ghost use Rattle.spec_trees.specs.Tree.{Trees, Leaf, Node, none, more, node};
ghost use Rattle.spec_calculus.specs.Syntax.{Term, Symbol, Head, Builds, Calls, Expression, Ruled, Process, Protocol, Query};
ghost use Rattle.spec_calculus.specs.Values.{Value, Environment, value_of};
ghost use Rattle.spec_calculus.specs.Matching.{rule_value, rules_of};
ghost use Rattle.spec_calculus.specs.Choices.{Choice, choices, label_of, choice_at, value_at};
ghost use Rattle.spec_calculus.specs.Choices.{values_at, row_values_at, part_values, some_part_value, HasRules};
ghost use Rattle.spec_calculus.specs.Choices.{applications, choice_count, AreInOrder};
ghost use Rattle.spec_calculus.specs.Labels.{read_rules};
ghost use Rattle.spec_calculus.specs.Points.{nodes, greatest_phase};
ghost use Rattle.spec_calculus.specs.Runs.{Configuration, Step, Next, Put, Fetch, Miss, after_steps, run};
ghost use Rattle.spec_calculus.specs.Refusals.{WrongForm, refusal};
ghost use Rattle.spec_calculus.specs.Secrecy.{IsViolated, IsOpen};
ghost use Rattle.spec_calculus.specs.Phases.{all_phases_begun, open_steps};
ghost use Rattle.spec_calculus.specs.Plain.{IsPlain, nowhere};

/// The choices of an expression: as many as the product of the numbers of rules of the destructors that it applies,
/// each with a number for each of these, in dictionary order.
pub fn choices_are_listed()
    ensures counted { (P : Protocol) (e : Expression) →
        length (choices P e) ≡ choice_count (λ d. length (rules_of P d)) e }
    ensures numbered { (P : Protocol) (e : Expression) →
        AllByRecursion (λ c. length c.rules ≡ applications e) (choices P e) }
    ensures ordered { (P : Protocol) (e : Expression) →
        AreInOrder (λ (c : Choice). c.rules) (choices P e) }
{}

/// The values of an expression are the values of its labels: there is none but by a label.
pub fn values_are_those_of_labels()
    ensures { (P : Protocol) (environment : Environment) (e : Expression) (v : Value) →
        Contains (values_at P environment e) v
        ↔ ((label : List ℕ) × (value_at P environment e label ≡ Some v)) }
{}

/// The values of an expression, part by part: each list of values of its parts is tried once, with each rule in order.
pub fn values_come_of_parts()
    ensures terms { (P : Protocol) (environment : Environment) (t : Term) →
        values_at P environment (Leaf t) ≡ value_of environment t ∷ [] }
    ensures constructors { (P : Protocol) (environment : Environment) (f : Symbol)
        (parts : Trees Term (Head ℕ)) → values_at P environment (Node (Builds f) parts)
        ≡ map (node f) (row_values_at P environment parts) }
    ensures destructors { (P : Protocol) (environment : Environment) (d : ℕ)
        (parts : Trees Term (Head ℕ)) → values_at P environment (Node (Calls d) parts)
        ≡ flat_map (λ vs. filter_map (λ rule. rule_value rule vs) (rules_of P d))
        (row_values_at P environment parts) }
    ensures no_parts { (P : Protocol) (environment : Environment) →
        row_values_at P environment none ≡ [] ∷ [] }
    ensures more_parts { (P : Protocol) (environment : Environment) (part : Expression)
        (parts : Trees Term (Head ℕ)) → row_values_at P environment (more part parts)
        ≡ flat_map (λ v. map (λ vs. v ∷ vs) (row_values_at P environment parts))
        (values_at P environment part) }
{}

/// Where each destructor has a rule, what the choices of an expression evaluate are the values of its parts, each part's by
/// its own choices.
pub fn parts_are_evaluated()
    ensures { (P : Protocol) (environment : Environment) (test : Value → Bool) (e : Expression) →
        HasRules P e →
        list_any test (flat_map (λ c. part_values environment c.ruled) (choices P e))
        ≡ some_part_value test P environment e }
{}

/// A label tells one choice: the one that is read from it, each number in its turn, without the list of all.
pub fn labels_tell_choices()
    ensures read { (P : Protocol) (e : Expression) (label : List ℕ) (c : Choice) →
        choice_at P e label ≡ Some c →
        (read_rules P e c.rules ≡ Some (c.ruled, [])) × (label_of c.rules ≡ label) }
    ensures found { (P : Protocol) (e : Expression) (numbers : List ℕ) (ruled : Ruled) →
        read_rules P e numbers ≡ Some (ruled, []) →
        choice_at P e (label_of numbers) ≡ Some (record { rules = numbers; ruled = ruled }) }
{}

/// What is violated stays violated while the query is open: one of secrecy until its phase has passed, and a
/// correspondence always.
pub fn violations_stay()
    ensures { (P : Protocol) (q : Query) (c d : Configuration) (steps : List Step) →
        after_steps P c steps ≡ Some d → IsOpen q d → IsViolated q c → IsViolated q d }
{}

/// The steps tell the phase, and so at which ends of steps a query is open: these are the first so many, the query is
/// open at the end of them all, and a violation is at the end of some of them.
pub fn phases_are_told()
    ensures counted { (P : Protocol) (c d : Configuration) (steps : List Step) →
        after_steps P c steps ≡ Some d → d.phase ≡ c.phase + all_phases_begun steps }
    ensures still_open { (P : Protocol) (q : Query) (steps : List Step) (d : Configuration) →
        run P (open_steps q steps) ≡ Some d → IsOpen q d }
    ensures violated { (P : Protocol) (q : Query) (k : ℕ) (steps : List Step) (d : Configuration) →
        k ≤ length steps → run P (take k steps) ≡ Some d → IsViolated q d →
        (k ≤ length (open_steps q steps)) × (take k (open_steps q steps) ≡ take k steps) }
{}

/// A process that waits for no phase and has no tables goes through phase 0 alone, with all its nodes: at the end of each
/// run all queries are open, and no step of a phase or of a table is possible.
pub fn plain_processes_have_one_phase()
    ensures greatest { (process : Process) → IsPlain process → greatest_phase process ≡ 0 }
    ensures nodes { (process : Process) → IsPlain process → AllByRecursion IsPlain (nodes process) }
    ensures opened { (P : Protocol) (q : Query) (d : Configuration) (steps : List Step) →
        IsPlain P.main → run P steps ≡ Some d → IsOpen q d }
    ensures phases { (P : Protocol) (c : Configuration) → IsPlain P.main →
        refusal P c Next ≡ Some WrongForm }
    ensures writes { (P : Protocol) (c : Configuration) (i : ℕ) → IsPlain P.main →
        refusal P c (Put i) ≡ nowhere c i }
    ensures reads { (P : Protocol) (c : Configuration) (i e : ℕ) → IsPlain P.main →
        (refusal P c (Fetch i e) ≡ nowhere c i) × (refusal P c (Miss i) ≡ nowhere c i) }
{}
