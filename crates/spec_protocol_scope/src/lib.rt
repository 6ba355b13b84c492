//! The rules of scope of protocol files, and with them what the bytes of a file spell and where they are refused.
//!
//! The definitions stand in `specs/`. The laws about them that a reader would ask for are the contracts of the
//! functions below, which do nothing.
#![tactic(auto)]

ghost use Rattle.std.specs.Prelude.{◌≡◌, ◌≤◌, ◌↔◌, ℕ, List, [], length, Ok};
ghost use Rattle.std.specs.List.{AllByRecursion};
ghost use Rattle.spec_trees.specs.Tree.{Leaf};
ghost use Rattle.spec_calculus.specs.Bounds.{most_points};
ghost use Rattle.spec_calculus.specs.Syntax.{Term, Process, Protocol};
ghost use Rattle.spec_calculus.specs.Points.{nodes};
ghost use Rattle.spec_calculus.specs.Matching.{rules_of};
ghost use Rattle.spec_calculus.specs.Choices.{HasRules};
ghost use Rattle.spec_calculus.specs.Plain.{IsPlain, IsPlainQuery};
ghost use Rattle.spec_well_formed.specs.Limits.{IsWithinLimits};
ghost use Rattle.spec_well_formed.specs.Processes.{HasLinearPatterns};
ghost use Rattle.spec_well_formed.specs.Queries.{HasProperQueries};
ghost use Rattle.spec_well_formed.specs.Rules.{HasProperRules};
ghost use Rattle.spec_well_formed.specs.Terms.{IsMerged};
ghost use Rattle.spec_well_formed.specs.WellFormed.{IsWellScoped};
ghost use Rattle.spec_well_formed.specs.Words.{HasDistinctWords};
ghost use Rattle.spec_protocol_grammar.specs.Sketch.{TermSketch, ProcessSketch};
ghost use Rattle.spec_protocol_scope.specs.Names.{Scope, Bound};
ghost use Rattle.spec_protocol_scope.specs.Terms.{process_term};
ghost use Rattle.spec_protocol_scope.specs.Expressions.{expression};
ghost use Rattle.spec_protocol_scope.specs.Processes.{main_process};
ghost use Rattle.spec_protocol_scope.specs.Spells.{Spells, Refusal, Refuses, HasAnswer};
ghost use Rattle.spec_protocol_scope.specs.Evaluated.{EachExpression, HasFullCalls, HasFewChoices};
ghost use Rattle.spec_protocol_scope.specs.Words.{HasWords};
ghost use Rattle.spec_protocol_scope.specs.Plain.{HasPlainWords};

/// No bytes spell two protocols.
pub fn one_protocol()
    ensures { (bytes : List ℕ) (p q : Protocol) → Spells bytes p → Spells bytes q → p ≡ q }
{}

/// No bytes are refused for two reasons, or at two places.
pub fn one_refusal()
    ensures { (bytes : List ℕ) (r s : Refusal) (i j : ℕ) → Refuses bytes r i → Refuses bytes s j →
        (r ≡ s) × (i ≡ j) }
{}

/// Bytes that spell a protocol are not refused.
pub fn never_both()
    ensures { (bytes : List ℕ) (p : Protocol) (r : Refusal) (i : ℕ) → Spells bytes p →
        Refuses bytes r i → ⊥ }
{}

/// Bytes spell a protocol or are refused.
pub fn always_one()
    ensures { (bytes : List ℕ) → HasAnswer bytes }
{}

/// A main process that keeps the rules of scope has no more points than the limit.
pub fn main_process_points()
    ensures { (s : Scope) (main : ProcessSketch) (p : Process) → main_process s main ≡ Ok p →
        length (nodes p) ≤ most_points }
{}

/// A protocol that bytes spell has no more points than the limit.
pub fn few_points()
    ensures { (bytes : List ℕ) (p : Protocol) → Spells bytes p →
        length (nodes p.main) ≤ most_points }
{}

/// The rules of a protocol that bytes spell hold variables alone, numbered from 1 by first occurrence, and those of one
/// destructor have one number of arguments.
pub fn proper_rules()
    ensures { (bytes : List ℕ) (p : Protocol) → Spells bytes p → HasProperRules p }
{}

/// No pattern of a protocol that bytes spell binds a variable twice.
pub fn linear_patterns()
    ensures { (bytes : List ℕ) (p : Protocol) → Spells bytes p → HasLinearPatterns p.main }
{}

/// A protocol that bytes spell without the words `phase`, `table`, `insert` and `get` waits for no phase, declares no table
/// and uses none, and asks of secrets in phase 0.
pub fn plain_protocols()
    ensures process { (bytes : List ℕ) (p : Protocol) → Spells bytes p → HasPlainWords bytes →
        IsPlain p.main }
    ensures queries { (bytes : List ℕ) (p : Protocol) → Spells bytes p → HasPlainWords bytes →
        AllByRecursion IsPlainQuery p.queries }
    ensures tables { (bytes : List ℕ) (p : Protocol) → Spells bytes p → HasPlainWords bytes →
        p.tables ≡ [] }
{}

/// Secrets that a protocol asks of hold declared free names and constructors alone, and its correspondences declared free
/// names, and variables that are numbered from 1 by first occurrence; where a restriction is asked for, there is one.
pub fn query_leaves()
    ensures { (bytes : List ℕ) (p : Protocol) → Spells bytes p → HasProperQueries p }
{}

/// A protocol that bytes spell is within the limits of names, arguments, rules, symbols, queries and points.
pub fn within_limits()
    ensures { (bytes : List ℕ) (p : Protocol) → Spells bytes p → IsWithinLimits p }
{}

/// In a protocol that bytes spell each leaf of a term is bound above it or declared, each symbol has its number of
/// arguments, each term has no more symbols than may be written, and nothing is bound twice on a way.
pub fn well_scoped()
    ensures { (bytes : List ℕ) (p : Protocol) → Spells bytes p → IsWellScoped p }
{}

/// What a `let` evaluates is a term exactly where it is read as a term of a process is.
pub fn terms_are_expressions()
    ensures { (s : Scope) (bound : List Bound) (t : TermSketch) (x : Term) →
        (process_term s bound t ≡ Ok x) ↔ (expression s bound t ≡ Ok (Leaf x)) }
{}

/// In what a `let` of a protocol that bytes spell evaluates, a part without destructors is a term.
pub fn merged_parts()
    ensures { (bytes : List ℕ) (p : Protocol) → Spells bytes p → EachExpression IsMerged p.main }
{}

/// There each destructor has a rule at least, and as many arguments as each of its rules has left sides.
pub fn full_calls()
    ensures arguments { (bytes : List ℕ) (p : Protocol) → Spells bytes p →
        EachExpression (HasFullCalls (rules_of p)) p.main }
    ensures rules { (bytes : List ℕ) (p : Protocol) → Spells bytes p →
        EachExpression (HasRules p) p.main }
{}

/// And the choices of a rule for each destructor are no more than the limit, each of no more rules than the limit of
/// applications.
pub fn few_choices()
    ensures { (bytes : List ℕ) (p : Protocol) → Spells bytes p →
        EachExpression (HasFewChoices p) p.main }
{}

/// The words of a protocol that bytes spell are identifiers, and no free name or constructor among them is `v` and digits.
pub fn words()
    ensures { (bytes : List ℕ) (p : Protocol) → Spells bytes p → HasWords p }
{}

/// In a protocol that bytes spell no two declared names have one word.
pub fn distinct_words()
    ensures { (bytes : List ℕ) (p : Protocol) → Spells bytes p → HasDistinctWords p }
{}
