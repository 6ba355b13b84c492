//! What the laws of runs, translations and queries say of every protocol that the bytes of a file spell. What they ask of
//! a protocol holds of each that is spelled. The functions here have empty bodies.
#![tactic(auto)]

ghost use Rattle.std.specs.Prelude.{◌≡◌, ◌↔◌, ℕ, List, map, Some, IsNone, IsSome, Contains};
ghost use Rattle.spec_calculus.specs.Syntax.{Pattern, Rule, Query, Protocol};
ghost use Rattle.spec_calculus.specs.Values.{Value, Environment};
ghost use Rattle.spec_calculus.specs.Points.{numbered};
ghost use Rattle.spec_calculus.specs.Matching.{matched, filled, instance_of, rule_value, rules_of};
ghost use Rattle.spec_calculus.specs.Runs.{Configuration, Step, after_step};
ghost use Rattle.spec_calculus.specs.Refusals.{refusal, IsUniform};
ghost use Rattle.spec_calculus.specs.Secrecy.{Holds};
ghost use Rattle.spec_protocol_scope.specs.Spells.{Spells};
ghost use Rattle.spec_protocol_scope.specs.Plain.{HasPlainWords};
ghost use Rattle.spec_terms.specs.Term.{Term};
ghost use Rattle.spec_clauses.specs.Fact.{Clause};
ghost use Rattle.spec_clauses.specs.Limits.{IsWithinLimit};
ghost use Rattle.spec_clauses.specs.Inclusion.{Has};
ghost use Rattle.spec_translation.specs.Translation.{Clauses, IsTranslation};
ghost use Rattle.spec_translation.specs.Plain.{IsPlainClause};
ghost use Rattle.spec_certificates.specs.Shown.{IsProper, IsShown};
ghost use Rattle.spec_read_protocols.specs.Patterns.{IsPatternAt};

use spec_protocol_scope::{
    linear_patterns, plain_protocols, proper_rules, query_leaves, within_limits,
};
use spec_soundness::queries_hold;
use spec_translation::{plain_protocols_have_plain_clauses, translations_are_within_the_limit};

/// The steps of a protocol that was read: one is refused exactly where it is not possible; a rule of a destructor gives
/// a value of each instance of its left side; and a value matches a pattern of the process exactly where it is that
/// pattern with its holes filled, in one way.
pub fn steps_of_read_protocols()
    ensures uniform { (bytes : List ℕ) (P : Protocol) → Spells bytes P → IsUniform P }
    ensures refusals { (bytes : List ℕ) (P : Protocol) (c : Configuration) (step : Step) →
        Spells bytes P → IsNone (refusal P c step) ↔ IsSome (after_step P c step) }
    ensures rules { (bytes : List ℕ) (P : Protocol) (d r : ℕ) (rule : Rule) (s : Environment) →
        Spells bytes P → numbered (rules_of P d) r ≡ Some rule →
        rule_value rule (map (instance_of s) rule.left) ≡ Some (instance_of s rule.right) }
    ensures patterns { (bytes : List ℕ) (P : Protocol) (point : ℕ) (pattern : Pattern)
        (environment bindings : Environment) (v : Value) → Spells bytes P →
        IsPatternAt P point pattern → matched environment pattern v ≡ Some bindings →
        v ≡ filled environment bindings pattern }
{
    proper_rules();
    linear_patterns();
}

/// The translation of a protocol that was read, and a query of it: each clause is within the limit of size.
pub fn translations_of_read_protocols()
    ensures { (bytes : List ℕ) (P : Protocol) (q : Query) (all : List (Clause Term))
        (c : Clause Term) →
        Spells bytes P → Contains P.queries q → IsTranslation P q (Clauses all) → Has all c →
        IsWithinLimit c }
{
    within_limits();
    translations_are_within_the_limit();
}

/// Without the words `phase`, `table`, `insert` and `get` no phase but 0 and no table is spelled, and so each fact of each
/// clause of the translation is of phase 0 or of none, and none is of a table.
pub fn clauses_of_read_protocols()
    ensures { (bytes : List ℕ) (P : Protocol) (q : Query) (all : List (Clause Term))
        (c : Clause Term) →
        Spells bytes P → HasPlainWords bytes → Contains P.queries q →
        IsTranslation P q (Clauses all) → Has all c → IsPlainClause c }
{
    plain_protocols();
    plain_protocols_have_plain_clauses();
}

/// The queries of a protocol that was read: what is shown of one by a closed list of clauses is so in all runs.
pub fn queries_of_read_protocols()
    ensures proper { (bytes : List ℕ) (P : Protocol) (q : Query) →
        Spells bytes P → Contains P.queries q → IsProper P q }
    ensures hold { (bytes : List ℕ) (P : Protocol) (q : Query) (all clauses : List (Clause Term)) →
        Spells bytes P → Contains P.queries q → IsShown P q all clauses → Holds P q }
{
    proper_rules();
    linear_patterns();
    query_leaves();
    queries_hold();
}
