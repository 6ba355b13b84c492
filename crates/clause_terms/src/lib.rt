//! Terms and patterns of a protocol as terms of a bank (Blanchet 2016, section 3.3.1, the translation of terms).
#![tactic(auto)]

ghost use Rattle.std.specs.Prelude.{◌≡◌, ◌+◌, ◌^◌, ℕ, ◌<◌, ◌≤◌, List, length, Some, option_map};
ghost use Rattle.std.specs.List.{AllByRecursion};
ghost use Rattle.spec_calculus.specs.Bounds.{most_written_symbols};
ghost use Rattle.spec_calculus.specs.Syntax as calculus;
ghost use Rattle.spec_calculus.specs.Syntax.{Name, Pattern, Rule, EventTerm, Protocol};
ghost use Rattle.spec_well_formed.specs.Signature.{Signature};
ghost use Rattle.spec_well_formed.specs.Terms.{IsTermOver, IsTermBelow, IsPatternBelow, IsEventOver};
ghost use Rattle.spec_well_formed.specs.Rules.{IsProperRule};
ghost use Rattle.spec_well_formed.specs.Queries.{IsDeclaredFree, IsFreeOrVariable};
ghost use Rattle.spec_well_formed.specs.WellFormed.{IsRuleOver};
ghost use Rattle.spec_well_formed.specs.Limits.{IsSmallRule};
ghost use Rattle.spec_terms.specs.Term.{Term};
ghost use Rattle.spec_translation.specs.Conversion.{rule_term as rule_term_of, found_in};
ghost use Rattle.spec_translation.specs.Goal.{query_term};
ghost use Rattle.term_tree.specs.Bank.{tree_at, Grows};
ghost use Rattle.term_tree.specs.declared.bank.Id.{Id};
ghost use Rattle.clause_terms.specs.Conditions.{HasShortTuples, IsShortPattern, IsShortRule, HasRoomForRule};
ghost use Rattle.clause_terms.specs.Scopes.{Held, id_in, scope_at, IsScopeIn};

mod bound;
mod in_scope;
pub mod patterns;
mod rules;
pub mod scopes;
mod sizes;
mod symbols;

pub use crate::bound::{pattern_scope, row_scope};
pub use crate::in_scope::{term_in, terms_in};
pub use crate::patterns::{Fresh, Holes, pattern_term, patterns_grown};
pub use crate::rules::{rule_term, rule_terms};
pub use crate::scopes::{Scope, Standing};
pub use crate::sizes::size_in;
pub use crate::symbols::constructor_symbol;

/// Terms, patterns, events and rules that keep the rules of scope have no tuple of more parts than the limit.
pub fn what_is_read_is_short()
    ensures term { (signature : Signature) (bound : List Name) (t : calculus.Term) → IsTermBelow
        signature bound t → HasShortTuples t }
    ensures terms { (signature : Signature) (bound : List Name) (ts : List calculus.Term) →
        AllByRecursion (IsTermBelow signature bound) ts → AllByRecursion HasShortTuples ts }
    ensures pattern { (signature : Signature) (bound : List Name) (p : Pattern) → IsPatternBelow
        signature bound p → IsShortPattern p }
    ensures secret { (signature : Signature) (t : calculus.Term) → IsTermOver signature
        (IsDeclaredFree signature) t → HasShortTuples t }
    ensures event { (signature : Signature) (e : EventTerm) → IsEventOver signature
        (IsFreeOrVariable signature) e → AllByRecursion HasShortTuples e.arguments }
    ensures rule { (signature : Signature) (rule : Rule) → IsRuleOver signature rule → IsShortRule
        rule }
{}

/// The variables of a proper rule within the limit of symbols are few, and find room behind a base.
pub fn rules_have_room()
    ensures { (base : ℕ) (rule : Rule) → IsProperRule rule → IsSmallRule rule →
        base + most_written_symbols ≤ 2 ^ 32 → HasRoomForRule base rule }
{}

/// A term of a query is made as one of a rule from base 0 is.
pub fn queries_are_made_as_rules()
    ensures { (P : Protocol) (t : calculus.Term) → query_term P t ≡ rule_term_of P 0 t }
{}

/// What is found in a scope over ids names what is found in the scope of terms that it stands for, and is known.
pub fn slots_are_found()
    ensures found { (all : List Term) (scope : List Held) (x : Name) → option_map (tree_at all)
        (id_in scope x) ≡ found_in (scope_at all scope) x }
    ensures known { (all : List Term) (scope : List Held) (x : Name) (id : Id) → IsScopeIn all scope
        → id_in scope x ≡ Some id → id.index < length all }
{}

/// A scope keeps its terms as the bank grows.
pub fn scopes_outlast_growth()
    ensures { (a b : List Term) (scope : List Held) → Grows a b → IsScopeIn a scope → IsScopeIn b
        scope × (scope_at b scope ≡ scope_at a scope) }
{}
