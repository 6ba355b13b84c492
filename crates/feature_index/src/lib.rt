//! An index of the entries of a log by the features of their clauses: which of them may subsume a clause is told by eight
//! numbers each, without a look at the clauses (Schulz 2013, Simple and Efficient Clause Subsumption with Feature Vector
//! Indexing).
#![tactic(auto)]

ghost use Rattle.std.specs.Prelude.{◌≡◌, ◌↔◌, ◌⊎◌, ℕ, true, List};
ghost use Rattle.spec_clauses.specs.Inclusion.{Has};
ghost use Rattle.feature_index.specs.Listed.{Listed, entries_of, is_listed, with_entry, without_entry, candidates_of, IsCandidate};

mod clause_features;
mod counts;
pub mod index;
pub mod lanes;

pub use crate::clause_features::features;
pub use crate::index::Index;
pub use crate::lanes::{Features, may_cover};
pub use spec_features::subsuming_clauses_have_no_greater_features;

/// What an index holds: with one entry more, that one and what it held; without an entry, what it held of others. The
/// candidates are the entries that it holds with features of which none is greater.
pub fn indexes_hold_entries()
    ensures listed { (e : ℕ) (ls : List Listed) → (is_listed e ls ≡ true) ↔ Has (entries_of ls) e }
    ensures put { (new l : Listed) (ls : List Listed) →
        Has (with_entry new ls) l ↔ ((l ≡ new) ⊎ Has ls l) }
    ensures taken { (e : ℕ) (l : Listed) (ls : List Listed) →
        Has (without_entry e ls) l ↔ (Has ls l × (l.entry ≡ e → ⊥)) }
    ensures candidates { (features : List ℕ) (e : ℕ) (ls : List Listed) →
        Has (candidates_of features ls) e ↔ IsCandidate features ls e }
{}
