//! The ring, a family of protocols that measurements use: for each number of keys a text, and the protocol that it spells.
//!
//! The definitions stand in `specs/`. The laws about them that a reader would ask for are the contracts of the
//! functions below, which do nothing.
#![tactic(auto)]

ghost use Rattle.std.specs.Prelude.{◌≡◌, ◌≤◌, ◌+◌, ◌*◌, ℕ, List, [], ◌∷◌, length};
ghost use Rattle.spec_trees.specs.Tree.{Leaf};
ghost use Rattle.spec_calculus.specs.Bounds.{most_keys, most_visits};
ghost use Rattle.spec_calculus.specs.Syntax.{Free, Secret};
ghost use Rattle.spec_calculus.specs.Points.{nodes};
ghost use Rattle.spec_protocol_scope.specs.Spells.{Spells};
ghost use Rattle.spec_terms.specs.Term.{Term};
ghost use Rattle.spec_clauses.specs.Fact.{Clause};
ghost use Rattle.spec_translation.specs.Translation.{Clauses, IsTranslation};
ghost use Rattle.spec_ring_text.specs.Text.{ring_text};
ghost use Rattle.spec_ring_text.specs.Meaning.{ring_protocol};
ghost use Rattle.spec_ring_text.specs.Size.{digit_count};
ghost use Rattle.spec_ring_text.specs.Example.{two_keys};

/// The text of each ring of 2 keys or more, up to the limit, spells its protocol, and so is never refused.
pub fn rings_are_protocols()
    ensures { (n : ℕ) → 2 ≤ n → n ≤ most_keys → Spells (ring_text n) (ring_protocol n) }
{}

/// The ring of two keys, to the letter.
pub fn ring_of_two()
    ensures { ring_text 2 ≡ two_keys }
{}

/// The text of a ring has 107 bytes, 64 for each key, and each digit of the keys' numbers three times.
pub fn ring_sizes()
    ensures { (n : ℕ) → 1 ≤ n → length (ring_text n) ≡ 107 + 64 * n + 3 * digit_count 1 n }
{}

/// A ring asks whether the attacker knows `s`, the second free name, and its process has two points and seven for each key.
pub fn ring_shapes()
    ensures asked { (n : ℕ) → (ring_protocol n).queries ≡ Secret (Leaf (Free 2)) 0 ∷ [] }
    ensures points { (n : ℕ) → 1 ≤ n → length (nodes (ring_protocol n).main) ≡ 7 * n + 2 }
{}

/// A ring of two keys or more, which has no more points than may be visited, is translated into eight clauses and one for
/// each key.
pub fn ring_translations()
    ensures { (n : ℕ) → 2 ≤ n → 7 * n + 2 ≤ most_visits → (all : List (Clause Term))
        × IsTranslation (ring_protocol n) (Secret (Leaf (Free 2)) 0) (Clauses all)
        × (length all ≡ n + 8) }
{}
