//! Banks of terms: what a bank is to its callers, and the plain bank.
#![tactic(auto)]

ghost use Rattle.std.specs.Prelude.{◌≡◌, ℕ, ◌≤◌, ◌<◌, List, length, take, map};
ghost use Rattle.spec_terms.specs.Term.{Term};
ghost use Rattle.term_tree.specs.Bank.{symbol_of, tree_at, AreKnown, Names, Grows};
ghost use Rattle.term_tree.specs.declared.bank.Id.{Id};
ghost use Rattle.term_tree.specs.declared.bank.Sym.{Sym};

pub mod bank;
pub mod tree_bank;

pub use bank::{Bank, Id, Mark, Node, SIZE_LIMIT, Sym};
pub use tree_bank::TreeBank;

/// Growth: a list grows to itself, growth in two steps is growth, and no list grows shorter.
pub fn growth_adds_up()
    ensures none { (all : List Term) → Grows all all }
    ensures twice { (a b c : List Term) → Grows a b → Grows b c → Grows a c }
    ensures longer { (a b : List Term) → Grows a b → length a ≤ length b }
{}

/// Symbols of the bank that stand for the same symbol of terms are the same.
pub fn symbols_are_told_apart()
    ensures { (f g : Sym) → symbol_of f ≡ symbol_of g → f ≡ g }
{}

/// An id keeps its tree as the bank grows, and below a mark when the bank is cut back to it. What grew
/// and is cut back is as before.
pub fn ids_keep_their_trees()
    ensures grown { (a b : List Term) (id : Id) → Grows a b → id.index < length a →
        tree_at b id ≡ tree_at a id }
    ensures all_grown { (a b : List Term) (ids : List Id) → Grows a b → AreKnown a ids →
        AreKnown b ids × (map (tree_at b) ids ≡ map (tree_at a) ids) }
    ensures named { (a b : List Term) (id : Id) (t : Term) → Grows a b → Names a id t →
        Names b id t }
    ensures cut { (all : List Term) (n : ℕ) (id : Id) → id.index < n →
        tree_at (take n all) id ≡ tree_at all id }
    ensures named_cut { (all : List Term) (n : ℕ) (id : Id) (t : Term) → id.index < n →
        Names all id t → Names (take n all) id t }
    ensures undone { (a b : List Term) → Grows a b → take (length a) b ≡ a }
{}
