//! Finite trees over leaves and symbols (first-order terms, as in Robinson 1965), and the laws of
//! substitution on them. The definitions stand in `specs/`; the functions here have empty bodies, and
//! say in their contracts what holds of the definitions.
#![tactic(auto)]

ghost use Rattle.std.specs.Prelude.{◌≡◌, ℕ, ◌*◌, ◌≤◌, ◌<◌, ◌↔◌, List, Bool, IsTrue, IsFalse, map};
ghost use Rattle.spec_trees.specs.Tree.{Tree, Trees, Leaf, Node, bind, after, size, depth, node, trees, items_of, some_leaf};
ghost use Rattle.spec_trees.specs.Same.{same_tree};

/// Substitution: that of each leaf by itself changes nothing, and two in a row are their composition.
pub fn substitutions_compose<L, M, N, S>()
    ensures identity { (x : Tree L S) → bind Leaf x ≡ x }
    ensures composition { (s : M → Tree N S) (t : L → Tree M S) (x : Tree L S) →
        bind s (bind t x) ≡ bind (after s t) x }
{}

/// Only what a substitution has for the leaves of the tree counts: where two differ only at leaves that
/// `p` passes, and none of these stands in the tree, they give the same.
pub fn substitution_reads_its_leaves<L, M, S>()
    ensures { (p : L → Bool) (s t : L → Tree M S) → ((x : L) → IsFalse (p x) → s x ≡ t x) →
        (x : Tree L S) → IsFalse (some_leaf p x) → bind s x ≡ bind t x }
{}

/// Sizes: a tree is no deeper than large, and substitution makes no tree smaller, and none more than
/// `n` times as large where nothing that it puts in is over `n`.
pub fn sizes_are_bounded<L, M, S>()
    ensures depth { (t : Tree L S) → depth t ≤ size t }
    ensures grows { (s : L → Tree M S) (t : Tree L S) → size t ≤ size (bind s t) }
    ensures at_most { (s : L → Tree M S) (n : ℕ) → 1 ≤ n → ((x : L) → size (s x) ≤ n) →
        (t : Tree L S) → size (bind s t) ≤ size t * n }
{}

/// Occurrence: a leaf of the result stands in what the substitution has for a leaf of the tree, and
/// below a symbol that is smaller than the result. So no tree stands in itself.
pub fn occurrences_follow_substitution<L, M, S>()
    ensures through { (p : M → Bool) (s : L → Tree M S) (t : Tree L S) →
        some_leaf p (bind s t) ≡ some_leaf (λ x. some_leaf p (s x)) t }
    ensures smaller { (p : L → Bool) (s : L → Tree M S) (f : S) (ts : Trees L S) →
        IsTrue (some_leaf p (Node f ts)) → (x : L) × IsTrue (p x) ×
        (size (s x) < size (bind s (Node f ts))) }
{}

/// Rows of trees are lists of trees, and substitution goes through each item.
pub fn rows_are_lists<L, M, S>()
    ensures list { (ts : List (Tree L S)) → items_of (trees ts) ≡ ts }
    ensures row { (ts : Trees L S) → trees (items_of ts) ≡ ts }
    ensures bind { (s : L → Tree M S) (f : S) (ts : List (Tree L S)) →
        bind s (node f ts) ≡ node f (map (bind s) ts) }
{}

/// Equality of trees is decided where that of leaves and that of symbols is.
pub fn equality_is_decided<L, S>()
    ensures { (p : L → L → Bool) (q : S → S → Bool) → ((x y : L) → IsTrue (p x y) ↔ (x ≡ y)) →
        ((f g : S) → IsTrue (q f g) ↔ (f ≡ g)) → (x y : Tree L S) →
        IsTrue (same_tree p q x y) ↔ (x ≡ y) }
{}
