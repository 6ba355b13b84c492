//! A quick look at two facts that often tells that nothing unifies them. Takes no memory.

ghost use Rattle.std.specs.Prelude.{◌≡◌, ◌<◌, true, length, map};
ghost use Rattle.spec_trees.specs.Tree.{bind};
ghost use Rattle.spec_terms.specs.Term.{Subst};
ghost use Rattle.term_tree.specs.Bank.{tree_at, AreKnown};
ghost use Rattle.clause_form.specs.Facts.{fact_of};
ghost use Rattle.clause_form.specs.Seen.{fact_at, IsFactIn};
ghost use Rattle.clause_resolve.specs.Meeting.{NeverMeet};

use clause_form::Fact;
use term_tree::{Bank, Id, Node};

/// Whether two terms are applications of different symbols, or to different numbers of arguments.
fn roots_differ<B: Bank>(bank: &B, left: Id, right: Id) -> bool
    requires left { left.index < length (B.trees bank.now) }
    requires right { right.index < length (B.trees bank.now) }
    ensures { result ≡ true → (s t : Subst) →
        bind s (tree_at (B.trees bank.now) left) ≡ bind t (tree_at (B.trees bank.now) right) → ⊥ }
{
    match bank.node(left) {
        Node::Var(_) => false,
        Node::App(f, xs) => match bank.node(right) {
            Node::Var(_) => false,
            Node::App(g, ys) => {
                if xs.len() != ys.len() {
                    return true;
                }
                !f.is_same(g)
            }
        },
    }
}

/// Whether two lists have different lengths, or terms of different roots at the same place.
fn some_roots_differ<B: Bank>(bank: &B, lefts: &[Id], rights: &[Id]) -> bool
    requires lefts { AreKnown (B.trees bank.now) lefts.now }
    requires rights { AreKnown (B.trees bank.now) rights.now }
    ensures { result ≡ true → (s t : Subst) →
        map (bind s) (map (tree_at (B.trees bank.now)) lefts.now) ≡
        map (bind t) (map (tree_at (B.trees bank.now)) rights.now) → ⊥ }
{
    if lefts.len() != rights.len() {
        return true;
    }
    'each: for (i, left) in lefts.iter().enumerate() {
        if roots_differ(bank, *left, rights[i]) {
            return true;
        }
    }
    false
}

/// Whether the predicates, the events, the numbers of terms or the roots of terms of two facts differ: then
/// nothing unifies them, whatever their variables are called. Takes no memory.
pub(crate) fn clash<B: Bank>(bank: &B, left: &Fact, right: &Fact) -> bool
    requires left { IsFactIn (B.trees bank.now) (fact_of left.now) }
    requires right { IsFactIn (B.trees bank.now) (fact_of right.now) }
    ensures { result ≡ true → NeverMeet (fact_at (B.trees bank.now) (fact_of left.now))
        (fact_at (B.trees bank.now) (fact_of right.now)) }
{
    if left.head() != right.head() {
        return true;
    }
    let (lefts, rights) = (left.terms(), right.terms());
    some_roots_differ(bank, lefts.as_slice(), rights.as_slice())
}
