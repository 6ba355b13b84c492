//! Whether constraints are the same under a match. Takes no memory.

ghost use Rattle.std.specs.Prelude.{◌≡◌, ◌<◌, length};
ghost use Rattle.std.specs.List.{list_any};
ghost use Rattle.spec_trees.specs.Tree.{Leaf};
ghost use Rattle.spec_trees.specs.Same.{same_tree};
ghost use Rattle.spec_terms.specs.Term.{same_symbol};
ghost use Rattle.spec_clauses.specs.Diff.{Own, own, same_slot, same_sides, same_diff as is_same_diff};
ghost use Rattle.spec_clauses.specs.Shown.{slot_shown};
ghost use Rattle.term_tree.specs.Bank.{tree_at, AreKnown};
ghost use Rattle.unify_match.specs.Seen.{AreInBank};
ghost use Rattle.clause_diffs.specs.Diffs.{side_shown, sides_at, diff_at, diffs_at, IsDiffIn, AreDiffsIn};
ghost use Rattle.fact_placing.specs.Matched.{side_matched, sides_matched, diff_matched};

use crate::matched::{Matched, value_of};
use clause_diffs::{Diff, is_same_side};
use term_tree::{Bank, Id, Node};

/// Whether a variable of the special clause is one in a constraint whose variables from a number on are bound.
fn is_own_slot(left: u32, other: u32, right: u32) -> bool
    ensures { result ≡ same_slot (Own left) (slot_shown other right) }
{
    right < other && left == right
}

/// Whether a term of the special clause is a side of one of its constraints, the variables from `other` on bound in that.
fn is_own_side<B: Bank>(bank: &B, left: Id, other: u32, right: Id) -> bool
    requires left { left.index < length (B.trees bank.now) }
    requires right { right.index < length (B.trees bank.now) }
    ensures { result ≡ same_tree same_slot same_symbol (own (tree_at (B.trees bank.now) left))
        (side_shown other (tree_at (B.trees bank.now) right)) }
{
    match (bank.node(left), bank.node(right)) {
        (Node::Var(x), Node::Var(y)) => is_own_slot(x, other, y),
        (Node::App(f, xs), Node::App(g, ys)) => {
            if !f.is_same(g) {
                return false;
            }
            if xs.len() != ys.len() {
                return false;
            }
            'each: for (i, x) in xs.iter().enumerate() {
                if !is_own_side(bank, *x, other, ys[i]) {
                    return false;
                }
            }
            true
        }
        _ => false,
    }
}

/// Whether a variable, by its number and its term, is under the match a side of a constraint of the special clause.
fn is_variable_under<B: Bank>(
    from: &Matched<'_, B>,
    number: u32,
    left: Id,
    other: u32,
    right: Id,
) -> bool
    requires left { left.index < length (B.trees from.now.bank.now) }
    requires right { right.index < length (B.trees from.now.bank.now) }
    requires bindings { AreInBank (B.trees from.now.bank.now) from.now.binds.now.pairs }
    requires variable { tree_at (B.trees from.now.bank.now) left ≡ Leaf number }
    ensures { let all = B.trees from.now.bank.now in result ≡ same_tree same_slot same_symbol
        (side_matched all from.now.binds.now.pairs from.now.first (tree_at all left))
        (side_shown other (tree_at all right)) }
{
    match value_of(from, number) {
        Some(value) => is_own_side(from.bank, value, other, right),
        None => is_same_side(from.bank, from.first, left, other, right),
    }
}

/// Whether a term is under the match a side of a constraint of the special clause.
fn is_side_under<B: Bank>(from: &Matched<'_, B>, left: Id, other: u32, right: Id) -> bool
    requires left { left.index < length (B.trees from.now.bank.now) }
    requires right { right.index < length (B.trees from.now.bank.now) }
    requires bindings { AreInBank (B.trees from.now.bank.now) from.now.binds.now.pairs }
    ensures { let all = B.trees from.now.bank.now in result ≡ same_tree same_slot same_symbol
        (side_matched all from.now.binds.now.pairs from.now.first (tree_at all left))
        (side_shown other (tree_at all right)) }
{
    match (from.bank.node(left), from.bank.node(right)) {
        (Node::Var(number), _) => is_variable_under(from, number, left, other, right),
        (Node::App(f, xs), Node::App(g, ys)) => {
            if !f.is_same(g) {
                return false;
            }
            if xs.len() != ys.len() {
                return false;
            }
            'each: for (i, x) in xs.iter().enumerate() {
                if !is_side_under(from, *x, other, ys[i]) {
                    return false;
                }
            }
            true
        }
        _ => false,
    }
}

/// The same of two lists of terms.
fn are_sides_under<B: Bank>(from: &Matched<'_, B>, lefts: &[Id], other: u32, rights: &[Id]) -> bool
    requires lefts { AreKnown (B.trees from.now.bank.now) lefts.now }
    requires rights { AreKnown (B.trees from.now.bank.now) rights.now }
    requires bindings { AreInBank (B.trees from.now.bank.now) from.now.binds.now.pairs }
    ensures { let all = B.trees from.now.bank.now in result ≡ same_sides
        (sides_matched all from.now.binds.now.pairs from.now.first lefts.now)
        (sides_at all other rights.now) }
{
    if lefts.len() != rights.len() {
        return false;
    }
    'each: for (i, left) in lefts.iter().enumerate() {
        if !is_side_under(from, *left, other, rights[i]) {
            return false;
        }
    }
    true
}

/// Whether a constraint is under the match another one, of the special clause.
fn is_diff_under<B: Bank>(from: &Matched<'_, B>, diff: &Diff, one: &Diff) -> bool
    requires diff { IsDiffIn (B.trees from.now.bank.now) diff.now }
    requires one { IsDiffIn (B.trees from.now.bank.now) one.now }
    requires bindings { AreInBank (B.trees from.now.bank.now) from.now.binds.now.pairs }
    ensures { let all = B.trees from.now.bank.now in result ≡ is_same_diff
        (diff_matched all from.now.binds.now.pairs from.now.first diff.now)
        (diff_at all one.now) }
{
    are_sides_under(from, &diff.left.items, one.first, &one.left.items)
        && are_sides_under(from, &diff.right.items, one.first, &one.right.items)
}

/// Whether a constraint is under the match among those of the special clause.
pub(crate) fn is_among_under<B: Bank>(from: &Matched<'_, B>, diff: &Diff, kept_in: &[Diff]) -> bool
    requires diff { IsDiffIn (B.trees from.now.bank.now) diff.now }
    requires kept_in { AreDiffsIn (B.trees from.now.bank.now) kept_in.now }
    requires bindings { AreInBank (B.trees from.now.bank.now) from.now.binds.now.pairs }
    ensures { let all = B.trees from.now.bank.now in result ≡ list_any
        (is_same_diff (diff_matched all from.now.binds.now.pairs from.now.first diff.now))
        (diffs_at all kept_in.now) }
{
    for one in kept_in {
        if is_diff_under(from, diff, one) {
            return true;
        }
    }
    false
}
