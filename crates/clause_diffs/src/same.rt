//! Whether constraints are the same.

ghost use Rattle.std.specs.Prelude.{◌≡◌, ◌<◌, length};
ghost use Rattle.std.specs.List.{list_any};
ghost use Rattle.spec_terms.specs.Term.{same_symbol};
ghost use Rattle.spec_trees.specs.Same.{same_tree};
ghost use Rattle.spec_clauses.specs.Diff.{same_slot, same_sides, same_diff as is_same_diff};
ghost use Rattle.spec_clauses.specs.Shown.{slot_shown};
ghost use Rattle.term_tree.specs.Bank.{tree_at, AreKnown};
ghost use Rattle.clause_diffs.specs.Diffs.{side_shown, sides_at, diff_at, diffs_at, IsDiffIn, AreDiffsIn};

use crate::diffs::Diff;
use term_tree::{Bank, Id, Node};

/// Whether two variables are the same: both the clause's with one number, or both bound in one place.
fn is_same_slot(first: u32, left: u32, other: u32, right: u32) -> bool
    ensures { result ≡ same_slot (slot_shown first left) (slot_shown other right) }
{
    if left < first {
        return right < other && left == right;
    }
    right >= other && left - first == right - other
}

/// Whether two terms are the same side, the variables from `first` on bound in one, and those from `other` on in the other. Takes no
/// memory.
pub fn is_same_side<B: Bank>(bank: &B, first: u32, left: Id, other: u32, right: Id) -> bool
    requires left { left.index < length (B.trees bank.now) }
    requires right { right.index < length (B.trees bank.now) }
    ensures { result ≡ same_tree same_slot same_symbol
        (side_shown first (tree_at (B.trees bank.now) left))
        (side_shown other (tree_at (B.trees bank.now) right)) }
{
    match (bank.node(left), bank.node(right)) {
        (Node::Var(x), Node::Var(y)) => is_same_slot(first, x, other, y),
        (Node::App(f, xs), Node::App(g, ys)) => {
            if !f.is_same(g) {
                return false;
            }
            if xs.len() != ys.len() {
                return false;
            }
            'each: for (i, x) in xs.iter().enumerate() {
                if !is_same_side(bank, first, *x, other, ys[i]) {
                    return false;
                }
            }
            true
        }
        _ => false,
    }
}

/// The same of two lists of terms.
fn are_same_sides<B: Bank>(bank: &B, first: u32, lefts: &[Id], other: u32, rights: &[Id]) -> bool
    requires lefts { AreKnown (B.trees bank.now) lefts.now }
    requires rights { AreKnown (B.trees bank.now) rights.now }
    ensures { result ≡ same_sides (sides_at (B.trees bank.now) first lefts.now)
        (sides_at (B.trees bank.now) other rights.now) }
{
    if lefts.len() != rights.len() {
        return false;
    }
    'each: for (i, left) in lefts.iter().enumerate() {
        if !is_same_side(bank, first, *left, other, rights[i]) {
            return false;
        }
    }
    true
}

/// Whether two constraints are the same, whatever the numbers from which on their variables are bound. Takes no memory.
pub fn same_diff<B: Bank>(bank: &B, left: &Diff, right: &Diff) -> bool
    requires left { IsDiffIn (B.trees bank.now) left.now }
    requires right { IsDiffIn (B.trees bank.now) right.now }
    ensures { result ≡ is_same_diff (diff_at (B.trees bank.now) left.now)
        (diff_at (B.trees bank.now) right.now) }
{
    are_same_sides(
        bank,
        left.first,
        &left.left.items,
        right.first,
        &right.left.items,
    ) && are_same_sides(
        bank,
        left.first,
        &left.right.items,
        right.first,
        &right.right.items,
    )
}

/// Whether a constraint is among constraints. Takes no memory.
pub fn is_among_diffs<B: Bank>(bank: &B, diffs: &[Diff], diff: &Diff) -> bool
    requires diffs { AreDiffsIn (B.trees bank.now) diffs.now }
    requires diff { IsDiffIn (B.trees bank.now) diff.now }
    ensures { result ≡ list_any (is_same_diff (diff_at (B.trees bank.now) diff.now))
        (diffs_at (B.trees bank.now) diffs.now) }
{
    for one in diffs {
        if same_diff(bank, diff, one) {
            return true;
        }
    }
    false
}
