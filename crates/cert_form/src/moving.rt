//! The sides of constraints over owned trees, whose bound variables get other numbers.

ghost use Rattle.std.specs.Prelude.{◌≡◌, map, IfOk};
ghost use Rattle.spec_trees.specs.Tree.{bind};
ghost use Rattle.spec_clauses.specs.Shown.{slot_shown};
ghost use Rattle.spec_certificate_text.specs.Sides.{slot_number, side_in_terms};
ghost use Rattle.cert_form.specs.Moving.{moved};
ghost use Rattle.clause_diffs.specs.Plain.{term_of};

use clause_diffs::{PlainDiff, Tree, Trees};
use std::alloc::{AllocError, Global};

/// From which number on variables are bound, and the number that the first of them gets.
#[derive(Clone, Copy)]
struct Move {
    first: u32,
    next: u32,
}

/// The number of a variable. `Err` comes where it would be past 32 bits.
fn moved_number(to: Move, number: u32) -> Result<u32, AllocError>
    ensures { IfOk result (λ made. made ≡ slot_number to.next (slot_shown to.first number)) }
{
    if number < to.first {
        return Ok(number);
    }
    match to.next.checked_add(number - to.first) {
        Some(made) => Ok(made),
        None => Err(AllocError),
    }
}

/// The tree with its variables moved.
#[cycle(moved)]
fn moved_tree(alloc: Global, to: Move, tree: &Tree) -> Result<Tree, AllocError>
    ensures { IfOk result (λ made. term_of made ≡
        bind (moved to.first to.next) (term_of tree.now)) }
{
    match tree {
        Tree::Var(number) => {
            let made = moved_number(to, *number)?;
            Ok(Tree::Var(made))
        }
        Tree::App(symbol, arguments) => {
            let made = moved_trees(alloc, to, arguments)?;
            Ok(Tree::App(*symbol, made))
        }
    }
}

/// The trees with their variables moved.
#[cycle(moved)]
fn moved_trees(alloc: Global, to: Move, trees: &Trees) -> Result<Trees, AllocError>
    ensures { IfOk result (λ made. made ≡ map (bind (moved to.first to.next)) trees.now) }
{
    let mut items = Vec::with_capacity(alloc, trees.items.len())?;
    'each: for tree in &trees.items {
        let made = moved_tree(alloc, to, tree)?;
        items.push(made)?;
    }
    Ok(Trees { items })
}

/// The left sides and the right sides of a constraint, as terms.
#[derive(Drop)]
pub struct SpelledSides {
    pub left: Trees,
    pub right: Trees,
}

/// The sides of a constraint, its bound variables having the numbers from this one on.
///
/// `Err` comes for want of memory, and where a number would be past 32 bits.
pub fn bound_from(alloc: Global, diff: &PlainDiff, next: u32) -> Result<SpelledSides, AllocError>
    ensures left { IfOk result (λ made. made.left ≡ map (side_in_terms next) diff.now.left) }
    ensures right { IfOk result (λ made. made.right ≡ map (side_in_terms next) diff.now.right) }
{
    let to = Move {
        first: diff.first,
        next,
    };
    let left = moved_trees(alloc, to, &diff.left)?;
    let right = moved_trees(alloc, to, &diff.right)?;
    Ok(SpelledSides { left, right })
}
