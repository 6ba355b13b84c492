//! Constraints copied under a match into another bank: there the variables of the special clause and those that a constraint binds
//! are told apart.

ghost use Rattle.std.specs.Prelude.{◌≡◌, ◌+◌, ◌<◌, length, IfOk, IfSome};
ghost use Rattle.spec_trees.specs.Tree.{Leaf};
ghost use Rattle.spec_clauses.specs.Diff.{Own, Bound, own};
ghost use Rattle.spec_clauses.specs.DiffDecision.{can_be_equal as can_be_equal_sides};
ghost use Rattle.spec_clauses.specs.Shown.{slot_shown};
ghost use Rattle.term_tree.specs.Bank.{tree_at, AreKnown, Grows};
ghost use Rattle.unify_match.specs.Seen.{AreInBank};
ghost use Rattle.clause_diffs.specs.Diffs.{IsDiffIn};
ghost use Rattle.fact_placing.specs.Matched.{slot_matched, side_matched, sides_matched, diff_matched, NamesSide, NameSides};

use crate::matched::{Matched, value_of};
use clause_diffs::{Diff, Ids, can_be_equal};
use std::alloc::AllocError;
use term_tree::{Bank, Id, Node, TreeBank};

/// A variable of the special clause, which has to be below the bound ones; `Err` where it isn't.
fn own_variable<T: Bank>(into: &mut T, next: u32, number: u32) -> Result<Id, AllocError>
    ensures grows { Grows (T.trees into.old) (T.trees into.new) }
    ensures names { IfOk result (λ made.
        NamesSide (T.trees into.new) next made (Leaf (Own number))) }
{
    if number >= next {
        return Err(AllocError);
    }
    into.var(number)
}

/// The number of a bound variable, by its place; none where it is past 32 bits.
fn bound_number(next: u32, place: u32) -> Option<u32>
    ensures { IfSome result (λ number. number ≡ place + next) }
{
    place.checked_add(next)
}

/// A variable that the constraint binds, by its place; `Err` where its number is past 32 bits.
fn bound_variable<T: Bank>(into: &mut T, next: u32, place: u32) -> Result<Id, AllocError>
    ensures grows { Grows (T.trees into.old) (T.trees into.new) }
    ensures names { IfOk result (λ made.
        NamesSide (T.trees into.new) next made (Leaf (Bound place))) }
{
    match bound_number(next, place) {
        Some(number) => into.var(number),
        None => Err(AllocError),
    }
}

/// A variable of the constraint that stands for itself.
fn same_variable<B, T: Bank>(
    from: &Matched<'_, B>,
    into: &mut T,
    number: u32,
) -> Result<Id, AllocError>
    ensures grows { Grows (T.trees into.old) (T.trees into.new) }
    ensures names { IfOk result (λ made. NamesSide (T.trees into.new) from.now.next made
        (Leaf (slot_shown from.now.first number))) }
{
    if number < from.first {
        return own_variable(into, from.next, number);
    }
    bound_variable(into, from.next, number - from.first)
}

/// A term of the special clause. On `Err` the bank may have grown.
fn copied_own<B: Bank, T: Bank>(
    from: &Matched<'_, B>,
    into: &mut T,
    id: Id,
) -> Result<Id, AllocError>
    requires { id.index < length (B.trees from.now.bank.now) }
    ensures grows { Grows (T.trees into.old) (T.trees into.new) }
    ensures names { IfOk result (λ made. NamesSide (T.trees into.new) from.now.next made
        (own (tree_at (B.trees from.now.bank.now) id))) }
{
    match from.bank.node(id) {
        Node::Var(number) => own_variable(into, from.next, number),
        Node::App(symbol, arguments) => {
            let mut made = Vec::with_capacity(from.alloc, arguments.len())?;
            'each: for argument in arguments {
                let next = copied_own(from, into, *argument)?;
                made.push(next)?;
            }
            into.app(symbol, &made)
        }
    }
}

/// What a variable of the constraint stands for under the match.
fn copied_variable<B: Bank, T: Bank>(
    from: &Matched<'_, B>,
    into: &mut T,
    number: u32,
) -> Result<Id, AllocError>
    requires { AreInBank (B.trees from.now.bank.now) from.now.binds.now.pairs }
    ensures grows { Grows (T.trees into.old) (T.trees into.new) }
    ensures names { IfOk result (λ made. NamesSide (T.trees into.new) from.now.next made
        (slot_matched (B.trees from.now.bank.now) from.now.binds.now.pairs from.now.first
        number)) }
{
    match value_of(from, number) {
        Some(value) => copied_own(from, into, value),
        None => same_variable(from, into, number),
    }
}

/// A term of the constraint under the match. On `Err` the bank may have grown.
fn copied_under<B: Bank, T: Bank>(
    from: &Matched<'_, B>,
    into: &mut T,
    id: Id,
) -> Result<Id, AllocError>
    requires id { id.index < length (B.trees from.now.bank.now) }
    requires bindings { AreInBank (B.trees from.now.bank.now) from.now.binds.now.pairs }
    ensures grows { Grows (T.trees into.old) (T.trees into.new) }
    ensures names { let all = B.trees from.now.bank.now in IfOk result
        (λ made. NamesSide (T.trees into.new) from.now.next made
        (side_matched all from.now.binds.now.pairs from.now.first (tree_at all id))) }
{
    match from.bank.node(id) {
        Node::Var(number) => copied_variable(from, into, number),
        Node::App(symbol, arguments) => {
            let mut made = Vec::with_capacity(from.alloc, arguments.len())?;
            'each: for argument in arguments {
                let next = copied_under(from, into, *argument)?;
                made.push(next)?;
            }
            into.app(symbol, &made)
        }
    }
}

/// Terms of the constraint under the match. On `Err` the bank may have grown.
fn copied_terms<B: Bank, T: Bank>(
    from: &Matched<'_, B>,
    into: &mut T,
    terms: &[Id],
) -> Result<Ids, AllocError>
    requires terms { AreKnown (B.trees from.now.bank.now) terms.now }
    requires bindings { AreInBank (B.trees from.now.bank.now) from.now.binds.now.pairs }
    ensures grows { Grows (T.trees into.old) (T.trees into.new) }
    ensures names { IfOk result (λ made. NameSides (T.trees into.new) from.now.next made
        (sides_matched (B.trees from.now.bank.now) from.now.binds.now.pairs from.now.first
        terms.now)) }
{
    let mut items = Vec::with_capacity(from.alloc, terms.len())?;
    'each: for term in terms {
        let next = copied_under(from, into, *term)?;
        items.push(next)?;
    }
    Ok(Ids { items })
}

/// Whether the sides of a constraint can be equal under the match: they are copied into a bank of this call's own, and unified
/// there, with the variables of the special clause and those that the constraint binds told apart.
///
/// `Err` comes for want of memory, and where a variable of the special clause isn't below `next`, or a bound one is past 32 bits
/// then.
pub(crate) fn can_be_equal_under<B: Bank>(
    from: &Matched<'_, B>,
    diff: &Diff,
) -> Result<bool, AllocError>
    requires diff { IsDiffIn (B.trees from.now.bank.now) diff.now }
    requires bindings { AreInBank (B.trees from.now.bank.now) from.now.binds.now.pairs }
    ensures { IfOk result (λ yes. yes ≡ can_be_equal_sides
        (diff_matched (B.trees from.now.bank.now) from.now.binds.now.pairs from.now.first
        diff.now)) }
{
    let mut scratch = TreeBank::new(from.alloc)?;
    let left = copied_terms(from, &mut scratch, &diff.left.items)?;
    let right = copied_terms(from, &mut scratch, &diff.right.items)?;
    let copied = Diff {
        first: from.next,
        left,
        right,
    };
    can_be_equal(from.alloc, &scratch, &copied)
}
