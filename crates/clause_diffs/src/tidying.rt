//! Constraints with their variables numbered anew: the clause's by their places in the clause's order, and those that a
//! constraint binds by their first occurrence in it.

ghost use Rattle.std.specs.Prelude.{◌≡◌, ◌<◌, true, [], ◌∷◌, ◌++◌, nat_eq, cond, length, map, flat_map, IfOk, IfSome, OnOk};
ghost use Rattle.std.specs.List.{AllByRecursion, list_any};
ghost use Rattle.spec_trees.specs.Tree.{Leaf, bind};
ghost use Rattle.spec_clauses.specs.Diff.{diff_under, diff_variables, numbered_diff, same_diff as is_same_diff};
ghost use Rattle.spec_clauses.specs.Distinct.{distinct};
ghost use Rattle.term_tree.specs.Bank.{tree_at, AreKnown, Names, Grows};
ghost use Rattle.clause_diffs.specs.Diffs.{diff_at, diffs_at, IsDiffIn, AreDiffsIn, NameTerms, NamesDiff, NameDiffs, StartAt};
ghost use Rattle.clause_diffs.specs.Numbers.{placed};
ghost use Rattle.clause_diffs.specs.Places.{by_places};

use crate::diffs::{Diff, Diffs};
use crate::ids::Ids;
use crate::numbers::Order;
use crate::same::is_among_diffs;
use crate::variables::bound_variables;
use std::alloc::{AllocError, Global};
use term_tree::{Bank, Id, Node};

/// How the variables of a constraint are numbered: those below `first` by their places in the clause's order, and the others,
/// less `first`, by their places in their own, from `next` on.
#[derive(Clone, Copy)]
pub struct Places<'a> {
    pub own: &'a Order,
    pub bound: &'a Order,
    pub first: u32,
    pub next: u32,
}

/// The number of a variable; none where it is past 32 bits.
fn number_of(places: Places<'_>, number: u32) -> Option<u32>
    ensures { IfSome result (λ made. Leaf made ≡
        by_places places.entry number) }
{
    if number < places.first {
        return Some(places.own.place(number));
    }
    places
        .bound
        .place(number - places.first)
        .checked_add(places.next)
}

/// The variable of that number.
fn numbered_variable<B: Bank>(
    bank: &mut B,
    places: Places<'_>,
    number: u32,
) -> Result<Id, AllocError>
    ensures grows { Grows (B.trees bank.old) (B.trees bank.new) }
    ensures names { IfOk result (λ made. Names (B.trees bank.new) made
        (by_places places.entry number)) }
{
    match number_of(places, number) {
        Some(made) => bank.var(made),
        None => Err(AllocError),
    }
}

/// The term with its variables numbered. On `Err` the bank may have grown.
fn numbered_term<B: Bank>(
    alloc: Global,
    bank: &mut B,
    places: Places<'_>,
    id: Id,
) -> Result<Id, AllocError>
    requires { id.index < length (B.trees bank.old) }
    ensures grows { Grows (B.trees bank.old) (B.trees bank.new) }
    ensures names { IfOk result (λ made. Names (B.trees bank.new) made
        (bind (by_places places.entry)
        (tree_at (B.trees bank.old) id))) }
{
    match bank.node(id) {
        Node::Var(number) => numbered_variable(bank, places, number),
        Node::App(symbol, arguments) => {
            let parts = arguments.to_vec(alloc)?;
            let mut made = Vec::with_capacity(alloc, parts.len())?;
            'each: for part in &parts {
                let next = numbered_term(alloc, bank, places, *part)?;
                made.push(next)?;
            }
            bank.app(symbol, &made)
        }
    }
}

/// The terms with their variables numbered. On `Err` the bank may have grown.
fn numbered_terms<B: Bank>(
    alloc: Global,
    bank: &mut B,
    places: Places<'_>,
    terms: &[Id],
) -> Result<Ids, AllocError>
    requires { AreKnown (B.trees bank.old) terms.now }
    ensures grows { Grows (B.trees bank.old) (B.trees bank.new) }
    ensures names { IfOk result (λ made. NameTerms (B.trees bank.new) made
        (map (bind (by_places places.entry))
        (map (tree_at (B.trees bank.old)) terms.now))) }
{
    let mut items = Vec::with_capacity(alloc, terms.len())?;
    'each: for term in terms {
        let next = numbered_term(alloc, bank, places, *term)?;
        items.push(next)?;
    }
    Ok(Ids { items })
}

/// The number that comes after those of an order; none where it is past 32 bits.
fn number_after(order: &Order) -> Result<u32, AllocError>
    ensures { IfOk result (λ next. next ≡ length order.now) }
{
    match u32::try_from(order.count()) {
        Ok(next) => Ok(next),
        Err(_) => Err(AllocError),
    }
}

/// The constraint with its variables numbered: the clause's by their places in the order, and those that it binds by their
/// first occurrence, from the order's length on. On `Err` the bank may have grown.
fn numbered_diff_of<B: Bank>(
    alloc: Global,
    bank: &mut B,
    order: &Order,
    diff: &Diff,
) -> Result<Diff, AllocError>
    requires known { IsDiffIn (B.trees bank.old) diff.now }
    requires own { AllByRecursion (λ x. list_any (nat_eq x) order.now ≡ true)
        (diff_variables (diff_at (B.trees bank.old) diff.now)) }
    ensures grows { Grows (B.trees bank.old) (B.trees bank.new) }
    ensures names { IfOk result (λ made. NamesDiff (B.trees bank.new) made
        (numbered_diff (diff_under (placed order.now) (diff_at (B.trees bank.old) diff.now)))) }
    ensures first { IfOk result (λ made. made.first ≡ length order.now) }
{
    let next = number_after(order)?;
    let numbers = bound_variables(alloc, bank, diff)?;
    let bound = Order::new(alloc, numbers)?;
    let places = Places {
        own: order,
        bound: &bound,
        first: diff.first,
        next,
    };
    let left = numbered_terms(alloc, bank, places, &diff.left.items)?;
    let right = numbered_terms(alloc, bank, places, &diff.right.items)?;
    Ok(Diff {
        first: next,
        left,
        right,
    })
}

/// Adds a constraint with its variables numbered, unless it is there. On `Err` the bank may have grown.
fn add_numbered<B: Bank>(
    alloc: Global,
    bank: &mut B,
    order: &Order,
    diff: &Diff,
    made: &mut Diffs,
) -> Result<(), AllocError>
    requires known { IsDiffIn (B.trees bank.old) diff.now }
    requires made { AreDiffsIn (B.trees bank.old) made.old }
    requires own { AllByRecursion (λ x. list_any (nat_eq x) order.now ≡ true)
        (diff_variables (diff_at (B.trees bank.old) diff.now)) }
    ensures grows { Grows (B.trees bank.old) (B.trees bank.new) }
    ensures names { let one = numbered_diff (diff_under (placed order.now)
        (diff_at (B.trees bank.old) diff.now)) in
        let others = diffs_at (B.trees bank.old) made.old in
        OnOk result (NameDiffs (B.trees bank.new) made.new
        (cond (list_any (is_same_diff one) others) others (others ++ one ∷ []))) }
    ensures first { OnOk result
        (StartAt (length order.now) made.old → StartAt (length order.now) made.new) }
{
    let one = numbered_diff_of(alloc, bank, order, diff)?;
    if is_among_diffs(bank, &made.items, &one) {
        return Ok(());
    }
    made.push(one)?;
    Ok(())
}

/// The constraints with their variables numbered: the clause's by their places in the order, those that a constraint binds by
/// their first occurrence in it, left sides first; and of equal ones the first. On `Err` the bank may have grown.
///
/// `Err` comes for want of memory, and where a number would be past 32 bits.
pub fn tidied<B: Bank>(
    alloc: Global,
    bank: &mut B,
    order: &Order,
    diffs: &[Diff],
) -> Result<Diffs, AllocError>
    requires known { AreDiffsIn (B.trees bank.old) diffs.now }
    requires own { AllByRecursion (λ x. list_any (nat_eq x) order.now ≡ true)
        (flat_map diff_variables (diffs_at (B.trees bank.old) diffs.now)) }
    ensures grows { Grows (B.trees bank.old) (B.trees bank.new) }
    ensures names { IfOk result (λ made. NameDiffs (B.trees bank.new) made
        (distinct is_same_diff (map (λ d. numbered_diff (diff_under (placed order.now) d))
        (diffs_at (B.trees bank.old) diffs.now)))) }
    ensures first { IfOk result (λ made. StartAt (length order.now) made) }
{
    let mut made = Diffs::new(alloc);
    'each: for diff in diffs {
        add_numbered(alloc, bank, order, diff, &mut made)?;
    }
    Ok(made)
}
