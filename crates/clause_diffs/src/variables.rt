//! The variables of terms and of constraints, in order.

ghost use Rattle.std.specs.Prelude.{◌≡◌, ◌-◌, ◌<◌, [], ◌∷◌, ◌++◌, not, nat_lt, cond, length, map, flat_map, filter, IfOk, OnOk};
ghost use Rattle.spec_clauses.specs.Diff.{diff_variables, bound_variables as bound_variables_of};
ghost use Rattle.spec_clauses.specs.Shown.{shown_variables};
ghost use Rattle.spec_clauses.specs.Variables.{leaves};
ghost use Rattle.term_tree.specs.Bank.{tree_at, AreKnown};
ghost use Rattle.clause_diffs.specs.Diffs.{shown_at, diff_at, IsDiffIn};

use crate::diffs::Diff;
use crate::numbers::add_if;
use std::alloc::{AllocError, Global};
use term_tree::{Bank, Id, Node};

/// Adds the variables of a term, each as often as it occurs.
pub fn add_variables<B: Bank>(bank: &B, id: Id, numbers: &mut Vec<u32>) -> Result<(), AllocError>
    requires { id.index < length (B.trees bank.now) }
    ensures { OnOk result (numbers.new.items ≡
        numbers.old.items ++ leaves (tree_at (B.trees bank.now) id)) }
{
    match bank.node(id) {
        Node::Var(number) => {
            numbers.push(number)?;
            Ok(())
        }
        Node::App(_, arguments) => {
            'each: for argument in arguments {
                add_variables(bank, *argument, numbers)?;
            }
            Ok(())
        }
    }
}

/// Adds the variables of terms.
pub fn add_terms_variables<B: Bank>(
    bank: &B,
    terms: &[Id],
    numbers: &mut Vec<u32>,
) -> Result<(), AllocError>
    requires { AreKnown (B.trees bank.now) terms.now }
    ensures { OnOk result (numbers.new.items ≡
        numbers.old.items ++ flat_map leaves (map (tree_at (B.trees bank.now)) terms.now)) }
{
    for term in terms {
        add_variables(bank, *term, numbers)?;
    }
    Ok(())
}

/// The variables of a constraint's terms, the clause's and the bound ones, left sides first.
pub(crate) fn variables_of_diff<B: Bank>(
    alloc: Global,
    bank: &B,
    diff: &Diff,
) -> Result<Vec<u32>, AllocError>
    requires { IsDiffIn (B.trees bank.now) diff.now }
    ensures { IfOk result (λ numbers. numbers.items ≡
        shown_variables (shown_at (B.trees bank.now) diff.now)) }
{
    let mut numbers = Vec::with_capacity(alloc, 16)?;
    add_terms_variables(bank, &diff.left.items, &mut numbers)?;
    add_terms_variables(bank, &diff.right.items, &mut numbers)?;
    Ok(numbers)
}

/// The numbers below another.
pub fn numbers_below(alloc: Global, first: u32, numbers: &[u32]) -> Result<Vec<u32>, AllocError>
    ensures { IfOk result (λ kept. kept.items ≡ filter (λ x. nat_lt x first) numbers.now) }
{
    let mut kept = Vec::with_capacity(alloc, 16)?;
    for number in numbers {
        add_if(*number < first, *number, &mut kept)?;
    }
    Ok(kept)
}

/// The clause's variables in a constraint, each as often as it occurs, left sides first.
pub fn own_variables<B: Bank>(alloc: Global, bank: &B, diff: &Diff) -> Result<Vec<u32>, AllocError>
    requires { IsDiffIn (B.trees bank.now) diff.now }
    ensures { IfOk result (λ numbers. numbers.items ≡
        diff_variables (diff_at (B.trees bank.now) diff.now)) }
{
    let numbers = variables_of_diff(alloc, bank, diff)?;
    numbers_below(alloc, diff.first, &numbers)
}

/// Adds a number, less another, where it isn't below that.
fn add_from(first: u32, number: u32, numbers: &mut Vec<u32>) -> Result<(), AllocError>
    ensures { OnOk result (numbers.new.items ≡ cond (nat_lt number first) numbers.old.items
        (numbers.old.items ++ (number - first) ∷ [])) }
{
    if number < first {
        return Ok(());
    }
    numbers.push(number - first)?;
    Ok(())
}

/// The numbers from another on, less that.
pub fn numbers_from(alloc: Global, first: u32, numbers: &[u32]) -> Result<Vec<u32>, AllocError>
    ensures { IfOk result (λ kept. kept.items ≡
        map (λ x. x - first) (filter (λ x. not (nat_lt x first)) numbers.now)) }
{
    let mut kept = Vec::with_capacity(alloc, 16)?;
    for number in numbers {
        add_from(first, *number, &mut kept)?;
    }
    Ok(kept)
}

/// The variables that a constraint binds, by their places from `first` on, each as often as it occurs, left sides first.
pub fn bound_variables<B: Bank>(
    alloc: Global,
    bank: &B,
    diff: &Diff,
) -> Result<Vec<u32>, AllocError>
    requires { IsDiffIn (B.trees bank.now) diff.now }
    ensures { IfOk result (λ numbers. numbers.items ≡
        bound_variables_of (diff_at (B.trees bank.now) diff.now)) }
{
    let numbers = variables_of_diff(alloc, bank, diff)?;
    numbers_from(alloc, diff.first, &numbers)
}
