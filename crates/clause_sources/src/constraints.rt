//! The variables of constraints over owned trees, and constraints with their variables numbered.

ghost use Rattle.std.specs.Prelude.{◌≡◌, ◌++◌, map, flat_map, IfOk, OnOk};
ghost use Rattle.spec_clauses.specs.Diff.{diff_under, diff_variables, bound_variables, numbered_diff};
ghost use Rattle.spec_clauses.specs.Variables.{leaves};
ghost use Rattle.clause_diffs.specs.Numbers.{placed};

use crate::numbers::{Numbers, number_above};
use crate::trees::{add_terms_variables, numbered_trees};
use clause_diffs::{Order, numbers_below, numbers_from};
use clause_form::{PlainDiff, PlainDiffs, Trees};
use std::alloc::{AllocError, Global};

/// The variables of both sides, the left ones first.
fn variables_of_sides(alloc: Global, left: &Trees, right: &Trees) -> Result<Vec<u32>, AllocError>
    ensures { IfOk result (λ numbers. numbers.items ≡ flat_map leaves (left.now ++ right.now)) }
{
    let mut numbers = Vec::new(alloc);
    add_terms_variables(left, &mut numbers)?;
    add_terms_variables(right, &mut numbers)?;
    Ok(numbers)
}

/// Adds the clause's variables in a constraint, left sides first.
fn add_diff_variables(
    alloc: Global,
    diff: &PlainDiff,
    numbers: &mut Vec<u32>,
) -> Result<(), AllocError>
    ensures { OnOk result (numbers.new.items ≡ numbers.old.items ++ diff_variables diff.now) }
{
    let all = variables_of_sides(alloc, &diff.left, &diff.right)?;
    let mut own = numbers_below(alloc, diff.first, &all)?;
    numbers.append(&mut own)?;
    Ok(())
}

/// Adds the clause's variables in constraints.
pub(crate) fn add_diffs_variables(
    alloc: Global,
    diffs: &PlainDiffs,
    numbers: &mut Vec<u32>,
) -> Result<(), AllocError>
    ensures { OnOk result (numbers.new.items ≡
        numbers.old.items ++ flat_map diff_variables diffs.now) }
{
    'each: for diff in &diffs.items {
        add_diff_variables(alloc, diff, numbers)?;
    }
    Ok(())
}

/// The variables that a constraint binds, by their places from `first` on, left sides first.
fn bound_variables_of(alloc: Global, diff: &PlainDiff) -> Result<Vec<u32>, AllocError>
    ensures { IfOk result (λ numbers. numbers.items ≡ bound_variables diff.now) }
{
    let all = variables_of_sides(alloc, &diff.left, &diff.right)?;
    numbers_from(alloc, diff.first, &all)
}

/// The constraint with its variables numbered: the clause's by their places in the order, and those that it binds by their first
/// occurrence.
fn numbered_diff_of(alloc: Global, order: &Order, diff: &PlainDiff) -> Result<PlainDiff, AllocError>
    ensures { IfOk result (λ made.
        made ≡ diff_under (placed order.now) (numbered_diff diff.now)) }
{
    let next = number_above(order)?;
    let bound = Order::new(alloc, bound_variables_of(alloc, diff)?)?;
    let numbers = Numbers {
        own: &*order,
        bound: &bound,
        first: Some(diff.first),
        next,
    };
    let left = numbered_trees(alloc, &numbers, &diff.left)?;
    let right = numbered_trees(alloc, &numbers, &diff.right)?;
    Ok(PlainDiff {
        first: next,
        left,
        right,
    })
}

/// The constraints with their variables numbered so.
pub(crate) fn numbered_diffs(
    alloc: Global,
    order: &Order,
    diffs: &PlainDiffs,
) -> Result<PlainDiffs, AllocError>
    ensures { IfOk result (λ made.
        made ≡ map (diff_under (placed order.now)) (map numbered_diff diffs.now)) }
{
    let mut items = Vec::with_capacity(alloc, diffs.items.len())?;
    'each: for diff in &diffs.items {
        items.push(numbered_diff_of(alloc, order, diff)?)?;
    }
    Ok(PlainDiffs { items })
}
