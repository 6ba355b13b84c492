//! Whether constraints are as the norm of a clause has them: each needed, its bound variables numbered, and none twice.

ghost use Rattle.std.specs.Prelude.{◌≡◌, ◌↔◌, IsTrue, not, nat_eq, map, IfOk};
ghost use Rattle.std.specs.List.{list_all};
ghost use Rattle.spec_clauses.specs.Diff.{numbered_diff, same_diff as is_same_diff};
ghost use Rattle.spec_clauses.specs.Distinct.{distinct, place_of};
ghost use Rattle.clause_diffs.specs.Diffs.{diff_at, diffs_at, IsDiffIn, AreDiffsIn};
ghost use Rattle.clause_diffs.specs.Needed.{is_needed_among, differ};

use crate::diffs::Diff;
use crate::needless::is_needed;
use crate::numbers::{Counts, Order};
use crate::same::is_among_diffs;
use crate::variables::bound_variables;
use std::alloc::{AllocError, Global};
use term_tree::Bank;

/// Whether all constraints are needed.
///
/// `Err` comes only for want of memory.
pub fn are_needed<B: Bank>(
    alloc: Global,
    bank: &B,
    anchors: &Counts,
    diffs: &[Diff],
) -> Result<bool, AllocError>
    requires { AreDiffsIn (B.trees bank.now) diffs.now }
    ensures { IfOk result (λ yes. yes ≡ list_all (is_needed_among anchors.now)
        (diffs_at (B.trees bank.now) diffs.now)) }
{
    for diff in diffs {
        if !is_needed(alloc, bank, anchors, diff)? {
            return Ok(false);
        }
    }
    Ok(true)
}

/// Whether each number is its own place in an order.
fn are_places(order: &Order, numbers: &[u32]) -> bool
    ensures { result ≡ list_all (λ i. nat_eq (place_of i order.now) i) numbers.now }
{
    for number in numbers {
        if order.place(*number) != *number {
            return false;
        }
    }
    true
}

/// Whether the variables that a constraint binds are numbered by their first occurrence in it, left sides first.
fn is_numbered<B: Bank>(alloc: Global, bank: &B, diff: &Diff) -> Result<bool, AllocError>
    requires { IsDiffIn (B.trees bank.now) diff.now }
    ensures { IfOk result (λ yes. IsTrue yes ↔
        (numbered_diff (diff_at (B.trees bank.now) diff.now) ≡ diff_at (B.trees bank.now) diff.now)) }
{
    let firsts = bound_variables(alloc, bank, diff)?;
    let order = Order::new(alloc, firsts)?;
    let numbers = bound_variables(alloc, bank, diff)?;
    Ok(are_places(&order, &numbers))
}

/// The same of constraints.
fn are_numbered<B: Bank>(alloc: Global, bank: &B, diffs: &[Diff]) -> Result<bool, AllocError>
    requires { AreDiffsIn (B.trees bank.now) diffs.now }
    ensures { IfOk result (λ yes. IsTrue yes ↔ (map numbered_diff
        (diffs_at (B.trees bank.now) diffs.now) ≡ diffs_at (B.trees bank.now) diffs.now)) }
{
    for diff in diffs {
        if !is_numbered(alloc, bank, diff)? {
            return Ok(false);
        }
    }
    Ok(true)
}

/// Whether no constraint is the same as a later one.
fn are_different<B: Bank>(bank: &B, diffs: &[Diff]) -> bool
    requires { AreDiffsIn (B.trees bank.now) diffs.now }
    ensures { result ≡ differ (diffs_at (B.trees bank.now) diffs.now) }
{
    'each: for (i, diff) in diffs.iter().enumerate() {
        if is_among_diffs(bank, &diffs[i + 1..], diff) {
            return false;
        }
    }
    true
}

/// Whether the variables that the constraints bind are numbered, and no two constraints are the same.
///
/// `Err` comes only for want of memory.
pub fn are_tidied<B: Bank>(alloc: Global, bank: &B, diffs: &[Diff]) -> Result<bool, AllocError>
    requires { AreDiffsIn (B.trees bank.now) diffs.now }
    ensures { IfOk result (λ yes. IsTrue yes ↔ (distinct is_same_diff (map numbered_diff
        (diffs_at (B.trees bank.now) diffs.now)) ≡ diffs_at (B.trees bank.now) diffs.now)) }
{
    if !are_different(bank, diffs) {
        return Ok(false);
    }
    are_numbered(alloc, bank, diffs)
}
