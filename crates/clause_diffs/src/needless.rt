//! The constraints that a clause needs: those that can fail, and that speak of nothing but what the clause has elsewhere.

ghost use Rattle.std.specs.Prelude.{◌≡◌, [], ◌∷◌, ◌++◌, nat_eq, filter, cond, IfOk, OnOk};
ghost use Rattle.std.specs.List.{list_any, list_all};
ghost use Rattle.clause_diffs.specs.Diffs.{diff_at, diffs_at, IsDiffIn, AreDiffsIn, NameDiffs};
ghost use Rattle.clause_diffs.specs.Needed.{is_needed_among};

use crate::diffs::{Diff, Diffs};
use crate::numbers::Counts;
use crate::tests::can_be_equal;
use crate::variables::own_variables;
use std::alloc::{AllocError, Global};
use term_tree::Bank;

/// Whether each of the numbers is among others.
fn are_among(anchors: &Counts, numbers: &[u32]) -> bool
    ensures { result ≡ list_all (λ x. list_any (nat_eq x) anchors.now) numbers.now }
{
    for number in numbers {
        if !anchors.has(*number) {
            return false;
        }
    }
    true
}

/// Whether the sides of a constraint can be equal, and each of the clause's variables in it is an anchor.
pub(crate) fn is_needed<B: Bank>(
    alloc: Global,
    bank: &B,
    anchors: &Counts,
    diff: &Diff,
) -> Result<bool, AllocError>
    requires { IsDiffIn (B.trees bank.now) diff.now }
    ensures { IfOk result (λ yes. yes ≡
        is_needed_among anchors.now (diff_at (B.trees bank.now) diff.now)) }
{
    if !can_be_equal(alloc, bank, diff)? {
        return Ok(false);
    }
    let numbers = own_variables(alloc, bank, diff)?;
    Ok(are_among(anchors, &numbers))
}

/// Adds a copy of a constraint where it is needed.
fn add_needed<B: Bank>(
    alloc: Global,
    bank: &B,
    anchors: &Counts,
    diff: &Diff,
    kept: &mut Diffs,
) -> Result<(), AllocError>
    requires { IsDiffIn (B.trees bank.now) diff.now }
    ensures { OnOk result (kept.new ≡
        cond (is_needed_among anchors.now (diff_at (B.trees bank.now) diff.now))
        (kept.old ++ diff.now ∷ []) kept.old) }
{
    if !is_needed(alloc, bank, anchors, diff)? {
        return Ok(());
    }
    let copied = diff.copy(alloc)?;
    kept.push(copied)
}

/// The constraints that are needed, in order: those whose sides can be equal, and whose variables of the clause are all among
/// the anchors.
///
/// `Err` comes only for want of memory.
pub fn needed<B: Bank>(
    alloc: Global,
    bank: &B,
    anchors: &Counts,
    diffs: &[Diff],
) -> Result<Diffs, AllocError>
    requires { AreDiffsIn (B.trees bank.now) diffs.now }
    ensures { IfOk result (λ kept. NameDiffs (B.trees bank.now) kept
        (filter (is_needed_among anchors.now) (diffs_at (B.trees bank.now) diffs.now))) }
{
    let mut kept = Diffs::new(alloc);
    for diff in diffs {
        add_needed(alloc, bank, anchors, diff, &mut kept)?;
    }
    Ok(kept)
}
