//! Whether the constraints of the general clause are kept under a match.

ghost use Rattle.std.specs.Prelude.{◌≡◌, ◌↔◌, map, IsTrue, IfOk, MatchBool};
ghost use Rattle.spec_terms.specs.Binding.{replaced_once};
ghost use Rattle.spec_clauses.specs.Diff.{numbered_diff};
ghost use Rattle.spec_clauses.specs.Kept.{IsKeptIn};
ghost use Rattle.unify_match.specs.Seen.{seen, AreInBank};
ghost use Rattle.clause_diffs.specs.Diffs.{diff_at, diffs_at, IsDiffIn, AreDiffsIn};
ghost use Rattle.clause_form.specs.Facts.{fact_of};
ghost use Rattle.fact_placing.specs.Boards.{IsEndingIn, IsPlacing, AreKeptOn, AreNeverKeptOn};
ghost use Rattle.fact_placing.specs.Matched.{are_all_bound, MayBeKept, IsUnkept};

use crate::alike::is_among_under;
use crate::board::Board;
use crate::copied::can_be_equal_under;
use crate::matched::Matched;
use crate::placing::Placing;
use clause_diffs::{Diff, own_variables};
use std::alloc::AllocError;
use term_tree::Bank;
use unify_match::Binds;

/// In a copy of a constraint its bound variables are numbered from here on. Those of a clause within the limit of size, numbered
/// as its norm has them, are far below.
const BOUND_FROM: u32 = 0x8000_0000;

/// Whether a constraint is kept under the bindings: it is then one of the special clause's, or its sides can't be equal.
fn is_kept<B: Bank>(board: &Board<'_, B>, binds: &Binds, diff: &Diff) -> Result<bool, AllocError>
    requires diff { IsDiffIn (B.trees board.now.bank.now) diff.now }
    requires kept_in { AreDiffsIn (B.trees board.now.bank.now) board.now.ending.kept_in.now }
    requires numbered { let d = diff_at (B.trees board.now.bank.now) diff.now in
        numbered_diff d ≡ d }
    requires bindings { AreInBank (B.trees board.now.bank.now) binds.now.pairs }
    ensures { let all = B.trees board.now.bank.now in IfOk result
        (λ yes. IsTrue yes ↔ IsKeptIn (diffs_at all board.now.ending.kept_in.now)
        (replaced_once (seen all binds.now.pairs)) (diff_at all diff.now)) }
{
    let from = Matched {
        alloc: board.alloc,
        bank: board.bank,
        binds,
        first: diff.first,
        next: BOUND_FROM,
    };
    if is_among_under(&from, diff, board.ending.kept_in) {
        return Ok(true);
    }
    let is_equal = can_be_equal_under(&from, diff)?;
    Ok(!is_equal)
}

/// Whether all of the clause's variables in a constraint are bound.
fn are_bound<B: Bank>(board: &Board<'_, B>, binds: &Binds, diff: &Diff) -> Result<bool, AllocError>
    requires { IsDiffIn (B.trees board.now.bank.now) diff.now }
    ensures { IfOk result (λ yes. yes ≡
        are_all_bound binds.now.pairs (diff_at (B.trees board.now.bank.now) diff.now)) }
{
    let numbers = own_variables(board.alloc, board.bank, diff)?;
    'each: for number in &numbers {
        match binds.look(*number) {
            Some(_) => {}
            None => return Ok(false),
        }
    }
    Ok(true)
}

/// Whether a constraint may be kept: it is, if all of the clause's variables in it are bound.
fn may_be_kept<B: Bank>(
    board: &Board<'_, B>,
    binds: &Binds,
    diff: &Diff,
) -> Result<bool, AllocError>
    requires diff { IsDiffIn (B.trees board.now.bank.now) diff.now }
    requires kept_in { AreDiffsIn (B.trees board.now.bank.now) board.now.ending.kept_in.now }
    requires numbered { let d = diff_at (B.trees board.now.bank.now) diff.now in
        numbered_diff d ≡ d }
    requires bindings { AreInBank (B.trees board.now.bank.now) binds.now.pairs }
    ensures { let all = B.trees board.now.bank.now in IfOk result (λ yes. MatchBool yes
        (MayBeKept all binds.now.pairs (diffs_at all board.now.ending.kept_in.now)
        (diff_at all diff.now))
        (IsUnkept all binds.now.pairs (diffs_at all board.now.ending.kept_in.now)
        (diff_at all diff.now))) }
{
    if !are_bound(board, binds, diff)? {
        return Ok(true);
    }
    is_kept(board, binds, diff)
}

/// Whether the bindings keep the constraints of the general clause in those of the special one, as far as they bind the variables
/// of these: each is then one of the special clause's, or its sides can't be equal. Without constraints it takes no memory.
///
/// `Err` comes for want of memory, and where variables of the special clause are numbered past 31 bits.
pub fn are_kept<B: Bank>(board: &Board<'_, B>, placing: &Placing) -> Result<bool, AllocError>
    requires ending { IsEndingIn (B.trees board.now.bank.now) board.now.ending }
    requires placing { IsPlacing (B.trees board.now.bank.now) (map fact_of board.now.hyps.now)
        placing.now.binds.pairs placing.now.taken.items }
    ensures { let all = B.trees board.now.bank.now in IfOk result (λ yes. MatchBool yes
        (AreKeptOn all board.now.ending placing.now.binds.pairs)
        (AreNeverKeptOn all board.now.ending placing.now.binds.pairs)) }
{
    'each: for diff in board.ending.diffs {
        if !may_be_kept(board, &placing.binds, diff)? {
            return Ok(false);
        }
    }
    Ok(true)
}
