//! What is left to decide besides the facts that are placed: loose hypotheses and constraints.

ghost use Rattle.std.specs.Prelude.{map, IfOk, MatchBool};
ghost use Rattle.clause_form.specs.Facts.{fact_of};
ghost use Rattle.fact_placing.specs.Boards.{IsBoard, IsEndingIn, IsPlacing, CanEndOn};
ghost use Rattle.fact_placing.specs.Boards.{PlacesNothingOn};

use crate::loose::loose_may_stand;
use fact_placing::are_kept;
use fact_placing::board::Board;
use fact_placing::placing::Placing;
use std::alloc::AllocError;
use term_tree::Bank;

/// Whether the parts of loose hypotheses stand and the constraints are kept, as far as their variables are bound: else no facts can
/// be placed from here on. With no fact left all variables are bound, and nothing else is left to decide.
pub(crate) fn may_go_on<B: Bank>(
    board: &Board<'_, B>,
    placing: &Placing,
) -> Result<bool, AllocError>
    requires board { IsBoard (B.trees board.now.bank.now) (map fact_of board.now.hyps.now) }
    requires placing { IsPlacing (B.trees board.now.bank.now) (map fact_of board.now.hyps.now)
        placing.now.binds.pairs placing.now.taken.items }
    requires ending { IsEndingIn (B.trees board.now.bank.now) board.now.ending }
    ensures { IfOk result (λ yes. MatchBool yes
        (CanEndOn (B.trees board.now.bank.now) (map fact_of board.now.hyps.now)
        board.now.ending placing.now.binds.pairs placing.now.taken.items)
        (PlacesNothingOn (B.trees board.now.bank.now) (map fact_of board.now.hyps.now)
        board.now.ending placing.now.binds.pairs placing.now.taken.items)) }
{
    if !loose_may_stand(board, placing)? {
        return Ok(false);
    }
    are_kept(board, placing)
}
