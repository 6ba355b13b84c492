//! Whether hypotheses can be placed: the most constrained first.

ghost use Rattle.std.specs.Prelude.{◌≡◌, ℕ, ◌<◌, ◌≤◌, ◌∷◌, length, map, IfOk, MatchOption};
ghost use Rattle.clause_form.specs.Facts.{fact_of};
ghost use Rattle.clause_form.specs.Seen.{IsFactIn, AreFactsIn};
ghost use Rattle.fact_placing.specs.Boards.{IsBoard, IsEndingIn, IsPlacing, IsAsBefore, AreLinkedOn};
ghost use Rattle.fact_placing.specs.Boards.{CanPlaceOn, CanStandOn, HoldsOn, HoldsInserted};

use crate::crowds::next_of;
use crate::ending::may_go_on;
use clause_form::Fact;
use fact_placing::board::Board;
use fact_placing::placing::{Placing, put, take_back};
use std::alloc::AllocError;
use term_tree::Bank;

/// Positions for the facts, in their order, if there are any.
#[cycle(placing)]
pub(crate) fn can_place<B: Bank>(
    board: &Board<'_, B>,
    placing: &mut Placing,
    unplaced: &[&Fact],
) -> Result<Option<Vec<usize>>, AllocError>
    requires board { IsBoard (B.trees board.now.bank.now) (map fact_of board.now.hyps.now) }
    requires placing { IsPlacing (B.trees board.now.bank.now) (map fact_of board.now.hyps.now)
        placing.old.binds.pairs placing.old.taken.items }
    requires facts { AreFactsIn (B.trees board.now.bank.now)
        (map (λ f. fact_of f.now) unplaced.now) }
    requires linked { AreLinkedOn (B.trees board.now.bank.now) board.now.ending
        placing.old.binds.pairs (map (λ f. fact_of f.now) unplaced.now) }
    requires ending { IsEndingIn (B.trees board.now.bank.now) board.now.ending }
    ensures same { IsAsBefore placing.old.binds.pairs placing.new.binds.pairs
        placing.old.taken.items placing.new.taken.items }
    ensures outcome { IfOk result (λ found. MatchOption found
        (CanPlaceOn (B.trees board.now.bank.now) (map fact_of board.now.hyps.now)
        board.now.ending placing.old.binds.pairs placing.old.taken.items
        (map (λ f. fact_of f.now) unplaced.now) → ⊥)
        (λ row. HoldsOn (B.trees board.now.bank.now) (map fact_of board.now.hyps.now)
        board.now.ending placing.old.binds.pairs placing.old.taken.items
        (map (λ f. fact_of f.now) unplaced.now) row.items)) }
{
    if !may_go_on(board, placing)? {
        return Ok(None);
    }
    if unplaced.is_empty() {
        return Ok(Some(Vec::new(board.alloc)));
    }
    match next_of(board, placing, unplaced)? {
        None => Ok(None),
        Some(at) => place_some(board, placing, unplaced, at),
    }
}

/// The same, where the fact at the index is placed first.
#[cycle(placing)]
fn place_some<B: Bank>(
    board: &Board<'_, B>,
    placing: &mut Placing,
    unplaced: &[&Fact],
    at: usize,
) -> Result<Option<Vec<usize>>, AllocError>
    requires board { IsBoard (B.trees board.now.bank.now) (map fact_of board.now.hyps.now) }
    requires placing { IsPlacing (B.trees board.now.bank.now) (map fact_of board.now.hyps.now)
        placing.old.binds.pairs placing.old.taken.items }
    requires facts { AreFactsIn (B.trees board.now.bank.now)
        (map (λ f. fact_of f.now) unplaced.now) }
    requires linked { AreLinkedOn (B.trees board.now.bank.now) board.now.ending
        placing.old.binds.pairs (map (λ f. fact_of f.now) unplaced.now) }
    requires index { at < length unplaced.now }
    requires ending { IsEndingIn (B.trees board.now.bank.now) board.now.ending }
    ensures same { IsAsBefore placing.old.binds.pairs placing.new.binds.pairs
        placing.old.taken.items placing.new.taken.items }
    ensures outcome { IfOk result (λ found. MatchOption found
        (CanPlaceOn (B.trees board.now.bank.now) (map fact_of board.now.hyps.now)
        board.now.ending placing.old.binds.pairs placing.old.taken.items
        (map (λ f. fact_of f.now) unplaced.now) → ⊥)
        (λ row. HoldsOn (B.trees board.now.bank.now) (map fact_of board.now.hyps.now)
        board.now.ending placing.old.binds.pairs placing.old.taken.items
        (map (λ f. fact_of f.now) unplaced.now) row.items)) }
{
    let mut rest = unplaced.to_vec(board.alloc)?;
    let fact = rest.remove(at);
    place_beside(board, placing, fact, &rest, at)
}

/// Positions for a fact and the rest, the fact's at a place among the others, if there are any.
#[cycle(placing)]
fn place_beside<B: Bank>(
    board: &Board<'_, B>,
    placing: &mut Placing,
    fact: &Fact,
    rest: &[&Fact],
    at: usize,
) -> Result<Option<Vec<usize>>, AllocError>
    requires board { IsBoard (B.trees board.now.bank.now) (map fact_of board.now.hyps.now) }
    requires placing { IsPlacing (B.trees board.now.bank.now) (map fact_of board.now.hyps.now)
        placing.old.binds.pairs placing.old.taken.items }
    requires fact { IsFactIn (B.trees board.now.bank.now) (fact_of fact.now) }
    requires rest { AreFactsIn (B.trees board.now.bank.now) (map (λ f. fact_of f.now) rest.now) }
    requires linked { AreLinkedOn (B.trees board.now.bank.now) board.now.ending
        placing.old.binds.pairs (fact_of fact.now ∷ (map (λ f. fact_of f.now) rest.now)) }
    requires index { at ≤ length rest.now }
    requires ending { IsEndingIn (B.trees board.now.bank.now) board.now.ending }
    ensures same { IsAsBefore placing.old.binds.pairs placing.new.binds.pairs
        placing.old.taken.items placing.new.taken.items }
    ensures outcome { IfOk result (λ found. MatchOption found
        ((p : ℕ) → p < length board.now.hyps.now → CanStandOn (B.trees board.now.bank.now)
        (map fact_of board.now.hyps.now) board.now.ending placing.old.binds.pairs
        placing.old.taken.items (fact_of fact.now) (map (λ f. fact_of f.now) rest.now) p → ⊥)
        (λ row. HoldsInserted (B.trees board.now.bank.now) (map fact_of board.now.hyps.now)
        board.now.ending placing.old.binds.pairs placing.old.taken.items (fact_of fact.now)
        (map (λ f. fact_of f.now) rest.now) at row.items)) }
{
    'each: for p in 0..board.hyps.len() {
        match can_stand(board, placing, fact, rest, p)? {
            None => {}
            Some(mut row) => {
                row.insert(at, p)?;
                return Ok(Some(row));
            }
        }
    }
    Ok(None)
}

/// Positions for the rest, with the fact at a position, if it can stand there.
#[cycle(placing)]
fn can_stand<B: Bank>(
    board: &Board<'_, B>,
    placing: &mut Placing,
    fact: &Fact,
    rest: &[&Fact],
    p: usize,
) -> Result<Option<Vec<usize>>, AllocError>
    requires board { IsBoard (B.trees board.now.bank.now) (map fact_of board.now.hyps.now) }
    requires placing { IsPlacing (B.trees board.now.bank.now) (map fact_of board.now.hyps.now)
        placing.old.binds.pairs placing.old.taken.items }
    requires fact { IsFactIn (B.trees board.now.bank.now) (fact_of fact.now) }
    requires rest { AreFactsIn (B.trees board.now.bank.now) (map (λ f. fact_of f.now) rest.now) }
    requires linked { AreLinkedOn (B.trees board.now.bank.now) board.now.ending
        placing.old.binds.pairs (fact_of fact.now ∷ (map (λ f. fact_of f.now) rest.now)) }
    requires position { p < length board.now.hyps.now }
    requires ending { IsEndingIn (B.trees board.now.bank.now) board.now.ending }
    ensures same { IsAsBefore placing.old.binds.pairs placing.new.binds.pairs
        placing.old.taken.items placing.new.taken.items }
    ensures outcome { IfOk result (λ found. MatchOption found
        (CanStandOn (B.trees board.now.bank.now) (map fact_of board.now.hyps.now)
        board.now.ending placing.old.binds.pairs placing.old.taken.items (fact_of fact.now)
        (map (λ f. fact_of f.now) rest.now) p → ⊥)
        (λ row. HoldsOn (B.trees board.now.bank.now) (map fact_of board.now.hyps.now)
        board.now.ending placing.old.binds.pairs placing.old.taken.items
        (fact_of fact.now ∷ (map (λ f. fact_of f.now) rest.now)) (p ∷ row.items))) }
{
    let level = placing.binds.level();
    if !put(board, placing, fact, p)? {
        return Ok(None);
    }
    let found = can_place(board, placing, rest);
    take_back(placing, level, p);
    found
}
