//! Parts of the hypotheses that share no variable but bound ones. Each is looked for by itself before all are: where one
//! of them can't be placed, no more can all, and the others needn't be tried in all ways for that.

ghost use Rattle.std.specs.Prelude.{◌≡◌, ◌<◌, ◌∷◌, ◌++◌, [], false, cond, length, map, IfOk, OnOk, MatchOption};
ghost use Rattle.spec_clauses.specs.Inclusion.{IsWithin};
ghost use Rattle.clause_form.specs.Facts.{fact_of};
ghost use Rattle.clause_form.specs.Seen.{IsFactIn, AreFactsIn};
ghost use Rattle.fact_placing.specs.Boards.{IsBoard, IsEndingIn, IsPlacing, IsAsBefore, AreLinkedOn};
ghost use Rattle.fact_placing.specs.Boards.{CanPlaceOn, CanStandOn, HoldsOn};

use crate::linking::{Parts, count_of, is_divided, number_at, parts_of};
use crate::search::can_place;
use clause_form::Fact;
use fact_placing::board::{Board, Ending};
use fact_placing::placing::{Placing, put, take_back};
use std::alloc::{AllocError, Global};
use term_tree::Bank;

/// Where there are fewer hypotheses, or fewer positions, they are looked for together at once.
const FEWEST: usize = 4;

const FEWEST_POSITIONS: usize = 8;

/// Adds a fact where it is one of a part.
fn add_member<'a>(
    fact: &'a Fact,
    is_member: bool,
    found: &mut Vec<&'a Fact>,
) -> Result<(), AllocError>
    ensures { OnOk result (map (λ f. fact_of f.now) found.new.items ≡ cond is_member
        (map (λ f. fact_of f.now) found.old.items ++ fact_of fact.now ∷ [])
        (map (λ f. fact_of f.now) found.old.items)) }
{
    if !is_member {
        return Ok(());
    }
    found.push(fact)?;
    Ok(())
}

/// The facts of the part of a number.
fn members<'a>(
    alloc: Global,
    facts: &[&'a Fact],
    parts: &Parts,
    number: usize,
) -> Result<Vec<&'a Fact>, AllocError>
    ensures { IfOk result (λ found. IsWithin (map (λ f. fact_of f.now) found.items)
        (map (λ f. fact_of f.now) facts.now)) }
{
    let mut found = Vec::new(alloc);
    'each: for (i, fact) in facts.iter().enumerate() {
        add_member(*fact, number_at(&parts.numbers, i) == number, &mut found)?;
    }
    Ok(found)
}

/// Whether the facts of one part can be placed, without loose parts and constraints. One fact by itself isn't asked for: that is found
/// without trying others.
fn part_may_stand<B: Bank>(
    board: &Board<'_, B>,
    placing: &mut Placing,
    facts: &[&Fact],
    parts: &Parts,
    number: usize,
) -> Result<bool, AllocError>
    requires board { IsBoard (B.trees board.now.bank.now) (map fact_of board.now.hyps.now) }
    requires placing { IsPlacing (B.trees board.now.bank.now) (map fact_of board.now.hyps.now)
        placing.old.binds.pairs placing.old.taken.items }
    requires facts { AreFactsIn (B.trees board.now.bank.now) (map (λ f. fact_of f.now) facts.now) }
    ensures same { IsAsBefore placing.old.binds.pairs placing.new.binds.pairs
        placing.old.taken.items placing.new.taken.items }
    ensures refused { IfOk result (λ yes. yes ≡ false → CanPlaceOn (B.trees board.now.bank.now)
        (map fact_of board.now.hyps.now) board.now.ending placing.old.binds.pairs
        placing.old.taken.items (map (λ f. fact_of f.now) facts.now) → ⊥) }
{
    if count_of(parts, number) <= 1 {
        return Ok(true);
    }
    let part = members(board.alloc, facts, parts, number)?;
    let apart = Board {
        alloc: board.alloc,
        bank: board.bank,
        hyps: board.hyps,
        ending: Ending {
            loose: &board.ending.loose[..0],
            diffs: &board.ending.diffs[..0],
            kept_in: &board.ending.kept_in[..0],
        },
        is_divided: false,
    };
    match can_place(&apart, placing, &part)? {
        Some(_) => Ok(true),
        None => Ok(false),
    }
}

/// Whether each part can be placed by itself.
fn parts_may_stand<B: Bank>(
    board: &Board<'_, B>,
    placing: &mut Placing,
    facts: &[&Fact],
    parts: &Parts,
) -> Result<bool, AllocError>
    requires board { IsBoard (B.trees board.now.bank.now) (map fact_of board.now.hyps.now) }
    requires placing { IsPlacing (B.trees board.now.bank.now) (map fact_of board.now.hyps.now)
        placing.old.binds.pairs placing.old.taken.items }
    requires facts { AreFactsIn (B.trees board.now.bank.now) (map (λ f. fact_of f.now) facts.now) }
    ensures same { IsAsBefore placing.old.binds.pairs placing.new.binds.pairs
        placing.old.taken.items placing.new.taken.items }
    ensures refused { IfOk result (λ yes. yes ≡ false → CanPlaceOn (B.trees board.now.bank.now)
        (map fact_of board.now.hyps.now) board.now.ending placing.old.binds.pairs
        placing.old.taken.items (map (λ f. fact_of f.now) facts.now) → ⊥) }
{
    'each: for number in 0..facts.len() {
        if !part_may_stand(board, placing, facts, parts, number)? {
            return Ok(false);
        }
    }
    Ok(true)
}

/// Whether parts are asked for: where there are few hypotheses or few positions, the search has an end soon in any case.
fn are_many<B>(board: &Board<'_, B>, facts: &[&Fact]) -> bool {
    if facts.len() < FEWEST {
        return false;
    }
    board.hyps.len() >= FEWEST_POSITIONS
}

/// Positions for the facts, in their order, if there are any: where they fall into several parts, each of several facts is
/// asked for by itself first.
pub(crate) fn placed_apart<B: Bank>(
    board: &Board<'_, B>,
    placing: &mut Placing,
    facts: &[&Fact],
) -> Result<Option<Vec<usize>>, AllocError>
    requires board { IsBoard (B.trees board.now.bank.now) (map fact_of board.now.hyps.now) }
    requires placing { IsPlacing (B.trees board.now.bank.now) (map fact_of board.now.hyps.now)
        placing.old.binds.pairs placing.old.taken.items }
    requires facts { AreFactsIn (B.trees board.now.bank.now) (map (λ f. fact_of f.now) facts.now) }
    requires linked { AreLinkedOn (B.trees board.now.bank.now) board.now.ending
        placing.old.binds.pairs (map (λ f. fact_of f.now) facts.now) }
    requires ending { IsEndingIn (B.trees board.now.bank.now) board.now.ending }
    ensures same { IsAsBefore placing.old.binds.pairs placing.new.binds.pairs
        placing.old.taken.items placing.new.taken.items }
    ensures outcome { IfOk result (λ found. MatchOption found
        (CanPlaceOn (B.trees board.now.bank.now) (map fact_of board.now.hyps.now)
        board.now.ending placing.old.binds.pairs placing.old.taken.items
        (map (λ f. fact_of f.now) facts.now) → ⊥)
        (λ row. HoldsOn (B.trees board.now.bank.now) (map fact_of board.now.hyps.now)
        board.now.ending placing.old.binds.pairs placing.old.taken.items
        (map (λ f. fact_of f.now) facts.now) row.items)) }
{
    if !are_many(board, facts) {
        return can_place(board, placing, facts);
    }
    let parts = parts_of(board, &placing.binds, facts)?;
    if !is_divided(&parts.counts) {
        return can_place(board, placing, facts);
    }
    if !parts_may_stand(board, placing, facts, &parts)? {
        return Ok(None);
    }
    let divided = Board {
        alloc: board.alloc,
        bank: board.bank,
        hyps: board.hyps,
        ending: board.ending,
        is_divided: true,
    };
    can_place(&divided, placing, facts)
}

/// Positions for the rest, with the fact at a position, if it can stand there: each part is asked for by itself first.
pub(crate) fn stands_apart<B: Bank>(
    board: &Board<'_, B>,
    placing: &mut Placing,
    fact: &Fact,
    rest: &[&Fact],
    p: usize,
) -> Result<Option<Vec<usize>>, AllocError>
    requires board { IsBoard (B.trees board.now.bank.now) (map fact_of board.now.hyps.now) }
    requires placing { IsPlacing (B.trees board.now.bank.now) (map fact_of board.now.hyps.now)
        placing.old.binds.pairs placing.old.taken.items }
    requires fact { IsFactIn (B.trees board.now.bank.now) (fact_of fact.now) }
    requires rest { AreFactsIn (B.trees board.now.bank.now) (map (λ f. fact_of f.now) rest.now) }
    requires linked { AreLinkedOn (B.trees board.now.bank.now) board.now.ending
        placing.old.binds.pairs (fact_of fact.now ∷ (map (λ f. fact_of f.now) rest.now)) }
    requires position { p < length board.now.hyps.now }
    requires ending { IsEndingIn (B.trees board.now.bank.now) board.now.ending }
    ensures same { IsAsBefore placing.old.binds.pairs placing.new.binds.pairs
        placing.old.taken.items placing.new.taken.items }
    ensures outcome { IfOk result (λ found. MatchOption found
        (CanStandOn (B.trees board.now.bank.now) (map fact_of board.now.hyps.now)
        board.now.ending placing.old.binds.pairs placing.old.taken.items (fact_of fact.now)
        (map (λ f. fact_of f.now) rest.now) p → ⊥)
        (λ row. HoldsOn (B.trees board.now.bank.now) (map fact_of board.now.hyps.now)
        board.now.ending placing.old.binds.pairs placing.old.taken.items
        (fact_of fact.now ∷ (map (λ f. fact_of f.now) rest.now)) (p ∷ row.items))) }
{
    let level = placing.binds.level();
    if !put(board, placing, fact, p)? {
        return Ok(None);
    }
    let found = placed_apart(board, placing, rest);
    take_back(placing, level, p);
    found
}
