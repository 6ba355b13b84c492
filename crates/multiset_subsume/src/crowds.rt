//! Which hypothesis is placed next, and when there are more than positions.

ghost use Rattle.std.specs.Prelude.{◌≡◌, ℕ, ◌<◌, ◌≤◌, cond, get_or, false, true, length, map};
ghost use Rattle.std.specs.Prelude.{IfOk, MatchOption};
ghost use Rattle.unify_match.specs.Seen.{seen};
ghost use Rattle.clause_form.specs.Facts.{fact_of};
ghost use Rattle.clause_form.specs.Seen.{fact_at, IsFactIn, AreFactsIn};
ghost use Rattle.spec_placements.specs.Crowds.{room, IsConfined, AreConfined};
ghost use Rattle.fact_placing.specs.Boards.{facts_at, IsBoard, IsPlacing, IsAsBefore};
ghost use Rattle.fact_placing.specs.Boards.{CannotPut, CanPlaceOn};

use crate::linking::in_largest_part;
use clause_form::Fact;
use fact_placing::board::Board;
use fact_placing::placing::{Placing, fits};
use std::alloc::AllocError;
use term_tree::Bank;

/// Positions are counted up to this number when the most constrained hypothesis is looked for.
const MOST_COUNTED: usize = 5;

/// One where the test passes.
fn one_if(passed: bool) -> usize
    ensures is { result ≡ cond passed 1 0 }
    ensures at_most { result ≤ 1 }
{
    if passed { 1 } else { 0 }
}

/// At how many positions the fact can be put; where there are `enough`, at least so many.
fn count_fitting<B: Bank>(
    board: &Board<'_, B>,
    placing: &mut Placing,
    fact: &Fact,
    enough: usize,
) -> Result<usize, AllocError>
    requires board { IsBoard (B.trees board.now.bank.now) (map fact_of board.now.hyps.now) }
    requires placing { IsPlacing (B.trees board.now.bank.now) (map fact_of board.now.hyps.now)
        placing.old.binds.pairs placing.old.taken.items }
    requires fact { IsFactIn (B.trees board.now.bank.now) (fact_of fact.now) }
    ensures same { IsAsBefore placing.old.binds.pairs placing.new.binds.pairs
        placing.old.taken.items placing.new.taken.items }
{
    let mut count = 0usize;
    'each: for p in 0..board.hyps.len() {
        count += one_if(fits(board, placing, fact, p)?);
        if count >= enough {
            return Ok(count);
        }
    }
    Ok(count)
}

/// A fact, by its index, and at how many positions it can be put.
#[derive(Clone, Copy)]
struct Choice {
    at: usize,
    count: usize,
}

/// The one with fewer positions.
fn fewer(first: Choice, second: Choice) -> Choice
    ensures { (n : ℕ) → first.at < n → second.at < n → result.at < n }
{
    if second.count < first.count {
        second
    } else {
        first
    }
}

/// Which of the facts can be put at the fewest positions, as far as these are counted.
fn most_constrained<B: Bank>(
    board: &Board<'_, B>,
    placing: &mut Placing,
    unplaced: &[&Fact],
) -> Result<Choice, AllocError>
    requires board { IsBoard (B.trees board.now.bank.now) (map fact_of board.now.hyps.now) }
    requires placing { IsPlacing (B.trees board.now.bank.now) (map fact_of board.now.hyps.now)
        placing.old.binds.pairs placing.old.taken.items }
    requires facts { AreFactsIn (B.trees board.now.bank.now)
        (map (λ f. fact_of f.now) unplaced.now) }
    requires some { 0 < length unplaced.now }
    ensures same { IsAsBefore placing.old.binds.pairs placing.new.binds.pairs
        placing.old.taken.items placing.new.taken.items }
    ensures index { IfOk result (λ choice. choice.at < length unplaced.now) }
{
    let mut choice = Choice {
        at: 0,
        count: MOST_COUNTED,
    };
    'each: for (i, fact) in unplaced.iter().enumerate() {
        let count = count_fitting(board, placing, *fact, choice.count)?;
        choice = fewer(choice, Choice { at: i, count });
        if choice.count <= 1 {
            return Ok(choice);
        }
    }
    Ok(choice)
}

/// The positions at which the fact can be put.
fn area_of<B: Bank>(
    board: &Board<'_, B>,
    placing: &mut Placing,
    fact: &Fact,
) -> Result<Vec<bool>, AllocError>
    requires board { IsBoard (B.trees board.now.bank.now) (map fact_of board.now.hyps.now) }
    requires placing { IsPlacing (B.trees board.now.bank.now) (map fact_of board.now.hyps.now)
        placing.old.binds.pairs placing.old.taken.items }
    requires fact { IsFactIn (B.trees board.now.bank.now) (fact_of fact.now) }
    ensures same { IsAsBefore placing.old.binds.pairs placing.new.binds.pairs
        placing.old.taken.items placing.new.taken.items }
    ensures flags { IfOk result (λ area. length area.items ≡ length board.now.hyps.now) }
{
    let mut area = Vec::new(board.alloc);
    'each: for p in 0..board.hyps.len() {
        let inside = fits(board, placing, fact, p)?;
        area.push(inside)?;
    }
    Ok(area)
}

/// Whether the fact can be put at a position that isn't in the area.
fn fits_outside<B: Bank>(
    board: &Board<'_, B>,
    placing: &mut Placing,
    fact: &Fact,
    area: &[bool],
    p: usize,
) -> Result<bool, AllocError>
    requires board { IsBoard (B.trees board.now.bank.now) (map fact_of board.now.hyps.now) }
    requires placing { IsPlacing (B.trees board.now.bank.now) (map fact_of board.now.hyps.now)
        placing.old.binds.pairs placing.old.taken.items }
    requires fact { IsFactIn (B.trees board.now.bank.now) (fact_of fact.now) }
    requires position { p < length board.now.hyps.now }
    requires flags { length area.now ≡ length board.now.hyps.now }
    ensures same { IsAsBefore placing.old.binds.pairs placing.new.binds.pairs
        placing.old.taken.items placing.new.taken.items }
    ensures refused { IfOk result (λ yes. yes ≡ false → get_or area.now p false ≡ false → CannotPut
        (B.trees board.now.bank.now) (map fact_of board.now.hyps.now) placing.old.binds.pairs
        placing.old.taken.items (fact_of fact.now) p) }
{
    if area[p] {
        return Ok(false);
    }
    fits(board, placing, fact, p)
}

/// Whether the fact can be put nowhere but in the area.
fn fits_only<B: Bank>(
    board: &Board<'_, B>,
    placing: &mut Placing,
    fact: &Fact,
    area: &[bool],
) -> Result<bool, AllocError>
    requires board { IsBoard (B.trees board.now.bank.now) (map fact_of board.now.hyps.now) }
    requires placing { IsPlacing (B.trees board.now.bank.now) (map fact_of board.now.hyps.now)
        placing.old.binds.pairs placing.old.taken.items }
    requires fact { IsFactIn (B.trees board.now.bank.now) (fact_of fact.now) }
    requires flags { length area.now ≡ length board.now.hyps.now }
    ensures same { IsAsBefore placing.old.binds.pairs placing.new.binds.pairs
        placing.old.taken.items placing.new.taken.items }
    ensures confined { let all = B.trees board.now.bank.now in IfOk result
        (λ yes. yes ≡ true → IsConfined (seen all placing.old.binds.pairs) placing.old.taken.items
        (facts_at all (map fact_of board.now.hyps.now)) area.now (fact_at all (fact_of fact.now))) }
{
    'each: for p in 0..board.hyps.len() {
        if fits_outside(board, placing, fact, area, p)? {
            return Ok(false);
        }
    }
    Ok(true)
}

/// How many positions an area has.
fn room_of(area: &[bool]) -> usize
    ensures { result ≡ room area.now }
{
    let mut count = 0usize;
    'each: for inside in area {
        count += one_if(*inside);
    }
    count
}

/// How many of the facts can be put nowhere but in the area.
fn count_confined<B: Bank>(
    board: &Board<'_, B>,
    placing: &mut Placing,
    unplaced: &[&Fact],
    area: &[bool],
) -> Result<usize, AllocError>
    requires board { IsBoard (B.trees board.now.bank.now) (map fact_of board.now.hyps.now) }
    requires placing { IsPlacing (B.trees board.now.bank.now) (map fact_of board.now.hyps.now)
        placing.old.binds.pairs placing.old.taken.items }
    requires facts { AreFactsIn (B.trees board.now.bank.now)
        (map (λ f. fact_of f.now) unplaced.now) }
    requires flags { length area.now ≡ length board.now.hyps.now }
    ensures same { IsAsBefore placing.old.binds.pairs placing.new.binds.pairs
        placing.old.taken.items placing.new.taken.items }
    ensures confined { let all = B.trees board.now.bank.now in IfOk result
        (λ n. AreConfined (seen all placing.old.binds.pairs) placing.old.taken.items
        (facts_at all (map fact_of board.now.hyps.now)) area.now
        (facts_at all (map (λ f. fact_of f.now) unplaced.now)) n) }
{
    let mut count = 0usize;
    'each: for fact in unplaced {
        count += one_if(fits_only(board, placing, *fact, area)?);
    }
    Ok(count)
}

/// Whether more facts fit only where the chosen one does than there are such positions. It isn't asked where there is
/// one such position at most: placing the fact tells as much.
fn overcrowded<B: Bank>(
    board: &Board<'_, B>,
    placing: &mut Placing,
    unplaced: &[&Fact],
    choice: Choice,
) -> Result<bool, AllocError>
    requires board { IsBoard (B.trees board.now.bank.now) (map fact_of board.now.hyps.now) }
    requires placing { IsPlacing (B.trees board.now.bank.now) (map fact_of board.now.hyps.now)
        placing.old.binds.pairs placing.old.taken.items }
    requires facts { AreFactsIn (B.trees board.now.bank.now)
        (map (λ f. fact_of f.now) unplaced.now) }
    requires index { choice.at < length unplaced.now }
    ensures same { IsAsBefore placing.old.binds.pairs placing.new.binds.pairs
        placing.old.taken.items placing.new.taken.items }
    ensures crowded { IfOk result (λ yes. yes ≡ true → CanPlaceOn (B.trees board.now.bank.now)
        (map fact_of board.now.hyps.now) board.now.ending placing.old.binds.pairs
        placing.old.taken.items (map (λ f. fact_of f.now) unplaced.now) → ⊥) }
{
    if choice.count <= 1 {
        return Ok(false);
    }
    let area = area_of(board, placing, unplaced[choice.at])?;
    let count = count_confined(board, placing, unplaced, &area)?;
    Ok(count > room_of(&area))
}

/// The index of the fact to be placed next, the most constrained, or one of the largest part where none is constrained;
/// `None` where there are more facts than positions for them.
pub(crate) fn next_of<B: Bank>(
    board: &Board<'_, B>,
    placing: &mut Placing,
    unplaced: &[&Fact],
) -> Result<Option<usize>, AllocError>
    requires board { IsBoard (B.trees board.now.bank.now) (map fact_of board.now.hyps.now) }
    requires placing { IsPlacing (B.trees board.now.bank.now) (map fact_of board.now.hyps.now)
        placing.old.binds.pairs placing.old.taken.items }
    requires facts { AreFactsIn (B.trees board.now.bank.now)
        (map (λ f. fact_of f.now) unplaced.now) }
    requires some { 0 < length unplaced.now }
    ensures same { IsAsBefore placing.old.binds.pairs placing.new.binds.pairs
        placing.old.taken.items placing.new.taken.items }
    ensures outcome { IfOk result (λ found. MatchOption found
        (CanPlaceOn (B.trees board.now.bank.now) (map fact_of board.now.hyps.now)
        board.now.ending placing.old.binds.pairs placing.old.taken.items
        (map (λ f. fact_of f.now) unplaced.now) → ⊥) (λ at. at < length unplaced.now)) }
{
    let choice = most_constrained(board, placing, unplaced)?;
    if overcrowded(board, placing, unplaced, choice)? {
        return Ok(None);
    }
    if choice.count < MOST_COUNTED {
        return Ok(Some(choice.at));
    }
    if !board.is_divided {
        return Ok(Some(choice.at));
    }
    let at = in_largest_part(board, &placing.binds, unplaced)?;
    Ok(Some(at))
}
