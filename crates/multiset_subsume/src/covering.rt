//! The first row.

ghost use Rattle.std.specs.Prelude.{◌<◌, ◌∷◌, ℕ, List, map, IfOk, MatchOption};
ghost use Rattle.spec_clauses.specs.Norm.{IsNormal};
ghost use Rattle.spec_clauses.specs.Limits.{IsWithinLimit};
ghost use Rattle.spec_clauses.specs.Subsumption.{Subsumes, RowHolds, IsFirstRow};
ghost use Rattle.clause_form.specs.Facts.{fact_of};
ghost use Rattle.clause_form.specs.Seen.{clause_at, IsFactIn, AreFactsIn, IsClauseIn};
ghost use Rattle.fact_placing.specs.Boards.{IsBoard, IsEndingIn, IsPlacing, IsAsBefore};
ghost use Rattle.fact_placing.specs.Boards.{AreLinkedOn, CanPlaceOn, HoldsOn, IsLeastRow};
ghost use Rattle.fact_placing.specs.Boards.{IsNextRow, IsFirstByOn};

use crate::parts::{placed_apart, stands_apart};
use crate::quick::shows_no_row;
use crate::row::Row;
use clause_form::{Clause, Fact};
use fact_placing::board::{Board, Ending, firm_of, loose_of};
use fact_placing::placing::{Placing, begun, put};
use std::alloc::{AllocError, Global};
use term_tree::Bank;

/// The row with the least position for the fact: that of the row that is known, or one before it.
fn least_row<B: Bank>(
    board: &Board<'_, B>,
    placing: &mut Placing,
    fact: &Fact,
    rest: &[&Fact],
    known: Vec<usize>,
) -> Result<Vec<usize>, AllocError>
    requires board { IsBoard (B.trees board.now.bank.now) (map fact_of board.now.hyps.now) }
    requires placing { IsPlacing (B.trees board.now.bank.now) (map fact_of board.now.hyps.now)
        placing.old.binds.pairs placing.old.taken.items }
    requires fact { IsFactIn (B.trees board.now.bank.now) (fact_of fact.now) }
    requires rest { AreFactsIn (B.trees board.now.bank.now) (map (λ f. fact_of f.now) rest.now) }
    requires linked { AreLinkedOn (B.trees board.now.bank.now) board.now.ending
        placing.old.binds.pairs (fact_of fact.now ∷ (map (λ f. fact_of f.now) rest.now)) }
    requires known { HoldsOn (B.trees board.now.bank.now) (map fact_of board.now.hyps.now)
        board.now.ending placing.old.binds.pairs placing.old.taken.items
        (fact_of fact.now ∷ (map (λ f. fact_of f.now) rest.now)) known.items }
    requires ending { IsEndingIn (B.trees board.now.bank.now) board.now.ending }
    ensures same { IsAsBefore placing.old.binds.pairs placing.new.binds.pairs
        placing.old.taken.items placing.new.taken.items }
    ensures outcome { IfOk result (λ row. IsLeastRow (B.trees board.now.bank.now)
        (map fact_of board.now.hyps.now) board.now.ending placing.old.binds.pairs
        placing.old.taken.items (fact_of fact.now) (map (λ f. fact_of f.now) rest.now) row.items) }
{
    let end = known[0];
    'each: for p in 0..end {
        match stands_apart(board, placing, fact, rest, p)? {
            None => {}
            Some(mut row) => {
                row.insert(0, p)?;
                return Ok(row);
            }
        }
    }
    Ok(known)
}

/// Places the fact at the least position, and gives the row with it.
fn place_first<B: Bank>(
    board: &Board<'_, B>,
    placing: &mut Placing,
    fact: &Fact,
    rest: &[&Fact],
    known: Vec<usize>,
) -> Result<Vec<usize>, AllocError>
    requires board { IsBoard (B.trees board.now.bank.now) (map fact_of board.now.hyps.now) }
    requires placing { IsPlacing (B.trees board.now.bank.now) (map fact_of board.now.hyps.now)
        placing.old.binds.pairs placing.old.taken.items }
    requires fact { IsFactIn (B.trees board.now.bank.now) (fact_of fact.now) }
    requires rest { AreFactsIn (B.trees board.now.bank.now) (map (λ f. fact_of f.now) rest.now) }
    requires linked { AreLinkedOn (B.trees board.now.bank.now) board.now.ending
        placing.old.binds.pairs (fact_of fact.now ∷ (map (λ f. fact_of f.now) rest.now)) }
    requires known { HoldsOn (B.trees board.now.bank.now) (map fact_of board.now.hyps.now)
        board.now.ending placing.old.binds.pairs placing.old.taken.items
        (fact_of fact.now ∷ (map (λ f. fact_of f.now) rest.now)) known.items }
    requires ending { IsEndingIn (B.trees board.now.bank.now) board.now.ending }
    ensures placing { IsPlacing (B.trees board.now.bank.now) (map fact_of board.now.hyps.now)
        placing.new.binds.pairs placing.new.taken.items }
    ensures outcome { IfOk result (λ row. IsNextRow (B.trees board.now.bank.now)
        (map fact_of board.now.hyps.now) board.now.ending placing.old.binds.pairs
        placing.new.binds.pairs placing.old.taken.items placing.new.taken.items (fact_of fact.now)
        (map (λ f. fact_of f.now) rest.now) row.items) }
{
    let row = least_row(board, placing, fact, rest, known)?;
    let _ = put(board, placing, fact, row[0])?;
    Ok(row)
}

/// The first row, from a row that is known.
fn ordered<B: Bank>(
    board: &Board<'_, B>,
    mut placing: Placing,
    facts: &[&Fact],
    known: Vec<usize>,
) -> Result<Row, AllocError>
    requires board { IsBoard (B.trees board.now.bank.now) (map fact_of board.now.hyps.now) }
    requires placing { IsPlacing (B.trees board.now.bank.now) (map fact_of board.now.hyps.now)
        placing.binds.pairs placing.taken.items }
    requires facts { AreFactsIn (B.trees board.now.bank.now) (map (λ f. fact_of f.now) facts.now) }
    requires linked { AreLinkedOn (B.trees board.now.bank.now) board.now.ending
        placing.binds.pairs (map (λ f. fact_of f.now) facts.now) }
    requires known { HoldsOn (B.trees board.now.bank.now) (map fact_of board.now.hyps.now)
        board.now.ending placing.binds.pairs placing.taken.items
        (map (λ f. fact_of f.now) facts.now) known.items }
    requires ending { IsEndingIn (B.trees board.now.bank.now) board.now.ending }
    ensures { IfOk result (λ row. IsFirstByOn (B.trees board.now.bank.now)
        (map fact_of board.now.hyps.now) board.now.ending placing.binds.pairs
        placing.taken.items (map (λ f. fact_of f.now) facts.now) row) }
{
    let mut row = known;
    let mut items = Vec::with_capacity(board.alloc, facts.len())?;
    'each: for k in 0..facts.len() {
        row = place_first(board, &mut placing, facts[k], &facts[k + 1..], row)?;
        let position = row.remove(0);
        items.push(position as u32 + 1)?;
    }
    Ok(Row { items })
}

/// The first row for the facts, if there is one.
fn first_row<B: Bank>(
    board: &Board<'_, B>,
    mut placing: Placing,
    facts: &[&Fact],
) -> Result<Option<Row>, AllocError>
    requires board { IsBoard (B.trees board.now.bank.now) (map fact_of board.now.hyps.now) }
    requires placing { IsPlacing (B.trees board.now.bank.now) (map fact_of board.now.hyps.now)
        placing.binds.pairs placing.taken.items }
    requires facts { AreFactsIn (B.trees board.now.bank.now) (map (λ f. fact_of f.now) facts.now) }
    requires linked { AreLinkedOn (B.trees board.now.bank.now) board.now.ending
        placing.binds.pairs (map (λ f. fact_of f.now) facts.now) }
    requires ending { IsEndingIn (B.trees board.now.bank.now) board.now.ending }
    ensures { IfOk result (λ found. MatchOption found
        (CanPlaceOn (B.trees board.now.bank.now) (map fact_of board.now.hyps.now)
        board.now.ending placing.binds.pairs placing.taken.items
        (map (λ f. fact_of f.now) facts.now) → ⊥)
        (λ row. IsFirstByOn (B.trees board.now.bank.now) (map fact_of board.now.hyps.now)
        board.now.ending placing.binds.pairs placing.taken.items
        (map (λ f. fact_of f.now) facts.now) row)) }
{
    match placed_apart(board, &mut placing, facts)? {
        None => Ok(None),
        Some(known) => Ok(Some(ordered(board, placing, facts, known)?)),
    }
}

/// The first row that holds for the two clauses, in dictionary order, or `None` where there is none, and the general
/// clause doesn't subsume the special one. The conditions hold of norms within the limit of size. Where predicates or
/// numbers of hypotheses differ, so that no row holds, it takes no memory.
///
/// `Err` comes for want of memory, and where constraints are compared and variables of the special clause are numbered past 31
/// bits: those of norms within the limit aren't.
pub fn cover_row<B: Bank>(
    alloc: Global,
    bank: &B,
    general: &Clause,
    special: &Clause,
) -> Result<Option<Row>, AllocError>
    requires general { IsClauseIn (B.trees bank.now) general.now }
    requires special { IsClauseIn (B.trees bank.now) special.now }
    requires normal { IsNormal (clause_at (B.trees bank.now) general.now) }
    requires small { IsWithinLimit (clause_at (B.trees bank.now) special.now) }
    ensures row { IfOk result (λ found. MatchOption found
        ((row : List ℕ) → RowHolds (clause_at (B.trees bank.now) general.now)
        (clause_at (B.trees bank.now) special.now) row → ⊥)
        (λ row. IsFirstRow (clause_at (B.trees bank.now) general.now)
        (clause_at (B.trees bank.now) special.now) row)) }
    ensures subsumes { IfOk result (λ found. MatchOption found
        (Subsumes (clause_at (B.trees bank.now) general.now)
        (clause_at (B.trees bank.now) special.now) → ⊥)
        (λ row. Subsumes (clause_at (B.trees bank.now) general.now)
        (clause_at (B.trees bank.now) special.now))) }
{
    if shows_no_row(bank, general, special) {
        return Ok(None);
    }
    let matching = Board {
        alloc,
        bank,
        hyps: &special.hyps.items,
        ending: Ending {
            diffs: &general.diffs.items,
            kept_in: &special.diffs.items,
            loose: &[],
        },
        is_divided: false,
    };
    match begun(&matching, &general.concl, &special.concl)? {
        None => Ok(None),
        Some(placing) => {
            let facts = firm_of(alloc, bank, &general.hyps.items)?;
            let loose = loose_of(alloc, bank, &general.hyps.items)?;
            let ending = Ending {
                loose: &loose,
                diffs: matching.ending.diffs,
                kept_in: matching.ending.kept_in,
            };
            let board = Board { ending, ..matching };
            first_row(&board, placing, &facts)
        }
    }
}
