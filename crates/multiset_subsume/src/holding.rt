//! Whether a row holds: no search.

ghost use Rattle.std.specs.Prelude.{◌≡◌, ◌↔◌, ℕ, suc, IsTrue, List, [], map, IfOk, MatchBool};
ghost use Rattle.spec_terms.specs.Binding.{Binding};
ghost use Rattle.spec_clauses.specs.Norm.{IsNormal};
ghost use Rattle.spec_clauses.specs.Limits.{IsWithinLimit};
ghost use Rattle.spec_clauses.specs.Subsumption.{RowHolds};
ghost use Rattle.spec_placements.specs.Placing.{FactMatched, AreLinked, linked_variables};
ghost use Rattle.clause_diffs.specs.Diffs.{diffs_at};
ghost use Rattle.clause_form.specs.Facts.{fact_of};
ghost use Rattle.clause_form.specs.Seen.{fact_at, clause_at, IsFactIn, AreFactsIn, IsClauseIn};
ghost use Rattle.fact_placing.specs.Boards.{facts_at, loose_seen, IsBoard, IsEndingIn, IsPlacing, IsPut};
ghost use Rattle.fact_placing.specs.Boards.{CannotPut, ArePut, AreLinkedOn, HoldsNotOn, HoldsByOn};
ghost use Rattle.fact_placing.specs.Boards.{HoldsWith, FailsWith};

use crate::ending::may_go_on;
use crate::row::Row;
use clause_form::{Clause, Fact};
use fact_placing::board::{Board, Ending, firm_of, loose_of};
use fact_placing::placing::{Placing, begun, put};
use std::alloc::{AllocError, Global};
use term_tree::Bank;

/// Puts a fact at a position of a row.
fn put_at<B: Bank>(
    board: &Board<'_, B>,
    placing: &mut Placing,
    fact: &Fact,
    position: u32,
) -> Result<bool, AllocError>
    requires board { IsBoard (B.trees board.now.bank.now) (map fact_of board.now.hyps.now) }
    requires placing { IsPlacing (B.trees board.now.bank.now) (map fact_of board.now.hyps.now)
        placing.old.binds.pairs placing.old.taken.items }
    requires fact { IsFactIn (B.trees board.now.bank.now) (fact_of fact.now) }
    ensures placing { IsPlacing (B.trees board.now.bank.now) (map fact_of board.now.hyps.now)
        placing.new.binds.pairs placing.new.taken.items }
    ensures outcome { let all = B.trees board.now.bank.now in IfOk result
        (λ yes. MatchBool yes ((p : ℕ) × (position ≡ suc p) × IsPut all
        (map fact_of board.now.hyps.now) placing.old.binds.pairs placing.new.binds.pairs
        placing.old.taken.items placing.new.taken.items (fact_of fact.now) p)
        ((p : ℕ) → position ≡ suc p → CannotPut all (map fact_of board.now.hyps.now)
        placing.old.binds.pairs placing.old.taken.items (fact_of fact.now) p)) }
{
    let place = position as usize;
    if place == 0 {
        return Ok(false);
    }
    if place > board.hyps.len() {
        return Ok(false);
    }
    put(board, placing, fact, place - 1)
}

/// Puts facts at the positions of a row, one each.
fn put_along<B: Bank>(
    board: &Board<'_, B>,
    placing: &mut Placing,
    facts: &[&Fact],
    row: &[u32],
) -> Result<bool, AllocError>
    requires board { IsBoard (B.trees board.now.bank.now) (map fact_of board.now.hyps.now) }
    requires placing { IsPlacing (B.trees board.now.bank.now) (map fact_of board.now.hyps.now)
        placing.old.binds.pairs placing.old.taken.items }
    requires facts { AreFactsIn (B.trees board.now.bank.now) (map (λ f. fact_of f.now) facts.now) }
    ensures placing { IsPlacing (B.trees board.now.bank.now) (map fact_of board.now.hyps.now)
        placing.new.binds.pairs placing.new.taken.items }
    ensures outcome { let all = B.trees board.now.bank.now in IfOk result
        (λ yes. MatchBool yes (ArePut all (map fact_of board.now.hyps.now) board.now.ending
        placing.old.binds.pairs placing.new.binds.pairs placing.old.taken.items
        placing.new.taken.items (map (λ f. fact_of f.now) facts.now) row.now)
        (HoldsNotOn all (map fact_of board.now.hyps.now) board.now.ending
        placing.old.binds.pairs placing.old.taken.items (map (λ f. fact_of f.now) facts.now)
        row.now)) }
{
    if facts.len() != row.len() {
        return Ok(false);
    }
    'each: for (k, fact) in facts.iter().enumerate() {
        if !put_at(board, placing, *fact, row[k])? {
            return Ok(false);
        }
    }
    Ok(true)
}

/// Whether the row holds the facts, once the conclusions are matched.
fn holds_from<B: Bank>(
    board: &Board<'_, B>,
    mut placing: Placing,
    facts: &[&Fact],
    row: &[u32],
) -> Result<bool, AllocError>
    requires board { IsBoard (B.trees board.now.bank.now) (map fact_of board.now.hyps.now) }
    requires placing { IsPlacing (B.trees board.now.bank.now) (map fact_of board.now.hyps.now)
        placing.binds.pairs placing.taken.items }
    requires facts { AreFactsIn (B.trees board.now.bank.now) (map (λ f. fact_of f.now) facts.now) }
    requires linked { AreLinkedOn (B.trees board.now.bank.now) board.now.ending
        placing.binds.pairs (map (λ f. fact_of f.now) facts.now) }
    requires ending { IsEndingIn (B.trees board.now.bank.now) board.now.ending }
    ensures { let all = B.trees board.now.bank.now in IfOk result
        (λ yes. MatchBool yes (HoldsByOn all (map fact_of board.now.hyps.now) board.now.ending
        placing.binds.pairs placing.taken.items (map (λ f. fact_of f.now) facts.now) row.now)
        (HoldsNotOn all (map fact_of board.now.hyps.now) board.now.ending placing.binds.pairs
        placing.taken.items (map (λ f. fact_of f.now) facts.now) row.now)) }
{
    if !put_along(board, &mut placing, facts, row)? {
        return Ok(false);
    }
    may_go_on(board, &placing)
}

/// Whether the row holds the facts, and the conclusions match.
fn holds_matched<B: Bank>(
    board: &Board<'_, B>,
    facts: &[&Fact],
    general: &Fact,
    special: &Fact,
    row: &[u32],
) -> Result<bool, AllocError>
    requires board { IsBoard (B.trees board.now.bank.now) (map fact_of board.now.hyps.now) }
    requires facts { AreFactsIn (B.trees board.now.bank.now) (map (λ f. fact_of f.now) facts.now) }
    requires general { IsFactIn (B.trees board.now.bank.now) (fact_of general.now) }
    requires special { IsFactIn (B.trees board.now.bank.now) (fact_of special.now) }
    requires linked { let all = B.trees board.now.bank.now in (bs : List Binding) → FactMatched []
        bs (fact_at all (fact_of general.now)) (fact_at all (fact_of special.now)) → AreLinked bs
        (linked_variables (map loose_seen board.now.ending.loose.now)
        (diffs_at all board.now.ending.diffs.now))
        (facts_at all (map (λ f. fact_of f.now) facts.now)) }
    requires ending { IsEndingIn (B.trees board.now.bank.now) board.now.ending }
    ensures { let all = B.trees board.now.bank.now in IfOk result
        (λ yes. MatchBool yes (HoldsWith all (map fact_of board.now.hyps.now) board.now.ending
        (map (λ f. fact_of f.now) facts.now) (fact_of general.now) (fact_of special.now) row.now)
        (FailsWith all (map fact_of board.now.hyps.now) board.now.ending
        (map (λ f. fact_of f.now) facts.now) (fact_of general.now) (fact_of special.now) row.now)) }
{
    match begun(board, general, special)? {
        None => Ok(false),
        Some(placing) => holds_from(board, placing, facts, row),
    }
}

/// Whether the row holds for the two clauses. Nothing is searched for. The conditions hold of norms within the limit of
/// size.
///
/// `Err` comes for want of memory, and where constraints are compared and variables of the special clause are numbered past 31
/// bits: those of norms within the limit aren't.
pub fn row_holds<'a, B: Bank>(
    alloc: Global,
    bank: &'a B,
    general: &'a Clause,
    special: &'a Clause,
    row: &Row,
) -> Result<bool, AllocError>
    requires general { IsClauseIn (B.trees bank.now) general.now }
    requires special { IsClauseIn (B.trees bank.now) special.now }
    requires normal { IsNormal (clause_at (B.trees bank.now) general.now) }
    requires small { IsWithinLimit (clause_at (B.trees bank.now) special.now) }
    ensures { IfOk result (λ yes. IsTrue yes ↔ RowHolds (clause_at (B.trees bank.now) general.now)
        (clause_at (B.trees bank.now) special.now) row.now) }
{
    let facts = firm_of(alloc, bank, &general.hyps.items)?;
    let loose = loose_of(alloc, bank, &general.hyps.items)?;
    let board = Board {
        alloc,
        bank,
        hyps: &special.hyps.items,
        ending: Ending {
            loose: &loose,
            diffs: &general.diffs.items,
            kept_in: &special.diffs.items,
        },
        is_divided: false,
    };
    holds_matched(&board, &facts, &general.concl, &special.concl, &row.items)
}
