//! Placing hypotheses at positions, one at a time.

ghost use Rattle.std.specs.Prelude.{◌≡◌, ◌-◌, ◌<◌, ◌≤◌, [], false, length, map, set, drop, IfOk};
ghost use Rattle.std.specs.Prelude.{OnErr, MatchBool, MatchOption};
ghost use Rattle.unify_match.specs.Trail.{Extends};
ghost use Rattle.clause_form.specs.Facts.{fact_of};
ghost use Rattle.clause_form.specs.Seen.{fact_at, IsFactIn};
ghost use Rattle.spec_placements.specs.Placing.{NoFactMatch};
ghost use Rattle.fact_placing.specs.Boards.{IsBoard, IsPlacing, IsAsBefore, IsBegun, IsPut};
ghost use Rattle.fact_placing.specs.Boards.{CannotPut};

use crate::board::Board;
use crate::matching::match_fact;
use clause_form::Fact;
use std::alloc::AllocError;
use term_tree::Bank;
use unify_match::Binds;

/// How far hypotheses are placed: what variables are bound to, and which positions are taken.
#[derive(Drop)]
pub struct Placing {
    pub binds: Binds,
    pub taken: Vec<bool>,
}

/// Nothing is placed, and the conclusions are matched; `None` where they don't match.
pub fn begun<B: Bank>(
    board: &Board<'_, B>,
    general: &Fact,
    special: &Fact,
) -> Result<Option<Placing>, AllocError>
    requires board { IsBoard (B.trees board.now.bank.now) (map fact_of board.now.hyps.now) }
    requires general { IsFactIn (B.trees board.now.bank.now) (fact_of general.now) }
    requires special { IsFactIn (B.trees board.now.bank.now) (fact_of special.now) }
    ensures { let all = B.trees board.now.bank.now in IfOk result
        (λ found. MatchOption found (NoFactMatch [] (fact_at all (fact_of general.now))
        (fact_at all (fact_of special.now))) (λ placing. IsBegun all
        (map fact_of board.now.hyps.now) (fact_of general.now) (fact_of special.now)
        placing.binds.pairs placing.taken.items)) }
{
    let mut binds = Binds::new(board.alloc)?;
    if !match_fact(board.bank, general, special, &mut binds)? {
        return Ok(None);
    }
    let taken = vec![in board.alloc; false; board.hyps.len()]?;
    Ok(Some(Placing { binds, taken }))
}

/// Places a fact at a position, which counts from 0 here; false, and nothing placed, where the position is taken or
/// the fact doesn't match what stands there.
pub fn put<B: Bank>(
    board: &Board<'_, B>,
    placing: &mut Placing,
    fact: &Fact,
    p: usize,
) -> Result<bool, AllocError>
    requires board { IsBoard (B.trees board.now.bank.now) (map fact_of board.now.hyps.now) }
    requires placing { IsPlacing (B.trees board.now.bank.now) (map fact_of board.now.hyps.now)
        placing.old.binds.pairs placing.old.taken.items }
    requires fact { IsFactIn (B.trees board.now.bank.now) (fact_of fact.now) }
    requires position { p < length board.now.hyps.now }
    ensures placing { IsPlacing (B.trees board.now.bank.now) (map fact_of board.now.hyps.now)
        placing.new.binds.pairs placing.new.taken.items }
    ensures extends { Extends placing.old.binds.pairs placing.new.binds.pairs }
    ensures outcome { let all = B.trees board.now.bank.now in IfOk result
        (λ yes. MatchBool yes (IsPut all (map fact_of board.now.hyps.now) placing.old.binds.pairs
        placing.new.binds.pairs placing.old.taken.items placing.new.taken.items (fact_of fact.now)
        p) (CannotPut all (map fact_of board.now.hyps.now) placing.old.binds.pairs
        placing.old.taken.items (fact_of fact.now) p)) }
    ensures refused { IfOk result (λ yes. yes ≡ false → IsAsBefore placing.old.binds.pairs
        placing.new.binds.pairs placing.old.taken.items placing.new.taken.items) }
    ensures err { OnErr result (IsAsBefore placing.old.binds.pairs placing.new.binds.pairs
        placing.old.taken.items placing.new.taken.items) }
{
    if placing.taken[p] {
        return Ok(false);
    }
    if !match_fact(board.bank, fact, &board.hyps[p], &mut placing.binds)? {
        return Ok(false);
    }
    placing.taken[p] = true;
    Ok(true)
}

/// Takes back what was put at a position since there were so many bindings.
pub fn take_back(placing: &mut Placing, level: usize, p: usize)
    requires level { level ≤ length placing.old.binds.pairs }
    requires position { p < length placing.old.taken.items }
    ensures bindings { placing.new.binds.pairs ≡ drop (length placing.old.binds.pairs - level)
        placing.old.binds.pairs }
    ensures flags { placing.new.taken.items ≡ set placing.old.taken.items p false }
{
    placing.binds.undo(level);
    placing.taken[p] = false;
}

/// Whether the fact can be put at a position.
pub fn fits<B: Bank>(
    board: &Board<'_, B>,
    placing: &mut Placing,
    fact: &Fact,
    p: usize,
) -> Result<bool, AllocError>
    requires board { IsBoard (B.trees board.now.bank.now) (map fact_of board.now.hyps.now) }
    requires placing { IsPlacing (B.trees board.now.bank.now) (map fact_of board.now.hyps.now)
        placing.old.binds.pairs placing.old.taken.items }
    requires fact { IsFactIn (B.trees board.now.bank.now) (fact_of fact.now) }
    requires position { p < length board.now.hyps.now }
    ensures same { IsAsBefore placing.old.binds.pairs placing.new.binds.pairs
        placing.old.taken.items placing.new.taken.items }
    ensures refused { IfOk result (λ yes. yes ≡ false → CannotPut (B.trees board.now.bank.now)
        (map fact_of board.now.hyps.now) placing.old.binds.pairs placing.old.taken.items
        (fact_of fact.now) p) }
{
    let level = placing.binds.level();
    if !put(board, placing, fact, p)? {
        return Ok(false);
    }
    take_back(placing, level, p);
    Ok(true)
}
