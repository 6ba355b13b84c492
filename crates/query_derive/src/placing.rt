//! Positions of events among the hypotheses of a clause.

ghost use Rattle.std.specs.Prelude.{◌≡◌, ◌^◌, ◌<◌, ℕ, List, true, false, None, length, map, IfOk, IfSome, IfNone};
ghost use Rattle.spec_clauses.specs.Subsumption.{hypothesis_at};
ghost use Rattle.unify_match.specs.Seen.{AreBindings};
ghost use Rattle.clause_form.specs.Facts.{fact_of};
ghost use Rattle.clause_form.specs.Seen.{fact_at, AreFactsIn};
ghost use Rattle.query_derive.specs.Sought.{AreAt};
ghost use Rattle.query_derive.specs.Narrowing.{Narrows, Excludes, ArePlaced, AreFirstPlaced};
ghost use Rattle.query_derive.specs.Wanted.{event_fact};

use crate::matching::{match_at, match_event};
use crate::rows::Positions;
use crate::wanted::Event;
use clause_form::Fact;
use std::alloc::{AllocError, Global};
use term_tree::Bank;
use unify_match::Binds;

/// Whether the events stand at the positions, one each; then the bindings are extended so.
pub fn stand_at<B: Bank>(
    bank: &B,
    hyps: &[Fact],
    events: &[Event],
    positions: &[u32],
    binds: &mut Binds,
) -> Result<bool, AllocError>
    requires known { AreFactsIn (B.trees bank.now) (map fact_of hyps.now) }
    requires bindings { AreBindings (B.trees bank.now) binds.old.pairs }
    ensures bindings { AreBindings (B.trees bank.now) binds.new.pairs }
    ensures yes { IfOk result (λ yes. yes ≡ true → ArePlaced (B.trees bank.now) binds.old.pairs
        (map event_fact events.now) (map (fact_at (B.trees bank.now)) (map fact_of hyps.now))
        positions.now) }
    ensures no { IfOk result (λ yes. yes ≡ false → ArePlaced (B.trees bank.now) binds.old.pairs
        (map event_fact events.now) (map (fact_at (B.trees bank.now)) (map fact_of hyps.now))
        positions.now → ⊥) }
{
    if events.len() != positions.len() {
        return Ok(false);
    }
    'each: for (k, event) in events.iter().enumerate() {
        if !match_at(bank, event, hyps, positions[k], binds)? {
            return Ok(false);
        }
    }
    Ok(true)
}

/// The first positions, in dictionary order, at which the events stand, one each; `None` exactly
/// where there are none, and then the bindings are as before.
///
/// Each event is tried at each position in turn: the time can grow with the number of hypotheses to
/// the power of the number of events.
pub fn place<B: Bank>(
    alloc: Global,
    bank: &B,
    hyps: &[Fact],
    events: &[Event],
    binds: &mut Binds,
) -> Result<Option<Positions>, AllocError>
    requires known { AreFactsIn (B.trees bank.now) (map fact_of hyps.now) }
    requires few { length hyps.now < 2 ^ 32 }
    requires bindings { AreBindings (B.trees bank.now) binds.old.pairs }
    ensures some { IfOk result (λ found. IfSome found (λ row.
        AreFirstPlaced (B.trees bank.now) binds.old.pairs (map event_fact events.now)
        (map (fact_at (B.trees bank.now)) (map fact_of hyps.now)) row)) }
    ensures none { IfOk result (λ found. found ≡ None → (row : List ℕ) →
        ArePlaced (B.trees bank.now) binds.old.pairs (map event_fact events.now)
        (map (fact_at (B.trees bank.now)) (map fact_of hyps.now)) row → ⊥) }
    ensures back { IfOk result (λ found. found ≡ None → binds.new.pairs ≡ binds.old.pairs) }
{
    let [first, rest @ ..] = events else {
        return Ok(Some(Positions {
            items: Vec::new(alloc),
        }));
    };
    let level = binds.level();
    'each: for (k, hyp) in hyps.iter().enumerate() {
        if match_event(bank, first, hyp, binds)? {
            match place(alloc, bank, hyps, rest, binds)? {
                Some(row) => return Ok(Some(row.behind((k + 1) as u32)?)),
                None => {}
            }
        }
        binds.undo(level);
    }
    Ok(None)
}
