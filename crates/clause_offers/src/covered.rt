//! Whether a live entry subsumes a clause.

ghost use Rattle.std.specs.Prelude.{◌<◌, ◌≤◌, ℕ, length, IfOk, MatchBool};
ghost use Rattle.term_tree.specs.Bank.{AreShared};
ghost use Rattle.clause_form.specs.Seen.{clause_at};
ghost use Rattle.clause_form.specs.Fit.{IsFit, AreFit};
ghost use Rattle.log_entries.specs.Beating.{clauses_of, LiveCovers, SomeLiveCovers};
ghost use Rattle.log_entries.specs.Live.{HasLooks, AreListed, NumberCovers, CoversAmong};
ghost use Rattle.log_entries.specs.Numbers.{IsAmong};

use clause_form::Clause;
use fact_fingerprint::may_meet;
use feature_index::may_cover;
use log_entries::{Entry, Offer, Walk, closed_end, ending, subsumes};
use std::alloc::{AllocError, Global};
use term_tree::Bank;

/// Whether the entry is live and subsumes the clause.
fn covers<B: Bank>(
    alloc: Global,
    bank: &B,
    entry: &Entry,
    clause: &Clause,
) -> Result<bool, AllocError>
    requires entry { IsFit (B.trees bank.now) entry.now.clause }
    requires clause { IsFit (B.trees bank.now) clause.now }
    ensures { IfOk result (λ yes. MatchBool yes
        (LiveCovers (B.trees bank.now) entry.now (clause_at (B.trees bank.now) clause.now))
        (LiveCovers (B.trees bank.now) entry.now (clause_at (B.trees bank.now) clause.now) → ⊥)) }
{
    match entry.by {
        Some(_) => Ok(false),
        None => subsumes(alloc, bank, &entry.clause, clause),
    }
}

/// Whether the entry of that number is live and subsumes the clause. Most that don't are told by their features and the
/// fingerprints of their conclusions.
fn covers_at<B: Bank>(
    walk: &Walk,
    bank: &B,
    number: usize,
    offer: &Offer<'_>,
) -> Result<bool, AllocError>
    requires entries { AreFit (B.trees bank.now) (clauses_of walk.now.items.items) }
    requires listed { AreListed (B.trees bank.now) walk.now.items.items walk.now.live }
    requires some { 0 < number }
    requires within { number ≤ length walk.now.items.items }
    requires clause { IsFit (B.trees bank.now) offer.now.clause.now }
    requires looks { HasLooks (B.trees bank.now) offer.now.clause.now offer.now.looks }
    ensures { IfOk result (λ yes. MatchBool yes
        (NumberCovers (B.trees bank.now) walk.now.items.items
        (clause_at (B.trees bank.now) offer.now.clause.now) number)
        (NumberCovers (B.trees bank.now) walk.now.items.items
        (clause_at (B.trees bank.now) offer.now.clause.now) number → ⊥)) }
{
    let kept = walk.live.features[number - 1];
    if !may_cover(kept, offer.looks.features) {
        return Ok(false);
    }
    let conclusion = &walk.live.conclusions[number - 1];
    if !may_meet(conclusion, &offer.looks.conclusion) {
        return Ok(false);
    }
    let yes = covers(walk.alloc, bank, &walk.items[number - 1], offer.clause)?;
    Ok(yes)
}

/// Whether a live entry of these numbers subsumes the clause.
fn covers_among<B: Bank>(
    walk: &Walk,
    bank: &B,
    numbers: &[usize],
    offer: &Offer<'_>,
) -> Result<bool, AllocError>
    requires entries { AreFit (B.trees bank.now) (clauses_of walk.now.items.items) }
    requires listed { AreListed (B.trees bank.now) walk.now.items.items walk.now.live }
    requires numbers { (number : ℕ) → IsAmong numbers.now number →
        (0 < number) × (number ≤ length walk.now.items.items) }
    requires clause { IsFit (B.trees bank.now) offer.now.clause.now }
    requires looks { HasLooks (B.trees bank.now) offer.now.clause.now offer.now.looks }
    ensures { IfOk result (λ yes. MatchBool yes
        (CoversAmong (B.trees bank.now) walk.now.items.items numbers.now
        (clause_at (B.trees bank.now) offer.now.clause.now))
        (CoversAmong (B.trees bank.now) walk.now.items.items numbers.now
        (clause_at (B.trees bank.now) offer.now.clause.now) → ⊥)) }
{
    'each: for number in numbers {
        if covers_at(walk, bank, *number, offer)? {
            return Ok(true);
        }
    }
    Ok(false)
}

/// Whether a live entry subsumes the clause, whatever its conclusion ends with.
fn is_covered_by_any<B: Bank>(walk: &Walk, bank: &B, offer: &Offer<'_>) -> Result<bool, AllocError>
    requires entries { AreFit (B.trees bank.now) (clauses_of walk.now.items.items) }
    requires listed { AreListed (B.trees bank.now) walk.now.items.items walk.now.live }
    requires clause { IsFit (B.trees bank.now) offer.now.clause.now }
    requires looks { HasLooks (B.trees bank.now) offer.now.clause.now offer.now.looks }
    ensures { IfOk result (λ yes. MatchBool yes
        (SomeLiveCovers (B.trees bank.now) walk.now.items.items
        (clause_at (B.trees bank.now) offer.now.clause.now))
        (SomeLiveCovers (B.trees bank.now) walk.now.items.items
        (clause_at (B.trees bank.now) offer.now.clause.now) → ⊥)) }
{
    if covers_among(walk, bank, &walk.live.solved, offer)? {
        return Ok(true);
    }
    let found = covers_among(walk, bank, &walk.live.unsolved, offer)?;
    Ok(found)
}

/// Whether a live entry subsumes the clause, in a bank that is shared: it ends with no closed term, or with that of the
/// clause.
fn is_covered_by_end<B: Bank>(walk: &Walk, bank: &B, offer: &Offer<'_>) -> Result<bool, AllocError>
    requires entries { AreFit (B.trees bank.now) (clauses_of walk.now.items.items) }
    requires listed { AreListed (B.trees bank.now) walk.now.items.items walk.now.live }
    requires clause { IsFit (B.trees bank.now) offer.now.clause.now }
    requires looks { HasLooks (B.trees bank.now) offer.now.clause.now offer.now.looks }
    requires shared { AreShared (B.trees bank.now) }
    ensures { IfOk result (λ yes. MatchBool yes
        (SomeLiveCovers (B.trees bank.now) walk.now.items.items
        (clause_at (B.trees bank.now) offer.now.clause.now))
        (SomeLiveCovers (B.trees bank.now) walk.now.items.items
        (clause_at (B.trees bank.now) offer.now.clause.now) → ⊥)) }
{
    if covers_among(walk, bank, &walk.live.unclosed, offer)? {
        return Ok(true);
    }
    match closed_end(bank, offer.clause) {
        None => Ok(false),
        Some(id) => {
            let numbers = ending(walk, id)?;
            let found = covers_among(walk, bank, &numbers, offer)?;
            Ok(found)
        }
    }
}

/// Whether a live entry subsumes the clause.
pub(crate) fn is_covered<B: Bank>(
    walk: &Walk,
    bank: &B,
    offer: &Offer<'_>,
) -> Result<bool, AllocError>
    requires entries { AreFit (B.trees bank.now) (clauses_of walk.now.items.items) }
    requires listed { AreListed (B.trees bank.now) walk.now.items.items walk.now.live }
    requires clause { IsFit (B.trees bank.now) offer.now.clause.now }
    requires looks { HasLooks (B.trees bank.now) offer.now.clause.now offer.now.looks }
    ensures { IfOk result (λ yes. MatchBool yes
        (SomeLiveCovers (B.trees bank.now) walk.now.items.items
        (clause_at (B.trees bank.now) offer.now.clause.now))
        (SomeLiveCovers (B.trees bank.now) walk.now.items.items
        (clause_at (B.trees bank.now) offer.now.clause.now) → ⊥)) }
{
    if bank.is_shared() {
        let found = is_covered_by_end(walk, bank, offer)?;
        return Ok(found);
    }
    let found = is_covered_by_any(walk, bank, offer)?;
    Ok(found)
}
