//! Clauses that are offered to a log.

ghost use Rattle.std.specs.Prelude.{◌≡◌, ◌+◌, ◌<◌, ◌≤◌, None, List, length, IfOk, OnOk};
ghost use Rattle.spec_saturation.specs.Key.{Key, Entry as EntryOf};
ghost use Rattle.clause_form.specs.Seen.{clause_at};
ghost use Rattle.clause_form.specs.Fit.{IsFit, AreFit};
ghost use Rattle.log_entries.specs.Logs.{TellLog, IsOrigin};
ghost use Rattle.log_entries.specs.Beating.{clauses_of, AreMarked, IsPushed, IsOfferMade};
ghost use Rattle.log_entries.specs.Live.{HasLooks, AreListed, AreBeatable};

use crate::covered::is_covered;
use clause_form::Clause;
use fact_fingerprint::conclusion_fingerprint;
use feature_index::features;
use log_entries::{
    Entry, Looks, Offer, Origin, Walk, drop_all, ending, list, list_end, mark_items, shared_end,
};
use std::alloc::AllocError;
use term_tree::Bank;

/// The numbers of entries among which are all the live ones that the clause subsumes: those that end with the same closed
/// term, in a bank that is shared, or all live ones.
fn beatable<B: Bank>(walk: &Walk, bank: &B, offer: &Offer<'_>) -> Result<Vec<usize>, AllocError>
    requires entries { AreFit (B.trees bank.now) (clauses_of walk.now.items.items) }
    requires listed { AreListed (B.trees bank.now) walk.now.items.items walk.now.live }
    requires clause { IsFit (B.trees bank.now) offer.now.clause.now }
    ensures { IfOk result (λ numbers. AreBeatable (B.trees bank.now) walk.now.items.items
        (clause_at (B.trees bank.now) offer.now.clause.now) numbers.items) }
{
    match shared_end(bank, offer.clause) {
        Some(id) => {
            let numbers = ending(walk, id)?;
            Ok(numbers)
        }
        None => {
            let mut numbers = walk.live.solved.to_vec(walk.alloc)?;
            numbers.extend_from_slice(&walk.live.unsolved)?;
            Ok(numbers)
        }
    }
}

/// Marks the live entries that the clause subsumes, and takes them off the lists.
fn beat<B: Bank>(walk: &mut Walk, bank: &B, offer: &Offer<'_>) -> Result<(), AllocError>
    requires entries { AreFit (B.trees bank.now) (clauses_of walk.old.items.items) }
    requires listed { AreListed (B.trees bank.now) walk.old.items.items walk.old.live }
    requires clause { IsFit (B.trees bank.now) offer.now.clause.now }
    requires looks { HasLooks (B.trees bank.now) offer.now.clause.now offer.now.looks }
    ensures kept { walk.new.budget ≡ walk.old.budget }
    ensures marked { OnOk result (AreMarked (B.trees bank.now)
        (clause_at (B.trees bank.now) offer.now.clause.now) offer.now.number
        walk.old.items.items walk.new.items.items) }
    ensures listed { OnOk result (AreListed (B.trees bank.now) walk.new.items.items
        walk.new.live) }
{
    let numbers = beatable(walk, bank, offer)?;
    if !mark_items(bank, offer, &numbers, &walk.live, &mut walk.items)? {
        return Ok(());
    }
    drop_all(&walk.items, &mut walk.live);
    Ok(())
}

/// Adds an entry of the clause to the log and to the list of its kind, and marks those that the clause subsumes.
fn add<B: Bank>(
    walk: &mut Walk,
    bank: &B,
    offer: &Offer<'_>,
    origin: Origin,
) -> Result<(), AllocError>
    requires entries { AreFit (B.trees bank.now) (clauses_of walk.old.items.items) }
    requires listed { AreListed (B.trees bank.now) walk.old.items.items walk.old.live }
    requires clause { IsFit (B.trees bank.now) offer.now.clause.now }
    requires looks { HasLooks (B.trees bank.now) offer.now.clause.now offer.now.looks }
    requires number { offer.now.number ≡ length walk.old.items.items + 1 }
    ensures kept { walk.new.budget ≡ walk.old.budget }
    ensures pushed { OnOk result (IsPushed (B.trees bank.now) walk.old.items.items record
        { clause = offer.now.clause.now; origin = origin; by = None } walk.new.items.items) }
    ensures listed { OnOk result (AreListed (B.trees bank.now) walk.new.items.items
        walk.new.live) }
{
    beat(walk, bank, offer)?;
    list(&mut walk.live, bank, offer)?;
    list_end(&mut walk.live, bank, offer)?;
    let clause = offer.clause.copy(walk.alloc)?;
    walk.items.push(Entry {
        clause,
        origin,
        by: None,
    })?;
    Ok(())
}

/// Offers a clause: where a live entry subsumes it, nothing happens; else it is added, and the live entries that it
/// subsumes are live no more. Where there are as many entries as the budget allows, it is handed back instead.
pub fn offer<B: Bank>(
    walk: &mut Walk,
    bank: &B,
    clause: &Clause,
    origin: Origin,
) -> Result<Option<Entry>, AllocError>
    requires entries { AreFit (B.trees bank.now) (clauses_of walk.old.items.items) }
    requires listed { AreListed (B.trees bank.now) walk.old.items.items walk.old.live }
    requires clause { IsFit (B.trees bank.now) clause.now }
    requires within { length walk.old.items.items ≤ walk.old.budget }
    ensures kept { walk.new.budget ≡ walk.old.budget }
    ensures made { (log : List EntryOf) (at : Key) →
        TellLog (B.trees bank.now) walk.old.items.items log → IsOrigin log origin at →
        IfOk result (λ due. IsOfferMade (B.trees bank.now) log walk.old.items.items
        walk.new.items.items walk.old.budget record
        { key = at; clause = clause_at (B.trees bank.now) clause.now } due) }
    ensures listed { OnOk result (AreListed (B.trees bank.now) walk.new.items.items
        walk.new.live) }
{
    let looks = Looks {
        features: features(bank, clause),
        conclusion: conclusion_fingerprint(bank, clause),
    };
    let offer = Offer {
        alloc: walk.alloc,
        clause,
        looks,
        number: walk.items.len() + 1,
    };
    if is_covered(walk, bank, &offer)? {
        return Ok(None);
    }
    if walk.items.len() as u64 == walk.budget {
        let clause = clause.copy(walk.alloc)?;
        return Ok(Some(Entry {
            clause,
            origin,
            by: None,
        }));
    }
    add(walk, bank, &offer, origin)?;
    Ok(None)
}
