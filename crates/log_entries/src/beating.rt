//! Which entries a clause beats: those that it subsumes are marked.

ghost use Rattle.std.specs.Prelude.{◌≡◌, false, IfOk, OnOk, MatchBool};
ghost use Rattle.spec_clauses.specs.Subsumption.{Subsumes};
ghost use Rattle.clause_form.specs.Seen.{clause_at};
ghost use Rattle.clause_form.specs.Fit.{IsFit, AreFit};
ghost use Rattle.log_entries.specs.Beating.{clauses_of, BeatsLive, IsMarked, AreMarked};
ghost use Rattle.log_entries.specs.Live.{HasFeatures, HasConclusion, HasLooks, AreBeatable, kept_lanes, lanes_of, kept_prints, conclusion_prints};

use crate::log::Entry;
use crate::walk::{Live, Offer};
use clause_form::Clause;
use fact_fingerprint::{Fingerprint, may_meet};
use feature_index::{Features, may_cover};
use multiset_subsume::cover_row;
use std::alloc::{AllocError, Global};
use term_tree::Bank;

/// Whether the general clause subsumes the special one.
pub fn subsumes<B: Bank>(
    alloc: Global,
    bank: &B,
    general: &Clause,
    special: &Clause,
) -> Result<bool, AllocError>
    requires general { IsFit (B.trees bank.now) general.now }
    requires special { IsFit (B.trees bank.now) special.now }
    ensures { IfOk result (λ yes. MatchBool yes
        (Subsumes (clause_at (B.trees bank.now) general.now)
        (clause_at (B.trees bank.now) special.now))
        (Subsumes (clause_at (B.trees bank.now) general.now)
        (clause_at (B.trees bank.now) special.now) → ⊥)) }
{
    let row = cover_row(alloc, bank, general, special)?;
    Ok(row.is_some())
}

/// Whether the entry is live and the clause subsumes it.
fn beats<B: Bank>(
    alloc: Global,
    bank: &B,
    clause: &Clause,
    entry: &Entry,
) -> Result<bool, AllocError>
    requires clause { IsFit (B.trees bank.now) clause.now }
    requires entry { IsFit (B.trees bank.now) entry.now.clause }
    ensures { IfOk result (λ yes. MatchBool yes
        (BeatsLive (B.trees bank.now) (clause_at (B.trees bank.now) clause.now) entry.now)
        (BeatsLive (B.trees bank.now) (clause_at (B.trees bank.now) clause.now) entry.now → ⊥)) }
{
    match entry.by {
        Some(_) => Ok(false),
        None => subsumes(alloc, bank, clause, &entry.clause),
    }
}

/// Marks an entry with these features and this fingerprint of its conclusion, if it is live and the clause subsumes it, as
/// subsumed by the offer's entry. Whether it is marked.
fn mark<B: Bank>(
    bank: &B,
    offer: &Offer<'_>,
    kept: Features,
    conclusion: &Fingerprint,
    entry: &mut Entry,
) -> Result<bool, AllocError>
    requires clause { IsFit (B.trees bank.now) offer.now.clause.now }
    requires looks { HasLooks (B.trees bank.now) offer.now.clause.now offer.now.looks }
    requires entry { IsFit (B.trees bank.now) entry.old.clause }
    requires kept { HasFeatures (B.trees bank.now) entry.old.clause kept }
    requires conclusion { HasConclusion (B.trees bank.now) entry.old.clause conclusion.now }
    ensures marked { OnOk result (IsMarked (B.trees bank.now)
        (clause_at (B.trees bank.now) offer.now.clause.now) offer.now.number entry.old entry.new) }
    ensures same { IfOk result (λ yes. yes ≡ false → entry.new ≡ entry.old) }
{
    if !may_cover(offer.looks.features, kept) {
        return Ok(false);
    }
    if !may_meet(&offer.looks.conclusion, conclusion) {
        return Ok(false);
    }
    if beats(offer.alloc, bank, offer.clause, entry)? {
        entry.by = Some(offer.number);
        return Ok(true);
    }
    Ok(false)
}

/// Marks those of the entries of these numbers that are live and that the clause subsumes as subsumed by the offer's entry.
/// Whether some is.
fn mark_among<B: Bank>(
    bank: &B,
    offer: &Offer<'_>,
    numbers: &[usize],
    live: &Live,
    entries: &mut [Entry],
) -> Result<bool, AllocError>
    requires clause { IsFit (B.trees bank.now) offer.now.clause.now }
    requires looks { HasLooks (B.trees bank.now) offer.now.clause.now offer.now.looks }
    requires numbers { AreBeatable (B.trees bank.now) entries.old
        (clause_at (B.trees bank.now) offer.now.clause.now) numbers.now }
    requires kept { kept_lanes live.now.features.items ≡ lanes_of (B.trees bank.now) entries.old }
    requires conclusions { kept_prints live.now.conclusions.items ≡
        conclusion_prints (B.trees bank.now) entries.old }
    requires entries { AreFit (B.trees bank.now) (clauses_of entries.old) }
    ensures marked { OnOk result (AreMarked (B.trees bank.now)
        (clause_at (B.trees bank.now) offer.now.clause.now) offer.now.number entries.old
        entries.new) }
    ensures same { IfOk result (λ some. some ≡ false → entries.new ≡ entries.old) }
{
    let mut some = false;
    'each: for number in numbers {
        let place = *number - 1;
        let kept = live.features[place];
        let yes = mark(
            bank,
            offer,
            kept,
            &live.conclusions[place],
            &mut entries[place],
        )?;
        some = some | yes;
    }
    Ok(some)
}

/// Marks each live one of the entries that the clause subsumes, all of which have these numbers, as subsumed by the offer's
/// entry. Whether some is.
pub fn mark_items<B: Bank>(
    bank: &B,
    offer: &Offer<'_>,
    numbers: &[usize],
    live: &Live,
    items: &mut Vec<Entry>,
) -> Result<bool, AllocError>
    requires clause { IsFit (B.trees bank.now) offer.now.clause.now }
    requires looks { HasLooks (B.trees bank.now) offer.now.clause.now offer.now.looks }
    requires numbers { AreBeatable (B.trees bank.now) items.old.items
        (clause_at (B.trees bank.now) offer.now.clause.now) numbers.now }
    requires kept { kept_lanes live.now.features.items ≡
        lanes_of (B.trees bank.now) items.old.items }
    requires conclusions { kept_prints live.now.conclusions.items ≡
        conclusion_prints (B.trees bank.now) items.old.items }
    requires entries { AreFit (B.trees bank.now) (clauses_of items.old.items) }
    ensures marked { OnOk result (AreMarked (B.trees bank.now)
        (clause_at (B.trees bank.now) offer.now.clause.now) offer.now.number items.old.items
        items.new.items) }
    ensures same { IfOk result (λ some. some ≡ false → items.new.items ≡ items.old.items) }
{
    let some = mark_among(bank, offer, numbers, live, items)?;
    Ok(some)
}
