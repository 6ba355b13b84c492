//! The lists of live entries.

ghost use Rattle.std.specs.Prelude.{◌≡◌, filter, OnOk};
ghost use Rattle.spec_clauses.specs.Selection.{is_solved as is_solved_list};
ghost use Rattle.spec_fingerprints.specs.Fingerprints.{clause_print};
ghost use Rattle.clause_form.specs.Seen.{clause_at, IsClauseIn};
ghost use Rattle.clause_form.specs.Fit.{IsFit};
ghost use Rattle.log_entries.specs.Live.{AreAlive, IsListedBy, IsEndListed};
ghost use Rattle.log_entries.specs.Numbers.{is_live_at};

use crate::ends::{closed_end, end_of};
use crate::log::Entry;
use crate::walk::{Live, Offer};
use fact_classes::class_of;
use fact_fingerprint::clause_fingerprint;
use literal_selection::is_solved;
use std::alloc::AllocError;
use term_tree::Bank;

/// Whether there is an entry of that number, and it is live.
pub fn is_live(entries: &[Entry], number: usize) -> bool
    ensures { result ≡ is_live_at entries.now number }
{
    if number == 0 {
        return false;
    }
    if entries.len() < number {
        return false;
    }
    entries[number - 1].by.is_none()
}

/// Takes the numbers of entries that are live no more off a list.
fn drop_dead(entries: &[Entry], numbers: &mut Vec<usize>)
    ensures { numbers.new.items ≡ filter (is_live_at entries.now) numbers.old.items }
{
    numbers.retain(|number| is_live(entries, *number));
}

/// Takes the numbers of entries that are live no more off the lists.
pub fn drop_all(entries: &[Entry], live: &mut Live)
    ensures { AreAlive entries.now live.old live.new }
{
    drop_dead(entries, &mut live.solved);
    drop_dead(entries, &mut live.unsolved);
    drop_dead(entries, &mut live.unclosed);
}

/// Puts the number of a new entry at the end of the lists of its kind and of its class, and what its clause shows at the end
/// of all.
pub fn list<B: Bank>(live: &mut Live, bank: &B, offer: &Offer<'_>) -> Result<(), AllocError>
    requires { IsFit (B.trees bank.now) offer.now.clause.now }
    ensures { OnOk result (IsListedBy
        (is_solved_list (clause_at (B.trees bank.now) offer.now.clause.now).hypotheses)
        offer.now.number offer.now.looks
        (clause_print (clause_at (B.trees bank.now) offer.now.clause.now)) live.old live.new) }
{
    let print = clause_fingerprint(bank, offer.clause);
    let class = class_of(&print);
    live.features.push(offer.looks.features)?;
    live.conclusions.push(offer.looks.conclusion)?;
    live.prints.push(print)?;
    if is_solved(bank, offer.clause) {
        live.solved_classes.push(offer.alloc, class, offer.number)?;
        live.solved.push(offer.number)?;
        return Ok(());
    }
    live.unsolved_classes
        .push(offer.alloc, class, offer.number)?;
    live.unsolved.push(offer.number)?;
    Ok(())
}

/// Puts a new entry at the end of the chain of those that end as it does, and its number at the end of the unclosed ones, if
/// it doesn't end with a closed term.
pub fn list_end<B: Bank>(live: &mut Live, bank: &B, offer: &Offer<'_>) -> Result<(), AllocError>
    requires { IsClauseIn (B.trees bank.now) offer.now.clause.now }
    ensures { OnOk result (IsEndListed (B.trees bank.now) offer.now.clause.now offer.now.number
        live.old live.new) }
{
    live.chains.push(end_of(offer.clause), bank.mark().len)?;
    match closed_end(bank, offer.clause) {
        None => {
            live.unclosed.push(offer.number)?;
            Ok(())
        }
        Some(_) => Ok(()),
    }
}
