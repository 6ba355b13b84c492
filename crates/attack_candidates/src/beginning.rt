//! The goals with which a search begins.

ghost use Rattle.std.specs.Prelude.{IfOk, OnOk};
ghost use Rattle.clause_form.specs.Fit.{IsFit, AreFit};
ghost use Rattle.log_entries.specs.Beating.{clauses_of};
ghost use Rattle.attack_candidates.specs.Sound.{IsSound};

use crate::found::{Found, Searched, add_goal, add_new, none_found};
use clause_form::{Clause, Fact};
use literal_selection::is_solved;
use log_entries::{Entry, Origin};
use std::alloc::AllocError;
use term_store::SharedBank;

/// Whether the entry is live, concludes `bad`, and may still lead to an attack: in a closed log the unsolved ones don't.
fn is_begun_with(searched: &Searched<'_>, bank: &SharedBank, entry: &Entry) -> bool
    requires { IsFit bank.now entry.now.clause }
{
    entry.by.is_none()
        && matches!(entry.clause.concl, Fact::Bad(_))
        && (!searched.is_closed || is_solved(bank, &entry.clause))
}

/// Adds the goals of the log.
fn add_goals(
    searched: &Searched<'_>,
    bank: &SharedBank,
    found: &mut Found,
) -> Result<(), AllocError>
    requires log { AreFit bank.now (clauses_of searched.now.log.now) }
    requires sound { IsSound bank.now found.old }
    ensures { OnOk result (IsSound bank.now found.new) }
{
    let log = searched.log;
    'each: for (i, entry) in log.items.iter().enumerate() {
        if is_begun_with(searched, bank, entry) {
            add_goal(searched.alloc, bank, found, &entry.clause, i + 1)?;
        }
    }
    Ok(())
}

/// Adds the query's goal, which is the last of the given clauses, where the log ends before it.
fn add_last(
    searched: &Searched<'_>,
    bank: &SharedBank,
    found: &mut Found,
    given: &[Clause],
) -> Result<(), AllocError>
    requires given { AreFit bank.now given.now }
    requires sound { IsSound bank.now found.old }
    ensures { OnOk result (IsSound bank.now found.new) }
{
    if searched.is_closed || !found.goals.is_empty() {
        return Ok(());
    }
    match given.last() {
        None => Ok(()),
        Some(goal) => add_new(
            searched.alloc,
            bank,
            found,
            goal,
            Origin::Given(given.len()),
        ),
    }
}

/// What the search of a log of the given clauses begins with: its live entries that conclude `bad`; the solved ones of a closed log;
/// the query's goal, where the log ends before it.
pub(crate) fn begun(
    searched: &Searched<'_>,
    bank: &SharedBank,
    given: &[Clause],
) -> Result<Found, AllocError>
    requires log { AreFit bank.now (clauses_of searched.now.log.now) }
    requires given { AreFit bank.now given.now }
    ensures { IfOk result (IsSound bank.now) }
{
    let mut found = none_found(searched, bank)?;
    add_goals(searched, bank, &mut found)?;
    add_last(searched, bank, &mut found, given)?;
    Ok(found)
}
