//! The search among goals, the smallest first.

ghost use Rattle.std.specs.Prelude.{OnOk};
ghost use Rattle.term_tree.specs.Bank.{Grows};
ghost use Rattle.clause_form.specs.Fit.{IsFit, AreFit};
ghost use Rattle.log_entries.specs.Beating.{clauses_of};
ghost use Rattle.attack_candidates.specs.Sound.{IsSound, CanBeSearched};

use crate::found::{Found, Searched};
use crate::resolving::{Chosen, resolve_all};
use clause_form::Clause;
use literal_selection::selected;
use query_derive::satisfies;
use std::alloc::AllocError;
use std::cmp::Reverse;
use term_store::SharedBank;

/// The most goals that are tried.
const MOST_TRIED: usize = 600;

/// The most entries in which an attack is looked for.
const MOST_CANDIDATES: usize = 40;

/// Whether the clause satisfies the query; then all that comes of it does.
fn is_satisfied(
    searched: &Searched<'_>,
    bank: &SharedBank,
    clause: &Clause,
) -> Result<bool, AllocError>
    requires asked { CanBeSearched searched.now }
    requires clause { IsFit bank.now clause.now }
{
    let row = satisfies(
        searched.alloc,
        bank,
        clause,
        searched.protocol,
        searched.query,
    )?;
    Ok(row.is_some())
}

/// Tries the goal of an entry's number: one that satisfies the query is passed by, a solved one may have an attack in it, and
/// another is resolved.
fn try_clause(
    searched: &Searched<'_>,
    bank: &mut SharedBank,
    found: &mut Found,
    clause: &Clause,
    number: usize,
) -> Result<(), AllocError>
    requires asked { CanBeSearched searched.now }
    requires log { AreFit bank.old (clauses_of searched.now.log.now) }
    requires sound { IsSound bank.old found.old }
    requires clause { IsFit bank.old clause.now }
    ensures grows { OnOk result (Grows bank.old bank.new) }
    ensures sound { OnOk result (IsSound bank.new found.new) }
{
    if is_satisfied(searched, bank, clause)? {
        return Ok(());
    }
    match selected(bank, clause) {
        None => {
            found.entries.push(number)?;
            Ok(())
        }
        Some(at) => {
            let chosen = Chosen { clause, number, at };
            resolve_all(searched.alloc, bank, found, searched.log, chosen)
        }
    }
}

/// Tries the goal at that place.
fn try_goal(
    searched: &Searched<'_>,
    bank: &mut SharedBank,
    found: &mut Found,
    place: usize,
) -> Result<(), AllocError>
    requires asked { CanBeSearched searched.now }
    requires log { AreFit bank.old (clauses_of searched.now.log.now) }
    requires sound { IsSound bank.old found.old }
    ensures grows { OnOk result (Grows bank.old bank.new) }
    ensures sound { OnOk result (IsSound bank.new found.new) }
{
    let Some(goal) = found.goals.get(place) else {
        return Ok(());
    };
    let number = goal.number;
    let clause = goal.clause.copy(searched.alloc)?;
    try_clause(searched, bank, found, &clause, number)
}

/// Tries the goals, the smallest first, until there is none left, or enough are found or tried.
pub(crate) fn search(
    searched: &Searched<'_>,
    bank: &mut SharedBank,
    found: &mut Found,
) -> Result<(), AllocError>
    requires asked { CanBeSearched searched.now }
    requires log { AreFit bank.old (clauses_of searched.now.log.now) }
    requires sound { IsSound bank.old found.old }
    ensures { OnOk result (IsSound bank.new found.new) }
{
    'each: for _turn in 0..MOST_TRIED {
        let Some((_, Reverse(place))) = found.due.pop() else {
            return Ok(());
        };
        try_goal(searched, bank, found, place)?;
        if found.entries.len() >= MOST_CANDIDATES {
            return Ok(());
        }
    }
    Ok(())
}
