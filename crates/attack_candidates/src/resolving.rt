//! What comes of a goal by resolution with the solved clauses of a log.

ghost use Rattle.std.specs.Prelude.{IfOk, IfSome, OnOk};
ghost use Rattle.term_tree.specs.Bank.{Grows};
ghost use Rattle.clause_form.specs.Fit.{IsFit, AreFit};
ghost use Rattle.log_entries.specs.Beating.{clauses_of};
ghost use Rattle.attack_candidates.specs.Sound.{IsSound, IsChosen};

use crate::found::{Found, add_new};
use clause_form::{Clause, Clauses};
use clause_resolve::{Resolved, resolvents};
use limits::MOST_SYMBOLS;
use literal_selection::is_solved;
use log_entries::{Entry, Log, Origin};
use std::alloc::{AllocError, Global};
use term_store::SharedBank;

/// The clause of an unsolved goal, the number of its entry, and the place of its selected hypothesis.
#[derive(Clone, Copy)]
pub struct Chosen<'a> {
    pub clause: &'a Clause,
    pub number: usize,
    pub at: usize,
}

/// An entry of the log, and its number.
#[derive(Clone, Copy)]
pub struct Numbered<'a> {
    entry: &'a Entry,
    number: usize,
}

/// The numbers of a solved entry and of an unsolved one.
#[derive(Clone, Copy)]
struct Pair {
    solved: usize,
    unsolved: usize,
}

/// The resolvents of a solved clause with a goal; none where the pair is too large.
fn resolvents_of(
    alloc: Global,
    bank: &mut SharedBank,
    solved: &Clause,
    chosen: Chosen<'_>,
) -> Result<Option<Clauses>, AllocError>
    requires solved { IsFit bank.old solved.now }
    requires chosen { IsChosen bank.old chosen }
    ensures grows { OnOk result (Grows bank.old bank.new) }
    ensures fit { IfOk result (λ found. IfSome found (AreFit bank.new)) }
{
    match resolvents(alloc, bank, solved, chosen.clause, chosen.at)? {
        Resolved::Clauses(clauses) => Ok(Some(clauses)),
        Resolved::NoUnifier => Ok(Some(Clauses {
            items: Vec::new(alloc),
        })),
        Resolved::Large => Ok(None),
    }
}

/// Adds those of the resolvents of a pair that are new.
fn add_all(
    alloc: Global,
    bank: &SharedBank,
    found: &mut Found,
    clauses: &[Clause],
    pair: Pair,
) -> Result<(), AllocError>
    requires sound { IsSound bank.now found.old }
    requires clauses { AreFit bank.now clauses.now }
    ensures { OnOk result (IsSound bank.now found.new) }
{
    'each: for (i, clause) in clauses.iter().enumerate() {
        let origin = Origin::Resolvent {
            k: i + 1,
            solved: pair.solved,
            unsolved: pair.unsolved,
        };
        add_new(alloc, bank, found, clause, origin)?;
    }
    Ok(())
}

/// Resolves a goal with an entry, where that is live and solved, and adds what is new.
fn resolve_with(
    alloc: Global,
    bank: &mut SharedBank,
    found: &mut Found,
    partner: Numbered<'_>,
    chosen: Chosen<'_>,
) -> Result<(), AllocError>
    requires sound { IsSound bank.old found.old }
    requires partner { IsFit bank.old partner.entry.now.clause }
    requires chosen { IsChosen bank.old chosen }
    ensures grows { OnOk result (Grows bank.old bank.new) }
    ensures sound { OnOk result (IsSound bank.new found.new) }
{
    let entry = partner.entry;
    if found.is_full() || entry.by.is_some() || !is_solved(bank, &entry.clause) {
        return Ok(());
    }
    match resolvents_of(alloc, bank, &entry.clause, chosen)? {
        None => {
            found.left = found.left.saturating_sub(MOST_SYMBOLS);
            Ok(())
        }
        Some(made) => {
            let pair = Pair {
                solved: partner.number,
                unsolved: chosen.number,
            };
            add_all(alloc, bank, found, &made.items, pair)
        }
    }
}

/// Resolves a goal with the live solved entries of the log, and adds what is new.
pub(crate) fn resolve_all(
    alloc: Global,
    bank: &mut SharedBank,
    found: &mut Found,
    log: &Log,
    chosen: Chosen<'_>,
) -> Result<(), AllocError>
    requires log { AreFit bank.old (clauses_of log.now) }
    requires sound { IsSound bank.old found.old }
    requires chosen { IsChosen bank.old chosen }
    ensures grows { OnOk result (Grows bank.old bank.new) }
    ensures sound { OnOk result (IsSound bank.new found.new) }
{
    'each: for (i, entry) in log.items.iter().enumerate() {
        let partner = Numbered {
            entry,
            number: i + 1,
        };
        resolve_with(alloc, bank, found, partner, chosen)?;
    }
    Ok(())
}
