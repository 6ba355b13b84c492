//! Logs of given clauses and a budget.

ghost use Rattle.std.specs.Prelude.{◌<◌, length, OnOk, IfOk, IfSome};
ghost use Rattle.term_tree.specs.Bank.{Grows};
ghost use Rattle.clause_form.specs.Seen.{IsClauseIn, AreClausesIn};
ghost use Rattle.clause_form.specs.Fit.{IsFit, AreFit};
ghost use Rattle.log_entries.specs.Beating.{clauses_of};

use crate::clause_rows::pairs::fit_clause;
use crate::log_rows::texts::{add_due, add_entries, add_large};
use clause_form::{Clause, Clauses, PlainClause, copy_into, read_out};
use clause_saturate::{Entry, Log, PlainEntry, Saturated, entries_tell_logs, read_log, saturate};
use std::alloc::{AllocError, Global};
use term_tree::TreeBank;

/// A clause over ids, with variables of low numbers, if it is its own norm within the limit of size.
fn fit_copy(
    alloc: Global,
    bank: &mut TreeBank,
    plain: &PlainClause,
) -> Result<Option<Clause>, AllocError>
    ensures grows { Grows bank.old bank.new }
    ensures fit { IfOk result (λ found. IfSome found (IsFit bank.new)) }
{
    let clause = copy_into(alloc, bank, plain)?;
    fit_clause(alloc, bank, &clause)
}

/// Adds a clause to those that are given, if it is its own norm within the limit of size.
fn add_fit(
    alloc: Global,
    bank: &mut TreeBank,
    plain: &PlainClause,
    given: &mut Clauses,
) -> Result<(), AllocError>
    requires { AreFit bank.old given.old }
    ensures { OnOk result (AreFit bank.new given.new) }
{
    match fit_copy(alloc, bank, plain)? {
        None => Ok(()),
        Some(made) => {
            given.items.push(made)?;
            Ok(())
        }
    }
}

/// The clauses that are their own norms within the limit of size.
fn fit_clauses(
    alloc: Global,
    bank: &mut TreeBank,
    clauses: &[Box<PlainClause>],
) -> Result<Clauses, AllocError>
    ensures { IfOk result (λ given. AreFit bank.new given) }
{
    let mut given = Clauses {
        items: Vec::new(alloc),
    };
    'each: for plain in clauses {
        add_fit(alloc, bank, plain, &mut given)?;
    }
    Ok(given)
}

/// The entries of a log over ids.
fn add_log(alloc: Global, bank: &TreeBank, log: &Log, text: &mut String) -> Result<(), AllocError>
    requires { AreClausesIn bank.now (clauses_of log.now) }
{
    let plain = read_log(alloc, bank, log)?;
    add_entries(alloc, &plain, text)
}

/// The entry that is due.
fn add_due_entry(
    alloc: Global,
    bank: &TreeBank,
    due: &Entry,
    text: &mut String,
) -> Result<(), AllocError>
    requires { IsClauseIn bank.now due.now.clause }
{
    let clause = read_out(alloc, bank, &due.clause)?;
    let plain = PlainEntry {
        clause,
        origin: due.origin,
        by: due.by,
    };
    add_due(alloc, &plain, text)
}

/// The log of given clauses and a budget, and its end: the lines that a row expects.
fn saturated_text(
    alloc: Global,
    bank: &mut TreeBank,
    given: &[Clause],
    budget: u64,
) -> Result<String, AllocError>
    requires some { 0 < length given.now }
    requires fit { AreFit bank.old given.now }
{
    entries_tell_logs();
    let mut text = String::new(alloc);
    match saturate(alloc, bank, given, budget)? {
        Saturated::Closed(log) => {
            add_log(alloc, bank, &log, &mut text)?;
            text.push_str("closed\n")?;
        }
        Saturated::Spent(log, due) => {
            add_log(alloc, bank, &log, &mut text)?;
            add_due_entry(alloc, bank, &due, &mut text)?;
        }
        Saturated::Large(log, solved, unsolved) => {
            add_log(alloc, bank, &log, &mut text)?;
            add_large(alloc, solved, unsolved, &mut text)?;
        }
    }
    Ok(text)
}

/// The log of clauses and a budget, and its end: the lines that a row expects. Where a clause isn't its own norm within
/// the limit of size, or there is none, it says so.
pub fn log_text(
    alloc: Global,
    clauses: &[Box<PlainClause>],
    budget: u64,
) -> Result<String, AllocError> {
    let mut bank = TreeBank::new(alloc)?;
    let given = fit_clauses(alloc, &mut bank, clauses)?;
    if given.items.len() != clauses.len() {
        return String::from_str(alloc, "not normal");
    }
    if given.items.is_empty() {
        return String::from_str(alloc, "no clauses");
    }
    saturated_text(alloc, &mut bank, &given.items, budget)
}
