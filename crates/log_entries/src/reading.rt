//! Logs read out of a bank.

ghost use Rattle.std.specs.Prelude.{◌≡◌, map, IfOk};
ghost use Rattle.clause_form.specs.Seen.{IsClauseIn, AreClausesIn};
ghost use Rattle.log_entries.specs.Beating.{clauses_of};
ghost use Rattle.log_entries.specs.Plain.{plain_entry};

use crate::log::{Entry, Log, PlainEntry, PlainLog};
use clause_form::read_out;
use std::alloc::{AllocError, Global};
use term_tree::Bank;

/// The entry over trees that an entry over ids stands for.
pub fn read_entry<B: Bank>(alloc: Global, bank: &B, entry: &Entry) -> Result<PlainEntry, AllocError>
    requires { IsClauseIn (B.trees bank.now) entry.now.clause }
    ensures { IfOk result (λ plain. plain ≡ plain_entry (B.trees bank.now) entry.now) }
{
    let clause = read_out(alloc, bank, &entry.clause)?;
    Ok(PlainEntry {
        clause,
        origin: entry.origin,
        by: entry.by,
    })
}

/// The log over trees that a log over ids stands for, with the same origins.
pub fn read_log<B: Bank>(alloc: Global, bank: &B, log: &Log) -> Result<PlainLog, AllocError>
    requires { AreClausesIn (B.trees bank.now) (clauses_of log.now) }
    ensures { IfOk result (λ plain. plain ≡ map (plain_entry (B.trees bank.now)) log.now) }
{
    let mut items = Vec::with_capacity(alloc, log.items.len())?;
    'each: for entry in &log.items {
        items.push(read_entry(alloc, bank, entry)?)?;
    }
    Ok(PlainLog { items })
}
