//! Rows that are kept for further queries.

ghost use Rattle.std.specs.Prelude.{◌≡◌, ◌++◌, List, true, length, IfOk, OnOk};
ghost use Rattle.std.specs.List.{AllByRecursion};
ghost use Rattle.spec_terms.specs.Term.{Term};
ghost use Rattle.clause_form.specs.Seen.{AreClausesIn};
ghost use Rattle.log_entries.specs.Beating.{clauses_of};
ghost use Rattle.cert_writer.specs.Known.{BeginsWithin, IsKnown, PutsKnown};

use crate::living::live_of;
use cert_form::{PlainClauses, Rows};
use clause_form::Clauses;
use clause_saturate::Log;
use std::alloc::{AllocError, Global};

/// The live clauses of a log before any goal, and for each of the first so many of them the rows of what it gives with all of
/// them; clauses that are given before any goal, with the first rows that show that the live ones cover the first so many of
/// these; and the first so many live ones over trees. They stand in the certificate of each query whose clauses begin with these.
pub struct KnownRows {
    pub live: Clauses,
    pub rows: Vec<Rows>,
    pub given: Clauses,
    pub covers: Rows,
    pub plain: PlainClauses,
}

impl Drop for KnownRows {
    fn drop(self) {
        let KnownRows {
            live,
            rows,
            given,
            covers,
            plain,
        } = self;
        drop(live);
        drop(rows);
        drop(given);
        drop(covers);
        drop(plain);
    }
}

/// The clauses that are given before any goal, and the live clauses of their log, without rows yet.
pub fn known_rows(alloc: Global, given: Clauses, log: &Log) -> Result<KnownRows, AllocError>
    ensures { IfOk result (λ known. (all : List Term) → AreClausesIn all given →
        AreClausesIn all (clauses_of log.now) → IsKnown all known) }
{
    let live = live_of(alloc, log)?;
    Ok(KnownRows {
        live,
        rows: Vec::new(alloc),
        given,
        covers: Rows {
            items: Vec::new(alloc),
        },
        plain: PlainClauses {
            items: Vec::new(alloc),
        },
    })
}

/// No clauses.
pub fn none_known(alloc: Global) -> KnownRows
    ensures known { (all : List Term) → IsKnown all result }
    ensures none { length result.live ≡ 0 }
    ensures none_given { length result.given ≡ 0 }
{
    KnownRows {
        live: Clauses {
            items: Vec::new(alloc),
        },
        rows: Vec::new(alloc),
        given: Clauses {
            items: Vec::new(alloc),
        },
        covers: Rows {
            items: Vec::new(alloc),
        },
        plain: PlainClauses {
            items: Vec::new(alloc),
        },
    }
}

/// Whether a row begins with a number that is at most this one.
fn begins_within(row: &[u32], count: usize) -> bool
    ensures { result ≡ true → BeginsWithin count row.now }
{
    match row.first() {
        None => false,
        Some(number) => *number as usize <= count,
    }
}

/// Whether each row begins with a number that is at most this one.
pub(crate) fn all_begin_within(rows: &Rows, count: usize) -> bool
    ensures { result ≡ true → AllByRecursion (BeginsWithin count) rows.now }
{
    'each: for row in &rows.items {
        if !begins_within(row, count) {
            return false;
        }
    }
    true
}

/// Puts copies of rows behind others.
pub(crate) fn put_rows(alloc: Global, kept: &Rows, rows: &mut Rows) -> Result<(), AllocError>
    ensures { OnOk result (rows.new ≡ rows.old ++ kept.now) }
{
    'each: for row in &kept.items {
        let copied = Vec::from_slice(alloc, row)?;
        rows.items.push(copied)?;
    }
    Ok(())
}

/// Puts the kept rows of the clause at a place, from 0, behind others, if there are any, and tells with how many clauses
/// these are.
pub(crate) fn put_known(
    alloc: Global,
    known: &KnownRows,
    place: usize,
    rows: &mut Rows,
) -> Result<usize, AllocError>
    ensures { IfOk result (λ count. PutsKnown known.now place count rows.old rows.new) }
{
    if place >= known.rows.len() {
        return Ok(0);
    }
    put_rows(alloc, &known.rows[place], rows)?;
    Ok(known.live.items.len())
}
