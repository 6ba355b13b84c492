//! The first rows of the given clauses. Those of clauses that are given before any goal are kept for further queries.

ghost use Rattle.std.specs.Prelude.{◌≡◌, true, OnOk};
ghost use Rattle.spec_terms.specs.Term.{Term};
ghost use Rattle.spec_clauses.specs.Fact.{Clause as ClauseOf};
ghost use Rattle.spec_clauses.specs.Inclusion.{Has};
ghost use Rattle.spec_saturation.specs.Live.{MustBeCovered};
ghost use Rattle.clause_form.specs.Fit.{clauses_at};
ghost use Rattle.cert_writer.specs.Ready.{IsReady};
ghost use Rattle.cert_writer.specs.Adding.{AddsRows};
ghost use Rattle.cert_writer.specs.Known.{IsKnown, BeginWith};
ghost use Rattle.cert_writer.specs.Given.{AreSmall};

use crate::beginning::begin_with;
use crate::covering::cover_all;
use crate::known::{KnownRows, all_begin_within, put_rows};
use crate::writer::Writer;
use cert_form::Rows;
use clause_form::Clause;
use std::alloc::AllocError;
use term_tree::Bank;

/// Whether live and given clauses begin with those that are so before any goal.
pub(crate) fn begin_with_known<B: Bank>(
    bank: &B,
    writer: &Writer<'_>,
    given: &[Clause],
    known: &KnownRows,
) -> bool
    requires ready { IsReady (B.trees bank.now) writer.now }
    requires given { AreSmall (B.trees bank.now) given.now }
    requires known { IsKnown (B.trees bank.now) known.now }
    ensures live { result ≡ true →
        BeginWith (B.trees bank.now) writer.now.live.now known.now.live }
    ensures given { result ≡ true → BeginWith (B.trees bank.now) given.now known.now.given }
{
    if !begin_with(bank, writer.live, &known.live.items) {
        return false;
    }
    begin_with(bank, given, &known.given.items)
}

/// Keeps the first rows of the clauses that are given before any goal, unless they are kept, or a row has the number of a clause
/// that stands behind those that are live before any goal.
pub(crate) fn keep_covers<B: Bank>(
    bank: &B,
    writer: &Writer<'_>,
    given: &[Clause],
    known: &mut KnownRows,
) -> Result<(), AllocError>
    requires ready { IsReady (B.trees bank.now) writer.now }
    requires given { AreSmall (B.trees bank.now) given.now }
    requires covered { let all = B.trees bank.now in (c : ClauseOf Term) →
        Has (clauses_at all given.now) c → MustBeCovered (clauses_at all writer.now.live.now) c }
    requires known { IsKnown (B.trees bank.now) known.old }
    requires begin { BeginWith (B.trees bank.now) writer.now.live.now known.old.live }
    requires begin_given { BeginWith (B.trees bank.now) given.now known.old.given }
    ensures known { OnOk result (IsKnown (B.trees bank.now) known.new) }
    ensures live { known.new.live ≡ known.old.live }
    ensures given { known.new.given ≡ known.old.given }
{
    let count = known.given.items.len();
    if known.covers.items.len() >= count {
        return Ok(());
    }
    let mut covers = Rows {
        items: Vec::new(writer.alloc),
    };
    cover_all(bank, writer, &given[..count], &mut covers)?;
    if !all_begin_within(&covers, known.live.items.len()) {
        return Ok(());
    }
    known.covers = covers;
    Ok(())
}

/// Adds the first row of each given clause, in order: those that are kept, and then the others.
pub(crate) fn cover_given<B: Bank>(
    bank: &B,
    writer: &Writer<'_>,
    given: &[Clause],
    known: &KnownRows,
    rows: &mut Rows,
) -> Result<(), AllocError>
    requires ready { IsReady (B.trees bank.now) writer.now }
    requires given { AreSmall (B.trees bank.now) given.now }
    requires covered { let all = B.trees bank.now in (c : ClauseOf Term) →
        Has (clauses_at all given.now) c → MustBeCovered (clauses_at all writer.now.live.now) c }
    requires known { IsKnown (B.trees bank.now) known.now }
    requires begin { BeginWith (B.trees bank.now) writer.now.live.now known.now.live }
    requires begin_given { BeginWith (B.trees bank.now) given.now known.now.given }
    ensures { let all = B.trees bank.now in
        OnOk result (AddsRows (clauses_at all writer.now.live.now) (clauses_at all given.now)
        rows.old rows.new) }
{
    let count = known.covers.items.len();
    put_rows(writer.alloc, &known.covers, rows)?;
    cover_all(bank, writer, &given[count..], rows)
}
