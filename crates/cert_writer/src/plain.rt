//! The live clauses over trees. Those that are live before any goal are read out once, for all queries.

ghost use Rattle.std.specs.Prelude.{◌≡◌, length, IfOk, OnOk};
ghost use Rattle.clause_form.specs.Fit.{clauses_at};
ghost use Rattle.cert_writer.specs.Ready.{IsReady};
ghost use Rattle.cert_writer.specs.Known.{IsKnown, BeginWith};

use crate::known::KnownRows;
use crate::writer::Writer;
use cert_form::{PlainClauses, count_clauses, read_behind, read_clauses, share_clauses};
use std::alloc::{AllocError, Global};
use term_tree::Bank;

/// How many clauses are live before any goal.
fn live_count(known: &KnownRows) -> usize
    ensures { result ≡ length known.now.live }
{
    known.live.items.len()
}

/// Keeps the clauses that are live before any goal over trees, unless all are kept.
fn keep_plain<B: Bank>(alloc: Global, bank: &B, known: &mut KnownRows) -> Result<(), AllocError>
    requires { IsKnown (B.trees bank.now) known.old }
    ensures known { OnOk result (IsKnown (B.trees bank.now) known.new) }
    ensures plain { OnOk result
        (known.new.plain ≡ clauses_at (B.trees bank.now) known.old.live) }
    ensures live { known.new.live ≡ known.old.live }
    ensures given { known.new.given ≡ known.old.given }
{
    let kept = count_clauses(&known.plain);
    let count = live_count(known);
    if kept >= count {
        return Ok(());
    }
    let plain = read_clauses(alloc, bank, &known.live.items)?;
    known.plain = plain;
    Ok(())
}

/// The live clauses over trees, where they begin with those that are live before any goal.
pub(crate) fn plain_with<B: Bank>(
    bank: &B,
    writer: &Writer<'_>,
    known: &mut KnownRows,
) -> Result<PlainClauses, AllocError>
    requires ready { IsReady (B.trees bank.now) writer.now }
    requires known { IsKnown (B.trees bank.now) known.old }
    requires begin { BeginWith (B.trees bank.now) writer.now.live.now known.old.live }
    ensures plain { IfOk result (λ plain.
        plain ≡ clauses_at (B.trees bank.now) writer.now.live.now) }
    ensures known { OnOk result (IsKnown (B.trees bank.now) known.new) }
    ensures live { known.new.live ≡ known.old.live }
    ensures given { known.new.given ≡ known.old.given }
{
    keep_plain(writer.alloc, bank, known)?;
    let mut plain = share_clauses(writer.alloc, &known.plain)?;
    let count = live_count(known);
    read_behind(writer.alloc, bank, &writer.live[count..], &mut plain)?;
    Ok(plain)
}
