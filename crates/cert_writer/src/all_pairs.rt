//! The rows of what all pairs of live clauses give. Those of clauses that are live before any goal are kept for further queries.

ghost use Rattle.std.specs.Prelude.{◌≡◌, [], ◌∷◌, ◌++◌, IfOk, OnOk};
ghost use Rattle.spec_certificates.specs.Certificate.{numbered_from, pairs_of};
ghost use Rattle.clause_form.specs.Fit.{clauses_at};
ghost use Rattle.cert_writer.specs.Unsolved.{AreUnsolved, some_places};
ghost use Rattle.cert_writer.specs.Ready.{IsReady};
ghost use Rattle.cert_writer.specs.Adding.{AddsPairs, MustClose};
ghost use Rattle.cert_writer.specs.Known.{IsKnown, BeginWith};

use crate::closing::{Solving, Unsolved, cover_one};
use crate::known::{KnownRows, all_begin_within, put_known};
use crate::writer::Writer;
use cert_form::Rows;
use fact_fingerprint::{Fingerprint, hypothesis_fingerprints};
use std::alloc::{AllocError, Global};
use term_tree::Bank;

/// Adds the place of a fingerprint, if there is one.
fn add_place(
    places: &mut Vec<usize>,
    place: usize,
    print: &Option<Fingerprint>,
) -> Result<(), AllocError>
    ensures { OnOk result
        (places.new.items ≡ places.old.items ++ some_places place (print.now ∷ [])) }
{
    match print {
        None => Ok(()),
        Some(_) => {
            places.push(place)?;
            Ok(())
        }
    }
}

/// The places, from 0, of fingerprints that are there.
fn places_of(alloc: Global, prints: &[Option<Fingerprint>]) -> Result<Vec<usize>, AllocError>
    ensures { IfOk result (λ places. places.items ≡ some_places 0 prints.now) }
{
    let mut places = Vec::new(alloc);
    'each: for (place, print) in prints.iter().enumerate() {
        add_place(&mut places, place, print)?;
    }
    Ok(places)
}

/// Adds the rows of what all pairs give, solved clauses ascending, and for each the unsolved ones ascending: those that are
/// kept, and else by resolution. The bank is as before.
fn cover_pairs<B: Bank>(
    bank: &mut B,
    writer: &Writer<'_>,
    unsolved: &Unsolved<'_>,
    known: &KnownRows,
    rows: &mut Rows,
) -> Result<(), AllocError>
    requires ready { IsReady (B.trees bank.old) writer.now }
    requires unsolved { AreUnsolved (B.trees bank.old) writer.now.live.now unsolved.now }
    requires known { IsKnown (B.trees bank.old) known.now }
    requires begin { BeginWith (B.trees bank.old) writer.now.live.now known.now.live }
    requires closed { MustClose (clauses_at (B.trees bank.old) writer.now.live.now) }
    ensures rows { let live = clauses_at (B.trees bank.old) writer.now.live.now in
        OnOk result (AddsPairs live (pairs_of (numbered_from 1 live) (numbered_from 1 live))
        rows.old rows.new) }
    ensures bank { B.trees bank.new ≡ B.trees bank.old }
{
    'each: for (place, clause) in writer.live.iter().enumerate() {
        let from = put_known(writer.alloc, known, place, rows)?;
        let solving = Solving {
            clause,
            print: writer.prints[place],
            unsolved: *unsolved,
            from,
            to: writer.live.len(),
        };
        cover_one(bank, writer, &solving, rows)?;
    }
    Ok(())
}

/// Keeps the rows of one more of the clauses that are live before any goal; false where those of all are kept, or where a
/// row has the number of a clause that stands behind them. The bank is as before.
fn keep_one<B: Bank>(
    bank: &mut B,
    writer: &Writer<'_>,
    unsolved: &Unsolved<'_>,
    known: &mut KnownRows,
) -> Result<bool, AllocError>
    requires ready { IsReady (B.trees bank.old) writer.now }
    requires unsolved { AreUnsolved (B.trees bank.old) writer.now.live.now unsolved.now }
    requires known { IsKnown (B.trees bank.old) known.old }
    requires begin { BeginWith (B.trees bank.old) writer.now.live.now known.old.live }
    requires closed { MustClose (clauses_at (B.trees bank.old) writer.now.live.now) }
    ensures known { OnOk result (IsKnown (B.trees bank.old) known.new) }
    ensures live { known.new.live ≡ known.old.live }
    ensures given { known.new.given ≡ known.old.given }
    ensures bank { B.trees bank.new ≡ B.trees bank.old }
{
    let place = known.rows.len();
    let count = known.live.items.len();
    if place >= count {
        return Ok(false);
    }
    let clause = &writer.live[place];
    let solving = Solving {
        clause,
        print: writer.prints[place],
        unsolved: *unsolved,
        from: 0,
        to: count,
    };
    let mut rows = Rows {
        items: Vec::new(writer.alloc),
    };
    cover_one(bank, writer, &solving, &mut rows)?;
    if !all_begin_within(&rows, count) {
        return Ok(false);
    }
    known.rows.push(rows)?;
    Ok(true)
}

/// Keeps the rows of clauses that are live before any goal, as far as they aren't kept. The bank is as before.
fn keep_all<B: Bank>(
    bank: &mut B,
    writer: &Writer<'_>,
    unsolved: &Unsolved<'_>,
    known: &mut KnownRows,
) -> Result<(), AllocError>
    requires ready { IsReady (B.trees bank.old) writer.now }
    requires unsolved { AreUnsolved (B.trees bank.old) writer.now.live.now unsolved.now }
    requires known { IsKnown (B.trees bank.old) known.old }
    requires begin { BeginWith (B.trees bank.old) writer.now.live.now known.old.live }
    requires closed { MustClose (clauses_at (B.trees bank.old) writer.now.live.now) }
    ensures known { OnOk result (IsKnown (B.trees bank.old) known.new) }
    ensures live { known.new.live ≡ known.old.live }
    ensures given { known.new.given ≡ known.old.given }
    ensures bank { B.trees bank.new ≡ B.trees bank.old }
{
    'each: for _ in known.rows.len()..known.live.items.len() {
        if !keep_one(bank, writer, unsolved, known)? {
            return Ok(());
        }
    }
    Ok(())
}

/// Adds the rows of what all pairs give, in their order. Those of clauses that are live before any goal are kept. The bank is as
/// before.
pub(crate) fn cover_closed<B: Bank>(
    bank: &mut B,
    writer: &Writer<'_>,
    known: &mut KnownRows,
    rows: &mut Rows,
) -> Result<(), AllocError>
    requires ready { IsReady (B.trees bank.old) writer.now }
    requires known { IsKnown (B.trees bank.old) known.old }
    requires begin { BeginWith (B.trees bank.old) writer.now.live.now known.old.live }
    requires closed { MustClose (clauses_at (B.trees bank.old) writer.now.live.now) }
    ensures rows { let live = clauses_at (B.trees bank.old) writer.now.live.now in
        OnOk result (AddsPairs live (pairs_of (numbered_from 1 live) (numbered_from 1 live))
        rows.old rows.new) }
    ensures known { OnOk result (IsKnown (B.trees bank.old) known.new) }
    ensures live { known.new.live ≡ known.old.live }
    ensures given { known.new.given ≡ known.old.given }
    ensures bank { B.trees bank.new ≡ B.trees bank.old }
{
    let prints = hypothesis_fingerprints(writer.alloc, bank, writer.live)?;
    let places = places_of(writer.alloc, &prints)?;
    let unsolved = Unsolved {
        prints: &prints,
        places: &places,
    };
    keep_all(bank, writer, &unsolved, known)?;
    cover_pairs(bank, writer, &unsolved, known, rows)
}
