//! Cover rows: the first that show that the live clauses cover others.

ghost use Rattle.std.specs.Prelude.{◌≡◌, ◌<◌, ℕ, List, ◌∷◌, ◌++◌, Some, None, length, map, slice_get, MatchOption, IfOk, OnOk};
ghost use Rattle.spec_terms.specs.Term.{Term};
ghost use Rattle.spec_clauses.specs.Fact.{Clause as ClauseOf};
ghost use Rattle.spec_clauses.specs.Limits.{IsWithinLimit};
ghost use Rattle.spec_clauses.specs.Inclusion.{Has};
ghost use Rattle.spec_clauses.specs.Subsumption.{RowHolds, IsFirstRow};
ghost use Rattle.spec_saturation.specs.Live.{MustBeCovered};
ghost use Rattle.spec_verdicts.specs.FirstRows.{IsFirstCover};
ghost use Rattle.clause_form.specs.Seen.{clause_at, IsClauseIn, IdClause};
ghost use Rattle.clause_form.specs.Fit.{AreFit, clauses_at};
ghost use Rattle.fact_fingerprint.specs.Seen.{fingerprint_seen};
ghost use Rattle.cert_writer.specs.Adding.{AddsRows};
ghost use Rattle.fact_classes.specs.Classes.{listed};
ghost use Rattle.log_entries.specs.Numbers.{IsAmong, IsAscending};
ghost use Rattle.cert_writer.specs.Classed.{AreClassed, IsFirstAmong};
ghost use Rattle.cert_writer.specs.Ready.{conclusion_print, IsReady};
ghost use Rattle.cert_writer.specs.Given.{AreSmall};

use crate::writer::Writer;
use cert_form::Rows;
use clause_form::Clause;
use fact_classes::{Classes, class_of};
use fact_fingerprint::{Fingerprint, conclusion_fingerprint, fingerprint_of_fact, may_meet};
use multiset_subsume::{Row, cover_row};
use std::alloc::{AllocError, Global};
use term_tree::Bank;

/// A clause's number, and then the positions.
fn numbered(number: u32, row: Row) -> Result<Vec<u32>, AllocError>
    ensures { IfOk result (λ numbers. numbers.items ≡ number ∷ row) }
{
    let mut items = row.items;
    items.insert(0, number)?;
    Ok(items)
}

/// The fingerprints of the conclusions of clauses, in their order.
pub(crate) fn conclusion_prints<B: Bank>(
    alloc: Global,
    bank: &B,
    clauses: &[Clause],
) -> Result<Vec<Fingerprint>, AllocError>
    requires { AreFit (B.trees bank.now) clauses.now }
    ensures { IfOk result (λ prints. map fingerprint_seen prints.items ≡
        map conclusion_print (clauses_at (B.trees bank.now) clauses.now)) }
{
    let mut prints = Vec::with_capacity(alloc, clauses.len())?;
    'each: for clause in clauses {
        prints.push(conclusion_fingerprint(bank, clause))?;
    }
    Ok(prints)
}

/// The places, from 0, of clauses by the classes of their conclusions, which have these fingerprints.
pub(crate) fn conclusion_classes(
    alloc: Global,
    prints: &[Fingerprint],
) -> Result<Classes, AllocError>
    ensures { IfOk result (λ classes. AreClassed (map fingerprint_seen prints.now) classes) }
{
    let mut classes = Classes::none(alloc);
    'each: for (place, print) in prints.iter().enumerate() {
        classes.push(alloc, class_of(print), place)?;
    }
    Ok(classes)
}

/// The place of a live clause, from 0, and the first row by which it covers another.
#[derive(Drop)]
pub(crate) struct Found {
    pub place: usize,
    pub row: Row,
}

/// The first row by which the live clause at a place, from 0, covers the clause, of whose conclusion this is the fingerprint: none,
/// where fingerprints tell that its conclusion has no such instance.
fn cover_at<B: Bank>(
    bank: &B,
    writer: &Writer<'_>,
    place: usize,
    clause: &Clause,
    print: &Fingerprint,
) -> Result<Option<Row>, AllocError>
    requires ready { IsReady (B.trees bank.now) writer.now }
    requires place { place < length writer.now.live.now }
    requires known { IsClauseIn (B.trees bank.now) clause.now }
    requires small { IsWithinLimit (clause_at (B.trees bank.now) clause.now) }
    requires print { fingerprint_seen print.now ≡
        conclusion_print (clause_at (B.trees bank.now) clause.now) }
    ensures { let all = B.trees bank.now in IfOk result (λ found. (general : IdClause) →
        slice_get writer.now.live.now place ≡ Some general → MatchOption found
        ((row : List ℕ) → RowHolds (clause_at all general) (clause_at all clause.now) row → ⊥)
        (λ row. IsFirstRow (clause_at all general) (clause_at all clause.now) row)) }
{
    if !may_meet(&writer.prints[place], print) {
        return Ok(None);
    }
    cover_row(writer.alloc, bank, &writer.live[place], clause)
}

/// The first of the live clauses at these places that covers the clause, with its first row, if there is one.
fn first_among<B: Bank>(
    bank: &B,
    writer: &Writer<'_>,
    places: &[usize],
    clause: &Clause,
    print: &Fingerprint,
) -> Result<Option<Found>, AllocError>
    requires ready { IsReady (B.trees bank.now) writer.now }
    requires known { IsClauseIn (B.trees bank.now) clause.now }
    requires small { IsWithinLimit (clause_at (B.trees bank.now) clause.now) }
    requires ascending { IsAscending 0 places.now }
    requires within { (place : ℕ) → IsAmong places.now place →
        place < length writer.now.live.now }
    requires print { fingerprint_seen print.now ≡
        conclusion_print (clause_at (B.trees bank.now) clause.now) }
    ensures { IfOk result (λ found. IsFirstAmong (B.trees bank.now) writer.now.live.now
        (clause_at (B.trees bank.now) clause.now) places.now found) }
{
    'each: for place in places {
        match cover_at(bank, writer, *place, clause, print)? {
            Some(row) => return Ok(Some(Found { place: *place, row })),
            None => {}
        }
    }
    Ok(None)
}

/// The one at the lesser place, where there are two.
fn lesser(left: Option<Found>, right: Option<Found>) -> Option<Found>
    ensures { (all : List Term) (live : List IdClause) (c : ClauseOf Term) (ms ns : List ℕ) →
        IsFirstAmong all live c ms left → IsFirstAmong all live c ns right →
        IsFirstAmong all live c (ms ++ ns) result }
{
    match left {
        None => right,
        Some(first) => match right {
            None => Some(first),
            Some(second) => {
                if first.place < second.place {
                    Some(first)
                } else {
                    Some(second)
                }
            }
        },
    }
}

/// The first of the live clauses whose conclusions are of a class or of none that covers the clause, with its first row, if
/// there is one.
fn first_of_class<B: Bank>(
    bank: &B,
    writer: &Writer<'_>,
    class: usize,
    clause: &Clause,
    print: &Fingerprint,
) -> Result<Option<Found>, AllocError>
    requires ready { IsReady (B.trees bank.now) writer.now }
    requires known { IsClauseIn (B.trees bank.now) clause.now }
    requires small { IsWithinLimit (clause_at (B.trees bank.now) clause.now) }
    requires print { fingerprint_seen print.now ≡
        conclusion_print (clause_at (B.trees bank.now) clause.now) }
    ensures { IfOk result (λ found. IsFirstAmong (B.trees bank.now) writer.now.live.now
        (clause_at (B.trees bank.now) clause.now)
        (listed writer.now.classes.now (Some class) ++ listed writer.now.classes.now None)
        found) }
{
    let own = first_among(bank, writer, writer.classes.of(class), clause, print)?;
    let rest = first_among(bank, writer, &writer.classes.rest, clause, print)?;
    Ok(lesser(own, rest))
}

/// The first row that shows that the live clauses cover the clause, of which all are tried.
fn first_of_all<B: Bank>(
    bank: &B,
    writer: &Writer<'_>,
    clause: &Clause,
    print: &Fingerprint,
) -> Result<Vec<u32>, AllocError>
    requires ready { IsReady (B.trees bank.now) writer.now }
    requires known { IsClauseIn (B.trees bank.now) clause.now }
    requires small { IsWithinLimit (clause_at (B.trees bank.now) clause.now) }
    requires covered { MustBeCovered (clauses_at (B.trees bank.now) writer.now.live.now)
        (clause_at (B.trees bank.now) clause.now) }
    requires print { fingerprint_seen print.now ≡
        conclusion_print (clause_at (B.trees bank.now) clause.now) }
    ensures { IfOk result (λ row. IsFirstCover
        (clauses_at (B.trees bank.now) writer.now.live.now)
        (clause_at (B.trees bank.now) clause.now) row.items) }
{
    'each: for place in 0..writer.live.len() {
        match cover_at(bank, writer, place, clause, print)? {
            Some(row) => return numbered(place as u32 + 1, row),
            None => {}
        }
    }
    Ok(Vec::new(writer.alloc))
}

/// The first row that shows that the live clauses cover the clause: the least number of one that subsumes it, and then the
/// first positions.
fn first_cover<B: Bank>(
    bank: &B,
    writer: &Writer<'_>,
    clause: &Clause,
) -> Result<Vec<u32>, AllocError>
    requires ready { IsReady (B.trees bank.now) writer.now }
    requires known { IsClauseIn (B.trees bank.now) clause.now }
    requires small { IsWithinLimit (clause_at (B.trees bank.now) clause.now) }
    requires covered { MustBeCovered (clauses_at (B.trees bank.now) writer.now.live.now)
        (clause_at (B.trees bank.now) clause.now) }
    ensures { IfOk result (λ row. IsFirstCover
        (clauses_at (B.trees bank.now) writer.now.live.now)
        (clause_at (B.trees bank.now) clause.now) row.items) }
{
    let print = fingerprint_of_fact(bank, &clause.concl);
    match class_of(&print) {
        None => first_of_all(bank, writer, clause, &print),
        Some(class) => match first_of_class(bank, writer, class, clause, &print)? {
            Some(found) => numbered(found.place as u32 + 1, found.row),
            None => Ok(Vec::new(writer.alloc)),
        },
    }
}

/// Adds the first row of each clause, in order.
pub(crate) fn cover_all<B: Bank>(
    bank: &B,
    writer: &Writer<'_>,
    clauses: &[Clause],
    rows: &mut Rows,
) -> Result<(), AllocError>
    requires ready { IsReady (B.trees bank.now) writer.now }
    requires clauses { AreSmall (B.trees bank.now) clauses.now }
    requires covered { let all = B.trees bank.now in (c : ClauseOf Term) →
        Has (clauses_at all clauses.now) c → MustBeCovered (clauses_at all writer.now.live.now) c }
    ensures { let all = B.trees bank.now in
        OnOk result (AddsRows (clauses_at all writer.now.live.now) (clauses_at all clauses.now)
        rows.old rows.new) }
{
    'each: for clause in clauses {
        let row = first_cover(bank, writer, clause)?;
        rows.items.push(row)?;
    }
    Ok(())
}
