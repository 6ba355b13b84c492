//! The rows of what pairs of a solved clause with an unsolved one give.

ghost use Rattle.std.specs.Prelude.{◌≡◌, ◌<◌, ◌≤◌, ℕ, true, Some, List, length, slice_get, take, OnOk};
ghost use Rattle.spec_terms.specs.Term.{Term};
ghost use Rattle.spec_clauses.specs.Fact.{Clause as ClauseOf};
ghost use Rattle.spec_clauses.specs.Selection.{is_solved as is_solved_list};
ghost use Rattle.spec_clauses.specs.Inclusion.{Has};
ghost use Rattle.spec_saturation.specs.Live.{MustBeCovered};
ghost use Rattle.spec_certificates.specs.Certificate.{numbered_from};
ghost use Rattle.clause_form.specs.Seen.{clause_at, IdClause};
ghost use Rattle.clause_form.specs.Fit.{IsFit, clauses_at};
ghost use Rattle.cert_writer.specs.Ready.{IsReady, AreTold};
ghost use Rattle.cert_writer.specs.Adding.{AddsRows, AddsPairs, MustClose};
ghost use Rattle.cert_writer.specs.Adding.{pairs_of_two, pairs_of_one, pairs_if_solved};
ghost use Rattle.cert_writer.specs.Given.{AreSmall};

use crate::covering::cover_all;
use crate::writer::Writer;
use cert_form::Rows;
use clause_form::Clause;
use clause_resolve::{Resolved, resolvents};
use fact_fingerprint::{Fingerprint, may_resolve};
use literal_selection::{is_solved, selected};
use std::alloc::AllocError;
use term_tree::{Bank, Mark};

/// Adds the rows of resolvents, and takes the bank back to the mark.
fn cover_made<B: Bank>(
    bank: &mut B,
    writer: &Writer<'_>,
    mark: Mark,
    made: &[Clause],
    rows: &mut Rows,
) -> Result<(), AllocError>
    requires mark { mark.len ≤ length (B.trees bank.old) }
    requires ready { IsReady (take mark.len (B.trees bank.old)) writer.now }
    requires made { AreSmall (B.trees bank.old) made.now }
    requires covered { (c : ClauseOf Term) → Has (clauses_at (B.trees bank.old) made.now) c →
        MustBeCovered (clauses_at (take mark.len (B.trees bank.old)) writer.now.live.now) c }
    ensures rows { OnOk result
        (AddsRows (clauses_at (take mark.len (B.trees bank.old)) writer.now.live.now)
        (clauses_at (B.trees bank.old) made.now) rows.old rows.new) }
    ensures bank { B.trees bank.new ≡ take mark.len (B.trees bank.old) }
{
    let covered = cover_all(bank, writer, made, rows);
    bank.back(mark);
    covered
}

/// Adds the rows of what a solved clause gives with another one, if that is unsolved. The bank is as before.
fn cover_pair<B: Bank>(
    bank: &mut B,
    writer: &Writer<'_>,
    solved: &Clause,
    unsolved: &Clause,
    rows: &mut Rows,
) -> Result<(), AllocError>
    requires ready { IsReady (B.trees bank.old) writer.now }
    requires solved_fit { IsFit (B.trees bank.old) solved.now }
    requires unsolved_fit { IsFit (B.trees bank.old) unsolved.now }
    requires solved_live { let all = B.trees bank.old in
        Has (clauses_at all writer.now.live.now) (clause_at all solved.now) }
    requires unsolved_live { let all = B.trees bank.old in
        Has (clauses_at all writer.now.live.now) (clause_at all unsolved.now) }
    requires is_solved { is_solved_list (clause_at (B.trees bank.old) solved.now).hypotheses
        ≡ true }
    requires closed { MustClose (clauses_at (B.trees bank.old) writer.now.live.now) }
    ensures rows { let all = B.trees bank.old in
        OnOk result ((i j : ℕ) → AddsPairs (clauses_at all writer.now.live.now)
        (pairs_of_two i (clause_at all solved.now) j (clause_at all unsolved.now))
        rows.old rows.new) }
    ensures bank { B.trees bank.new ≡ B.trees bank.old }
{
    match selected(bank, unsolved) {
        None => Ok(()),
        Some(at) => {
            let mark = bank.mark();
            match resolvents(writer.alloc, bank, solved, unsolved, at)? {
                Resolved::NoUnifier => Ok(()),
                Resolved::Large => Ok(()),
                Resolved::Clauses(made) => cover_made(bank, writer, mark, &made.items, rows),
            }
        }
    }
}

/// The fingerprints of the selected hypotheses of the live clauses, and the places, from 0, of those that have one: of the
/// unsolved ones.
#[derive(Clone, Copy)]
pub(crate) struct Unsolved<'a> {
    pub prints: &'a [Option<Fingerprint>],
    pub places: &'a [usize],
}

/// A solved clause with the fingerprint of its conclusion. It is resolved with the unsolved ones that stand from a place on and
/// before another, from 0.
#[derive(Clone, Copy)]
pub(crate) struct Solving<'a> {
    pub clause: &'a Clause,
    pub print: Fingerprint,
    pub unsolved: Unsolved<'a>,
    pub from: usize,
    pub to: usize,
}

/// Adds the rows of what a solved clause gives with the live clause at a place, from 0: none, where fingerprints tell that there
/// is no unifier, or where that clause is solved. The bank is as before.
fn cover_met<B: Bank>(
    bank: &mut B,
    writer: &Writer<'_>,
    solving: &Solving<'_>,
    place: usize,
    rows: &mut Rows,
) -> Result<(), AllocError>
    requires ready { IsReady (B.trees bank.old) writer.now }
    requires solved_fit { IsFit (B.trees bank.old) solving.now.clause.now }
    requires place { place < length writer.now.live.now }
    requires solved_live { let all = B.trees bank.old in
        Has (clauses_at all writer.now.live.now) (clause_at all solving.now.clause.now) }
    requires is_solved { is_solved_list
        (clause_at (B.trees bank.old) solving.now.clause.now).hypotheses ≡ true }
    requires closed { MustClose (clauses_at (B.trees bank.old) writer.now.live.now) }
    requires told { AreTold (B.trees bank.old) writer.now solving.now }
    ensures rows { let all = B.trees bank.old in OnOk result ((c : IdClause) →
        slice_get writer.now.live.now place ≡ Some c → (i j : ℕ) →
        AddsPairs (clauses_at all writer.now.live.now)
        (pairs_of_two i (clause_at all solving.now.clause.now) j (clause_at all c))
        rows.old rows.new) }
    ensures bank { B.trees bank.new ≡ B.trees bank.old }
{
    if !may_resolve(&solving.print, &solving.unsolved.prints[place]) {
        return Ok(());
    }
    cover_pair(bank, writer, solving.clause, &writer.live[place], rows)
}

/// The same, if the place is one of those that the clause is resolved with. The bank is as before.
fn cover_place<B: Bank>(
    bank: &mut B,
    writer: &Writer<'_>,
    solving: &Solving<'_>,
    place: usize,
    rows: &mut Rows,
) -> Result<(), AllocError>
    requires ready { IsReady (B.trees bank.old) writer.now }
    requires solved_fit { IsFit (B.trees bank.old) solving.now.clause.now }
    requires place { place < length writer.now.live.now }
    requires solved_live { let all = B.trees bank.old in
        Has (clauses_at all writer.now.live.now) (clause_at all solving.now.clause.now) }
    requires is_solved { is_solved_list
        (clause_at (B.trees bank.old) solving.now.clause.now).hypotheses ≡ true }
    requires closed { MustClose (clauses_at (B.trees bank.old) writer.now.live.now) }
    requires told { AreTold (B.trees bank.old) writer.now solving.now }
    ensures met { let all = B.trees bank.old in OnOk result (solving.now.from ≤ place →
        place < solving.now.to → (c : IdClause) →
        slice_get writer.now.live.now place ≡ Some c → (i j : ℕ) →
        AddsPairs (clauses_at all writer.now.live.now)
        (pairs_of_two i (clause_at all solving.now.clause.now) j (clause_at all c))
        rows.old rows.new) }
    ensures passed { OnOk result ((solving.now.from ≤ place → place < solving.now.to → ⊥) →
        rows.new ≡ rows.old) }
    ensures bank { B.trees bank.new ≡ B.trees bank.old }
{
    if place < solving.from {
        return Ok(());
    }
    if solving.to <= place {
        return Ok(());
    }
    cover_met(bank, writer, solving, place, rows)
}

/// Adds the rows of what a solved clause gives with each unsolved one of its places. The bank is as before.
fn cover_solved<B: Bank>(
    bank: &mut B,
    writer: &Writer<'_>,
    solving: &Solving<'_>,
    rows: &mut Rows,
) -> Result<(), AllocError>
    requires ready { IsReady (B.trees bank.old) writer.now }
    requires fit { IsFit (B.trees bank.old) solving.now.clause.now }
    requires live { let all = B.trees bank.old in
        Has (clauses_at all writer.now.live.now) (clause_at all solving.now.clause.now) }
    requires told { AreTold (B.trees bank.old) writer.now solving.now }
    requires places { solving.now.from ≤ solving.now.to }
    requires within { solving.now.to ≤ length writer.now.live.now }
    requires is_solved { is_solved_list
        (clause_at (B.trees bank.old) solving.now.clause.now).hypotheses ≡ true }
    requires closed { MustClose (clauses_at (B.trees bank.old) writer.now.live.now) }
    ensures rows { let live = clauses_at (B.trees bank.old) writer.now.live.now in
        let c = clause_at (B.trees bank.old) solving.now.clause.now in
        OnOk result ((i : ℕ) (first : List (List ℕ)) → AddsPairs live
        (pairs_of_one i c (take solving.now.from (numbered_from 1 live))) first rows.old →
        AddsPairs live (pairs_of_one i c (take solving.now.to (numbered_from 1 live)))
        first rows.new) }
    ensures bank { B.trees bank.new ≡ B.trees bank.old }
{
    'each: for place in solving.unsolved.places {
        cover_place(bank, writer, solving, *place, rows)?;
    }
    Ok(())
}

/// The same, if the clause is solved.
pub(crate) fn cover_one<B: Bank>(
    bank: &mut B,
    writer: &Writer<'_>,
    solving: &Solving<'_>,
    rows: &mut Rows,
) -> Result<(), AllocError>
    requires ready { IsReady (B.trees bank.old) writer.now }
    requires fit { IsFit (B.trees bank.old) solving.now.clause.now }
    requires live { let all = B.trees bank.old in
        Has (clauses_at all writer.now.live.now) (clause_at all solving.now.clause.now) }
    requires told { AreTold (B.trees bank.old) writer.now solving.now }
    requires places { solving.now.from ≤ solving.now.to }
    requires within { solving.now.to ≤ length writer.now.live.now }
    requires closed { MustClose (clauses_at (B.trees bank.old) writer.now.live.now) }
    ensures rows { let live = clauses_at (B.trees bank.old) writer.now.live.now in
        let c = clause_at (B.trees bank.old) solving.now.clause.now in
        OnOk result ((i : ℕ) (first : List (List ℕ)) → AddsPairs live
        (pairs_if_solved i c (take solving.now.from (numbered_from 1 live))) first rows.old →
        AddsPairs live (pairs_if_solved i c (take solving.now.to (numbered_from 1 live)))
        first rows.new) }
    ensures bank { B.trees bank.new ≡ B.trees bank.old }
{
    if !is_solved(bank, solving.clause) {
        return Ok(());
    }
    cover_solved(bank, writer, solving, rows)
}
