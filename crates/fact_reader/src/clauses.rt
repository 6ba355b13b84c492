//! Clauses, whatever the way in which terms are read.

ghost use Rattle.std.specs.Prelude.{◌≡◌, true, false, map, IfOk};
ghost use Rattle.std.specs.List.{AllByRecursion};
ghost use Rattle.spec_certificate_text.specs.Walks as walks;
ghost use Rattle.term_reader.specs.Naming.{protocol_in};
ghost use Rattle.fact_reader.specs.Walks.{Walks};
ghost use Rattle.fact_reader.specs.Over.{seen_too, premises_over, clause_over};
ghost use Rattle.fact_reader.specs.Over.{AreKnownPremises, IsKnownClause};

use crate::cursor::Cursor;
use crate::diffs::{diffs_behind, some_diffs};
use crate::error::CertError;
use crate::facts::{read_conclusion, read_hypothesis};
use crate::terms::TermReader;
use term_reader::Names;

/// A clause over facts and constraints that were read.
#[derive(Drop)]
pub struct ReadClause<F, D> {
    pub hyps: Vec<F>,
    pub diffs: Vec<D>,
    pub concl: F,
}

/// The hypotheses and the constraints of a clause.
#[derive(Drop)]
pub struct ReadPremises<F, D> {
    pub hyps: Vec<F>,
    pub diffs: Vec<D>,
}

/// A hypothesis, and `, ` behind it where another follows.
fn one_hypothesis<R: TermReader>(
    names: &Names<'_>,
    reader: &R,
    cursor: &mut Cursor<'_>,
    state: &mut R::State,
) -> Result<(R::Fact, bool), CertError>
    ensures read { Walks (seen_too (R.fact_of reader.now))
        (walks.one_hypothesis (R.walk reader.now false) R.counts (protocol_in names.now))
        (R.seen state.old) (R.seen state.new) cursor.old cursor.new result }
    ensures same { cursor.new.bytes.now ≡ cursor.old.bytes.now }
    ensures known { IfOk result (λ x. R.IsFact reader.now x.0) }
{
    let found = read_hypothesis(names, reader, cursor, state)?;
    if cursor.has_next_hypothesis() {
        cursor.pass(b", ")?;
        return Ok((found, true));
    }
    Ok((found, false))
}

/// Hypotheses, a comma and a space between each two.
#[tactic(auto, using(crate::proofs::Rounds::rows))]
fn some_hypotheses<R: TermReader>(
    names: &Names<'_>,
    reader: &R,
    cursor: &mut Cursor<'_>,
    state: &mut R::State,
) -> Result<Vec<R::Fact>, CertError>
    ensures read { Walks (λ fs. map (R.fact_of reader.now) fs.items)
        (walks.some_hypotheses (R.walk reader.now false) R.counts (protocol_in names.now))
        (R.seen state.old) (R.seen state.new) cursor.old cursor.new result }
    ensures same { cursor.new.bytes.now ≡ cursor.old.bytes.now }
    ensures known { IfOk result (λ fs. AllByRecursion (R.IsFact reader.now) fs.items) }
{
    let mut items = Vec::new(names.alloc);
    for round in cursor.at..cursor.bytes.len() + 1 {
        let (next, more) = one_hypothesis(names, reader, cursor, state)?;
        items.push(next)?;
        if !more {
            return Ok(items);
        }
    }
    Err(CertError::Syntax(cursor.at))
}

/// Constraints without hypotheses, or hypotheses and then constraints; and a space.
fn some_premises<R: TermReader>(
    names: &Names<'_>,
    reader: &R,
    cursor: &mut Cursor<'_>,
    state: &mut R::State,
) -> Result<ReadPremises<R::Fact, R::Diff>, CertError>
    ensures read { Walks (premises_over (R.fact_of reader.now) (R.diff_of reader.now))
        (walks.some_premises (R.walk reader.now false) (R.walk reader.now true) R.counts
        (protocol_in names.now))
        (R.seen state.old) (R.seen state.new) cursor.old cursor.new result }
    ensures same { cursor.new.bytes.now ≡ cursor.old.bytes.now }
    ensures known { IfOk result (AreKnownPremises (R.IsFact reader.now) (R.IsDiff reader.now)) }
{
    if cursor.front() == b'd' {
        let diffs = some_diffs(names.alloc, reader, cursor, state)?;
        cursor.pass(b" ")?;
        let hyps = Vec::new(names.alloc);
        return Ok(ReadPremises { hyps, diffs });
    }
    let hyps = some_hypotheses(names, reader, cursor, state)?;
    let diffs = diffs_behind(names.alloc, reader, cursor, state)?;
    cursor.pass(b" ")?;
    Ok(ReadPremises { hyps, diffs })
}

/// The hypotheses and the constraints of a clause, which may be none.
fn premises<R: TermReader>(
    names: &Names<'_>,
    reader: &R,
    cursor: &mut Cursor<'_>,
    state: &mut R::State,
) -> Result<ReadPremises<R::Fact, R::Diff>, CertError>
    ensures read { Walks (premises_over (R.fact_of reader.now) (R.diff_of reader.now))
        (walks.read_premises (R.walk reader.now false) (R.walk reader.now true) R.counts
        (protocol_in names.now))
        (R.seen state.old) (R.seen state.new) cursor.old cursor.new result }
    ensures same { cursor.new.bytes.now ≡ cursor.old.bytes.now }
    ensures known { IfOk result (AreKnownPremises (R.IsFact reader.now) (R.IsDiff reader.now)) }
{
    if cursor.front() == b'=' {
        let hyps = Vec::new(names.alloc);
        let diffs = Vec::new(names.alloc);
        return Ok(ReadPremises { hyps, diffs });
    }
    some_premises(names, reader, cursor, state)
}

/// The clause that stands there; or the first fault.
pub fn read_clause_by<R: TermReader>(
    names: &Names<'_>,
    reader: &R,
    cursor: &mut Cursor<'_>,
    state: &mut R::State,
) -> Result<ReadClause<R::Fact, R::Diff>, CertError>
    ensures read { Walks (clause_over (R.fact_of reader.now) (R.diff_of reader.now))
        (walks.read_clause (R.walk reader.now false) (R.walk reader.now true) R.counts
        (protocol_in names.now))
        (R.seen state.old) (R.seen state.new) cursor.old cursor.new result }
    ensures same { cursor.new.bytes.now ≡ cursor.old.bytes.now }
    ensures known { IfOk result (IsKnownClause (R.IsFact reader.now) (R.IsDiff reader.now)) }
{
    let ReadPremises { hyps, diffs } = premises(names, reader, cursor, state)?;
    cursor.pass(b"=> ")?;
    let concl = read_conclusion(names, reader, cursor, state)?;
    Ok(ReadClause { hyps, diffs, concl })
}
