//! Constraints, whatever the way in which their sides are read.

ghost use Rattle.std.specs.Prelude.{◌≡◌, true, map, IfOk};
ghost use Rattle.std.specs.List.{AllByRecursion};
ghost use Rattle.spec_certificate_text.specs.Walks as walks;
ghost use Rattle.fact_reader.specs.Walks.{Walks};
ghost use Rattle.fact_reader.specs.Over.{seen_too};

use crate::cursor::Cursor;
use crate::error::CertError;
use crate::rows::{Row, items};
use crate::terms::TermReader;
use std::alloc::Global;

/// Sides, a comma between each two, and the byte behind the last.
fn sides<R: TermReader>(
    alloc: Global,
    reader: &R,
    cursor: &mut Cursor<'_>,
    state: &mut R::State,
    closing: u8,
) -> Result<Vec<R::Term>, CertError>
    ensures read { Walks (λ ts. map (R.term_of reader.now) ts.items)
        (walks.read_row (R.walk reader.now true) closing)
        (R.seen state.old) (R.seen state.new) cursor.old cursor.new result }
    ensures same { cursor.new.bytes.now ≡ cursor.old.bytes.now }
    ensures known { IfOk result (λ ts. AllByRecursion (R.IsTerm reader.now) ts.items) }
{
    let row = Row {
        binds: true,
        closing,
    };
    items(alloc, reader, cursor, state, row)
}

/// A constraint: as many left sides as right sides.
fn read_diff<R: TermReader>(
    alloc: Global,
    reader: &R,
    cursor: &mut Cursor<'_>,
    state: &mut R::State,
) -> Result<R::Diff, CertError>
    ensures read { Walks (R.diff_of reader.now) (walks.read_diff (R.walk reader.now true) R.counts)
        (R.seen state.old) (R.seen state.new) cursor.old cursor.new result }
    ensures same { cursor.new.bytes.now ≡ cursor.old.bytes.now }
    ensures known { IfOk result (R.IsDiff reader.now) }
{
    let from = cursor.at;
    cursor.pass(b"diff(")?;
    reader.count(state, 1);
    let left = sides(alloc, reader, cursor, state, b';')?;
    let right = sides(alloc, reader, cursor, state, b')')?;
    if left.len() == right.len() {
        Ok(reader.make_diff(left, right))
    } else {
        Err(CertError::Arity(from))
    }
}

/// A constraint, and `, ` behind it where another follows.
fn one_diff<R: TermReader>(
    alloc: Global,
    reader: &R,
    cursor: &mut Cursor<'_>,
    state: &mut R::State,
) -> Result<(R::Diff, bool), CertError>
    ensures read { Walks (seen_too (R.diff_of reader.now))
        (walks.one_diff (R.walk reader.now true) R.counts)
        (R.seen state.old) (R.seen state.new) cursor.old cursor.new result }
    ensures same { cursor.new.bytes.now ≡ cursor.old.bytes.now }
    ensures known { IfOk result (λ x. R.IsDiff reader.now x.0) }
{
    let found = read_diff(alloc, reader, cursor, state)?;
    if cursor.front() == b',' {
        cursor.pass(b", ")?;
        return Ok((found, true));
    }
    Ok((found, false))
}

/// Constraints, a comma and a space between each two.
#[tactic(auto, using(crate::proofs::Rounds::rows))]
pub(crate) fn some_diffs<R: TermReader>(
    alloc: Global,
    reader: &R,
    cursor: &mut Cursor<'_>,
    state: &mut R::State,
) -> Result<Vec<R::Diff>, CertError>
    ensures read { Walks (λ ds. map (R.diff_of reader.now) ds.items)
        (walks.some_diffs (R.walk reader.now true) R.counts)
        (R.seen state.old) (R.seen state.new) cursor.old cursor.new result }
    ensures same { cursor.new.bytes.now ≡ cursor.old.bytes.now }
    ensures known { IfOk result (λ ds. AllByRecursion (R.IsDiff reader.now) ds.items) }
{
    let mut items = Vec::new(alloc);
    for round in cursor.at..cursor.bytes.len() + 1 {
        let (next, more) = one_diff(alloc, reader, cursor, state)?;
        items.push(next)?;
        if !more {
            return Ok(items);
        }
    }
    Err(CertError::Syntax(cursor.at))
}

/// Constraints behind hypotheses, of which there may be none.
pub(crate) fn diffs_behind<R: TermReader>(
    alloc: Global,
    reader: &R,
    cursor: &mut Cursor<'_>,
    state: &mut R::State,
) -> Result<Vec<R::Diff>, CertError>
    ensures read { Walks (λ ds. map (R.diff_of reader.now) ds.items)
        (walks.read_diffs (R.walk reader.now true) R.counts)
        (R.seen state.old) (R.seen state.new) cursor.old cursor.new result }
    ensures same { cursor.new.bytes.now ≡ cursor.old.bytes.now }
    ensures known { IfOk result (λ ds. AllByRecursion (R.IsDiff reader.now) ds.items) }
{
    if cursor.front() == b',' {
        cursor.pass(b", ")?;
        return some_diffs(alloc, reader, cursor, state);
    }
    Ok(Vec::new(alloc))
}
