//! Rows of terms, and events and entries of tables over them, whatever the way in which terms are read.

ghost use Rattle.std.specs.Prelude.{◌≡◌, ℕ, false, List, Some, map, IfOk};
ghost use Rattle.std.specs.List.{AllByRecursion};
ghost use Rattle.spec_terms.specs.Term.{Term};
ghost use Rattle.spec_certificate_text.specs.Facts as facts;
ghost use Rattle.spec_certificate_text.specs.Walks as walks;
ghost use Rattle.term_reader.specs.Naming.{protocol_in};
ghost use Rattle.term_reader.specs.Seen.{called_of};
ghost use Rattle.fact_reader.specs.Reads.{Finds};
ghost use Rattle.fact_reader.specs.Walks.{Walks};
ghost use Rattle.fact_reader.specs.Over.{seen_too, event_over};

use crate::cursor::Cursor;
use crate::error::CertError;
use crate::terms::TermReader;
use crate::words::word_end;
use std::alloc::Global;
use term_reader::{CalledEvent, Names};

/// An event or a table over terms that were read.
#[derive(Drop)]
pub struct ReadEvent<T> {
    pub event: u32,
    pub arguments: Vec<T>,
}

/// What stands in a row: sides of a constraint, in which variables may be bound, or terms of a fact; and the byte behind the last.
#[derive(Clone, Copy)]
pub(crate) struct Row {
    pub binds: bool,
    pub closing: u8,
}

/// A term or a side, and what stands behind it: `,` where another follows, or the byte behind the last.
fn item<R: TermReader>(
    reader: &R,
    cursor: &mut Cursor<'_>,
    state: &mut R::State,
    row: Row,
) -> Result<(R::Term, bool), CertError>
    ensures read { Walks (seen_too (R.term_of reader.now))
        (walks.item_before (R.walk reader.now row.binds) row.closing)
        (R.seen state.old) (R.seen state.new) cursor.old cursor.new result }
    ensures same { cursor.new.bytes.now ≡ cursor.old.bytes.now }
    ensures known { IfOk result (λ x. R.IsTerm reader.now x.0) }
{
    let found = reader.read_tree(cursor, state, row.binds)?;
    if cursor.front() == b',' {
        cursor.pass(b",")?;
        return Ok((found, true));
    }
    cursor.pass(&[row.closing])?;
    Ok((found, false))
}

/// Terms or sides, a comma between each two, and the byte behind the last.
#[tactic(auto, using(crate::proofs::Rounds::rows))]
pub(crate) fn items<R: TermReader>(
    alloc: Global,
    reader: &R,
    cursor: &mut Cursor<'_>,
    state: &mut R::State,
    row: Row,
) -> Result<Vec<R::Term>, CertError>
    ensures read { Walks (λ ts. map (R.term_of reader.now) ts.items)
        (walks.read_row (R.walk reader.now row.binds) row.closing)
        (R.seen state.old) (R.seen state.new) cursor.old cursor.new result }
    ensures same { cursor.new.bytes.now ≡ cursor.old.bytes.now }
    ensures known { IfOk result (λ ts. AllByRecursion (R.IsTerm reader.now) ts.items) }
{
    let mut items = Vec::new(alloc);
    for round in cursor.at..cursor.bytes.len() + 1 {
        let (next, more) = item(reader, cursor, state, row)?;
        items.push(next)?;
        if !more {
            return Ok(items);
        }
    }
    Err(CertError::Syntax(cursor.at))
}

/// Terms of a fact, a comma between each two, and `)` behind the last.
pub(crate) fn terms<R: TermReader>(
    alloc: Global,
    reader: &R,
    cursor: &mut Cursor<'_>,
    state: &mut R::State,
) -> Result<Vec<R::Term>, CertError>
    ensures read { Walks (λ ts. map (R.term_of reader.now) ts.items)
        (walks.read_terms (R.walk reader.now false))
        (R.seen state.old) (R.seen state.new) cursor.old cursor.new result }
    ensures same { cursor.new.bytes.now ≡ cursor.old.bytes.now }
    ensures known { IfOk result (λ ts. AllByRecursion (R.IsTerm reader.now) ts.items) }
{
    let row = Row {
        binds: false,
        closing: b')',
    };
    items(alloc, reader, cursor, state, row)
}

/// What stands behind the word of an event or a table.
fn applied<R: TermReader>(
    alloc: Global,
    reader: &R,
    cursor: &mut Cursor<'_>,
    state: &mut R::State,
) -> Result<Vec<R::Term>, CertError>
    ensures read { Walks (λ ts. map (R.term_of reader.now) ts.items)
        (walks.applied (R.walk reader.now false))
        (R.seen state.old) (R.seen state.new) cursor.old cursor.new result }
    ensures same { cursor.new.bytes.now ≡ cursor.old.bytes.now }
    ensures known { IfOk result (λ ts. AllByRecursion (R.IsTerm reader.now) ts.items) }
{
    if cursor.front() == b'(' {
        cursor.pass(b"(")?;
        return terms(alloc, reader, cursor, state);
    }
    Ok(Vec::new(alloc))
}

/// What is called so over these arguments, which begins at the place, if it takes as many.
fn with_arguments<T: Drop>(
    called: CalledEvent,
    from: usize,
    arguments: Vec<T>,
) -> Result<ReadEvent<T>, CertError>
    ensures read { (view : T → Term) (place : ℕ) (rest : List ℕ) →
        Finds (event_over view) result place rest
        (facts.performed from (called_of called) (map view arguments.items) place rest) }
    ensures same { IfOk result (λ read. read.arguments ≡ arguments) }
{
    if arguments.len() == called.arity as usize {
        let event = called.number;
        Ok(ReadEvent { event, arguments })
    } else {
        Err(CertError::Arity(from))
    }
}

/// An event or a table whose word was read, and where it began.
#[derive(Clone, Copy)]
struct Begun {
    called: CalledEvent,
    from: usize,
}

/// The event or the entry whose word was read, over what stands there.
fn over_arguments<R: TermReader>(
    alloc: Global,
    reader: &R,
    cursor: &mut Cursor<'_>,
    state: &mut R::State,
    begun: Begun,
) -> Result<ReadEvent<R::Term>, CertError>
    ensures read { Walks (event_over (R.term_of reader.now))
        (walks.event_named (R.walk reader.now false) (Some (called_of begun.called)) begun.from)
        (R.seen state.old) (R.seen state.new) cursor.old cursor.new result }
    ensures same { cursor.new.bytes.now ≡ cursor.old.bytes.now }
    ensures known { IfOk result (λ read.
        AllByRecursion (R.IsTerm reader.now) read.arguments.items) }
{
    let arguments = applied(alloc, reader, cursor, state)?;
    with_arguments(begun.called, begun.from, arguments)
}

/// The event that stands there.
pub(crate) fn event<R: TermReader>(
    names: &Names<'_>,
    reader: &R,
    cursor: &mut Cursor<'_>,
    state: &mut R::State,
) -> Result<ReadEvent<R::Term>, CertError>
    ensures read { Walks (event_over (R.term_of reader.now))
        (walks.read_event (R.walk reader.now false) (protocol_in names.now))
        (R.seen state.old) (R.seen state.new) cursor.old cursor.new result }
    ensures same { cursor.new.bytes.now ≡ cursor.old.bytes.now }
    ensures known { IfOk result (λ read.
        AllByRecursion (R.IsTerm reader.now) read.arguments.items) }
{
    let bytes = cursor.bytes;
    let from = cursor.at;
    let end = word_end(bytes, from)?;
    cursor.at = end;
    match names.event_called(&bytes[from..end]) {
        None => Err(CertError::Symbol(from)),
        Some(called) => {
            let begun = Begun { called, from };
            over_arguments(names.alloc, reader, cursor, state, begun)
        }
    }
}

/// The entry of a table that stands there.
pub(crate) fn entry<R: TermReader>(
    names: &Names<'_>,
    reader: &R,
    cursor: &mut Cursor<'_>,
    state: &mut R::State,
) -> Result<ReadEvent<R::Term>, CertError>
    ensures read { Walks (event_over (R.term_of reader.now))
        (walks.read_entry (R.walk reader.now false) (protocol_in names.now))
        (R.seen state.old) (R.seen state.new) cursor.old cursor.new result }
    ensures same { cursor.new.bytes.now ≡ cursor.old.bytes.now }
    ensures known { IfOk result (λ read.
        AllByRecursion (R.IsTerm reader.now) read.arguments.items) }
{
    let bytes = cursor.bytes;
    let from = cursor.at;
    let end = word_end(bytes, from)?;
    cursor.at = end;
    match names.table_called(&bytes[from..end]) {
        None => Err(CertError::Symbol(from)),
        Some(called) => {
            let begun = Begun { called, from };
            over_arguments(names.alloc, reader, cursor, state, begun)
        }
    }
}
