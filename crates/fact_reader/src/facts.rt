//! Facts, whatever the way in which terms are read.

ghost use Rattle.std.specs.Prelude.{◌≡◌, false, map, IfOk};
ghost use Rattle.std.specs.List.{AllByRecursion};
ghost use Rattle.spec_certificate_text.specs.Facts as facts;
ghost use Rattle.spec_certificate_text.specs.Walks as walks;
ghost use Rattle.term_reader.specs.Naming.{protocol_in};
ghost use Rattle.fact_reader.specs.Gives.{same};
ghost use Rattle.fact_reader.specs.Reads.{Reads};
ghost use Rattle.fact_reader.specs.Walks.{Walks};

use crate::cursor::Cursor;
use crate::error::CertError;
use crate::rows::{entry, event, terms};
use crate::terms::{ReadFact, TermReader};
use std::alloc::Global;
use term_reader::Names;

/// A phase of the protocol past the first.
fn later_phase(names: &Names<'_>, cursor: &mut Cursor<'_>) -> Result<u32, CertError>
    ensures read { Reads same (facts.read_later_phase (protocol_in names.now))
        cursor.old cursor.new result }
    ensures same { cursor.new.bytes.now ≡ cursor.old.bytes.now }
{
    let from = cursor.at;
    let found = cursor.number()?;
    if names.is_later_phase(found) {
        Ok(found)
    } else {
        Err(CertError::Symbol(from))
    }
}

/// The phase of a predicate: `@` and a phase past the first, or nothing.
#[tactic(auto, using(crate::proofs::Places::drop_next))]
fn read_phase(names: &Names<'_>, cursor: &mut Cursor<'_>) -> Result<u32, CertError>
    ensures read { Reads same (facts.read_phase (protocol_in names.now))
        cursor.old cursor.new result }
    ensures same { cursor.new.bytes.now ≡ cursor.old.bytes.now }
{
    if cursor.front() == b'@' {
        cursor.at += 1;
        return later_phase(names, cursor);
    }
    Ok(0)
}

/// `att` with its phase, `(`, a term and `)`.
fn att<R: TermReader>(
    names: &Names<'_>,
    reader: &R,
    cursor: &mut Cursor<'_>,
    state: &mut R::State,
) -> Result<R::Fact, CertError>
    ensures read { Walks (R.fact_of reader.now) (walks.read_att (R.walk reader.now false) R.counts
        (protocol_in names.now))
        (R.seen state.old) (R.seen state.new) cursor.old cursor.new result }
    ensures same { cursor.new.bytes.now ≡ cursor.old.bytes.now }
    ensures known { IfOk result (R.IsFact reader.now) }
{
    cursor.pass(b"att")?;
    let phase = read_phase(names, cursor)?;
    cursor.pass(b"(")?;
    reader.count(state, 1);
    let known = reader.read_tree(cursor, state, false)?;
    cursor.pass(b")")?;
    Ok(reader.make_fact(ReadFact::Att(phase, known)))
}

/// `mess` with its phase, `(`, two terms with a comma between, and `)`.
fn mess<R: TermReader>(
    names: &Names<'_>,
    reader: &R,
    cursor: &mut Cursor<'_>,
    state: &mut R::State,
) -> Result<R::Fact, CertError>
    ensures read { Walks (R.fact_of reader.now) (walks.read_mess (R.walk reader.now false) R.counts
        (protocol_in names.now))
        (R.seen state.old) (R.seen state.new) cursor.old cursor.new result }
    ensures same { cursor.new.bytes.now ≡ cursor.old.bytes.now }
    ensures known { IfOk result (R.IsFact reader.now) }
{
    cursor.pass(b"mess")?;
    let phase = read_phase(names, cursor)?;
    cursor.pass(b"(")?;
    reader.count(state, 1);
    let channel = reader.read_tree(cursor, state, false)?;
    cursor.pass(b",")?;
    let message = reader.read_tree(cursor, state, false)?;
    cursor.pass(b")")?;
    Ok(reader.make_fact(ReadFact::Mess(phase, channel, message)))
}

/// `tab(`, an entry and `)`.
fn tab<R: TermReader>(
    names: &Names<'_>,
    reader: &R,
    cursor: &mut Cursor<'_>,
    state: &mut R::State,
) -> Result<R::Fact, CertError>
    ensures read { Walks (R.fact_of reader.now) (walks.read_tab (R.walk reader.now false) R.counts
        (protocol_in names.now))
        (R.seen state.old) (R.seen state.new) cursor.old cursor.new result }
    ensures same { cursor.new.bytes.now ≡ cursor.old.bytes.now }
    ensures known { IfOk result (R.IsFact reader.now) }
{
    cursor.pass(b"tab(")?;
    reader.count(state, 2);
    let stored = entry(names, reader, cursor, state)?;
    cursor.pass(b")")?;
    Ok(reader.make_fact(ReadFact::Tab(stored.event, stored.arguments)))
}

/// `ev(`, an event and `)`.
fn ev<R: TermReader>(
    names: &Names<'_>,
    reader: &R,
    cursor: &mut Cursor<'_>,
    state: &mut R::State,
) -> Result<R::Fact, CertError>
    ensures read { Walks (R.fact_of reader.now) (walks.read_ev (R.walk reader.now false) R.counts
        (protocol_in names.now))
        (R.seen state.old) (R.seen state.new) cursor.old cursor.new result }
    ensures same { cursor.new.bytes.now ≡ cursor.old.bytes.now }
    ensures known { IfOk result (R.IsFact reader.now) }
{
    cursor.pass(b"ev(")?;
    reader.count(state, 2);
    let performed = event(names, reader, cursor, state)?;
    cursor.pass(b")")?;
    Ok(reader.make_fact(ReadFact::Ev(performed.event, performed.arguments)))
}

/// `mev(`, an event and `)`.
fn mev<R: TermReader>(
    names: &Names<'_>,
    reader: &R,
    cursor: &mut Cursor<'_>,
    state: &mut R::State,
) -> Result<R::Fact, CertError>
    ensures read { Walks (R.fact_of reader.now) (walks.read_mev (R.walk reader.now false) R.counts
        (protocol_in names.now))
        (R.seen state.old) (R.seen state.new) cursor.old cursor.new result }
    ensures same { cursor.new.bytes.now ≡ cursor.old.bytes.now }
    ensures known { IfOk result (R.IsFact reader.now) }
{
    cursor.pass(b"mev(")?;
    reader.count(state, 2);
    let performed = event(names, reader, cursor, state)?;
    cursor.pass(b")")?;
    Ok(reader.make_fact(ReadFact::Mev(performed.event, performed.arguments)))
}

/// The arguments of `bad` and `)`; there may be none.
fn bad_arguments<R: TermReader>(
    alloc: Global,
    reader: &R,
    cursor: &mut Cursor<'_>,
    state: &mut R::State,
) -> Result<Vec<R::Term>, CertError>
    ensures read { Walks (λ ts. map (R.term_of reader.now) ts.items)
        (walks.bad_arguments (R.walk reader.now false))
        (R.seen state.old) (R.seen state.new) cursor.old cursor.new result }
    ensures same { cursor.new.bytes.now ≡ cursor.old.bytes.now }
    ensures known { IfOk result (λ ts. AllByRecursion (R.IsTerm reader.now) ts.items) }
{
    if cursor.front() == b')' {
        cursor.pass(b")")?;
        return Ok(Vec::new(alloc));
    }
    terms(alloc, reader, cursor, state)
}

/// `bad(`, terms and `)`.
fn bad<R: TermReader>(
    alloc: Global,
    reader: &R,
    cursor: &mut Cursor<'_>,
    state: &mut R::State,
) -> Result<R::Fact, CertError>
    ensures read { Walks (R.fact_of reader.now) (walks.read_bad (R.walk reader.now false) R.counts)
        (R.seen state.old) (R.seen state.new) cursor.old cursor.new result }
    ensures same { cursor.new.bytes.now ≡ cursor.old.bytes.now }
    ensures known { IfOk result (R.IsFact reader.now) }
{
    cursor.pass(b"bad(")?;
    reader.count(state, 1);
    let arguments = bad_arguments(alloc, reader, cursor, state)?;
    Ok(reader.make_fact(ReadFact::Bad(arguments)))
}

/// A fact that begins with `m`: its third byte tells `mev` from `mess`.
fn mev_or_mess<R: TermReader>(
    names: &Names<'_>,
    reader: &R,
    cursor: &mut Cursor<'_>,
    state: &mut R::State,
) -> Result<R::Fact, CertError>
    ensures read { Walks (R.fact_of reader.now) (walks.read_mev_or_mess (R.walk reader.now false) R.counts
        (protocol_in names.now))
        (R.seen state.old) (R.seen state.new) cursor.old cursor.new result }
    ensures same { cursor.new.bytes.now ≡ cursor.old.bytes.now }
    ensures known { IfOk result (R.IsFact reader.now) }
{
    if cursor.front_behind(2) == b'v' {
        mev(names, reader, cursor, state)
    } else {
        mess(names, reader, cursor, state)
    }
}

/// A fact that may be a hypothesis: any but `bad`.
pub(crate) fn read_hypothesis<R: TermReader>(
    names: &Names<'_>,
    reader: &R,
    cursor: &mut Cursor<'_>,
    state: &mut R::State,
) -> Result<R::Fact, CertError>
    ensures read { Walks (R.fact_of reader.now) (walks.read_hypothesis (R.walk reader.now false) R.counts
        (protocol_in names.now))
        (R.seen state.old) (R.seen state.new) cursor.old cursor.new result }
    ensures same { cursor.new.bytes.now ≡ cursor.old.bytes.now }
    ensures known { IfOk result (R.IsFact reader.now) }
{
    let first = cursor.front();
    if first == b'm' {
        mev_or_mess(names, reader, cursor, state)
    } else if first == b'e' {
        ev(names, reader, cursor, state)
    } else if first == b't' {
        tab(names, reader, cursor, state)
    } else {
        att(names, reader, cursor, state)
    }
}

/// A fact that may be a conclusion: any but `mev`.
pub(crate) fn read_conclusion<R: TermReader>(
    names: &Names<'_>,
    reader: &R,
    cursor: &mut Cursor<'_>,
    state: &mut R::State,
) -> Result<R::Fact, CertError>
    ensures read { Walks (R.fact_of reader.now) (walks.read_conclusion (R.walk reader.now false) R.counts
        (protocol_in names.now))
        (R.seen state.old) (R.seen state.new) cursor.old cursor.new result }
    ensures same { cursor.new.bytes.now ≡ cursor.old.bytes.now }
    ensures known { IfOk result (R.IsFact reader.now) }
{
    let first = cursor.front();
    if first == b'm' {
        mess(names, reader, cursor, state)
    } else if first == b'e' {
        ev(names, reader, cursor, state)
    } else if first == b'b' {
        bad(names.alloc, reader, cursor, state)
    } else if first == b't' {
        tab(names, reader, cursor, state)
    } else {
        att(names, reader, cursor, state)
    }
}
