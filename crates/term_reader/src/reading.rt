//! Reading a term.

ghost use Rattle.std.specs.Prelude.{◌≡◌, ◌≤◌, length, drop, IfOk};
ghost use Rattle.pi_tree.specs.Protocols.{protocol_of};
ghost use Rattle.term_reader.specs.Naming.{protocol_in};
ghost use Rattle.spec_certificate_text.specs.Runs.{Refused, cut_off, cut_before, at_end, read_tree, read_term};
ghost use Rattle.term_reader.specs.Few.{HasFewNames};
ghost use Rattle.term_reader.specs.Seen.{heads_of, mode_of};
ghost use Rattle.term_reader.specs.SeenSteps.{code_of, read_of, EndsWithin};

use crate::state::{Code, Heads, Mode, Popped, Reading, Step, is_deep, no_heads, pop_head};
use crate::steps::step;
use crate::words::Names;
use clause_form::Tree;
use pi_tree::Protocol;
use std::alloc::{AllocError, Global};

/// What came of reading: a term, with the place behind it; or the place and the code of a refusal.
#[derive(Drop)]
pub enum Read {
    Done(Tree, usize),
    Refused(usize, Code),
}

/// The fault of bytes that end at the place, within a term that began at the other: whether it is too deep is told first.
fn cut_off(place: usize, heads: &Heads, from: usize) -> (usize, Code)
    ensures { Refused result.0 (code_of result.1) ≡ cut_off place (heads_of heads.now) from }
{
    if is_deep(heads) {
        (from, Code::Count)
    } else {
        (place, Code::Syntax)
    }
}

/// The fault of bytes that end at the place before a term begins.
fn cut_before(place: usize, heads: Heads) -> (usize, Code)
    ensures { Refused result.0 (code_of result.1) ≡ cut_before place (heads_of heads) }
{
    match pop_head(heads) {
        Popped::Empty(_) => (place, Code::Syntax),
        Popped::Top(head, others) => cut_off(place, &others, head.place),
    }
}

/// The fault of bytes that end at the place, where this was read: no word and no number ended there, and none is looked up.
fn at_end(place: usize, reading: Reading) -> (usize, Code)
    ensures { Refused result.0 (code_of result.1) ≡
        at_end place (heads_of reading.heads) reading.from (mode_of reading.mode) }
{
    match reading.mode {
        Mode::Begins => cut_before(place, reading.heads),
        _ => cut_off(place, &reading.heads, reading.from),
    }
}

/// The term that stands at the place, or the side of a constraint, in which variables may be bound, by these names.
#[tactic(auto, using(crate::proofs::Walk::walk))]
pub fn term_at(names: &Names<'_>, bytes: &[u8], at: usize, binds: bool) -> Result<Read, AllocError>
    requires { at ≤ length bytes.now }
    ensures read { IfOk result (λ read. read_of bytes.now read ≡
        read_tree binds (protocol_in names.now) (drop at bytes.now) at) }
    ensures within { IfOk result (λ read. EndsWithin (length bytes.now) read) }
{
    let mut reading = Reading {
        heads: no_heads(names.alloc),
        mode: Mode::Begins,
        from: at,
    };
    for place in at..bytes.len() {
        reading = match step(names, place, reading, bytes[place], binds)? {
            Step::Goes(next) => next,
            Step::Ends(term) => return Ok(Read::Done(term, place)),
            Step::Fault(at, code) => return Ok(Read::Refused(at, code)),
        };
    }
    let (place, code) = at_end(bytes.len(), reading);
    Ok(Read::Refused(place, code))
}

/// The term that stands at the place.
///
/// `Err` comes only for want of memory.
pub fn read_term(
    alloc: Global,
    protocol: &Protocol,
    bytes: &[u8],
    at: usize,
) -> Result<Read, AllocError>
    requires few { HasFewNames (protocol_of protocol.now) }
    requires within { at ≤ length bytes.now }
    ensures read { IfOk result (λ read. read_of bytes.now read ≡
        read_term (protocol_of protocol.now) (drop at bytes.now) at) }
    ensures within { IfOk result (λ read. EndsWithin (length bytes.now) read) }
{
    let greatest = protocol.greatest_phase();
    let names = Names {
        alloc,
        protocol,
        greatest,
    };
    term_at(&names, bytes, at, false)
}
