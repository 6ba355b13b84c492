//! What is told of the protocol that a file spells.

use crate::descriptions::description;
use crate::ends::end;
use crate::setting::Setting;
use pi_tree::{Protocol, Query, Term, Terms, is_absent};
use std::alloc::{AllocError, Global};
use table_protocols::spelled;

/// What is told.
#[derive(Clone, Copy)]
pub enum About {
    /// Its names, queries and points.
    Description,
    /// Which messages have a private free name that stands nowhere.
    Absences,
    /// How a copy of it reads.
    Copy,
    /// What is there at the end of the run.
    End,
}

/// What is told of the protocol that the file spells, if it spells one.
pub fn told(alloc: Global, setting: &Setting, about: About) -> Result<String, AllocError> {
    match spelled(alloc, &setting.file) {
        Some(protocol) => told_of(alloc, setting, &protocol, about),
        None => String::from_str(alloc, "no protocol"),
    }
}

/// The same of this protocol.
fn told_of(
    alloc: Global,
    setting: &Setting,
    protocol: &Protocol,
    about: About,
) -> Result<String, AllocError> {
    match about {
        About::Description => description(alloc, protocol),
        About::Absences => absences(alloc, protocol),
        About::Copy => copy(alloc, protocol),
        About::End => end(alloc, protocol, &setting.run),
    }
}

/// The protocol as text, part by part.
fn text(alloc: Global, protocol: &Protocol) -> Result<String, AllocError> {
    format!(in alloc; "{protocol:?}")
}

/// The text of a copy of the protocol.
fn text_of_copy(alloc: Global, protocol: &Protocol) -> Result<String, AllocError> {
    let copied = protocol.copy(alloc)?;
    text(alloc, &copied)
}

/// Whether a copy of the protocol reads as it does, and else how it reads.
fn copy(alloc: Global, protocol: &Protocol) -> Result<String, AllocError> {
    let copied = text_of_copy(alloc, protocol)?;
    if copied == text(alloc, protocol)? {
        String::from_str(alloc, "the same")
    } else {
        Ok(copied)
    }
}

/// The first constructor on the first two free names.
fn applied(alloc: Global) -> Result<Term, AllocError> {
    let mut items = Vec::new(alloc);
    items.push(Term::Free(1))?;
    items.push(Term::Free(2))?;
    Ok(Term::App(1, Terms { items }))
}

/// Whether the message has a private free name that stands nowhere in the process.
fn asks_for_absent(protocol: &Protocol, message: Term) -> bool {
    is_absent(protocol, &Query::Secret(message, 0))
}

/// Whether that is so of the second free name, of the first constructor on the first two, and of each other leaf: a free name 0,
/// the first free name, one that isn't declared, a name of the restriction at point 2, and the variable 2.
fn of_messages(alloc: Global, protocol: &Protocol) -> Result<[bool; 7], AllocError> {
    let applied = asks_for_absent(protocol, applied(alloc)?);
    Ok([
        asks_for_absent(protocol, Term::Free(2)),
        applied,
        asks_for_absent(protocol, Term::Free(0)),
        asks_for_absent(protocol, Term::Free(1)),
        asks_for_absent(protocol, Term::Free(3)),
        asks_for_absent(protocol, Term::Made(2)),
        asks_for_absent(protocol, Term::Var(2)),
    ])
}

/// The same, and whether each query asks for such a message.
fn absences(alloc: Global, protocol: &Protocol) -> Result<String, AllocError> {
    let mut absent = Vec::from_array(alloc, of_messages(alloc, protocol)?)?;
    for query in &protocol.queries.items {
        absent.push(is_absent(protocol, query))?;
    }
    format!(in alloc; "{absent:?}")
}
