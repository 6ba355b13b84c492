//! What words name in a protocol.

ghost use Rattle.std.proofs.Props.{props};
ghost use Rattle.std.specs.Prelude.{◌≡◌, ◌<◌, ◌≤◌, true, false, length, map, option_map};
ghost use Rattle.spec_calculus.specs.Bounds.{most_names};
ghost use Rattle.spec_calculus.specs.Points.{greatest_phase};
ghost use Rattle.pi_tree.specs.Names.{declared_of};
ghost use Rattle.pi_tree.specs.Processes.{process_of};
ghost use Rattle.pi_tree.specs.Protocols.{protocol_of};
ghost use Rattle.spec_certificate_text.specs.Names.{find_from, symbol_called, is_restriction_of, name_called, event_called};
ghost use Rattle.spec_certificate_text.specs.Names.{called_in, table_called};
ghost use Rattle.spec_certificate_text.specs.Facts.{is_later_phase};
ghost use Rattle.term_reader.specs.Few.{HasFewArguments, HasFewNames};
ghost use Rattle.term_reader.specs.Seen.{found_of, event_of};

use pi_tree::{Declared, Kind, MOST_NAMES, Process, Protocol};
use std::alloc::Global;
use term_tree::Sym;

/// The names of a protocol, of which there are few, its greatest phase, and the allocator of what is read by them.
#[derive(Clone, Copy)]
pub struct Names<'a> {
    pub alloc: Global,
    pub protocol: &'a Protocol,
    pub greatest: u32,
    ghost phases: { greatest ≡ greatest_phase (protocol_of protocol.now).main } by { Prim.hlevel props },
    ghost few: { HasFewNames (protocol_of protocol.now) } by { Prim.hlevel props },
}

/// A symbol, and how many arguments it takes.
#[derive(Clone, Copy)]
pub struct Named {
    pub symbol: Sym,
    pub arity: u32,
}

/// An event or a table, and how many arguments it takes.
#[derive(Clone, Copy)]
pub struct CalledEvent {
    pub number: u32,
    pub arity: u32,
}

/// Whether all points are told in 32 bits, and how many arguments the name of each has.
#[tactic(auto, using(crate::proofs::Points::few_points))]
fn has_few_arguments(protocol: &Protocol) -> bool
    ensures few { result ≡ true → HasFewArguments (process_of protocol.now.main) }
    ensures many { result ≡ false → HasFewArguments (process_of protocol.now.main) → ⊥ }
{
    let points = protocol.count(Kind::Point);
    if points == u32::MAX {
        return false;
    }
    for before in 0..points {
        if protocol.name_args(before + 1) == u32::MAX {
            return false;
        }
    }
    true
}

/// Whether the protocol declares so few names that its texts can be read: at most the limit of each kind.
pub fn has_few_names(protocol: &Protocol) -> bool
    ensures few { result ≡ true → HasFewNames (protocol_of protocol.now) }
    ensures many { result ≡ false → HasFewNames (protocol_of protocol.now) → ⊥ }
{
    protocol.frees.items.len() <= MOST_NAMES
        && protocol.ctors.items.len() <= MOST_NAMES
        && protocol.events.items.len() <= MOST_NAMES
        && protocol.tables.items.len() <= MOST_NAMES
        && has_few_arguments(protocol)
}

/// The first declaration with this word, and its number.
fn find_declared<'a>(items: &'a [Declared], word: &[u8]) -> Option<(u32, &'a Declared)>
    requires { length items.now ≤ most_names }
    ensures { find_from 1 (map declared_of items.now) word.now ≡
        option_map (λ found. record { number = found.0; declared = declared_of found.1.now })
        result }
{
    let mut number = 1;
    for declared in items {
        if declared.word.items.as_slice() == word {
            return Some((number, declared));
        }
        number += 1;
    }
    None
}

/// What the word names among these declarations.
fn called_in(items: &[Declared], word: &[u8]) -> Option<CalledEvent>
    requires { length items.now ≤ most_names }
    ensures { event_of result ≡ called_in (map declared_of items.now) word.now }
{
    match find_declared(items, word) {
        Some((number, declared)) => Some(CalledEvent {
            number,
            arity: declared.arity,
        }),
        None => None,
    }
}

/// Whether the process is a restriction with this word.
fn is_restriction_of(word: &[u8], process: &Process) -> bool
    ensures { result ≡ is_restriction_of word.now (process_of process.now) }
{
    match process {
        Process::New(name, _) => name.items.as_slice() == word,
        _ => false,
    }
}

impl<'a> Names<'a> {
    /// The free name or constructor of the word.
    pub fn symbol_called(&self, word: &[u8]) -> Option<Named>
        ensures { found_of result ≡ symbol_called (protocol_of self.now.protocol.now) word.now }
    {
        let protocol = self.protocol;
        match find_declared(&protocol.frees.items, word) {
            Some((number, _)) => Some(Named {
                symbol: Sym::Free(number),
                arity: 0,
            }),
            None => match find_declared(&protocol.ctors.items, word) {
                Some((number, declared)) => Some(Named {
                    symbol: if declared.is_data {
                        Sym::Data(number)
                    } else {
                        Sym::Ctor(number)
                    },
                    arity: declared.arity,
                }),
                None => None,
            },
        }
    }

    /// The name of the restriction with this word at the point.
    #[tactic(auto, using(crate::proofs::Points::by_point))]
    pub fn name_called(&self, word: &[u8], point: u32) -> Option<Named>
        ensures { found_of result ≡ name_called (protocol_of self.now.protocol.now) word.now point }
    {
        if point == 0 || point > self.protocol.count(Kind::Point) {
            return None;
        }
        if is_restriction_of(word, self.protocol.node(point)) {
            Some(Named {
                symbol: Sym::Point(point),
                arity: self.protocol.name_args(point),
            })
        } else {
            None
        }
    }

    /// The event of the word.
    pub fn event_called(&self, word: &[u8]) -> Option<CalledEvent>
        ensures { event_of result ≡ event_called (protocol_of self.now.protocol.now) word.now }
    {
        let protocol = self.protocol;
        called_in(&protocol.events.items, word)
    }

    /// The table of the word.
    pub fn table_called(&self, word: &[u8]) -> Option<CalledEvent>
        ensures { event_of result ≡ table_called (protocol_of self.now.protocol.now) word.now }
    {
        let protocol = self.protocol;
        called_in(&protocol.tables.items, word)
    }

    /// Whether facts may have the number as the phase of their predicate: a phase of the protocol but 0.
    pub fn is_later_phase(&self, phase: u32) -> bool
        ensures { result ≡ is_later_phase (protocol_of self.now.protocol.now) phase }
    {
        0 < phase && phase <= self.greatest
    }
}
