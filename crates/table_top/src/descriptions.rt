//! What a protocol tells of its names, queries and points by their number.

ghost use Rattle.std.specs.Prelude.{◌≡◌, ◌<◌, ◌≤◌, true};
ghost use Rattle.pi_tree.specs.Protocols.{protocol_of};
ghost use Rattle.pi_tree.specs.Accessors.{IsThere};
ghost use Rattle.pi_tree.specs.declared.accessors.Kind.TheVariants.{Free, Ctor, Dtor, Event, Table, Point};

use pi_tree::{Kind, Process, Protocol, Query};
use std::alloc::{AllocError, Global};

/// The kinds of what has a number, in the order in which they are told.
const KINDS: [Kind; 7] = [
    Kind::Free,
    Kind::Ctor,
    Kind::Dtor,
    Kind::Event,
    Kind::Table,
    Kind::Query,
    Kind::Point,
];

/// Whether there is one of the kind with that number.
fn is_there(protocol: &Protocol, kind: Kind, number: u32) -> bool
    ensures { result ≡ true → IsThere (protocol_of protocol.now) kind number }
{
    0 < number && number <= protocol.count(kind)
}

/// The bytes that spell a word.
fn spelled(word: &[u8]) -> &str {
    std::str::from_utf8(word).unwrap_or("no text")
}

/// A free name: its word, and whether it is public.
fn free_name(alloc: Global, protocol: &Protocol, number: u32) -> Result<String, AllocError>
    requires { IsThere (protocol_of protocol.now) Free number }
{
    let word = spelled(protocol.word(Kind::Free, number));
    let is_public = protocol.is_public(Kind::Free, number);
    format!(in alloc; "free {word} {is_public}; ")
}

/// A constructor: its word and arity, and whether it is public and data.
fn constructor(alloc: Global, protocol: &Protocol, number: u32) -> Result<String, AllocError>
    requires { IsThere (protocol_of protocol.now) Ctor number }
{
    let word = spelled(protocol.word(Kind::Ctor, number));
    let arity = protocol.arity(Kind::Ctor, number);
    let is_public = protocol.is_public(Kind::Ctor, number);
    let is_data = protocol.is_data(number);
    format!(in alloc; "fun {word}/{arity} {is_public} {is_data}; ")
}

/// A destructor: its word and arity, and how many rules it has.
fn destructor(alloc: Global, protocol: &Protocol, number: u32) -> Result<String, AllocError>
    requires { IsThere (protocol_of protocol.now) Dtor number }
{
    let word = spelled(protocol.word(Kind::Dtor, number));
    let arity = protocol.arity(Kind::Dtor, number);
    let rules = protocol.rules(number).len();
    format!(in alloc; "reduc {word}/{arity} {rules}; ")
}

/// An event: its word and arity.
fn event(alloc: Global, protocol: &Protocol, number: u32) -> Result<String, AllocError>
    requires { IsThere (protocol_of protocol.now) Event number }
{
    let word = spelled(protocol.word(Kind::Event, number));
    let arity = protocol.arity(Kind::Event, number);
    format!(in alloc; "event {word}/{arity}; ")
}

/// A table: its word and arity.
fn table(alloc: Global, protocol: &Protocol, number: u32) -> Result<String, AllocError>
    requires { IsThere (protocol_of protocol.now) Table number }
{
    let word = spelled(protocol.word(Kind::Table, number));
    let arity = protocol.arity(Kind::Table, number);
    format!(in alloc; "table {word}/{arity}; ")
}

/// What a query asks for; of one of secrecy the phase where it isn't 0.
fn query_text(alloc: Global, query: &Query) -> Result<String, AllocError> {
    match query {
        Query::Secret(_, 0) => String::from_str(alloc, "secret; "),
        Query::Secret(_, phase) => format!(in alloc; "secret phase {phase}; "),
        Query::SecretNew(point, 0) => format!(in alloc; "secret {point}; "),
        Query::SecretNew(point, phase) => format!(in alloc; "secret {point} phase {phase}; "),
        Query::Corr { .. } => String::from_str(alloc, "correspondence; "),
    }
}

/// The form of a node, by a letter; of a restriction the word too.
fn form(process: &Process) -> &'static str {
    match process {
        Process::Nil => "0",
        Process::Output(..) => "out",
        Process::Input(..) => "in",
        Process::Par(..) => "|",
        Process::Copies(_) => "!",
        Process::New(..) => "new ",
        Process::Let(..) => "let",
        Process::Event(..) => "event",
        Process::Phase(..) => "phase",
        Process::Insert(..) => "insert",
        Process::Get(..) => "get",
    }
}

/// The word of what has that number; none where nothing has it, or it has no word.
fn word_at(protocol: &Protocol, point: u32) -> &str {
    if !is_there(protocol, Kind::Point, point) {
        return "";
    }
    match protocol.node(point) {
        Process::New(..) => spelled(protocol.word(Kind::Point, point)),
        _ => "",
    }
}

/// A point: the form of the node, the word of a restriction, and how many arguments a name that is made there has.
fn point(alloc: Global, protocol: &Protocol, number: u32) -> Result<String, AllocError>
    requires { IsThere (protocol_of protocol.now) Point number }
{
    let form = form(protocol.node(number));
    let word = word_at(protocol, number);
    let arguments = protocol.name_args(number);
    format!(in alloc; "{form}{word} {arguments}; ")
}

/// What the protocol tells of what has that number.
fn told(alloc: Global, protocol: &Protocol, kind: Kind, number: u32) -> Result<String, AllocError>
    requires { IsThere (protocol_of protocol.now) kind number }
{
    match kind {
        Kind::Free => free_name(alloc, protocol, number),
        Kind::Ctor => constructor(alloc, protocol, number),
        Kind::Dtor => destructor(alloc, protocol, number),
        Kind::Event => event(alloc, protocol, number),
        Kind::Table => table(alloc, protocol, number),
        Kind::Query => query_text(alloc, protocol.query(number)),
        Kind::Point => point(alloc, protocol, number),
    }
}

/// The same of all of a kind.
fn all_told(alloc: Global, protocol: &Protocol, kind: Kind) -> Result<String, AllocError> {
    let mut text = String::new(alloc);
    for index in 0..protocol.count(kind) {
        text.push_str(told(alloc, protocol, kind, index + 1)?.as_str())?;
    }
    Ok(text)
}

/// All that the protocol tells.
pub fn description(alloc: Global, protocol: &Protocol) -> Result<String, AllocError> {
    let mut text = String::new(alloc);
    for kind in KINDS {
        text.push_str(all_told(alloc, protocol, kind)?.as_str())?;
    }
    Ok(text)
}
