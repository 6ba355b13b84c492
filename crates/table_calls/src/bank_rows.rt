//! Rows about banks: the verdicts of a protocol over the plain bank and over the shared one, which are equal.
//!
//! `file TEXT` sets the protocol, and `ring N` the one of the ring of N keys. A row is `verdicts` and a word for each query.

ghost use Rattle.std.specs.Prelude.{IfSome};
ghost use Rattle.pi_tree.specs.Protocols.{protocol_of};
ghost use Rattle.table_calls.specs.Verified.{CanBeVerified};

use crate::log_rows::texts::{add_due, add_entries, add_large};
use limits::MOST_KEYS;
use pi_tree::Protocol;
use query_verify::{Verdict, Verdicts, verdicts};
use ring_writer::make_ring;
use run_replay::Steps;
use spec_protocol_scope::{proper_rules, query_leaves, well_scoped, within_limits};
use std::alloc::{AllocError, Global};
use table_protocols::spelled;
use table_rows::{Line, compared, named, unknown};
use table_texts::signature::number_in;
use term_store::SharedBank;
use term_tree::{Bank, TreeBank};

/// How many entries a log may have.
const BUDGET: u64 = 10_000;

/// The rows of a table about banks.
#[derive(Drop)]
pub struct BankRows {
    /// The file that was set last.
    file: Vec<u8>,
}

/// What a line of the table is.
#[derive(Clone, Copy)]
enum Part {
    File,
    Ring,
    Verdicts,
}

/// What lines are, by their first words.
const PARTS: [(&str, Part); 3] = [
    ("file", Part::File),
    ("ring", Part::Ring),
    ("verdicts", Part::Verdicts),
];

impl BankRows {
    /// No line is read, and the file is empty.
    pub fn new(alloc: Global) -> BankRows {
        BankRows {
            file: Vec::new(alloc),
        }
    }

    /// Sets the file, or compares what a row shows with what it expects.
    pub fn follow(&mut self, alloc: Global, line: &str) -> Result<Line, AllocError> {
        let (word, text) = line.split_once(' ').unwrap_or((line, ""));
        match named(&PARTS, word) {
            Some(Part::File) => self.set(Vec::from_slice(alloc, text.as_bytes())?),
            Some(Part::Ring) => self.set(ring_of(alloc, u64::from(number_in(text.as_bytes())))?),
            Some(Part::Verdicts) => Ok(compared(over_both(alloc, &self.file)?, text)),
            None => unknown(alloc),
        }
    }

    /// Sets the file.
    fn set(&mut self, file: Vec<u8>) -> Result<Line, AllocError> {
        self.file = file;
        Ok(Line::Setting)
    }
}

/// The text of the ring of so many keys; of too few or too many, none.
fn ring_of(alloc: Global, keys: u64) -> Result<Vec<u8>, AllocError> {
    if keys < 2 || MOST_KEYS < keys {
        return Ok(Vec::new(alloc));
    }
    make_ring(alloc, keys)
}

/// The protocol that the bytes spell, if they spell one.
fn read(alloc: Global, bytes: &[u8]) -> Option<Box<Protocol>>
    ensures { IfSome result (λ protocol. CanBeVerified (protocol_of protocol.value)) }
{
    within_limits();
    proper_rules();
    well_scoped();
    query_leaves();
    let protocol = spelled(alloc, bytes)?;
    Some(protocol)
}

/// A word for each verdict, where both banks give the same verdicts.
fn over_both(alloc: Global, file: &[u8]) -> Result<String, AllocError> {
    match read(alloc, file) {
        Some(protocol) => words_over_both(alloc, &protocol),
        None => String::from_str(alloc, "no protocol"),
    }
}

/// The same of a protocol.
fn words_over_both(alloc: Global, protocol: &Protocol) -> Result<String, AllocError>
    requires { CanBeVerified (protocol_of protocol.now) }
{
    let mut trees = TreeBank::new(alloc)?;
    let plain = verdicts_told(alloc, &mut trees, protocol)?;
    let mut terms = SharedBank::new(alloc)?;
    let shared = verdicts_told(alloc, &mut terms, protocol)?;
    if plain.whole.as_str() != shared.whole.as_str() {
        return String::from_str(alloc, "the banks differ");
    }
    Ok(plain.words)
}

/// Verdicts: a word for each, and all that they have.
#[derive(Drop)]
struct Told {
    words: String,
    whole: String,
}

/// The verdicts over a bank.
fn verdicts_told<B: Bank>(
    alloc: Global,
    bank: &mut B,
    protocol: &Protocol,
) -> Result<Told, AllocError>
    requires { CanBeVerified (protocol_of protocol.now) }
{
    let all = verdicts(alloc, bank, protocol, BUDGET)?;
    told_of(alloc, &all)
}

/// What is told of verdicts.
fn told_of(alloc: Global, all: &Verdicts) -> Result<Told, AllocError> {
    let mut told = Told {
        words: String::new(alloc),
        whole: String::new(alloc),
    };
    for verdict in &all.items {
        told.tell(alloc, verdict)?;
    }
    Ok(told)
}

impl Told {
    /// Adds a verdict.
    fn tell(&mut self, alloc: Global, verdict: &Verdict) -> Result<(), AllocError> {
        if !self.words.is_empty() {
            self.words.push(' ')?;
        }
        self.words.push_str(word_of(verdict))?;
        self.whole.push_str(word_of(verdict))?;
        self.add(alloc, verdict)
    }

    /// Adds what a verdict has.
    fn add(&mut self, alloc: Global, verdict: &Verdict) -> Result<(), AllocError> {
        match verdict {
            Verdict::Proved(cert) => self.whole.push_str(format!(in alloc; "{cert:?}")?.as_str()),
            Verdict::Budget(log, due) => {
                add_entries(alloc, log, &mut self.whole)?;
                add_due(alloc, due, &mut self.whole)
            }
            Verdict::SizePair(log, solved, unsolved) => {
                add_entries(alloc, log, &mut self.whole)?;
                add_large(alloc, *solved, *unsolved, &mut self.whole)
            }
            Verdict::SizePoint(point) => {
                self.whole.push_str(format!(in alloc; " {point}")?.as_str())
            }
            Verdict::Unmet(log, number) => {
                add_entries(alloc, log, &mut self.whole)?;
                self.whole
                    .push_str(format!(in alloc; " {number}")?.as_str())
            }
            Verdict::Attack(steps) => add_steps(alloc, steps, &mut self.whole),
        }
    }
}

/// Adds the steps of a run.
fn add_steps(alloc: Global, steps: &Steps, text: &mut String) -> Result<(), AllocError> {
    for step in &steps.items {
        text.push_str(format!(in alloc; " {step:?}")?.as_str())?;
    }
    Ok(())
}

/// What a verdict is called.
fn word_of(verdict: &Verdict) -> &'static str {
    match verdict {
        Verdict::Proved(_) => "proved",
        Verdict::Budget(..) => "budget",
        Verdict::SizePair(..) => "pair",
        Verdict::SizePoint(_) => "point",
        Verdict::Unmet(..) => "clause",
        Verdict::Attack(_) => "attack",
    }
}
