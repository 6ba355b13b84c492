//! The derivation of an entry of a log, from given clauses by resolvents, as lines.

ghost use Rattle.std.specs.Prelude.{◌≡◌, ℕ, List, [], ◌∷◌, IfOk, OnOk};
ghost use Rattle.std.specs.List.{list_any};
ghost use Rattle.spec_saturation.specs.Key.{Entry};
ghost use Rattle.log_entries.specs.PlainLogs.{TellPlainLog};
ghost use Rattle.log_text.specs.declared.tree.Line.{Line as ToldLine};
ghost use Rattle.log_text.specs.Derived.{is_of, Derives, IsWhole, IsLineIn, GoesBehind};

use log_entries::{Origin, PlainLog};
use std::alloc::{AllocError, Global};

/// The most lines in which a derivation is told.
pub const MOST_LINES: usize = 1_000;

/// What is told of an entry.
#[derive(Clone, Copy)]
pub enum Part {
    /// Where it comes from: a leaf is a given clause, a node a resolvent of two entries.
    Told(Origin),
    /// It was told before.
    Before,
}

/// A line of a derivation: the number of an entry, from 1, and what is told of it.
#[derive(Clone, Copy)]
pub struct Line {
    pub entry: usize,
    pub part: Part,
}

/// The derivation of an entry: each entry of it stands before the two that it is a resolvent of, first the solved one with all that
/// it comes from. Of an entry that comes again only the number is told.
#[derive(Drop)]
pub struct Derivation {
    pub lines: Vec<Line>,
    /// The entries whose derivations are still to be told, the next one last.
    pub rest: Vec<usize>,
}

impl Derivation {
    /// Nothing yet of the entry of that number.
    fn new(alloc: Global, number: usize) -> Result<Derivation, AllocError>
        ensures lines { IfOk result (λ made. made.lines.items ≡ []) }
        ensures rest { IfOk result (λ made. made.rest.items ≡ number ∷ []) }
    {
        let mut rest = Vec::new(alloc);
        rest.push(number)?;
        Ok(Derivation {
            lines: Vec::new(alloc),
            rest,
        })
    }

    /// Whether the entry was told.
    fn has_told(&self, number: usize) -> bool
        ensures { result ≡ list_any (is_of number) self.now.lines.items }
    {
        'each: for line in &self.lines {
            if line.entry == number {
                return true;
            }
        }
        false
    }

    /// Whence the entry is told, which is in the log.
    fn part_of(&self, log: &PlainLog, number: usize) -> Option<Part>
        ensures { (entries : List Entry) → TellPlainLog log.now entries →
            IsLineIn entries self.now.lines.items number result }
    {
        if self.has_told(number) {
            return Some(Part::Before);
        }
        match number.checked_sub(1) {
            None => None,
            Some(index) => match log.items.get(index) {
                None => None,
                Some(entry) => Some(Part::Told(entry.origin)),
            },
        }
    }

    /// One more line, and what is due behind it.
    fn add(&mut self, entry: usize, part: Part) -> Result<(), AllocError>
        ensures { OnOk result (GoesBehind self.old self.new entry part) }
    {
        self.lines.push(Line { entry, part })?;
        if let Part::Told(
            Origin::Resolvent {
                solved,
                unsolved,
                ..
            },
        ) = part
        {
            self.rest.push(unsolved)?;
            self.rest.push(solved)?;
        }
        Ok(())
    }

    /// Tells the next entry that is due, and whether there was one.
    fn tell_next(&mut self, log: &PlainLog) -> Result<bool, AllocError>
        ensures { (entries : List Entry) (number : ℕ) → TellPlainLog log.now entries →
            Derives entries number self.old.lines.items self.old.rest.items → OnOk result
            (Derives entries number self.new.lines.items self.new.rest.items) }
    {
        let Some(entry) = self.rest.pop() else {
            return Ok(false);
        };
        let Some(part) = self.part_of(log, entry) else {
            self.rest.push(entry)?;
            return Ok(false);
        };
        self.add(entry, part)?;
        Ok(true)
    }
}

/// The derivation of the entry of that number, in no more than `MOST_LINES` lines.
pub fn entry_derivation(
    alloc: Global,
    log: &PlainLog,
    number: usize,
) -> Result<Derivation, AllocError>
    ensures { (entries : List Entry) → TellPlainLog log.now entries → IfOk result (λ made.
        Derives entries number made.lines.items made.rest.items) }
{
    let mut made = Derivation::new(alloc, number)?;
    'each: for _line in 0..MOST_LINES {
        if !made.tell_next(log)? {
            return Ok(made);
        }
    }
    Ok(made)
}

/// A derivation of which nothing is left is whole: it begins with its entry, and with each resolvent both entries that it is of are
/// told.
pub fn derivations_are_whole()
    ensures { (log : List Entry) (number : ℕ) (lines : List ToldLine) →
        Derives log number lines [] → IsWhole number lines }
{}
