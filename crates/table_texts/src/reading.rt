//! Reads clauses, as `att(v0), mess(c,(v0,d)), diff(v0,?0;c,f(?0)) => ev(e(f(v0)))`. A phase other than 0 stands behind its
//! predicate, as in `att@1(v0)`. The variables that a constraint binds are numbered from the least number on that is above all
//! variables of the clause.
//!
//! A clause is read byte by byte, without recursion: what is open stands on a stack.

use crate::signature::{above_variables_in, event_of, number_in, symbol_of, table_of, variable_of};
use clause_form::{PlainClause, PlainDiff, PlainDiffs, PlainFact, PlainFacts, Tree, Trees};
use std::alloc::{AllocError, Global};
use std::mem;

/// A name whose bracket is open, and the terms within it that are read: those before a `;`, and the others.
#[derive(Drop)]
struct Open {
    name: Vec<u8>,
    left: Vec<Tree>,
    items: Vec<Tree>,
}

/// A clause as far as it is read.
#[derive(Drop)]
struct Reader {
    name: Vec<u8>,
    open: Vec<Open>,
    facts: Vec<PlainFact>,
    diffs: Vec<PlainDiff>,
    /// The number from which on constraints bind variables.
    first: u32,
    /// How many facts are hypotheses, once that is known.
    hyps: Option<usize>,
    /// Whether all could be read.
    is_right: bool,
}

impl Reader {
    /// Reads all bytes.
    fn read_all(&mut self, alloc: Global, bytes: &[u8]) -> Result<(), AllocError> {
        for byte in bytes {
            self.read(alloc, *byte)?;
        }
        self.end_name(alloc)
    }

    /// Reads the next byte.
    fn read(&mut self, alloc: Global, byte: u8) -> Result<(), AllocError> {
        match byte {
            b' ' | b'>' => Ok(()),
            b',' => self.end_name(alloc),
            b';' => self.divide(alloc),
            b'(' | b'[' => self.begin(alloc),
            b')' | b']' => self.end(alloc),
            b'=' => self.conclude(alloc),
            _ => {
                self.name.push(byte)?;
                Ok(())
            }
        }
    }

    /// What stands until here are the hypotheses.
    fn conclude(&mut self, alloc: Global) -> Result<(), AllocError> {
        self.end_name(alloc)?;
        self.hyps = Some(self.facts.len());
        Ok(())
    }

    /// What stands within the bracket until here are the left sides of a constraint.
    fn divide(&mut self, alloc: Global) -> Result<(), AllocError> {
        self.end_name(alloc)?;
        match self.open.last_mut() {
            Some(open) => {
                let left = mem::replace(&mut open.items, Vec::new(alloc));
                let none = mem::replace(&mut open.left, left);
                drop(none);
            }
            None => self.is_right = false,
        }
        Ok(())
    }

    /// Ends a name, and closes the bracket that was opened last.
    fn end(&mut self, alloc: Global) -> Result<(), AllocError> {
        self.end_name(alloc)?;
        self.close()
    }

    /// Opens a bracket behind a name.
    fn begin(&mut self, alloc: Global) -> Result<(), AllocError> {
        let name = mem::replace(&mut self.name, Vec::new(alloc));
        self.open.push(Open {
            name,
            left: Vec::new(alloc),
            items: Vec::new(alloc),
        })?;
        Ok(())
    }

    /// Ends a name without a bracket, if there is one.
    fn end_name(&mut self, alloc: Global) -> Result<(), AllocError> {
        if self.name.is_empty() {
            return Ok(());
        }
        let name = mem::replace(&mut self.name, Vec::new(alloc));
        self.put(&name, Vec::new(alloc))
    }

    /// Closes the bracket that was opened last.
    fn close(&mut self) -> Result<(), AllocError> {
        match self.open.pop() {
            Some(open) => self.put_closed(open),
            None => {
                self.is_right = false;
                Ok(())
            }
        }
    }

    /// Adds what stood in a bracket: a constraint, a fact or a term.
    fn put_closed(&mut self, closed: Open) -> Result<(), AllocError> {
        let Open { name, left, items } = closed;
        if self.open.is_empty() && is_constraint(&name) {
            return self.put_diff(left, items);
        }
        if !left.is_empty() {
            self.is_right = false;
        }
        self.put(&name, items)
    }

    /// Adds a constraint, which has as many left sides as right ones.
    fn put_diff(&mut self, left: Vec<Tree>, right: Vec<Tree>) -> Result<(), AllocError> {
        if left.len() != right.len() {
            self.is_right = false;
        }
        self.diffs.push(PlainDiff {
            first: self.first,
            left: Trees { items: left },
            right: Trees { items: right },
        })?;
        Ok(())
    }

    /// The number from which on variables are bound where a name stands: none outside of constraints.
    fn bound_from(&self) -> Option<u32> {
        match self.open.first() {
            Some(open) => {
                if is_constraint(&open.name) {
                    Some(self.first)
                } else {
                    None
                }
            }
            None => None,
        }
    }

    /// Adds what stands so: a fact where no bracket is open, and else a term.
    fn put(&mut self, name: &[u8], items: Vec<Tree>) -> Result<(), AllocError> {
        if self.open.is_empty() {
            self.put_fact(fact_of(name, items))
        } else {
            let bound = self.bound_from();
            self.put_term(term_of(name, bound, items))
        }
    }

    /// Adds a fact, if there is one.
    fn put_fact(&mut self, fact: Option<PlainFact>) -> Result<(), AllocError> {
        match fact {
            Some(fact) => self.facts.push(fact)?,
            None => self.is_right = false,
        }
        Ok(())
    }

    /// Adds a term, if there is one, to those of the bracket that was opened last.
    fn put_term(&mut self, term: Option<Tree>) -> Result<(), AllocError> {
        match term {
            Some(term) => self.put_item(term),
            None => {
                self.is_right = false;
                Ok(())
            }
        }
    }

    /// Adds a term to those of the bracket that was opened last.
    fn put_item(&mut self, term: Tree) -> Result<(), AllocError> {
        match self.open.last_mut() {
            Some(open) => open.items.push(term)?,
            None => self.is_right = false,
        }
        Ok(())
    }

    /// The clause that was read, if one was.
    fn finish(self) -> Option<PlainClause> {
        let Reader {
            mut facts,
            diffs,
            open,
            hyps,
            is_right,
            ..
        } = self;
        let hyps = hyps?;
        let concl = facts.pop()?;
        if facts.len() != hyps || !open.is_empty() || !is_right {
            return None;
        }
        Some(PlainClause {
            hyps: PlainFacts { items: facts },
            diffs: PlainDiffs { items: diffs },
            concl,
        })
    }
}

/// Whether the name is that of a constraint.
fn is_constraint(name: &[u8]) -> bool {
    match name {
        b"diff" => true,
        _ => false,
    }
}

/// The term with this name over these terms, where variables are bound from this number on.
fn term_of(name: &[u8], bound: Option<u32>, items: Vec<Tree>) -> Option<Tree> {
    match variable_of(name, bound) {
        Some(number) => Some(Tree::Var(number)),
        None => match symbol_of(name, items.len()) {
            Some(symbol) => Some(Tree::App(symbol, Trees { items })),
            None => None,
        },
    }
}

/// The predicate in the name of a fact, in which a phase may stand behind it.
fn predicate_in(name: &[u8]) -> &[u8] {
    match name.iter().position(|byte| *byte == b'@') {
        Some(place) => &name[..place],
        None => name,
    }
}

/// The fact with this name over these terms.
fn fact_of(name: &[u8], items: Vec<Tree>) -> Option<PlainFact> {
    let phase = number_in(name);
    match predicate_in(name) {
        b"att" => known(phase, items),
        b"mess" => message(phase, items),
        b"tab" => entry(items),
        b"ev" => event(false, items),
        b"mev" => event(true, items),
        b"bad" => Some(PlainFact::Bad(Trees { items })),
        _ => None,
    }
}

/// `att` of one term.
fn known(phase: u32, mut items: Vec<Tree>) -> Option<PlainFact> {
    match items.pop() {
        Some(term) => Some(PlainFact::Att(phase, term)),
        None => None,
    }
}

/// `mess` of two terms.
fn message(phase: u32, mut items: Vec<Tree>) -> Option<PlainFact> {
    match items.pop() {
        Some(message) => match items.pop() {
            Some(channel) => Some(PlainFact::Mess(phase, channel, message)),
            None => None,
        },
        None => None,
    }
}

/// `tab` of an entry.
fn entry(mut items: Vec<Tree>) -> Option<PlainFact> {
    match items.pop() {
        Some(Tree::App(symbol, arguments)) => match table_of(symbol) {
            Some(table) => Some(PlainFact::Tab(table, arguments)),
            None => None,
        },
        _ => None,
    }
}

/// `mev` or `ev` of an event.
fn event(must: bool, mut items: Vec<Tree>) -> Option<PlainFact> {
    match items.pop() {
        Some(Tree::App(symbol, arguments)) => match event_of(symbol) {
            Some(event) => Some(event_fact(must, event, arguments)),
            None => None,
        },
        _ => None,
    }
}

/// The same of the event with this number and these arguments.
fn event_fact(must: bool, event: u32, arguments: Trees) -> PlainFact {
    if must {
        PlainFact::Mev(event, arguments)
    } else {
        PlainFact::Ev(event, arguments)
    }
}

/// The clause that a text spells, if it spells one.
pub fn clause_of(alloc: Global, text: &str) -> Result<Option<Box<PlainClause>>, AllocError> {
    let mut reader = Reader {
        name: Vec::new(alloc),
        open: Vec::new(alloc),
        facts: Vec::new(alloc),
        diffs: Vec::new(alloc),
        first: above_variables_in(text.as_bytes()),
        hyps: None,
        is_right: true,
    };
    reader.read_all(alloc, text.as_bytes())?;
    match reader.finish() {
        Some(clause) => Ok(Some(Box::new(alloc, clause)?)),
        None => Ok(None),
    }
}
