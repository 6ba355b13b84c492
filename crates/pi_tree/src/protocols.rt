//! Queries and protocols.

ghost use Rattle.std.specs.Prelude.{◌≡◌, ◌↔◌, IsTrue, IfOk};
ghost use Rattle.spec_trees.specs.Tree.{some_leaf, some_leaves, trees};
ghost use Rattle.spec_calculus.specs.Absence.{is_private, is_absent_name, IsAbsent};
ghost use Rattle.pi_tree.specs.Terms.{term_of};
ghost use Rattle.pi_tree.specs.Queries.{query_of};
ghost use Rattle.pi_tree.specs.Protocols.{protocol_of};

use crate::destructors::Dtors;
use crate::names::Declarations;
use crate::syntax::{Atom, Atoms, Process, Term, Terms};
use std::alloc::{AllocError, Global};
use std::marker::Model;

/// The alternatives of a correspondence in order, each of them some events.
#[derive(Debug)]
pub struct Alternatives {
    pub items: Vec<Atoms>,
}

impl Drop for Alternatives {
    fn drop(self) {
        let Alternatives { items } = self;
        drop(items);
    }
}

impl Model for Alternatives {
    ghost use Rattle.std.specs.Prelude.{List, map};
    ghost use Rattle.spec_calculus.specs.Syntax as calculus;
    ghost use Rattle.spec_calculus.specs.Codes.{coded_alternatives};

    ghost Value = { List (List calculus.EventTerm) };

    ghost coded = { coded_alternatives };

    ghost view = { λ a. a.items.items };
}

/// What is asked of a protocol.
#[derive(Debug)]
pub enum Query {
    /// Does the attacker not get to know the message up to the phase, which is the second?
    Secret(Term, u32),
    /// Does the attacker not get to know a name that the restriction at that point made, up to the phase, which is
    /// the second?
    SecretNew(u32, u32),
    /// Is each event that is an instance of the left one preceded by all events of one of the
    /// alternatives?
    Corr {
        left: Atom,
        alternatives: Alternatives,
    },
}

impl Drop for Query {
    fn drop(self) {
        match self {
            Query::Secret(part, _) => drop(part),
            Query::SecretNew(_, _) => {}
            Query::Corr { left, alternatives } => {
                drop(left);
                drop(alternatives);
            }
        }
    }
}

/// Queries in order; they are numbered from 1.
#[derive(Debug)]
pub struct Queries {
    pub items: Vec<Query>,
}

impl Drop for Queries {
    fn drop(self) {
        let Queries { items } = self;
        drop(items);
    }
}

impl Model for Queries {
    ghost use Rattle.std.specs.Prelude.{List, map};
    ghost use Rattle.spec_calculus.specs.Syntax as calculus;
    ghost use Rattle.spec_calculus.specs.Codes.{coded_queries};

    ghost Value = { List calculus.Query };

    ghost coded = { coded_queries };

    ghost use Rattle.pi_tree.specs.Queries.{query_of};

    ghost view = { λ a. map query_of a.items.items };
}

/// A protocol: its declarations, its queries and its main process.
#[derive(Debug)]
pub struct Protocol {
    pub frees: Declarations,
    pub ctors: Declarations,
    pub dtors: Dtors,
    pub events: Declarations,
    pub tables: Declarations,
    pub queries: Queries,
    pub main: Process,
}

impl Drop for Protocol {
    fn drop(self) {
        let Protocol {
            frees,
            ctors,
            dtors,
            events,
            tables,
            queries,
            main,
        } = self;
        drop(frees);
        drop(ctors);
        drop(dtors);
        drop(events);
        drop(tables);
        drop(queries);
        drop(main);
    }
}

/// Whether the number is that of a private free name.
#[tactic(auto, using(crate::proofs::Numbers::by_number))]
fn is_private_free(frees: &Declarations, number: u32) -> bool
    ensures { result ≡ is_private frees.now number }
{
    match number.checked_sub(1) {
        None => false,
        Some(index) => match frees.items.get(index as usize) {
            None => false,
            Some(declared) => !declared.public,
        },
    }
}

/// Whether the term holds a private free name that no term of the main process holds.
#[cycle(absent)]
fn holds_absent(term: &Term, protocol: &Protocol) -> bool
    ensures { result ≡ some_leaf (is_absent_name (protocol_of protocol.now)) (term_of term.now) }
{
    match term {
        Term::Var(_) | Term::Made(_) => false,
        Term::Free(number) => {
            is_private_free(&protocol.frees, *number) && !protocol.main.holds_free(*number)
        }
        Term::App(_, arguments) => hold_absent(arguments, protocol),
        Term::Tuple(parts) => hold_absent(parts, protocol),
    }
}

/// Whether one of the terms does.
#[cycle(absent)]
fn hold_absent(terms: &Terms, protocol: &Protocol) -> bool
    ensures { result ≡ some_leaves (is_absent_name (protocol_of protocol.now)) (trees terms.now) }
{
    for term in &terms.items {
        if holds_absent(term, protocol) {
            return true;
        }
    }
    false
}

/// Whether the query asks for a message with a private free name that no term of the main process
/// holds: then no run violates it.
pub fn is_absent(protocol: &Protocol, query: &Query) -> bool
    ensures { IsTrue result ↔ IsAbsent (protocol_of protocol.now) (query_of query.now) }
{
    match query {
        Query::Secret(message, _) => holds_absent(message, protocol),
        Query::SecretNew(_, _) | Query::Corr { .. } => false,
    }
}

impl Alternatives {
    /// A copy, item by item.
    pub fn copy(&self, alloc: Global) -> Result<Alternatives, AllocError>
        ensures { IfOk result (λ copied. copied ≡ self.now) }
    {
        let mut items = Vec::new(alloc);
        for atoms in &self.items {
            items.push(atoms.copy(alloc)?)?;
        }
        Ok(Alternatives { items })
    }
}

impl Query {
    /// A copy, its terms copied.
    pub fn copy(&self, alloc: Global) -> Result<Query, AllocError>
        ensures { IfOk result (λ copied. copied ≡ self.now) }
    {
        match self {
            Query::Secret(message, phase) => Ok(Query::Secret(message.copy(alloc)?, *phase)),
            Query::SecretNew(point, phase) => Ok(Query::SecretNew(*point, *phase)),
            Query::Corr { left, alternatives } => Ok(Query::Corr {
                left: left.copy(alloc)?,
                alternatives: alternatives.copy(alloc)?,
            }),
        }
    }
}

impl Queries {
    /// A copy, item by item.
    pub fn copy(&self, alloc: Global) -> Result<Queries, AllocError>
        ensures { IfOk result (λ copied. copied ≡ self.now) }
    {
        let mut items = Vec::new(alloc);
        for query in &self.items {
            items.push(query.copy(alloc)?)?;
        }
        Ok(Queries { items })
    }
}

impl Protocol {
    /// A copy, all its parts copied.
    pub fn copy(&self, alloc: Global) -> Result<Protocol, AllocError>
        ensures { IfOk result (λ copied. protocol_of copied ≡ protocol_of self.now) }
    {
        Ok(Protocol {
            frees: self.frees.copy(alloc)?,
            ctors: self.ctors.copy(alloc)?,
            dtors: self.dtors.copy(alloc)?,
            events: self.events.copy(alloc)?,
            tables: self.tables.copy(alloc)?,
            queries: self.queries.copy(alloc)?,
            main: self.main.copy(alloc)?,
        })
    }
}
