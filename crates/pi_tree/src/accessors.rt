//! What a protocol tells of its names, rules, queries and points by their number.

ghost use Rattle.std.specs.Prelude.{◌≡◌, ◌<◌, ◌≤◌, length, map, Some, option_map};
ghost use Rattle.spec_calculus.specs.Points.{numbered, nodes, name_arguments, greatest_phase};
ghost use Rattle.pi_tree.specs.Names.{declared_of};
ghost use Rattle.pi_tree.specs.Rules.{rule_of, destructor_of};
ghost use Rattle.pi_tree.specs.Queries.{query_of};
ghost use Rattle.pi_tree.specs.Processes.{process_of};
ghost use Rattle.pi_tree.specs.Protocols.{protocol_of};
ghost use Rattle.pi_tree.specs.Accessors.{capped, count_of, IsThere, HasWord, word_of, HasPublicity, publicity_of, HasArity, destructor_arity, arity_of};

use crate::destructors::{Dtor, Dtors, Rule, Rules};
use crate::names::{Declarations, Declared};
use crate::points::Walk;
use crate::protocols::{Protocol, Query};
use crate::syntax::Process;

/// What a protocol numbers from 1: its declared names of each kind, its queries, and the points of its
/// main process, which are the nodes in pre-order.
#[derive(Clone, Copy, Debug, Drop)]
pub enum Kind {
    Free,
    Ctor,
    Dtor,
    Event,
    Table,
    Query,
    Point,
}

/// A number of items, or the greatest number of the type where there are more.
pub(crate) fn capped(count: usize) -> u32
    ensures { result ≡ capped count }
{
    match u32::try_from(count) {
        Ok(number) => number,
        Err(_) => u32::MAX,
    }
}

impl Declarations {
    /// The declared name of that number.
    #[tactic(auto, using(crate::proofs::Items::by_number))]
    pub(crate) fn declared(&self, number: u32) -> &Declared
        requires there { (0 < number) × (number ≤ length self.now) }
        ensures { numbered self.now number ≡ Some (declared_of result.now) }
    {
        &self.items[(number - 1) as usize]
    }
}

impl Dtors {
    /// The destructor of that number.
    #[tactic(auto, using(crate::proofs::Items::by_number))]
    pub(crate) fn destructor(&self, number: u32) -> &Dtor
        requires there { (0 < number) × (number ≤ length self.now) }
        ensures { numbered self.now number ≡ Some (destructor_of result.now) }
    {
        &self.items[(number - 1) as usize]
    }
}

impl Rules {
    /// How many arguments the rules take: as many as the first, since all take as many.
    fn arity(&self) -> u32
        ensures { result ≡ destructor_arity self.now }
    {
        match self.items.first() {
            None => 0,
            Some(rule) => capped(rule.left.items.len()),
        }
    }
}

impl Protocol {
    /// How many there are of the kind, or the greatest number of the type where there are more.
    pub fn count(&self, kind: Kind) -> u32
        ensures { result ≡ capped (count_of (protocol_of self.now) kind) }
    {
        match kind {
            Kind::Free => capped(self.frees.items.len()),
            Kind::Ctor => capped(self.ctors.items.len()),
            Kind::Dtor => capped(self.dtors.items.len()),
            Kind::Event => capped(self.events.items.len()),
            Kind::Table => capped(self.tables.items.len()),
            Kind::Query => capped(self.queries.items.len()),
            Kind::Point => self.main.count_nodes(),
        }
    }

    /// The bytes that spell a declared name, or the name of the restriction at a point.
    #[tactic(auto, using(crate::proofs::Items::by_number))]
    pub fn word(&self, kind: Kind, number: u32) -> &[u8]
        requires there { IsThere (protocol_of self.now) kind number }
        requires worded { HasWord (protocol_of self.now) kind number }
        ensures { word_of (protocol_of self.now) kind number ≡ Some result.now }
    {
        match kind {
            Kind::Free => self.frees.declared(number).word.items.as_slice(),
            Kind::Ctor => self.ctors.declared(number).word.items.as_slice(),
            Kind::Dtor => self.dtors.destructor(number).word.items.as_slice(),
            Kind::Event => self.events.declared(number).word.items.as_slice(),
            Kind::Table => self.tables.declared(number).word.items.as_slice(),
            Kind::Query => unreachable!(),
            Kind::Point => match self.node(number) {
                Process::New(word, _) => word.items.as_slice(),
                _ => unreachable!(),
            },
        }
    }

    /// Whether a free name or a constructor is public.
    #[tactic(auto, using(crate::proofs::Items::by_number))]
    pub fn is_public(&self, kind: Kind, number: u32) -> bool
        requires there { IsThere (protocol_of self.now) kind number }
        requires kind { HasPublicity kind }
        ensures { publicity_of (protocol_of self.now) kind number ≡ Some result }
    {
        match kind {
            Kind::Free => self.frees.declared(number).public,
            Kind::Ctor => self.ctors.declared(number).public,
            Kind::Dtor | Kind::Event | Kind::Table | Kind::Query | Kind::Point => unreachable!(),
        }
    }

    /// Whether a constructor is a data constructor.
    #[tactic(auto, using(crate::proofs::Items::by_number))]
    pub fn is_data(&self, constructor: u32) -> bool
        requires there { (0 < constructor) × (constructor ≤ length self.now.ctors) }
        ensures { option_map (λ d. d.is_data) (numbered self.now.ctors constructor) ≡ Some result }
    {
        self.ctors.declared(constructor).is_data
    }

    /// How many arguments a constructor, a destructor, an event or a table takes.
    #[tactic(auto, using(crate::proofs::Items::by_number))]
    pub fn arity(&self, kind: Kind, number: u32) -> u32
        requires there { IsThere (protocol_of self.now) kind number }
        requires kind { HasArity kind }
        ensures { arity_of (protocol_of self.now) kind number ≡ Some result }
    {
        match kind {
            Kind::Ctor => self.ctors.declared(number).arity,
            Kind::Dtor => self.dtors.destructor(number).rules.arity(),
            Kind::Event => self.events.declared(number).arity,
            Kind::Table => self.tables.declared(number).arity,
            Kind::Free | Kind::Query | Kind::Point => unreachable!(),
        }
    }

    /// The rules of a destructor in order; they are numbered from 1.
    #[tactic(auto, using(crate::proofs::Items::by_number))]
    pub fn rules(&self, destructor: u32) -> &[Rule]
        requires there { (0 < destructor) × (destructor ≤ length self.now.dtors) }
        ensures { option_map (λ d. d.rules) (numbered self.now.dtors destructor) ≡
            Some (map rule_of result.now) }
    {
        self.dtors.destructor(destructor).rules.items.as_slice()
    }

    /// The query of that number.
    #[tactic(auto, using(crate::proofs::Items::by_number))]
    pub fn query(&self, number: u32) -> &Query
        requires there { (0 < number) × (number ≤ length self.now.queries) }
        ensures { numbered self.now.queries number ≡ Some (query_of result.now) }
    {
        &self.queries.items[(number - 1) as usize]
    }

    /// The node of the main process that stands at the point.
    #[tactic(auto, using(crate::proofs::Items::by_number))]
    pub fn node(&self, point: u32) -> &Process
        requires there { (0 < point) × (point ≤ length (nodes (process_of self.now.main))) }
        ensures { numbered (nodes (process_of self.now.main)) point ≡ Some (process_of result.now) }
    {
        match self.main.walk(point - 1, 0) {
            Walk::At(node, _) => node,
            Walk::Past(_) => unreachable!(),
        }
    }

    /// How many arguments a name has that is made at the point: one for each message that is received above it, one for
    /// each term of an entry that is taken above it, and one for each replication above it (Blanchet 2016, section 4:
    /// names as functions). It is the greatest number of the type where there are more.
    #[tactic(auto, using(crate::proofs::Items::by_number))]
    pub fn name_args(&self, point: u32) -> u32
        requires there { (0 < point) × (point ≤ length (nodes (process_of self.now.main))) }
        ensures { numbered (map capped (name_arguments 0 (process_of self.now.main))) point ≡
            Some result }
    {
        match self.main.walk(point - 1, 0) {
            Walk::At(_, arguments) => arguments,
            Walk::Past(_) => unreachable!(),
        }
    }

    /// The greatest phase that the main process names, 0 where it names none.
    pub fn greatest_phase(&self) -> u32
        ensures { result ≡ greatest_phase (process_of self.now.main) }
    {
        self.main.greatest_phase()
    }
}
