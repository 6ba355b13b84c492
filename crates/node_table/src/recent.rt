//! A shared bank that looks first at what it told of late, before it searches.

ghost use Rattle.std.specs.Prelude.{◌≡◌, ◌<◌, true, map};
ghost use Rattle.spec_trees.specs.Tree.{Leaf, node};
ghost use Rattle.term_tree.specs.Bank.{symbol_of, tree_at, Names};

use std::alloc::{AllocError, Global};
use std::marker::Model;
use term_store::SharedBank;
use term_tree::{Bank, Id, Node, Sym};

/// How many symbols over arguments are looked at first, each at the place that its parts give.
const PLACES: usize = 512;

/// How many variables are looked at first, each at the place that its number gives.
const VARIABLES: usize = 64;

/// A shared bank, and the ids that it told of late. Each is tried before it is taken, so they may be any.
#[derive(Drop)]
pub struct RecentBank {
    bank: SharedBank,
    variables: [Id; VARIABLES],
    applied: [Id; PLACES],
}

impl Model for RecentBank {
    ghost use Rattle.std.specs.Prelude.{List};
    ghost use Rattle.spec_terms.specs.Term.{Term, coded_terms};

    ghost Value = { List Term };

    ghost coded = { coded_terms };

    ghost view = { λ b. b.bank };
}

/// Whether the id names the variable.
fn is_variable(bank: &SharedBank, id: Id, number: u32) -> bool
    ensures { result ≡ true → Names bank.now id (Leaf number) }
{
    if id.index >= bank.mark().len {
        return false;
    }
    match bank.node(id) {
        Node::Var(found) => found == number,
        Node::App(_, _) => false,
    }
}

/// Whether the id names the symbol over the arguments.
fn is_applied(bank: &SharedBank, id: Id, symbol: Sym, args: &[Id]) -> bool
    ensures { result ≡ true → Names bank.now id
        (node (symbol_of symbol) (map (tree_at bank.now) args.now)) }
{
    if id.index >= bank.mark().len {
        return false;
    }
    match bank.node(id) {
        Node::Var(_) => false,
        Node::App(found, ids) => found.is_same(symbol) && ids == args,
    }
}

/// A number of its own for each symbol.
fn symbol_key(symbol: Sym) -> u64 {
    match symbol {
        Sym::Ctor(number) => 8 * number as u64,
        Sym::Data(number) => 8 * number as u64 + 1,
        Sym::Tuple(number) => 8 * number as u64 + 2,
        Sym::Free(number) => 8 * number as u64 + 3,
        Sym::Point(number) => 8 * number as u64 + 4,
        Sym::Attacker => 5,
    }
}

/// The place of a symbol over arguments: a hash by multiplication (Knuth).
fn place_of(symbol: Sym, args: &[Id]) -> usize
    ensures { result < 512 }
{
    let mut key = symbol_key(symbol);
    for arg in args {
        key = key.wrapping_mul(31).wrapping_add(arg.index as u64);
    }
    (key.wrapping_mul(0x9e37_79b9_7f4a_7c15) >> 55) as usize
}

impl RecentBank {
    ghost use Rattle.std.specs.Prelude.{◌≡◌, ◌<◌, [], length, map, IfOk, OnOk};
    ghost use Rattle.spec_trees.specs.Tree.{Leaf, node};
    ghost use Rattle.term_tree.specs.Bank.{symbol_of, tree_at, AreKnown, Names, Grows, IsNodeOf, AreShared};
    ghost use Rattle.term_store.specs.SharedBank.{Finds, AddsNew};

    /// An empty bank.
    pub fn new(alloc: Global) -> Result<Self, AllocError>
        ensures { IfOk result (λ bank. bank ≡ []) }
    {
        Ok(RecentBank {
            bank: SharedBank::new(alloc)?,
            variables: [Id { index: 0 }; VARIABLES],
            applied: [Id { index: 0 }; PLACES],
        })
    }

    /// How many terms stand in the bank.
    pub fn len(&self) -> usize
        ensures { result ≡ length self.now }
    {
        self.bank.mark().len
    }

    /// The root of a term of the bank.
    pub fn node(&self, id: Id) -> Node<'_>
        requires { id.index < length self.now }
        ensures { IsNodeOf self.now result (tree_at self.now id) }
    {
        self.bank.node(id)
    }

    /// Equal trees have equal ids.
    pub fn equal_trees_have_equal_ids(&self)
        ensures { AreShared self.now }
    {
        self.bank.equal_trees_have_equal_ids();
    }

    /// The id of the variable, which is added where it isn't there.
    pub fn var(&mut self, number: u32) -> Result<Id, AllocError>
        ensures names { IfOk result (λ id. Names self.new id (Leaf number)) }
        ensures grows { Grows self.old self.new }
        ensures found { IfOk result (Finds self.old self.new (Leaf number)) }
        ensures added { OnOk result (AddsNew self.old self.new (Leaf number)) }
    {
        let place = number as usize % VARIABLES;
        let recent = self.variables[place];
        if is_variable(&self.bank, recent, number) {
            self.bank.equal_trees_have_equal_ids();
            return Ok(recent);
        }
        let id = self.bank.var(number)?;
        self.variables[place] = id;
        Ok(id)
    }

    /// The id of the symbol over the arguments, which is added where it isn't there.
    pub fn app(&mut self, symbol: Sym, args: &[Id]) -> Result<Id, AllocError>
        requires { AreKnown self.old args.now }
        ensures names { IfOk result (λ id. Names self.new id
            (node (symbol_of symbol) (map (tree_at self.old) args.now))) }
        ensures grows { Grows self.old self.new }
        ensures found { IfOk result (Finds self.old self.new
            (node (symbol_of symbol) (map (tree_at self.old) args.now))) }
        ensures added { OnOk result (AddsNew self.old self.new
            (node (symbol_of symbol) (map (tree_at self.old) args.now))) }
    {
        let place = place_of(symbol, args);
        let recent = self.applied[place];
        if is_applied(&self.bank, recent, symbol, args) {
            self.bank.equal_trees_have_equal_ids();
            return Ok(recent);
        }
        let id = self.bank.app(symbol, args)?;
        self.applied[place] = id;
        Ok(id)
    }
}
