//! What a bank of terms is to its callers: a list of trees, in which an id names its place.

ghost use Rattle.std.specs.Prelude.{◌≡◌, ◌↔◌, ◌≤◌, ◌<◌, true, IsTrue, List, length, take, map, IfOk, OnErr};

use std::alloc::AllocError;

/// The name of a term in a bank: its place in the list of the bank's trees, from 0.
#[derive(Clone, Copy, PartialEq, Eq, Hash, Default, Debug)]
pub struct Id {
    pub index: usize,
}

/// A symbol of a term.
#[derive(Clone, Copy, PartialEq, Eq, Hash, Debug)]
pub enum Sym {
    /// A constructor that is no data constructor, by its number.
    Ctor(u32),
    /// A data constructor, by its number.
    Data(u32),
    /// The tuple of so many parts.
    Tuple(u32),
    /// A free name, by its number.
    Free(u32),
    /// The restricted name of a point of the process.
    Point(u32),
    /// The names that the attacker makes.
    Attacker,
}

impl Sym {
    /// Whether two symbols are the same.
    pub fn is_same(self, other: Sym) -> bool
        ensures { IsTrue result ↔ (self ≡ other) }
    {
        self == other
    }
}

/// The root of a term: a variable, or a symbol over the ids of its arguments.
#[derive(Clone, Copy)]
pub enum Node<'a> {
    Var(u32),
    App(Sym, &'a [Id]),
}

/// A state of a bank that `back` can return to: how many trees it had.
#[derive(Clone, Copy, PartialEq, Eq)]
pub struct Mark {
    pub len: usize,
}

/// The greatest size that is told: that of each larger term is told as this.
pub const SIZE_LIMIT: u64 = 0x8000_0000_0000_0000;

/// A bank of terms. Its trees stand in a list that grows at the end; an id keeps its tree until `back`
/// goes below it.
pub trait Bank {
    ghost use Rattle.spec_trees.specs.Tree.{Leaf, node, size};
    ghost use Rattle.spec_terms.specs.Term.{Term, is_ground};
    ghost use Rattle.term_tree.specs.Bank.{symbol_of, tree_at, AreKnown, Names, Grows, IsNodeOf, AreShared, capped};

    /// The trees of the bank.
    ghost trees: { Self → List Term };

    /// The id of the variable with this number.
    fn var(&mut self, number: u32) -> Result<Id, AllocError>
        ensures names { IfOk result (λ id. Names (trees self.new) id (Leaf number)) }
        ensures grows { Grows (trees self.old) (trees self.new) }
        ensures err { OnErr result (trees self.new ≡ trees self.old) };

    /// The id of the symbol over the arguments.
    fn app(&mut self, symbol: Sym, args: &[Id]) -> Result<Id, AllocError>
        requires { AreKnown (trees self.old) args.now }
        ensures names { IfOk result (λ id. Names (trees self.new) id
            (node (symbol_of symbol) (map (tree_at (trees self.old)) args.now))) }
        ensures grows { Grows (trees self.old) (trees self.new) }
        ensures err { OnErr result (trees self.new ≡ trees self.old) };

    /// The root of a term. Takes no memory.
    fn node(&self, id: Id) -> Node<'_>
        requires { id.index < length (trees self.now) }
        ensures { IsNodeOf (trees self.now) result (tree_at (trees self.now) id) };

    /// The size of a term, or `SIZE_LIMIT` where it is greater. Takes no memory.
    fn size(&self, id: Id) -> u64
        requires { id.index < length (trees self.now) }
        ensures { result ≡ capped (size (tree_at (trees self.now) id)) };

    /// Whether a term has no variable. Takes no memory.
    fn is_ground(&self, id: Id) -> bool
        requires { id.index < length (trees self.now) }
        ensures { result ≡ is_ground (tree_at (trees self.now) id) };

    /// Whether two terms are the same tree. Takes no memory.
    fn same(&self, left: Id, right: Id) -> bool
        requires left_known { left.index < length (trees self.now) }
        requires right_known { right.index < length (trees self.now) }
        ensures { IsTrue result ↔
            (tree_at (trees self.now) left ≡ tree_at (trees self.now) right) };

    /// Whether no two ids name the same tree; a bank that doesn't look for this answers false. Takes no
    /// memory.
    fn is_shared(&self) -> bool
        ensures { result ≡ true → AreShared (trees self.now) };

    /// The present state, for `back`. Takes no memory.
    fn mark(&self) -> Mark
        ensures { result.len ≡ length (trees self.now) };

    /// Cuts the bank back to the state of the mark: each id from before it keeps its tree. Takes no
    /// memory.
    fn back(&mut self, to: Mark)
        requires { to.len ≤ length (trees self.old) }
        ensures { trees self.new ≡ take to.len (trees self.old) };
}
