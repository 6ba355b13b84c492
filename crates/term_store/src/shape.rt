//! What stands at a place of the shared bank.

ghost use Rattle.std.specs.Prelude.{◌≡◌, List};
ghost use Rattle.term_tree.specs.Roots.{Applied};
ghost use Rattle.term_tree.specs.declared.bank.Id.{Id};
ghost use Rattle.term_store.specs.Shapes.{root_over};

use smallvec::SmallVec;
use std::alloc::AllocError;
use std::hash::{Hash, Hasher};
use term_tree::{Id, Node, Sym};

/// How many arguments stand in a shape itself. More of them stand in memory of their own.
pub const INLINE_ARGS: usize = 2;

/// A symbol by its number, as `Sym`, or a variable. All stand side by side, so that a shape takes 40 bytes.
#[derive(Clone, Copy, PartialEq, Eq, Hash)]
pub enum Head {
    Ctor(u32),
    Data(u32),
    Tuple(u32),
    Free(u32),
    Point(u32),
    Attacker,
    Var(u32),
}

/// What stands at a place of the bank: a variable, which has no arguments, or a symbol over earlier places.
#[derive(PartialEq, Eq)]
pub struct Shape {
    pub(crate) head: Head,
    pub(crate) args: SmallVec<Id, INLINE_ARGS>,
}

impl Drop for Shape {
    fn drop(self) {
        let Shape { head, args } = self;
        drop(head);
        drop(args);
    }
}

impl Head {
    /// The head of nodes of this symbol.
    pub(crate) fn of(symbol: Sym) -> Head
        ensures { (args : List Id) → root_over result args ≡ Applied symbol args }
    {
        match symbol {
            Sym::Ctor(number) => Head::Ctor(number),
            Sym::Data(number) => Head::Data(number),
            Sym::Tuple(number) => Head::Tuple(number),
            Sym::Free(number) => Head::Free(number),
            Sym::Point(number) => Head::Point(number),
            Sym::Attacker => Head::Attacker,
        }
    }
}

impl Shape {
    ghost use Rattle.std.specs.Prelude.{◌≡◌, ◌≤◌, length, IsOk, OnOk};
    ghost use Rattle.term_store.specs.Shapes.{node_root, root_of};

    /// The node that it shows.
    pub(crate) fn node(&self) -> Node<'_>
        ensures { node_root result ≡ root_of self.now }
    {
        let args = self.args.as_slice();
        match self.head {
            Head::Ctor(number) => Node::App(Sym::Ctor(number), args),
            Head::Data(number) => Node::App(Sym::Data(number), args),
            Head::Tuple(number) => Node::App(Sym::Tuple(number), args),
            Head::Free(number) => Node::App(Sym::Free(number), args),
            Head::Point(number) => Node::App(Sym::Point(number), args),
            Head::Attacker => Node::App(Sym::Attacker, args),
            Head::Var(number) => Node::Var(number),
        }
    }

    /// Writes another head and other arguments. On `Err` the arguments are gone.
    pub(crate) fn show(&mut self, head: Head, args: &[Id]) -> Result<(), AllocError>
        ensures head { OnOk result (self.new.head ≡ head) }
        ensures args { OnOk result (self.new.args.items ≡ args.now) }
        ensures room { self.old.args.capacity ≤ self.new.args.capacity }
        ensures fits { length args.now ≤ self.old.args.capacity → IsOk result }
    {
        self.head = head;
        self.args.clear();
        self.args.extend_from_slice(args)
    }
}

/// Hashes the head and the arguments, without their count, which a derived `Hash` feeds too.
impl Hash for Shape {
    ghost use Rattle.term_store.specs.Hashing.{hashed, hashed_alike};

    ghost hash_input = { hashed };

    ghost respects_eq = { hashed_alike };

    fn hash<H: Hasher>(&self, state: &mut H) {
        self.head.hash(state);
        Hash::hash_slice(self.args.as_slice(), state);
    }
}
