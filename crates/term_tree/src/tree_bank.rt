//! The plain bank: a list of entries, each over entries before it.

ghost use Rattle.std.specs.Prelude.{◌≡◌, ◌≤◌, ◌<◌, ◌+◌, List, [], ◌∷◌, ◌++◌, length, take, map, IfOk, OnErr};

use crate::bank::{Bank, Id, Mark, Node, SIZE_LIMIT, Sym};
use std::alloc::{AllocError, Global};
use std::marker::Model;

/// What stands at a place of the bank: a variable, or a symbol over earlier places.
pub enum Shape {
    Var(u32),
    App(Sym, Vec<Id>),
}

impl Drop for Shape {
    fn drop(self) {
        match self {
            Shape::Var(_) => {}
            Shape::App(_, part) => drop(part),
        }
    }
}

/// A place of the bank: its shape, the size of its tree as it is told, and whether that has no variable.
pub struct Entry {
    pub size: u64,
    pub ground: bool,
    pub shape: Shape,
}

impl Drop for Entry {
    fn drop(self) {
        let Entry {
            size: _,
            ground: _,
            shape,
        } = self;
        drop(shape);
    }
}

/// The plain bank, where each call of `var` or `app` makes one more tree.
#[derive(Drop)]
pub struct TreeBank {
    entries: Vec<Entry>,
    alloc: Global,
}

impl Model for TreeBank {
    ghost use Rattle.std.specs.Prelude.{List, []};
    ghost use Rattle.spec_terms.specs.Term.{Term, coded_terms};

    ghost Value = { List Term };

    ghost coded = { coded_terms };

    ghost use Rattle.term_tree.specs.Roots.{built};
    ghost use Rattle.term_tree.specs.TreeBank.{roots, IsWell};

    ghost view = { λ b. built [] (roots b.entries.items) };

    ghost invariant = { λ b. IsWell b.entries.items };
}

impl TreeBank {
    ghost use Rattle.std.specs.Prelude.{◌≡◌, ◌+◌, ◌<◌, ◌↔◌, IsTrue, [], ◌∷◌, ◌++◌, length, map, IfOk, OnErr};
    ghost use Rattle.spec_trees.specs.Tree.{node, trees, sizes};
    ghost use Rattle.spec_terms.specs.Term.{is_ground as is_ground_term};
    ghost use Rattle.term_tree.specs.Bank.{symbol_of, tree_at, AreKnown, capped};
    ghost use Rattle.term_tree.specs.Roots.{tree_of, HasArgs, told};
    ghost use Rattle.term_tree.specs.TreeBank.{root_of};

    /// An empty bank.
    pub fn new(alloc: Global) -> Result<Self, AllocError>
        ensures { IfOk result (λ bank. bank ≡ []) }
    {
        Ok(TreeBank {
            entries: Vec::new(alloc),
            alloc,
        })
    }

    /// One more entry, at the end.
    fn add(&mut self, entry: Entry) -> Result<Id, AllocError>
        requires args { HasArgs self.old (root_of entry.shape) }
        requires tells { (entry.size, entry.ground) ≡
            told (tree_of self.old (root_of entry.shape)) }
        ensures ok { IfOk result (λ id. (id.index ≡ length self.old) ×
            (self.new ≡ self.old ++ tree_of self.old (root_of entry.shape) ∷ [])) }
        ensures err { OnErr result (self.new ≡ self.old) }
    {
        let id = Id {
            index: self.entries.len(),
        };
        self.entries.push(entry)?;
        Ok(id)
    }

    /// The size of a symbol over the arguments, as it is told.
    fn size_over(&self, args: &[Id]) -> u64
        requires { AreKnown self.now args.now }
        ensures { result ≡ capped (1 + sizes (trees (map (tree_at self.now) args.now))) }
    {
        let mut total = 1u64;
        for arg in args {
            total = total.saturating_add(self.size(*arg)).min(SIZE_LIMIT);
        }
        total
    }

    /// Whether a symbol over the arguments has no variable.
    fn is_ground_over(&self, symbol: Sym, args: &[Id]) -> bool
        requires { AreKnown self.now args.now }
        ensures { result ≡ is_ground_term (node (symbol_of symbol)
            (map (tree_at self.now) args.now)) }
    {
        for arg in args {
            if !self.is_ground(*arg) {
                return false;
            }
        }
        true
    }

    /// Whether two terms are the same tree, at once where their ids are the same.
    fn is_same_tree(&self, left: Id, right: Id) -> bool
        requires left_known { left.index < length self.now }
        requires right_known { right.index < length self.now }
        ensures { IsTrue result ↔ (tree_at self.now left ≡ tree_at self.now right) }
    {
        if left.index == right.index {
            return true;
        }
        match self.node(left) {
            Node::Var(x) => match self.node(right) {
                Node::Var(y) => x == y,
                Node::App(_, _) => false,
            },
            Node::App(f, xs) => match self.node(right) {
                Node::Var(_) => false,
                Node::App(g, ys) => {
                    if !f.is_same(g) {
                        return false;
                    }
                    if xs.len() != ys.len() {
                        return false;
                    }
                    'each: for (i, x) in xs.iter().enumerate() {
                        if !self.is_same_tree(*x, ys[i]) {
                            return false;
                        }
                    }
                    true
                }
            },
        }
    }
}

impl Bank for TreeBank {
    ghost use Rattle.std.specs.Prelude.{List};
    ghost use Rattle.spec_terms.specs.Term.{Term, is_ground};
    ghost use Rattle.spec_trees.specs.Tree.{Leaf, node, size};
    ghost use Rattle.term_tree.specs.Bank.{symbol_of, tree_at, AreKnown, Names, Grows, IsNodeOf, AreShared, capped};

    ghost trees = { λ b. b };

    fn var(&mut self, number: u32) -> Result<Id, AllocError> {
        self.add(Entry {
            size: 1,
            ground: false,
            shape: Shape::Var(number),
        })
    }

    fn app(&mut self, symbol: Sym, args: &[Id]) -> Result<Id, AllocError> {
        let size = self.size_over(args);
        let ground = self.is_ground_over(symbol, args);
        let shape = Shape::App(symbol, args.to_vec(self.alloc)?);
        self.add(Entry {
            size,
            ground,
            shape,
        })
    }

    fn node(&self, id: Id) -> Node<'_> {
        match &self.entries[id.index].shape {
            Shape::Var(number) => Node::Var(*number),
            Shape::App(symbol, args) => Node::App(*symbol, args),
        }
    }

    fn size(&self, id: Id) -> u64 {
        self.entries[id.index].size
    }

    fn is_ground(&self, id: Id) -> bool {
        self.entries[id.index].ground
    }

    fn same(&self, left: Id, right: Id) -> bool {
        if self.size(left) != self.size(right) {
            return false;
        }
        self.is_same_tree(left, right)
    }

    fn is_shared(&self) -> bool {
        false
    }

    fn mark(&self) -> Mark {
        Mark {
            len: self.entries.len(),
        }
    }

    fn back(&mut self, to: Mark) {
        self.entries.truncate(to.len);
    }
}
