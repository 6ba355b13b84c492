//! The shared bank: a set of shapes in the order of their coming, each over shapes before it.

ghost use Rattle.std.specs.Prelude.{◌≡◌, ◌≤◌, ◌<◌, ◌+◌, List, [], ◌∷◌, ◌++◌, length, take, map, IsOk, IfOk, OnOk, OnErr};

use crate::measure::Measure;
use crate::shape::{Head, Shape};
use indexmap::IndexSet;
use smallvec::SmallVec;
use std::alloc::{AllocError, Global};
use std::marker::Model;
use term_tree::{Bank, Id, Mark, Node, SIZE_LIMIT, Sym};

/// A node with at most so many arguments that is there is found without memory.
pub const FOUND_ARGS: usize = 4;

/// The shared bank, where a call of `var` or `app` makes a tree only where it isn't there.
pub struct SharedBank {
    shapes: IndexSet<Shape>,
    measures: Vec<Measure>,
    /// The shape that is looked up: no other is made for a node that is there.
    wanted: Shape,
    alloc: Global,
}

impl Drop for SharedBank {
    fn drop(self) {
        let SharedBank {
            shapes,
            measures,
            wanted,
            alloc,
        } = self;
        drop(shapes);
        drop(measures);
        drop(wanted);
        drop(alloc);
    }
}

impl Model for SharedBank {
    ghost use Rattle.std.specs.Prelude.{List, []};
    ghost use Rattle.spec_terms.specs.Term.{Term, coded_terms};

    ghost Value = { List Term };

    ghost coded = { coded_terms };

    ghost use Rattle.term_store.specs.SharedBank.{trees_of, IsWell, HasRoom};

    ghost view = { λ b. trees_of b.shapes.keys };

    ghost invariant = { λ b. IsWell b.shapes.keys b.measures.items × HasRoom b.wanted };
}

impl SharedBank {
    ghost use Rattle.std.specs.Prelude.{◌≡◌, ◌<◌, ◌≤◌, [], length, map, IsOk, IfOk, IfSome, IfNone, OnOk, OnErr};
    ghost use Rattle.spec_trees.specs.Tree.{node};
    ghost use Rattle.spec_terms.specs.Term.{Sym as Symbol};
    ghost use Rattle.term_tree.specs.Bank.{symbol_of, tree_at, AreKnown, Names, Grows, AreShared};
    ghost use Rattle.term_tree.specs.Roots.{tree_of, HasArgs, told};
    ghost use Rattle.term_store.specs.Measures.{tells_of};
    ghost use Rattle.term_store.specs.Shapes.{root_of, IsPlain};
    ghost use Rattle.term_store.specs.SharedBank.{id_at, Finds, AddsNew, IsKnown};

    /// An empty bank.
    pub fn new(alloc: Global) -> Result<Self, AllocError>
        ensures { IfOk result (λ bank. bank ≡ []) }
    {
        let wanted = Shape {
            head: Head::Attacker,
            args: SmallVec::with_capacity(alloc, FOUND_ARGS)?,
        };
        Ok(SharedBank {
            shapes: IndexSet::new(alloc),
            measures: Vec::new(alloc),
            wanted,
            alloc,
        })
    }

    /// Equal trees have equal ids.
    pub fn equal_trees_have_equal_ids(&self)
        ensures { AreShared self.now }
    {
        let _ = &self.shapes;
    }

    /// The id of the shape's tree, which is added at the end where it isn't there.
    fn add(&mut self, shape: Shape, measure: Measure) -> Result<Id, AllocError>
        requires args { HasArgs self.old (root_of shape) }
        requires plain { IsPlain shape }
        requires tells { tells_of measure ≡ told (tree_of self.old (root_of shape)) }
        ensures names { IfOk result (λ id. Names self.new id (tree_of self.old (root_of shape))) }
        ensures grows { Grows self.old self.new }
        ensures found { IfOk result (Finds self.old self.new (tree_of self.old (root_of shape))) }
        ensures added { OnOk result (AddsNew self.old self.new (tree_of self.old (root_of shape))) }
        ensures no_memory { IsKnown self.old (tree_of self.old (root_of shape)) → IsOk result }
        ensures err { OnErr result (self.new ≡ self.old) }
    {
        let (index, is_new) = self.shapes.insert_full(shape)?;
        let id = Id { index };
        if !is_new {
            return Ok(id);
        }
        match self.measures.push(measure) {
            Ok(()) => Ok(id),
            Err(_) => {
                self.shapes.truncate(index);
                Err(AllocError)
            }
        }
    }

    /// What is told of a place.
    fn measure(&self, id: Id) -> Measure
        requires { id.index < length self.now }
        ensures { tells_of result ≡ told (tree_at self.now id) }
    {
        self.measures[id.index]
    }

    /// What is told of a symbol over the arguments, whatever the symbol is.
    fn measure_over(&self, args: &[Id]) -> Measure
        requires { AreKnown self.now args.now }
        ensures { (symbol : Symbol) → tells_of result ≡
            told (node symbol (map (tree_at self.now) args.now)) }
    {
        let mut size = 1u64;
        let mut is_ground = true;
        for arg in args {
            let part = self.measure(*arg);
            size = size.saturating_add(part.size()).min(SIZE_LIMIT);
            is_ground = is_ground && part.is_ground();
        }
        Measure::new(size, is_ground)
    }

    /// The place of a symbol over the arguments, where that tree is there.
    fn find(&mut self, symbol: Sym, args: &[Id]) -> Result<Option<usize>, AllocError>
        requires { AreKnown self.old args.now }
        ensures same { self.new ≡ self.old }
        ensures found { IfOk result (λ it. IfSome it (λ index. Names self.old (id_at index)
            (node (symbol_of symbol) (map (tree_at self.old) args.now)))) }
        ensures none { IfOk result (λ it. IfNone it (¬ IsKnown self.old
            (node (symbol_of symbol) (map (tree_at self.old) args.now)))) }
        ensures no_memory { length args.now ≤ FOUND_ARGS → IsOk result }
    {
        self.wanted.show(Head::of(symbol), args)?;
        Ok(self.shapes.get_index_of(&self.wanted))
    }

    /// The id of a symbol over the arguments, a tree that isn't there.
    fn insert(&mut self, symbol: Sym, args: &[Id]) -> Result<Id, AllocError>
        requires { AreKnown self.old args.now }
        ensures names { IfOk result (λ id. Names self.new id
            (node (symbol_of symbol) (map (tree_at self.old) args.now))) }
        ensures grows { Grows self.old self.new }
        ensures err { OnErr result (self.new ≡ self.old) }
        ensures found { IfOk result (Finds self.old self.new
            (node (symbol_of symbol) (map (tree_at self.old) args.now))) }
        ensures added { OnOk result (AddsNew self.old self.new
            (node (symbol_of symbol) (map (tree_at self.old) args.now))) }
    {
        let measure = self.measure_over(args);
        let args = SmallVec::from_slice(self.alloc, args)?;
        let head = Head::of(symbol);
        self.add(Shape { head, args }, measure)
    }
}

impl Bank for SharedBank {
    ghost use Rattle.std.specs.Prelude.{List, ◌≡◌, ◌≤◌, true, length, map, IsOk, IfOk, OnOk, OnErr};
    ghost use Rattle.spec_terms.specs.Term.{Term, is_ground};
    ghost use Rattle.spec_trees.specs.Tree.{Leaf, node, size};
    ghost use Rattle.term_tree.specs.Bank.{symbol_of, tree_at, AreKnown, Names, Grows, IsNodeOf, AreShared, capped};
    ghost use Rattle.term_store.specs.SharedBank.{Finds, AddsNew, IsKnown};

    ghost trees = { λ b. b };

    fn var(&mut self, number: u32) -> Result<Id, AllocError>
        ensures names { IfOk result (λ id. Names self.new id (Leaf number)) }
        ensures grows { Grows self.old self.new }
        ensures err { OnErr result (self.new ≡ self.old) }
        ensures found { IfOk result (Finds self.old self.new (Leaf number)) }
        ensures added { OnOk result (AddsNew self.old self.new (Leaf number)) }
        ensures no_memory { IsKnown self.old (Leaf number) → IsOk result }
    {
        let shape = Shape {
            head: Head::Var(number),
            args: SmallVec::new(self.alloc),
        };
        self.add(shape, Measure::new(1, false))
    }

    fn app(&mut self, symbol: Sym, args: &[Id]) -> Result<Id, AllocError>
        requires { AreKnown self.old args.now }
        ensures names { IfOk result (λ id. Names self.new id
            (node (symbol_of symbol) (map (tree_at self.old) args.now))) }
        ensures grows { Grows self.old self.new }
        ensures err { OnErr result (self.new ≡ self.old) }
        ensures found { IfOk result (Finds self.old self.new
            (node (symbol_of symbol) (map (tree_at self.old) args.now))) }
        ensures added { OnOk result (AddsNew self.old self.new
            (node (symbol_of symbol) (map (tree_at self.old) args.now))) }
        ensures no_memory { length args.now ≤ FOUND_ARGS → IsKnown self.old
            (node (symbol_of symbol) (map (tree_at self.old) args.now)) → IsOk result }
    {
        self.equal_trees_have_equal_ids();
        match self.find(symbol, args)? {
            Some(index) => Ok(Id { index }),
            None => self.insert(symbol, args),
        }
    }

    fn node(&self, id: Id) -> Node<'_> {
        self.shapes.as_slice()[id.index].node()
    }

    fn size(&self, id: Id) -> u64 {
        self.measure(id).size()
    }

    fn is_ground(&self, id: Id) -> bool {
        self.measure(id).is_ground()
    }

    fn same(&self, left: Id, right: Id) -> bool {
        self.equal_trees_have_equal_ids();
        left.index == right.index
    }

    fn is_shared(&self) -> bool
        ensures shared { result ≡ true → AreShared self.now }
        ensures always { result ≡ true }
    {
        self.equal_trees_have_equal_ids();
        true
    }

    fn mark(&self) -> Mark {
        Mark {
            len: self.measures.len(),
        }
    }

    fn back(&mut self, to: Mark) {
        self.shapes.truncate(to.len);
        self.measures.truncate(to.len);
    }
}
