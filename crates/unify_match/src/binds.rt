//! Bindings as a finite map with a trail, which can be taken back to an earlier level.

ghost use Rattle.std.specs.Prelude.{◌≡◌, ◌+◌, ◌-◌, ◌<◌, ◌≤◌, List, [], ◌∷◌, None, IsFalse, length, drop, OnOk, IfOk};
ghost use Rattle.spec_trees.specs.Tree.{bind};
ghost use Rattle.spec_terms.specs.Term.{Term, has_var};
ghost use Rattle.spec_terms.specs.Binding.{resolved};
ghost use Rattle.term_tree.specs.Bank.{tree_at};
ghost use Rattle.unify_match.specs.Trail.{id_of, BindsOnce};
ghost use Rattle.unify_match.specs.Seen.{seen, IsReady, AreBindings};

use crate::bound::Bound;
use std::alloc::{AllocError, Global};
use std::collections::HashMap;
use std::marker::Model;
use term_tree::Id;

/// Bindings of variables to terms of a bank: a finite map, and the order in which it came about.
pub struct Binds {
    trail: Vec<Bound>,
    table: HashMap<u32, Id>,
    alloc: Global,
}

impl Drop for Binds {
    fn drop(self) {
        let Binds {
            trail,
            table,
            alloc,
        } = self;
        drop(trail);
        drop(table);
        drop(alloc);
    }
}

impl Model for Binds {
    ghost use Rattle.std.specs.Prelude.{◌-◌, min, reverse, vec_len, vec_capacity};
    ghost use Rattle.std.specs.HashMap.{spare};
    ghost use Rattle.unify_match.specs.Trail.{Trail, coded_trail};

    ghost Value = { Trail };

    ghost coded = { coded_trail };

    ghost use Rattle.unify_match.specs.Table.{IsTableOf};

    ghost view = { λ b. record { pairs = reverse b.trail.items; room = min (vec_capacity b.trail - vec_len b.trail) (spare b.table) } };

    ghost invariant = { λ b. IsTableOf (reverse b.trail.items) b.table };
}

impl Binds {
    /// No bindings.
    pub fn new(alloc: Global) -> Result<Self, AllocError>
        ensures none { IfOk result (λ binds. binds.pairs ≡ []) }

        // They are ready for unification and for matching over any bank.
        ensures ready { IfOk result (λ binds. (all : List Term) → IsReady all binds.pairs) }
        ensures bindings { IfOk result (λ binds. (all : List Term) → AreBindings all binds.pairs) }
    {
        let trail = Vec::new(alloc);
        let table = HashMap::new(alloc);
        Ok(Binds {
            trail,
            table,
            alloc,
        })
    }

    /// The allocator of the bindings.
    pub(crate) fn allocator(&self) -> Global {
        self.alloc
    }

    /// Bindings bind each variable once at most. Does nothing.
    pub fn binds_once(&self)
        ensures { BindsOnce self.now.pairs }
    {
        let _ = &self.table;
    }

    /// Makes room for `n` more bindings.
    pub fn reserve(&mut self, n: usize) -> Result<(), AllocError>
        ensures pairs { self.new.pairs ≡ self.old.pairs }
        ensures ok { OnOk result (n ≤ self.new.room) }
        ensures room { self.old.room ≤ self.new.room }
    {
        self.trail.reserve(n)?;
        self.table.reserve(n)
    }

    /// Binds a variable. Takes no memory, but one place of the room.
    pub fn bind(&mut self, var: u32, id: Id)
        requires unbound { id_of self.old.pairs var ≡ None }
        requires room { 0 < self.old.room }
        ensures pairs { self.new.pairs ≡ record { var = var; id = id } ∷ self.old.pairs }
        ensures room { self.old.room ≤ self.new.room + 1 }

        // Over a bank that has the term: what the bindings are then.
        ensures seen { (all : List Term) → seen all self.new.pairs ≡
            record { var = var; to = tree_at all id } ∷ seen all self.old.pairs }
        ensures bindings { (all : List Term) → AreBindings all self.old.pairs →
            id.index < length all → AreBindings all self.new.pairs }

        // Ready bindings stay ready where the variable does not stand in what the term stands for.
        ensures ready { (all : List Term) → IsReady all self.old.pairs → id.index < length all →
            IsFalse (has_var var (bind (resolved (seen all self.old.pairs)) (tree_at all id))) →
            IsReady all self.new.pairs }
    {
        let _ = self.trail.push(Bound { var, id });
        let _ = self.table.insert(var, id);
    }

    /// The term that a variable is bound to. Takes no memory.
    pub fn look(&self, var: u32) -> Option<Id>
        ensures { result ≡ id_of self.now.pairs var }
    {
        self.table.get(&var).copied()
    }

    /// How many variables are bound. Takes no memory.
    pub fn level(&self) -> usize
        ensures { result ≡ length self.now.pairs }
    {
        self.trail.len()
    }

    /// Takes back all bindings but the first `level`. Takes no memory, and takes no room away.
    pub fn undo(&mut self, level: usize)
        requires { level ≤ length self.old.pairs }
        ensures pairs { self.new.pairs ≡ drop (length self.old.pairs - level) self.old.pairs }
        ensures room { self.old.room ≤ self.new.room }
    {
        while self.level() > level {
            self.take_back();
        }
    }

    /// Takes the newest binding back.
    fn take_back(&mut self)
        requires { 0 < length self.old.pairs }
        ensures pairs { self.new.pairs ≡ drop 1 self.old.pairs }
        ensures room { self.old.room ≤ self.new.room }
    {
        if let Some(bound) = self.trail.pop() {
            let _ = self.table.remove(&bound.var);
        }
    }
}
