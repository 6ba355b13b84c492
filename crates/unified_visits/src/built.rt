//! What was built already of terms under bindings.

ghost use Rattle.std.specs.Prelude.{◌≡◌, Some, List, nat_eq, cond, OnOk};
ghost use Rattle.spec_terms.specs.Term.{Term};
ghost use Rattle.term_tree.specs.declared.bank.Id.{Id};
ghost use Rattle.unify_match.specs.declared.bound.Bound.{Bound};
ghost use Rattle.unified_visits.specs.Built.{built_of, AreBuilt};

use std::alloc::{AllocError, Global};
use std::collections::HashMap;
use term_tree::Id;

/// Terms of a bank that were built under bindings, each by its place, and what each is then.
#[derive(Drop)]
pub struct Built {
    pub table: HashMap<usize, Id>,
}

impl Built {
    /// None was built yet.
    pub fn new(alloc: Global) -> Built
        ensures { (all : List Term) (pairs : List Bound) → AreBuilt all pairs result }
    {
        Built {
            table: HashMap::new(alloc),
        }
    }

    /// What the term is, if it was built.
    pub fn of(&self, id: Id) -> Option<Id>
        ensures { result ≡ built_of self.now id }
    {
        self.table.get(&id.index).copied()
    }

    /// Keeps what the term is.
    pub fn put(&mut self, id: Id, made: Id) -> Result<(), AllocError>
        ensures { OnOk result ((other : Id) → built_of self.new other ≡
            cond (nat_eq id.index other.index) (Some made) (built_of self.old other)) }
    {
        self.table.insert(id.index, made)?;
        Ok(())
    }
}
