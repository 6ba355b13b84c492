//! What the names that are bound stand for where a process is visited.

ghost use Rattle.std.specs.Prelude.{◌≡◌, [], ◌∷◌, ◌++◌, IfOk, OnOk, OnErr};
ghost use Rattle.pi_tree.specs.Slots.{name_of};
ghost use Rattle.clause_terms.specs.Scopes.{id_in};
ghost use Rattle.clause_terms.specs.Slots.{held_of};

use pi_tree::Slot;
use std::alloc::{AllocError, Global};
use std::marker::Model;
use term_tree::Id;

/// What is bound, and the id of the term that it stands for.
#[derive(Clone, Copy)]
pub struct Standing {
    pub slot: Slot,
    pub term: Id,
}

/// What is bound, in the order in which it was bound; of two of one slot the earlier counts.
#[derive(Drop)]
pub struct Scope {
    pub items: Vec<Standing>,
}

impl Model for Scope {
    ghost use Rattle.std.specs.Prelude.{List, map};
    ghost use Rattle.clause_terms.specs.Scopes.{Held, coded_scope};

    ghost Value = { List Held };

    ghost coded = { coded_scope };

    ghost use Rattle.clause_terms.specs.Slots.{held_of};

    ghost view = { λ a. map held_of a.items.items };
}

impl Scope {
    /// Nothing bound. Takes no memory.
    pub fn new(alloc: Global) -> Scope
        ensures { result ≡ [] }
    {
        Scope {
            items: Vec::new(alloc),
        }
    }

    /// A copy, the ids the same.
    pub fn copy(&self, alloc: Global) -> Result<Scope, AllocError>
        ensures { IfOk result (λ copied. copied ≡ self.now) }
    {
        let items = self.items.to_vec(alloc)?;
        Ok(Scope { items })
    }

    /// One more slot bound, the last.
    pub fn push(&mut self, standing: Standing) -> Result<(), AllocError>
        ensures ok { OnOk result (self.new ≡ self.old ++ held_of standing ∷ []) }
        ensures err { OnErr result (self.new ≡ self.old) }
    {
        self.items.push(standing)?;
        Ok(())
    }

    /// The id of the term that the slot stands for, if it is bound. Takes no memory.
    pub fn find(&self, slot: Slot) -> Option<Id>
        ensures { result ≡ id_in self.now (name_of slot) }
    {
        for standing in &self.items {
            if standing.slot.is(slot) {
                return Some(standing.term);
            }
        }
        None
    }
}
