//! Entries that end with the same term, from the last one to the first.

ghost use Rattle.std.specs.Prelude.{◌≡◌, ◌<◌, ℕ, Option, None, List, [], ◌∷◌, ◌++◌, length, get_or, IfSome, IfOk, OnOk};
ghost use Rattle.term_tree.specs.declared.bank.Id.{Id};
ghost use Rattle.log_entries.specs.Ends.{AreChained};

use std::alloc::{AllocError, Global};
use term_tree::Id;

/// For each id of a bank, by its index, the number of the last entry whose conclusion ends with it; and for each entry, in
/// order, the number of the last one before it that ends with the same id.
#[derive(Drop)]
pub struct Chains {
    pub last: Vec<Option<usize>>,
    pub previous: Vec<Option<usize>>,
}

impl Chains {
    /// Those of no entries.
    pub fn none(alloc: Global) -> Self
        ensures last { result.last.items ≡ [] }
        ensures previous { result.previous.items ≡ [] }
    {
        Chains {
            last: Vec::new(alloc),
            previous: Vec::new(alloc),
        }
    }

    /// A copy.
    pub fn copy(&self, alloc: Global) -> Result<Self, AllocError>
        ensures last { IfOk result (λ copied. copied.last.items ≡ self.now.last.items) }
        ensures previous { IfOk result (λ copied. copied.previous.items ≡ self.now.previous.items) }
    {
        let last = self.last.to_vec(alloc)?;
        let previous = self.previous.to_vec(alloc)?;
        Ok(Chains { last, previous })
    }

    /// The last entry that ends with the id.
    pub fn last_with(&self, id: Id) -> Option<usize>
        ensures { result ≡ get_or self.now.last.items id.index None }
    {
        if self.last.len() <= id.index {
            return None;
        }
        self.last[id.index]
    }

    /// Makes room for the ids of a bank of so many terms, if there is none for the id.
    fn reach(&mut self, id: Id, size: usize) -> Result<(), AllocError>
        requires { id.index < size }
        ensures room { OnOk result (id.index < length self.new.last.items) }
        ensures last { (i : ℕ) →
            get_or self.new.last.items i None ≡ get_or self.old.last.items i None }
        ensures previous { self.new.previous.items ≡ self.old.previous.items }
    {
        if self.last.len() <= id.index {
            self.last.resize(size, None)?;
        }
        Ok(())
    }

    /// One more entry, which ends with the id, in a bank of so many terms.
    fn push_end(&mut self, id: Id, size: usize) -> Result<(), AllocError>
        requires { id.index < size }
        ensures { OnOk result ((ends : List (Option Id)) →
            AreChained ends self.old.last.items self.old.previous.items →
            AreChained (ends ++ Some id ∷ []) self.new.last.items self.new.previous.items) }
    {
        self.reach(id, size)?;
        self.previous.push(self.last[id.index])?;
        self.last[id.index] = Some(self.previous.len());
        Ok(())
    }

    /// One more entry, which ends with the id, if it has terms, in a bank of so many terms.
    pub fn push(&mut self, end: Option<Id>, size: usize) -> Result<(), AllocError>
        requires { IfSome end (λ id. id.index < size) }
        ensures { OnOk result ((ends : List (Option Id)) →
            AreChained ends self.old.last.items self.old.previous.items →
            AreChained (ends ++ end ∷ []) self.new.last.items self.new.previous.items) }
    {
        match end {
            None => {
                self.previous.push(None)?;
                Ok(())
            }
            Some(id) => self.push_end(id, size),
        }
    }
}
