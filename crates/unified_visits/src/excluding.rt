//! The constraints of a visit, in blocks that visits share.

ghost use Rattle.std.specs.Prelude.{◌≡◌, true, [], ◌++◌, IfOk};

use clause_diffs::Diffs;
use std::alloc::{AllocError, Global};
use std::marker::Model;
use std::rc::Rc;

/// The constraints of a visit, in order: a block for each else branch above it, or one where they were carried under a
/// unifier. Visits below share the blocks.
#[derive(Drop)]
pub struct Excluded {
    pub blocks: Vec<Rc<Diffs>>,
}

impl Model for Excluded {
    ghost use Rattle.std.specs.Prelude.{List, flat_map};
    ghost use Rattle.std.specs.Rc.{rc_value};
    ghost use Rattle.term_tree.specs.declared.bank.Id.{Id};
    ghost use Rattle.clause_diffs.specs.Codes.{coded_id, coded_diffs_of};
    ghost use Rattle.clause_diffs.specs.Diffs.{DiffOf};

    ghost Value = { List (DiffOf Id) };

    ghost coded = { coded_diffs_of coded_id };

    ghost view = { λ a. flat_map rc_value a.blocks.items };
}

impl Excluded {
    /// No constraints. Takes no memory.
    pub fn none(alloc: Global) -> Excluded
        ensures { result ≡ [] }
    {
        Excluded {
            blocks: Vec::new(alloc),
        }
    }

    /// Whether there is no block, and so no constraint.
    pub fn has_no_block(&self) -> bool
        ensures { result ≡ true → self.now ≡ [] }
    {
        self.blocks.is_empty()
    }

    /// The same constraints, in the same blocks.
    pub fn copy(&self, alloc: Global) -> Result<Excluded, AllocError>
        ensures { IfOk result (λ copied. copied ≡ self.now) }
    {
        if self.has_no_block() {
            return Ok(Excluded::none(alloc));
        }
        let mut blocks = Vec::with_capacity(alloc, self.blocks.len())?;
        'each: for block in &self.blocks {
            let held = block.clone()?;
            blocks.push(held)?;
        }
        Ok(Excluded { blocks })
    }

    /// The same with a block besides, unless this is empty.
    pub fn with(&self, alloc: Global, more: Diffs) -> Result<Excluded, AllocError>
        ensures { IfOk result (λ made. made ≡ self.now ++ more) }
    {
        let mut made = self.copy(alloc)?;
        if more.items.is_empty() {
            return Ok(made);
        }
        let held = Rc::new(alloc, more)?;
        made.blocks.push(held)?;
        Ok(made)
    }

    /// A copy of all constraints in one list.
    pub fn listed(&self, alloc: Global) -> Result<Diffs, AllocError>
        ensures { IfOk result (λ all. all ≡ self.now) }
    {
        let mut all = Diffs::new(alloc);
        'each: for block in &self.blocks {
            let mut copied = block.copy(alloc)?;
            all.items.append(&mut copied.items)?;
        }
        Ok(all)
    }
}
