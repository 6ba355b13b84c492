//! Constraints over the ids of a bank.

ghost use Rattle.std.specs.Prelude.{◌≡◌, [], ◌∷◌, ◌++◌, IfOk, OnOk, OnErr};

use crate::ids::Ids;
use std::alloc::{AllocError, Global};
use std::marker::Model;

/// A constraint: the left terms and the right ones, one by one, are not to be equal, whatever stands for the variables that it
/// binds. These are the variables from `first` on; those below are the clause's.
#[derive(Debug)]
pub struct Diff {
    pub first: u32,
    pub left: Ids,
    pub right: Ids,
}

impl Drop for Diff {
    fn drop(self) {
        let Diff {
            first: _,
            left,
            right,
        } = self;
        drop(left);
        drop(right);
    }
}

impl Model for Diff {
    ghost use Rattle.term_tree.specs.declared.bank.Id.{Id};
    ghost use Rattle.clause_diffs.specs.Codes.{coded_id, coded_diff_of};
    ghost use Rattle.clause_diffs.specs.Diffs.{DiffOf};

    ghost Value = { DiffOf Id };

    ghost coded = { coded_diff_of coded_id };

    ghost view = { λ d. record { first = d.first; left = d.left; right = d.right } };
}

/// Constraints in order.
#[derive(Debug)]
pub struct Diffs {
    pub items: Vec<Diff>,
}

impl Drop for Diffs {
    fn drop(self) {
        let Diffs { items } = self;
        drop(items);
    }
}

impl Model for Diffs {
    ghost use Rattle.std.specs.Prelude.{List};
    ghost use Rattle.term_tree.specs.declared.bank.Id.{Id};
    ghost use Rattle.clause_diffs.specs.Codes.{coded_id, coded_diffs_of};
    ghost use Rattle.clause_diffs.specs.Diffs.{DiffOf};

    ghost Value = { List (DiffOf Id) };

    ghost coded = { coded_diffs_of coded_id };

    ghost view = { λ a. a.items.items };
}

impl Diff {
    /// A copy, the ids the same.
    pub fn copy(&self, alloc: Global) -> Result<Diff, AllocError>
        ensures { IfOk result (λ copied. copied ≡ self.now) }
    {
        let left = self.left.copy(alloc)?;
        let right = self.right.copy(alloc)?;
        Ok(Diff {
            first: self.first,
            left,
            right,
        })
    }
}

impl Diffs {
    /// No constraints. Takes no memory.
    pub fn new(alloc: Global) -> Diffs
        ensures { result ≡ [] }
    {
        Diffs {
            items: Vec::new(alloc),
        }
    }

    /// One more constraint, at the end.
    pub fn push(&mut self, diff: Diff) -> Result<(), AllocError>
        ensures ok { OnOk result (self.new ≡ self.old ++ diff ∷ []) }
        ensures err { OnErr result (self.new ≡ self.old) }
    {
        self.items.push(diff)?;
        Ok(())
    }

    /// A copy, constraint by constraint.
    pub fn copy(&self, alloc: Global) -> Result<Diffs, AllocError>
        ensures { IfOk result (λ copied. copied ≡ self.now) }
    {
        let mut items = Vec::with_capacity(alloc, self.items.len())?;
        for diff in &self.items {
            items.push(diff.copy(alloc)?)?;
        }
        Ok(Diffs { items })
    }
}
