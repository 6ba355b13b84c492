//! Ids of the terms of a bank.

ghost use Rattle.std.specs.Prelude.{◌≡◌, IfOk};

use std::alloc::{AllocError, Global};
use std::marker::Model;
use term_tree::Id;

/// Ids of terms in order.
#[derive(Debug)]
pub struct Ids {
    pub items: Vec<Id>,
}

impl Drop for Ids {
    fn drop(self) {
        let Ids { items } = self;
        drop(items);
    }
}

impl Model for Ids {
    ghost use Rattle.std.specs.Prelude.{List};
    ghost use Rattle.term_tree.specs.declared.bank.Id.{Id};
    ghost use Rattle.clause_diffs.specs.Codes.{coded_ids};

    ghost Value = { List Id };

    ghost coded = { coded_ids };

    ghost view = { λ a. a.items.items };
}

impl Ids {
    /// A copy.
    pub fn copy(&self, alloc: Global) -> Result<Ids, AllocError>
        ensures { IfOk result (λ copied. copied ≡ self.now) }
    {
        let items = self.items.to_vec(alloc)?;
        Ok(Ids { items })
    }
}
