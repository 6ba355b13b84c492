//! Terms read out of a bank.

ghost use Rattle.std.specs.Prelude.{◌≡◌, map, IfOk};
ghost use Rattle.term_tree.specs.Bank.{tree_at, AreKnown};

use clause_form::{Trees, read_term};
use std::alloc::{AllocError, Global};
use term_tree::{Bank, Id};

/// The trees of terms.
pub fn read_trees<B: Bank>(alloc: Global, bank: &B, ids: &[Id]) -> Result<Trees, AllocError>
    requires { AreKnown (B.trees bank.now) ids.now }
    ensures { IfOk result (λ trees. trees ≡ map (tree_at (B.trees bank.now)) ids.now) }
{
    let mut items = Vec::with_capacity(alloc, ids.len())?;
    'each: for id in ids {
        items.push(read_term(alloc, bank, *id)?)?;
    }
    Ok(Trees { items })
}
