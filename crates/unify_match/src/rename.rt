//! Renaming the variables of terms.

ghost use Rattle.std.specs.Prelude.{◌≡◌, ℕ, ◌+◌, ◌<◌, IsTrue, length, IfOk, OnErr};
ghost use Rattle.spec_trees.specs.Tree.{bind};
ghost use Rattle.spec_terms.specs.Term.{has_var};
ghost use Rattle.spec_terms.specs.Unifier.{moved, renumbered as renumbered_by};
ghost use Rattle.term_tree.specs.Bank.{tree_at, Grows, Names};

use crate::substitute::{Substitution, substituted};
use std::alloc::{AllocError, Global};
use term_tree::{Bank, Id};

/// The term with each variable moved `offset` further on. Where nothing changes it is the id itself.
///
/// `Err` comes only for want of memory. Then, and where nothing changes, the bank is as before.
pub fn shifted<B: Bank>(alloc: Global, bank: &mut B, id: Id, offset: u32) -> Result<Id, AllocError>
    requires known { id.index < length (B.trees bank.old) }
    requires fits { (x : ℕ) → IsTrue (has_var x (tree_at (B.trees bank.old) id)) →
        x + offset < 4294967296 }
    ensures grows { Grows (B.trees bank.old) (B.trees bank.new) }
    ensures names { IfOk result (λ made. Names (B.trees bank.new) made
        (bind (moved offset) (tree_at (B.trees bank.old) id))) }
    ensures itself { bind (moved offset) (tree_at (B.trees bank.old) id) ≡
        tree_at (B.trees bank.old) id → IfOk result (λ made. made ≡ id) }
    ensures unchanged { bind (moved offset) (tree_at (B.trees bank.old) id) ≡
        tree_at (B.trees bank.old) id → B.trees bank.new ≡ B.trees bank.old }
    ensures err { OnErr result (B.trees bank.new ≡ B.trees bank.old) }
{
    substituted(alloc, bank, Substitution::Offset(offset), id)
}

/// The term with each variable renamed to the number that the table has at its place; one that has no number
/// there stays. Where nothing changes it is the id itself.
///
/// `Err` comes only for want of memory. Then, and where nothing changes, the bank is as before.
pub fn renumbered<B: Bank>(
    alloc: Global,
    bank: &mut B,
    id: Id,
    numbers: &[Option<u32>],
) -> Result<Id, AllocError>
    requires known { id.index < length (B.trees bank.old) }
    ensures grows { Grows (B.trees bank.old) (B.trees bank.new) }
    ensures names { IfOk result (λ made. Names (B.trees bank.new) made
        (bind (renumbered_by numbers.now) (tree_at (B.trees bank.old) id))) }
    ensures itself { bind (renumbered_by numbers.now) (tree_at (B.trees bank.old) id) ≡
        tree_at (B.trees bank.old) id → IfOk result (λ made. made ≡ id) }
    ensures unchanged { bind (renumbered_by numbers.now) (tree_at (B.trees bank.old) id) ≡
        tree_at (B.trees bank.old) id → B.trees bank.new ≡ B.trees bank.old }
    ensures err { OnErr result (B.trees bank.new ≡ B.trees bank.old) }
{
    substituted(alloc, bank, Substitution::Numbers(numbers), id)
}
