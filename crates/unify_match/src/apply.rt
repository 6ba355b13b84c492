//! Applying bindings to a term: the symbols are counted before anything is built.

ghost use Rattle.std.specs.Prelude.{◌≡◌, ℕ, ◌+◌, ◌<◌, ◌≤◌, IsTrue, None, length, IfOk, IfSome, OnErr, MatchOption};
ghost use Rattle.spec_trees.specs.Tree.{bind, size};
ghost use Rattle.spec_terms.specs.Term.{has_var};
ghost use Rattle.spec_terms.specs.Binding.{resolved};
ghost use Rattle.term_tree.specs.Bank.{tree_at, Grows, Names};
ghost use Rattle.unify_match.specs.Trail.{id_of};
ghost use Rattle.unify_match.specs.Seen.{seen, IsReady};

use crate::binds::Binds;
use crate::substitute::{Substitution, substituted};
use crate::walk::walk;
use std::alloc::AllocError;
use term_tree::{Bank, Id, Node, SIZE_LIMIT};

/// How many of `most` symbols are left after those of what a term stands for; `None` where they do not
/// suffice. Takes no memory.
#[tactic(auto, using(crate::proofs::Applying::some_symbol))]
fn spare<B: Bank>(bank: &B, binds: &Binds, id: Id, most: u64) -> Option<u64>
    requires known { id.index < length (B.trees bank.now) }
    requires ready { IsReady (B.trees bank.now) binds.now.pairs }
    ensures { let symbols = size (bind (resolved (seen (B.trees bank.now) binds.now.pairs))
        (tree_at (B.trees bank.now) id)) in MatchOption result (most < symbols)
        (λ left. left + symbols ≡ most) }
{
    if most == 0 {
        return None;
    }
    let symbols = bank.size(id);
    if symbols < SIZE_LIMIT && bank.is_ground(id) {
        if most < symbols {
            return None;
        }
        return Some(most - symbols);
    }
    let end = walk(bank, binds, id);
    match bank.node(end) {
        Node::Var(_) => Some(most - 1),
        Node::App(_, args) => {
            let mut left = most - 1;
            'each: for arg in args {
                left = spare(bank, binds, *arg, left)?;
            }
            Some(left)
        }
    }
}

/// The term that a term stands for under the bindings, or `None` where it has more than `most` symbols.
/// The symbols are counted before anything is built. Where no variable of the term is bound it is the id
/// itself, and what is left as it was is not built again.
///
/// `Err` comes only for want of memory; then, on `None`, and where no variable is bound, the bank is as before.
pub fn apply_bound<B: Bank>(
    bank: &mut B,
    id: Id,
    binds: &Binds,
    most: u64,
) -> Result<Option<Id>, AllocError>
    requires known { id.index < length (B.trees bank.old) }
    requires ready { IsReady (B.trees bank.old) binds.now.pairs }
    ensures grows { Grows (B.trees bank.old) (B.trees bank.new) }
    ensures outcome { let term = bind (resolved (seen (B.trees bank.old) binds.now.pairs))
        (tree_at (B.trees bank.old) id) in IfOk result
        (λ found. MatchOption found ((most < size term) × (B.trees bank.new ≡ B.trees bank.old))
        (λ built. (size term ≤ most) × Names (B.trees bank.new) built term)) }
    ensures unchanged { ((x : ℕ) → IsTrue (has_var x (tree_at (B.trees bank.old) id)) →
        id_of binds.now.pairs x ≡ None) → B.trees bank.new ≡ B.trees bank.old }
    ensures itself { ((x : ℕ) → IsTrue (has_var x (tree_at (B.trees bank.old) id)) →
        id_of binds.now.pairs x ≡ None) → IfOk result
        (λ found. IfSome found (λ built. built ≡ id)) }
    ensures err { OnErr result (B.trees bank.new ≡ B.trees bank.old) }
{
    if spare(bank, binds, id, most).is_none() {
        return Ok(None);
    }
    let made = substituted(binds.allocator(), bank, Substitution::Bindings(binds), id)?;
    Ok(Some(made))
}

/// The term that a term stands for under the bindings, whatever its size. `Err` comes only for want of memory, and leaves
/// the bank as before.
pub fn apply_unlimited<B: Bank>(bank: &mut B, id: Id, binds: &Binds) -> Result<Id, AllocError>
    requires known { id.index < length (B.trees bank.old) }
    requires ready { IsReady (B.trees bank.old) binds.now.pairs }
    ensures grows { Grows (B.trees bank.old) (B.trees bank.new) }
    ensures names { IfOk result (λ made. Names (B.trees bank.new) made
        (bind (resolved (seen (B.trees bank.old) binds.now.pairs))
        (tree_at (B.trees bank.old) id))) }
    ensures err { OnErr result (B.trees bank.new ≡ B.trees bank.old) }
{
    substituted(binds.allocator(), bank, Substitution::Bindings(binds), id)
}
