//! Applying a substitution to a term of a bank. What does not change is not built again.

ghost use Rattle.std.specs.Prelude.{◌≡◌, ℕ, ◌↔◌, ◌<◌, true, IsTrue, List, [], length, slice_index_or, IfOk, OnOk, OnErr};
ghost use Rattle.spec_trees.specs.Tree.{Leaf, node, bind};
ghost use Rattle.spec_terms.specs.Term.{Term};
ghost use Rattle.spec_terms.specs.Unifier.{number_in};
ghost use Rattle.term_tree.specs.Bank.{symbol_of, tree_at, Grows, Names};
ghost use Rattle.unify_match.specs.Substitution.{subst_of, CanChange, Fits, IsFinal, IsLed, arguments};

use crate::binds::Binds;
use crate::walk::walk;
use smallvec::SmallVec;
use std::alloc::{AllocError, Global};
use term_tree::{Bank, Id, Node, Sym};

/// How many arguments wait without memory of their own while a term is built.
const WAITING_INLINE: usize = 16;

/// A substitution.
#[derive(Clone, Copy)]
pub enum Substitution<'a> {
    /// What bindings stand for.
    Bindings(&'a Binds),
    /// Each variable moved so far on.
    Offset(u32),
    /// Each variable renamed to the number at its place, where there is one.
    Numbers(&'a [Option<u32>]),
}

/// The number that a table has for a variable, and where it has none the variable's own.
fn number_at(numbers: &[Option<u32>], number: u32) -> u32
    ensures { result ≡ number_in numbers.now number }
{
    match numbers.get(number as usize) {
        Some(Some(found)) => *found,
        Some(None) => number,
        None => number,
    }
}

/// The number that a variable has after a renaming; after bindings that do not bind it, its own.
fn number_after(change: Substitution<'_>, number: u32) -> u32
    requires fits { Fits change number }
    requires last { IsFinal change number }
    ensures { (all : List Term) → Leaf result ≡ subst_of all change.entry number }
{
    match change {
        Substitution::Bindings(_) => number,
        Substitution::Offset(offset) => number + offset,
        Substitution::Numbers(numbers) => number_at(numbers, number),
    }
}

/// Where the substitution's bindings lead from a term. Takes no memory.
fn led<B: Bank>(bank: &B, change: Substitution<'_>, id: Id) -> Id
    requires known { id.index < length (B.trees bank.now) }
    requires ready { CanChange (B.trees bank.now) change (tree_at (B.trees bank.now) id) }
    ensures { IsLed (B.trees bank.now) change.entry id result }
{
    match change {
        Substitution::Bindings(binds) => walk(bank, binds, id),
        Substitution::Offset(_) => id,
        Substitution::Numbers(_) => id,
    }
}

/// How many arguments the root of a term has; a variable has none. Takes no memory.
#[inline(never)]
fn arity<B: Bank>(bank: &B, id: Id) -> usize
    requires { id.index < length (B.trees bank.now) }
    ensures { result ≡ length (arguments (tree_at (B.trees bank.now) id)) }
{
    match bank.node(id) {
        Node::Var(_) => 0,
        Node::App(_, args) => args.len(),
    }
}

/// The id at a place.
#[inline(always)]
fn id_at(ids: &[Id], place: usize) -> Id
    requires { place < length ids.now }
    ensures { result ≡ slice_index_or ids.now place (record { index = 0 }) }
{
    ids[place]
}

/// An argument of the root of a term. Takes no memory.
#[inline(never)]
pub fn argument<B: Bank>(bank: &B, id: Id, place: usize) -> Id
    requires known { id.index < length (B.trees bank.now) }
    requires there { place < length (arguments (tree_at (B.trees bank.now) id)) }
    ensures known { result.index < length (B.trees bank.now) }
    ensures is { tree_at (B.trees bank.now) result ≡
        slice_index_or (arguments (tree_at (B.trees bank.now) id)) place (Leaf 0) }
{
    match bank.node(id) {
        Node::Var(_) => id,
        Node::App(_, args) => id_at(args, place),
    }
}

/// The symbol at the root of a term with arguments. Takes no memory.
#[inline(never)]
fn symbol<B: Bank>(bank: &B, id: Id) -> Sym
    requires known { id.index < length (B.trees bank.now) }
    requires some { 0 < length (arguments (tree_at (B.trees bank.now) id)) }
    ensures { tree_at (B.trees bank.now) id ≡
        node (symbol_of result) (arguments (tree_at (B.trees bank.now) id)) }
{
    match bank.node(id) {
        Node::Var(_) => Sym::Attacker,
        Node::App(symbol, _) => symbol,
    }
}

/// A term without arguments after the substitution: a variable renamed, and a constant as it is.
#[inline(never)]
fn renamed<B: Bank>(bank: &mut B, change: Substitution<'_>, id: Id) -> Result<Id, AllocError>
    requires known { id.index < length (B.trees bank.old) }
    requires none { arguments (tree_at (B.trees bank.old) id) ≡ [] }
    requires ready { CanChange (B.trees bank.old) change (tree_at (B.trees bank.old) id) }
    requires last { (x : ℕ) → tree_at (B.trees bank.old) id ≡ Leaf x → IsFinal change x }
    ensures grows { Grows (B.trees bank.old) (B.trees bank.new) }
    ensures names { IfOk result (λ made. Names (B.trees bank.new) made
        (bind (subst_of (B.trees bank.old) change.entry) (tree_at (B.trees bank.old) id))) }
    ensures itself { bind (subst_of (B.trees bank.old) change.entry)
        (tree_at (B.trees bank.old) id) ≡ tree_at (B.trees bank.old) id →
        (B.trees bank.new ≡ B.trees bank.old) × (result ≡ Ok id) }
{
    match bank.node(id) {
        Node::Var(number) => {
            let after = number_after(change, number);
            if after == number {
                return Ok(id);
            }
            bank.var(after)
        }
        Node::App(_, _) => Ok(id),
    }
}

/// Whether all arguments so far, and this one, are what they were.
fn is_kept(so_far: bool, argument: Id, made: Id) -> bool
    ensures { IsTrue result ↔ ((so_far ≡ true) × (made ≡ argument)) }
{
    so_far && argument.index == made.index
}

/// Builds what a term is after the substitution. The arguments that are built wait on `stack`.
fn rebuild<B: Bank>(
    bank: &mut B,
    change: Substitution<'_>,
    stack: &mut SmallVec<Id, WAITING_INLINE>,
    id: Id,
) -> Result<Id, AllocError>
    requires known { id.index < length (B.trees bank.old) }
    requires ready { CanChange (B.trees bank.old) change (tree_at (B.trees bank.old) id) }
    ensures grows { Grows (B.trees bank.old) (B.trees bank.new) }
    ensures names { IfOk result (λ made. Names (B.trees bank.new) made
        (bind (subst_of (B.trees bank.old) change.entry) (tree_at (B.trees bank.old) id))) }
    ensures stack { OnOk result (stack.new.items ≡ stack.old.items) }
    ensures unchanged { bind (subst_of (B.trees bank.old) change.entry)
        (tree_at (B.trees bank.old) id) ≡ tree_at (B.trees bank.old) id →
        B.trees bank.new ≡ B.trees bank.old }
    ensures itself { bind (subst_of (B.trees bank.old) change.entry)
        (tree_at (B.trees bank.old) id) ≡ tree_at (B.trees bank.old) id →
        IfOk result (λ made. made ≡ id) }
{
    if bank.is_ground(id) {
        return Ok(id);
    }
    let end = led(bank, change, id);
    let count = arity(bank, end);
    if count == 0 {
        return renamed(bank, change, end);
    }
    let base = stack.len();
    let mut kept = true;
    'each: for i in 0..count {
        let arg = argument(bank, end, i);
        let made = rebuild(bank, change, stack, arg)?;
        kept = is_kept(kept, arg, made);
        stack.push(made)?;
    }
    if kept {
        stack.truncate(base);
        return Ok(end);
    }
    let made = bank.app(symbol(bank, end), &stack.as_slice()[base..])?;
    stack.truncate(base);
    Ok(made)
}

/// The term that a term is after the substitution. Where nothing changes it is the id itself, and the bank is
/// as before.
///
/// `Err` comes only for want of memory, and leaves the bank as before.
pub fn substituted<B: Bank>(
    alloc: Global,
    bank: &mut B,
    change: Substitution<'_>,
    id: Id,
) -> Result<Id, AllocError>
    requires known { id.index < length (B.trees bank.old) }
    requires ready { CanChange (B.trees bank.old) change (tree_at (B.trees bank.old) id) }
    ensures grows { Grows (B.trees bank.old) (B.trees bank.new) }
    ensures names { IfOk result (λ made. Names (B.trees bank.new) made
        (bind (subst_of (B.trees bank.old) change.entry) (tree_at (B.trees bank.old) id))) }
    ensures unchanged { bind (subst_of (B.trees bank.old) change.entry)
        (tree_at (B.trees bank.old) id) ≡ tree_at (B.trees bank.old) id →
        B.trees bank.new ≡ B.trees bank.old }
    ensures itself { bind (subst_of (B.trees bank.old) change.entry)
        (tree_at (B.trees bank.old) id) ≡ tree_at (B.trees bank.old) id →
        IfOk result (λ made. made ≡ id) }
    ensures err { OnErr result (B.trees bank.new ≡ B.trees bank.old) }
{
    let mark = bank.mark();
    let mut stack = SmallVec::new(alloc);
    match rebuild(bank, change, &mut stack, id) {
        Ok(made) => Ok(made),
        Err(error) => {
            bank.back(mark);
            Err(error)
        }
    }
}
