//! Unification with triangular bindings (Robinson 1965; Baader and Snyder 2001). Where it has gone far it
//! remembers the pairs of terms that it made one, and an occurs check the terms that it has passed, so its
//! time is polynomial in the number of terms that can be reached.

ghost use Rattle.std.specs.Prelude.{◌≡◌, ◌<◌, false, None, length, map, IfOk, OnErr, MatchBool};
ghost use Rattle.spec_trees.specs.Tree.{Leaf, bind};
ghost use Rattle.spec_terms.specs.Term.{has_var};
ghost use Rattle.spec_terms.specs.Binding.{resolved};
ghost use Rattle.term_tree.specs.Bank.{tree_at, AreKnown};
ghost use Rattle.unify_match.specs.Trail.{id_of};
ghost use Rattle.unify_match.specs.Seen.{seen, IsReady};
ghost use Rattle.unify_match.specs.Outcome.{Unified, NoUnifier, UnifiedAll, NoUnifierOfAll};
ghost use Rattle.unify_match.specs.Memo.{AreMade};
ghost use Rattle.unify_match.specs.Progress.{Grown, HasSolutions, HasAllSolutions, IsApart};

use crate::binds::Binds;
use crate::memo::Memo;
use crate::walk::{occurs, walk};
use std::alloc::AllocError;
use term_tree::{Bank, Id, Node};

/// The occurs check: whether a variable stands in what a term stands for.
fn stands_in<B: Bank>(bank: &B, binds: &Binds, number: u32, id: Id) -> Result<bool, AllocError>
    requires known { id.index < length (B.trees bank.now) }
    requires ready { IsReady (B.trees bank.now) binds.now.pairs }
    ensures { IfOk result (λ found. found ≡ has_var number
        (bind (resolved (seen (B.trees bank.now) binds.now.pairs))
        (tree_at (B.trees bank.now) id))) }
{
    let mut clear = Memo::new(binds.allocator());
    occurs(bank, binds, &mut clear, number, id)
}

/// Binds an unbound variable, whose own id is `var`, to a term, unless it stands in what the term stands for.
#[inline(never)]
fn bind_apart<B: Bank>(
    bank: &B,
    binds: &mut Binds,
    var: Id,
    number: u32,
    id: Id,
) -> Result<bool, AllocError>
    requires known { id.index < length (B.trees bank.now) }
    requires there { var.index < length (B.trees bank.now) }
    requires is { tree_at (B.trees bank.now) var ≡ Leaf number }
    requires ready { IsReady (B.trees bank.now) binds.old.pairs }
    requires unbound { id_of binds.old.pairs number ≡ None }
    requires apart { IsApart (B.trees bank.now) binds.old.pairs number id }
    ensures ready { IsReady (B.trees bank.now) binds.new.pairs }
    ensures grown { Grown (B.trees bank.now) binds.old.pairs binds.new.pairs }
    ensures outcome { IfOk result (λ yes. MatchBool yes
        (HasSolutions (B.trees bank.now) binds.old.pairs binds.new.pairs (Leaf number)
        (tree_at (B.trees bank.now) id)) (NoUnifier (B.trees bank.now) binds.old.pairs (Leaf number)
        (tree_at (B.trees bank.now) id))) }
{
    if stands_in(bank, binds, number, id)? {
        return Ok(false);
    }
    binds.reserve(1)?;
    binds.bind(number, id);
    Ok(true)
}

/// Extends the bindings until the two terms are one. `made` remembers the pairs that were made one.
fn unify_from<B: Bank>(
    bank: &B,
    binds: &mut Binds,
    made: &mut Memo,
    left: Id,
    right: Id,
) -> Result<bool, AllocError>
    requires left_known { left.index < length (B.trees bank.now) }
    requires right_known { right.index < length (B.trees bank.now) }
    requires ready { IsReady (B.trees bank.now) binds.old.pairs }
    requires made { AreMade (B.trees bank.now) binds.old.pairs made.old }
    ensures ready { IsReady (B.trees bank.now) binds.new.pairs }
    ensures made { AreMade (B.trees bank.now) binds.new.pairs made.new }
    ensures grown { Grown (B.trees bank.now) binds.old.pairs binds.new.pairs }
    ensures outcome { IfOk result (λ yes. MatchBool yes
        (HasSolutions (B.trees bank.now) binds.old.pairs binds.new.pairs
        (tree_at (B.trees bank.now) left) (tree_at (B.trees bank.now) right))
        (NoUnifier (B.trees bank.now) binds.old.pairs (tree_at (B.trees bank.now) left)
        (tree_at (B.trees bank.now) right))) }
{
    if left.index == right.index {
        return Ok(true);
    }
    let a = walk(bank, binds, left);
    let b = walk(bank, binds, right);
    if a.index == b.index {
        return Ok(true);
    }
    if bank.is_ground(a) && bank.is_ground(b) {
        return Ok(bank.same(a, b));
    }
    match (bank.node(a), bank.node(b)) {
        (Node::Var(x), Node::Var(y)) if x == y => Ok(true),
        (Node::Var(x), _) => bind_apart(bank, binds, a, x, b),
        (_, Node::Var(y)) => bind_apart(bank, binds, b, y, a),
        (Node::App(f, xs), Node::App(g, ys)) => {
            if !f.is_same(g) {
                return Ok(false);
            }
            if xs.len() != ys.len() {
                return Ok(false);
            }
            if xs.is_empty() {
                return Ok(true);
            }
            if made.has(a.index, b.index) {
                return Ok(true);
            }
            'each: for (i, x) in xs.iter().enumerate() {
                if !unify_from(bank, binds, made, *x, ys[i])? {
                    return Ok(false);
                }
            }
            made.pass(a.index, b.index)?;
            Ok(true)
        }
    }
}

/// Extends the bindings to a most general unifier of two terms under them, or tells that there is none.
///
/// `Err` comes only for want of memory. On `Ok(false)` and `Err` the bindings are as before.
pub fn unify<B: Bank>(bank: &B, left: Id, right: Id, binds: &mut Binds) -> Result<bool, AllocError>
    requires left_known { left.index < length (B.trees bank.now) }
    requires right_known { right.index < length (B.trees bank.now) }
    requires ready { IsReady (B.trees bank.now) binds.old.pairs }
    ensures ready { IsReady (B.trees bank.now) binds.new.pairs }
    ensures outcome { IfOk result (λ yes. MatchBool yes
        (Unified (B.trees bank.now) binds.old.pairs binds.new.pairs
        (tree_at (B.trees bank.now) left) (tree_at (B.trees bank.now) right))
        (NoUnifier (B.trees bank.now) binds.old.pairs (tree_at (B.trees bank.now) left)
        (tree_at (B.trees bank.now) right))) }
    ensures no_unifier { IfOk result (λ yes. yes ≡ false → binds.new.pairs ≡ binds.old.pairs) }
    ensures err { OnErr result (binds.new.pairs ≡ binds.old.pairs) }
{
    let level = binds.level();
    let mut made = Memo::new(binds.allocator());
    match unify_from(bank, binds, &mut made, left, right) {
        Ok(true) => Ok(true),
        Ok(false) => {
            binds.undo(level);
            Ok(false)
        }
        Err(error) => {
            binds.undo(level);
            Err(error)
        }
    }
}

/// Extends the bindings until the two lists are one, item by item.
fn unify_each<B: Bank>(
    bank: &B,
    binds: &mut Binds,
    made: &mut Memo,
    lefts: &[Id],
    rights: &[Id],
) -> Result<bool, AllocError>
    requires lefts_known { AreKnown (B.trees bank.now) lefts.now }
    requires rights_known { AreKnown (B.trees bank.now) rights.now }
    requires paired { length lefts.now ≡ length rights.now }
    requires ready { IsReady (B.trees bank.now) binds.old.pairs }
    requires made { AreMade (B.trees bank.now) binds.old.pairs made.old }
    ensures ready { IsReady (B.trees bank.now) binds.new.pairs }
    ensures grown { Grown (B.trees bank.now) binds.old.pairs binds.new.pairs }
    ensures outcome { IfOk result (λ yes. MatchBool yes
        (HasAllSolutions (B.trees bank.now) binds.old.pairs binds.new.pairs
        (map (tree_at (B.trees bank.now)) lefts.now) (map (tree_at (B.trees bank.now)) rights.now))
        (NoUnifierOfAll (B.trees bank.now) binds.old.pairs
        (map (tree_at (B.trees bank.now)) lefts.now)
        (map (tree_at (B.trees bank.now)) rights.now))) }
{
    'each: for (i, left) in lefts.iter().enumerate() {
        if !unify_from(bank, binds, made, *left, rights[i])? {
            return Ok(false);
        }
    }
    Ok(true)
}

/// Extends the bindings to a most general unifier of two lists of terms under them, item by item, or tells
/// that there is none.
///
/// `Err` comes only for want of memory. On `Ok(false)` and `Err` the bindings are as before.
pub fn unify_all<B: Bank>(
    bank: &B,
    lefts: &[Id],
    rights: &[Id],
    binds: &mut Binds,
) -> Result<bool, AllocError>
    requires lefts_known { AreKnown (B.trees bank.now) lefts.now }
    requires rights_known { AreKnown (B.trees bank.now) rights.now }
    requires paired { length lefts.now ≡ length rights.now }
    requires ready { IsReady (B.trees bank.now) binds.old.pairs }
    ensures ready { IsReady (B.trees bank.now) binds.new.pairs }
    ensures outcome { IfOk result (λ yes. MatchBool yes
        (UnifiedAll (B.trees bank.now) binds.old.pairs binds.new.pairs
        (map (tree_at (B.trees bank.now)) lefts.now) (map (tree_at (B.trees bank.now)) rights.now))
        (NoUnifierOfAll (B.trees bank.now) binds.old.pairs
        (map (tree_at (B.trees bank.now)) lefts.now)
        (map (tree_at (B.trees bank.now)) rights.now))) }
    ensures no_unifier { IfOk result (λ yes. yes ≡ false → binds.new.pairs ≡ binds.old.pairs) }
    ensures err { OnErr result (binds.new.pairs ≡ binds.old.pairs) }
{
    let level = binds.level();
    let mut made = Memo::new(binds.allocator());
    match unify_each(bank, binds, &mut made, lefts, rights) {
        Ok(true) => Ok(true),
        Ok(false) => {
            binds.undo(level);
            Ok(false)
        }
        Err(error) => {
            binds.undo(level);
            Err(error)
        }
    }
}
