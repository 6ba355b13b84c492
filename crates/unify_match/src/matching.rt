//! Matching: a general term is made the special one, whose variables stand for themselves.

ghost use Rattle.std.specs.Prelude.{◌≡◌, ◌<◌, false, length, map, IfOk, OnErr, MatchBool};
ghost use Rattle.term_tree.specs.Bank.{tree_at, AreKnown};
ghost use Rattle.unify_match.specs.Trail.{Extends};
ghost use Rattle.unify_match.specs.Seen.{AreBindings};
ghost use Rattle.unify_match.specs.Progress.{HasMatches, HasAllMatches};
ghost use Rattle.unify_match.specs.Outcome.{Matched, NoMatch, MatchedAll, NoMatchOfAll};

use crate::binds::Binds;
use std::alloc::AllocError;
use term_tree::{Bank, Id, Node};

/// Extends the bindings until the general term is the special one. One without a variable is compared.
fn match_from<B: Bank>(
    bank: &B,
    binds: &mut Binds,
    general: Id,
    special: Id,
) -> Result<bool, AllocError>
    requires general_known { general.index < length (B.trees bank.now) }
    requires special_known { special.index < length (B.trees bank.now) }
    requires bindings { AreBindings (B.trees bank.now) binds.old.pairs }
    ensures bindings { AreBindings (B.trees bank.now) binds.new.pairs }
    ensures extends { Extends binds.old.pairs binds.new.pairs }
    ensures outcome { IfOk result (λ yes. MatchBool yes
        (HasMatches (B.trees bank.now) binds.old.pairs binds.new.pairs
        (tree_at (B.trees bank.now) general) (tree_at (B.trees bank.now) special))
        (NoMatch (B.trees bank.now) binds.old.pairs (tree_at (B.trees bank.now) general)
        (tree_at (B.trees bank.now) special))) }
{
    if bank.is_ground(general) {
        return Ok(bank.same(general, special));
    }
    match bank.node(general) {
        Node::Var(x) => match binds.look(x) {
            Some(bound) => {
                if !bank.same(bound, special) {
                    return Ok(false);
                }
                Ok(true)
            }
            None => {
                binds.reserve(1)?;
                binds.bind(x, special);
                Ok(true)
            }
        },
        Node::App(f, xs) => match bank.node(special) {
            Node::Var(_) => Ok(false),
            Node::App(g, ys) => {
                if !f.is_same(g) {
                    return Ok(false);
                }
                if xs.len() != ys.len() {
                    return Ok(false);
                }
                'each: for (i, x) in xs.iter().enumerate() {
                    if !match_from(bank, binds, *x, ys[i])? {
                        return Ok(false);
                    }
                }
                Ok(true)
            }
        },
    }
}

/// Extends the bindings to a match of a general term onto a special one under them, or tells that there
/// is none. The variables of the special term stand for themselves: none of them is bound. The time grows
/// with the symbols of the special term, also where the bank shares them.
///
/// `Err` comes only for want of memory. On `Ok(false)` and `Err` the bindings are as before.
pub fn match_onto<B: Bank>(
    bank: &B,
    general: Id,
    special: Id,
    binds: &mut Binds,
) -> Result<bool, AllocError>
    requires general_known { general.index < length (B.trees bank.now) }
    requires special_known { special.index < length (B.trees bank.now) }
    requires bindings { AreBindings (B.trees bank.now) binds.old.pairs }
    ensures bindings { AreBindings (B.trees bank.now) binds.new.pairs }
    ensures outcome { IfOk result (λ yes. MatchBool yes
        (Matched (B.trees bank.now) binds.old.pairs binds.new.pairs
        (tree_at (B.trees bank.now) general) (tree_at (B.trees bank.now) special))
        (NoMatch (B.trees bank.now) binds.old.pairs (tree_at (B.trees bank.now) general)
        (tree_at (B.trees bank.now) special))) }
    ensures no_match { IfOk result (λ yes. yes ≡ false → binds.new.pairs ≡ binds.old.pairs) }
    ensures err { OnErr result (binds.new.pairs ≡ binds.old.pairs) }
{
    let level = binds.level();
    match match_from(bank, binds, general, special) {
        Ok(true) => Ok(true),
        Ok(false) => {
            binds.undo(level);
            Ok(false)
        }
        Err(error) => {
            binds.undo(level);
            Err(error)
        }
    }
}

/// Extends the bindings until the general terms are the special ones, item by item.
fn match_each<B: Bank>(
    bank: &B,
    binds: &mut Binds,
    generals: &[Id],
    specials: &[Id],
) -> Result<bool, AllocError>
    requires generals_known { AreKnown (B.trees bank.now) generals.now }
    requires specials_known { AreKnown (B.trees bank.now) specials.now }
    requires paired { length generals.now ≡ length specials.now }
    requires bindings { AreBindings (B.trees bank.now) binds.old.pairs }
    ensures bindings { AreBindings (B.trees bank.now) binds.new.pairs }
    ensures extends { Extends binds.old.pairs binds.new.pairs }
    ensures outcome { IfOk result (λ yes. MatchBool yes
        (HasAllMatches (B.trees bank.now) binds.old.pairs binds.new.pairs
        (map (tree_at (B.trees bank.now)) generals.now)
        (map (tree_at (B.trees bank.now)) specials.now))
        (NoMatchOfAll (B.trees bank.now) binds.old.pairs
        (map (tree_at (B.trees bank.now)) generals.now)
        (map (tree_at (B.trees bank.now)) specials.now))) }
{
    'each: for (i, general) in generals.iter().enumerate() {
        if !match_from(bank, binds, *general, specials[i])? {
            return Ok(false);
        }
    }
    Ok(true)
}

/// Extends the bindings to a match of general terms onto special ones under them, item by item, or tells
/// that there is none. The variables of the special terms stand for themselves: none of them is bound. The
/// time grows with the symbols of the special terms, also where the bank shares them.
///
/// `Err` comes only for want of memory. On `Ok(false)` and `Err` the bindings are as before.
pub fn match_all_onto<B: Bank>(
    bank: &B,
    generals: &[Id],
    specials: &[Id],
    binds: &mut Binds,
) -> Result<bool, AllocError>
    requires generals_known { AreKnown (B.trees bank.now) generals.now }
    requires specials_known { AreKnown (B.trees bank.now) specials.now }
    requires paired { length generals.now ≡ length specials.now }
    requires bindings { AreBindings (B.trees bank.now) binds.old.pairs }
    ensures bindings { AreBindings (B.trees bank.now) binds.new.pairs }
    ensures outcome { IfOk result (λ yes. MatchBool yes
        (MatchedAll (B.trees bank.now) binds.old.pairs binds.new.pairs
        (map (tree_at (B.trees bank.now)) generals.now)
        (map (tree_at (B.trees bank.now)) specials.now))
        (NoMatchOfAll (B.trees bank.now) binds.old.pairs
        (map (tree_at (B.trees bank.now)) generals.now)
        (map (tree_at (B.trees bank.now)) specials.now))) }
    ensures no_match { IfOk result (λ yes. yes ≡ false → binds.new.pairs ≡ binds.old.pairs) }
    ensures err { OnErr result (binds.new.pairs ≡ binds.old.pairs) }
{
    let level = binds.level();
    match match_each(bank, binds, generals, specials) {
        Ok(true) => Ok(true),
        Ok(false) => {
            binds.undo(level);
            Ok(false)
        }
        Err(error) => {
            binds.undo(level);
            Err(error)
        }
    }
}
