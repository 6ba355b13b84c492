//! Matching of facts.

ghost use Rattle.std.specs.Prelude.{◌≡◌, length, map, IfOk, OnErr, MatchBool, false};
ghost use Rattle.term_tree.specs.Bank.{tree_at, AreKnown};
ghost use Rattle.unify_match.specs.Trail.{Extends};
ghost use Rattle.unify_match.specs.Seen.{seen, AreBindings};
ghost use Rattle.unify_match.specs.Outcome.{MatchedAll, NoMatchOfAll};
ghost use Rattle.clause_form.specs.Facts.{fact_of};
ghost use Rattle.clause_form.specs.Seen.{fact_at, IsFactIn};
ghost use Rattle.spec_placements.specs.Placing.{FactMatched, NoFactMatch};

use clause_form::Fact;
use std::alloc::AllocError;
use term_tree::{Bank, Id};
use unify_match::{Binds, match_all_onto};

/// Matches lists of terms, item by item; where their lengths differ there is no match.
fn match_lists<B: Bank>(
    bank: &B,
    generals: &[Id],
    specials: &[Id],
    binds: &mut Binds,
) -> Result<bool, AllocError>
    requires generals { AreKnown (B.trees bank.now) generals.now }
    requires specials { AreKnown (B.trees bank.now) specials.now }
    requires bindings { AreBindings (B.trees bank.now) binds.old.pairs }
    ensures bindings { AreBindings (B.trees bank.now) binds.new.pairs }
    ensures outcome { let all = B.trees bank.now in IfOk result
        (λ yes. MatchBool yes (MatchedAll all binds.old.pairs binds.new.pairs
        (map (tree_at all) generals.now) (map (tree_at all) specials.now))
        (NoMatchOfAll all binds.old.pairs (map (tree_at all) generals.now)
        (map (tree_at all) specials.now))) }
    ensures no_match { IfOk result (λ yes. yes ≡ false → binds.new.pairs ≡ binds.old.pairs) }
    ensures err { OnErr result (binds.new.pairs ≡ binds.old.pairs) }
{
    if generals.len() != specials.len() {
        return Ok(false);
    }
    match_all_onto(bank, generals, specials, binds)
}

/// Extends the bindings to a match of a general fact onto a special one under them, or tells that there is none. The
/// variables of the special fact stand for themselves.
///
/// `Err` comes only for want of memory. On `Ok(false)` and `Err` the bindings are as before.
pub(crate) fn match_fact<B: Bank>(
    bank: &B,
    general: &Fact,
    special: &Fact,
    binds: &mut Binds,
) -> Result<bool, AllocError>
    requires general { IsFactIn (B.trees bank.now) (fact_of general.now) }
    requires special { IsFactIn (B.trees bank.now) (fact_of special.now) }
    requires bindings { AreBindings (B.trees bank.now) binds.old.pairs }
    ensures bindings { AreBindings (B.trees bank.now) binds.new.pairs }
    ensures extends { Extends binds.old.pairs binds.new.pairs }
    ensures outcome { let all = B.trees bank.now in IfOk result
        (λ yes. MatchBool yes (FactMatched (seen all binds.old.pairs) (seen all binds.new.pairs)
        (fact_at all (fact_of general.now)) (fact_at all (fact_of special.now)))
        (NoFactMatch (seen all binds.old.pairs) (fact_at all (fact_of general.now))
        (fact_at all (fact_of special.now)))) }
    ensures no_match { IfOk result (λ yes. yes ≡ false → binds.new.pairs ≡ binds.old.pairs) }
    ensures err { OnErr result (binds.new.pairs ≡ binds.old.pairs) }
{
    if general.head() != special.head() {
        return Ok(false);
    }
    let (generals, specials) = (general.terms(), special.terms());
    match_lists(bank, generals.as_slice(), specials.as_slice(), binds)
}
