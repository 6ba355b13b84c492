//! The flat parts of loose hypotheses, `att` of variables, at positions that are left.

ghost use Rattle.std.specs.Prelude.{◌≡◌, ◌↔◌, ◌<◌, [], ◌∷◌, false, IsTrue, length, map, IfOk};
ghost use Rattle.std.specs.Prelude.{MatchBool};
ghost use Rattle.spec_clauses.specs.Fact.{Att};
ghost use Rattle.spec_clauses.specs.Flat.{flat};
ghost use Rattle.spec_clauses.specs.Inclusion.{IsWithin};
ghost use Rattle.spec_terms.specs.Binding.{bound_to};
ghost use Rattle.term_tree.specs.Bank.{tree_at};
ghost use Rattle.unify_match.specs.Seen.{seen, AreBindings};
ghost use Rattle.clause_form.specs.Facts.{fact_of};
ghost use Rattle.clause_form.specs.Seen.{fact_at, IsFactIn, AreFactsIn};
ghost use Rattle.spec_placements.specs.Takes.{left};
ghost use Rattle.spec_placements.specs.LooseParts.{flat_of, Removes, HasNoRoom};
ghost use Rattle.fact_placing.specs.Boards.{facts_at, loose_parts, IsBoard, IsPlacing};

use clause_form::{Fact, is_data_symbol};
use fact_placing::board::{Board, Loose};
use fact_placing::placing::Placing;
use std::alloc::AllocError;
use term_tree::{Bank, Id, Node};
use unify_match::Binds;

/// Whether the fact is `att` of the term, in the phase.
fn is_known<B: Bank>(bank: &B, fact: &Fact, phase: u32, term: Id) -> bool
    requires fact { IsFactIn (B.trees bank.now) (fact_of fact.now) }
    requires term { term.index < length (B.trees bank.now) }
    ensures { IsTrue result ↔ (fact_at (B.trees bank.now) (fact_of fact.now) ≡ Att phase
        (tree_at (B.trees bank.now) term)) }
{
    match fact {
        Fact::Att(known, has) => {
            if *known != phase {
                return false;
            }
            bank.same(*has, term)
        }
        _ => false,
    }
}

/// Whether the fact stands at a free position and is `att` of the term, in the phase.
fn is_free<B: Bank>(bank: &B, fact: &Fact, phase: u32, term: Id, taken: bool) -> bool
    requires fact { IsFactIn (B.trees bank.now) (fact_of fact.now) }
    requires term { term.index < length (B.trees bank.now) }
    ensures { IsTrue result ↔ ((taken ≡ false) ×
        (fact_at (B.trees bank.now) (fact_of fact.now) ≡ Att phase
        (tree_at (B.trees bank.now) term))) }
{
    if taken {
        return false;
    }
    is_known(bank, fact, phase, term)
}

/// Takes the first position that is left where the term is known in the phase; false where there is none.
fn take_known<B: Bank>(bank: &B, hyps: &[Fact], phase: u32, term: Id, taken: &mut [bool]) -> bool
    requires hyps { AreFactsIn (B.trees bank.now) (map fact_of hyps.now) }
    requires term { term.index < length (B.trees bank.now) }
    requires flags { length taken.old ≡ length
        (facts_at (B.trees bank.now) (map fact_of hyps.now)) }
    ensures { let all = B.trees bank.now in MatchBool result
        (Removes (facts_at all (map fact_of hyps.now)) taken.old taken.new
        (Att phase (tree_at all term) ∷ []))
        (HasNoRoom (facts_at all (map fact_of hyps.now)) taken.old
        (Att phase (tree_at all term) ∷ [])) }
{
    'each: for (p, hyp) in hyps.iter().enumerate() {
        if is_free(bank, hyp, phase, term, taken[p]) {
            taken[p] = true;
            return true;
        }
    }
    false
}

/// Takes a position for each part of the term, in the phase.
fn take_parts<B: Bank>(bank: &B, hyps: &[Fact], phase: u32, term: Id, taken: &mut [bool]) -> bool
    requires hyps { AreFactsIn (B.trees bank.now) (map fact_of hyps.now) }
    requires term { term.index < length (B.trees bank.now) }
    requires flags { length taken.old ≡ length
        (facts_at (B.trees bank.now) (map fact_of hyps.now)) }
    ensures { let all = B.trees bank.now in MatchBool result
        (Removes (facts_at all (map fact_of hyps.now)) taken.old taken.new
        (flat (Att phase (tree_at all term))))
        (HasNoRoom (facts_at all (map fact_of hyps.now)) taken.old
        (flat (Att phase (tree_at all term)))) }
{
    match bank.node(term) {
        Node::Var(_) => take_known(bank, hyps, phase, term, taken),
        Node::App(symbol, arguments) => {
            if !is_data_symbol(symbol) {
                return take_known(bank, hyps, phase, term, taken);
            }
            'each: for argument in arguments {
                if !take_parts(bank, hyps, phase, *argument, taken) {
                    return false;
                }
            }
            true
        }
    }
}

/// Takes a position for each part of what the variable of a loose hypothesis is bound to; none where it isn't bound.
fn take_bound<B: Bank>(
    bank: &B,
    hyps: &[Fact],
    binds: &Binds,
    loose: Loose,
    taken: &mut [bool],
) -> bool
    requires hyps { AreFactsIn (B.trees bank.now) (map fact_of hyps.now) }
    requires bindings { AreBindings (B.trees bank.now) binds.now.pairs }
    requires flags { length taken.old ≡ length
        (facts_at (B.trees bank.now) (map fact_of hyps.now)) }
    ensures { let all = B.trees bank.now in MatchBool result
        (Removes (facts_at all (map fact_of hyps.now)) taken.old taken.new
        (flat_of loose.phase (bound_to (seen all binds.now.pairs) loose.variable)))
        (HasNoRoom (facts_at all (map fact_of hyps.now)) taken.old
        (flat_of loose.phase (bound_to (seen all binds.now.pairs) loose.variable))) }
{
    match binds.look(loose.variable) {
        None => true,
        Some(term) => take_parts(bank, hyps, loose.phase, term, taken),
    }
}

/// Takes a position for each part of what the loose variables are bound to; those that aren't bound are passed over.
fn take_loose<B: Bank>(board: &Board<'_, B>, binds: &Binds, taken: &mut [bool]) -> bool
    requires board { IsBoard (B.trees board.now.bank.now) (map fact_of board.now.hyps.now) }
    requires bindings { AreBindings (B.trees board.now.bank.now) binds.now.pairs }
    requires flags { length taken.old ≡ length (facts_at (B.trees board.now.bank.now)
        (map fact_of board.now.hyps.now)) }
    ensures { let all = B.trees board.now.bank.now in MatchBool result
        (Removes (facts_at all (map fact_of board.now.hyps.now)) taken.old taken.new
        (loose_parts (seen all binds.now.pairs) board.now.ending.loose.now))
        (HasNoRoom (facts_at all (map fact_of board.now.hyps.now)) taken.old
        (loose_parts (seen all binds.now.pairs) board.now.ending.loose.now)) }
{
    'each: for loose in board.ending.loose {
        if !take_bound(board.bank, board.hyps, binds, *loose, taken) {
            return false;
        }
    }
    true
}

/// Whether the flat parts of the loose hypotheses, as far as their variables are bound, stand at positions that aren't
/// taken, none used twice.
pub(crate) fn loose_may_stand<B: Bank>(
    board: &Board<'_, B>,
    placing: &Placing,
) -> Result<bool, AllocError>
    requires board { IsBoard (B.trees board.now.bank.now) (map fact_of board.now.hyps.now) }
    requires placing { IsPlacing (B.trees board.now.bank.now) (map fact_of board.now.hyps.now)
        placing.now.binds.pairs placing.now.taken.items }
    ensures { let all = B.trees board.now.bank.now in let parts = loose_parts
        (seen all placing.now.binds.pairs) board.now.ending.loose.now in IfOk result
        (λ yes. MatchBool yes (IsWithin parts (left placing.now.taken.items
        (facts_at all (map fact_of board.now.hyps.now))))
        (HasNoRoom (facts_at all (map fact_of board.now.hyps.now)) placing.now.taken.items parts)) }
{
    let mut taken = placing.taken.to_vec(board.alloc)?;
    Ok(take_loose(board, &placing.binds, &mut taken))
}
