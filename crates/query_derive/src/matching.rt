//! Owned terms and facts made those of a bank: the bindings of a query's variables are extended.

ghost use Rattle.std.specs.Prelude.{◌≡◌, ◌<◌, Some, true, false, length, map, IfOk};
ghost use Rattle.spec_terms.specs.Unifier.{Matches, MatchesAll};
ghost use Rattle.spec_clauses.specs.Fact.{Bad, fact_under};
ghost use Rattle.spec_clauses.specs.Subsumption.{hypothesis_at};
ghost use Rattle.term_tree.specs.Bank.{tree_at, AreKnown};
ghost use Rattle.unify_match.specs.Trail.{Extends};
ghost use Rattle.unify_match.specs.Seen.{AreBindings};
ghost use Rattle.clause_form.specs.Facts.{fact_of};
ghost use Rattle.clause_form.specs.Plain.{term_of};
ghost use Rattle.clause_form.specs.Seen.{fact_at, IsFactIn, AreFactsIn};
ghost use Rattle.query_derive.specs.Narrowing.{Narrows, Excludes};
ghost use Rattle.query_derive.specs.Wanted.{event_fact};

use crate::wanted::Event;
use clause_form::{Fact, Tree, Trees};
use std::alloc::AllocError;
use term_tree::{Bank, Id, Node};
use unify_match::Binds;

/// Binds a variable to a term, or compares it with what the variable is bound to.
fn match_variable<B: Bank>(
    bank: &B,
    number: u32,
    id: Id,
    binds: &mut Binds,
) -> Result<bool, AllocError>
    requires known { id.index < length (B.trees bank.now) }
    requires bindings { AreBindings (B.trees bank.now) binds.old.pairs }
    ensures bindings { AreBindings (B.trees bank.now) binds.new.pairs }
    ensures extends { Extends binds.old.pairs binds.new.pairs }
    ensures yes { IfOk result (λ yes. yes ≡ true → Narrows (B.trees bank.now) binds.old.pairs
        binds.new.pairs (λ s. s number ≡ tree_at (B.trees bank.now) id)) }
    ensures no { IfOk result (λ yes. yes ≡ false → Excludes (B.trees bank.now) binds.old.pairs
        (λ s. s number ≡ tree_at (B.trees bank.now) id)) }
{
    match binds.look(number) {
        Some(bound) => Ok(bank.same(bound, id)),
        None => {
            binds.reserve(1)?;
            binds.bind(number, id);
            Ok(true)
        }
    }
}

/// Extends the bindings until the owned term is the one of the bank.
#[cycle(tree_matching)]
fn match_tree<B: Bank>(bank: &B, tree: &Tree, id: Id, binds: &mut Binds) -> Result<bool, AllocError>
    requires known { id.index < length (B.trees bank.now) }
    requires bindings { AreBindings (B.trees bank.now) binds.old.pairs }
    ensures bindings { AreBindings (B.trees bank.now) binds.new.pairs }
    ensures extends { Extends binds.old.pairs binds.new.pairs }
    ensures yes { IfOk result (λ yes. yes ≡ true → Narrows (B.trees bank.now) binds.old.pairs
        binds.new.pairs (λ s. Matches s (term_of tree.now) (tree_at (B.trees bank.now) id))) }
    ensures no { IfOk result (λ yes. yes ≡ false → Excludes (B.trees bank.now) binds.old.pairs
        (λ s. Matches s (term_of tree.now) (tree_at (B.trees bank.now) id))) }
{
    match tree {
        Tree::Var(number) => match_variable(bank, *number, id, binds),
        Tree::App(symbol, parts) => match bank.node(id) {
            Node::Var(_) => Ok(false),
            Node::App(other, ids) => {
                if !symbol.is_same(other) {
                    return Ok(false);
                }
                match_trees(bank, parts, ids, binds)
            }
        },
    }
}

/// Extends the bindings until the owned terms are those of the bank, item by item.
#[cycle(tree_matching)]
fn match_trees<B: Bank>(
    bank: &B,
    trees: &Trees,
    ids: &[Id],
    binds: &mut Binds,
) -> Result<bool, AllocError>
    requires known { AreKnown (B.trees bank.now) ids.now }
    requires bindings { AreBindings (B.trees bank.now) binds.old.pairs }
    ensures bindings { AreBindings (B.trees bank.now) binds.new.pairs }
    ensures extends { Extends binds.old.pairs binds.new.pairs }
    ensures yes { IfOk result (λ yes. yes ≡ true → Narrows (B.trees bank.now) binds.old.pairs
        binds.new.pairs (λ s. MatchesAll s trees.now (map (tree_at (B.trees bank.now)) ids.now))) }
    ensures no { IfOk result (λ yes. yes ≡ false → Excludes (B.trees bank.now) binds.old.pairs
        (λ s. MatchesAll s trees.now (map (tree_at (B.trees bank.now)) ids.now))) }
{
    if trees.items.len() != ids.len() {
        return Ok(false);
    }
    'each: for (i, tree) in trees.items.iter().enumerate() {
        if !match_tree(bank, tree, ids[i], binds)? {
            return Ok(false);
        }
    }
    Ok(true)
}

/// Extends the bindings until the conclusion is `bad` of the owned terms.
pub fn match_bad<B: Bank>(
    bank: &B,
    bad: &Trees,
    conclusion: &Fact,
    binds: &mut Binds,
) -> Result<bool, AllocError>
    requires known { IsFactIn (B.trees bank.now) (fact_of conclusion.now) }
    requires bindings { AreBindings (B.trees bank.now) binds.old.pairs }
    ensures bindings { AreBindings (B.trees bank.now) binds.new.pairs }
    ensures yes { IfOk result (λ yes. yes ≡ true → Narrows (B.trees bank.now) binds.old.pairs
        binds.new.pairs (λ s. fact_under s (Bad bad.now) ≡
        fact_at (B.trees bank.now) (fact_of conclusion.now))) }
    ensures no { IfOk result (λ yes. yes ≡ false → Excludes (B.trees bank.now) binds.old.pairs
        (λ s. fact_under s (Bad bad.now) ≡ fact_at (B.trees bank.now) (fact_of conclusion.now))) }
{
    match conclusion {
        Fact::Bad(ids) => match_trees(bank, bad, &ids.items, binds),
        Fact::Att(..) | Fact::Mess(..) | Fact::Tab(..) | Fact::Ev(..) | Fact::Mev(..) => Ok(false),
    }
}

/// Extends the bindings until the hypothesis is that the event must have run.
pub fn match_event<B: Bank>(
    bank: &B,
    event: &Event,
    hypothesis: &Fact,
    binds: &mut Binds,
) -> Result<bool, AllocError>
    requires known { IsFactIn (B.trees bank.now) (fact_of hypothesis.now) }
    requires bindings { AreBindings (B.trees bank.now) binds.old.pairs }
    ensures bindings { AreBindings (B.trees bank.now) binds.new.pairs }
    ensures extends { Extends binds.old.pairs binds.new.pairs }
    ensures yes { IfOk result (λ yes. yes ≡ true → Narrows (B.trees bank.now) binds.old.pairs
        binds.new.pairs (λ s. fact_under s (event_fact event.now) ≡
        fact_at (B.trees bank.now) (fact_of hypothesis.now))) }
    ensures no { IfOk result (λ yes. yes ≡ false → Excludes (B.trees bank.now) binds.old.pairs
        (λ s. fact_under s (event_fact event.now) ≡
        fact_at (B.trees bank.now) (fact_of hypothesis.now))) }
{
    match hypothesis {
        Fact::Mev(number, ids) => {
            if *number != event.event {
                return Ok(false);
            }
            match_trees(bank, &event.arguments, &ids.items, binds)
        }
        Fact::Att(..) | Fact::Mess(..) | Fact::Tab(..) | Fact::Ev(..) | Fact::Bad(_) => Ok(false),
    }
}

/// Extends the bindings until the hypothesis at the position, from 1, is that the event must have
/// run.
pub fn match_at<B: Bank>(
    bank: &B,
    event: &Event,
    hyps: &[Fact],
    position: u32,
    binds: &mut Binds,
) -> Result<bool, AllocError>
    requires known { AreFactsIn (B.trees bank.now) (map fact_of hyps.now) }
    requires bindings { AreBindings (B.trees bank.now) binds.old.pairs }
    ensures bindings { AreBindings (B.trees bank.now) binds.new.pairs }
    ensures extends { Extends binds.old.pairs binds.new.pairs }
    ensures yes { IfOk result (λ yes. yes ≡ true → Narrows (B.trees bank.now) binds.old.pairs
        binds.new.pairs (λ s. Some (fact_under s (event_fact event.now)) ≡
        hypothesis_at (map (fact_at (B.trees bank.now)) (map fact_of hyps.now)) position)) }
    ensures no { IfOk result (λ yes. yes ≡ false → Excludes (B.trees bank.now) binds.old.pairs
        (λ s. Some (fact_under s (event_fact event.now)) ≡
        hypothesis_at (map (fact_at (B.trees bank.now)) (map fact_of hyps.now)) position)) }
{
    match position.checked_sub(1) {
        None => Ok(false),
        Some(index) => match hyps.get(index as usize) {
            None => Ok(false),
            Some(hypothesis) => match_event(bank, event, hypothesis, binds),
        },
    }
}
