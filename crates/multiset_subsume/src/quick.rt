//! A first look at two clauses, which takes no memory: what shows at once that no row holds.

ghost use Rattle.std.specs.Prelude.{◌≡◌, ◌<◌, ◌≤◌, ℕ, List, [], ◌∷◌, true, false};
ghost use Rattle.std.specs.Prelude.{length, map};
ghost use Rattle.spec_trees.specs.Tree.{bind};
ghost use Rattle.spec_terms.specs.Term.{Subst};
ghost use Rattle.spec_clauses.specs.Fact.{is_variable_known as is_variable_known_fact};
ghost use Rattle.spec_clauses.specs.Subsumption.{firm, RowHolds};
ghost use Rattle.term_tree.specs.Bank.{tree_at, AreKnown};
ghost use Rattle.clause_form.specs.Facts.{fact_of};
ghost use Rattle.clause_form.specs.Seen.{fact_at, clause_at, IsFactIn, AreFactsIn, IsClauseIn};
ghost use Rattle.fact_placing.specs.Boards.{facts_at};
ghost use Rattle.multiset_subsume.specs.Apart.{AreApart, StandsNowhere, CannotAllStand};

use clause_form::{Clause, Fact, is_variable_known};
use term_tree::{Bank, Id, Node};

/// Whether a substitution may make the general term the special one: by their sizes, since no substitution makes a term
/// smaller, and by what is at their roots. A term without variables has to be the special one.
fn roots_match<B: Bank>(bank: &B, general: Id, special: Id) -> bool
    requires general { general.index < length (B.trees bank.now) }
    requires special { special.index < length (B.trees bank.now) }
    ensures { let all = B.trees bank.now in
        result ≡ false → (s : Subst) → bind s (tree_at all general) ≡ tree_at all special → ⊥ }
{
    if bank.is_ground(general) {
        return bank.same(general, special);
    }
    if bank.size(general) > bank.size(special) {
        return false;
    }
    match bank.node(general) {
        Node::Var(_) => true,
        Node::App(f, xs) => match bank.node(special) {
            Node::Var(_) => false,
            Node::App(g, ys) => {
                if !f.is_same(g) {
                    return false;
                }
                xs.len() == ys.len()
            }
        },
    }
}

/// Whether a substitution may make the general terms the special ones, item by item.
fn all_roots_match<B: Bank>(bank: &B, generals: &[Id], specials: &[Id]) -> bool
    requires generals { AreKnown (B.trees bank.now) generals.now }
    requires specials { AreKnown (B.trees bank.now) specials.now }
    ensures { let all = B.trees bank.now in
        result ≡ false → (s : Subst) → map (bind s) (map (tree_at all) generals.now) ≡
        map (tree_at all) specials.now → ⊥ }
{
    if generals.len() != specials.len() {
        return false;
    }
    'each: for (i, general) in generals.iter().enumerate() {
        if !roots_match(bank, *general, specials[i]) {
            return false;
        }
    }
    true
}

/// Whether a substitution may make the general fact the special one: by predicates, events, numbers of terms, and what is
/// at the roots of terms.
fn may_match<B: Bank>(bank: &B, general: &Fact, special: &Fact) -> bool
    requires general { IsFactIn (B.trees bank.now) (fact_of general.now) }
    requires special { IsFactIn (B.trees bank.now) (fact_of special.now) }
    ensures { result ≡ false →
        AreApart (B.trees bank.now) (fact_of general.now) (fact_of special.now) }
{
    if general.head() != special.head() {
        return false;
    }
    let (generals, specials) = (general.terms(), special.terms());
    all_roots_match(bank, generals.as_slice(), specials.as_slice())
}

/// Whether the fact may match one of the hypotheses.
fn some_may_match<B: Bank>(bank: &B, fact: &Fact, hyps: &[Fact]) -> bool
    requires fact { IsFactIn (B.trees bank.now) (fact_of fact.now) }
    requires hyps { AreFactsIn (B.trees bank.now) (map fact_of hyps.now) }
    ensures { result ≡ false →
        StandsNowhere (B.trees bank.now) (fact_of fact.now) (map fact_of hyps.now) }
{
    'each: for hyp in hyps {
        if may_match(bank, fact, hyp) {
            return true;
        }
    }
    false
}

/// Whether the fact is `att` of a variable, or may match one of the hypotheses.
fn may_stand<B: Bank>(bank: &B, fact: &Fact, hyps: &[Fact]) -> bool
    requires fact { IsFactIn (B.trees bank.now) (fact_of fact.now) }
    requires hyps { AreFactsIn (B.trees bank.now) (map fact_of hyps.now) }
    ensures firm { result ≡ false →
        is_variable_known_fact (fact_at (B.trees bank.now) (fact_of fact.now)) ≡ false }
    ensures nowhere { result ≡ false →
        StandsNowhere (B.trees bank.now) (fact_of fact.now) (map fact_of hyps.now) }
{
    if is_variable_known(bank, fact) {
        return true;
    }
    some_may_match(bank, fact, hyps)
}

/// Whether each of the facts but `att` of a variable may match one of the hypotheses.
fn all_may_stand<B: Bank>(bank: &B, facts: &[Fact], hyps: &[Fact]) -> bool
    requires facts { AreFactsIn (B.trees bank.now) (map fact_of facts.now) }
    requires hyps { AreFactsIn (B.trees bank.now) (map fact_of hyps.now) }
    ensures { result ≡ false →
        CannotAllStand (B.trees bank.now) (map fact_of facts.now) (map fact_of hyps.now) }
{
    'each: for fact in facts {
        if !may_stand(bank, fact, hyps) {
            return false;
        }
    }
    true
}

/// One where the fact isn't `att` of a variable.
fn one_if_firm<B: Bank>(bank: &B, fact: &Fact) -> usize
    requires { IsFactIn (B.trees bank.now) (fact_of fact.now) }
    ensures is { result ≡
        length (firm (facts_at (B.trees bank.now) (fact_of fact.now ∷ []))) }
    ensures at_most { result ≤ 1 }
{
    if is_variable_known(bank, fact) { 0 } else { 1 }
}

/// How many of the facts aren't `att` of a variable.
fn count_firm<B: Bank>(bank: &B, facts: &[Fact]) -> usize
    requires { AreFactsIn (B.trees bank.now) (map fact_of facts.now) }
    ensures { result ≡ length (firm (facts_at (B.trees bank.now) (map fact_of facts.now))) }
{
    let mut count = 0usize;
    'each: for fact in facts {
        count += one_if_firm(bank, fact);
    }
    count
}

/// Whether it shows at once that these facts, but `att` of a variable, don't all stand at these hypotheses.
fn too_many<B: Bank>(bank: &B, facts: &[Fact], hyps: &[Fact]) -> bool
    requires facts { AreFactsIn (B.trees bank.now) (map fact_of facts.now) }
    requires hyps { AreFactsIn (B.trees bank.now) (map fact_of hyps.now) }
    ensures { result ≡ true →
        CannotAllStand (B.trees bank.now) (map fact_of facts.now) (map fact_of hyps.now) }
{
    if count_firm(bank, facts) > hyps.len() {
        return true;
    }
    !all_may_stand(bank, facts, hyps)
}

/// Whether it shows at once that no row holds for the two clauses. Takes no memory.
pub(crate) fn shows_no_row<B: Bank>(bank: &B, general: &Clause, special: &Clause) -> bool
    requires general { IsClauseIn (B.trees bank.now) general.now }
    requires special { IsClauseIn (B.trees bank.now) special.now }
    ensures { let all = B.trees bank.now in result ≡ true → (row : List ℕ) →
        RowHolds (clause_at all general.now) (clause_at all special.now) row → ⊥ }
{
    if !may_match(bank, &general.concl, &special.concl) {
        return true;
    }
    too_many(bank, &general.hyps.items, &special.hyps.items)
}
