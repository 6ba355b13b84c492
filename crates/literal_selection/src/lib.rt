//! Selection of a hypothesis: the first of the largest that can be selected (Blanchet 2016, section 3.3.1).
#![tactic(auto)]

ghost use Rattle.std.specs.Prelude.{◌≡◌, ◌↔◌, ◌+◌, ◌^◌, ◌<◌, ◌&&◌, List, ◌∷◌, map, true, IsNone};
ghost use Rattle.spec_terms.specs.Term.{Term};
ghost use Rattle.spec_clauses.specs.Fact.{Fact as FactOf, total, fact_size, clause_size};
ghost use Rattle.spec_clauses.specs.Selection.{select, is_solved as is_solved_list};
ghost use Rattle.spec_translation.specs.Satisfied.{is_bad as is_bad_fact};
ghost use Rattle.clause_form.specs.Facts.{fact_of};
ghost use Rattle.clause_form.specs.Seen.{fact_at, clause_at, IsFactIn, AreFactsIn, IsClauseIn};
ghost use Rattle.literal_selection.specs.Best.{selected_place, remembered};

use clause_form::{Clause, Fact, are_solved, is_selectable, size_of_fact};
use term_tree::Bank;

/// Whether none of the clause's hypotheses can be selected. Takes no memory.
pub fn is_solved<B: Bank>(bank: &B, clause: &Clause) -> bool
    requires { IsClauseIn (B.trees bank.now) clause.now }
    ensures { result ≡ is_solved_list (clause_at (B.trees bank.now) clause.now).hypotheses }
{
    are_solved(bank, &clause.hyps.items)
}

/// Whether the fact is `bad`. Takes no memory.
pub fn is_bad<B: Bank>(bank: &B, fact: &Fact) -> bool
    ensures { result ≡ is_bad_fact (fact_at (B.trees bank.now) (fact_of fact.now)) }
{
    match fact {
        Fact::Bad(_) => true,
        Fact::Att(..) | Fact::Mess(..) | Fact::Tab(..) | Fact::Ev(..) | Fact::Mev(..) => false,
    }
}

/// Whether the clause is solved, and concludes `bad`: then a goal row has to show that it satisfies the query. Takes no
/// memory.
pub fn is_solved_goal<B: Bank>(bank: &B, clause: &Clause) -> bool
    requires { IsClauseIn (B.trees bank.now) clause.now }
    ensures { let seen = clause_at (B.trees bank.now) clause.now in
        result ≡ (is_solved_list seen.hypotheses && is_bad_fact seen.conclusion) }
{
    is_solved(bank, clause) && is_bad(bank, &clause.concl)
}

/// A fact that can be selected: its place and its size.
#[derive(Clone, Copy)]
struct Best {
    place: usize,
    size: u64,
}

/// The better of a fact and what was found of the facts behind it.
fn better<B: Bank>(bank: &B, fact: &Fact, place: usize, best: Option<Best>) -> Option<Best>
    requires known { IsFactIn (B.trees bank.now) (fact_of fact.now) }
    requires small { fact_size (fact_at (B.trees bank.now) (fact_of fact.now)) < 2 ^ 63 }
    ensures { (hs : List (FactOf Term)) → best ≡ remembered (place + 1) (select hs) →
        result ≡ remembered place (select (fact_at (B.trees bank.now) (fact_of fact.now) ∷ hs)) }
{
    if !is_selectable(bank, fact) {
        return best;
    }
    let size = size_of_fact(bank, fact);
    match best {
        Some(found) => {
            if size < found.size {
                return best;
            }
            Some(Best { place, size })
        }
        None => Some(Best { place, size }),
    }
}

/// The first of the largest facts that can be selected, looked for from the last fact on.
fn best_of<B: Bank>(bank: &B, facts: &[Fact]) -> Option<Best>
    requires known { AreFactsIn (B.trees bank.now) (map fact_of facts.now) }
    requires small { total fact_size (map (fact_at (B.trees bank.now)) (map fact_of facts.now)) < 2
        ^ 63 }
    ensures { result ≡ remembered 0 (select (map (fact_at (B.trees bank.now))
        (map fact_of facts.now))) }
{
    let mut best = None;
    let mut i = facts.len();
    'each: while i > 0 {
        i -= 1;
        best = better(bank, &facts[i], i, best);
    }
    best
}

/// The place of the selected hypothesis, from 0: the first of the largest that can be selected; `None`
/// exactly where the clause is solved. The condition holds within the limit of size. Takes no memory.
pub fn selected<B: Bank>(bank: &B, clause: &Clause) -> Option<usize>
    requires known { IsClauseIn (B.trees bank.now) clause.now }
    requires small { clause_size (clause_at (B.trees bank.now) clause.now) < 2 ^ 63 }
    ensures place { result ≡ selected_place (clause_at (B.trees bank.now) clause.now).hypotheses }
    ensures none { IsNone result ↔ (is_solved_list
        (clause_at (B.trees bank.now) clause.now).hypotheses ≡ true) }
{
    match best_of(bank, &clause.hyps.items) {
        Some(best) => Some(best.place),
        None => None,
    }
}
