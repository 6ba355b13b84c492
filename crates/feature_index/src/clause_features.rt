//! The features of a clause, counted.

ghost use Rattle.std.specs.Prelude.{◌≡◌, ◌+◌, map};
ghost use Rattle.spec_clauses.specs.Fact.{total};
ghost use Rattle.spec_clauses.specs.Limits.{IsWithinLimit};
ghost use Rattle.spec_clauses.specs.Subsumption.{firm};
ghost use Rattle.spec_features.specs.Features.{predicate_of, predicate_number, fact_symbols, firm_weight, features_of};
ghost use Rattle.clause_form.specs.Facts.{fact_of};
ghost use Rattle.clause_form.specs.Seen.{fact_at, clause_at, IsFactIn, AreFactsIn, IsClauseIn};
ghost use Rattle.feature_index.specs.Lanes.{told, weight, sum_of};

use crate::counts::symbols_of_fact;
use crate::lanes::Features;
use clause_form::{Clause, Fact, is_variable_known};
use term_tree::Bank;

/// What is counted of hypotheses.
#[derive(Clone, Copy)]
enum Lane {
    Att,
    Mess,
    Ev,
    Mev,
    Symbols,
}

/// So many, and what a hypothesis adds to a lane: nothing, if it is `att` of a variable.
fn weigh<B: Bank>(bank: &B, hyp: &Fact, lane: Lane, found: u64) -> u64
    requires { IsFactIn (B.trees bank.now) (fact_of hyp.now) }
    ensures { result ≡ told
        (found + firm_weight (weight lane) (fact_at (B.trees bank.now) (fact_of hyp.now))) }
{
    if is_variable_known(bank, hyp) {
        return found;
    }
    let is_one_more = match lane {
        Lane::Symbols => return symbols_of_fact(bank, hyp, found),
        Lane::Att => matches!(hyp, Fact::Att(..)),
        Lane::Mess => matches!(hyp, Fact::Mess(..) | Fact::Tab(..)),
        Lane::Ev => matches!(hyp, Fact::Ev(..)),
        Lane::Mev => matches!(hyp, Fact::Mev(..)),
    };
    if is_one_more {
        return found.saturating_add(1);
    }
    found
}

/// What hypotheses add to a lane.
fn weigh_all<B: Bank>(bank: &B, hyps: &[Fact], lane: Lane) -> u64
    requires { AreFactsIn (B.trees bank.now) (map fact_of hyps.now) }
    ensures { result ≡ told (total (weight lane)
        (firm (map (fact_at (B.trees bank.now)) (map fact_of hyps.now)))) }
{
    let mut found = 0u64;
    for hyp in hyps {
        found = weigh(bank, hyp, lane, found);
    }
    found
}

/// The lane of a clause.
fn lane_of<B: Bank>(bank: &B, clause: &Clause, lane: Lane) -> u16
    requires known { IsClauseIn (B.trees bank.now) clause.now }
    requires small { IsWithinLimit (clause_at (B.trees bank.now) clause.now) }
    ensures { result ≡ sum_of lane (firm (clause_at (B.trees bank.now) clause.now).hypotheses) }
{
    weigh_all(bank, &clause.hyps.items, lane) as u16
}

/// The symbols of a clause's conclusion.
fn concluded<B: Bank>(bank: &B, clause: &Clause) -> u16
    requires known { IsClauseIn (B.trees bank.now) clause.now }
    requires small { IsWithinLimit (clause_at (B.trees bank.now) clause.now) }
    ensures { result ≡ fact_symbols (clause_at (B.trees bank.now) clause.now).conclusion }
{
    symbols_of_fact(bank, &clause.concl, 0) as u16
}

/// The number of a fact's predicate.
fn number_of(fact: &Fact) -> u16
    ensures { result ≡ predicate_number (predicate_of (fact_of fact.now)) }
{
    match fact {
        Fact::Att(..) => 0,
        Fact::Mess(..) => 1,
        Fact::Ev(..) | Fact::Mev(..) => 2,
        Fact::Bad(_) => 3,
        Fact::Tab(..) => 4,
    }
}

/// The features of a clause within the limit of size. Takes no memory.
pub fn features<B: Bank>(bank: &B, clause: &Clause) -> Features
    requires known { IsClauseIn (B.trees bank.now) clause.now }
    requires small { IsWithinLimit (clause_at (B.trees bank.now) clause.now) }
    ensures { result.lanes ≡ features_of (clause_at (B.trees bank.now) clause.now) }
{
    let number = number_of(&clause.concl);
    Features {
        lanes: [
            lane_of(bank, clause, Lane::Att),
            lane_of(bank, clause, Lane::Mess),
            lane_of(bank, clause, Lane::Ev),
            lane_of(bank, clause, Lane::Mev),
            lane_of(bank, clause, Lane::Symbols),
            concluded(bank, clause),
            number,
            4 - number,
        ],
    }
}
