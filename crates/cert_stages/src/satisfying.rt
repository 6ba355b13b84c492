//! Goal rows: each says which alternative a clause that concludes `bad` satisfies, and by which positions.

ghost use Rattle.std.specs.Prelude.{◌≡◌, ◌↔◌, ◌<◌, ◌+◌, ◌^◌, ◌∷◌, ◌&&◌, IsTrue, nat_eq, drop, length, IfOk};
ghost use Rattle.spec_well_formed.specs.Limits.{IsWithinLimits};
ghost use Rattle.spec_translation.specs.Satisfied.{is_bad as is_bad_fact};
ghost use Rattle.spec_certificates.specs.Certificate.{GoalHolds};
ghost use Rattle.spec_certificates.specs.Ruling.{resting_bad};
ghost use Rattle.pi_tree.specs.Protocols.{protocol_of};
ghost use Rattle.pi_tree.specs.Accessors.{IsThere};
ghost use Rattle.pi_tree.specs.declared.accessors.Kind.TheVariants.{Query as OfQueries};
ghost use Rattle.clause_form.specs.Seen.{clause_at, IsClauseIn};
ghost use Rattle.query_derive.specs.GoalRows.{OfQuery};
ghost use Rattle.cert_stages.specs.Stages.{NextShows};
ghost use Rattle.clause_form.specs.Fit.{AreFit};
ghost use Rattle.cert_stages.specs.Answers.{numbered_at, rests_by, IsShownSo};

use crate::checker::Checker;
use crate::choosing::number_at;
use crate::shown::Shown;
use clause_form::Clause;
use literal_selection::is_bad;
use query_derive::{Positions, QueryRow, query_row_holds};
use std::alloc::AllocError;
use term_tree::Bank;

/// Whether the clause is satisfied by the alternative of that number at the positions.
fn satisfies_at<B: Bank>(
    bank: &B,
    checker: &Checker<'_>,
    alternative: u32,
    positions: &[u32],
    clause: &Clause,
) -> Result<bool, AllocError>
    requires known { IsClauseIn (B.trees bank.now) clause.now }
    requires limits { IsWithinLimits (protocol_of checker.now.protocol.now) }
    requires there { IsThere (protocol_of checker.now.protocol.now) OfQueries checker.now.query }
    ensures { let P = protocol_of checker.now.protocol.now in
        IfOk result (λ yes. OfQuery P checker.now.query (λ q. IsTrue yes ↔
        GoalHolds P q (alternative ∷ positions.now) (clause_at (B.trees bank.now) clause.now))) }
{
    let items = positions.to_vec(checker.alloc)?;
    let row = QueryRow {
        alternative,
        positions: Positions { items },
    };
    query_row_holds(
        checker.alloc,
        bank,
        clause,
        checker.protocol,
        checker.query,
        &row,
    )
}

/// Whether the clause is satisfied by the row.
fn is_satisfied<B: Bank>(
    bank: &B,
    checker: &Checker<'_>,
    row: &[u32],
    clause: &Clause,
) -> Result<bool, AllocError>
    requires known { IsClauseIn (B.trees bank.now) clause.now }
    requires limits { IsWithinLimits (protocol_of checker.now.protocol.now) }
    requires there { IsThere (protocol_of checker.now.protocol.now) OfQueries checker.now.query }
    ensures { let P = protocol_of checker.now.protocol.now in
        IfOk result (λ yes. OfQuery P checker.now.query (λ q. IsTrue yes ↔
        GoalHolds P q row.now (clause_at (B.trees bank.now) clause.now))) }
{
    match row.split_first() {
        None => Ok(false),
        Some((alternative, positions)) => {
            satisfies_at(bank, checker, *alternative, positions, clause)
        }
    }
}

/// Whether there is a goal row at the place, and it satisfies the clause.
fn next_satisfies<B: Bank>(
    bank: &B,
    checker: &Checker<'_>,
    next: usize,
    clause: &Clause,
) -> Result<bool, AllocError>
    requires known { IsClauseIn (B.trees bank.now) clause.now }
    requires limits { IsWithinLimits (protocol_of checker.now.protocol.now) }
    requires there { IsThere (protocol_of checker.now.protocol.now) OfQueries checker.now.query }
    ensures satisfies { let P = protocol_of checker.now.protocol.now in
        IfOk result (λ yes. OfQuery P checker.now.query (λ q. IsTrue yes ↔
        NextShows (GoalHolds P q) (drop next checker.now.goals.now)
        (clause_at (B.trees bank.now) clause.now))) }
    ensures within { IfOk result (λ yes.
        IsTrue yes → next + 1 < 2 ^ 64) }
{
    let goals = checker.goals;
    match goals.items.get(next) {
        None => Ok(false),
        Some(row) => is_satisfied(bank, checker, row, clause),
    }
}

/// Whether a clause with that number beside it rests, and concludes `bad`: then a goal row has to show that it satisfies the query.
fn is_due<B: Bank>(bank: &B, clause: &Clause, number: usize) -> bool
    ensures { result ≡ (nat_eq number 0 &&
        is_bad_fact (clause_at (B.trees bank.now) clause.now).conclusion) }
{
    number == 0 && is_bad(bank, &clause.concl)
}

/// Whether each clause that rests and concludes `bad` is satisfied, by the goal rows in order.
pub fn are_satisfied<B: Bank>(bank: &B, checker: &Checker<'_>) -> Result<Shown, AllocError>
    requires fit { AreFit (B.trees bank.now) checker.now.clauses.now }
    requires as_many { length checker.now.numbers.now ≡ length checker.now.clauses.now }
    requires limits { IsWithinLimits (protocol_of checker.now.protocol.now) }
    requires there { IsThere (protocol_of checker.now.protocol.now) OfQueries checker.now.query }
    ensures { let P = protocol_of checker.now.protocol.now in
        IfOk result (λ shown. OfQuery P checker.now.query (λ q. IsShownSo (GoalHolds P q)
        (resting_bad (rests_by checker.now.numbers.now)
        (numbered_at (B.trees bank.now) checker.now.clauses.now))
        checker.now.goals.now 0 shown)) }
{
    let mut next = 0usize;
    'each: for (k, clause) in checker.clauses.iter().enumerate() {
        let number = number_at(checker, k);
        if is_due(bank, clause, number) {
            if !next_satisfies(bank, checker, next, clause)? {
                return Ok(Shown::Except(k as u64 + 1));
            }
            next += 1;
        }
    }
    Ok(Shown::All(next))
}
