//! Cover rows: each says which of the certificate's clauses subsumes a clause, and by which positions.

ghost use Rattle.std.specs.Prelude.{◌≡◌, ◌↔◌, ◌<◌, ◌+◌, ◌^◌, ◌∷◌, IsTrue, drop, IfOk};
ghost use Rattle.spec_certificates.specs.Certificate.{CoverRowHolds, numbered_from};
ghost use Rattle.spec_clauses.specs.Limits.{IsWithinLimit};
ghost use Rattle.clause_form.specs.Seen.{clause_at, IsClauseIn};
ghost use Rattle.cert_stages.specs.Stages.{NextShows};
ghost use Rattle.clause_form.specs.Fit.{AreFit, clauses_at};
ghost use Rattle.cert_stages.specs.Answers.{IsShownSo};

use crate::checker::Checker;
use crate::shown::Shown;
use clause_form::Clause;
use multiset_subsume::{Row, row_holds};
use std::alloc::AllocError;
use term_tree::Bank;

/// Whether the certificate's clause of that number subsumes the clause by the positions.
fn covers_at<B: Bank>(
    bank: &B,
    checker: &Checker<'_>,
    number: u32,
    positions: &[u32],
    clause: &Clause,
) -> Result<bool, AllocError>
    requires fit { AreFit (B.trees bank.now) checker.now.clauses.now }
    requires known { IsClauseIn (B.trees bank.now) clause.now }
    requires small { IsWithinLimit (clause_at (B.trees bank.now) clause.now) }
    ensures { let all = B.trees bank.now in IfOk result (λ yes. IsTrue yes ↔
        CoverRowHolds (clauses_at all checker.now.clauses.now) (number ∷ positions.now)
        (clause_at all clause.now)) }
{
    match number.checked_sub(1) {
        None => Ok(false),
        Some(index) => match checker.clauses.get(index as usize) {
            None => Ok(false),
            Some(general) => {
                let items = positions.to_vec(checker.alloc)?;
                row_holds(checker.alloc, bank, general, clause, &Row { items })
            }
        },
    }
}

/// Whether the row covers the clause.
fn covers<B: Bank>(
    bank: &B,
    checker: &Checker<'_>,
    row: &[u32],
    clause: &Clause,
) -> Result<bool, AllocError>
    requires fit { AreFit (B.trees bank.now) checker.now.clauses.now }
    requires known { IsClauseIn (B.trees bank.now) clause.now }
    requires small { IsWithinLimit (clause_at (B.trees bank.now) clause.now) }
    ensures { let all = B.trees bank.now in IfOk result (λ yes. IsTrue yes ↔
        CoverRowHolds (clauses_at all checker.now.clauses.now) row.now
        (clause_at all clause.now)) }
{
    match row.split_first() {
        None => Ok(false),
        Some((number, positions)) => covers_at(bank, checker, *number, positions, clause),
    }
}

/// Whether there is a row at the place, and it covers the clause.
fn next_covers<B: Bank>(
    bank: &B,
    checker: &Checker<'_>,
    next: usize,
    clause: &Clause,
) -> Result<bool, AllocError>
    requires fit { AreFit (B.trees bank.now) checker.now.clauses.now }
    requires known { IsClauseIn (B.trees bank.now) clause.now }
    requires small { IsWithinLimit (clause_at (B.trees bank.now) clause.now) }
    ensures covers { let all = B.trees bank.now in IfOk result (λ yes. IsTrue yes ↔
        NextShows (CoverRowHolds (clauses_at all checker.now.clauses.now))
        (drop next checker.now.rows.now) (clause_at all clause.now)) }
    ensures within { IfOk result (λ yes.
        IsTrue yes → next + 1 < 2 ^ 64) }
{
    let rows = checker.rows;
    match rows.items.get(next) {
        None => Ok(false),
        Some(row) => covers(bank, checker, row, clause),
    }
}

/// Whether each clause is covered, by the rows from the place on in order.
pub fn are_covered<B: Bank>(
    bank: &B,
    checker: &Checker<'_>,
    clauses: &[Clause],
    from: usize,
) -> Result<Shown, AllocError>
    requires fit { AreFit (B.trees bank.now) checker.now.clauses.now }
    requires clauses { AreFit (B.trees bank.now) clauses.now }
    ensures { let all = B.trees bank.now in IfOk result (λ shown.
        IsShownSo (CoverRowHolds (clauses_at all checker.now.clauses.now))
        (numbered_from 1 (clauses_at all clauses.now)) checker.now.rows.now from shown) }
{
    let mut next = from;
    'each: for (k, clause) in clauses.iter().enumerate() {
        if !next_covers(bank, checker, next, clause)? {
            return Ok(Shown::Except(k as u64 + 1));
        }
        next += 1;
    }
    Ok(Shown::All(next))
}
