//! Which clauses satisfy a correspondence, and by which goal row.

ghost use Rattle.std.specs.Prelude.{◌≡◌, ◌^◌, ◌<◌, ◌↔◌, ℕ, List, IsTrue, None, length, map, IfOk, IfSome};
ghost use Rattle.spec_well_formed.specs.Limits.{IsWithinLimits};
ghost use Rattle.spec_clauses.specs.Limits.{IsWithinLimit};
ghost use Rattle.spec_translation.specs.Satisfied.{IsSatisfied};
ghost use Rattle.spec_certificates.specs.Certificate.{GoalHolds};
ghost use Rattle.pi_tree.specs.Protocols.{protocol_of};
ghost use Rattle.pi_tree.specs.Accessors.{IsThere};
ghost use Rattle.pi_tree.specs.declared.accessors.Kind.TheVariants.{Query};
ghost use Rattle.clause_form.specs.Seen.{clause_at, IsClauseIn};
ghost use Rattle.query_derive.specs.Sought.{IsRowFor, IsFirstRowFor, HoldsAmong, IsFirstAmong};
ghost use Rattle.query_derive.specs.Wanted.{sought_of};
ghost use Rattle.query_derive.specs.GoalRows.{IsFirstGoalRow, OfQuery, row_of};

use crate::matching::match_bad;
use crate::placing::{place, stand_at};
use crate::rows::{Positions, QueryRow};
use crate::wanted::{Wanted, all_wanted, wanted_at};
use clause_form::Clause;
use pi_tree::Protocol;
use std::alloc::{AllocError, Global};
use term_tree::Bank;
use unify_match::Binds;

/// The first positions at which the events of an alternative stand.
fn first_positions<B: Bank>(
    alloc: Global,
    bank: &B,
    clause: &Clause,
    wanted: &Wanted,
) -> Result<Option<Positions>, AllocError>
    requires known { IsClauseIn (B.trees bank.now) clause.now }
    requires few { length clause.now.hypotheses < 2 ^ 32 }
    ensures some { IfOk result (λ found. IfSome found (λ row.
        IsFirstRowFor (sought_of wanted.now) (clause_at (B.trees bank.now) clause.now) row)) }
    ensures none { IfOk result (λ found. found ≡ None → (row : List ℕ) →
        IsRowFor (sought_of wanted.now) (clause_at (B.trees bank.now) clause.now) row → ⊥) }
{
    let mut binds = Binds::new(alloc)?;
    if !match_bad(bank, &wanted.bad, &clause.concl, &mut binds)? {
        return Ok(None);
    }
    place(alloc, bank, &clause.hyps.items, &wanted.events, &mut binds)
}

/// Whether the events of an alternative stand at the positions.
fn row_stands<B: Bank>(
    alloc: Global,
    bank: &B,
    clause: &Clause,
    wanted: &Wanted,
    positions: &Positions,
) -> Result<bool, AllocError>
    requires { IsClauseIn (B.trees bank.now) clause.now }
    ensures { IfOk result (λ yes. IsTrue yes ↔
        IsRowFor (sought_of wanted.now) (clause_at (B.trees bank.now) clause.now) positions.now) }
{
    let mut binds = Binds::new(alloc)?;
    if !match_bad(bank, &wanted.bad, &clause.concl, &mut binds)? {
        return Ok(false);
    }
    stand_at(
        bank,
        &clause.hyps.items,
        &wanted.events,
        &positions.items,
        &mut binds,
    )
}

/// The first alternative whose events stand among the hypotheses, and their first positions.
fn first_row<B: Bank>(
    alloc: Global,
    bank: &B,
    clause: &Clause,
    all: &[Wanted],
) -> Result<Option<QueryRow>, AllocError>
    requires known { IsClauseIn (B.trees bank.now) clause.now }
    requires few { length clause.now.hypotheses < 2 ^ 32 }
    requires alternatives { length all.now < 2 ^ 32 }
    ensures some { IfOk result (λ found. IfSome found (λ row.
        IsFirstAmong (map sought_of all.now) (clause_at (B.trees bank.now) clause.now)
        (row_of row))) }
    ensures none { IfOk result (λ found. found ≡ None → (row : List ℕ) →
        HoldsAmong (map sought_of all.now) (clause_at (B.trees bank.now) clause.now) row → ⊥) }
{
    'each: for (i, wanted) in all.iter().enumerate() {
        match first_positions(alloc, bank, clause, wanted)? {
            Some(positions) => {
                return Ok(Some(QueryRow {
                    alternative: (i + 1) as u32,
                    positions,
                }));
            }
            None => {}
        }
    }
    Ok(None)
}

/// The first goal row of a clause, in dictionary order: the first alternative whose events are all
/// among the clause's `mev` hypotheses, the left side's variables being the arguments of `bad`, and
/// their first positions. `None` exactly where the clause doesn't satisfy the query; no clause
/// satisfies a secrecy query.
///
/// The time can grow with the number of hypotheses to the power of the number of events of an
/// alternative, where many hypotheses are of one event.
pub fn satisfies<B: Bank>(
    alloc: Global,
    bank: &B,
    clause: &Clause,
    protocol: &Protocol,
    query: u32,
) -> Result<Option<QueryRow>, AllocError>
    requires known { IsClauseIn (B.trees bank.now) clause.now }
    requires small { IsWithinLimit (clause_at (B.trees bank.now) clause.now) }
    requires limits { IsWithinLimits (protocol_of protocol.now) }
    requires there { IsThere (protocol_of protocol.now) Query query }
    ensures first { IfOk result (λ found. IfSome found (λ row.
        OfQuery (protocol_of protocol.now) query (λ q.
        IsFirstGoalRow (protocol_of protocol.now) q
        (clause_at (B.trees bank.now) clause.now) (row_of row)))) }
    ensures satisfied { IfOk result (λ found. IfSome found (λ row.
        OfQuery (protocol_of protocol.now) query (λ q.
        IsSatisfied (protocol_of protocol.now) q (clause_at (B.trees bank.now) clause.now)))) }
    ensures unsatisfied { IfOk result (λ found. found ≡ None →
        OfQuery (protocol_of protocol.now) query (λ q.
        IsSatisfied (protocol_of protocol.now) q
        (clause_at (B.trees bank.now) clause.now) → ⊥)) }
{
    let all = all_wanted(alloc, protocol, protocol.query(query))?;
    first_row(alloc, bank, clause, &all)
}

/// Whether a goal row holds of a clause: the alternative of its number is there, and its events are
/// the hypotheses at the positions, one each, the left side's variables being the arguments of `bad`.
/// Nothing is searched for.
pub fn query_row_holds<B: Bank>(
    alloc: Global,
    bank: &B,
    clause: &Clause,
    protocol: &Protocol,
    query: u32,
    row: &QueryRow,
) -> Result<bool, AllocError>
    requires known { IsClauseIn (B.trees bank.now) clause.now }
    requires limits { IsWithinLimits (protocol_of protocol.now) }
    requires there { IsThere (protocol_of protocol.now) Query query }
    ensures { IfOk result (λ yes. OfQuery (protocol_of protocol.now) query (λ q.
        IsTrue yes ↔ GoalHolds (protocol_of protocol.now) q (row_of row.now)
        (clause_at (B.trees bank.now) clause.now))) }
{
    match wanted_at(alloc, protocol, protocol.query(query), row.alternative)? {
        None => Ok(false),
        Some(wanted) => row_stands(alloc, bank, clause, &wanted, &row.positions),
    }
}
