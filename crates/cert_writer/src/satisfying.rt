//! Goal rows: the first that show that live solved clauses which conclude `bad` satisfy the query.

ghost use Rattle.std.specs.Prelude.{◌≡◌, ◌<◌, ◌^◌, ◌∷◌, ℕ, length, IfOk, MatchBool, MatchOption};
ghost use Rattle.spec_well_formed.specs.Limits.{IsWithinLimits};
ghost use Rattle.spec_translation.specs.Satisfied.{IsSatisfied};
ghost use Rattle.spec_verdicts.specs.FirstRows.{IsFirstGoal};
ghost use Rattle.pi_tree.specs.Protocols.{protocol_of};
ghost use Rattle.pi_tree.specs.Accessors.{IsThere};
ghost use Rattle.pi_tree.specs.declared.accessors.Kind.TheVariants.{Query as OfQueries};
ghost use Rattle.clause_form.specs.Seen.{clause_at, IsClauseIn};
ghost use Rattle.query_derive.specs.GoalRows.{OfQuery};
ghost use Rattle.clause_form.specs.Fit.{IsFit, AreFit};
ghost use Rattle.log_entries.specs.Beating.{clauses_of};
ghost use Rattle.cert_writer.specs.Goals.{is_due_at, AddsGoal, IsUnmetEntry, AreGoalsOf};

use crate::writer::Writer;
use cert_form::Rows;
use clause_form::Clause;
use clause_saturate::{Entry, Log};
use literal_selection::is_solved_goal;
use query_derive::{QueryRow, satisfies};
use std::alloc::AllocError;
use term_tree::Bank;

/// The goal rows of a log, or the number of the first entry that has none.
#[derive(Drop)]
pub(crate) enum Goals {
    Rows(Rows),
    Unsatisfied(usize),
}

/// Whether the entry is live and solved, and concludes `bad`.
fn is_due<B: Bank>(bank: &B, entry: &Entry) -> bool
    requires { IsClauseIn (B.trees bank.now) entry.now.clause }
    ensures { result ≡ is_due_at (B.trees bank.now) entry.now }
{
    match entry.by {
        Some(_) => false,
        None => is_solved_goal(bank, &entry.clause),
    }
}

/// The number of the alternative, and then the positions.
fn numbers(row: QueryRow) -> Result<Vec<u32>, AllocError>
    ensures { IfOk result (λ all. all.items ≡ row.alternative ∷ row.positions) }
{
    let mut items = row.positions.items;
    items.insert(0, row.alternative)?;
    Ok(items)
}

/// The first goal row of a clause, if it satisfies the query.
fn goal_row<B: Bank>(
    bank: &B,
    writer: &Writer<'_>,
    clause: &Clause,
) -> Result<Option<Vec<u32>>, AllocError>
    requires fit { IsFit (B.trees bank.now) clause.now }
    requires limits { IsWithinLimits (protocol_of writer.now.protocol.now) }
    requires there { IsThere (protocol_of writer.now.protocol.now) OfQueries writer.now.query }
    ensures { let P = protocol_of writer.now.protocol.now in
        IfOk result (λ found. OfQuery P writer.now.query (λ q. MatchOption found
        (IsSatisfied P q (clause_at (B.trees bank.now) clause.now) → ⊥)
        (λ row. IsFirstGoal P q (clause_at (B.trees bank.now) clause.now) row.items))) }
{
    match satisfies(writer.alloc, bank, clause, writer.protocol, writer.query)? {
        None => Ok(None),
        Some(row) => Ok(Some(numbers(row)?)),
    }
}

/// Adds the goal row of an entry, if it has to have one, and tells whether it has what it has to.
fn add_goal<B: Bank>(
    bank: &B,
    writer: &Writer<'_>,
    entry: &Entry,
    rows: &mut Rows,
) -> Result<bool, AllocError>
    requires fit { IsFit (B.trees bank.now) entry.now.clause }
    requires limits { IsWithinLimits (protocol_of writer.now.protocol.now) }
    requires there { IsThere (protocol_of writer.now.protocol.now) OfQueries writer.now.query }
    ensures { let P = protocol_of writer.now.protocol.now in
        IfOk result (λ met. OfQuery P writer.now.query (λ q. MatchBool met
        (AddsGoal P q (B.trees bank.now) entry.now rows.old rows.new)
        (IsUnmetEntry P q (B.trees bank.now) entry.now))) }
{
    if !is_due(bank, entry) {
        return Ok(true);
    }
    match goal_row(bank, writer, &entry.clause)? {
        None => Ok(false),
        Some(row) => {
            rows.items.push(row)?;
            Ok(true)
        }
    }
}

/// The goal rows of a log's entries in order, or the number of the first that doesn't satisfy the query though it has to.
pub(crate) fn goal_rows<B: Bank>(
    bank: &B,
    writer: &Writer<'_>,
    log: &Log,
) -> Result<Goals, AllocError>
    requires fit { AreFit (B.trees bank.now) (clauses_of log.now) }
    requires limits { IsWithinLimits (protocol_of writer.now.protocol.now) }
    requires there { IsThere (protocol_of writer.now.protocol.now) OfQueries writer.now.query }
    ensures { let P = protocol_of writer.now.protocol.now in
        IfOk result (λ goals. OfQuery P writer.now.query (λ q.
        AreGoalsOf P q (B.trees bank.now) log.now goals)) }
{
    let mut rows = Rows {
        items: Vec::new(writer.alloc),
    };
    'each: for (k, entry) in log.items.iter().enumerate() {
        if !add_goal(bank, writer, entry, &mut rows)? {
            return Ok(Goals::Unsatisfied(k + 1));
        }
    }
    Ok(Goals::Rows(rows))
}
