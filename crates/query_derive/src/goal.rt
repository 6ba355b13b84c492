//! The goal clause of a query: it concludes `bad` where what the query asks about has come about
//! (Blanchet 2016, sections 3.2 and 4).

ghost use Rattle.std.specs.Prelude.{◌≡◌, [], ◌∷◌, ◌<◌, ◌≤◌, length, map, IfOk, OnErr};
ghost use Rattle.spec_calculus.specs.Points.{numbered, nodes};
ghost use Rattle.spec_well_formed.specs.Limits.{IsSmallQuery, IsWithinLimits};
ghost use Rattle.spec_well_formed.specs.Queries.{HasQueryLeaves, HasProperQueries};
ghost use Rattle.spec_clauses.specs.Fact.{Bad};
ghost use Rattle.spec_clauses.specs.Norm.{norms};
ghost use Rattle.spec_translation.specs.Attacker.{variables_from};
ghost use Rattle.spec_translation.specs.Goal.{arguments_at, goal_raw};
ghost use Rattle.spec_translation.specs.Translation.{goal_clauses};
ghost use Rattle.pi_tree.specs.Protocols.{protocol_of};
ghost use Rattle.pi_tree.specs.Queries.{query_of};
ghost use Rattle.pi_tree.specs.Accessors.{IsThere};
ghost use Rattle.pi_tree.specs.declared.accessors.Kind.TheVariants.{Query as OfQueries};
ghost use Rattle.term_tree.specs.Bank.{Grows};
ghost use Rattle.clause_form.specs.Fit.{AreLowWithinLimit};
ghost use Rattle.clause_form.specs.PlainFacts.{plain_fact_of};
ghost use Rattle.clause_form.specs.Seen.{NameClauses};
ghost use Rattle.query_derive.specs.GoalRows.{OfQuery};

use crate::wanted::{bad_arguments, tree_of, trees_of};
use clause_form::{
    Clauses, PlainClause, PlainDiffs, PlainFact, PlainFacts, Tree, Trees, copy_into,
};
use clause_norms::norms_of;
use pi_tree::{Protocol, Query};
use std::alloc::{AllocError, Global};
use term_tree::{Bank, Sym};

/// The clause of one hypothesis that concludes `bad` of the terms.
fn bad_where(alloc: Global, hypothesis: PlainFact, bad: Trees) -> Result<PlainClause, AllocError>
    ensures { IfOk result (λ plain. plain ≡
        record { hypotheses = plain_fact_of hypothesis ∷ []; diffs = []; conclusion = Bad bad }) }
{
    let mut items = Vec::new(alloc);
    items.push(hypothesis)?;
    let diffs = PlainDiffs {
        items: Vec::new(alloc),
    };
    Ok(PlainClause {
        hyps: PlainFacts { items },
        diffs,
        concl: PlainFact::Bad(bad),
    })
}

/// So many variables, from 0.
fn variables(alloc: Global, count: u32) -> Result<Trees, AllocError>
    ensures { IfOk result (λ made. made ≡ variables_from 0 count) }
{
    let mut items = Vec::new(alloc);
    'each: for number in 0..count {
        items.push(Tree::Var(number))?;
    }
    Ok(Trees { items })
}

/// How many arguments the names of a restriction have.
fn arguments_at(protocol: &Protocol, point: u32) -> u32
    requires limits { IsWithinLimits (protocol_of protocol.now) }
    requires there { (0 < point) × (point ≤ length (nodes (protocol_of protocol.now).main)) }
    ensures { result ≡ arguments_at (protocol_of protocol.now) point }
{
    protocol.name_args(point)
}

/// The raw goal clause, over owned trees.
fn raw_goal(alloc: Global, protocol: &Protocol, query: &Query) -> Result<PlainClause, AllocError>
    requires limits { IsWithinLimits (protocol_of protocol.now) }
    requires small { IsSmallQuery (query_of query.now) }
    requires leaves { HasQueryLeaves (protocol_of protocol.now) (query_of query.now) }
    ensures { IfOk result (λ plain. plain ≡
        goal_raw (protocol_of protocol.now) (query_of query.now)) }
{
    let none = Trees {
        items: Vec::new(alloc),
    };
    match query {
        Query::Secret(message, phase) => {
            let message = tree_of(alloc, protocol, message)?;
            bad_where(alloc, PlainFact::Att(*phase, message), none)
        }
        Query::SecretNew(point, phase) => {
            let arguments = variables(alloc, arguments_at(protocol, *point))?;
            let name = Tree::App(Sym::Point(*point), arguments);
            bad_where(alloc, PlainFact::Att(*phase, name), none)
        }
        Query::Corr { left, .. } => {
            let arguments = trees_of(alloc, protocol, &left.args)?;
            let bad = bad_arguments(alloc, left)?;
            bad_where(alloc, PlainFact::Ev(left.event, arguments), bad)
        }
    }
}

/// The norms of a clause's flat parts. On `Err` the bank may have grown.
fn norms_grown<B: Bank>(
    alloc: Global,
    bank: &mut B,
    raw: &PlainClause,
) -> Result<Clauses, AllocError>
    ensures grows { Grows (B.trees bank.old) (B.trees bank.new) }
    ensures names { IfOk result (λ made. NameClauses (B.trees bank.new) made (norms raw.now)) }
    ensures low { IfOk result (λ made. AreLowWithinLimit (B.trees bank.new) made) }
{
    let clause = copy_into(alloc, bank, raw)?;
    let made = norms_of(alloc, bank, &clause);
    drop(clause);
    made
}

/// The norms of a clause's flat parts. On `Err` the bank is as before.
fn norms_into<B: Bank>(
    alloc: Global,
    bank: &mut B,
    raw: &PlainClause,
) -> Result<Clauses, AllocError>
    ensures grows { Grows (B.trees bank.old) (B.trees bank.new) }
    ensures names { IfOk result (λ made. NameClauses (B.trees bank.new) made (norms raw.now)) }
    ensures low { IfOk result (λ made. AreLowWithinLimit (B.trees bank.new) made) }
    ensures err { OnErr result (B.trees bank.new ≡ B.trees bank.old) }
{
    let mark = bank.mark();
    match norms_grown(alloc, bank, raw) {
        Ok(made) => Ok(made),
        Err(error) => {
            bank.back(mark);
            Err(error)
        }
    }
}

/// The raw goal clause of the query of that number, over owned trees: what `goal_clause` gives the norm of.
pub fn raw_goal_clause(
    alloc: Global,
    protocol: &Protocol,
    query: u32,
) -> Result<PlainClause, AllocError>
    requires limits { IsWithinLimits (protocol_of protocol.now) }
    requires queries { HasProperQueries (protocol_of protocol.now) }
    requires there { IsThere (protocol_of protocol.now) OfQueries query }
    ensures { IfOk result (λ raw. OfQuery (protocol_of protocol.now) query (λ q.
        raw ≡ goal_raw (protocol_of protocol.now) q)) }
{
    raw_goal(alloc, protocol, protocol.query(query))
}

/// The goal clause of a query, as it stands last in the translation: one clause, always, with variables of low numbers.
///
/// `Err` is want of memory; the bank is then as before.
pub fn goal_clause<B: Bank>(
    alloc: Global,
    bank: &mut B,
    protocol: &Protocol,
    query: u32,
) -> Result<Clauses, AllocError>
    requires limits { IsWithinLimits (protocol_of protocol.now) }
    requires queries { HasProperQueries (protocol_of protocol.now) }
    requires there { IsThere (protocol_of protocol.now) OfQueries query }
    ensures grows { Grows (B.trees bank.old) (B.trees bank.new) }
    ensures names { IfOk result (λ made. OfQuery (protocol_of protocol.now) query (λ q.
        NameClauses (B.trees bank.new) made (goal_clauses (protocol_of protocol.now) q))) }
    ensures low { IfOk result (λ made. AreLowWithinLimit (B.trees bank.new) made) }
    ensures one { IfOk result (λ made. length made ≡ 1) }
    ensures err { OnErr result (B.trees bank.new ≡ B.trees bank.old) }
{
    let raw = raw_goal(alloc, protocol, protocol.query(query))?;
    let made = norms_into(alloc, bank, &raw);
    drop(raw);
    made
}
