//! The questions whether something can happen at all, and what they are about.

ghost use Rattle.std.specs.Prelude.{◌≡◌, ◌+◌, ◌<◌, ◌≤◌, length, IfOk, OnOk};
ghost use Rattle.spec_calculus.specs.Bounds.{most_queries};
ghost use Rattle.spec_well_formed.specs.Limits.{IsWithinLimits};
ghost use Rattle.spec_well_formed.specs.Rules.{HasProperRules};
ghost use Rattle.spec_well_formed.specs.Queries.{HasProperQueries};
ghost use Rattle.spec_well_formed.specs.WellFormed.{IsWellScoped};
ghost use Rattle.pi_tree.specs.Events.{event_of};
ghost use Rattle.pi_tree.specs.Queries.{query_of};
ghost use Rattle.pi_tree.specs.Protocols.{protocol_of};
ghost use Rattle.protocol_text.specs.Questions.{variables_from, any_event, never as never_query, asking as asking_of, IsSubject};
ghost use Rattle.protocol_text.specs.Asking.{has_alternatives, AreSubjects, AreUpTo, IsQuestion, AreQuestions, IsAsking};

use pi_tree::{Alternatives, Atom, Kind, Protocol, Queries, Query, Term, Terms};
use std::alloc::{AllocError, Global};

/// What is asked about.
#[derive(Clone, Copy)]
pub enum Subject {
    /// The event of that number, from 1, whatever its arguments.
    Event(u32),
    /// The left side of the query of that number, from 1: a correspondence that has alternatives.
    Left(u32),
}

/// What can't happen in any run of a protocol.
#[derive(Drop)]
pub struct Impossible {
    /// The numbers of the events that no run performs, from 1.
    pub events: Vec<u32>,
    /// The numbers of the queries, correspondences with alternatives, whose left side no run performs, from 1.
    pub queries: Vec<u32>,
}

/// Variables, numbered from 1, as arguments.
fn variables(alloc: Global, count: u32) -> Result<Terms, AllocError>
    ensures { IfOk result (λ terms. terms ≡ variables_from 1 count) }
{
    let mut items = Vec::new(alloc);
    for index in 0..count {
        items.push(Term::Var(index + 1))?;
    }
    Ok(Terms { items })
}

/// `event left ==> false`
fn never(alloc: Global, left: Atom) -> Query
    ensures { query_of result ≡ never_query (event_of left) }
{
    Query::Corr {
        left,
        alternatives: Alternatives {
            items: Vec::new(alloc),
        },
    }
}

/// The query whether the event of that number, with so many arguments, never happens.
fn never_any(alloc: Global, event: u32, arity: u32) -> Result<Query, AllocError>
    ensures { IfOk result (λ query. query_of query ≡ never_query (any_event event arity)) }
{
    let args = variables(alloc, arity)?;
    Ok(never(alloc, Atom { event, args }))
}

/// The events of a protocol.
fn events(alloc: Global, protocol: &Protocol) -> Result<Vec<Subject>, AllocError>
    requires limits { IsWithinLimits (protocol_of protocol.now) }
    ensures { let P = protocol_of protocol.now in
        IfOk result (λ all. AreUpTo P (length P.events) 0 all.items) }
{
    let mut all = Vec::new(alloc);
    for index in 0..protocol.count(Kind::Event) {
        all.push(Subject::Event(index + 1))?;
    }
    Ok(all)
}

/// The events of a protocol behind the first so many.
pub fn events_behind(
    alloc: Global,
    protocol: &Protocol,
    first: u32,
) -> Result<Vec<Subject>, AllocError>
    requires limits { IsWithinLimits (protocol_of protocol.now) }
    ensures { IfOk result (λ all. AreSubjects (protocol_of protocol.now) all.items) }
{
    let mut all = Vec::new(alloc);
    for index in first..protocol.count(Kind::Event) {
        all.push(Subject::Event(index + 1))?;
    }
    Ok(all)
}

/// Whether the query is a correspondence that has alternatives.
fn has_alternatives(query: &Query) -> bool
    ensures { result ≡ has_alternatives (query_of query.now) }
{
    match query {
        Query::Secret(_, _) | Query::SecretNew(_, _) => false,
        Query::Corr { alternatives, .. } => !alternatives.items.is_empty(),
    }
}

/// Lists the left side of the query at the index, from 0, if that is a correspondence that has alternatives.
fn list_left(protocol: &Protocol, index: u32, all: &mut Vec<Subject>) -> Result<(), AllocError>
    requires limits { IsWithinLimits (protocol_of protocol.now) }
    requires there { index < length (protocol_of protocol.now).queries }
    requires before { let P = protocol_of protocol.now in
        AreUpTo P (length P.events) index all.old.items }
    ensures { let P = protocol_of protocol.now in
        OnOk result (AreUpTo P (length P.events) (index + 1) all.new.items) }
{
    if has_alternatives(protocol.query(index + 1)) {
        all.push(Subject::Left(index + 1))?;
        Ok(())
    } else {
        Ok(())
    }
}

/// Lists the left sides of the correspondences that have alternatives behind the events.
fn list_lefts(protocol: &Protocol, all: &mut Vec<Subject>) -> Result<(), AllocError>
    requires limits { IsWithinLimits (protocol_of protocol.now) }
    requires events { let P = protocol_of protocol.now in
        AreUpTo P (length P.events) 0 all.old.items }
    ensures { let P = protocol_of protocol.now in
        OnOk result (AreUpTo P (length P.events) (length P.queries) all.new.items) }
{
    for index in 0..protocol.count(Kind::Query) {
        list_left(protocol, index, all)?;
    }
    Ok(())
}

/// The events of a protocol, and the left sides of the correspondences that have alternatives.
pub fn subjects(alloc: Global, protocol: &Protocol) -> Result<Vec<Subject>, AllocError>
    requires limits { IsWithinLimits (protocol_of protocol.now) }
    ensures { let P = protocol_of protocol.now in
        IfOk result (λ all. AreUpTo P (length P.events) (length P.queries) all.items) }
{
    let mut all = events(alloc, protocol)?;
    list_lefts(protocol, &mut all)?;
    Ok(all)
}

/// The query whether the subject never happens.
fn question(alloc: Global, protocol: &Protocol, subject: Subject) -> Result<Query, AllocError>
    requires there { IsSubject (protocol_of protocol.now) subject }
    ensures { IfOk result (λ asked. IsQuestion (protocol_of protocol.now) subject (query_of asked)) }
{
    match subject {
        Subject::Event(event) => never_any(alloc, event, protocol.arity(Kind::Event, event)),
        Subject::Left(number) => match protocol.query(number) {
            Query::Corr { left, .. } => {
                let copied = left.copy(alloc)?;
                Ok(never(alloc, copied))
            }
            Query::Secret(_, _) => unreachable!(),
            Query::SecretNew(_, _) => unreachable!(),
        },
    }
}

/// The queries whether these subjects never happen, one for each.
fn questions(
    alloc: Global,
    protocol: &Protocol,
    subjects: &[Subject],
) -> Result<Queries, AllocError>
    requires there { AreSubjects (protocol_of protocol.now) subjects.now }
    ensures { IfOk result (λ asked. AreQuestions (protocol_of protocol.now) subjects.now asked) }
{
    let mut items = Vec::with_capacity(alloc, subjects.len())?;
    for subject in subjects {
        let query = question(alloc, protocol, *subject)?;
        items.push(query)?;
    }
    Ok(Queries { items })
}

/// The protocol with these questions in place of its queries.
fn asking(alloc: Global, protocol: &Protocol, queries: Queries) -> Result<Protocol, AllocError>
    ensures { IfOk result (λ asked.
        protocol_of asked ≡ asking_of (protocol_of protocol.now) queries) }
{
    let mut asked = protocol.copy(alloc)?;
    asked.queries = queries;
    Ok(asked)
}

/// The protocol with the questions about these subjects in place of its queries.
pub fn asking_about(
    alloc: Global,
    protocol: &Protocol,
    subjects: &[Subject],
) -> Result<Protocol, AllocError>
    requires limits { IsWithinLimits (protocol_of protocol.now) }
    requires rules { HasProperRules (protocol_of protocol.now) }
    requires scoped { IsWellScoped (protocol_of protocol.now) }
    requires queries { HasProperQueries (protocol_of protocol.now) }
    requires there { AreSubjects (protocol_of protocol.now) subjects.now }
    requires few { length subjects.now ≤ most_queries }
    ensures { IfOk result (λ asked.
        IsAsking (protocol_of protocol.now) subjects.now (protocol_of asked)) }
{
    let queries = questions(alloc, protocol, subjects)?;
    asking(alloc, protocol, queries)
}
