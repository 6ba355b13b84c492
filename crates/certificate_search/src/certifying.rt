//! The search of a certificate.

ghost use Rattle.std.specs.Prelude.{◌≡◌, IfOk};
ghost use Rattle.spec_calculus.specs.Secrecy.{Holds};
ghost use Rattle.spec_certificates.specs.Certificate.{numbers_for};
ghost use Rattle.spec_certificates.specs.Ruling.{IsRuledBy};
ghost use Rattle.query_derive.specs.GoalRows.{OfQuery};
ghost use Rattle.cert_checker.specs.Rulings.{ruling_of};
ghost use Rattle.cert_checker.specs.declared.ruling.Ruling.TheVariants.{Accepted};
ghost use Rattle.certificate_search.specs.Searched.{protocol_at, CanBeSearched, CertifiesIfFound};
ghost use Rattle.certificate_search.specs.Searched.{IsProvenAttempt, IsProvenFound};

use crate::found::{Attempt, ChosenCert, Failure, Found, Search, Trial};
use crate::growth::{Growth, grown};
use crate::plans::{Content, Plan, ROUNDS, all_plans, most_symbols};
use crate::pool::Pool;
use crate::rows::{cert_of, clauses_of};
use crate::saturating::{Ended, saturated};
use crate::stock::Kept;
use crate::task::{Given, Task};
use crate::translating::{Translation, translated};
use cert_checker::{Placed, Ruling, check_placed_in};
use cert_form::PlainClauses;
use clause_generalize::asked_by;
use pi_tree::Query;
use std::alloc::{AllocError, Global};
use term_store::SharedBank;

/// What is ruled of a certificate by what it says of its clauses.
fn ruled(search: &Search<'_>, found: &ChosenCert) -> Result<Ruling, AllocError>
    requires { CanBeSearched search.now }
    ensures ruled { let P = protocol_at search.now in
        let cert = found.now.cert in
        IfOk result (λ ruling. OfQuery P search.now.query (λ q.
        IsRuledBy (numbers_for cert.clauses found.now.said.items) P q cert (ruling_of ruling))) }
    ensures holds { IfOk result (λ ruling. ruling ≡ Accepted →
        OfQuery (protocol_at search.now) search.now.query (λ q.
        Holds (protocol_at search.now) q)) }
{
    let Search {
        alloc,
        protocol,
        query,
        budget: _,
    } = *search;
    let placed = Placed {
        cert: &found.cert,
        said: &found.said,
    };
    let mut bank = SharedBank::new(alloc)?;
    check_placed_in(alloc, &mut bank, protocol, query, &placed)
}

/// The certificate, where the checker accepts it.
fn judged(search: &Search<'_>, found: ChosenCert) -> Result<Attempt, AllocError>
    requires { CanBeSearched search.now }
    ensures { IfOk result (IsProvenAttempt search.now) }
{
    match ruled(search, &found)? {
        Ruling::Accepted => Ok(Attempt::Found(found)),
        _ => Ok(Attempt::Failed(Failure::Open)),
    }
}

/// What grows in these clauses.
fn growth_among(pool: &Pool, task: &Task<'_>, live: &[Kept]) -> Result<Option<Growth>, AllocError> {
    let clauses = clauses_of(task.search.alloc, pool, live)?;
    grown(task.search.alloc, &clauses)
}

/// What a saturation of the first clauses of the pool, so many, comes to.
fn ended(pool: &mut Pool, task: &Task<'_>, given: usize, end: Ended) -> Result<Attempt, AllocError>
    requires { CanBeSearched task.now.search }
    ensures { IfOk result (IsProvenAttempt task.now.search) }
{
    match end {
        Ended::Closed(live) => match cert_of(pool, task, given, &live)? {
            None => Ok(Attempt::Failed(Failure::Open)),
            Some(found) => judged(&task.search, found),
        },
        Ended::Unmet(place) => match pool.read(place)? {
            None => Ok(Attempt::Failed(Failure::Open)),
            Some(clause) => Ok(Attempt::Failed(Failure::Unmet(clause))),
        },
        Ended::Large => Ok(Attempt::Failed(Failure::Large)),
        Ended::Spent(live) => {
            let growth = growth_among(pool, task, &live)?;
            Ok(Attempt::Failed(Failure::Spent(growth)))
        }
    }
}

/// What a plan comes to over a pool of the given clauses.
fn attempted_over(pool: &mut Pool, task: &Task<'_>) -> Result<Attempt, AllocError>
    requires { CanBeSearched task.now.search }
    ensures { IfOk result (IsProvenAttempt task.now.search) }
{
    let given = pool.count();
    let end = saturated(pool, task, given)?;
    ended(pool, task, given, end)
}

/// What a plan comes to, where so many clauses may be kept.
fn attempted(
    search: &Search<'_>,
    given: &Given<'_>,
    plan: Plan,
    most: usize,
) -> Result<Attempt, AllocError>
    requires { CanBeSearched search.now }
    ensures { IfOk result (IsProvenAttempt search.now) }
{
    let task = Task {
        search: *search,
        asked: given.asked,
        plan: &plan,
        most,
    };
    let mut pool = Pool::of(search.alloc, given.clauses)?;
    attempted_over(&mut pool, &task)
}

/// Whether the plan may come to something else where more clauses may be kept.
fn is_open(trial: &Trial) -> bool {
    match &trial.failure {
        None => true,
        Some(Failure::Spent(_)) => true,
        Some(_) => false,
    }
}

/// Tries the plans that are open, one after the other, until one finds a certificate.
fn tried(
    search: &Search<'_>,
    given: &Given<'_>,
    trials: &mut [Trial],
    most: usize,
) -> Result<Option<(ChosenCert, Plan)>, AllocError>
    requires { CanBeSearched search.now }
    ensures { IfOk result (CertifiesIfFound search.now) }
{
    'each: for trial in trials {
        if is_open(trial) {
            match attempted(search, given, trial.plan, most)? {
                Attempt::Found(found) => return Ok(Some((found, trial.plan))),
                Attempt::Failed(failure) => trial.failure = Some(failure),
            }
        }
    }
    Ok(None)
}

/// What the given clauses have, and what the query asks for.
fn content_of(search: &Search<'_>, clauses: &PlainClauses) -> Content
    requires { CanBeSearched search.now }
{
    Content {
        events: matches!(search.protocol.query(search.query), Query::Corr { .. }),
        diffs: clauses
            .items
            .iter()
            .any(|clause| !clause.diffs.items.is_empty()),
    }
}

/// All plans for such clauses, none of them tried.
fn untried(alloc: Global, content: Content) -> Result<Vec<Trial>, AllocError> {
    let mut trials = Vec::new(alloc);
    'each: for plan in all_plans(alloc, content)? {
        trials.push(Trial {
            plan,
            failure: None,
        })?;
    }
    Ok(trials)
}

/// Tries all plans in rounds, each with more clauses.
fn rounds(search: &Search<'_>, given: &Given<'_>) -> Result<Found, AllocError>
    requires { CanBeSearched search.now }
    ensures { IfOk result (IsProvenFound search.now) }
{
    let mut trials = untried(search.alloc, content_of(search, given.clauses))?;
    'each: for round in ROUNDS {
        let most = round.most(search.budget);
        if let Some((found, plan)) = tried(search, given, &mut trials, most)? {
            return Ok(Found::Certificate(found, plan));
        }
    }
    Ok(Found::Nothing(trials))
}

/// Looks for a certificate of a query, by all plans in rounds. What it finds the checker accepts.
pub fn searched(search: &Search<'_>) -> Result<Found, AllocError>
    requires { CanBeSearched search.now }
    ensures { IfOk result (IsProvenFound search.now) }
{
    let most = most_symbols(search.budget as usize);
    match translated(search.alloc, search.protocol, search.query, most)? {
        Translation::Large(point) => Ok(Found::TooLarge(point)),
        Translation::OverBudget => Ok(Found::OverBudget),
        Translation::Clauses(clauses) => {
            let asked = asked_by(search.alloc, search.protocol.query(search.query))?;
            let given = Given {
                clauses: &clauses,
                asked: &asked,
            };
            rounds(search, &given)
        }
    }
}
