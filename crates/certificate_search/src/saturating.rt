//! A saturation with more general clauses, smallest clause first.

ghost use Rattle.certificate_search.specs.Searched.{CanBeSearched};

use crate::choosing::Chooser;
use crate::generalizing::{MOST_CHANGED, generalized, symbols_of_steps};
use crate::plans::most_symbols;
use crate::pool::{Candidate, Goal, Made, Pool};
use crate::stock::{Kept, Stock, Waiting};
use crate::task::Task;
use limits::MOST_SYMBOLS;
use std::alloc::AllocError;

/// How a saturation ends. Clauses are named by their places in the pool.
#[derive(Drop)]
pub(crate) enum Ended {
    /// With nothing new; these are its live clauses.
    Closed(Vec<Kept>),
    /// At this clause, which rests, concludes `bad`, and doesn't satisfy the query.
    Unmet(usize),
    /// At a pair of clauses that is too large.
    Large,
    /// With as many clauses as there may be, or as many symbols; these are live ones.
    Spent(Vec<Kept>),
}

/// Why a saturation doesn't go on.
#[derive(Clone, Copy)]
enum Stop {
    Unmet(usize),
    Large,
    Spent,
}

/// How often a saturation is begun at most.
const MOST_BEGUN: usize = 4;

/// The most symbols of a clause in which it is looked for what grows, which takes the square of these.
const MOST_GROWN: u64 = 500;

/// Lets the last clauses of the pool wait, so many, which are resolvents of these. None of them stays in the pool where none waits.
fn wait_all(
    pool: &mut Pool,
    stock: &mut Stock,
    count: usize,
    parents: (usize, usize),
) -> Result<(), AllocError> {
    let end = pool.count();
    let first = end.saturating_sub(count);
    let mut any = false;
    'each: for place in first..end {
        let waits = stock.wait(pool, place, Some(parents))?;
        any = any || waits;
    }
    if !any {
        pool.cut(first);
    }
    Ok(())
}

/// Lets the resolvents of the kept clauses of two numbers wait, where they may be resolved: the first rests, the second doesn't.
fn resolve(
    pool: &mut Pool,
    stock: &mut Stock,
    resting: usize,
    other: usize,
) -> Result<Option<Stop>, AllocError> {
    let Some(pair) = stock.pair(resting, other) else {
        return Ok(None);
    };
    if stock.is_spent() {
        return Ok(Some(Stop::Spent));
    }
    match pool.resolve(pair)? {
        Made::Large => Ok(Some(Stop::Large)),
        Made::Clauses(count) => {
            wait_all(pool, stock, count, (resting, other))?;
            Ok(None)
        }
    }
}

/// Resolves the last kept clause with each of them.
fn resolve_last(pool: &mut Pool, stock: &mut Stock) -> Result<Option<Stop>, AllocError> {
    let count = stock.kept.len();
    let last = count.saturating_sub(1);
    'each: for number in 0..count {
        if let Some(stop) = resolve(pool, stock, last, number)? {
            return Ok(Some(stop));
        }
        if let Some(stop) = resolve(pool, stock, number, last)? {
            return Ok(Some(stop));
        }
    }
    Ok(None)
}

/// Whether the clause at a place, of which this is chosen, rests, concludes `bad`, and doesn't satisfy the query.
fn is_unmet(
    pool: &Pool,
    task: &Task<'_>,
    place: usize,
    chosen: &Option<Candidate>,
) -> Result<bool, AllocError>
    requires { CanBeSearched task.now.search }
{
    if chosen.is_some() {
        return Ok(false);
    }
    match pool.goal(place, &task.search)? {
        Goal::Unmet => Ok(true),
        Goal::NotDue | Goal::Met(_) => Ok(false),
    }
}

/// Keeps the clause at a place, of which this is chosen, and resolves it with the others, or says why that isn't done.
fn keep(
    pool: &mut Pool,
    task: &Task<'_>,
    stock: &mut Stock,
    place: usize,
    chosen: Option<Candidate>,
) -> Result<Option<Stop>, AllocError>
    requires { CanBeSearched task.now.search }
{
    if is_unmet(pool, task, place, &chosen)? {
        return Ok(Some(Stop::Unmet(place)));
    }
    if stock.kept.len() >= task.most {
        return Ok(Some(Stop::Spent));
    }
    stock.keep(pool, place, chosen)?;
    resolve_last(pool, stock)
}

/// The place of a more general clause than the one that waited, or of this, where it is large.
fn changed(
    pool: &mut Pool,
    task: &Task<'_>,
    stock: &mut Stock,
    waiting: Waiting,
) -> Result<usize, AllocError> {
    if waiting.size > MOST_CHANGED {
        return Ok(waiting.place);
    }
    stock.spend(symbols_of_steps(waiting.size));
    generalized(pool, task, waiting.place)
}

/// Takes a clause that waited: it is left out where it isn't wanted any more, and else a more general one is kept in its place.
fn take(
    pool: &mut Pool,
    task: &Task<'_>,
    stock: &mut Stock,
    chooser: &mut Chooser,
    waiting: Waiting,
) -> Result<Option<Stop>, AllocError>
    requires { CanBeSearched task.now.search }
{
    stock.spend(1);
    if !stock.has_live_parents(&waiting) || stock.covers(pool, waiting.place)? {
        return Ok(None);
    }
    let place = changed(pool, task, stock, waiting)?;
    stock.spend(chooser.symbols(waiting.size));
    let chosen = chooser.chosen(pool, place)?;
    keep(pool, task, stock, place, chosen)
}

/// How the saturation ends where it doesn't go on.
fn stopped(task: &Task<'_>, stock: &Stock, stop: Stop) -> Result<Ended, AllocError> {
    match stop {
        Stop::Unmet(place) => Ok(Ended::Unmet(place)),
        Stop::Large => Ok(Ended::Large),
        Stop::Spent => {
            let small = stock.live(task.search.alloc, MOST_GROWN)?;
            Ok(Ended::Spent(small))
        }
    }
}

/// Goes on until nothing waits, or something stops it: each clause that is taken spends a symbol or more.
fn gone_on(
    pool: &mut Pool,
    task: &Task<'_>,
    stock: &mut Stock,
    chooser: &mut Chooser,
) -> Result<Ended, AllocError>
    requires { CanBeSearched task.now.search }
{
    'each: for _ in 0..most_symbols(task.most) {
        if stock.is_spent() {
            return stopped(task, stock, Stop::Spent);
        }
        let Some(waiting) = stock.take_smallest() else {
            let live = stock.live(task.search.alloc, MOST_SYMBOLS)?;
            return Ok(Ended::Closed(live));
        };
        if let Some(stop) = take(pool, task, stock, chooser, waiting)? {
            return stopped(task, stock, stop);
        }
    }
    stopped(task, stock, Stop::Spent)
}

/// The saturation of the first clauses of the pool, so many.
fn saturated_once(
    pool: &mut Pool,
    task: &Task<'_>,
    given: usize,
    chooser: &mut Chooser,
) -> Result<Ended, AllocError>
    requires { CanBeSearched task.now.search }
{
    let mut stock = Stock::new(task.search.alloc, most_symbols(task.most));
    'each: for place in 0..given {
        let _ = stock.wait(pool, place, None)?;
    }
    gone_on(pool, task, &mut stock, chooser)
}

/// Whether a saturation has closed.
fn is_closed(end: &Ended) -> bool {
    match end {
        Ended::Closed(_) => true,
        Ended::Unmet(_) | Ended::Large | Ended::Spent(_) => false,
    }
}

/// The same, begun again while it doesn't close and more facts are avoided than when it began, but so often at most.
fn saturated_again(
    pool: &mut Pool,
    task: &Task<'_>,
    given: usize,
    chooser: &mut Chooser,
) -> Result<Ended, AllocError>
    requires { CanBeSearched task.now.search }
{
    'each: for _ in 1..MOST_BEGUN {
        let avoided = chooser.avoided();
        let end = saturated_once(pool, task, given, chooser)?;
        if is_closed(&end) || chooser.avoided() == avoided {
            return Ok(end);
        }
    }
    saturated_once(pool, task, given, chooser)
}

/// The saturation of the first clauses of the pool, so many, by the choice of the plan.
pub(crate) fn saturated(pool: &mut Pool, task: &Task<'_>, given: usize) -> Result<Ended, AllocError>
    requires { CanBeSearched task.now.search }
{
    let mut chooser = Chooser::new(task.search.alloc, task.plan.choice);
    saturated_again(pool, task, given, &mut chooser)
}
