//! The walk: the given clauses but the goal are offered, then, entry by entry, the resolvents of each with the earlier ones;
//! where the entries end the goal is offered, and the walk goes on to their end.

ghost use Rattle.std.specs.Prelude.{◌≡◌, ◌+◌, ◌<◌, ◌≤◌, true, false, Some, None, List, length, map, IfOk, OnErr};
ghost use Rattle.spec_terms.specs.Term.{Term};
ghost use Rattle.spec_calculus.specs.Points.{numbered};
ghost use Rattle.spec_saturation.specs.Key.{key};
ghost use Rattle.spec_saturation.specs.Log.{goal_key};
ghost use Rattle.term_tree.specs.Bank.{Grows};
ghost use Rattle.clause_form.specs.Seen.{clause_at};
ghost use Rattle.clause_form.specs.Fit.{IsFit, AreFit};
ghost use Rattle.log_entries.specs.Logs.{IsLogOf};
ghost use Rattle.log_walks.specs.Walked.{Task, with_asked, AreGivenOf, IsWalked, HasOffered, HasPassed, HasArrived, HasEnded, behind_goal, turn_end};

use crate::pairs::{next_pair, resolve};
use crate::stops::Stop;
use clause_form::Clause;
use clause_offers::offer;
use log_entries::{Entry, Live, Log, Origin, Saturated, Walk};
use std::alloc::{AllocError, Global};
use term_tree::Bank;

/// Offers the given clauses.
fn offer_given<B: Bank>(
    walk: &mut Walk,
    bank: &B,
    given: &[Clause],
) -> Result<Option<Entry>, AllocError>
    ghost task: { Task }
    requires given { AreGivenOf (B.trees bank.now) given.now task }
    requires fit { AreFit (B.trees bank.now) given.now }
    requires walked { IsWalked (B.trees bank.now) task walk.old (key 0 0 1) }
    ensures { IfOk result (λ due. HasOffered (B.trees bank.now) task walk.new
        (goal_key task.given 0) due) }
{
    let mut k = 1;
    'each: while k <= given.len() {
        match offer(walk, bank, &given[k - 1], Origin::Given(k))? {
            Some(due) => return Ok(Some(due)),
            None => {}
        }
        k += 1;
    }
    Ok(None)
}

/// Offers the goal, which is the given clause of that number, where the entries end.
fn offer_goal<B: Bank>(
    walk: &mut Walk,
    bank: &B,
    goal: &Clause,
    number: usize,
) -> Result<Option<Entry>, AllocError>
    ghost task: { Task }
    requires number { number ≡ length task.given }
    requires goal { numbered task.given number ≡ Some (clause_at (B.trees bank.now) goal.now) }
    requires fit { IsFit (B.trees bank.now) goal.now }
    requires unasked { task.asked ≡ false }
    requires walked { IsWalked (B.trees bank.now) task walk.old
        (goal_key task.given (length walk.old.items.items)) }
    ensures { IfOk result (λ due. HasOffered (B.trees bank.now) (with_asked task true) walk.new
        (behind_goal task.given (length walk.old.items.items)) due) }
{
    let due = offer(walk, bank, goal, Origin::Given(number))?;
    Ok(due)
}

/// Goes through the pairs of an entry with the earlier ones. On `Err` the bank may have grown.
fn pass<B: Bank>(walk: &mut Walk, bank: &mut B, turn: usize) -> Result<Option<Stop>, AllocError>
    ghost task: { Task }
    requires walked { IsWalked (B.trees bank.old) task walk.old (key turn 1 1) }
    requires some { 0 < turn }
    ensures grows { Grows (B.trees bank.old) (B.trees bank.new) }
    ensures passed { IfOk result (λ stop. HasPassed (B.trees bank.new) task walk.new
        (goal_key task.given turn) stop) }
{
    let mut earlier = 1;
    'each: while let Some(pair) = next_pair(walk, bank, turn, earlier) {
        match resolve(walk, bank, pair)? {
            Some(stop) => return Ok(Some(stop)),
            None => {}
        }
        earlier = pair.solved.min(pair.unsolved) + 1;
    }
    Ok(None)
}

/// Walks along the log, from the end of a turn until the entries end. On `Err` the bank may have grown.
fn walk_on<B: Bank>(walk: &mut Walk, bank: &mut B, from: usize) -> Result<Option<Stop>, AllocError>
    ghost task: { Task }
    requires walked { IsWalked (B.trees bank.old) task walk.old (turn_end task from) }
    ensures grows { Grows (B.trees bank.old) (B.trees bank.new) }
    ensures arrived { IfOk result (λ stop. HasArrived (B.trees bank.new) task walk.new stop) }
{
    let mut turn = from;
    'each: while turn < walk.items.len() {
        turn += 1;
        match pass(walk, bank, turn)? {
            Some(stop) => return Ok(Some(stop)),
            None => {}
        }
    }
    Ok(None)
}

/// Walks along the log until the entries end for the first time, where the goal is due. On `Err` the bank may have grown.
pub fn walk_to_goal<B: Bank>(
    walk: &mut Walk,
    bank: &mut B,
    given: &[Clause],
) -> Result<Option<Stop>, AllocError>
    ghost task: { Task }
    requires given { AreGivenOf (B.trees bank.old) given.now task }
    requires fit { AreFit (B.trees bank.old) given.now }
    requires unasked { task.asked ≡ false }
    requires walked { IsWalked (B.trees bank.old) task walk.old (key 0 0 1) }
    ensures grows { Grows (B.trees bank.old) (B.trees bank.new) }
    ensures arrived { IfOk result (λ stop. HasPassed (B.trees bank.new) task walk.new
        (goal_key task.given (length walk.new.items.items)) stop) }
{
    match offer_given(walk, bank, given)? {
        Some(due) => Ok(Some(Stop::Spent(due))),
        None => {
            let stop = walk_on(walk, bank, 0)?;
            Ok(stop)
        }
    }
}

/// Offers the goal, and walks along the log to its end. On `Err` the bank may have grown.
pub fn walk_from_goal<B: Bank>(
    walk: &mut Walk,
    bank: &mut B,
    goal: &Clause,
    number: usize,
) -> Result<Option<Stop>, AllocError>
    ghost task: { Task }
    requires number { number ≡ length task.given }
    requires goal { numbered task.given number ≡ Some (clause_at (B.trees bank.old) goal.now) }
    requires fit { IsFit (B.trees bank.old) goal.now }
    requires unasked { task.asked ≡ false }
    requires walked { IsWalked (B.trees bank.old) task walk.old
        (goal_key task.given (length walk.old.items.items)) }
    ensures grows { Grows (B.trees bank.old) (B.trees bank.new) }
    ensures ended { IfOk result (λ stop.
        HasEnded (B.trees bank.new) (with_asked task true) walk.new stop) }
{
    let turn = walk.items.len();
    match offer_goal(walk, bank, goal, number)? {
        Some(due) => Ok(Some(Stop::Spent(due))),
        None => {
            let stop = walk_on(walk, bank, turn)?;
            Ok(stop)
        }
    }
}

/// Walks along the log of the given clauses, the goal last, to its end. On `Err` the bank may have grown.
fn run<B: Bank>(walk: &mut Walk, bank: &mut B, given: &[Clause]) -> Result<Option<Stop>, AllocError>
    ghost task: { Task }
    requires some { 0 < length given.now }
    requires given { map (clause_at (B.trees bank.old)) given.now ≡ task.given }
    requires fit { AreFit (B.trees bank.old) given.now }
    requires unasked { task.asked ≡ false }
    requires walked { IsWalked (B.trees bank.old) task walk.old (key 0 0 1) }
    ensures grows { Grows (B.trees bank.old) (B.trees bank.new) }
    ensures ended { IfOk result (λ stop.
        HasEnded (B.trees bank.new) (with_asked task true) walk.new stop) }
{
    let number = given.len();
    match walk_to_goal(walk, bank, &given[..number - 1])? {
        Some(stop) => Ok(Some(stop)),
        None => {
            let stop = walk_from_goal(walk, bank, &given[number - 1], number)?;
            Ok(stop)
        }
    }
}

/// The walk's log, and its end.
fn ended(walk: Walk, stop: Option<Stop>) -> Saturated
    ensures { (all : List Term) (task : Task) → HasEnded all task walk stop →
        IsLogOf all task.given task.budget result }
{
    let log = Log { items: walk.items };
    match stop {
        None => Saturated::Closed(log),
        Some(Stop::Spent(due)) => Saturated::Spent(log, due),
        Some(Stop::Large(solved, unsolved)) => Saturated::Large(log, solved, unsolved),
    }
}

/// The log of the given clauses, the goal last, with at most so many entries, and its end: the one that the
/// definitions give. Each clause is to be its own norm within the limit of size, with variables of low numbers.
///
/// `Err` comes only for want of memory; then the bank is as before.
pub fn saturate<B: Bank>(
    alloc: Global,
    bank: &mut B,
    given: &[Clause],
    budget: u64,
) -> Result<Saturated, AllocError>
    requires some { 0 < length given.now }
    requires fit { AreFit (B.trees bank.old) given.now }
    ensures grows { Grows (B.trees bank.old) (B.trees bank.new) }
    ensures log { IfOk result (λ saturated. IsLogOf (B.trees bank.new)
        (map (clause_at (B.trees bank.old)) given.now) budget saturated) }
    ensures err { OnErr result (B.trees bank.new ≡ B.trees bank.old) }
{
    let mark = bank.mark();
    let mut walk = Walk {
        alloc,
        items: Vec::new(alloc),
        live: Live::none(alloc),
        budget,
    };
    match run(&mut walk, bank, given) {
        Ok(stop) => Ok(ended(walk, stop)),
        Err(error) => {
            bank.back(mark);
            Err(error)
        }
    }
}
