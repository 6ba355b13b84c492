//! One saturation for all goals: up to the goal it is done once, and from there for each goal.

ghost use Rattle.std.specs.Prelude.{◌≡◌, ◌≤◌, suc, List, length, take, map, IfOk, OnErr};
ghost use Rattle.spec_terms.specs.Term.{Term};
ghost use Rattle.spec_clauses.specs.Fact.{Clause as ClauseOf};
ghost use Rattle.spec_saturation.specs.Log.{goal_key};
ghost use Rattle.spec_saturation.specs.Common.{with_goal};
ghost use Rattle.term_tree.specs.Bank.{Grows};
ghost use Rattle.clause_form.specs.Seen.{clause_at};
ghost use Rattle.clause_form.specs.Fit.{IsFit, AreFit};
ghost use Rattle.log_entries.specs.Logs.{IsLogOf};
ghost use Rattle.log_entries.specs.Live.{IsSameLive};
ghost use Rattle.log_walks.specs.Walked.{HasStopped, HasPassed};
ghost use Rattle.clause_saturate.specs.Common.{Shared, task_of, AreProper, begun_log, begun_size, log_of, IsCommonOf, IsBegun, EndsWith, saturated};

use crate::common::{Begun, Common, End};
use clause_form::Clause;
use log_entries::{Entry, Live, Log, Walk};
use log_walks::{Stop, walk_from_goal, walk_to_goal};
use std::alloc::{AllocError, Global};
use term_tree::{Bank, Mark};

/// The log that ends before the goal, and why.
fn ended_early(log: Log, stop: Stop) -> Begun
    ensures { (all : List Term) (shared : Shared) (goal : ClauseOf Term) →
        HasStopped all (task_of shared goal) log stop → IsBegun all shared result }
{
    match stop {
        Stop::Spent(due) => Begun::Spent(log, due),
        Stop::Large(solved, unsolved) => Begun::Large(log, solved, unsolved),
    }
}

/// The walk's log up to the goal, or why it ends before.
fn begun(walk: Walk, stop: Option<Stop>, number: usize, mark: Mark) -> Begun
    ensures { (all : List Term) (shared : Shared) (goal : ClauseOf Term) →
        AreProper shared.clauses → number ≡ suc (length shared.clauses) → mark.len ≡ length all →
        HasPassed all (task_of shared goal) walk
        (goal_key (task_of shared goal).given (length walk.items.items)) stop →
        IsBegun all shared result }
{
    let log = Log { items: walk.items };
    match stop {
        None => Begun::Ready(Common {
            alloc: walk.alloc,
            begun: log,
            live: walk.live,
            budget: walk.budget,
            number,
            mark,
            finished: None,
        }),
        Some(stop) => ended_early(log, stop),
    }
}

/// The part before the goal of the log of the given clauses, with at most so many entries, and how it ends: the same
/// whatever the goal, which is not among the given clauses. Each of these is to be its own norm within the limit of size,
/// with variables of low numbers; there may be none.
///
/// `Err` comes only for want of memory; then the bank is as before.
pub fn begin<B: Bank>(
    alloc: Global,
    bank: &mut B,
    given: &[Clause],
    budget: u64,
) -> Result<Begun, AllocError>
    requires fit { AreFit (B.trees bank.old) given.now }
    ensures grows { Grows (B.trees bank.old) (B.trees bank.new) }
    ensures begun { IfOk result (λ begun. IsBegun (B.trees bank.new) record
        { clauses = map (clause_at (B.trees bank.old)) given.now; budget = budget } begun) }
    ensures err { OnErr result (B.trees bank.new ≡ B.trees bank.old) }
{
    let mark = bank.mark();
    let mut walk = Walk {
        alloc,
        items: Vec::new(alloc),
        live: Live::none(alloc),
        budget,
    };
    match walk_to_goal(&mut walk, bank, given) {
        Ok(stop) => Ok(begun(walk, stop, given.len() + 1, bank.mark())),
        Err(error) => {
            bank.back(mark);
            Err(error)
        }
    }
}

/// Copies of entries.
fn copies(alloc: Global, entries: &[Entry]) -> Result<Vec<Entry>, AllocError>
    ensures { IfOk result (λ copied. copied.items ≡ entries.now) }
{
    let mut items = Vec::with_capacity(alloc, entries.len())?;
    'each: for entry in entries {
        let clause = entry.clause.copy(alloc)?;
        items.push(Entry {
            clause,
            origin: entry.origin,
            by: entry.by,
        })?;
    }
    Ok(items)
}

/// A walk that stands where `begin` left it.
fn begun_walk(common: &Common) -> Result<Walk, AllocError>
    ensures items { IfOk result (λ walk. walk.items.items ≡ begun_log common.now) }
    ensures live { IfOk result (λ walk. IsSameLive common.now.live walk.live) }
    ensures budget { IfOk result (λ walk. walk.budget ≡ common.now.budget) }
{
    let live = common.live.copy(common.alloc)?;
    let items = copies(common.alloc, &common.begun.items)?;
    Ok(Walk {
        alloc: common.alloc,
        items,
        live,
        budget: common.budget,
    })
}

/// Why a walk stops, as the end of its log.
fn end_of(stop: Option<Stop>) -> End
    ensures { EndsWith stop result }
{
    match stop {
        None => End::Closed,
        Some(Stop::Spent(due)) => End::Spent(due),
        Some(Stop::Large(solved, unsolved)) => End::Large(solved, unsolved),
    }
}

/// Goes on with a goal from where `begin` left the log, to the log's end: with `log`, the log of the given clauses of
/// `begin` and that goal, and its end. The bank is to be that of `begin`, with all the trees that `begin` left, and the
/// goal its own norm within the limit of size, with variables of low numbers.
///
/// `Err` comes only for want of memory; then the bank is as before, and the log as `begin` left it.
pub fn finish<B: Bank>(bank: &mut B, common: &mut Common, goal: Clause) -> Result<End, AllocError>
    ghost shared: { Shared }
    requires common { IsCommonOf (B.trees bank.old) shared common.old }
    requires goal { IsFit (B.trees bank.old) goal }
    ensures grows { Grows (B.trees bank.old) (B.trees bank.new) }
    ensures common { IsCommonOf (B.trees bank.new) shared common.new }
    ensures begun { begun_log common.new ≡ begun_log common.old }
    ensures size { begun_size common.new ≡ begun_size common.old }
    ensures log { IfOk result (λ end. IsLogOf (B.trees bank.new)
        (with_goal shared.clauses (clause_at (B.trees bank.old) goal)) shared.budget
        (saturated (log_of common.new) end)) }
    ensures err { OnErr result (B.trees bank.new ≡ B.trees bank.old) }
    ensures fresh { OnErr result (log_of common.new ≡ begun_log common.new) }
{
    common.finished = None;
    let mark = bank.mark();
    let mut walk = begun_walk(common)?;
    match walk_from_goal(&mut walk, bank, &goal, common.number) {
        Ok(stop) => {
            common.finished = Some(Log { items: walk.items });
            Ok(end_of(stop))
        }
        Err(error) => {
            bank.back(mark);
            Err(error)
        }
    }
}

/// Goes back to where `begin` left the log and the bank. The bank is to be that of `begin`, with all the trees that
/// `begin` left. Takes no memory.
pub fn rewind<B: Bank>(bank: &mut B, common: &mut Common)
    requires { begun_size common.old ≤ length (B.trees bank.old) }
    ensures bank { B.trees bank.new ≡ take (begun_size common.old) (B.trees bank.old) }
    ensures log { log_of common.new ≡ begun_log common.old }
    ensures begun { begun_log common.new ≡ begun_log common.old }
    ensures size { begun_size common.new ≡ begun_size common.old }
    ensures common { (shared : Shared) → IsCommonOf (B.trees bank.old) shared common.old →
        IsCommonOf (B.trees bank.new) shared common.new }
{
    drop(common.finished.take());
    bank.back(common.mark);
}
