//! Pairs of entries, and what they give.

ghost use Rattle.std.specs.Prelude.{◌≡◌, ◌+◌, ◌<◌, ◌≤◌, ◌++◌, ℕ, true, length, take, get_or, IfSome, IfOk, OnOk};
ghost use Rattle.spec_saturation.specs.Key.{key};
ghost use Rattle.term_tree.specs.Bank.{Grows};
ghost use Rattle.clause_resolve.specs.Answers.{LeavesBank};
ghost use Rattle.clause_form.specs.Fit.{AreFit};
ghost use Rattle.log_entries.specs.Beating.{clauses_of};
ghost use Rattle.log_entries.specs.Live.{AreListed, kept_prints, meets_at, is_met_at, IsPartner};
ghost use Rattle.log_entries.specs.Numbers.{IsAmong, AreNumbersWithin, is_live_at};
ghost use Rattle.log_entries.specs.Classes.{AreClassed};
ghost use Rattle.log_walks.specs.Pairs.{major, minor, IsNextPair, IsDuePair, IsMadeBy, IsFoundFor, AreSameOrMore, IsTidy};
ghost use Rattle.log_walks.specs.Walked.{Task, IsWalked, HasOffered, HasPassed};

use crate::stops::{Pair, Stop};
use clause_form::Clause;
use clause_offers::offer;
use clause_resolve::{Resolved, resolvents};
use fact_classes::{Classes, class_of};
use fact_fingerprint::may_meet;
use literal_selection::{is_solved, selected};
use log_entries::{Entry, Live, Origin, Walk, is_live};
use std::alloc::{AllocError, Global};
use term_tree::{Bank, Mark};

/// Whether the fingerprints of the entries of two numbers may meet.
fn meet(live: &Live, later: usize, number: usize) -> bool
    requires some { 0 < later }
    requires within { later ≤ length live.now.prints.items }
    requires some_number { 0 < number }
    requires number_within { number ≤ length live.now.prints.items }
    ensures { result ≡ meets_at (kept_prints live.now.prints.items) later number }
{
    let left = &live.prints[number - 1];
    let right = &live.prints[later - 1];
    may_meet(left, right)
}

/// Whether the entry of a number is live, and its fingerprint and the later one's may meet.
fn is_met(walk: &Walk, later: usize, number: usize) -> bool
    requires some { 0 < later }
    requires within { later ≤ length walk.now.live.prints.items }
    requires some_number { 0 < number }
    requires number_within { number ≤ length walk.now.live.prints.items }
    ensures { result ≡ is_met_at walk.now.items.items (kept_prints walk.now.live.prints.items)
        later number }
{
    is_live(&walk.items, number) && meet(&walk.live, later, number)
}

/// The number at a place, or the bound, where there is none.
fn number_at(numbers: &[usize], place: usize, bound: usize) -> usize
    ensures { result ≡ get_or numbers.now place bound }
{
    if numbers.len() <= place {
        return bound;
    }
    numbers[place]
}

/// The first of the numbers of two lists, from one on and before the later one, of which the entry is live and the
/// fingerprint may meet that of the later one, if there is one.
fn partner(walk: &Walk, left: &[usize], right: &[usize], later: usize, from: usize) -> Option<usize>
    requires left { AreNumbersWithin (length walk.now.live.prints.items) left.now }
    requires right { AreNumbersWithin (length walk.now.live.prints.items) right.now }
    requires some { 0 < later }
    requires within { later ≤ length walk.now.live.prints.items }
    ensures partner { IsPartner
        (is_met_at walk.now.items.items (kept_prints walk.now.live.prints.items) later)
        (left.now ++ right.now) later from result }
    ensures met { IfSome result (λ number. is_met_at walk.now.items.items
        (kept_prints walk.now.live.prints.items) later number ≡ true) }
{
    let mut i = left.partition_point(|number| *number < from);
    let mut j = right.partition_point(|number| *number < from);
    'each: loop {
        let first = number_at(left, i, later);
        let second = number_at(right, j, later);
        let number = first.min(second);
        if later <= number {
            return None;
        }
        if is_met(walk, later, number) {
            return Some(number);
        }
        if first <= second {
            i += 1;
        } else {
            j += 1;
        }
    }
}

/// The first of these numbers from one on and before the later one whose fingerprint may meet that of the later one, if
/// there is one: looked for among those of its class and of none, if it has a class.
fn class_partner(
    walk: &Walk,
    numbers: &[usize],
    classes: &Classes,
    later: usize,
    from: usize,
) -> Option<usize>
    requires numbers { AreNumbersWithin (length walk.now.live.prints.items) numbers.now }
    requires alive { (number : ℕ) → IsAmong numbers.now number →
        is_live_at walk.now.items.items number ≡ true }
    requires classed { AreClassed walk.now.items.items (kept_prints walk.now.live.prints.items)
        numbers.now classes.now }
    requires many { length walk.now.live.prints.items ≡ length walk.now.items.items }
    requires some { 0 < later }
    requires within { later ≤ length walk.now.live.prints.items }
    ensures { IsPartner (meets_at (kept_prints walk.now.live.prints.items) later) numbers.now
        later from result }
{
    match class_of(&walk.live.prints[later - 1]) {
        None => partner(walk, numbers, &[], later, from),
        Some(class) => partner(walk, classes.of(class), &classes.rest, later, from),
    }
}

/// The next due pair of an entry with an earlier one from a number on, if there is one. Due pairs whose facts have no unifier
/// may be left out: those that fingerprints tell.
pub(crate) fn next_pair<B: Bank>(walk: &Walk, bank: &B, later: usize, from: usize) -> Option<Pair>
    requires entries { AreFit (B.trees bank.now) (clauses_of walk.now.items.items) }
    requires listed { AreListed (B.trees bank.now) walk.now.items.items walk.now.live }
    requires some { 0 < later }
    requires within { later ≤ length walk.now.items.items }
    ensures { IsNextPair (B.trees bank.now) walk.now.items.items later from result }
{
    let last = &walk.items[later - 1];
    if last.by.is_some() {
        return None;
    }
    if is_solved(bank, &last.clause) {
        let earlier = class_partner(
            walk,
            &walk.live.unsolved,
            &walk.live.unsolved_classes,
            later,
            from,
        )?;
        return Some(Pair {
            solved: later,
            unsolved: earlier,
        });
    }
    let earlier = class_partner(
        walk,
        &walk.live.solved,
        &walk.live.solved_classes,
        later,
        from,
    )?;
    Some(Pair {
        solved: earlier,
        unsolved: later,
    })
}

/// Offers the resolvents of a due pair in order. The entries are the same then, or there are more.
fn offer_resolvents<B: Bank>(
    walk: &mut Walk,
    bank: &B,
    pair: Pair,
    clauses: &[Clause],
) -> Result<Option<Entry>, AllocError>
    ghost task: { Task }
    requires walked { IsWalked (B.trees bank.now) task walk.old (key (major pair) (minor pair) 1) }
    requires made { IsMadeBy (B.trees bank.now) (B.trees bank.now) walk.old.items.items pair
        clauses.now }
    ensures offered { IfOk result (λ due. HasOffered (B.trees bank.now) task walk.new
        (key (major pair) (minor pair + 1) 1) due) }
    ensures entries { OnOk result (AreSameOrMore walk.old.items.items walk.new.items.items) }
{
    let mut k = 0;
    'each: while k < clauses.len() {
        let origin = Origin::Resolvent {
            k: k + 1,
            solved: pair.solved,
            unsolved: pair.unsolved,
        };
        match offer(walk, bank, &clauses[k], origin)? {
            Some(due) => return Ok(Some(due)),
            None => {}
        }
        k += 1;
    }
    Ok(None)
}

/// Offers the resolvents of a due pair; where none of them is kept, the bank is taken back to the mark.
fn keep<B: Bank>(
    walk: &mut Walk,
    bank: &mut B,
    mark: Mark,
    pair: Pair,
    clauses: &[Clause],
) -> Result<Option<Stop>, AllocError>
    ghost task: { Task }
    requires mark { mark.len ≤ length (B.trees bank.old) }
    requires walked { IsWalked (take mark.len (B.trees bank.old)) task walk.old
        (key (major pair) (minor pair) 1) }
    requires made { IsMadeBy (take mark.len (B.trees bank.old)) (B.trees bank.old)
        walk.old.items.items pair clauses.now }
    ensures grows { Grows (take mark.len (B.trees bank.old)) (B.trees bank.new) }
    ensures passed { IfOk result (λ stop. HasPassed (B.trees bank.new) task walk.new
        (key (major pair) (minor pair + 1) 1) stop) }
    ensures tidy { IfOk result (λ stop. IsTidy (take mark.len (B.trees bank.old)) (B.trees bank.new)
        walk.old.items.items walk.new.items.items stop) }
{
    let count = walk.items.len();
    match offer_resolvents(walk, bank, pair, clauses)? {
        Some(due) => return Ok(Some(Stop::Spent(due))),
        None => {}
    }
    if count < walk.items.len() {
        return Ok(None);
    }
    bank.back(mark);
    Ok(None)
}

/// What a due pair gives on the selected hypothesis.
fn pair_resolvents<B: Bank>(
    alloc: Global,
    bank: &mut B,
    entries: &[Entry],
    pair: Pair,
) -> Result<Resolved, AllocError>
    requires entries { AreFit (B.trees bank.old) (clauses_of entries.now) }
    requires due { IsDuePair (B.trees bank.old) entries.now (major pair) (minor pair) pair }
    ensures grows { Grows (B.trees bank.old) (B.trees bank.new) }
    ensures found { IfOk result (λ found. IsFoundFor (B.trees bank.old) (B.trees bank.new)
        entries.now pair found) }
    ensures as_before { IfOk result (λ found.
        LeavesBank (B.trees bank.old) (B.trees bank.new) found) }
{
    let solved = &entries[pair.solved - 1];
    let unsolved = &entries[pair.unsolved - 1];
    match selected(bank, &unsolved.clause) {
        Some(at) => {
            let found = resolvents(alloc, bank, &solved.clause, &unsolved.clause, at)?;
            Ok(found)
        }
        None => Ok(Resolved::NoUnifier),
    }
}

/// Resolves a due pair, and offers the resolvents. Where none of them is kept or handed back, the bank is as before. On `Err`
/// it may have grown.
pub(crate) fn resolve<B: Bank>(
    walk: &mut Walk,
    bank: &mut B,
    pair: Pair,
) -> Result<Option<Stop>, AllocError>
    ghost task: { Task }
    requires walked { IsWalked (B.trees bank.old) task walk.old (key (major pair) (minor pair) 1) }
    requires due { IsDuePair (B.trees bank.old) walk.old.items.items (major pair) (minor pair)
        pair }
    ensures grows { Grows (B.trees bank.old) (B.trees bank.new) }
    ensures passed { IfOk result (λ stop. HasPassed (B.trees bank.new) task walk.new
        (key (major pair) (minor pair + 1) 1) stop) }
    ensures tidy { IfOk result (λ stop. IsTidy (B.trees bank.old) (B.trees bank.new)
        walk.old.items.items walk.new.items.items stop) }
{
    let mark = bank.mark();
    match pair_resolvents(walk.alloc, bank, &walk.items, pair)? {
        Resolved::NoUnifier => Ok(None),
        Resolved::Large => Ok(Some(Stop::Large(pair.solved, pair.unsolved))),
        Resolved::Clauses(clauses) => {
            let stop = keep(walk, bank, mark, pair, &clauses.items)?;
            Ok(stop)
        }
    }
}
