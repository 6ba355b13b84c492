//! What a search is of, and what it has found so far.

ghost use Rattle.std.specs.Prelude.{◌≡◌, ◌++◌, [], ◌∷◌, IfOk, OnOk};
ghost use Rattle.clause_form.specs.Fit.{IsFit, AreFit};
ghost use Rattle.log_entries.specs.Beating.{clauses_of};
ghost use Rattle.attack_candidates.specs.Sound.{IsSound, AreFitGoals};

use clause_form::{Clause, read_out, size_of};
use feature_index::{Features, features, may_cover};
use literal_selection::is_solved;
use log_entries::{Log, Origin, PlainEntry, PlainLog, read_log, subsumes};
use pi_tree::Protocol;
use std::alloc::{AllocError, Global};
use std::cmp::Reverse;
use std::collections::BinaryHeap;
use term_store::SharedBank;
use term_tree::Bank;

/// The most entries that a search adds to a log.
const MOST_MADE: usize = 600;

/// The most symbols at which a search looks: those of each clause that comes up, and again for each goal that it is held against.
const MOST_SEEN: u64 = 4_000_000;

/// A query of a protocol, and the log of its clauses.
#[derive(Clone, Copy)]
pub(crate) struct Searched<'a> {
    pub(crate) alloc: Global,
    pub(crate) protocol: &'a Protocol,
    pub(crate) query: u32,
    pub(crate) log: &'a Log,
    pub(crate) is_closed: bool,
}

/// A clause that concludes `bad`, whether it is solved, its features, and the number of its entry.
pub struct Goal {
    pub clause: Clause,
    pub is_solved: bool,
    pub features: Features,
    pub number: usize,
}

impl Drop for Goal {
    fn drop(self) {
        let Goal {
            clause,
            is_solved: _,
            features: _,
            number: _,
        } = self;
        drop(clause);
    }
}

/// The log with the entries that were made, the goals among them, which of these are still to be tried, the smallest first, and
/// the numbers of those in which an attack may be; and how many entries may still be made, and symbols be looked at.
#[derive(Drop)]
pub struct Found {
    pub log: PlainLog,
    pub goals: Vec<Goal>,
    pub due: BinaryHeap<(Reverse<u64>, Reverse<usize>)>,
    pub entries: Vec<usize>,
    pub room: usize,
    pub left: u64,
}

impl Found {
    /// Whether no more entries are made.
    pub(crate) fn is_full(&self) -> bool {
        self.room == 0 || self.left == 0
    }
}

/// The log as it is, with nothing found yet.
pub(crate) fn none_found(searched: &Searched<'_>, bank: &SharedBank) -> Result<Found, AllocError>
    requires { AreFit bank.now (clauses_of searched.now.log.now) }
    ensures { IfOk result (IsSound bank.now) }
{
    let alloc = searched.alloc;
    let log = read_log(alloc, bank, searched.log)?;
    Ok(Found {
        log,
        goals: Vec::new(alloc),
        due: BinaryHeap::new(alloc),
        entries: Vec::new(alloc),
        room: MOST_MADE,
        left: MOST_SEEN,
    })
}

impl Goal {
    /// Whether a clause of these features may have to be left out beside the goal, as far as features tell: one of an unsolved goal's
    /// instances; but of a solved goal only its like, since another derivation may lead to an attack where that of the goal doesn't.
    fn may_stand_for(&self, features: Features) -> bool {
        may_cover(self.features, features)
            && (!self.is_solved || may_cover(features, self.features))
    }
}

/// Whether one of the goals stands for the clause. What is left to be looked at falls by the clause's symbols for each goal that it is
/// held against.
fn is_covered(
    alloc: Global,
    bank: &SharedBank,
    goals: &[Goal],
    clause: &Clause,
    left: &mut u64,
) -> Result<bool, AllocError>
    requires goals { AreFitGoals bank.now goals.now }
    requires clause { IsFit bank.now clause.now }
{
    let own = features(bank, clause);
    let size = size_of(bank, clause);
    'each: for goal in goals {
        if !goal.may_stand_for(own) {
            continue;
        }
        *left = left.saturating_sub(size);
        if subsumes(alloc, bank, &goal.clause, clause)? {
            return Ok(true);
        }
    }
    Ok(false)
}

/// Adds a goal, which is still to be tried: the clause of the entry of that number.
pub(crate) fn add_goal(
    alloc: Global,
    bank: &SharedBank,
    found: &mut Found,
    clause: &Clause,
    number: usize,
) -> Result<(), AllocError>
    requires sound { IsSound bank.now found.old }
    requires clause { IsFit bank.now clause.now }
    ensures { OnOk result (IsSound bank.now found.new) }
{
    let place = found.goals.len();
    found
        .due
        .push((Reverse(size_of(bank, clause)), Reverse(place)))?;
    let copied = clause.copy(alloc)?;
    found.goals.push(Goal {
        clause: copied,
        is_solved: is_solved(bank, clause),
        features: features(bank, clause),
        number,
    })?;
    Ok(())
}

/// Puts an entry at the end of a log.
fn push_entry(log: &mut PlainLog, entry: PlainEntry) -> Result<(), AllocError>
    ensures { OnOk result (log.new ≡ log.old ++ entry ∷ []) }
{
    log.items.push(entry)?;
    Ok(())
}

/// Adds an entry and its goal.
fn add_entry(
    alloc: Global,
    bank: &SharedBank,
    found: &mut Found,
    clause: &Clause,
    origin: Origin,
) -> Result<(), AllocError>
    requires sound { IsSound bank.now found.old }
    requires clause { IsFit bank.now clause.now }
    ensures { OnOk result (IsSound bank.now found.new) }
{
    let plain = read_out(alloc, bank, clause)?;
    let entry = PlainEntry {
        clause: plain,
        origin,
        by: None,
    };
    push_entry(&mut found.log, entry)?;
    let number = found.log.items.len();
    add_goal(alloc, bank, found, clause, number)
}

/// Adds an entry of the clause and its goal, where there is room, and no goal stands for the clause.
pub(crate) fn add_new(
    alloc: Global,
    bank: &SharedBank,
    found: &mut Found,
    clause: &Clause,
    origin: Origin,
) -> Result<(), AllocError>
    requires sound { IsSound bank.now found.old }
    requires clause { IsFit bank.now clause.now }
    ensures { OnOk result (IsSound bank.now found.new) }
{
    if found.is_full() {
        return Ok(());
    }
    let mut left = found.left.saturating_sub(size_of(bank, clause));
    let is_old = is_covered(alloc, bank, &found.goals, clause, &mut left)?;
    found.left = left;
    if is_old {
        return Ok(());
    }
    found.room = found.room.saturating_sub(1);
    add_entry(alloc, bank, found, clause, origin)
}
