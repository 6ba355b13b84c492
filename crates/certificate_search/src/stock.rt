//! The clauses of a saturation: those that are kept, and those that wait.

use crate::pool::{Candidate, Looks, Pair, Pool};
use fact_fingerprint::may_meet;
use feature_index::may_cover;
use std::alloc::{AllocError, Global};
use std::cmp::Reverse;
use std::collections::BinaryHeap;

/// A clause that is kept, by its place in the pool.
#[derive(Clone, Copy)]
pub(crate) struct Kept {
    pub place: usize,
    pub looks: Looks,
    /// The hypothesis on which it is resolved; none where it rests.
    pub chosen: Option<Candidate>,
    /// Whether no later clause subsumes it.
    pub is_live: bool,
}

/// A clause that waits or has waited, by its place in the pool.
#[derive(Clone, Copy)]
pub(crate) struct Waiting {
    pub place: usize,
    pub size: u64,
    /// The numbers, from 0, of the kept clauses that it is a resolvent of.
    pub parents: Option<(usize, usize)>,
}

/// The clauses of a saturation, in the order in which they came.
#[derive(Drop)]
pub(crate) struct Stock {
    pub kept: Vec<Kept>,
    /// Those that wait, and behind them those that waited.
    waiting: Vec<Waiting>,
    /// Which of these wait: the smallest first, and of those of one size the first.
    due: BinaryHeap<(Reverse<u64>, Reverse<usize>)>,
    /// How many symbols may still be looked at.
    left: u64,
}

/// Whether a clause with these looks may subsume one with those.
pub(crate) fn may_subsume(general: &Looks, special: &Looks) -> bool {
    may_cover(general.features, special.features)
        && may_meet(&general.conclusion, &special.conclusion)
}

/// Two clauses, where they may be resolved, since the first rests, and its conclusion may unify with the hypothesis that is chosen of the
/// second.
pub(crate) fn pair_of(resting: &Kept, other: &Kept) -> Option<Pair> {
    let chosen = other.chosen?;
    if resting.chosen.is_some() || !may_meet(&resting.looks.conclusion, &chosen.fingerprint) {
        return None;
    }
    Some(Pair {
        resting: resting.place,
        other: other.place,
        at: chosen.at,
    })
}

/// The places in the pool of clauses, in order.
pub(crate) fn places_of(alloc: Global, all: &[Kept]) -> Result<Vec<usize>, AllocError> {
    let mut places = Vec::with_capacity(alloc, all.len())?;
    'each: for kept in all {
        places.push(kept.place)?;
    }
    Ok(places)
}

/// Whether a kept clause is live and subsumes the one at a place.
fn covers_one(
    pool: &Pool,
    kept: &Kept,
    place: usize,
    looks: &Looks,
    left: &mut u64,
) -> Result<bool, AllocError> {
    *left = left.saturating_sub(1);
    if !kept.is_live || !may_subsume(&kept.looks, looks) {
        return Ok(false);
    }
    *left = left.saturating_sub(looks.size);
    let row = pool.cover(kept.place, place)?;
    Ok(row.is_some())
}

/// Whether one of the kept clauses is live and subsumes the one at a place. What is left falls by one for each, and by the
/// clause's symbols for each that it is held against.
fn covers_any(
    pool: &Pool,
    all: &[Kept],
    place: usize,
    looks: &Looks,
    left: &mut u64,
) -> Result<bool, AllocError> {
    'each: for kept in all {
        if covers_one(pool, kept, place, looks, left)? {
            return Ok(true);
        }
    }
    Ok(false)
}

/// Ends a kept clause where the clause at a place subsumes it.
fn end_one(
    pool: &Pool,
    kept: &mut Kept,
    place: usize,
    looks: &Looks,
    left: &mut u64,
) -> Result<(), AllocError> {
    *left = left.saturating_sub(1);
    if !kept.is_live || !may_subsume(looks, &kept.looks) {
        return Ok(());
    }
    *left = left.saturating_sub(kept.looks.size);
    let row = pool.cover(place, kept.place)?;
    kept.is_live = row.is_none();
    Ok(())
}

/// Ends those of the kept clauses that the clause at a place subsumes.
fn end_all(
    pool: &Pool,
    all: &mut [Kept],
    place: usize,
    looks: &Looks,
    left: &mut u64,
) -> Result<(), AllocError> {
    'each: for kept in all {
        end_one(pool, kept, place, looks, left)?;
    }
    Ok(())
}

impl Stock {
    /// No clauses, for a saturation that may look at so many symbols.
    pub(crate) fn new(alloc: Global, left: u64) -> Stock {
        Stock {
            kept: Vec::new(alloc),
            waiting: Vec::new(alloc),
            due: BinaryHeap::new(alloc),
            left,
        }
    }

    /// Notes that so many symbols were looked at.
    pub(crate) fn spend(&mut self, symbols: u64) {
        self.left = self.left.saturating_sub(symbols);
    }

    /// Whether no more symbols may be looked at.
    pub(crate) fn is_spent(&self) -> bool {
        self.left == 0
    }

    /// Whether the kept clause of a number is live.
    fn is_live(&self, number: usize) -> bool {
        match self.kept.get(number) {
            None => false,
            Some(kept) => kept.is_live,
        }
    }

    /// Whether a clause is a resolvent of live clauses, or of none.
    pub(crate) fn has_live_parents(&self, waiting: &Waiting) -> bool {
        match waiting.parents {
            None => true,
            Some((resting, other)) => self.is_live(resting) && self.is_live(other),
        }
    }

    /// Takes the first of the smallest clauses that wait.
    pub(crate) fn take_smallest(&mut self) -> Option<Waiting> {
        let (_, Reverse(number)) = self.due.pop()?;
        self.waiting.get(number).copied()
    }

    /// Whether a live clause subsumes the one at a place, which looks so.
    fn covers_looks(
        &mut self,
        pool: &Pool,
        place: usize,
        looks: &Looks,
    ) -> Result<bool, AllocError> {
        let mut left = self.left;
        let covered = covers_any(pool, &self.kept, place, looks, &mut left)?;
        self.left = left;
        Ok(covered)
    }

    /// Whether a live clause subsumes the one at a place.
    pub(crate) fn covers(&mut self, pool: &Pool, place: usize) -> Result<bool, AllocError> {
        let Some(looks) = pool.looks(place) else {
            return Ok(true);
        };
        self.covers_looks(pool, place, &looks)
    }

    /// Lets the clause at a place wait, unless a live one subsumes it. Whether it waits.
    pub(crate) fn wait(
        &mut self,
        pool: &Pool,
        place: usize,
        parents: Option<(usize, usize)>,
    ) -> Result<bool, AllocError> {
        let Some(looks) = pool.looks(place) else {
            return Ok(false);
        };
        let size = looks.size;
        self.spend(size);
        if self.covers_looks(pool, place, &looks)? {
            return Ok(false);
        }
        self.due.push((Reverse(size), Reverse(self.waiting.len())))?;
        self.waiting.push(Waiting {
            place,
            size,
            parents,
        })?;
        Ok(true)
    }

    /// Keeps the clause at a place, of which this is chosen. Those that it subsumes are live no more.
    pub(crate) fn keep(
        &mut self,
        pool: &Pool,
        place: usize,
        chosen: Option<Candidate>,
    ) -> Result<(), AllocError> {
        let Some(looks) = pool.looks(place) else {
            return Ok(());
        };
        let mut left = self.left;
        end_all(pool, &mut self.kept, place, &looks, &mut left)?;
        self.left = left;
        self.kept.push(Kept {
            place,
            looks,
            chosen,
            is_live: true,
        })?;
        Ok(())
    }

    /// The kept clauses of two numbers, where they are live and may be resolved, since the first rests, and its conclusion may unify with
    /// the hypothesis that is chosen of the second. This spends their symbols.
    pub(crate) fn pair(&mut self, resting: usize, other: usize) -> Option<Pair> {
        let first = self.kept.get(resting).copied()?;
        let second = self.kept.get(other).copied()?;
        if !first.is_live || !second.is_live {
            return None;
        }
        let pair = pair_of(&first, &second)?;
        self.spend(first.looks.size.saturating_add(second.looks.size));
        Some(pair)
    }

    /// The live clauses of so many symbols at most, in order.
    pub(crate) fn live(&self, alloc: Global, most: u64) -> Result<Vec<Kept>, AllocError> {
        let mut live = Vec::new(alloc);
        'each: for kept in &self.kept {
            if kept.is_live && kept.looks.size <= most {
                live.push(*kept)?;
            }
        }
        Ok(live)
    }
}
