//! The choice of the hypothesis on which a clause is resolved, or that it rests.

use crate::plans::Choice;
use crate::pool::{Candidate, Pair, Pool};
use clause_form::PlainClause;
use std::alloc::{AllocError, Global};

/// How hypotheses are chosen in saturations.
#[derive(Drop)]
pub(crate) struct Chooser {
    alloc: Global,
    choice: Choice,
    /// The places in the pool of clauses without hypotheses, each of which concludes a fact that is avoided.
    avoided: Vec<usize>,
}

/// The first of the largest hypotheses.
fn first_of_largest(candidates: &[Candidate]) -> Option<Candidate> {
    let mut best = None;
    'each: for one in candidates {
        best = larger(best, *one);
    }
    best
}

/// The larger hypothesis; of two of one size the first.
fn larger(first: Option<Candidate>, second: Candidate) -> Option<Candidate> {
    match first {
        Some(found) if found.size >= second.size => Some(found),
        _ => Some(second),
    }
}

/// Turns a clause into the one that concludes its hypothesis at a place and has none. Whether there is one at that place.
fn leave_alone(alloc: Global, clause: &mut PlainClause, at: usize) -> bool {
    if at >= clause.hyps.items.len() {
        return false;
    }
    clause.concl = clause.hyps.items.remove(at);
    clause.hyps.items = Vec::new(alloc);
    clause.diffs.items = Vec::new(alloc);
    true
}

impl Chooser {
    /// A chooser that avoids nothing yet.
    pub(crate) fn new(alloc: Global, choice: Choice) -> Chooser {
        Chooser {
            alloc,
            choice,
            avoided: Vec::new(alloc),
        }
    }

    /// How many facts are avoided.
    pub(crate) fn avoided(&self) -> usize {
        self.avoided.len()
    }

    /// How many symbols a choice looks at in a clause of so many.
    pub(crate) fn symbols(&self, size: u64) -> u64 {
        match self.choice {
            Choice::Selected => 0,
            Choice::Avoiding => size.saturating_mul(self.avoided.len() as u64 + 1),
        }
    }

    /// Whether one of the facts that are avoided is as general as what the clause at a place concludes.
    fn is_avoided(&self, pool: &Pool, place: usize) -> Result<bool, AllocError> {
        'each: for avoided in &self.avoided {
            if pool.cover(*avoided, place)?.is_some() {
                return Ok(true);
            }
        }
        Ok(false)
    }

    /// The place in the pool of the clause that concludes a hypothesis of the one at a place, and has none.
    fn place_alone(
        &self,
        pool: &mut Pool,
        place: usize,
        at: usize,
    ) -> Result<Option<usize>, AllocError> {
        let Some(mut clause) = pool.read(place)? else {
            return Ok(None);
        };
        if !leave_alone(self.alloc, &mut clause, at) {
            return Ok(None);
        }
        pool.add(&clause)
    }

    /// Avoids a hypothesis of the clause at a place from now on, unless a fact as general is avoided: what unifies with the hypothesis
    /// unifies with that.
    fn avoid(&mut self, pool: &mut Pool, place: usize, at: usize) -> Result<(), AllocError> {
        let Some(made) = self.place_alone(pool, place, at)? else {
            return Ok(());
        };
        if self.is_avoided(pool, made)? {
            pool.cut(made);
            return Ok(());
        }
        self.avoided.push(made)?;
        Ok(())
    }

    /// Avoids each of these hypotheses of the clause at a place that its own conclusion unifies with. Whether there are any.
    fn avoid_own(
        &mut self,
        pool: &mut Pool,
        place: usize,
        candidates: &[Candidate],
    ) -> Result<bool, AllocError> {
        let mut any = false;
        'each: for one in candidates {
            let own = Pair {
                resting: place,
                other: place,
                at: one.at,
            };
            if pool.meets(own)? {
                any = true;
                self.avoid(pool, place, one.at)?;
            }
        }
        Ok(any)
    }

    /// Whether a hypothesis of the clause at a place unifies with none of the facts that are avoided.
    fn is_free(&self, pool: &mut Pool, place: usize, at: usize) -> Result<bool, AllocError> {
        'each: for avoided in &self.avoided {
            let pair = Pair {
                resting: *avoided,
                other: place,
                at,
            };
            if pool.meets(pair)? {
                return Ok(false);
            }
        }
        Ok(true)
    }

    /// Those of the hypotheses of the clause at a place that unify with no fact that is avoided.
    fn free(
        &self,
        pool: &mut Pool,
        place: usize,
        candidates: &[Candidate],
    ) -> Result<Vec<Candidate>, AllocError> {
        let mut free = Vec::new(self.alloc);
        'each: for one in candidates {
            if self.is_free(pool, place, one.at)? {
                free.push(*one)?;
            }
        }
        Ok(free)
    }

    /// What is chosen of the clause at a place by what is avoided.
    fn avoiding(
        &mut self,
        pool: &mut Pool,
        place: usize,
        candidates: &[Candidate],
    ) -> Result<Option<Candidate>, AllocError> {
        let may_rest = pool.may_rest(place);
        if may_rest && self.avoid_own(pool, place, candidates)? {
            return Ok(None);
        }
        let free = self.free(pool, place, candidates)?;
        if may_rest || !free.is_empty() {
            return Ok(first_of_largest(&free));
        }
        Ok(first_of_largest(candidates))
    }

    /// The hypothesis of the clause at a place that is chosen; none where it rests.
    pub(crate) fn chosen(
        &mut self,
        pool: &mut Pool,
        place: usize,
    ) -> Result<Option<Candidate>, AllocError> {
        let candidates = pool.candidates(place)?;
        match self.choice {
            Choice::Selected => Ok(first_of_largest(&candidates)),
            Choice::Avoiding => self.avoiding(pool, place, &candidates),
        }
    }
}
