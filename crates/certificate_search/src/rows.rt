//! The rows of a certificate whose clauses are closed.

ghost use Rattle.certificate_search.specs.Searched.{CanBeSearched};

use crate::found::ChosenCert;
use crate::pool::{Goal, Looks, Made, Pool};
use crate::stock::{Kept, may_subsume, pair_of, places_of};
use crate::task::Task;
use cert_form::{Cert, PlainClauses, Rows};
use std::alloc::{AllocError, Global};

/// The clauses of a certificate, and its rows so far.
#[derive(Drop)]
struct Writer<'a> {
    items: &'a [Kept],
    rows: Rows,
    goals: Rows,
}

/// No rows.
fn no_rows(alloc: Global) -> Rows {
    Rows {
        items: Vec::new(alloc),
    }
}

/// The row by which a clause of the certificate, of this number, subsumes the one at a place.
fn row_of(
    pool: &Pool,
    number: u32,
    one: &Kept,
    place: usize,
    looks: &Looks,
) -> Result<Option<Vec<u32>>, AllocError> {
    if !may_subsume(&one.looks, looks) {
        return Ok(None);
    }
    match pool.cover(one.place, place)? {
        None => Ok(None),
        Some(row) => {
            let mut numbers = row.items;
            numbers.insert(0, number)?;
            Ok(Some(numbers))
        }
    }
}

impl Writer<'_> {
    /// The first row that shows that one of the clauses subsumes the one at a place.
    fn first_row(&self, pool: &Pool, place: usize) -> Result<Option<Vec<u32>>, AllocError> {
        let Some(looks) = pool.looks(place) else {
            return Ok(None);
        };
        let mut number = 0u32;
        'each: for one in self.items {
            number = number.saturating_add(1);
            if let Some(row) = row_of(pool, number, one, place, &looks)? {
                return Ok(Some(row));
            }
        }
        Ok(None)
    }

    /// Adds the first row of each of the clauses at these places. Whether each has one.
    fn cover_all(&mut self, pool: &Pool, from: usize, to: usize) -> Result<bool, AllocError> {
        'each: for place in from..to {
            match self.first_row(pool, place)? {
                None => return Ok(false),
                Some(row) => self.rows.items.push(row)?,
            }
        }
        Ok(true)
    }

    /// Adds the rows of what a clause that rests gives with another on the hypothesis that is chosen of it. Whether all is covered.
    fn cover_pair(
        &mut self,
        pool: &mut Pool,
        resting: &Kept,
        other: &Kept,
    ) -> Result<bool, AllocError> {
        let Some(pair) = pair_of(resting, other) else {
            return Ok(true);
        };
        let before = pool.count();
        match pool.resolve(pair)? {
            Made::Large => Ok(false),
            Made::Clauses(_) => {
                let covered = self.cover_all(pool, before, pool.count())?;
                pool.cut(before);
                Ok(covered)
            }
        }
    }

    /// Adds the rows of what a clause gives with each other, if it rests. Whether all is covered.
    fn cover_resting(&mut self, pool: &mut Pool, resting: &Kept) -> Result<bool, AllocError> {
        'each: for other in self.items {
            if !self.cover_pair(pool, resting, other)? {
                return Ok(false);
            }
        }
        Ok(true)
    }

    /// Adds the rows of what all pairs give. Whether all is covered.
    fn cover_pairs(&mut self, pool: &mut Pool) -> Result<bool, AllocError> {
        'each: for resting in self.items {
            if !self.cover_resting(pool, resting)? {
                return Ok(false);
            }
        }
        Ok(true)
    }

    /// Adds the goal row of a clause, if it has to have one. Whether it has what it has to.
    fn add_goal(&mut self, pool: &Pool, task: &Task<'_>, one: &Kept) -> Result<bool, AllocError>
        requires { CanBeSearched task.now.search }
    {
        if one.chosen.is_some() {
            return Ok(true);
        }
        match pool.goal(one.place, &task.search)? {
            Goal::NotDue => Ok(true),
            Goal::Unmet => Ok(false),
            Goal::Met(row) => {
                let mut numbers = row.positions.items;
                numbers.insert(0, row.alternative)?;
                self.goals.items.push(numbers)?;
                Ok(true)
            }
        }
    }

    /// Adds the goal rows. Whether each clause has what it has to.
    fn add_goals(&mut self, pool: &Pool, task: &Task<'_>) -> Result<bool, AllocError>
        requires { CanBeSearched task.now.search }
    {
        'each: for one in self.items {
            if !self.add_goal(pool, task, one)? {
                return Ok(false);
            }
        }
        Ok(true)
    }

    /// Adds all rows, for the first clauses of the pool, so many. Whether each clause has what it has to, and all is covered.
    fn add_rows(
        &mut self,
        pool: &mut Pool,
        task: &Task<'_>,
        given: usize,
    ) -> Result<bool, AllocError>
        requires { CanBeSearched task.now.search }
    {
        if !self.add_goals(pool, task)? || !self.cover_all(pool, 0, given)? {
            return Ok(false);
        }
        self.cover_pairs(pool)
    }
}

/// What is said of a clause: the number of its hypothesis that is chosen, from 1, or 0 where it rests; nothing where selection says the
/// same.
fn said_of(pool: &Pool, one: &Kept) -> Option<usize> {
    let selected = pool.selected(one.place);
    match one.chosen {
        None => selected.map(|_| 0),
        Some(chosen) if selected == Some(chosen.at) => None,
        Some(chosen) => Some(chosen.at.saturating_add(1)),
    }
}

/// What is said of clauses: nothing at all where selection says the same of each.
fn said_of_all(alloc: Global, pool: &Pool, all: &[Kept]) -> Result<Vec<Option<usize>>, AllocError> {
    let mut said = Vec::with_capacity(alloc, all.len())?;
    let mut differs = false;
    'each: for one in all {
        let number = said_of(pool, one);
        differs = differs || number.is_some();
        said.push(number)?;
    }
    if !differs {
        said.truncate(0);
    }
    Ok(said)
}

/// These clauses over trees.
pub(crate) fn clauses_of(
    alloc: Global,
    pool: &Pool,
    all: &[Kept],
) -> Result<PlainClauses, AllocError> {
    let places = places_of(alloc, all)?;
    pool.read_all(&places)
}

/// The certificate of these clauses, for the first clauses of the pool, so many; none where they aren't closed over these, or don't show
/// the query.
pub(crate) fn cert_of(
    pool: &mut Pool,
    task: &Task<'_>,
    given: usize,
    live: &[Kept],
) -> Result<Option<ChosenCert>, AllocError>
    requires { CanBeSearched task.now.search }
{
    let alloc = task.search.alloc;
    let mut writer = Writer {
        items: live,
        rows: no_rows(alloc),
        goals: no_rows(alloc),
    };
    if !writer.add_rows(pool, task, given)? {
        return Ok(None);
    }
    let said = said_of_all(alloc, pool, live)?;
    let clauses = clauses_of(alloc, pool, live)?;
    Ok(Some(ChosenCert {
        cert: Cert {
            clauses,
            rows: writer.rows,
            goals: writer.goals,
        },
        said,
    }))
}
