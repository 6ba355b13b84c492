//! A more general clause in the place of one.

use crate::pool::Pool;
use crate::task::Task;
use clause_form::PlainClause;
use clause_generalize::{STEPS, Step, stepped};
use std::alloc::AllocError;

/// The most symbols of a clause that is made more general.
pub(crate) const MOST_CHANGED: u64 = 500;

/// How many symbols the steps look at in a clause of so many: they compare its terms with each other.
pub(crate) fn symbols_of_steps(size: u64) -> u64 {
    size.saturating_mul(size) / 4
}

/// The place of the norm of a clause, where it subsumes the special one, and doesn't say that the attacker has everything.
fn accepted(
    pool: &mut Pool,
    special: usize,
    made: &PlainClause,
) -> Result<Option<usize>, AllocError> {
    let Some(place) = pool.add(made)? else {
        return Ok(None);
    };
    if pool.gives_everything(place) || pool.cover(place, special)?.is_none() {
        pool.cut(place);
        return Ok(None);
    }
    Ok(Some(place))
}

/// The place of the first of these clauses that may stand in the place of the special one; else that so far.
fn first_accepted(
    pool: &mut Pool,
    special: usize,
    so_far: usize,
    steps: &[PlainClause],
) -> Result<usize, AllocError> {
    'each: for made in steps {
        if let Some(place) = accepted(pool, special, made)? {
            return Ok(place);
        }
    }
    Ok(so_far)
}

/// The place of a clause that is more general than the special one, by one more step, where this may be taken.
fn taken(
    pool: &mut Pool,
    task: &Task<'_>,
    special: usize,
    so_far: usize,
    step: Step,
) -> Result<usize, AllocError> {
    let Some(plain) = pool.read(so_far)? else {
        return Ok(so_far);
    };
    let steps = stepped(
        task.search.alloc,
        task.asked,
        &task.plan.manner,
        step,
        &plain,
    )?;
    first_accepted(pool, special, so_far, &steps)
}

/// The place of a clause that is more general than that at a place, or is it: by steps that are taken only where the result
/// subsumes that clause, and doesn't say that the attacker has everything.
pub(crate) fn generalized(
    pool: &mut Pool,
    task: &Task<'_>,
    special: usize,
) -> Result<usize, AllocError> {
    let mut place = special;
    'each: for step in STEPS {
        place = taken(pool, task, special, place, step)?;
    }
    Ok(place)
}
