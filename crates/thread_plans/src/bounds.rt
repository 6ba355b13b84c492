//! Where a plan, or the try to carry it out, is given up. Nothing rests on these numbers but the time that it takes.

/// The most nodes of a plan.
pub(crate) const MOST_NODES: usize = 10_000;

/// The most copies of one number that a plan has beside the first.
pub(crate) const MOST_TWINS: u32 = 4;

/// The most steps of a run that is tried.
pub(crate) const MOST_STEPS: u64 = 5_000;

/// The most values whose parts are taken in a run that is tried.
pub(crate) const MOST_KNOWN: usize = 10_000;

/// The most rounds of a run that is tried.
pub(crate) const MOST_ROUNDS: usize = 2_000;

/// The most nodes that a thread passes on its way to an input at which it listens.
pub(crate) const MOST_PASSED: usize = 100;
