//! Where a search gives up. Nothing rests on these numbers but the time that a search takes.

/// The most entries of which an attack is looked for.
pub(crate) const MOST_CANDIDATES: usize = 40;

/// The most instances of an entry that are tried.
pub(crate) const MOST_INSTANCES: usize = 2_000;

/// The most steps of a run that is replayed.
pub(crate) const MOST_REPLAYED: usize = 100_000;
