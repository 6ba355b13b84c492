//! What rows show.

/// What rows show of clauses.
#[derive(Clone, Copy)]
pub enum Shown {
    /// Each clause is shown by a row, and the rows from this place on are left.
    All(usize),
    /// The clause of this number, from 1, is the first that the next row doesn't show.
    Except(u64),
}

/// A pair of clauses that rows leave open: the number of the solved clause, that of the unsolved one, and that of the first
/// resolvent that isn't covered, each from 1; the last is 0 where the pair is large.
#[derive(Clone, Copy)]
pub struct OpenPair {
    pub solved: u64,
    pub unsolved: u64,
    pub resolvent: u64,
}

/// What rows show of pairs of clauses.
#[derive(Clone, Copy)]
pub enum Closed {
    /// The resolvents of each pair are covered, and the rows from this place on are left.
    All(usize),
    /// This is the first pair of which they aren't.
    Except(OpenPair),
}
