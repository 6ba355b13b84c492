//! One binding.

use term_tree::Id;

/// A variable, by its number, and the term that it is bound to.
#[derive(Clone, Copy, PartialEq, Eq, Debug)]
pub struct Bound {
    pub var: u32,
    pub id: Id,
}
