//! Constraints of clauses over any bank of terms, and over owned trees: lists of terms that are not to be equal, whatever
//! stands for the variables that a constraint binds (Blanchet, Abadi and Fournet 2008, section 5).
#![tactic(auto)]

pub mod diffs;
pub mod ids;
mod keeping;
mod meeting;
mod needless;
pub mod numbers;
pub mod plain;
mod same;
mod size;
mod tests;
mod tidying;
mod variables;

pub use crate::diffs::{Diff, Diffs};
pub use crate::ids::Ids;
pub use crate::keeping::{are_needed, are_tidied};
pub use crate::meeting::unify_lists;
pub use crate::needless::needed;
pub use crate::numbers::{Counts, Order, distinct_of};
pub use crate::plain::{PlainDiff, PlainDiffs, Tree, Trees};
pub use crate::same::{is_among_diffs, is_same_side, same_diff};
pub use crate::size::{add_symbols, size_of_diffs, size_of_terms};
pub use crate::tests::{can_be_equal, is_never_met, is_void};
pub use crate::tidying::tidied;
pub use crate::variables::{
    add_terms_variables, add_variables, bound_variables, numbers_below, numbers_from, own_variables,
};
