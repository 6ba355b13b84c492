//! The stages of a certificate's check: the shapes of its clauses, the numbers beside them, the cover rows of clauses and of the pairs
//! of one that rests, and the goal rows of the clauses that conclude `bad`.
#![tactic(auto)]

mod arguments;
pub mod checker;
mod choosing;
pub mod closing;
mod covering;
mod lowering;
mod satisfying;
mod shaping;
pub mod shown;
pub mod unsolved;

pub use crate::arguments::goal_arguments;
pub use crate::checker::Checker;
pub use crate::choosing::{first_wrong, numbers_for};
pub use crate::closing::close_one;
pub use crate::covering::are_covered;
pub use crate::lowering::{are_unconstrained, low_clauses};
pub use crate::satisfying::are_satisfied;
pub use crate::shaping::{copied, first_misshapen};
pub use crate::shown::{Closed, Shown};
pub use crate::unsolved::{Unsolved, unsolved_ones};
