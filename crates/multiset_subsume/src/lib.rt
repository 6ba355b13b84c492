//! Subsumption of clauses by rows of positions (Blanchet 2016, section 3.3.1).
//!
//! Whether a row exists is NP-complete, as graph homomorphism is. The search asks whether one exists before it takes the
//! least position for each hypothesis. It places the hypothesis with the fewest positions first, or one of the largest
//! part where all have many, gives up where more hypotheses are left than positions for them, and asks at each step
//! whether the parts of loose hypotheses are there, and the constraints are kept, as far as their variables are bound.
//! Before all hypotheses are placed, and wherever the least position of one is looked for, parts that share no variable
//! but bound ones are asked for by themselves.
//! What stays exponential: pairs that encode a hard homomorphism, as the colouring of a dense graph with one colour too
//! few; parts that can each be placed, but not all of them, as cycles of three onto one cycle less; and parts that come
//! about only as variables are bound. `docs/PAIRS.md` has times.
#![tactic(auto)]

mod covering;
mod crowds;
mod ending;
mod holding;
mod linking;
mod loose;
mod parts;
mod quick;
pub mod row;
mod search;

pub use crate::covering::cover_row;
pub use crate::holding::row_holds;
pub use crate::row::Row;
pub use spec_derivations::subsumption_keeps_instances;
