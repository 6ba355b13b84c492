//! More general clauses in place of clauses: a saturation of these ends where that of the clauses themselves doesn't.
//!
//! What is proved with more general clauses is proved, and what isn't may hold: so each step may be taken or left. It is for the
//! caller to take one only where its result subsumes the clause. Nothing is claimed of the steps, which work on owned trees.
#![tactic(auto)]

pub mod asked;
mod changing;
mod cutting;
mod events;
mod links;
pub mod manner;
mod naming;
pub mod stepping;
mod trees;

pub use crate::asked::{Asked, asked_by};
pub use crate::manner::{Cut, Links, Manner};
pub use crate::stepping::{STEPS, Step, stepped};
