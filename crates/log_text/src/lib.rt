//! The log of a query's saturation as text: its entries with their origins, which are live, which subsumed which; of a log that
//! doesn't close the largest clauses, the chain of resolvents that leads to what was due, and what is derived of the goal; the derivation of an entry from the clauses
//! of the translation, and where the compilation of its instances to a run stops (the reconstruction of attacks from derivations:
//! Allamigeon and Blanchet 2005).
#![tactic(auto)]

mod chain;
mod columns;
mod entries;
mod goals;
mod lines;
mod paths;
mod refusing;
mod spelling;
pub mod stops;
pub mod told;
pub mod tree;
mod tree_lines;
mod uses;

pub use crate::goals::put_goals;
pub use crate::lines::put_log;
pub use crate::spelling::Setting;
pub use crate::stops::{Stop, Stopped, put_stop};
pub use crate::told::{LogEnd, QueryLog, Told};
pub use crate::tree::{
    Derivation, Line, MOST_LINES, Part, derivations_are_whole, entry_derivation,
};
pub use crate::tree_lines::put_derivation;
