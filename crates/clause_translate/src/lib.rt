//! The translation of a protocol and a query into clauses (Blanchet 2016, section 3.3).
#![tactic(auto)]

mod branches;
mod origins;
mod runs;
mod visits;
mod whole;

pub use crate::origins::sources;
pub use crate::runs::translations_abstract_runs;
pub use crate::whole::{Translated, translate, translate_common, with_goal};
