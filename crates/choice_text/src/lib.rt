//! The text of reports of format 3, which say of some clauses what is chosen of them: taken apart into a text of format 2 and the
//! choices, and made of these.
#![tactic(auto)]

mod cutting;
pub mod parts;
pub mod place;
pub mod reading;
pub mod splitting;
mod writing;

pub use crate::parts::{Fault, Refusal, Said, Split};
pub use crate::splitting::{line_before, split};
pub use crate::writing::put_choices;
