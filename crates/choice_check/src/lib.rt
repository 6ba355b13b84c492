//! The check of a report whose certificates are of any format, also of the third, which says of some clauses what is chosen of them.
#![tactic(auto)]

mod checking;
pub mod reading;

pub use crate::checking::check_text;
