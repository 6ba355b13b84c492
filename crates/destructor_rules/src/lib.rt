//! Rules of destructors on values (Blanchet 2016, section 2.1).
#![tactic(auto)]

mod bindings;
pub mod equality;
mod instances;
mod renaming;
pub mod rules;
mod widths;

pub use crate::equality::{are_same, is_same};
pub use crate::renaming::rename_rule;
pub use crate::rules::rule_value;
pub use crate::widths::rule_width;
