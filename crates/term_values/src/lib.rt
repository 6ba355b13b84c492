//! Values of terms, and what patterns bind (Blanchet 2016, sections 2.1 and 2.2): environments, matching, the
//! values of what a `let` evaluates, and sizes against the limit.
#![tactic(auto)]

pub mod bindings;
pub mod environments;
pub mod evaluation;
pub mod instructions;
pub mod labels;
pub mod matching;
pub mod rules;
pub mod searching;
pub mod sizes;
pub mod trials;

pub use crate::bindings::Bound;
pub use crate::environments::Environment;
pub use crate::evaluation::{are_values_of, evaluate, evaluate_all, evaluate_shared, is_value_of};
pub use crate::instructions::{Instruction, list_instructions};
pub use crate::labels::{Context, Valued, value_at};
pub use crate::matching::{matched, matched_row, matched_shared};
pub use crate::rules::{rules_of, value_by_rule};
pub use crate::searching::some_value_matches;
pub use crate::sizes::{is_large, is_large_term, some_large_at};
pub use crate::trials::some_large_tried;
