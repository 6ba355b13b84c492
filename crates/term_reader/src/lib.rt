//! A reader of the texts of terms, and of the words and numbers in texts.
#![tactic(auto)]

mod classes;
mod reading;
mod state;
mod steps;
mod words;

pub use crate::classes::{begins_word, behind_first, is_in_word, is_variable, with_parts};
pub use crate::reading::{Read, read_term, term_at};
pub use crate::state::Code;
pub use crate::steps::FIRST_BOUND;
pub use crate::words::{CalledEvent, Named, Names, has_few_names};
