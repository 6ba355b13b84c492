//! A bank of terms in which equal trees have equal ids.
#![tactic(auto)]

pub mod measure;
pub mod shape;
pub mod shared_bank;

pub use shape::INLINE_ARGS;
pub use shared_bank::{FOUND_ARGS, SharedBank};
