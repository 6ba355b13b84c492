//! Rows about logs, entry by entry, and how they end.

pub mod rows;
mod saturated;
pub mod texts;
