//! Rows about the texts of certificates and reports, and what comes of reading them.

mod lines;
mod reading;
mod rows;
pub mod settings;
mod texts;
