//! The else branch of a `let`: where it begins, and the visit there (Blanchet 2016, section 3.3.2).
#![tactic(auto)]

pub mod otherwise;
