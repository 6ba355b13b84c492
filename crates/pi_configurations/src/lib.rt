//! Configurations of runs (Blanchet 2016, section 2.2): their threads, what the attacker knows, their events and entries.
#![tactic(auto)]

pub mod changes;
pub mod configurations;
pub mod happenings;
mod hashes;
pub mod knowing;
pub mod known;
pub mod threads;
