//! What a visit of a process of each form adds to the clauses, and the visits below it (Blanchet 2016, section 3.3.2).
#![tactic(auto)]

mod channels;
pub mod copies;
pub mod events;
pub mod forms;
pub mod gets;
pub mod inputs;
pub mod inserts;
pub mod labels;
pub mod large;
pub mod listing;
pub mod names;
pub mod outputs;
pub mod phases;
mod raw;
