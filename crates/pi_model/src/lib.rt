//! Runs of a protocol beside an attacker (Blanchet 2016, sections 2 and 3): their steps, and laws that hold
//! of all of them, by the definitions of the crate `calculus`.
#![tactic(auto)]

pub mod application;
mod attacker;
mod choices;
pub mod errors;
mod knowledge;
pub mod laws;
mod phases;
mod processes;
mod receiving;
mod running;
mod standing;
pub mod steps;
mod tables;

pub use crate::application::apply;
pub use crate::errors::{ApplyError, StepError};
pub use crate::laws::{
    absence_is_secrecy, equality_is_decided, knowledge_is_closed, made_names_are_new,
    patterns_match_in_one_way, refusals_are_exact, rules_give_instances, steps_only_add,
};
pub use crate::steps::{Numbers, Step};
pub use held_entries::{Entries, Held};
pub use pi_configurations::configurations::{Conf, start};
pub use pi_configurations::happenings::{Happened, Happenings};
pub use pi_configurations::known::Known;
pub use pi_configurations::threads::{Thread, Threads};
pub use pi_tree::Slot;
pub use query_violations::violated;
pub use term_values::Environment;
