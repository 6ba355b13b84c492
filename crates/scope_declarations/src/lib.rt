//! The rules of scope for what a file declares: names, and the terms and events of rules.
//!
//! The rules are defined in the crate `protocol_scope`; those of processes and queries stand in `scope_check`.
#![tactic(auto)]

pub mod bound;
pub mod declarations;
pub mod leaves;
pub mod names;
pub mod place;
pub mod scope;
pub mod source;
pub mod stop;
pub mod terms;
pub mod text;
pub mod variables;
