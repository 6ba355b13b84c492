//! Certificates of queries, looked for by saturation with more general clauses.
//!
//! The search is no part of what is claimed: the checker of certificates accepts what it finds, or it isn't handed on. All clauses
//! stand in a pool, which keeps what resolution asks of them, and are named by their places there.
#![tactic(auto)]

mod certifying;
mod choosing;
mod fits;
pub mod found;
mod generalizing;
pub mod growth;
pub mod plans;
pub mod pool;
mod rows;
mod saturating;
mod stock;
mod task;
mod translating;

pub use crate::certifying::searched;
pub use crate::found::{ChosenCert, Failure, Found, Search, Trial};
pub use crate::growth::Growth;
pub use crate::plans::{Choice, DEFAULT_BUDGET, Plan};
pub use clause_generalize::{Cut, Links, Manner};
