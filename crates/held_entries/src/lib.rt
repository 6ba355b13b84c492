//! Entries of tables, and which of them a `get` may take (Blanchet, Smyth, Cheval and Sylvestre, the manual of ProVerif:
//! tables).
#![tactic(auto)]

pub mod entries;
pub mod keys;
pub mod wanted;

pub use crate::entries::{Entries, Held};
pub use crate::wanted::{Wanted, some_large_side};
