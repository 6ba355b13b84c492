//! Facts and clauses over any bank of terms, and over owned trees: copies, flat parts, sizes and norms
//! (Blanchet 2016, section 3.3.1).
#![tactic(auto)]

mod anchors;
mod bounds;
mod copies;
pub mod facts;
mod flat;
mod heads;
mod keys;
mod marks;
mod memo;
mod normal;
mod normality;
pub mod plain;
mod renumbering;
mod repeats;
mod same;
mod selectable;
mod size;
mod standing;
mod variables;

pub use crate::bounds::above_variables;
pub use crate::copies::{copy_into, read_out, read_term};
pub use crate::facts::{Clause, Clauses, Fact, Facts};
pub use crate::flat::{flatten, is_data_symbol};
pub use crate::heads::{Head, Parts};
pub use crate::normal::{Normal, kept_variables, norm};
pub use crate::normality::is_normal;
pub use crate::plain::{PlainClause, PlainFact, PlainFacts};
pub use crate::same::{is_among, same_fact};
pub use crate::selectable::{are_solved, is_selectable, is_variable_known};
pub use crate::size::{head_symbols, size_of, size_of_fact};
pub use crate::variables::variables_of;
pub use clause_diffs::{Diff, Diffs, Ids, PlainDiff, PlainDiffs, Tree, Trees};
pub use spec_derivations::norm_keeps_instances;
