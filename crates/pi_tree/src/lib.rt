//! Protocols as trees: their names, processes and queries within the limits, seen by contracts as the
//! calculus's plain data.
#![tactic(auto)]

pub mod accessors;
pub mod destructors;
pub mod expressions;
pub mod names;
pub mod points;
pub mod protocols;
pub mod slots;
pub mod syntax;
pub mod value_trees;

pub use crate::accessors::Kind;
pub use crate::destructors::{Dtor, Dtors, Rule, Rules};
pub use crate::expressions::{Expr, Exprs};
pub use crate::names::{Declarations, Declared, Word};
pub use crate::protocols::{Alternatives, Protocol, Queries, Query, is_absent};
pub use crate::slots::Slot;
pub use crate::syntax::{Atom, Atoms, Pat, Pats, Process, Term, Terms};
pub use crate::value_trees::{Value, Values};
pub use limits::{
    MOST_ALTERNATIVES, MOST_APPLICATIONS, MOST_ARGUMENTS, MOST_BUDGET, MOST_BYTES, MOST_CHOICES,
    MOST_CLAUSES, MOST_DIGITS, MOST_EVENTS, MOST_KEYS, MOST_LEVELS, MOST_LINE_BYTES, MOST_NAMES,
    MOST_PHASES, MOST_POINTS, MOST_POINTS_ABOVE, MOST_QUERIES, MOST_REPORT_BYTES, MOST_RULES,
    MOST_RUN_BYTES, MOST_SYMBOLS, MOST_TERM_LEVELS, MOST_VISITS, MOST_WRITTEN_SYMBOLS,
    limits_are_named,
};
