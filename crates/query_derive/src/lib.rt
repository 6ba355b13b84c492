//! What is derived from a query: the goal clause, and which clauses satisfy a correspondence
//! (Blanchet 2016, section 3.2).
#![tactic(auto)]

ghost use Rattle.std.specs.Prelude.{◌≡◌, ◌↔◌, ℕ, List};
ghost use Rattle.spec_calculus.specs.Syntax.{Query, Protocol};
ghost use Rattle.spec_terms.specs.Term.{Term};
ghost use Rattle.spec_clauses.specs.Fact.{Clause};
ghost use Rattle.spec_certificates.specs.Certificate.{GoalHolds};
ghost use Rattle.spec_translation.specs.Satisfied.{IsSatisfied};
ghost use Rattle.query_derive.specs.GoalRows.{IsFirstGoalRow};

mod goal;
mod matching;
mod placing;
pub mod rows;
mod satisfying;
mod wanted;

pub use crate::goal::{goal_clause, raw_goal_clause};
pub use crate::rows::{Positions, QueryRow};
pub use crate::satisfying::{query_row_holds, satisfies};

/// A clause satisfies a query exactly where some goal row holds, and one row at most is the first.
pub fn rows_show_satisfaction()
    ensures rows { (P : Protocol) (q : Query) (c : Clause Term) →
        IsSatisfied P q c ↔ ((row : List ℕ) × GoalHolds P q row c) }
    ensures first { (P : Protocol) (q : Query) (c : Clause Term) (row other : List ℕ) →
        IsFirstGoalRow P q c row → IsFirstGoalRow P q c other → row ≡ other }
{}
