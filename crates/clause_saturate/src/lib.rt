//! Saturation of clauses: the log of given clauses and a budget, and how it ends (Blanchet 2001, section 4). Up to the goal it is
//! done once, and from there for each goal.
#![tactic(auto)]

ghost use Rattle.std.specs.Prelude.{List, ℕ};
ghost use Rattle.spec_terms.specs.Term.{Term};
ghost use Rattle.spec_clauses.specs.Fact.{Clause as ClauseOf};
ghost use Rattle.spec_saturation.specs.Common.{with_goal};
ghost use Rattle.term_tree.specs.Bank.{Grows};
ghost use Rattle.log_entries.specs.declared.log.Entry.{Entry as ToldEntry};
ghost use Rattle.clause_saturate.specs.declared.common.Common.{Common as HeldCommon};
ghost use Rattle.log_entries.specs.Logs.{IsSpentLog, IsLargeLog};
ghost use Rattle.clause_saturate.specs.Common.{Shared, IsCommonOf, IsSpentCommon, IsLargeCommon};

pub mod common;
mod sharing;

pub use crate::common::{Begun, Common, End};
pub use crate::sharing::{begin, finish, rewind};
pub use log_entries::{
    Entry, Log, Origin, PlainEntry, PlainLog, Saturated, entries_tell_logs, read_entry, read_log,
};
pub use log_walks::saturate;
pub use spec_saturation::{logs_have_the_common_part, one_common_log, one_log};

/// What a `Common` holds it holds as the bank grows. Where `begin` ends before the goal, its log is that with each goal.
pub fn commons_serve_each_goal()
    ensures grown { (old new : List Term) (shared : Shared) (common : HeldCommon) →
        Grows old new → IsCommonOf old shared common → IsCommonOf new shared common }
    ensures spent { (all : List Term) (shared : Shared) (goal : ClauseOf Term)
        (entries : List ToldEntry) (due : ToldEntry) → IsSpentCommon all shared entries due →
        IsSpentLog all (with_goal shared.clauses goal) shared.budget entries due }
    ensures large { (all : List Term) (shared : Shared) (goal : ClauseOf Term)
        (entries : List ToldEntry) (solved unsolved : ℕ) →
        IsLargeCommon all shared entries solved unsolved →
        IsLargeLog all (with_goal shared.clauses goal) shared.budget entries solved unsolved }
{}
