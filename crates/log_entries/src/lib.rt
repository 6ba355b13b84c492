//! Entries of logs, and what is kept beside them: the numbers of the live ones, and what tells which of them a clause subsumes.
#![tactic(auto)]

ghost use Rattle.std.specs.Prelude.{List};
ghost use Rattle.spec_terms.specs.Term.{Term};
ghost use Rattle.spec_saturation.specs.Key.{Entry as OfferedEntry};
ghost use Rattle.spec_saturation.specs.Live.{AreLive};
ghost use Rattle.term_tree.specs.Bank.{Grows};
ghost use Rattle.clause_form.specs.Seen.{AreClausesIn};
ghost use Rattle.log_entries.specs.declared.log.Entry.{Entry as ToldEntry};
ghost use Rattle.log_entries.specs.Logs.{TellLog, live_clauses};
ghost use Rattle.log_entries.specs.Beating.{clauses_of};

mod beating;
pub mod chains;
mod ends;
mod lists;
pub mod log;
mod reading;
pub mod walk;

pub use crate::beating::{mark_items, subsumes};
pub use crate::ends::{closed_end, ending, shared_end};
pub use crate::lists::{drop_all, is_live, list, list_end};
pub use crate::log::{Entry, Log, Origin, PlainEntry, PlainLog, Saturated};
pub use crate::reading::{read_entry, read_log};
pub use crate::walk::{Live, Looks, Offer, Walk};

/// Entries that tell a log name trees, and tell it as the bank grows. Those that no later one is told to subsume have
/// the log's live clauses, in order.
pub fn entries_tell_logs()
    ensures known { (all : List Term) (entries : List ToldEntry) (log : List OfferedEntry) →
        TellLog all entries log → AreClausesIn all (clauses_of entries) }
    ensures grown { (old new : List Term) (entries : List ToldEntry) (log : List OfferedEntry) →
        Grows old new → TellLog old entries log → TellLog new entries log }
    ensures live { (all : List Term) (entries : List ToldEntry) (log : List OfferedEntry) →
        TellLog all entries log → AreLive log (live_clauses all entries) }
{}
