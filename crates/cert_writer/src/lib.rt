//! Certificates of closed logs: to each obligation of the live clauses the first row that shows it.
#![tactic(auto)]

ghost use Rattle.std.specs.Prelude.{List};
ghost use Rattle.spec_terms.specs.Term.{Term};
ghost use Rattle.term_tree.specs.Bank.{Grows};
ghost use Rattle.clause_form.specs.Seen.{AreClausesIn};
ghost use Rattle.cert_writer.specs.declared.known.KnownRows.{KnownRows as KeptRows};
ghost use Rattle.cert_writer.specs.Known.{IsKnown};

mod all_pairs;
mod beginning;
mod certified;
mod certifying;
mod closing;
mod covering;
mod given;
pub mod known;
mod living;
mod plain;
mod satisfying;
mod writer;

pub use crate::certified::Certified;
pub use crate::certifying::{ClosedLog, certify, certify_with};
pub use crate::known::{KnownRows, known_rows, none_known};

/// Rows that are kept stay those of their clauses as the bank grows, and are so in the bank as it was, if their clauses were
/// known there.
pub fn known_rows_outlast_growth()
    ensures grown { (old new : List Term) (known : KeptRows) → Grows old new → IsKnown old known →
        IsKnown new known }
    ensures back { (old new : List Term) (known : KeptRows) → Grows old new →
        AreClausesIn old known.live → AreClausesIn old known.given → IsKnown new known →
        IsKnown old known }
{}
