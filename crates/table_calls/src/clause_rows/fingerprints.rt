//! What rows about fingerprints show: whether those of the conclusions of two clauses may meet.

ghost use Rattle.clause_form.specs.Seen.{IsClauseIn};

use crate::clause_rows::tables::yes_or_no;
use clause_form::Clause;
use fact_fingerprint::{fingerprint_of_fact, may_meet};
use std::alloc::{AllocError, Global};
use term_tree::TreeBank;

/// Whether the fingerprints of both conclusions may meet.
pub fn meeting_text(
    alloc: Global,
    bank: &TreeBank,
    first: &Clause,
    second: &Clause,
) -> Result<String, AllocError>
    requires first { IsClauseIn bank.now first.now }
    requires second { IsClauseIn bank.now second.now }
{
    let left = fingerprint_of_fact(bank, &first.concl);
    let right = fingerprint_of_fact(bank, &second.concl);
    String::from_str(alloc, yes_or_no(may_meet(&left, &right)))
}
