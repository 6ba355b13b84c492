//! The terms with which conclusions end. A clause whose conclusion ends with a closed term subsumes only clauses whose
//! conclusions end with that term.

ghost use Rattle.std.specs.Prelude.{◌≡◌, Some, IfOk};
ghost use Rattle.term_tree.specs.Bank.{AreShared};
ghost use Rattle.term_tree.specs.declared.bank.Id.{Id};
ghost use Rattle.clause_form.specs.Seen.{IsClauseIn};
ghost use Rattle.log_entries.specs.Ends.{last_term, closed_end_of, ends_of, AreChained};
ghost use Rattle.log_entries.specs.Live.{AreThose};

use crate::walk::Walk;
use clause_form::Clause;
use std::alloc::AllocError;
use term_tree::{Bank, Id};

/// The id with which the clause's conclusion ends, if it has terms.
pub fn end_of(clause: &Clause) -> Option<Id>
    ensures { result ≡ last_term clause.now.conclusion }
{
    let terms = clause.concl.terms();
    match terms.as_slice().last() {
        None => None,
        Some(id) => Some(*id),
    }
}

/// The id with which the clause's conclusion ends, if it names a closed term.
pub fn closed_end<B: Bank>(bank: &B, clause: &Clause) -> Option<Id>
    requires { IsClauseIn (B.trees bank.now) clause.now }
    ensures { result ≡ closed_end_of (B.trees bank.now) clause.now }
{
    match end_of(clause) {
        None => None,
        Some(id) => { if bank.is_ground(id) { Some(id) } else { None } }
    }
}

/// The id with which the clause's conclusion ends, if it names a closed term that no other id names, since the bank is shared.
pub fn shared_end<B: Bank>(bank: &B, clause: &Clause) -> Option<Id>
    requires { IsClauseIn (B.trees bank.now) clause.now }
    ensures end { (id : Id) → result ≡ Some id →
        closed_end_of (B.trees bank.now) clause.now ≡ Some id }
    ensures shared { (id : Id) → result ≡ Some id → AreShared (B.trees bank.now) }
{
    if !bank.is_shared() {
        return None;
    }
    closed_end(bank, clause)
}

/// The numbers of the entries that end with the id, the last one first.
pub fn ending(walk: &Walk, id: Id) -> Result<Vec<usize>, AllocError>
    requires { AreChained (ends_of walk.now.items.items) walk.now.live.chains.last.items
        walk.now.live.chains.previous.items }
    ensures { IfOk result (λ numbers.
        AreThose (ends_of walk.now.items.items) id numbers.items) }
{
    let mut numbers = Vec::new(walk.alloc);
    let mut next = walk.live.chains.last_with(id);
    'each: while let Some(number) = next {
        numbers.push(number)?;
        next = walk.live.chains.previous[number - 1];
    }
    Ok(numbers)
}
