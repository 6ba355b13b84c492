//! Unification of facts: of their terms, item by item.

ghost use Rattle.std.specs.Prelude.{◌≡◌, [], IfOk, MatchBool};
ghost use Rattle.spec_terms.specs.Binding.{resolved};
ghost use Rattle.unify_match.specs.Seen.{seen, IsReady};
ghost use Rattle.clause_form.specs.Facts.{fact_of};
ghost use Rattle.clause_form.specs.Seen.{fact_at, IsFactIn};
ghost use Rattle.clause_resolve.specs.Meeting.{IsMguOfFacts, HaveNoUnifier};

use clause_diffs::unify_lists;
use clause_form::Fact;
use std::alloc::AllocError;
use term_tree::Bank;
use unify_match::Binds;

/// Binds variables to a most general unifier of two facts; false where there is none.
///
/// `Err` comes only for want of memory.
pub(crate) fn unify_facts<B: Bank>(
    bank: &B,
    left: &Fact,
    right: &Fact,
    binds: &mut Binds,
) -> Result<bool, AllocError>
    requires left { IsFactIn (B.trees bank.now) (fact_of left.now) }
    requires right { IsFactIn (B.trees bank.now) (fact_of right.now) }
    requires none { binds.old.pairs ≡ [] }
    requires ready { IsReady (B.trees bank.now) binds.old.pairs }
    ensures ready { IsReady (B.trees bank.now) binds.new.pairs }
    ensures outcome { let f = fact_at (B.trees bank.now) (fact_of left.now) in
        let g = fact_at (B.trees bank.now) (fact_of right.now) in
        IfOk result (λ yes. MatchBool yes
        (IsMguOfFacts f g (resolved (seen (B.trees bank.now) binds.new.pairs)))
        (HaveNoUnifier f g)) }
{
    if left.head() != right.head() {
        return Ok(false);
    }
    let (lefts, rights) = (left.terms(), right.terms());
    unify_lists(bank, lefts.as_slice(), rights.as_slice(), binds)
}
