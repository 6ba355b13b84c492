//! What the constraints of a clause may speak of, and those that it needs.

ghost use Rattle.std.specs.Prelude.{◌≡◌, ◌&&◌, map, IfOk};
ghost use Rattle.spec_clauses.specs.Norm.{is_passed_on as is_passed_on_fact, without_needless};
ghost use Rattle.spec_clauses.specs.Selection.{is_solved};
ghost use Rattle.clause_diffs.specs.Diffs.{AreDiffsIn, NameDiffs};
ghost use Rattle.clause_form.specs.Facts.{fact_of, clause_of};
ghost use Rattle.clause_form.specs.Normals.{anchors_at};
ghost use Rattle.clause_form.specs.Seen.{fact_at, clause_at, IsFactIn, AreFactsIn};

use crate::facts::Fact;
use crate::normal::is_passed_on;
use crate::selectable::are_solved;
use crate::variables::{firm_variables_of, variables_elsewhere};
use clause_diffs::{Counts, Diff, Diffs, needed};
use std::alloc::{AllocError, Global};
use term_tree::Bank;

/// Whether the clause is solved, and what it concludes is only passed on.
fn passes_on<B: Bank>(bank: &B, concl: &Fact, hyps: &[Fact]) -> bool
    requires concl { IsFactIn (B.trees bank.now) (fact_of concl.now) }
    requires hyps { AreFactsIn (B.trees bank.now) (map fact_of hyps.now) }
    ensures { let facts = map (fact_at (B.trees bank.now)) (map fact_of hyps.now) in
        result ≡ (is_solved facts &&
        is_passed_on_fact facts (fact_at (B.trees bank.now) (fact_of concl.now))) }
{
    are_solved(bank, hyps) && is_passed_on(bank, concl, hyps)
}

/// The variables that constraints of the clause may speak of: all but those of its hypotheses `att` of a variable, and where
/// the clause passes on what the attacker has, those of its other hypotheses.
pub(crate) fn anchors_of<B: Bank>(
    alloc: Global,
    bank: &B,
    concl: &Fact,
    hyps: &[Fact],
) -> Result<Vec<u32>, AllocError>
    requires concl { IsFactIn (B.trees bank.now) (fact_of concl.now) }
    requires hyps { AreFactsIn (B.trees bank.now) (map fact_of hyps.now) }
    ensures { IfOk result (λ numbers. numbers.items ≡
        anchors_at (B.trees bank.now) (map fact_of hyps.now) (fact_of concl.now)) }
{
    if passes_on(bank, concl, hyps) {
        return firm_variables_of(alloc, bank, hyps);
    }
    variables_elsewhere(alloc, bank, concl, hyps)
}

/// The constraints that the clause with this conclusion and these hypotheses needs. Takes no memory where there are none.
pub(crate) fn needed_of<B: Bank>(
    alloc: Global,
    bank: &B,
    concl: &Fact,
    hyps: &[Fact],
    diffs: &[Diff],
) -> Result<Diffs, AllocError>
    requires concl { IsFactIn (B.trees bank.now) (fact_of concl.now) }
    requires hyps { AreFactsIn (B.trees bank.now) (map fact_of hyps.now) }
    requires diffs { AreDiffsIn (B.trees bank.now) diffs.now }
    ensures { IfOk result (λ kept. NameDiffs (B.trees bank.now) kept
        (without_needless (clause_at (B.trees bank.now)
        (clause_of concl.now hyps.now diffs.now))).diffs) }
{
    if diffs.is_empty() {
        return Ok(Diffs::new(alloc));
    }
    let numbers = anchors_of(alloc, bank, concl, hyps)?;
    let anchors = Counts::new(alloc, numbers)?;
    needed(alloc, bank, &anchors, diffs)
}
