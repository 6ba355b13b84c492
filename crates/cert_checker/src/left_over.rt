//! Rows that are left over where all obligations are met.

ghost use Rattle.std.specs.Prelude.{List, drop};
ghost use Rattle.spec_terms.specs.Term.{Term};
ghost use Rattle.spec_certificates.specs.Ruling.{NoneLeft};
ghost use Rattle.cert_stages.specs.Checked.{cert_in};
ghost use Rattle.cert_checker.specs.Rulings.{ruling_of};

use crate::ruling::Ruling;
use cert_stages::Checker;

/// What is ruled where all obligations are met by the rows before these places: whether a row is left over.
pub(crate) fn left_over(checker: &Checker<'_>, row: usize, goal: usize) -> Ruling
    ensures { (all : List Term) → NoneLeft (cert_in all checker.now)
        (drop row checker.now.rows.now) (drop goal checker.now.goals.now) (ruling_of result) }
{
    let rows = checker.rows;
    let goals = checker.goals;
    if row < rows.items.len() {
        return Ruling::Extra(row as u64 + 1);
    }
    if goal < goals.items.len() {
        return Ruling::Extra(rows.items.len() as u64 + goal as u64 + 1);
    }
    Ruling::Accepted
}
