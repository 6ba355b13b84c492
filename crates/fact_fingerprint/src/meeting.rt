//! The test of two fingerprints.

ghost use Rattle.std.specs.Prelude.{◌≡◌, ◌&&◌, true, option_map};
ghost use Rattle.spec_terms.specs.Term.{Term, Subst};
ghost use Rattle.spec_clauses.specs.Fact.{Fact as FactOf, fact_under};
ghost use Rattle.spec_features.specs.Features.{are_at_most};
ghost use Rattle.spec_fingerprints.specs.Fingerprints.{fingerprint_of, may_meet, may_resolve};
ghost use Rattle.fact_fingerprint.specs.Seen.{fingerprint_seen};

use crate::fingerprints::Fingerprint;
use std::simd::prelude::*;

/// Whether no number is greater than the one at its place.
fn are_within(lows: &[u16; 32], highs: &[u16; 32]) -> bool
    ensures { result ≡ are_at_most lows.now highs.now }
{
    let greater = u16x32::from_array(*lows).simd_gt(u16x32::from_array(*highs));
    greater.to_bitmask() == 0
}

/// Whether the ranges meet at each position.
fn ranges_meet(left: &Fingerprint, right: &Fingerprint) -> bool
    ensures { result ≡ (are_at_most left.now.least right.now.most &&
        are_at_most right.now.least left.now.most) }
{
    are_within(&left.least, &right.most) && are_within(&right.least, &left.most)
}

/// Whether two fingerprints may be those of facts with a common instance. Takes no memory.
pub fn may_meet(left: &Fingerprint, right: &Fingerprint) -> bool
    ensures exact { result ≡ may_meet (fingerprint_seen left.now) (fingerprint_seen right.now) }
    ensures meeting { (f g : FactOf Term) (s t : Subst) →
        fingerprint_seen left.now ≡ fingerprint_of f →
        fingerprint_seen right.now ≡ fingerprint_of g →
        fact_under s f ≡ fact_under t g → result ≡ true }
{
    left.head == right.head && ranges_meet(left, right)
}

/// Whether a solved clause with this fingerprint of its conclusion may have resolvents with a clause that has this one of its
/// selected hypothesis: none, where it is solved. Takes no memory.
pub fn may_resolve(conclusion: &Fingerprint, hypothesis: &Option<Fingerprint>) -> bool
    ensures { result ≡ may_resolve (fingerprint_seen conclusion.now)
        (option_map fingerprint_seen hypothesis.now) }
{
    match hypothesis {
        Some(print) => may_meet(conclusion, print),
        None => false,
    }
}
