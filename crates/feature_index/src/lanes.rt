//! Features, and their comparison.

ghost use Rattle.std.specs.Prelude.{◌≡◌, true};
ghost use Rattle.std.specs.List.{list_all};
ghost use Rattle.spec_terms.specs.Term.{Term};
ghost use Rattle.spec_clauses.specs.Fact.{Clause};
ghost use Rattle.spec_clauses.specs.Flat.{is_flat};
ghost use Rattle.spec_clauses.specs.Subsumption.{Subsumes};
ghost use Rattle.spec_features.specs.Features.{features_of, are_at_most};

use std::simd::prelude::*;

/// The features of a clause. The lanes, in order: the numbers of hypotheses `att`, `mess` or `tab`, `ev` and `mev`, but for
/// `att` of a variable; the function and name symbols of these together; those of the conclusion; the number of the
/// conclusion's predicate (`att` 0, `mess` 1, `ev` 2, `bad` 3, `tab` 4); and 4 less that number.
#[derive(Clone, Copy)]
pub struct Features {
    pub lanes: [u16; 8],
}

/// Whether no feature of the general clause is greater than that of the special one. So it is wherever the general clause,
/// of flat hypotheses, subsumes the special one. Takes no memory.
pub fn may_cover(general: Features, special: Features) -> bool
    ensures lanes { result ≡ are_at_most general.lanes special.lanes }
    ensures subsuming { (c d : Clause Term) → general.lanes ≡ features_of c →
        special.lanes ≡ features_of d → list_all is_flat c.hypotheses ≡ true →
        Subsumes c d → result ≡ true }
{
    let greater = u16x8::from_array(general.lanes).simd_gt(u16x8::from_array(special.lanes));
    greater.to_bitmask() == 0
}
