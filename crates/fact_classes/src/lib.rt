//! Classes of facts: by what stands at a few positions of their terms, where that is told. Facts of two classes never meet, so
//! numbers that are listed by classes are looked up where only few facts may meet one.
#![tactic(auto)]

ghost use Rattle.std.specs.Prelude.{◌≡◌, ℕ, false, Some};
ghost use Rattle.spec_fingerprints.specs.Fingerprints.{Fingerprint, may_meet};
ghost use Rattle.fact_classes.specs.Classes.{class_of};

pub mod classes;

pub use crate::classes::{Classes, class_of};

/// Where two fingerprints are of two classes, they may not meet.
pub fn facts_of_two_classes_never_meet()
    ensures { (p q : Fingerprint) (j k : ℕ) → class_of p ≡ Some j → class_of q ≡ Some k →
        (j ≡ k → ⊥) → may_meet p q ≡ false }
{}
