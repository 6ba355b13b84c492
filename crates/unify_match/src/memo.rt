//! What unification and the occurs check remember, so that their time is polynomial in the number of terms
//! that can be reached. Most calls end before they begin to remember, and take no memory for it.

ghost use Rattle.std.specs.Prelude.{◌≡◌, ℕ, true, false, ◌⊎◌};
ghost use Rattle.unify_match.specs.Memo.{is_remembered};

use std::alloc::{AllocError, Global};
use std::collections::HashSet;

/// How many pairs are passed before any is remembered.
const UNREMEMBERED: u32 = 64;

/// Pairs of numbers that are remembered, from some number of passed pairs on.
#[derive(Drop)]
pub struct Memo {
    pub pairs: HashSet<(usize, usize)>,
    pub passed: u32,
}

impl Memo {
    /// Nothing is remembered. Takes no memory.
    pub fn new(alloc: Global) -> Self
        ensures { (q : ℕ × ℕ) → is_remembered result q ≡ false }
    {
        let pairs = HashSet::new(alloc);
        Memo { pairs, passed: 0 }
    }

    /// Whether a pair is remembered; at first the answer is false. Takes no memory.
    #[inline(never)]
    pub fn has(&self, first: usize, second: usize) -> bool
        ensures { result ≡ true → is_remembered self.now (first, second) ≡ true }
    {
        if self.passed < UNREMEMBERED {
            return false;
        }
        self.pairs.contains(&(first, second))
    }

    /// Passes a pair, and remembers it unless it is one of the first.
    #[inline(never)]
    pub fn pass(&mut self, first: usize, second: usize) -> Result<(), AllocError>
        ensures { (q : ℕ × ℕ) → is_remembered self.new q ≡ true →
            (is_remembered self.old q ≡ true) ⊎ (q ≡ (first, second)) }
    {
        if self.passed < UNREMEMBERED {
            self.passed += 1;
            return Ok(());
        }
        self.pairs.insert((first, second))?;
        Ok(())
    }
}
