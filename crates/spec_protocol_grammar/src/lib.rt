//! The grammar of protocol files: what it makes of their tokens, and where tokens are refused.
//!
//! The definitions stand in `specs/`. The laws about them that a reader would ask for are the contracts of the
//! functions below, which do nothing.
#![tactic(auto)]

ghost use Rattle.std.specs.Prelude.{◌≡◌, ℕ, List, length};
ghost use Rattle.spec_protocol_tokens.specs.Token.{Token};
ghost use Rattle.spec_protocol_grammar.specs.Classes.{source};
ghost use Rattle.spec_protocol_grammar.specs.Sketch.{FileSketch};
ghost use Rattle.spec_protocol_grammar.specs.Spelling.{IsSketch};
ghost use Rattle.spec_protocol_grammar.specs.Refusals.{IsUnexpected, IsTooDeep};
ghost use Rattle.spec_protocol_grammar.specs.Laws.{HasAnswer};

mod class;

pub use class::Class;

/// Tokens are spelled as one sketch at most.
pub fn one_sketch()
    ensures { (bytes : List ℕ) (ts : List Token) (f g : FileSketch) → IsSketch (source bytes ts) f →
        IsSketch (source bytes ts) g → f ≡ g }
{}

/// Tokens are refused at one unexpected word at most.
pub fn one_unexpected()
    ensures { (bytes : List ℕ) (ts : List Token) (i j : ℕ) →
        IsUnexpected (source bytes ts) (length ts) i →
        IsUnexpected (source bytes ts) (length ts) j → i ≡ j }
{}

/// Tokens are refused at one word that stands too deep at most.
pub fn one_too_deep()
    ensures { (bytes : List ℕ) (ts : List Token) (i j : ℕ) → IsTooDeep (source bytes ts) i →
        IsTooDeep (source bytes ts) j → i ≡ j }
{}

/// Tokens that have a sketch hold no unexpected word.
pub fn no_sketch_unexpected()
    ensures { (bytes : List ℕ) (ts : List Token) (f : FileSketch) (i : ℕ) →
        IsSketch (source bytes ts) f → IsUnexpected (source bytes ts) (length ts) i → ⊥ }
{}

/// Tokens that have a sketch hold no word that stands too deep.
pub fn no_sketch_too_deep()
    ensures { (bytes : List ℕ) (ts : List Token) (f : FileSketch) (i : ℕ) →
        IsSketch (source bytes ts) f → IsTooDeep (source bytes ts) i → ⊥ }
{}

/// Tokens are not refused for both reasons.
pub fn one_refusal()
    ensures { (bytes : List ℕ) (ts : List Token) (i j : ℕ) →
        IsUnexpected (source bytes ts) (length ts) i → IsTooDeep (source bytes ts) j → ⊥ }
{}

/// Tokens are spelled as a sketch or are refused.
pub fn always_one()
    ensures { (bytes : List ℕ) (ts : List Token) → HasAnswer (source bytes ts) (length ts) }
{}
