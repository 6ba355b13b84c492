//! The lexical grammar of protocol files: what the tokens of some bytes are, and where bytes are refused.
//!
//! The definitions stand in `specs/`. The laws about them that a reader would ask for are the contracts of the
//! functions below, which do nothing.
#![tactic(auto)]

ghost use Rattle.std.specs.Prelude.{◌≡◌, ℕ, List, length};
ghost use Rattle.std.specs.List.{list_any};
ghost use Rattle.spec_protocol_tokens.specs.Token.{Token};
ghost use Rattle.spec_protocol_tokens.specs.Piece.{Refusal};
ghost use Rattle.spec_protocol_tokens.specs.Lexed.{Lexed, Stops};
ghost use Rattle.spec_protocol_tokens.specs.Laws.{HasAnswer, Ascend, AllStand, holds_comment, is_comment};

/// Bytes have at most one list of tokens.
pub fn one_list()
    ensures { (bytes : List ℕ) (ts us : List Token) → Lexed bytes ts → Lexed bytes us → ts ≡ us }
{}

/// Bytes are refused for one reason at one place at most.
pub fn one_refusal()
    ensures { (bytes : List ℕ) (r s : Refusal) (i j : ℕ) → Stops bytes r i → Stops bytes s j →
        (r ≡ s) × (i ≡ j) }
{}

/// Bytes that have tokens are not refused.
pub fn never_both()
    ensures { (bytes : List ℕ) (ts : List Token) (r : Refusal) (i : ℕ) → Lexed bytes ts →
        Stops bytes r i → ⊥ }
{}

/// Bytes have tokens or are refused.
pub fn always_one()
    ensures { (bytes : List ℕ) → HasAnswer bytes }
{}

/// The tokens stand within the bytes, in the order of their places; no span is empty, and no two overlap.
pub fn spans_ascend()
    ensures { (bytes : List ℕ) (ts : List Token) → Lexed bytes ts → Ascend 0 ts (length bytes) }
{}

/// Each token is what stands at its place, as long as it goes.
pub fn tokens_stand()
    ensures { (bytes : List ℕ) (ts : List Token) → Lexed bytes ts → AllStand bytes ts }
{}

/// Of bytes that have tokens, one of the pieces is a comment exactly where a `(` with a `*` right behind it stands
/// anywhere in the bytes.
pub fn comments_open()
    ensures { (bytes : List ℕ) (ts : List Token) (lexed : Lexed bytes ts) →
        list_any is_comment lexed.pieces ≡ holds_comment bytes }
{}
