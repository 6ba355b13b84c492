//! The lexer: from the bytes of a protocol file to its tokens.
//!
//! What the tokens are is defined in the crate `protocol_tokens`.
#![tactic(auto)]

ghost use Rattle.std.specs.Prelude.{ℕ, List, IfOk, IfErr};
ghost use Rattle.spec_protocol_tokens.specs.Token as own;
ghost use Rattle.spec_protocol_tokens.specs.Piece.{Refusal};
ghost use Rattle.spec_protocol_tokens.specs.Lexed.{Lexed, Stops};
ghost use Rattle.pi_lexer.specs.Answer.{IsRefusalOf, GivesTokens, GivesRefusal};

use std::alloc::Global;

mod error;
mod piece;
mod reserved;
mod scan;
mod token;

pub use error::LexError;
use piece::{Piece, first_piece};
pub use token::{Token, TokenKind, Tokens};

/// The tokens of a file, or the first place at which it has none, and why.
///
/// Memory is taken for the list of the tokens alone.
pub fn lex(alloc: Global, source: &[u8]) -> Result<Tokens, LexError>
    ensures lexed { IfOk result (λ tokens. Lexed source.now tokens) }
    ensures refused { IfErr result (λ error. IsRefusalOf source.now error) }

    // Bytes that have tokens give these, and bytes that are refused give that refusal.
    ensures accepts { (tokens : List own.Token) → Lexed source.now tokens →
        GivesTokens tokens result }
    ensures refuses { (refusal : Refusal) (place : ℕ) → Stops source.now refusal place →
        GivesRefusal refusal place result }
{
    let mut items = Vec::new(alloc);
    let mut at = 0usize;
    while at < source.len() {
        match first_piece(&source[at..]) {
            Piece::Blank => at += 1,
            Piece::Comment(size) => at += size,
            Piece::Lexeme(kind, size) => {
                items.push(Token {
                    kind,
                    from: at,
                    to: at + size,
                })?;
                at += size;
            }
            Piece::BadByte => return Err(LexError::BadByte(at)),
            Piece::OpenComment => return Err(LexError::OpenComment(at)),
            Piece::LongNumber => return Err(LexError::LongNumber(at)),
        }
    }
    Ok(Tokens { items })
}
