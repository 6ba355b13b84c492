//! The parser: from the tokens of a protocol file to what the grammar makes of them.
//!
//! The grammar is defined in the crate `protocol_grammar`.
#![tactic(auto)]

ghost use Rattle.std.specs.Prelude.{◌≡◌, ◌≤◌, ℕ, List, length, map, IfOk, IfErr};
ghost use Rattle.spec_protocol_tokens.specs.Lexed.{Lexed};
ghost use Rattle.spec_protocol_grammar.specs.Classes.{class_of};
ghost use Rattle.spec_protocol_grammar.specs.Sketch.{FileSketch};
ghost use Rattle.pi_parser.specs.Files.{file_of};
ghost use Rattle.pi_parser.specs.Tokens.{AreWithin};
ghost use Rattle.pi_parser.specs.Errors.{Refusal, refusal_of, fault_of};
ghost use Rattle.pi_parser.specs.Answers.{place_at, IsSpelled, IsRefusedIn, IsRefusalOf, Reads, placed, GivesSketch, GivesRefusal};

use std::alloc::{AllocError, Global};

mod declarations;
mod error;
mod patterns;
mod processes;
mod queries;
pub mod sketch;
mod terms;
mod words;

use crate::declarations::file;
use crate::error::Fault;
pub use crate::error::ParseError;
pub use crate::sketch::{
    AlternativeSketch, AtomSketch, ConditionSketch, DeclarationSketch, NextSketch, PatternSketch,
    PatternsSketch, ProcessSketch, QuerySketch, RuleSketch, Sketch, TermSketch, TermsSketch,
    UnitSketch,
};
use crate::words::class_of;
use pi_lexer::Tokens;
use spec_protocol_grammar::Class;

/// The classes of tokens.
fn classes_of(alloc: Global, source: &[u8], tokens: &Tokens) -> Result<Vec<Class>, AllocError>
    requires { AreWithin (length source.now) tokens.now }
    ensures { IfOk result (λ classes. classes.items ≡ map (class_of source.now) tokens.now) }
{
    let mut classes = Vec::new(alloc);
    'tokens: for token in &tokens.items {
        classes.push(class_of(source, token))?;
    }
    Ok(classes)
}

/// Where a token begins, or the length of the file at the end of its tokens.
fn place_at(source: &[u8], tokens: &Tokens, number: usize) -> usize
    ensures { result ≡ place_at source.now tokens.now number }
{
    match tokens.items.get(number) {
        Some(token) => token.from,
        None => source.len(),
    }
}

/// The error with the place of the token in the bytes.
fn error_at(source: &[u8], tokens: &Tokens, fault: Fault) -> ParseError
    ensures { refusal_of result ≡ placed source.now tokens.now (fault_of fault) }
{
    match fault {
        Fault::Unexpected(number) => ParseError::Unexpected(place_at(source, tokens, number)),
        Fault::TooDeep(number) => ParseError::TooDeep(place_at(source, tokens, number)),
        Fault::Memory(error) => ParseError::Memory(error),
    }
}

/// What the grammar makes of the tokens and how many it has read, or the first token at which it refuses them and why.
#[tactic(auto, using(crate::proofs::Tokens::lexed_within))]
fn read(alloc: Global, source: &[u8], tokens: &Tokens) -> Result<(Sketch, usize), Fault>
    requires { Lexed source.now tokens.now }
    ensures { Reads source.now tokens.now result }
{
    let classes = classes_of(alloc, source, tokens)?;
    file(alloc, &classes)
}

/// What the grammar makes of the tokens of a file, or the first token at which it refuses them and why. It takes memory
/// for the sketch, and one byte for each token.
pub fn parse(alloc: Global, source: &[u8], tokens: &Tokens) -> Result<Sketch, ParseError>
    requires { Lexed source.now tokens.now }
    ensures read { IfOk result (λ sketch. IsSpelled source.now tokens.now (file_of sketch)) }
    ensures refused { IfErr result (λ error. IsRefusalOf source.now tokens.now error) }

    // Tokens that have a sketch give it, and tokens that are refused give that refusal.
    ensures accepts { (f : FileSketch) → IsSpelled source.now tokens.now f → GivesSketch f result }
    ensures refuses { (why : Refusal) (i : ℕ) → IsRefusedIn source.now tokens.now why i →
        GivesRefusal why (place_at source.now tokens.now i) result }
{
    match read(alloc, source, tokens) {
        Ok((sketch, _)) => Ok(sketch),
        Err(fault) => Err(error_at(source, tokens, fault)),
    }
}
