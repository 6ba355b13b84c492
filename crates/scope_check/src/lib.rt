//! The rules of scope: from the sketch of a file to the protocol that it stands for, or its first fault.
//!
//! The rules are defined in the crate `protocol_scope`.
#![tactic(auto)]

ghost use Rattle.std.specs.Prelude.{◌≡◌, ◌+◌, ◌≤◌, ℕ, length, IfOk, IfErr};
ghost use Rattle.spec_calculus.specs.Bounds.{most_bytes};
ghost use Rattle.spec_calculus.specs.Syntax as own;
ghost use Rattle.spec_protocol_tokens.specs.Lexed.{Lexed};
ghost use Rattle.pi_lexer.specs.Answer.{IsMemory};
ghost use Rattle.spec_protocol_scope.specs.Names as naming;
ghost use Rattle.spec_protocol_scope.specs.Scope.{scope};
ghost use Rattle.spec_protocol_scope.specs.Spells.{texts, IsSketchOf, Spells, Refusal, Refuses};
ghost use Rattle.pi_parser.specs.Answers.{IsSpelled};
ghost use Rattle.pi_parser.specs.Files.{file_of};
ghost use Rattle.pi_tree.specs.Processes.{process_of};
ghost use Rattle.pi_tree.specs.Protocols.{protocol_of};
ghost use Rattle.scope_declarations.specs.Answer.{Gives};
ghost use Rattle.scope_check.specs.Error.{AnswersScope, main_then_queries, IsRefusalOf, GivesProtocol, GivesRefusal};
ghost use Rattle.scope_declarations.specs.Names.{names_of, IsKept};
ghost use Rattle.scope_declarations.specs.Text.{texts_of};

use pi_lexer::{LexError, Tokens, lex};
use pi_parser::Sketch;
use pi_tree::{MOST_BYTES, Process, Protocol, Queries};
use scope_declarations::declarations::declare_all;
use scope_declarations::names::Names;
use scope_declarations::scope::Scope;
use scope_declarations::source::Text;
use scope_declarations::stop::Stop;
use spec_protocol_scope::{main_process_points, never_both, one_protocol, one_refusal};
use std::alloc::{AllocError, Global};

mod error;
mod expressions;
mod numbers;
mod patterns;
mod phases;
mod processes;
mod queries;
mod site;

pub use crate::error::ScopeError;
use crate::error::error_at;
use crate::processes::main_process;
use crate::queries::queries;

/// The main process and the queries of a sketch that declares these names.
fn main_and_queries(
    alloc: Global,
    whole: &Text,
    names: &Names,
    sketch: &Sketch,
) -> Result<(Box<Process>, Queries), Stop>
    requires { IsKept (texts_of whole.now) names.now }
    ensures { Gives (λ x. (process_of x.0.value, x.1)) result
        (main_then_queries (texts_of whole.now) (names_of names.now) (file_of sketch.now)) }
{
    main_process_points();
    let scope = Scope {
        text: *whole,
        names,
    };
    let main = main_process(alloc, &scope, &sketch.main)?;
    let queries = queries(&sketch.declarations, alloc, &scope, &main)?;
    Ok((main, queries))
}

/// The protocol of a sketch, or its first fault.
fn protocol(alloc: Global, whole: &Text, sketch: &Sketch) -> Result<Protocol, Stop>
    ensures { Gives protocol_of result (scope (texts_of whole.now) (file_of sketch.now)) }
{
    let names = declare_all(alloc, whole, &sketch.declarations)?;
    let (main, queries) = main_and_queries(alloc, whole, &names, sketch)?;
    Ok(names.into_protocol(main, queries))
}

/// The protocol of a sketch of these tokens, or its first fault with the place of its token.
#[tactic(auto, using(crate::proofs::Spans::lexed_ascend))]
fn placed_protocol(
    alloc: Global,
    source: &[u8],
    tokens: &Tokens,
    sketch: &Sketch,
) -> Result<Protocol, ScopeError>
    requires lexed { Lexed source.now tokens.now }
    requires few { length tokens.now + 2 ≤ most_bytes }
    ensures { AnswersScope source.now tokens.now
        (scope (texts source.now tokens.now) (file_of sketch.now)) result }
{
    let whole = Text { source, tokens };
    match protocol(alloc, &whole, sketch) {
        Ok(protocol) => Ok(protocol),
        Err(stop) => Err(error_at(&whole, stop)),
    }
}

/// The protocol that the sketch of a file's tokens stands for, or its first refusal by the rules of scope, in the order of
/// the declarations other than queries, the main process with its macros expanded, and the queries.
///
/// Memory is taken for the protocol alone.
pub fn check_tokens(
    alloc: Global,
    source: &[u8],
    tokens: &Tokens,
    sketch: &Sketch,
) -> Result<Protocol, ScopeError>
    requires short { length source.now ≤ most_bytes }
    requires lexed { Lexed source.now tokens.now }
    requires spelled { IsSpelled source.now tokens.now (file_of sketch.now) }
    ensures read { IfOk result (λ protocol. Spells source.now (protocol_of protocol)) }
    ensures refused { IfErr result (λ error. IsRefusalOf source.now error) }

    // Bytes that spell a protocol give it, and bytes that are refused give that refusal.
    ensures accepts { (p : own.Protocol) → Spells source.now p → GivesProtocol p result }
    ensures refuses { (refusal : Refusal) (place : ℕ) → Refuses source.now refusal place →
        GivesRefusal refusal place result }
{
    one_protocol();
    one_refusal();
    never_both();
    placed_protocol(alloc, source, tokens, sketch)
}

/// The want of memory that an error of the lexer is.
fn memory_error(error: LexError) -> AllocError
    requires { IsMemory error }
{
    match error {
        LexError::Memory(error) => error,
        LexError::BadByte(_) | LexError::OpenComment(_) | LexError::LongNumber(_) => unreachable!(),
    }
}

/// The protocol that the sketch of a file stands for, or its first refusal. That the bytes are more than a file may
/// have is looked at before all else; then the rules of scope, in the order of the declarations other than queries,
/// the main process with its macros expanded, and the queries.
///
/// The sketch is that of these bytes, whose tokens are read once more. Memory is taken for them and for the protocol. Where
/// the tokens are at hand, [`check_tokens`] takes them.
pub fn check_scope(alloc: Global, source: &[u8], sketch: &Sketch) -> Result<Protocol, ScopeError>
    requires { IsSketchOf source.now (file_of sketch.now) }
    ensures read { IfOk result (λ protocol. Spells source.now (protocol_of protocol)) }
    ensures refused { IfErr result (λ error. IsRefusalOf source.now error) }

    // Bytes that spell a protocol give it, and bytes that are refused give that refusal.
    ensures accepts { (p : own.Protocol) → Spells source.now p → GivesProtocol p result }
    ensures refuses { (refusal : Refusal) (place : ℕ) → Refuses source.now refusal place →
        GivesRefusal refusal place result }
{
    one_refusal();
    never_both();
    if source.len() > MOST_BYTES {
        return Err(ScopeError::LongFile);
    }
    match lex(alloc, source) {
        Ok(tokens) => check_tokens(alloc, source, &tokens, sketch),
        Err(error) => Err(ScopeError::Memory(memory_error(error))),
    }
}
