//! Reading a protocol: from the bytes of its file to the protocol that they spell.

ghost use Rattle.std.specs.Prelude.{◌≡◌, ◌≤◌, length, IfOk, IfErr};
ghost use Rattle.spec_calculus.specs.Bounds.{most_bytes};
ghost use Rattle.spec_protocol_tokens.specs.Lexed.{Lexed};
ghost use Rattle.spec_protocol_scope.specs.Spells.{Spells};
ghost use Rattle.pi_parser.specs.Answers.{IsSpelled};
ghost use Rattle.pi_parser.specs.Files.{file_of};
ghost use Rattle.pi_tree.specs.Protocols.{protocol_of};
ghost use Rattle.protocol_loading.specs.Reading.{IsStopOf};

use crate::codes::ProtocolCode;
use pi_lexer::{LexError, Tokens, lex};
use pi_parser::{ParseError, Sketch, parse};
use pi_tree::Protocol;
use scope_check::{ScopeError, check_tokens};
use std::alloc::Global;

/// Why no protocol was read.
#[derive(Clone, Copy)]
pub enum Stop {
    /// The bytes are refused, at the byte of this number, from 0.
    Refused(ProtocolCode, usize),
    /// Want of memory.
    Memory,
}

impl From<LexError> for Stop {
    ghost use Rattle.pi_lexer.specs.Error as lexing;
    ghost use Rattle.protocol_loading.specs.Reading.{lexical, refusal_of};

    ghost from_gives = { λ e stop. refusal_of stop ≡ lexical (lexing.refusal_of e) };

    fn from(error: LexError) -> Stop {
        match error {
            LexError::BadByte(place) => Stop::Refused(ProtocolCode::BadByte, place),
            LexError::OpenComment(place) => Stop::Refused(ProtocolCode::OpenComment, place),
            LexError::LongNumber(place) => Stop::Refused(ProtocolCode::LongNumber, place),
            LexError::Memory(_) => Stop::Memory,
        }
    }
}

impl From<ParseError> for Stop {
    ghost use Rattle.pi_parser.specs.Errors as parsing;
    ghost use Rattle.protocol_loading.specs.Reading.{grammatical, refusal_of};

    ghost from_gives = { λ e stop. refusal_of stop ≡ grammatical (parsing.refusal_of e) };

    fn from(error: ParseError) -> Stop {
        match error {
            ParseError::Unexpected(place) => Stop::Refused(ProtocolCode::Unexpected, place),
            ParseError::TooDeep(place) => Stop::Refused(ProtocolCode::TooDeep, place),
            ParseError::Memory(_) => Stop::Memory,
        }
    }
}

impl From<ScopeError> for Stop {
    ghost use Rattle.scope_check.specs.Error as scoping;
    ghost use Rattle.protocol_loading.specs.Reading.{refusal_of};

    ghost from_gives = { λ e stop. refusal_of stop ≡ scoping.refusal_of e };

    fn from(error: ScopeError) -> Stop {
        match error {
            ScopeError::Unknown(place) => Stop::Refused(ProtocolCode::Unknown, place),
            ScopeError::Twice(place) => Stop::Refused(ProtocolCode::Twice, place),
            ScopeError::Arity(place) => Stop::Refused(ProtocolCode::Arity, place),
            ScopeError::Kind(place) => Stop::Refused(ProtocolCode::Kind, place),
            ScopeError::LooseVariable(place) => Stop::Refused(ProtocolCode::LooseVariable, place),
            ScopeError::TooMany(place) => Stop::Refused(ProtocolCode::TooMany, place),
            ScopeError::AmbiguousNew(place) => Stop::Refused(ProtocolCode::AmbiguousNew, place),
            ScopeError::PhaseOrder(place) => Stop::Refused(ProtocolCode::PhaseOrder, place),
            ScopeError::LongFile => Stop::Refused(ProtocolCode::LongFile, 0),
            ScopeError::Memory(_) => Stop::Memory,
        }
    }
}

/// The protocol that the sketch of these tokens stands for, or why it is refused and at which byte.
fn scoped(alloc: Global, bytes: &[u8], tokens: &Tokens, sketch: &Sketch) -> Result<Protocol, Stop>
    requires short { length bytes.now ≤ most_bytes }
    requires lexed { Lexed bytes.now tokens.now }
    requires sketched { IsSpelled bytes.now tokens.now (file_of sketch.now) }
    ensures spelled { IfOk result (λ protocol. Spells bytes.now (protocol_of protocol)) }
    ensures refused { IfErr result (λ stop. IsStopOf bytes.now stop) }
{
    let protocol = check_tokens(alloc, bytes, tokens, sketch)?;
    Ok(protocol)
}

/// The protocol that the bytes of a file spell, which are not too many, or why they are refused and at which byte.
pub(crate) fn read_protocol(alloc: Global, bytes: &[u8]) -> Result<Protocol, Stop>
    requires { length bytes.now ≤ most_bytes }
    ensures spelled { IfOk result (λ protocol. Spells bytes.now (protocol_of protocol)) }
    ensures refused { IfErr result (λ stop. IsStopOf bytes.now stop) }
{
    let tokens = lex(alloc, bytes)?;
    let sketch = parse(alloc, bytes, &tokens)?;
    let protocol = scoped(alloc, bytes, &tokens, &sketch);
    drop(sketch);
    protocol
}
