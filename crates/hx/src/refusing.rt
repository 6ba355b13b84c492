//! Why texts are refused: the codes are those that the verifier prints, told in docs/FORMATS.md.

use pi_lexer::LexError;
use pi_parser::ParseError;
use run_replay::RunError;
use scope_check::ScopeError;

/// Why bytes were not read.
#[derive(Clone, Copy)]
pub(crate) enum Unread {
    /// They are refused: the code, and where, as a byte from 0 in a protocol, as a line from 1 in a run.
    Refused(&'static str, u64),
    /// Want of memory.
    Memory,
}

/// The code of a protocol with too many bytes.
pub(crate) const LONG_PROTOCOL: &str = "13 LongFile";

/// The code of a run with too many bytes.
pub(crate) const LONG_RUN: &str = "4 LongFile";

impl From<LexError> for Unread {
    fn from(error: LexError) -> Unread {
        match error {
            LexError::BadByte(place) => Unread::Refused("1 BadByte", place as u64),
            LexError::OpenComment(place) => Unread::Refused("2 OpenComment", place as u64),
            LexError::LongNumber(place) => Unread::Refused("3 LongNumber", place as u64),
            LexError::Memory(_) => Unread::Memory,
        }
    }
}

impl From<ParseError> for Unread {
    fn from(error: ParseError) -> Unread {
        match error {
            ParseError::Unexpected(place) => Unread::Refused("4 Unexpected", place as u64),
            ParseError::TooDeep(place) => Unread::Refused("5 TooDeep", place as u64),
            ParseError::Memory(_) => Unread::Memory,
        }
    }
}

impl From<ScopeError> for Unread {
    fn from(error: ScopeError) -> Unread {
        match error {
            ScopeError::Unknown(place) => Unread::Refused("6 Unknown", place as u64),
            ScopeError::Twice(place) => Unread::Refused("7 Twice", place as u64),
            ScopeError::Arity(place) => Unread::Refused("8 Arity", place as u64),
            ScopeError::Kind(place) => Unread::Refused("9 Kind", place as u64),
            ScopeError::LooseVariable(place) => Unread::Refused("10 LooseVariable", place as u64),
            ScopeError::TooMany(place) => Unread::Refused("11 TooMany", place as u64),
            ScopeError::AmbiguousNew(place) => Unread::Refused("12 AmbiguousNew", place as u64),
            ScopeError::LongFile => Unread::Refused(LONG_PROTOCOL, 0),
            ScopeError::PhaseOrder(place) => Unread::Refused("14 PhaseOrder", place as u64),
            ScopeError::Memory(_) => Unread::Memory,
        }
    }
}

impl From<RunError> for Unread {
    fn from(error: RunError) -> Unread {
        match error {
            RunError::Word(line) => Unread::Refused("1 Word", line),
            RunError::Number(line) => Unread::Refused("2 Number", line),
            RunError::LongLine(line) => Unread::Refused("3 LongLine", line),
            RunError::Memory(_) => Unread::Memory,
        }
    }
}
