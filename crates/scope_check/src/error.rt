//! Why a sketch stands for no protocol.

ghost use Rattle.std.specs.Prelude.{◌≡◌, Some};
ghost use Rattle.spec_protocol_scope.specs.Spells.{Scoped};
ghost use Rattle.scope_declarations.specs.Answer.{code_of};
ghost use Rattle.scope_check.specs.Error.{refusal_of, fault_of, placed};

use scope_declarations::source::Text;
use scope_declarations::stop::{Code, Stop};
use scope_declarations::text::place;
use std::alloc::AllocError;
use thiserror::Error;

/// Why a sketch stands for no protocol. A place is the number of a byte, from 0.
#[derive(Debug, Drop, Error)]
pub enum ScopeError {
    /// The name at this place is not declared, or not yet.
    #[error("the name at byte {0} is not declared")]
    Unknown(usize),
    /// The name at this place is declared or bound twice.
    #[error("the name at byte {0} is declared or bound twice")]
    Twice(usize),
    /// The name at this place takes another number of arguments.
    #[error("the name at byte {0} takes another number of arguments")]
    Arity(usize),
    /// The name at this place is of another kind than is wanted.
    #[error("the name at byte {0} is of another kind")]
    Kind(usize),
    /// The variable at this place, on the right of a rule, does not stand on its left.
    #[error("the variable at byte {0} does not stand on the left")]
    LooseVariable(usize),
    /// What begins at this place passes a limit.
    #[error("what begins at byte {0} passes a limit")]
    TooMany(usize),
    /// The name at this place is that of several restrictions.
    #[error("the name at byte {0} is that of several restrictions")]
    AmbiguousNew(usize),
    /// The phase at this place is not later than the one in force, or in a query past the greatest.
    #[error("the phase at byte {0} is not later than the one in force, or past the greatest")]
    PhaseOrder(usize),
    /// The bytes are more than a file may have, so the numbers of their variables might need more than 32 bits.
    #[error("there are more bytes than a file may have")]
    LongFile,
    /// There is no memory for the protocol.
    #[error("want of memory")]
    Memory(AllocError),
}

/// The error with the place of the token in the bytes.
pub fn error_at(whole: &Text, stop: Stop) -> ScopeError
    ensures { refusal_of result ≡ placed whole.now.source.now whole.now.tokens.now (fault_of stop) }
{
    match stop {
        Stop::Memory(error) => ScopeError::Memory(error),
        Stop::Fault(code, token) => fault_at(code, place(whole, token)),
    }
}

/// The error of this code at this place.
fn fault_at(code: Code, place: usize) -> ScopeError
    ensures { refusal_of result ≡ Some (Scoped (code_of code), place) }
{
    match code {
        Code::Unknown => ScopeError::Unknown(place),
        Code::Twice => ScopeError::Twice(place),
        Code::Arity => ScopeError::Arity(place),
        Code::Kind => ScopeError::Kind(place),
        Code::LooseVariable => ScopeError::LooseVariable(place),
        Code::TooMany => ScopeError::TooMany(place),
        Code::AmbiguousNew => ScopeError::AmbiguousNew(place),
        Code::PhaseOrder => ScopeError::PhaseOrder(place),
    }
}
