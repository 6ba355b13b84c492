//! Why bytes are refused.

ghost use Rattle.std.specs.Prelude.{◌≡◌, Some, option_map, alloc_error};
ghost use Rattle.fact_reader.specs.declared.error.CertError.TheVariants.{Memory};
ghost use Rattle.term_reader.specs.SeenSteps.{code_of};
ghost use Rattle.fact_reader.specs.Errors.{refusal_of, in_numbers};

use std::alloc::{AllocError, AllocFailed};
use term_reader::Code;
use thiserror::Error;

/// Why bytes are refused. A place is the number of a byte, from 0, or how many there are.
#[derive(Debug, Drop, Error)]
pub enum CertError {
    /// No text goes on with the byte at this place.
    #[error("the text can't go on at byte {0}")]
    Syntax(usize),
    /// What stands there is no decimal number of at most nine digits without leading zero.
    #[error("the digits at byte {0} are no number")]
    Number(usize),
    /// The word names nothing that may stand there.
    #[error("the word at byte {0} names nothing that may stand there")]
    Symbol(usize),
    /// What stands there has a wrong number of arguments.
    #[error("what begins at byte {0} has a wrong number of arguments")]
    Arity(usize),
    /// What begins there is too deep, one too many, or not the one that comes next.
    #[error("what begins at byte {0} is too deep, too much or out of order")]
    Count(usize),
    /// What stands there is a node that stands earlier, or a number that names no earlier node, or none to which the walk through
    /// the clauses comes next; or nodes are left to which it never came.
    #[error("what begins at byte {0} does not stand in the order of the nodes")]
    NodeOrder(usize),
    /// The node, or the clause up to the number, or all clauses up to it, have more symbols than the limit.
    #[error("what stands up to the node or number at byte {0} has too many symbols")]
    NodeLarge(usize),
    /// There is no memory for what is read.
    #[error("want of memory")]
    Memory(AllocError),
}

impl From<AllocError> for CertError {
    ghost from_gives = { λ _ e. e ≡ Memory alloc_error };

    fn from(_error: AllocError) -> CertError {
        CertError::Memory(AllocError)
    }
}

impl<T: Drop> From<AllocFailed<T>> for CertError {
    ghost from_gives = { λ _ e. e ≡ Memory alloc_error };

    fn from(_failed: AllocFailed<T>) -> CertError {
        CertError::Memory(AllocError)
    }
}

/// The number of the refusal, from 1 for `Syntax` to 5 for `Count`, 7 for `NodeOrder` and 8 for `NodeLarge`, and its place; none
/// for want of memory.
pub fn code_and_place(error: &CertError) -> Option<(u32, usize)>
    ensures { result ≡ option_map in_numbers (refusal_of error.now) }
{
    match error {
        CertError::Syntax(at) => Some((1, *at)),
        CertError::Number(at) => Some((2, *at)),
        CertError::Symbol(at) => Some((3, *at)),
        CertError::Arity(at) => Some((4, *at)),
        CertError::Count(at) => Some((5, *at)),
        CertError::NodeOrder(at) => Some((7, *at)),
        CertError::NodeLarge(at) => Some((8, *at)),
        CertError::Memory(_) => None,
    }
}

/// The refusal of this code at the place.
pub fn error_at(place: usize, code: Code) -> CertError
    ensures { refusal_of result ≡ Some (code_of code, place) }
{
    match code {
        Code::Syntax => CertError::Syntax(place),
        Code::Number => CertError::Number(place),
        Code::Symbol => CertError::Symbol(place),
        Code::Arity => CertError::Arity(place),
        Code::Count => CertError::Count(place),
    }
}
