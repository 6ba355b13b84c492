//! Why a step is refused.

ghost use Rattle.std.specs.Prelude.{◌≡◌};

use std::alloc::AllocError;
use thiserror::Error;

/// Why a step is refused: of the causes that apply, the first in this order.
#[derive(Clone, Copy, Debug, PartialEq, Eq, Error)]
pub enum StepError {
    /// There is no such thread.
    #[error("there is no such thread")]
    NoThread,
    /// The thread stands at another form or has ended; there is no such constructor, destructor or part; the number
    /// of arguments is another; there is no later phase.
    #[error("the step is of another form than what is there")]
    WrongForm,
    /// The channel is not known.
    #[error("the channel is not known")]
    UnknownChannel,
    /// The channels differ.
    #[error("the channels differ")]
    ChannelsDiffer,
    /// There is no known value of that number.
    #[error("there is no known value of that number")]
    NoKnowledge,
    /// There is no such rule or no such choice of rules, or they do not all apply, or the value does not match.
    #[error("no rule applies, or its value does not match")]
    NoRule,
    /// A value matches, or an entry may be taken.
    #[error("a value matches, or an entry may be taken")]
    NotFailing,
    /// The constructor is private.
    #[error("the constructor is private")]
    NotPublic,
    /// There is no such entry, or it is of another table, or its values do not match or do not meet the condition.
    #[error("there is no such entry, or it may not be taken")]
    NoEntry,
    /// A value that the step evaluates or makes is over the limit of size.
    #[error("a value is over the limit of size")]
    Large,
}

/// Why a step was not applied.
#[derive(Debug, Drop, Error)]
pub enum ApplyError {
    /// The step is refused.
    #[error("{0}")]
    Refused(StepError),
    /// There is no memory for what the step makes.
    #[error("want of memory")]
    Memory(AllocError),
}

impl From<StepError> for ApplyError {
    ghost use Rattle.pi_model.specs.declared.errors.ApplyError.TheVariants.{Refused};

    ghost from_gives = { λ x e. e ≡ Refused x };

    fn from(error: StepError) -> ApplyError {
        ApplyError::Refused(error)
    }
}

impl From<AllocError> for ApplyError {
    ghost use Rattle.pi_model.specs.declared.errors.ApplyError.TheVariants.{Memory};

    ghost from_gives = { λ x e. e ≡ Memory x };

    fn from(error: AllocError) -> ApplyError {
        ApplyError::Memory(error)
    }
}
