//! How the program ends.
ghost use Rattle.std.specs.Prelude.{◌≡◌};
ghost use Rattle.std.specs.Process.{exit_status};

use crate::outcome::Answer;
use std::io::Eprint;
use std::process::{ExitCode, Termination};

/// The status of a call that finds no memory for its words.
const NO_MEMORY: u8 = 7;

/// The status that the program ends with, which only an answer gives, or want of memory for the words.
pub struct Ending {
    status: u8,
}

impl Ending {
    /// With the status of an answer.
    pub fn answered(answer: Answer) -> Self
        ensures { result.status ≡ answer.status }
    {
        Ending {
            status: answer.status,
        }
    }

    /// With no memory for the words, so without an answer.
    pub fn without_words() -> Self
        ensures { result.status ≡ 7 }
    {
        Ending { status: NO_MEMORY }
    }
}

impl Termination for Ending {
    fn report<R: Eprint>(self, _rt: &R) -> ExitCode
        ensures { exit_status result ≡ self.status }
    {
        let Ending { status } = self;
        ExitCode::from(status)
    }
}
