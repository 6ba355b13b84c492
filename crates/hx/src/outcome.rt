//! What a call of the program comes to.

ghost use Rattle.hx.specs.Status.{HasStatus};

use call_outcomes::ReportCode;
use pi_model::StepError;
use std::alloc::AllocError;

/// A text that is refused, where and why, as the verifier refuses it.
#[derive(Clone, Copy)]
pub enum Refusal {
    /// The protocol; line and column are counted from 1, in bytes.
    Protocol {
        line: u64,
        column: u64,
        code: &'static str,
    },
    /// The report; the line is counted from 1.
    Report {
        line: u64,
        code: ReportCode,
    },
    /// The run; the line is counted from 1.
    Run {
        line: u64,
        code: &'static str,
    },
}

/// What a call of the program comes to.
#[derive(Clone, Copy)]
pub enum Outcome {
    /// The words are no command.
    Usage,
    /// What was asked for is shown.
    Shown,
    /// What was found is shown, and not all that was looked for was found.
    NotFound,
    /// What looks like a mistake is shown, and that is to be told by the status.
    Warned,
    /// The protocol has no query of this number.
    NoQuery(u32),
    /// The step of this number of the run, from 1, is refused, so nothing is drawn.
    Stuck(u64, StepError),
    /// The run has more steps than are drawn.
    LongRun,
    /// A text was refused.
    Refused(Refusal),
    /// A file could not be read.
    ReadFault,
    /// Want of memory, which may come in place of any other outcome.
    Memory,
}

impl From<AllocError> for Outcome {
    fn from(_error: AllocError) -> Outcome {
        Outcome::Memory
    }
}

/// What is shown, and what that comes to.
#[derive(Drop)]
pub struct Output {
    pub outcome: Outcome,
    pub text: Vec<u8>,
}

/// What a call ends with: the outcome, and the program's exit status.
#[derive(Clone, Copy)]
pub struct Answer {
    pub status: u8,
    pub outcome: Outcome,
}

/// The status that the program ends with where the outcome's text was written.
pub fn status(outcome: Outcome) -> u8
    ensures { HasStatus outcome result }
{
    match outcome {
        Outcome::Shown => 0,
        Outcome::NotFound
        | Outcome::Warned
        | Outcome::NoQuery(_)
        | Outcome::Stuck(_, _)
        | Outcome::LongRun => 1,
        Outcome::Usage => 2,
        Outcome::Refused(Refusal::Protocol { .. }) => 3,
        Outcome::Refused(Refusal::Report { .. }) => 4,
        Outcome::Refused(Refusal::Run { .. }) => 4,
        Outcome::ReadFault => 5,
        Outcome::Memory => 7,
    }
}
