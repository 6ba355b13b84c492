//! The words of the codes of what is refused.

ghost use Rattle.std.specs.Prelude.{◌≡◌};
ghost use Rattle.pi_model.specs.Errors as errors;
ghost use Rattle.call_outcomes.specs.Seen.{report_refusal_by, run_refusal_by};
ghost use Rattle.call_outcomes.specs.Text.{report_code_text, run_code_text, step_text};

use crate::outcome::{ReportCode, RunCode};
use pi_model::StepError;
use std::fmt;

impl ReportCode {
    /// The number of the code, and its name.
    fn words(self) -> &'static str
        ensures { result.now ≡ report_code_text (report_refusal_by self) }
    {
        match self {
            ReportCode::Syntax => "1 Syntax",
            ReportCode::Number => "2 Number",
            ReportCode::Symbol => "3 Symbol",
            ReportCode::Arity => "4 Arity",
            ReportCode::Count => "5 Count",
            ReportCode::LongFile => "6 LongFile",
            ReportCode::NodeOrder => "7 NodeOrder",
            ReportCode::NodeLarge => "8 NodeLarge",
        }
    }
}

impl fmt::Display for ReportCode {
    ghost use Rattle.std.specs.Prelude.{Some};
    ghost use Rattle.call_outcomes.specs.Seen.{report_refusal_by};
    ghost use Rattle.call_outcomes.specs.Text.{report_code_text};

    ghost output = { λ c. Some (report_code_text (report_refusal_by c)) };

    fn fmt<W: fmt::Write>(&self, f: &mut fmt::Formatter<W>) -> fmt::Result {
        f.write_str(self.words())
    }
}

impl RunCode {
    /// The number of the code, and its name.
    fn words(self) -> &'static str
        ensures { result.now ≡ run_code_text (run_refusal_by self) }
    {
        match self {
            RunCode::Word => "1 Word",
            RunCode::Number => "2 Number",
            RunCode::LongLine => "3 LongLine",
            RunCode::LongFile => "4 LongFile",
        }
    }
}

impl fmt::Display for RunCode {
    ghost use Rattle.std.specs.Prelude.{Some};
    ghost use Rattle.call_outcomes.specs.Seen.{run_refusal_by};
    ghost use Rattle.call_outcomes.specs.Text.{run_code_text};

    ghost output = { λ c. Some (run_code_text (run_refusal_by c)) };

    fn fmt<W: fmt::Write>(&self, f: &mut fmt::Formatter<W>) -> fmt::Result {
        f.write_str(self.words())
    }
}

/// The code of a refused step, and its name.
#[derive(Clone, Copy)]
pub(crate) struct StepCode(pub(crate) StepError);

impl StepCode {
    /// The number of the code, and its name.
    fn words(self) -> &'static str
        ensures { result.now ≡ step_text (errors.refusal_of self.0) }
    {
        match self.0 {
            StepError::NoThread => "1 NoThread",
            StepError::WrongForm => "2 WrongForm",
            StepError::UnknownChannel => "3 UnknownChannel",
            StepError::ChannelsDiffer => "4 ChannelsDiffer",
            StepError::NoKnowledge => "5 NoKnowledge",
            StepError::NoRule => "6 NoRule",
            StepError::NotFailing => "7 NotFailing",
            StepError::NotPublic => "8 NotPublic",
            StepError::Large => "9 Large",
            StepError::NoEntry => "10 NoEntry",
        }
    }
}

impl fmt::Display for StepCode {
    ghost use Rattle.std.specs.Prelude.{Some};
    ghost use Rattle.call_outcomes.specs.Text.{step_text};

    ghost output = { λ c. Some (step_text (errors.refusal_of c.0)) };

    fn fmt<W: fmt::Write>(&self, f: &mut fmt::Formatter<W>) -> fmt::Result {
        f.write_str(self.words())
    }
}
