//! What is found of the certificates of a report.

ghost use Rattle.std.specs.Prelude.{IfOk};
ghost use Rattle.pi_tree.specs.Protocols.{protocol_of};
ghost use Rattle.protocol_loading.specs.Loaded.{IsLoaded};
ghost use Rattle.protocol_loading.specs.Outside.{outside};
ghost use Rattle.call_outcomes.specs.SeenOutcome.{outcome_of};
ghost use Rattle.call_outcomes.specs.Text.{status_of};
ghost use Rattle.hx.specs.CheckText.{IsEndOfCheck, TellsCheck, IsCheckPage};
ghost use Rattle.hx.specs.Status.{HasStatus};

use crate::loading::load_report;
use crate::outcome::{Outcome, Output, Refusal};
use call_outcomes::{Outcome as Checked, Refusal as Refused, outcome_text, status};
use choice_check::check_text;
use hv_io::Files;
use pi_tree::Protocol;
use std::alloc::{AllocError, Global};

/// The format of certificates in a text that has none.
const NO_CERTIFICATES: u8 = 1;

/// What the call comes to where this is found of the certificates: with status 0 only where each query's is accepted.
fn end_of(checked: &Checked) -> Outcome
    requires { IsEndOfCheck (outcome_of checked.now) }
    ensures { HasStatus result (status_of (outcome_of checked.now)) }
{
    match checked {
        Checked::Checked(_) if status(checked) == 0 => Outcome::Shown,
        Checked::Checked(_) => Outcome::NotFound,
        Checked::Refused(Refused::Report { line, code }) => Outcome::Refused(Refusal::Report {
            line: *line,
            code: *code,
        }),
        _ => unreachable!(),
    }
}

/// What is found of the certificates of the report that these bytes spell, or why they are refused.
fn checked_page(alloc: Global, protocol: &Protocol, bytes: &[u8]) -> Result<Output, AllocError>
    requires { IsLoaded (protocol_of protocol.now) }
    ensures { IfOk result (TellsCheck (protocol_of protocol.now) bytes.now) }
{
    let checked = check_text(alloc, protocol, bytes)?;
    let outcome = end_of(&checked);
    let text = outcome_text(alloc, None, &checked, NO_CERTIFICATES);
    drop(checked);
    Ok(Output {
        outcome,
        text: text?,
    })
}

/// What is found of the certificates of the report that a file holds, or why it is refused.
pub(crate) fn check_page<F: Files>(
    alloc: Global,
    protocol: &Protocol,
    report: &str,
    files: &mut F,
) -> Result<Output, Outcome>
    requires { IsLoaded (protocol_of protocol.now) }
    ensures { IfOk result (IsCheckPage (protocol_of protocol.now)
        (outside F.held F.faults F.loads files.old files.new) report.now) }
{
    let bytes = load_report(report, files)?;
    Ok(checked_page(alloc, protocol, &bytes)?)
}
