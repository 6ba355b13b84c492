//! Loading files, and reading the protocol and the run that they spell.

ghost use Rattle.std.specs.Prelude.{◌≡◌, IfOk};
ghost use Rattle.spec_calculus.specs.Bounds.{most_report_bytes};
ghost use Rattle.spec_protocol_scope.specs.Spells.{Spells};
ghost use Rattle.spec_certificate_text.specs.OfProtocol.{HasNames};
ghost use Rattle.pi_tree.specs.Protocols.{protocol_of};
ghost use Rattle.protocol_loading.specs.Outside.{OfFile, outside};
ghost use Rattle.hx.specs.Readable.{IsReadable};

use crate::outcome::{Outcome, Refusal};
use crate::refusing::{LONG_PROTOCOL, LONG_RUN, Unread};
use call_outcomes::ReportCode;
use hv_io::{Files, LoadError, place};
use pi_lexer::{Tokens, lex};
use pi_parser::{Sketch, parse};
use pi_tree::{MOST_BYTES, MOST_REPORT_BYTES, MOST_RUN_BYTES, Protocol};
use protocol_loading::{Unloaded, load_text};
use run_replay::{Steps, read_run};
use scope_check::check_tokens;
use spec_certificate_text::spelled_protocols_have_names;
use spec_protocol_scope::{proper_rules, query_leaves, well_scoped, within_limits};
use std::alloc::Global;

/// What the bytes of a file are read as.
#[derive(Drop)]
pub(crate) struct Reading {
    pub(crate) tokens: Tokens,
    pub(crate) sketch: Sketch,
    pub(crate) protocol: Protocol,
}

/// Reads the protocol that the bytes spell.
pub(crate) fn read(alloc: Global, bytes: &[u8]) -> Result<Reading, Unread>
    ensures spelled { IfOk result (λ read. Spells bytes.now (protocol_of read.protocol)) }
    ensures readable { IfOk result (λ read. IsReadable (protocol_of read.protocol)) }
    ensures names { IfOk result (λ read. HasNames (protocol_of read.protocol)) }
{
    within_limits();
    proper_rules();
    well_scoped();
    query_leaves();
    spelled_protocols_have_names();
    if bytes.len() > MOST_BYTES {
        return Err(Unread::Refused(LONG_PROTOCOL, 0));
    }
    let tokens = lex(alloc, bytes)?;
    let sketch = parse(alloc, bytes, &tokens)?;
    match check_tokens(alloc, bytes, &tokens, &sketch) {
        Ok(protocol) => Ok(Reading {
            tokens,
            sketch,
            protocol,
        }),
        Err(error) => {
            drop(sketch);
            Err(Unread::from(error))
        }
    }
}

/// The first bytes of a file, one more than the text may have at most.
fn load<F: Files>(name: &str, most: usize, files: &mut F) -> Result<Vec<u8>, Outcome> {
    match files.load(name, most.saturating_add(1)) {
        Ok(bytes) => Ok(bytes),
        Err(LoadError::Failed) => Err(Outcome::ReadFault),
        Err(LoadError::Memory(_)) => Err(Outcome::Memory),
    }
}

/// The bytes of a protocol's file, as far as they matter.
pub(crate) fn load_protocol<F: Files>(file: &str, files: &mut F) -> Result<Vec<u8>, Outcome> {
    load(file, MOST_BYTES, files)
}

/// What the call comes to where these bytes are no protocol.
pub(crate) fn refused_protocol(bytes: &[u8], why: Unread) -> Outcome {
    match why {
        Unread::Refused(code, at) => {
            let (line, column) = place(bytes, bytes.len().min(at as usize));
            Outcome::Refused(Refusal::Protocol { line, column, code })
        }
        Unread::Memory => Outcome::Memory,
    }
}

/// The steps that the bytes spell, where there aren't too many of these.
fn steps_in(alloc: Global, bytes: &[u8]) -> Result<Steps, Unread> {
    if bytes.len() > MOST_RUN_BYTES {
        return Err(Unread::Refused(LONG_RUN, 1));
    }
    let steps = read_run(alloc, bytes)?;
    Ok(steps)
}

/// The run that a file spells, or what the call comes to where there is none.
pub(crate) fn load_run<F: Files>(
    alloc: Global,
    run: &str,
    files: &mut F,
) -> Result<Steps, Outcome> {
    let bytes = load(run, MOST_RUN_BYTES, files)?;
    match steps_in(alloc, &bytes) {
        Ok(steps) => Ok(steps),
        Err(Unread::Refused(code, line)) => Err(Outcome::Refused(Refusal::Run { line, code })),
        Err(Unread::Memory) => Err(Outcome::Memory),
    }
}

/// The bytes of a report's file.
pub(crate) fn load_report<F: Files>(report: &str, files: &mut F) -> Result<Vec<u8>, Outcome>
    ensures { IfOk result (λ bytes.
        OfFile (outside F.held F.faults F.loads files.old files.new) report.now most_report_bytes
        (λ all. bytes.items ≡ all)) }
{
    match load_text(report, MOST_REPORT_BYTES, files) {
        Ok(bytes) => Ok(bytes),
        Err(Unloaded::Failed) => Err(Outcome::ReadFault),
        Err(Unloaded::TooLong) => Err(Outcome::Refused(Refusal::Report {
            line: 1,
            code: ReportCode::LongFile,
        })),
        Err(Unloaded::Memory) => Err(Outcome::Memory),
    }
}
