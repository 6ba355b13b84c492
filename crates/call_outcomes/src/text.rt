//! The text of an outcome, and the status that the program ends with.

ghost use Rattle.std.specs.Prelude.{◌≡◌, ◌⊎◌, ◌++◌, codes, decimal, is_none, IfOk, OnOk};
ghost use Rattle.std.specs.List.{list_all};
ghost use Rattle.pi_tree.specs.Protocols.{protocol_of};
ghost use Rattle.protocol_loading.specs.Codes.{refusal_by};
ghost use Rattle.pi_model.specs.Errors as errors;
ghost use Rattle.cert_checker.specs.declared.ruling.Ruling.TheVariants as ruling;
ghost use Rattle.call_outcomes.specs.VerdictText.{line, verdict_lines};
ghost use Rattle.call_outcomes.specs.Outcome as own;
ghost use Rattle.call_outcomes.specs.Seen.{report_refusal_by, run_refusal_by, replay_of};
ghost use Rattle.call_outcomes.specs.SeenOutcome.{outcome_of, refusal_of};
ghost use Rattle.call_outcomes.specs.Text.{clause_lines, in_words, words_of, summary_lines, outcome_bytes};
ghost use Rattle.call_outcomes.specs.Text.{refusal_text, first_text, first_lines, done_text, replay_text};
ghost use Rattle.call_outcomes.specs.Text.{ruling_text, finding_text, finding_lines};
ghost use Rattle.call_outcomes.specs.Text.{is_accepted, is_without_violation, status_of};

use crate::codes::StepCode;
use crate::outcome::{Finding, Findings, Outcome, Refusal, ReportCode, Ring, RunCode};
use crate::summary::put_summary;
use crate::verdicts::{are_proved, is_proved, put_query, put_verdicts};
use cert_checker::Ruling;
use cert_form::{PlainClauses, put_clause};
use hv_io::put_words;
use pi_model::StepError;
use pi_tree::Protocol;
use protocol_loading::ProtocolCode;
use query_verify::Verdicts;
use run_replay::{Firsts, Replayed};
use std::alloc::{AllocError, Global};

/// What is written for words that are no command.
pub const USAGE: &[u8] =
    b"usage: verify FILE [--budget N] [--format F] | check FILE REPORT | list FILE QUERY | replay FILE RUN | ring N\n";

/// What is written where a file could not be read.
pub const READ_FAULT: &[u8] = b"read fault\n";

/// What is written where there was no memory.
pub const WANT_OF_MEMORY: &[u8] = b"want of memory\n";

/// Puts the line that refuses a protocol at a place.
fn put_protocol_refusal(
    out: &mut Vec<u8>,
    row: u64,
    column: u64,
    code: ProtocolCode,
) -> Result<(), AllocError>
    ensures { OnOk result (out.new.items ≡ out.old.items ++
        line (refusal_text (own.Protocol row column (refusal_by code)))) }
{
    put_words(out, format_args!("refused {row}:{column} {code}\n"))
}

/// Puts the line that refuses a report at one of its lines.
fn put_report_refusal(out: &mut Vec<u8>, row: u64, code: ReportCode) -> Result<(), AllocError>
    ensures { OnOk result (out.new.items ≡ out.old.items ++
        line (refusal_text (own.Report row (report_refusal_by code)))) }
{
    put_words(out, format_args!("refused report {row} {code}\n"))
}

/// Puts the line that refuses the text of a run at one of its lines.
fn put_run_refusal(out: &mut Vec<u8>, row: u64, code: RunCode) -> Result<(), AllocError>
    ensures { OnOk result (out.new.items ≡ out.old.items ++
        line (refusal_text (own.Run row (run_refusal_by code)))) }
{
    put_words(out, format_args!("refused run {row} {code}\n"))
}

/// Puts the text of a refusal, one line.
fn put_refusal(out: &mut Vec<u8>, refusal: Refusal) -> Result<(), AllocError>
    ensures { OnOk result (out.new.items ≡ out.old.items ++
        line (refusal_text (refusal_of refusal))) }
{
    match refusal {
        Refusal::Protocol { line, column, code } => put_protocol_refusal(out, line, column, code),
        Refusal::Report { line, code } => put_report_refusal(out, line, code),
        Refusal::Run { line, code } => put_run_refusal(out, line, code),
    }
}

/// Puts what is ruled of a pair of clauses of which a resolvent isn't covered.
fn put_closure(
    out: &mut Vec<u8>,
    solved: u64,
    unsolved: u64,
    resolvent: u64,
) -> Result<(), AllocError>
    ensures { OnOk result (out.new.items ≡ out.old.items ++
        ruling_text (ruling.Closure solved unsolved resolvent)) }
{
    put_words(
        out,
        format_args!("refused closure {solved} {unsolved} {resolvent}"),
    )
}

/// Puts what is ruled of a certificate.
fn put_ruling(out: &mut Vec<u8>, ruling: Ruling) -> Result<(), AllocError>
    ensures { OnOk result (out.new.items ≡ out.old.items ++ ruling_text ruling) }
{
    match ruling {
        Ruling::Accepted => out.extend_from_slice(b"accepted"),
        Ruling::Shape(clause) => put_words(out, format_args!("refused shape {clause}")),
        Ruling::Translation(point) => put_words(out, format_args!("refused translation {point}")),
        Ruling::Cover(clause) => put_words(out, format_args!("refused cover {clause}")),
        Ruling::Closure(solved, unsolved, resolvent) => {
            put_closure(out, solved, unsolved, resolvent)
        }
        Ruling::Goal(clause) => put_words(out, format_args!("refused goal {clause}")),
        Ruling::Extra(row) => put_words(out, format_args!("refused extra {row}")),
    }
}

/// Puts what is found of a claim.
fn put_finding(out: &mut Vec<u8>, finding: Finding) -> Result<(), AllocError>
    ensures { OnOk result (out.new.items ≡ out.old.items ++ finding_text finding) }
{
    match finding {
        Finding::Ruled(ruling) => put_ruling(out, ruling),
        Finding::Missing => out.extend_from_slice(b"missing"),
        Finding::NotClaimed => out.extend_from_slice(b"not claimed"),
    }
}

/// Puts the line of a query of a report that was checked.
fn put_finding_line(out: &mut Vec<u8>, number: u64, finding: Finding) -> Result<(), AllocError>
    ensures { OnOk result (out.new.items ≡ out.old.items ++
        line (codes "query " ++ decimal number ++ codes " " ++ finding_text finding)) }
{
    put_query(out, number)?;
    put_finding(out, finding)?;
    out.push(b'\n')?;
    Ok(())
}

/// Puts a line for each query of a report that was checked.
fn put_findings(out: &mut Vec<u8>, findings: &Findings) -> Result<(), AllocError>
    ensures { OnOk result (out.new.items ≡ out.old.items ++ finding_lines 1 findings.now) }
{
    'each: for (place, finding) in findings.items.iter().enumerate() {
        put_finding_line(out, place as u64 + 1, *finding)?;
    }
    Ok(())
}

/// Puts since when a query is violated.
fn put_first(out: &mut Vec<u8>, first: Option<u64>) -> Result<(), AllocError>
    ensures { OnOk result (out.new.items ≡ out.old.items ++ first_text first) }
{
    match first {
        None => out.extend_from_slice(b"not violated"),
        Some(step) => put_words(out, format_args!("violated {step}")),
    }
}

/// Puts the line of a query of a replay.
fn put_first_line(out: &mut Vec<u8>, number: u64, first: Option<u64>) -> Result<(), AllocError>
    ensures { OnOk result (out.new.items ≡ out.old.items ++
        line (codes "query " ++ decimal number ++ codes " " ++ first_text first)) }
{
    put_query(out, number)?;
    put_first(out, first)?;
    out.push(b'\n')?;
    Ok(())
}

/// Puts a line for each query of a replay.
fn put_firsts(out: &mut Vec<u8>, firsts: &Firsts) -> Result<(), AllocError>
    ensures { OnOk result (out.new.items ≡ out.old.items ++ first_lines 1 firsts.now) }
{
    'each: for (place, first) in firsts.items.iter().enumerate() {
        put_first_line(out, place as u64 + 1, *first)?;
    }
    Ok(())
}

/// Puts the text of a replay to the end.
fn put_done(out: &mut Vec<u8>, steps: u64, firsts: &Firsts) -> Result<(), AllocError>
    ensures { OnOk result (out.new.items ≡ out.old.items ++ done_text steps firsts.now) }
{
    put_words(out, format_args!("done {steps}\n"))?;
    put_firsts(out, firsts)
}

/// Puts the text of a replay up to a step that is refused.
fn put_stuck(out: &mut Vec<u8>, number: u64, error: StepError) -> Result<(), AllocError>
    ensures { OnOk result (out.new.items ≡ out.old.items ++
        replay_text (own.Stuck number (errors.refusal_of error))) }
{
    let code = StepCode(error);
    put_words(out, format_args!("stuck {number} {code}\n"))
}

/// Puts the text of a replay.
fn put_replayed(out: &mut Vec<u8>, replayed: &Replayed) -> Result<(), AllocError>
    ensures { OnOk result (out.new.items ≡ out.old.items ++
        replay_text (replay_of replayed.now)) }
{
    match replayed {
        Replayed::Done(end, firsts) => put_done(out, end.steps, firsts),
        Replayed::Stuck(number, error) => put_stuck(out, *number, *error),
    }
}

/// Puts a line for each clause, in the words of the protocol.
fn put_clauses(
    out: &mut Vec<u8>,
    protocol: &Protocol,
    clauses: &PlainClauses,
) -> Result<(), AllocError>
    ensures { OnOk result (out.new.items ≡
        out.old.items ++ clause_lines (protocol_of protocol.now) clauses.now) }
{
    'each: for clause in &clauses.items {
        put_clause(out, protocol, clause)?;
        out.push(b'\n')?;
    }
    Ok(())
}

/// Puts the verdicts' text, where there is a protocol in whose words to write it.
fn put_verified(
    out: &mut Vec<u8>,
    protocol: Option<&Protocol>,
    verdicts: &Verdicts,
    format: u8,
) -> Result<(), AllocError>
    ensures { OnOk result (out.new.items ≡ out.old.items ++
        in_words (verdict_lines format 1 verdicts.now) (words_of protocol.entry)) }
{
    match protocol {
        Some(protocol) => put_verdicts(out, protocol, verdicts, format),
        None => Ok(()),
    }
}

/// Puts the clauses' lines, where there is a protocol in whose words to write them.
fn put_listed(
    out: &mut Vec<u8>,
    protocol: Option<&Protocol>,
    clauses: &PlainClauses,
) -> Result<(), AllocError>
    ensures { OnOk result (out.new.items ≡ out.old.items ++
        in_words (λ own. clause_lines own clauses.now) (words_of protocol.entry)) }
{
    match protocol {
        Some(protocol) => put_clauses(out, protocol, clauses),
        None => Ok(()),
    }
}

/// Puts the lines of a ring's summary, where there is a protocol in whose words to write them.
fn put_ring(out: &mut Vec<u8>, protocol: Option<&Protocol>, ring: &Ring) -> Result<(), AllocError>
    ensures { OnOk result (out.new.items ≡ out.old.items ++
        in_words (summary_lines ring.now) (words_of protocol.entry)) }
{
    match protocol {
        Some(protocol) => put_summary(out, protocol, ring),
        None => Ok(()),
    }
}

/// Puts all that a call writes whose outcome is this.
fn put_outcome(
    out: &mut Vec<u8>,
    protocol: Option<&Protocol>,
    outcome: &Outcome,
    format: u8,
) -> Result<(), AllocError>
    ensures { OnOk result (out.new.items ≡ out.old.items ++
        outcome_bytes format (words_of protocol.entry) (outcome_of outcome.now)) }
{
    match outcome {
        Outcome::Usage => out.extend_from_slice(USAGE),
        Outcome::Verified(verdicts) => put_verified(out, protocol, verdicts, format),
        Outcome::Checked(findings) => put_findings(out, findings),
        Outcome::Listed(clauses) => put_listed(out, protocol, clauses),
        Outcome::ListLarge(point) => put_words(out, format_args!("size point {point}\n")),
        Outcome::NoQuery(query) => put_words(out, format_args!("no query {query}\n")),
        Outcome::Replayed(replayed) => put_replayed(out, replayed),
        Outcome::Ring(ring) => put_ring(out, protocol, ring),
        Outcome::Refused(refusal) => put_refusal(out, *refusal),
        Outcome::ReadFault => out.extend_from_slice(READ_FAULT),
        Outcome::Memory => out.extend_from_slice(WANT_OF_MEMORY),
    }
}

/// All that a call writes whose outcome is this, each line ended by LF. Verdicts and clauses are written in the words of
/// the protocol, and not at all where none is given; certificates in format 1 or 2, but one that is too large for a table of
/// nodes in format 1.
pub fn outcome_text(
    alloc: Global,
    protocol: Option<&Protocol>,
    outcome: &Outcome,
    format: u8,
) -> Result<Vec<u8>, AllocError>
    requires { (format ≡ 1) ⊎ (format ≡ 2) }
    ensures { IfOk result (λ text. text.items ≡
        outcome_bytes format (words_of protocol.entry) (outcome_of outcome.now)) }
{
    let mut text = Vec::new(alloc);
    put_outcome(&mut text, protocol, outcome, format)?;
    Ok(text)
}

/// Whether the finding is that the certificate is accepted.
fn is_accepted(finding: Finding) -> bool
    ensures { result ≡ is_accepted finding }
{
    matches!(finding, Finding::Ruled(Ruling::Accepted))
}

/// Whether each finding is that the certificate is accepted.
fn are_accepted(findings: &Findings) -> bool
    ensures { result ≡ list_all is_accepted findings.now }
{
    for finding in &findings.items {
        if !is_accepted(*finding) {
            return false;
        }
    }
    true
}

/// Whether no query is violated.
fn are_unviolated(firsts: &Firsts) -> bool
    ensures { result ≡ list_all is_none firsts.now }
{
    for first in &firsts.items {
        if first.is_some() {
            return false;
        }
    }
    true
}

/// Whether the run was replayed to its end and violates no query.
fn is_without_violation(replayed: &Replayed) -> bool
    ensures { result ≡ is_without_violation (replay_of replayed.now) }
{
    match replayed {
        Replayed::Done(_, firsts) => are_unviolated(firsts),
        Replayed::Stuck(_, _) => false,
    }
}

/// The status that the program ends with where the outcome's text was written.
pub fn status(outcome: &Outcome) -> u8
    ensures { result ≡ status_of (outcome_of outcome.now) }
{
    match outcome {
        Outcome::Usage => 2,
        Outcome::Verified(verdicts) => { if are_proved(verdicts) { 0 } else { 1 } }
        Outcome::Checked(findings) => { if are_accepted(findings) { 0 } else { 1 } }
        Outcome::Listed(_) => 0,
        Outcome::ListLarge(_) | Outcome::NoQuery(_) => 1,
        Outcome::Replayed(replayed) => { if is_without_violation(replayed) { 0 } else { 1 } }
        Outcome::Ring(ring) => { if is_proved(&ring.verdict) { 0 } else { 1 } }
        Outcome::Refused(Refusal::Protocol { .. }) => 3,
        Outcome::Refused(Refusal::Report { .. }) => 4,
        Outcome::Refused(Refusal::Run { .. }) => 4,
        Outcome::ReadFault => 5,
        Outcome::Memory => 7,
    }
}
