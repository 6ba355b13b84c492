//! The readers of certificates and reports, and the writer.

use crate::certificate_rows::lines::{Change, changed, line_count};
use cert_form::{Cert, format_for, write_cert};
use cert_text::{CertError, Claim, Claims, code_and_place, read_cert, read_report};
use clause_form::PlainClause;
use pi_tree::Protocol;
use std::alloc::{AllocError, Global};
use term_reader::has_few_names;

/// Why a text isn't read.
#[derive(Drop)]
enum Refusal {
    /// The protocol has too many names.
    ManyNames,
    /// What is wrong with the text.
    Fault(CertError),
}

/// The certificate at the front of the bytes, and where it ends.
fn certificate_in(
    alloc: Global,
    protocol: &Protocol,
    bytes: &[u8],
) -> Result<(Cert, usize), Refusal> {
    if !has_few_names(protocol) {
        return Err(Refusal::ManyNames);
    }
    match read_cert(alloc, protocol, bytes, 0) {
        Ok(found) => Ok(found),
        Err(error) => Err(Refusal::Fault(error)),
    }
}

/// The claims of the report that the bytes are.
fn report_of(alloc: Global, protocol: &Protocol, bytes: &[u8]) -> Result<Claims, Refusal> {
    if !has_few_names(protocol) {
        return Err(Refusal::ManyNames);
    }
    match read_report(alloc, protocol, bytes) {
        Ok(claims) => Ok(claims),
        Err(error) => Err(Refusal::Fault(error)),
    }
}

/// The text of a certificate: by a table, where the bytes that it was read of are, and else each term as it stands.
fn written(
    alloc: Global,
    protocol: &Protocol,
    cert: &Cert,
    bytes: &[u8],
) -> Result<Vec<u8>, AllocError> {
    let format = format_for(2, cert);
    if format == 2 && bytes.starts_with(b"cert 2") {
        return write_cert(alloc, protocol, cert, format);
    }
    write_cert(alloc, protocol, cert, 1)
}

/// A text on one line, with `/` for each line feed.
fn on_one_line(alloc: Global, bytes: &[u8]) -> Result<String, AllocError> {
    let mut text = String::new(alloc);
    for byte in bytes {
        text.push(if *byte == b'\n' { '/' } else { *byte as char })?;
    }
    Ok(text)
}

/// The text of a certificate by a table of nodes, on one line, where it isn't too large for one.
fn nodes_text(alloc: Global, protocol: &Protocol, cert: &Cert) -> Result<String, AllocError> {
    let format = format_for(2, cert);
    if format == 2 {
        on_one_line(alloc, &write_cert(alloc, protocol, cert, format)?)
    } else {
        String::from_str(alloc, "too large")
    }
}

/// The same of the certificate at the front of the bytes.
pub fn nodes(alloc: Global, protocol: &Protocol, bytes: &[u8]) -> Result<String, AllocError> {
    match certificate_in(alloc, protocol, bytes) {
        Ok((cert, _)) => nodes_text(alloc, protocol, &cert),
        Err(refusal) => refusal_text(alloc, &refusal),
    }
}

/// Adds the constraints of a clause: the number from which on each binds variables, its left sides and its right ones.
fn add_constraints(
    alloc: Global,
    clause: &PlainClause,
    text: &mut String,
) -> Result<(), AllocError> {
    for diff in &clause.diffs.items {
        let (left, right) = (&diff.left.items, &diff.right.items);
        text.push_str(format!(in alloc; "{} {left:?} {right:?}.", diff.first)?.as_str())?;
    }
    Ok(())
}

/// The constraints of the clauses of a certificate.
fn constraints_text(alloc: Global, cert: &Cert) -> Result<String, AllocError> {
    let mut text = String::new(alloc);
    for clause in &cert.clauses.items {
        add_constraints(alloc, clause, &mut text)?;
    }
    Ok(text)
}

/// The same of the certificate at the front of the bytes.
pub fn constraints(alloc: Global, protocol: &Protocol, bytes: &[u8]) -> Result<String, AllocError> {
    match certificate_in(alloc, protocol, bytes) {
        Ok((cert, _)) => constraints_text(alloc, &cert),
        Err(refusal) => refusal_text(alloc, &refusal),
    }
}

/// The name of a code, by its number.
fn code_name(code: u32) -> &'static str {
    match code {
        1 => "Syntax",
        2 => "Number",
        3 => "Symbol",
        4 => "Arity",
        7 => "NodeOrder",
        8 => "NodeLarge",
        _ => "Count",
    }
}

/// The text of a fault: its name and its place.
fn fault_text(alloc: Global, error: &CertError) -> Result<String, AllocError> {
    match code_and_place(error) {
        Some((code, place)) => format!(in alloc; "{}({place})", code_name(code)),
        None => String::from_str(alloc, "memory"),
    }
}

/// Why a text isn't read, as tables spell it.
fn refusal_text(alloc: Global, refusal: &Refusal) -> Result<String, AllocError> {
    match refusal {
        Refusal::ManyNames => String::from_str(alloc, "many names"),
        Refusal::Fault(error) => fault_text(alloc, error),
    }
}

/// How many bytes the certificate has, where its text is the front of the bytes that was read, and else the fault.
fn cert_answer(alloc: Global, protocol: &Protocol, bytes: &[u8]) -> Result<String, AllocError> {
    match certificate_in(alloc, protocol, bytes) {
        Ok((cert, behind)) => cert_form(alloc, protocol, &cert, bytes, behind),
        Err(refusal) => refusal_text(alloc, &refusal),
    }
}

/// How many bytes the certificate has, where its text is the front of the bytes that was read.
fn cert_form(
    alloc: Global,
    protocol: &Protocol,
    cert: &Cert,
    bytes: &[u8],
    behind: usize,
) -> Result<String, AllocError> {
    let written = written(alloc, protocol, cert, bytes)?;
    if bytes.get(..behind) == Some(written.as_slice()) {
        format!(in alloc; "ok({behind})")
    } else {
        String::from_str(alloc, "another text")
    }
}

/// `ok` for a report that is read, and else the fault.
fn report_answer(alloc: Global, protocol: &Protocol, bytes: &[u8]) -> Result<String, AllocError> {
    match report_of(alloc, protocol, bytes) {
        Ok(_) => String::from_str(alloc, "ok"),
        Err(refusal) => refusal_text(alloc, &refusal),
    }
}

/// What is answered of a text: of a certificate, or of a report.
pub fn answer(
    alloc: Global,
    protocol: &Protocol,
    is_alone: bool,
    bytes: &[u8],
) -> Result<String, AllocError> {
    if is_alone {
        cert_answer(alloc, protocol, bytes)
    } else {
        report_answer(alloc, protocol, bytes)
    }
}

/// How many clauses, rows and goal rows a certificate has.
fn counts_text(alloc: Global, cert: &Cert) -> Result<String, AllocError> {
    let clauses = cert.clauses.items.len();
    let rows = cert.rows.items.len();
    let goals = cert.goals.items.len();
    format!(in alloc; "proved {clauses} {rows} {goals}.")
}

/// What a claim is, and how many clauses and rows its certificate has.
fn claim_text(alloc: Global, claim: &Claim) -> Result<String, AllocError> {
    match claim {
        Claim::Proved(cert) => counts_text(alloc, cert),
        Claim::Bare => String::from_str(alloc, "bare."),
        Claim::Unknown => String::from_str(alloc, "unknown."),
    }
}

fn claims_text(alloc: Global, claims: &Claims) -> Result<String, AllocError> {
    let mut text = String::new(alloc);
    for claim in &claims.items {
        text.push_str(claim_text(alloc, claim)?.as_str())?;
    }
    Ok(text)
}

/// What a report claims.
pub fn claims(alloc: Global, protocol: &Protocol, bytes: &[u8]) -> Result<String, AllocError> {
    match report_of(alloc, protocol, bytes) {
        Ok(claims) => claims_text(alloc, &claims),
        Err(refusal) => refusal_text(alloc, &refusal),
    }
}

/// Whether a text is refused at its end.
fn is_cut(refusal: &Refusal, bytes: &[u8]) -> bool {
    match refusal {
        Refusal::Fault(CertError::Syntax(place)) => *place == bytes.len(),
        _ => false,
    }
}

/// The size of a front of a report that is a report itself or is refused for something else than its end, and the fault of
/// that one; nothing for any other.
fn front_text(alloc: Global, protocol: &Protocol, front: &[u8]) -> Result<String, AllocError> {
    match report_of(alloc, protocol, front) {
        Ok(_) => format!(in alloc; "{}.", front.len()),
        Err(refusal) => {
            if is_cut(&refusal, front) {
                return Ok(String::new(alloc));
            }
            let shown = refusal_text(alloc, &refusal)?;
            format!(in alloc; "{} {shown}.", front.len())
        }
    }
}

/// The sizes of the fronts of a report that are reports themselves or are refused for something else than their end, and
/// the fault of these.
pub fn fronts(alloc: Global, protocol: &Protocol, bytes: &[u8]) -> Result<String, AllocError> {
    let mut text = String::new(alloc);
    for size in 0..bytes.len() {
        text.push_str(front_text(alloc, protocol, &bytes[..size])?.as_str())?;
    }
    Ok(text)
}

/// The fault of a report of which the line of this number is changed, behind the number from 1, where there is one.
fn change_text(
    alloc: Global,
    protocol: &Protocol,
    bytes: &[u8],
    line: usize,
    change: Change,
) -> Result<String, AllocError> {
    let other = changed(alloc, bytes, line, change)?;
    match report_of(alloc, protocol, &other) {
        Ok(_) => Ok(String::new(alloc)),
        Err(refusal) => {
            let shown = refusal_text(alloc, &refusal)?;
            format!(in alloc; "{} {shown}.", line.saturating_add(1))
        }
    }
}

/// The faults of a report of which one line is changed, each behind the number of the line, where there is one.
pub fn changes(
    alloc: Global,
    protocol: &Protocol,
    bytes: &[u8],
    change: Change,
) -> Result<String, AllocError> {
    let mut text = String::new(alloc);
    for line in 0..line_count(bytes) {
        text.push_str(change_text(alloc, protocol, bytes, line, change)?.as_str())?;
    }
    Ok(text)
}
