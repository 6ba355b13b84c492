//! Reports: what they claim of each query, with certificates over ids.

ghost use Rattle.std.specs.Prelude.{◌≡◌, ◌≢◌, ℕ, List, [], ◌+◌, ◌≤◌, ◌==◌, drop, length, map, IfOk, IfErr};
ghost use Rattle.std.specs.List.{position_or_len};
ghost use Rattle.pi_tree.specs.Protocols.{protocol_of};
ghost use Rattle.term_reader.specs.Naming.{protocol_in};
ghost use Rattle.term_reader.specs.Few.{HasFewNames};
ghost use Rattle.spec_certificate_text.specs.Reports as reading;
ghost use Rattle.fact_reader.specs.Reads.{left_of, Reads, Passes};
ghost use Rattle.spec_certificate_text.specs.OfProtocol.{HasNames, IsShort};
ghost use Rattle.spec_node_reading.specs.Reading.{read_in_both};
ghost use Rattle.spec_node_reading.specs.Reports.{SpellsReport, read_report_in_both, reports_of_both};
ghost use Rattle.cert_text.specs.Seen.{shared_claim_of, GivesShared};
ghost use Rattle.cert_text.specs.Spelled.{GivesSharedReport};
ghost use Rattle.spec_certificate_text.specs.Terms.{Code};
ghost use Rattle.spec_certificate_faults.specs.First.{IsFirstFault};
ghost use Rattle.fact_reader.specs.Errors.{refusal_of};
ghost use Rattle.cert_text.specs.Refused.{IsFirstOf, GivesRefusal};

use crate::certs::certificate;
use fact_reader::{CertError, Cursor};
use pi_tree::Protocol;
use shared_cert::SharedCert;
use spec_node_first_faults::the_first_fault_of_a_report_in_either_format_is_told;
use spec_node_reading::{texts_are_read, what_is_read_is_spelled};
use std::alloc::Global;
use std::marker::Model;
use term_reader::Names;

/// What a report claims of a query: a `Claim` whose certificate is over ids.
#[derive(Drop)]
pub enum SharedClaim {
    /// It is proved, as this certificate is to show.
    Proved(SharedCert),
    /// It is proved, with no certificate.
    Bare,
    /// Whether it holds is unknown, or an attack is claimed: neither is looked at.
    Unknown,
}

/// Claims in order, one for each query.
#[derive(Drop)]
pub struct SharedClaims {
    pub items: Vec<SharedClaim>,
}

impl Model for SharedClaims {
    ghost use Rattle.std.specs.Prelude.{List};
    ghost use Rattle.cert_text.specs.declared.shared_claims.SharedClaim.{SharedClaim};
    ghost use Rattle.cert_text.specs.Codes.{coded_shared_claims};

    ghost Value = { List SharedClaim };

    ghost coded = { coded_shared_claims };

    ghost view = { λ a. a.items.items };
}

/// `query ` and the number of the query, which has to be this one.
fn query_number(cursor: &mut Cursor<'_>, number: usize) -> Result<(), CertError>
    ensures read { Passes (reading.query_number number) cursor.old cursor.new result }
    ensures same { cursor.new.bytes.now ≡ cursor.old.bytes.now }
{
    cursor.pass(b"query ")?;
    let from = cursor.at;
    let found = cursor.number()?;
    if found as usize == number {
        Ok(())
    } else {
        Err(CertError::Count(from))
    }
}

/// How many bytes stand before the first end of a line, or how many there are where there is none.
fn line_len(bytes: &[u8]) -> usize
    ensures is { result ≡ position_or_len (λ b. b == 10) bytes.now }
    ensures within { result ≤ length bytes.now }
{
    bytes.iter().take_while(|byte| **byte != b'\n').count()
}

/// The place of the end of the line.
fn line_end(bytes: &[u8], at: usize) -> usize
    requires { at ≤ length bytes.now }
    ensures is { result ≡ at + position_or_len (λ b. b == 10) (drop at bytes.now) }
    ensures within { result ≤ length bytes.now }
{
    at + line_len(&bytes[at..])
}

/// Passes over some bytes, one at least, and the end of their line.
fn text(cursor: &mut Cursor<'_>) -> Result<(), CertError>
    ensures read { Passes reading.read_text cursor.old cursor.new result }
    ensures same { cursor.new.bytes.now ≡ cursor.old.bytes.now }
{
    let end = line_end(cursor.bytes, cursor.at);
    if end == cursor.at {
        return Err(CertError::Syntax(cursor.at));
    }
    cursor.at = end;
    cursor.pass(b"\n")
}

/// A certificate, if one begins here.
fn proof(names: &Names<'_>, cursor: &mut Cursor<'_>) -> Result<SharedClaim, CertError>
    ensures read { Reads shared_claim_of (reading.proof_by (read_in_both (protocol_in names.now)))
        cursor.old cursor.new result }
    ensures same { cursor.new.bytes.now ≡ cursor.old.bytes.now }
{
    if cursor.front() != b'c' {
        return Ok(SharedClaim::Bare);
    }
    let cert = certificate(names, cursor)?;
    Ok(SharedClaim::Proved(cert))
}

/// ` proved` and the end of the line, and a certificate, if one stands behind it.
fn proved(names: &Names<'_>, cursor: &mut Cursor<'_>) -> Result<SharedClaim, CertError>
    ensures read { Reads shared_claim_of (reading.proved_by (read_in_both (protocol_in names.now)))
        cursor.old cursor.new result }
    ensures same { cursor.new.bytes.now ≡ cursor.old.bytes.now }
{
    cursor.pass(b" proved\n")?;
    proof(names, cursor)
}

/// ` unknown `, a reason, which isn't looked at, and the end of the line.
fn unknown(cursor: &mut Cursor<'_>) -> Result<SharedClaim, CertError>
    ensures read { Reads shared_claim_of reading.read_unknown cursor.old cursor.new result }
    ensures same { cursor.new.bytes.now ≡ cursor.old.bytes.now }
{
    cursor.pass(b" unknown ")?;
    text(cursor)?;
    Ok(SharedClaim::Unknown)
}

/// A step of a run: `s ` and some bytes, one at least, and the end of the line.
fn step(cursor: &mut Cursor<'_>) -> Result<(), CertError>
    ensures read { Passes reading.read_step cursor.old cursor.new result }
    ensures same { cursor.new.bytes.now ≡ cursor.old.bytes.now }
{
    cursor.pass(b"s ")?;
    text(cursor)
}

/// The steps of a run, which aren't looked at, and `end`.
fn run(cursor: &mut Cursor<'_>) -> Result<(), CertError>
    ensures read { Passes reading.read_run cursor.old cursor.new result }
    ensures same { cursor.new.bytes.now ≡ cursor.old.bytes.now }
{
    for round in cursor.at..cursor.bytes.len() {
        if cursor.front() != b's' {
            return cursor.pass(b"end\n");
        }
        step(cursor)?;
    }
    if cursor.front() == b's' {
        return Err(CertError::Count(cursor.at));
    }
    cursor.pass(b"end\n")
}

/// ` attack` and the end of the line, and a run, which shows no proof.
fn attack(cursor: &mut Cursor<'_>) -> Result<SharedClaim, CertError>
    ensures read { Reads shared_claim_of reading.read_attack cursor.old cursor.new result }
    ensures same { cursor.new.bytes.now ≡ cursor.old.bytes.now }
{
    cursor.pass(b" attack\n")?;
    run(cursor)?;
    Ok(SharedClaim::Unknown)
}

/// What is claimed: the second byte tells ` unknown `, ` attack` and ` proved` apart.
fn verdict(names: &Names<'_>, cursor: &mut Cursor<'_>) -> Result<SharedClaim, CertError>
    ensures read { Reads shared_claim_of (reading.verdict_by (read_in_both (protocol_in names.now)))
        cursor.old cursor.new result }
    ensures same { cursor.new.bytes.now ≡ cursor.old.bytes.now }
{
    let second = cursor.front_behind(1);
    if second == b'u' {
        unknown(cursor)
    } else if second == b'a' {
        attack(cursor)
    } else {
        proved(names, cursor)
    }
}

/// The claim of the query of this number.
fn query_claim(
    names: &Names<'_>,
    cursor: &mut Cursor<'_>,
    number: usize,
) -> Result<SharedClaim, CertError>
    ensures read { Reads shared_claim_of
        (reading.claim_by (read_in_both (protocol_in names.now)) number)
        cursor.old cursor.new result }
    ensures same { cursor.new.bytes.now ≡ cursor.old.bytes.now }
{
    query_number(cursor, number)?;
    verdict(names, cursor)
}

/// The fault of what stands behind the claim of the last query: no number is that of a further query.
fn further(cursor: &mut Cursor<'_>) -> Result<SharedClaims, CertError>
    ensures { (claims : List reading.Claim) → left_of cursor.old ≢ [] →
        GivesShared result (reading.behind_claims claims cursor.old.at (left_of cursor.old)) }
{
    cursor.pass(b"query ")?;
    let from = cursor.at;
    cursor.number()?;
    Err(CertError::Count(from))
}

/// How many queries the protocol has.
fn query_count(protocol: &Protocol) -> usize
    ensures { result ≡ length (protocol_of protocol.now).queries }
{
    protocol.queries.items.len()
}

/// The claims that stand there, one for each query of the protocol, with nothing behind them.
#[tactic(auto, using(crate::proofs::Claimed::claims))]
fn all_claims(names: &Names<'_>, cursor: &mut Cursor<'_>) -> Result<SharedClaims, CertError>
    ensures { GivesShared result (reading.claims_by (read_in_both (protocol_in names.now))
        (length (protocol_in names.now).queries) 1 [] (left_of cursor.old) cursor.old.at) }
{
    let mut items = Vec::new(names.alloc);
    for query in 0..query_count(names.protocol) {
        if cursor.is_at_end() {
            return Err(CertError::Count(cursor.at));
        }
        let next = query_claim(names, cursor, query + 1)?;
        items.push(next)?;
    }
    if cursor.is_at_end() {
        return Ok(SharedClaims { items });
    }
    further(cursor)
}

/// The claims of all bytes, one for each query of the protocol.
fn report_claims(
    alloc: Global,
    protocol: &Protocol,
    bytes: &[u8],
) -> Result<SharedClaims, CertError>
    requires { HasFewNames (protocol_of protocol.now) }
    ensures { GivesShared result (read_report_in_both (protocol_of protocol.now) bytes.now) }
{
    let mut cursor = Cursor { bytes, at: 0 };
    let greatest = protocol.greatest_phase();
    let names = Names {
        alloc,
        protocol,
        greatest,
    };
    all_claims(&names, &mut cursor)
}

/// The claims of a report, one for each query of the protocol; or the first fault. It reads as `read_report` does, in time and
/// memory that grow with the bytes: each node of a certificate by a table is made once, and each term of another one that stands
/// there more often.
pub fn read_shared_report(
    alloc: Global,
    protocol: &Protocol,
    bytes: &[u8],
) -> Result<SharedClaims, CertError>
    requires { HasFewNames (protocol_of protocol.now) }
    ensures read { GivesShared result
        (read_report_in_both (protocol_of protocol.now) bytes.now) }

    // What is read is spelled, and claims that are spelled are read.
    ensures spelled { IfOk result (λ claims.
        SpellsReport (protocol_of protocol.now) bytes.now (map shared_claim_of claims)) }
    ensures accepts { (claims : List reading.Claim) → HasNames (protocol_of protocol.now) →
        IsShort (length (protocol_of protocol.now).queries) →
        SpellsReport (protocol_of protocol.now) bytes.now claims →
        GivesSharedReport claims result }

    // A refusal is the first fault of the bytes, and the first fault is the refusal.
    ensures refused { let P = protocol_of protocol.now in HasNames P → IfErr result (λ e.
        IsFirstOf (reports_of_both P) bytes.now 0 (refusal_of e)) }
    ensures first_fault { (place : ℕ) (code : Code) → let P = protocol_of protocol.now in
        HasNames P → IsFirstFault (reports_of_both P) bytes.now 0 place code →
        GivesRefusal place code result }
{
    what_is_read_is_spelled();
    texts_are_read();
    the_first_fault_of_a_report_in_either_format_is_told();
    report_claims(alloc, protocol, bytes)
}
