//! Certificates.

ghost use Rattle.std.specs.Prelude.{◌≡◌, ℕ, ◌≤◌, List, [], drop, length, IfOk, IfErr};
ghost use Rattle.pi_tree.specs.Protocols.{protocol_of};
ghost use Rattle.term_reader.specs.Naming.{protocol_in};
ghost use Rattle.term_reader.specs.Few.{HasFewNames};
ghost use Rattle.spec_certificate_text.specs.Certificates as reading;
ghost use Rattle.spec_certificate_text.specs.Outcomes.{lines_from};
ghost use Rattle.spec_node_reading.specs.Reading as by_numbers;
ghost use Rattle.spec_node_reading.specs.Readable.{SpellsCertificate};
ghost use Rattle.spec_node_reading.specs.Clauses.{certificates_of_both};
ghost use Rattle.fact_reader.specs.Gives.{Gives, StopsWithin, same};
ghost use Rattle.fact_reader.specs.Reads.{Reads};
ghost use Rattle.spec_certificates.specs.Certificate.{Certificate};
ghost use Rattle.spec_certificate_text.specs.OfProtocol.{HasNames};
ghost use Rattle.spec_certificate_text.specs.Terms.{Code};
ghost use Rattle.spec_certificate_faults.specs.First.{IsFirstFault};
ghost use Rattle.fact_reader.specs.Errors.{refusal_of};
ghost use Rattle.cert_text.specs.Spelled.{GivesCertificate};
ghost use Rattle.cert_text.specs.Refused.{IsFirstOf, GivesRefusal};

use crate::rows::rows;
use cert_form::Cert;
use clause_form::PlainClause;
use fact_reader::{CertError, Cursor, read_clause};
use numbered_reader::read_numbered;
use pi_tree::{MOST_CLAUSES, Protocol};
use shared_cert::{SharedCert, SharedClauses};
use spec_node_counts::numbers_are_read_by_counts;
use spec_node_first_faults::the_first_fault_of_a_certificate_in_either_format_is_told;
use spec_node_reading::{texts_are_read, what_is_read_is_spelled};
use std::alloc::Global;
use term_reader::Names;

/// `c `, a clause and the end of its line.
fn clause_line(names: &Names<'_>, cursor: &mut Cursor<'_>) -> Result<PlainClause, CertError>
    ensures read { Reads same (reading.clause_line (protocol_in names.now))
        cursor.old cursor.new result }
    ensures same { cursor.new.bytes.now ≡ cursor.old.bytes.now }
{
    cursor.pass(b"c ")?;
    let clause = read_clause(names, cursor)?;
    cursor.pass(b"\n")?;
    Ok(clause)
}

/// Lines of clauses, at most so many. Each is read as it is spelled, and kept over the ids of a bank.
#[tactic(auto, using(crate::proofs::Lines::lines))]
fn clauses(
    names: &Names<'_>,
    cursor: &mut Cursor<'_>,
    most: usize,
) -> Result<SharedClauses, CertError>
    ensures read { Reads same
        (lines_from 99 (reading.clause_line (protocol_in names.now)) most [])
        cursor.old cursor.new result }
    ensures same { cursor.new.bytes.now ≡ cursor.old.bytes.now }
{
    let mut found = SharedClauses::new(names.alloc)?;
    for round in 0..most {
        if cursor.front() != b'c' {
            return Ok(found);
        }
        let next = clause_line(names, cursor)?;
        found.push(names.alloc, &next)?;
    }
    if cursor.front() == b'c' {
        return Err(CertError::Count(cursor.at));
    }
    Ok(found)
}

/// The two kinds of rows, and the last line.
fn certificate_end(
    alloc: Global,
    cursor: &mut Cursor<'_>,
    clauses: SharedClauses,
) -> Result<SharedCert, CertError>
    ensures read { Reads same (reading.certificate_end clauses) cursor.old cursor.new result }
    ensures same { cursor.new.bytes.now ≡ cursor.old.bytes.now }
{
    let cover = rows(alloc, cursor, b'r')?;
    let goals = rows(alloc, cursor, b'g')?;
    cursor.pass(b"end\n")?;
    Ok(SharedCert {
        clauses,
        rows: cover,
        goals,
    })
}

/// The certificate without a table that stands there, of at most so many clauses.
fn plain_within(
    names: &Names<'_>,
    cursor: &mut Cursor<'_>,
    most: usize,
) -> Result<SharedCert, CertError>
    ensures read { Reads same (reading.certificate_within most (protocol_in names.now))
        cursor.old cursor.new result }
    ensures same { cursor.new.bytes.now ≡ cursor.old.bytes.now }
{
    cursor.pass(b"cert 1\n")?;
    let clauses = clauses(names, cursor, most)?;
    certificate_end(names.alloc, cursor, clauses)
}

/// The certificate without a table that stands there.
fn plain(names: &Names<'_>, cursor: &mut Cursor<'_>) -> Result<SharedCert, CertError>
    ensures read { Reads same (reading.read_certificate (protocol_in names.now))
        cursor.old cursor.new result }
    ensures same { cursor.new.bytes.now ≡ cursor.old.bytes.now }
{
    plain_within(names, cursor, MOST_CLAUSES)
}

/// The certificate by a table that stands there.
fn numbered(names: &Names<'_>, cursor: &mut Cursor<'_>) -> Result<SharedCert, CertError>
    ensures read { Reads same (by_numbers.read_numbered (protocol_in names.now))
        cursor.old cursor.new result }
    ensures same { cursor.new.bytes.now ≡ cursor.old.bytes.now }
{
    numbers_are_read_by_counts();
    let clauses = read_numbered(names, cursor)?;
    certificate_end(names.alloc, cursor, clauses)
}

/// The certificate that stands there, in the format that its first line names.
pub fn certificate(names: &Names<'_>, cursor: &mut Cursor<'_>) -> Result<SharedCert, CertError>
    ensures read { Reads same (by_numbers.read_in_both (protocol_in names.now))
        cursor.old cursor.new result }
    ensures same { cursor.new.bytes.now ≡ cursor.old.bytes.now }
{
    if cursor.front_behind(5) == b'2' {
        numbered(names, cursor)
    } else {
        plain(names, cursor)
    }
}

/// The certificate that stands at the place, and the place behind it.
fn certificate_at(
    alloc: Global,
    protocol: &Protocol,
    bytes: &[u8],
    at: usize,
) -> Result<(Cert, usize), CertError>
    requires few { HasFewNames (protocol_of protocol.now) }
    requires within { at ≤ length bytes.now }
    ensures read { Gives same bytes.now result
        (by_numbers.read_in_both (protocol_of protocol.now) (drop at bytes.now) at) }
    ensures within { StopsWithin bytes.now result }
{
    let mut cursor = Cursor { bytes, at };
    let greatest = protocol.greatest_phase();
    let names = Names {
        alloc,
        protocol,
        greatest,
    };
    let found = certificate(&names, &mut cursor)?;
    let cert = found.spelled_out(alloc)?;
    Ok((cert, cursor.at))
}

/// The certificate that stands at the place, in either format, and the place behind it; or the first fault.
pub fn read_cert(
    alloc: Global,
    protocol: &Protocol,
    bytes: &[u8],
    at: usize,
) -> Result<(Cert, usize), CertError>
    requires few { HasFewNames (protocol_of protocol.now) }
    requires within { at ≤ length bytes.now }
    ensures read { Gives same bytes.now result
        (by_numbers.read_in_both (protocol_of protocol.now) (drop at bytes.now) at) }
    ensures within { StopsWithin bytes.now result }

    // What is read is spelled, and a certificate that is spelled is read.
    ensures spelled { IfOk result (λ x.
        SpellsCertificate (protocol_of protocol.now) (drop at bytes.now) x.0 (drop x.1 bytes.now)) }
    ensures accepts { (certificate : Certificate) (rest : List ℕ) →
        HasNames (protocol_of protocol.now) →
        SpellsCertificate (protocol_of protocol.now) (drop at bytes.now) certificate rest →
        GivesCertificate bytes.now certificate rest result }

    // A refusal is the first fault of the bytes, and the first fault is the refusal.
    ensures refused { let P = protocol_of protocol.now in HasNames P → IfErr result (λ e.
        IsFirstOf (certificates_of_both P) (drop at bytes.now) at (refusal_of e)) }
    ensures first_fault { (place : ℕ) (code : Code) → let P = protocol_of protocol.now in
        HasNames P → IsFirstFault (certificates_of_both P) (drop at bytes.now) at place code →
        GivesRefusal place code result }
{
    what_is_read_is_spelled();
    texts_are_read();
    the_first_fault_of_a_certificate_in_either_format_is_told();
    certificate_at(alloc, protocol, bytes, at)
}
