//! The command `check`: what is ruled of the certificates of a report.

ghost use Rattle.std.specs.Prelude.{◌≡◌, ◌≤◌, ℕ, List, None, length, map, IfOk, IfErr};
ghost use Rattle.spec_calculus.specs.Bounds.{most_report_bytes};
ghost use Rattle.hv_io.specs.Place.{line_at};
ghost use Rattle.command_words.specs.Request as request;
ghost use Rattle.pi_tree.specs.Protocols.{protocol_of};
ghost use Rattle.pi_tree.specs.Accessors.{IsThere};
ghost use Rattle.pi_tree.specs.declared.accessors.Kind.TheVariants.{Query as OfQueries};
ghost use Rattle.protocol_loading.specs.Loaded.{IsLoaded};
ghost use Rattle.protocol_loading.specs.Outside.{OfFile, outside};
ghost use Rattle.query_derive.specs.GoalRows.{OfQuery};
ghost use Rattle.cert_text.specs.Seen.{shared_claim_of};
ghost use Rattle.call_outcomes.specs.SeenOutcome.{outcome_of};
ghost use Rattle.call_outcomes.specs.Text.{HasText};
ghost use Rattle.verifier_cli.specs.Checking.{IsFindingOf, AreFindingsOf, IsCheckOf, MakesClaims};
ghost use Rattle.verifier_cli.specs.Checking.{ChecksReport};
ghost use Rattle.verifier_cli.specs.Unread.{IfRead};
ghost use Rattle.verifier_cli.specs.ReportReading.{report_not_loaded, report_not_read};
ghost use Rattle.verifier_cli.specs.ReportReading.{IsUnreadReport};
ghost use Rattle.verifier_cli.specs.Requests.{ComesTo};

use crate::loading::load_protocol;
use call_outcomes::{Finding, Findings, Outcome, Refusal, ReportCode};
use cert_checker::check_shared;
use cert_text::{CertError, SharedClaim, SharedClaims, read_shared_report};
use hv_io::{Files, place};
use pi_tree::{MOST_REPORT_BYTES, Protocol};
use protocol_loading::{Unloaded, load_text};
use spec_node_first_faults::the_first_fault_of_a_report_in_either_format_is_told;
use spec_node_reading::{first_faults_are_one, reports_are_one};
use spec_protocol_scope::{never_both, one_protocol, one_refusal};
use spec_read_protocols::queries_of_read_protocols;
use spec_soundness::accepted_queries_hold;
use std::alloc::{AllocError, Global};

/// The line of a byte, and of the end of the bytes where it is none of them.
fn line_of(bytes: &[u8], at: usize) -> u64
    ensures { result ≡ line_at bytes.now at }
{
    place(bytes, at.min(bytes.len())).0
}

/// What a call comes to whose report could not be loaded.
fn report_not_loaded(why: Unloaded) -> Outcome
    ensures { outcome_of result ≡ report_not_loaded why }
{
    match why {
        Unloaded::Failed => Outcome::ReadFault,
        Unloaded::TooLong => Outcome::Refused(Refusal::Report {
            line: 1,
            code: ReportCode::LongFile,
        }),
        Unloaded::Memory => Outcome::Memory,
    }
}

/// What a call comes to whose report could not be read in these bytes.
fn report_not_read(bytes: &[u8], error: CertError) -> Outcome
    ensures { outcome_of result ≡ report_not_read bytes.now error }
{
    let (at, code) = match error {
        CertError::Syntax(at) => (at, ReportCode::Syntax),
        CertError::Number(at) => (at, ReportCode::Number),
        CertError::Symbol(at) => (at, ReportCode::Symbol),
        CertError::Arity(at) => (at, ReportCode::Arity),
        CertError::Count(at) => (at, ReportCode::Count),
        CertError::NodeOrder(at) => (at, ReportCode::NodeOrder),
        CertError::NodeLarge(at) => (at, ReportCode::NodeLarge),
        CertError::Memory(_) => return Outcome::Memory,
    };
    let line = line_of(bytes, at);
    Outcome::Refused(Refusal::Report { line, code })
}

/// The claims of a report on the protocol, or what the call comes to where the file makes none.
fn load_claims<F: Files>(
    alloc: Global,
    protocol: &Protocol,
    report: &str,
    files: &mut F,
) -> Result<SharedClaims, Outcome>
    requires { IsLoaded (protocol_of protocol.now) }
    ensures held_stays { (name : List ℕ) → F.held files.new name ≡ F.held files.old name }
    ensures read_faults_rise { (name : List ℕ) →
        F.faults files.old name ≤ F.faults files.new name }
    ensures each { IfOk result (λ claims.
        length claims ≡ length protocol.now.queries) }
    ensures made { IfOk result (λ claims.
        OfFile (outside F.held F.faults F.loads files.old files.new) report.now most_report_bytes
        (λ bytes. MakesClaims (protocol_of protocol.now) bytes (map shared_claim_of claims))) }
    ensures unread { IfErr result (λ outcome. IsUnreadReport (protocol_of protocol.now)
        (outside F.held F.faults F.loads files.old files.new) report.now (outcome_of outcome)) }
{
    match load_text(report, MOST_REPORT_BYTES, files) {
        Err(why) => Err(report_not_loaded(why)),
        Ok(bytes) => match read_shared_report(alloc, protocol, &bytes) {
            Ok(claims) => Ok(claims),
            Err(error) => Err(report_not_read(&bytes, error)),
        },
    }
}

/// What is found of a claim about the query of that number.
fn finding(
    alloc: Global,
    protocol: &Protocol,
    query: u32,
    claim: SharedClaim,
) -> Result<Finding, AllocError>
    requires loaded { IsLoaded (protocol_of protocol.now) }
    requires there { IsThere (protocol_of protocol.now) OfQueries query }
    ensures { let P = protocol_of protocol.now in IfOk result (λ finding.
        OfQuery P query (λ q. IsFindingOf P q (shared_claim_of claim) finding)) }
{
    match claim {
        SharedClaim::Proved(cert) => {
            let ruling = check_shared(alloc, protocol, query, cert)?;
            Ok(Finding::Ruled(ruling))
        }
        SharedClaim::Bare => Ok(Finding::Missing),
        SharedClaim::Unknown => Ok(Finding::NotClaimed),
    }
}

/// What is found of the claims, one for each query of the protocol. Each certificate is let go once it is checked.
fn findings(
    alloc: Global,
    protocol: &Protocol,
    claims: SharedClaims,
) -> Result<Findings, AllocError>
    requires loaded { IsLoaded (protocol_of protocol.now) }
    requires each { length claims ≡ length protocol.now.queries }
    ensures { let P = protocol_of protocol.now in IfOk result (λ findings.
        AreFindingsOf P P.queries (map shared_claim_of claims) findings) }
{
    let mut items = Vec::new(alloc);
    let mut number = 0u32;
    'each: for claim in claims.items {
        number += 1;
        let found = finding(alloc, protocol, number, claim)?;
        items.push(found)?;
    }
    Ok(Findings { items })
}

/// What checking the claims comes to.
fn checked(alloc: Global, protocol: &Protocol, claims: SharedClaims) -> Outcome
    requires loaded { IsLoaded (protocol_of protocol.now) }
    requires each { length claims ≡ length protocol.now.queries }
    ensures { IsCheckOf (protocol_of protocol.now) (map shared_claim_of claims)
        (outcome_of result) }
{
    match findings(alloc, protocol, claims) {
        Ok(findings) => Outcome::Checked(findings),
        Err(_) => Outcome::Memory,
    }
}

/// Loads a report on the protocol and checks its certificates.
fn check_report<F: Files>(
    alloc: Global,
    protocol: &Protocol,
    report: &str,
    files: &mut F,
) -> Outcome
    requires { IsLoaded (protocol_of protocol.now) }
    ensures held_stays { (name : List ℕ) → F.held files.new name ≡ F.held files.old name }
    ensures read_faults_rise { (name : List ℕ) →
        F.faults files.old name ≤ F.faults files.new name }
    ensures checked { IfRead (outside F.held F.faults F.loads files.old files.new) report.now
        most_report_bytes (outcome_of result) (λ text.
        ChecksReport (protocol_of protocol.now) text (outcome_of result)) }
{
    reports_are_one();
    first_faults_are_one();
    the_first_fault_of_a_report_in_either_format_is_told();
    match load_claims(alloc, protocol, report, files) {
        Err(outcome) => outcome,
        Ok(claims) => checked(alloc, protocol, claims),
    }
}

/// Loads a protocol and a report on it, and checks the report's certificates.
pub(crate) fn check_file<F: Files>(
    alloc: Global,
    file: &str,
    report: &str,
    files: &mut F,
) -> Outcome
    ensures held_stays { (name : List ℕ) → F.held files.new name ≡ F.held files.old name }
    ensures read_faults_rise { (name : List ℕ) →
        F.faults files.old name ≤ F.faults files.new name }
    ensures words { HasText None (outcome_of result) }
    ensures comes { ComesTo (request.Check file.now report.now)
        (outside F.held F.faults F.loads files.old files.new) None (outcome_of result) }
{
    one_protocol();
    one_refusal();
    never_both();
    queries_of_read_protocols();
    accepted_queries_hold();
    match load_protocol(alloc, file, files) {
        Err(outcome) => outcome,
        Ok(protocol) => {
            let outcome = check_report(alloc, &protocol, report, files);
            drop(protocol);
            outcome
        }
    }
}
