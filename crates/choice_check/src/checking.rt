//! What is found of the certificates of a report.

ghost use Rattle.std.specs.Prelude.{◌≡◌, ◌≤◌, [], length, map, get_or, IfOk};
ghost use Rattle.spec_calculus.specs.Bounds.{most_report_bytes};
ghost use Rattle.spec_calculus.specs.Secrecy.{Holds};
ghost use Rattle.pi_tree.specs.Protocols.{protocol_of};
ghost use Rattle.pi_tree.specs.Accessors.{IsThere};
ghost use Rattle.pi_tree.specs.declared.accessors.Kind.TheVariants.{Query as OfQueries};
ghost use Rattle.protocol_loading.specs.Loaded.{IsLoaded};
ghost use Rattle.query_derive.specs.GoalRows.{OfQuery};
ghost use Rattle.cert_text.specs.Seen.{shared_claim_of};
ghost use Rattle.choice_text.specs.Splitting.{splitting};
ghost use Rattle.choice_text.specs.Seen.{split_of};
ghost use Rattle.cert_checker.specs.declared.ruling.Ruling.TheVariants.{Accepted};
ghost use Rattle.call_outcomes.specs.declared.outcome.Finding.TheVariants.{Ruled};
ghost use Rattle.call_outcomes.specs.Outcome.{Refused, Report};
ghost use Rattle.call_outcomes.specs.Seen.{report_refusal_by};
ghost use Rattle.call_outcomes.specs.SeenOutcome.{outcome_of};
ghost use Rattle.choice_check.specs.Checking.{certificates_in, IsFindingOf, AreFindingsOf};
ghost use Rattle.choice_check.specs.Checking.{IsOutcomeOfReport, HoldWhereAccepted};
ghost use Rattle.choice_check.specs.Checking.{NoneViolated, ChecksChosen};

use crate::reading::{Misspelling, Unread, read_claims};
use call_outcomes::{Finding, Findings, Outcome, Refusal, ReportCode};
use cert_checker::check_placed_shared;
use cert_text::{SharedClaim, SharedClaims};
use choice_text::{Said, Split, split};
use pi_tree::{MOST_REPORT_BYTES, Protocol};
use spec_node_first_faults::the_first_fault_of_a_report_in_either_format_is_told;
use spec_node_reading::{first_faults_are_one, reports_are_one};
use std::alloc::{AllocError, Global};

/// What is said of the certificate behind so many; nothing where no more is said.
fn said_of(said: &Said, before: usize) -> &[Option<usize>]
    ensures { result.now ≡ get_or said.now before [] }
{
    match said.items.get(before) {
        Some(said) => said,
        None => &[],
    }
}

/// How many certificates a claim has.
fn certificates_in(claim: &SharedClaim) -> usize
    ensures is { result ≡ certificates_in (shared_claim_of claim.now) }
    ensures one { result ≤ 1 }
{
    match claim {
        SharedClaim::Proved(_) => 1,
        SharedClaim::Bare | SharedClaim::Unknown => 0,
    }
}

/// What is found of a claim about the query of that number, with what is said of its certificate.
fn finding(
    alloc: Global,
    protocol: &Protocol,
    query: u32,
    claim: SharedClaim,
    said: &[Option<usize>],
) -> Result<Finding, AllocError>
    requires loaded { IsLoaded (protocol_of protocol.now) }
    requires there { IsThere (protocol_of protocol.now) OfQueries query }
    ensures found { let P = protocol_of protocol.now in IfOk result (λ finding.
        OfQuery P query (λ q. IsFindingOf P q (shared_claim_of claim) said.now finding)) }
    ensures holds { let P = protocol_of protocol.now in IfOk result (λ finding.
        finding ≡ Ruled Accepted → OfQuery P query (λ q. Holds P q)) }
{
    match claim {
        SharedClaim::Proved(cert) => {
            let ruling = check_placed_shared(alloc, protocol, query, cert, said)?;
            Ok(Finding::Ruled(ruling))
        }
        SharedClaim::Bare => Ok(Finding::Missing),
        SharedClaim::Unknown => Ok(Finding::NotClaimed),
    }
}

/// What is found of the claims, one for each query of the protocol. Each certificate is let go once it is checked.
fn findings(
    alloc: Global,
    protocol: &Protocol,
    claims: SharedClaims,
    said: &Said,
) -> Result<Findings, AllocError>
    requires loaded { IsLoaded (protocol_of protocol.now) }
    requires each { length claims ≡ length protocol.now.queries }
    ensures found { let P = protocol_of protocol.now in IfOk result (λ findings.
        AreFindingsOf P said.now 0 P.queries (map shared_claim_of claims) findings) }
    ensures holds { let P = protocol_of protocol.now in IfOk result (λ findings.
        HoldWhereAccepted P.queries P findings) }
{
    let mut items = Vec::new(alloc);
    let mut number = 0u32;
    let mut before = 0usize;
    'each: for claim in claims.items {
        number += 1;
        let certificates = certificates_in(&claim);
        let found = finding(alloc, protocol, number, claim, said_of(said, before))?;
        items.push(found)?;
        before += certificates;
    }
    Ok(Findings { items })
}

/// A report is refused for that fault.
fn refused(fault: Misspelling) -> Outcome
    ensures { outcome_of result ≡ Refused (Report fault.line (report_refusal_by fault.code)) }
{
    Outcome::Refused(Refusal::Report {
        line: fault.line,
        code: fault.code,
    })
}

/// What a report that is split comes to.
fn check_split(
    alloc: Global,
    protocol: &Protocol,
    bytes: &[u8],
    split: &Split,
) -> Result<Outcome, AllocError>
    requires loaded { IsLoaded (protocol_of protocol.now) }
    requires fits { length bytes.now ≤ most_report_bytes }
    requires is { split_of split.now ≡ splitting bytes.now }
    ensures answers { IfOk result (λ outcome.
        IsOutcomeOfReport (protocol_of protocol.now) bytes.now (outcome_of outcome)) }
    ensures holds { IfOk result (λ outcome.
        NoneViolated (protocol_of protocol.now) (outcome_of outcome)) }
{
    match read_claims(alloc, protocol, bytes, split) {
        Ok(claims) => {
            let findings = findings(alloc, protocol, claims, &split.said)?;
            Ok(Outcome::Checked(findings))
        }
        Err(Unread::Misspelled(fault)) => Ok(refused(fault)),
        Err(Unread::Memory(error)) => Err(error),
    }
}

/// What the bytes of a report on the protocol come to: what is found of its certificates, or why it is refused and in which line. Those
/// of formats 1 and 2 choose by selection, and those of format 3 as their lines `s` say.
///
/// `Err` comes for want of memory, and where `translate` answers it since a number doesn't fit.
pub fn check_text(alloc: Global, protocol: &Protocol, bytes: &[u8]) -> Result<Outcome, AllocError>
    requires { IsLoaded (protocol_of protocol.now) }
    ensures { IfOk result (λ outcome.
        ChecksChosen (protocol_of protocol.now) bytes.now (outcome_of outcome)) }
{
    reports_are_one();
    first_faults_are_one();
    the_first_fault_of_a_report_in_either_format_is_told();
    if bytes.len() > MOST_REPORT_BYTES {
        return Ok(Outcome::Refused(Refusal::Report {
            line: 1,
            code: ReportCode::LongFile,
        }));
    }
    let parts = split(alloc, bytes)?;
    check_split(alloc, protocol, bytes, &parts)
}
