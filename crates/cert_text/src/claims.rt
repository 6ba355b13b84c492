//! Reports: what they claim of each query.

ghost use Rattle.std.specs.Prelude.{◌≡◌, ℕ, List, length, map, IfOk, IfErr};
ghost use Rattle.pi_tree.specs.Protocols.{protocol_of};
ghost use Rattle.term_reader.specs.Few.{HasFewNames};
ghost use Rattle.spec_certificate_text.specs.Reports as reading;
ghost use Rattle.spec_certificate_text.specs.OfProtocol.{HasNames, IsShort};
ghost use Rattle.spec_node_reading.specs.Reports.{SpellsReport, read_report_in_both, reports_of_both};
ghost use Rattle.cert_text.specs.Seen.{claim_of, shared_claim_of, GivesClaims};
ghost use Rattle.spec_certificate_text.specs.Terms.{Code};
ghost use Rattle.spec_certificate_faults.specs.First.{IsFirstFault};
ghost use Rattle.fact_reader.specs.Errors.{refusal_of};
ghost use Rattle.cert_text.specs.Spelled.{GivesReport};
ghost use Rattle.cert_text.specs.Refused.{IsFirstOf, GivesRefusal};

use crate::shared_claims::{SharedClaim, SharedClaims, read_shared_report};
use cert_form::Cert;
use fact_reader::CertError;
use pi_tree::Protocol;
use std::alloc::{AllocError, Global};
use std::marker::Model;

/// What a report claims of a query.
pub enum Claim {
    /// It is proved, as this certificate is to show.
    Proved(Cert),
    /// It is proved, with no certificate.
    Bare,
    /// Whether it holds is unknown, or an attack is claimed: neither is looked at.
    Unknown,
}

impl Drop for Claim {
    fn drop(self) {
        match self {
            Claim::Proved(part) => drop(part),
            Claim::Bare => {}
            Claim::Unknown => {}
        }
    }
}

/// Claims in order, one for each query.
#[derive(Drop)]
pub struct Claims {
    pub items: Vec<Claim>,
}

impl Model for Claims {
    ghost use Rattle.std.specs.Prelude.{List};
    ghost use Rattle.cert_text.specs.declared.claims.Claim.{Claim};
    ghost use Rattle.cert_text.specs.Codes.{coded_claims};

    ghost Value = { List Claim };

    ghost coded = { coded_claims };

    ghost view = { λ a. a.items.items };
}

/// The claim, its certificate over trees.
fn spelled_claim(alloc: Global, claim: SharedClaim) -> Result<Claim, AllocError>
    ensures { IfOk result (λ spelled. claim_of spelled ≡ shared_claim_of claim) }
{
    match claim {
        SharedClaim::Proved(cert) => Ok(Claim::Proved(cert.spelled_out(alloc)?)),
        SharedClaim::Bare => Ok(Claim::Bare),
        SharedClaim::Unknown => Ok(Claim::Unknown),
    }
}

/// The claims, their certificates over trees.
fn spelled_claims(alloc: Global, claims: SharedClaims) -> Result<Claims, AllocError>
    ensures { IfOk result (λ spelled. map claim_of spelled ≡ map shared_claim_of claims) }
{
    let mut items = Vec::with_capacity(alloc, claims.items.len())?;
    for claim in claims.items {
        items.push(spelled_claim(alloc, claim)?)?;
    }
    Ok(Claims { items })
}

/// The claims of a report, one for each query of the protocol; or the first fault.
pub fn read_report(alloc: Global, protocol: &Protocol, bytes: &[u8]) -> Result<Claims, CertError>
    requires { HasFewNames (protocol_of protocol.now) }
    ensures read { GivesClaims result
        (read_report_in_both (protocol_of protocol.now) bytes.now) }

    // What is read is spelled, and claims that are spelled are read.
    ensures spelled { IfOk result (λ claims.
        SpellsReport (protocol_of protocol.now) bytes.now (map claim_of claims)) }
    ensures accepts { (claims : List reading.Claim) → HasNames (protocol_of protocol.now) →
        IsShort (length (protocol_of protocol.now).queries) →
        SpellsReport (protocol_of protocol.now) bytes.now claims → GivesReport claims result }

    // A refusal is the first fault of the bytes, and the first fault is the refusal.
    ensures refused { let P = protocol_of protocol.now in HasNames P → IfErr result (λ e.
        IsFirstOf (reports_of_both P) bytes.now 0 (refusal_of e)) }
    ensures first_fault { (place : ℕ) (code : Code) → let P = protocol_of protocol.now in
        HasNames P → IsFirstFault (reports_of_both P) bytes.now 0 place code →
        GivesRefusal place code result }
{
    let shared = read_shared_report(alloc, protocol, bytes)?;
    let claims = spelled_claims(alloc, shared)?;
    Ok(claims)
}
