//! The claims of a report of any format, or the fault that is told of it.

ghost use Rattle.std.specs.Prelude.{◌≡◌, ◌≤◌, Some, length, map, option_map, IfOk, IfErr};
ghost use Rattle.spec_calculus.specs.Syntax as calculus;
ghost use Rattle.spec_calculus.specs.Bounds.{most_report_bytes};
ghost use Rattle.spec_node_reading.specs.Reports.{reports_of_both};
ghost use Rattle.hv_io.specs.Place.{line_at};
ghost use Rattle.pi_tree.specs.Protocols.{protocol_of};
ghost use Rattle.protocol_loading.specs.Loaded.{IsLoaded};
ghost use Rattle.fact_reader.specs.Errors.{refusal_of};
ghost use Rattle.cert_text.specs.Refused.{IsFirstOf};
ghost use Rattle.cert_text.specs.Seen.{shared_claim_of};
ghost use Rattle.choice_text.specs.Splitting.{splitting};
ghost use Rattle.choice_text.specs.Seen.{fault_of, split_of};
ghost use Rattle.call_outcomes.specs.Seen.{report_refusal_by};
ghost use Rattle.choice_check.specs.Checking.{MakesClaims, IsPlainFault, IsChoiceFault};
ghost use Rattle.choice_check.specs.Checking.{IsToldFault};
ghost use Rattle.choice_check.specs.Reading.{misspelled, IsSuch, IsUnread};

use call_outcomes::ReportCode;
use cert_text::{CertError, SharedClaims, read_shared_report};
use choice_text::{Fault, Refusal, Split, line_before};
use hv_io::place;
use pi_tree::Protocol;
use spec_node_first_faults::the_first_fault_of_a_report_in_either_format_is_told;
use spec_node_reading::first_faults_are_one;
use std::alloc::{AllocError, Global};

/// A fault of a report: its line, from 1, and its code.
#[derive(Clone, Copy)]
pub struct Misspelling {
    pub line: u64,
    pub code: ReportCode,
}

/// Why no claims were read.
#[derive(Clone, Copy)]
pub enum Unread {
    Misspelled(Misspelling),
    Memory(AllocError),
}

/// The line of a byte, and of the end of the bytes where it is none of them.
fn line_of(bytes: &[u8], at: usize) -> u64
    ensures { result ≡ line_at bytes.now at }
{
    place(bytes, at.min(bytes.len())).0
}

/// The code of a refusal, and its place.
fn code_and_place(error: CertError) -> Result<(ReportCode, usize), AllocError>
    ensures { IfOk result (λ x.
        option_map misspelled (refusal_of error) ≡ Some (report_refusal_by x.0, x.1)) }
{
    match error {
        CertError::Syntax(at) => Ok((ReportCode::Syntax, at)),
        CertError::Number(at) => Ok((ReportCode::Number, at)),
        CertError::Symbol(at) => Ok((ReportCode::Symbol, at)),
        CertError::Arity(at) => Ok((ReportCode::Arity, at)),
        CertError::Count(at) => Ok((ReportCode::Count, at)),
        CertError::NodeOrder(at) => Ok((ReportCode::NodeOrder, at)),
        CertError::NodeLarge(at) => Ok((ReportCode::NodeLarge, at)),
        CertError::Memory(error) => Err(error),
    }
}

/// The fault of the text without the lines `s`, at its line in the whole text.
fn plain_fault(bytes: &[u8], plain: &[u8], error: CertError) -> Result<Misspelling, AllocError>
    requires { plain.now ≡ (splitting bytes.now).plain }
    ensures { (P : calculus.Protocol) →
        IsFirstOf (reports_of_both P) plain.now 0 (refusal_of error) →
        IfOk result (λ fault. IsSuch (IsPlainFault P bytes.now) fault) }
{
    let (code, at) = code_and_place(error)?;
    let line = line_before(bytes, line_of(plain, at));
    Ok(Misspelling { line, code })
}

/// The fault of the lines `s`.
fn choice_fault(bytes: &[u8], fault: Fault) -> Misspelling
    requires { (splitting bytes.now).fault ≡ Some (fault_of fault) }
    ensures { IsSuch (IsChoiceFault bytes.now) result }
{
    let code = match fault.refusal {
        Refusal::Syntax => ReportCode::Syntax,
        Refusal::Number => ReportCode::Number,
        Refusal::Count => ReportCode::Count,
    };
    Misspelling {
        line: fault.line,
        code,
    }
}

/// The fault that is told: of two the one in the earlier line, and in one line that of the lines `s`.
fn told_fault(bytes: &[u8], split: &Split, error: CertError) -> Result<Misspelling, AllocError>
    requires { split_of split.now ≡ splitting bytes.now }
    ensures { (P : calculus.Protocol) →
        IsFirstOf (reports_of_both P) (splitting bytes.now).plain 0 (refusal_of error) →
        IfOk result (λ fault. IsSuch (IsToldFault P bytes.now) fault) }
{
    first_faults_are_one();
    let plain = plain_fault(bytes, &split.plain, error)?;
    match split.fault {
        None => Ok(plain),
        Some(fault) => {
            let choice = choice_fault(bytes, fault);
            if choice.line <= plain.line {
                Ok(choice)
            } else {
                Ok(plain)
            }
        }
    }
}

/// The claims of a report that is split, or why there are none.
pub(crate) fn read_claims(
    alloc: Global,
    protocol: &Protocol,
    bytes: &[u8],
    split: &Split,
) -> Result<SharedClaims, Unread>
    requires loaded { IsLoaded (protocol_of protocol.now) }
    requires fits { length bytes.now ≤ most_report_bytes }
    requires is { split_of split.now ≡ splitting bytes.now }
    ensures each { IfOk result (λ claims. length claims ≡ length protocol.now.queries) }
    ensures made { IfOk result (λ claims.
        MakesClaims (protocol_of protocol.now) bytes.now (map shared_claim_of claims)) }
    ensures unread { IfErr result (λ why. IsUnread (protocol_of protocol.now) bytes.now why) }
{
    the_first_fault_of_a_report_in_either_format_is_told();
    match read_shared_report(alloc, protocol, &split.plain) {
        Ok(claims) => match split.fault {
            None => Ok(claims),
            Some(fault) => {
                drop(claims);
                Err(Unread::Misspelled(choice_fault(bytes, fault)))
            }
        },
        Err(error) => match told_fault(bytes, split, error) {
            Ok(fault) => Err(Unread::Misspelled(fault)),
            Err(error) => Err(Unread::Memory(error)),
        },
    }
}
