//! The report of a certificate that was looked for, or why none was found.

ghost use Rattle.std.specs.Prelude.{◌≡◌, ◌<◌, ◌^◌, ◌++◌, ◌∷◌, ℕ, [], length, OnOk, IfOk};
ghost use Rattle.spec_calculus.specs.Syntax.{Protocol as Calculus};
ghost use Rattle.pi_tree.specs.Protocols.{protocol_of};
ghost use Rattle.query_derive.specs.GoalRows.{OfQuery};
ghost use Rattle.certificate_search.specs.Searched.{protocol_at, Certifies, IsProvenFound};
ghost use Rattle.choice_text.specs.Choices.{chosen_text};
ghost use Rattle.hx.specs.CertificateText.{proved_text, told_text, report_text, IsCertificatePage};

use crate::outcome::{Outcome, Output};
use cert_form::{Cert, format_for, put_cert, put_clause};
use certificate_search::{Failure, Found, Growth, Search, Trial};
use choice_text::{Said, put_choices};
use clause_form::PlainClause;
use hv_io::put_words;
use pi_tree::{Kind, Protocol};
use protocol_text::declared_word;
use std::alloc::{AllocError, Global};
use term_tree::Sym;

/// The format of which format 3 has the lines, beside those that say what is chosen of clauses.
const NUMBERED: u8 = 2;

/// Why there is no report of a certificate that says something of clauses which are too large for a table of nodes.
const TOO_LARGE: &[u8] = b": the one that is found is too large for format 3";

/// What a report claims: that the query of that number is proved, by this certificate, which is written in that format.
#[derive(Clone, Copy)]
pub struct Claim<'a> {
    protocol: &'a Protocol,
    query: u32,
    cert: &'a Cert,
    format: u8,
}

/// Puts what stands behind the number of the query: that it is proved, and the certificate.
fn put_proved(out: &mut Vec<u8>, claim: &Claim<'_>) -> Result<(), AllocError>
    ensures { OnOk result (out.new.items ≡ out.old.items ++
        proved_text (protocol_of claim.now.protocol.now) claim.now.format claim.now.cert.now) }
{
    out.extend_from_slice(b"proved\n")?;
    put_cert(
        out,
        claim.protocol,
        claim.cert,
        format_for(claim.format, claim.cert),
    )
}

/// Puts what is told of the query of that number.
fn put_query(out: &mut Vec<u8>, claim: &Claim<'_>, number: u32) -> Result<(), AllocError>
    ensures { let P = protocol_of claim.now.protocol.now in
        OnOk result (out.new.items ≡ out.old.items ++
        told_text P claim.now.query claim.now.format claim.now.cert.now number) }
{
    put_words(out, format_args!("query {number} "))?;
    if number == claim.query {
        put_proved(out, claim)
    } else {
        out.extend_from_slice(b"unknown not asked\n")
    }
}

/// Puts a report of this claim, which tells nothing of the other queries.
fn put_report(out: &mut Vec<u8>, claim: &Claim<'_>) -> Result<(), AllocError>
    requires few { length (protocol_of claim.now.protocol.now).queries < 2 ^ 32 }
    ensures { let P = protocol_of claim.now.protocol.now in
        OnOk result (out.new.items ≡ out.old.items ++
        report_text P claim.now.query claim.now.format claim.now.cert.now) }
{
    'each: for index in 0..claim.protocol.count(Kind::Query) {
        put_query(out, claim, index + 1)?;
    }
    Ok(())
}

/// The text of this report.
fn report_of(alloc: Global, claim: &Claim<'_>) -> Result<Vec<u8>, AllocError>
    requires few { length (protocol_of claim.now.protocol.now).queries < 2 ^ 32 }
    ensures { let P = protocol_of claim.now.protocol.now in
        IfOk result (λ text. text.items ≡
        report_text P claim.now.query claim.now.format claim.now.cert.now) }
{
    let mut text = Vec::new(alloc);
    put_report(&mut text, claim)?;
    Ok(text)
}

/// What is said of the certificates of a report that has one, of which this is said.
fn said_of_one(alloc: Global, said: &[Option<usize>]) -> Result<Said, AllocError>
    ensures { IfOk result (λ all. all ≡ said.now ∷ []) }
{
    let mut items = Vec::new(alloc);
    items.push(Vec::from_slice(alloc, said)?)?;
    Ok(Said { items })
}

/// The text of this report, with what its certificate says of its clauses.
fn chosen_report(
    alloc: Global,
    claim: &Claim<'_>,
    said: &[Option<usize>],
) -> Result<Vec<u8>, AllocError>
    requires few { length (protocol_of claim.now.protocol.now).queries < 2 ^ 32 }
    ensures { let P = protocol_of claim.now.protocol.now in
        IfOk result (λ text. text.items ≡
        chosen_text (report_text P claim.now.query claim.now.format claim.now.cert.now)
        (said.now ∷ [])) }
{
    let said = said_of_one(alloc, said)?;
    let plain = report_of(alloc, claim)?;
    let mut text = Vec::new(alloc);
    put_choices(&mut text, &plain, &said)?;
    Ok(text)
}

/// That there is no certificate, and why.
fn none_page(alloc: Global, why: &[u8]) -> Result<Output, AllocError>
    ensures { (P : Calculus) (query format : ℕ) →
        IfOk result (IsCertificatePage P query format) }
{
    let mut text = Vec::new(alloc);
    text.extend_from_slice(b"no certificate")?;
    text.extend_from_slice(why)?;
    text.push(b'\n')?;
    Ok(Output {
        outcome: Outcome::NotFound,
        text,
    })
}

/// The report of this claim: in format 3 where the certificate says something of its clauses, and else in the format of the claim.
fn report_page(
    alloc: Global,
    claim: &Claim<'_>,
    said: &[Option<usize>],
) -> Result<Output, AllocError>
    requires few { length (protocol_of claim.now.protocol.now).queries < 2 ^ 32 }
    requires certifies { OfQuery (protocol_of claim.now.protocol.now) claim.now.query (λ q.
        Certifies (protocol_of claim.now.protocol.now) q claim.now.cert.now said.now) }
    ensures { IfOk result
        (IsCertificatePage (protocol_of claim.now.protocol.now) claim.now.query claim.now.format) }
{
    if said.is_empty() {
        return Ok(Output {
            outcome: Outcome::Shown,
            text: report_of(alloc, claim)?,
        });
    }
    if format_for(NUMBERED, claim.cert) != NUMBERED {
        return none_page(alloc, TOO_LARGE);
    }
    let numbered = Claim {
        format: NUMBERED,
        ..*claim
    };
    Ok(Output {
        outcome: Outcome::Shown,
        text: chosen_report(alloc, &numbered, said)?,
    })
}

/// Puts the word of a symbol.
fn put_symbol(out: &mut Vec<u8>, protocol: &Protocol, symbol: Sym) -> Result<(), AllocError> {
    match symbol {
        Sym::Ctor(number) | Sym::Data(number) => {
            out.extend_from_slice(declared_word(&protocol.ctors, number))
        }
        Sym::Free(number) => out.extend_from_slice(declared_word(&protocol.frees, number)),
        Sym::Tuple(parts) => put_words(out, format_args!("a tuple of {parts}")),
        Sym::Point(point) => put_words(out, format_args!("a name of point {point}")),
        Sym::Attacker => out.extend_from_slice(b"a name of the attacker"),
    }
}

/// The clause at which a plan failed, if it was one that is unmet.
fn unmet_of(trial: &Trial) -> Option<&PlainClause> {
    match &trial.failure {
        Some(Failure::Unmet(clause)) => Some(clause),
        _ => None,
    }
}

/// What grew where a plan failed for too many clauses.
fn growth_of(trial: &Trial) -> Option<Growth> {
    match &trial.failure {
        Some(Failure::Spent(growth)) => *growth,
        _ => None,
    }
}

/// Puts how many plans failed at a clause that doesn't satisfy the query, and the first such clause.
fn put_unmet(out: &mut Vec<u8>, protocol: &Protocol, trials: &[Trial]) -> Result<(), AllocError> {
    let Some(clause) = trials.iter().find_map(unmet_of) else {
        return Ok(());
    };
    let count = trials
        .iter()
        .filter(|trial| unmet_of(trial).is_some())
        .count();
    put_words(
        out,
        format_args!("; {count} at a clause that isn't satisfied: "),
    )?;
    put_clause(out, protocol, clause)
}

/// Puts how many plans failed for too many clauses, and what grew in those of the first.
fn put_spent(out: &mut Vec<u8>, protocol: &Protocol, trials: &[Trial]) -> Result<(), AllocError> {
    let Some(growth) = trials.iter().find_map(growth_of) else {
        return Ok(());
    };
    let count = trials
        .iter()
        .filter(|trial| growth_of(trial).is_some())
        .count();
    put_words(out, format_args!("; {count} spent the budget, with "))?;
    put_symbol(out, protocol, growth.symbol)?;
    put_words(out, format_args!(" {} times above itself", growth.times))
}

/// Puts how many plans failed, and at what.
fn put_failures(
    out: &mut Vec<u8>,
    protocol: &Protocol,
    trials: &[Trial],
) -> Result<(), AllocError> {
    put_words(out, format_args!(" by {} plans", trials.len()))?;
    put_unmet(out, protocol, trials)?;
    put_spent(out, protocol, trials)
}

/// Puts why there is no certificate.
fn put_why(out: &mut Vec<u8>, protocol: &Protocol, found: &Found) -> Result<(), AllocError> {
    match found {
        Found::Certificate(..) => Ok(()),
        Found::Nothing(trials) => put_failures(out, protocol, trials),
        Found::TooLarge(point) => put_words(out, format_args!(": size point {point}")),
        Found::OverBudget => {
            out.extend_from_slice(b": the translation is too large for the budget")
        }
    }
}

/// The report of a certificate that was found, with status 0; else a line that says why none was, with status 1.
pub(crate) fn found_page(
    search: &Search<'_>,
    found: &Found,
    format: u8,
) -> Result<Output, AllocError>
    requires few { length (protocol_at search.now).queries < 2 ^ 32 }
    requires proven { IsProvenFound search.now found.now }
    ensures { IfOk result (IsCertificatePage (protocol_at search.now) search.now.query format) }
{
    let Search {
        alloc,
        protocol,
        query,
        budget: _,
    } = *search;
    if let Found::Certificate(chosen, _) = found {
        let claim = Claim {
            protocol,
            query,
            cert: &chosen.cert,
            format,
        };
        return report_page(alloc, &claim, &chosen.said);
    }
    let mut why = Vec::new(alloc);
    put_why(&mut why, protocol, found)?;
    none_page(alloc, &why)
}
