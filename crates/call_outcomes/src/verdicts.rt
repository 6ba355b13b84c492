//! The text of verdicts: a line for each query, and behind it a certificate or a run.

ghost use Rattle.std.specs.Prelude.{◌≡◌, ◌++◌, codes, decimal, option_copied, map, OnOk, []};
ghost use Rattle.std.specs.List.{list_all};
ghost use Rattle.spec_calculus.specs.Points.{numbered};
ghost use Rattle.pi_tree.specs.Protocols.{protocol_of};
ghost use Rattle.pi_model.specs.Steps.{step_of};
ghost use Rattle.cert_form.specs.Writing.{text_in, format_for};
ghost use Rattle.call_outcomes.specs.VerdictText.{line, entry_text, verdict_line, verdict_text, verdict_lines};
ghost use Rattle.call_outcomes.specs.VerdictText.{step_lines, run_lines, is_proved};

use cert_form::{Cert, format_for, put_cert, put_clause};
use hv_io::put_words;
use log_entries::{PlainEntry, PlainLog};
use pi_model::Step;
use pi_tree::Protocol;
use query_verify::{Verdict, Verdicts};
use run_replay::{Steps, put_step};
use std::alloc::AllocError;

/// The entry of that number, counted from 1.
fn entry_at(log: &PlainLog, number: usize) -> Option<&PlainEntry>
    ensures { option_copied result ≡ numbered log.now number }
{
    if number == 0 {
        return None;
    }
    log.items.get(number - 1)
}

/// Puts what is written behind the number of a query that is proved: its line's end, and the certificate.
fn put_proved(
    out: &mut Vec<u8>,
    protocol: &Protocol,
    cert: &Cert,
    format: u8,
) -> Result<(), AllocError>
    ensures { OnOk result (out.new.items ≡ out.old.items ++ (line (codes "proved") ++
        text_in (format_for format cert.now.clauses) (protocol_of protocol.now) cert.now [])) }
{
    out.extend_from_slice(b"proved\n")?;
    put_cert(out, protocol, cert, format_for(format, cert))
}

/// Puts the clause of an entry, if there is one.
fn put_entry(
    out: &mut Vec<u8>,
    protocol: &Protocol,
    entry: Option<&PlainEntry>,
) -> Result<(), AllocError>
    ensures { OnOk result (out.new.items ≡ out.old.items ++
        entry_text (protocol_of protocol.now) (option_copied entry.entry)) }
{
    match entry {
        Some(entry) => put_clause(out, protocol, &entry.clause),
        None => Ok(()),
    }
}

/// Puts what is written behind the number of a query with a clause that is not satisfied.
fn put_unmet(
    out: &mut Vec<u8>,
    protocol: &Protocol,
    log: &PlainLog,
    number: usize,
) -> Result<(), AllocError>
    ensures { OnOk result (out.new.items ≡ out.old.items ++
        line (codes "unknown clause " ++ entry_text (protocol_of protocol.now)
        (numbered log.now number))) }
{
    out.extend_from_slice(b"unknown clause ")?;
    put_entry(out, protocol, entry_at(log, number))?;
    out.push(b'\n')?;
    Ok(())
}

/// Puts what is written behind the number of a query with a pair of entries that is too large.
fn put_pair(out: &mut Vec<u8>, solved: usize, unsolved: usize) -> Result<(), AllocError>
    ensures { OnOk result (out.new.items ≡ out.old.items ++
        line (codes "unknown size pair " ++ decimal solved ++ codes " " ++ decimal unsolved)) }
{
    put_words(out, format_args!("unknown size pair {solved} {unsolved}\n"))
}

/// Puts what is written behind the number of a query, on one line: no certificate and no run follows.
pub fn put_verdict_line(
    out: &mut Vec<u8>,
    protocol: &Protocol,
    verdict: &Verdict,
) -> Result<(), AllocError>
    ensures { OnOk result (out.new.items ≡
        out.old.items ++ verdict_line (protocol_of protocol.now) verdict.now) }
{
    match verdict {
        Verdict::Proved(_) => out.extend_from_slice(b"proved\n"),
        Verdict::Budget(log, _) => {
            let entries = log.items.len();
            put_words(out, format_args!("unknown budget {entries}\n"))
        }
        Verdict::SizePair(_, solved, unsolved) => put_pair(out, *solved, *unsolved),
        Verdict::SizePoint(point) => put_words(out, format_args!("unknown size point {point}\n")),
        Verdict::Unmet(log, number) => put_unmet(out, protocol, log, *number),
        Verdict::Attack(_) => out.extend_from_slice(b"attack\n"),
    }
}

/// Puts the steps of a run, each behind `s ` on a line of its own.
fn put_steps(out: &mut Vec<u8>, steps: &[Step]) -> Result<(), AllocError>
    ensures { OnOk result (out.new.items ≡
        out.old.items ++ step_lines (map step_of steps.now)) }
{
    'each: for step in steps {
        out.extend_from_slice(b"s ")?;
        put_step(out, step)?;
    }
    Ok(())
}

/// Puts what is written behind the number of a query on which there is an attack: its line's end, and the run.
fn put_attack(out: &mut Vec<u8>, steps: &Steps) -> Result<(), AllocError>
    ensures { OnOk result (out.new.items ≡
        out.old.items ++ (line (codes "attack") ++ run_lines steps.now)) }
{
    out.extend_from_slice(b"attack\n")?;
    put_steps(out, &steps.items)?;
    out.extend_from_slice(b"end\n")
}

/// Puts what is written behind the number of a query, its line and a certificate or a run.
fn put_verdict(
    out: &mut Vec<u8>,
    protocol: &Protocol,
    verdict: &Verdict,
    format: u8,
) -> Result<(), AllocError>
    ensures { OnOk result (out.new.items ≡
        out.old.items ++ verdict_text format (protocol_of protocol.now) verdict.now) }
{
    match verdict {
        Verdict::Proved(cert) => put_proved(out, protocol, cert, format),
        Verdict::Attack(steps) => put_attack(out, steps),
        _ => put_verdict_line(out, protocol, verdict),
    }
}

/// Puts what begins the line of a query.
pub fn put_query(out: &mut Vec<u8>, number: u64) -> Result<(), AllocError>
    ensures { OnOk result (out.new.items ≡ out.old.items ++
        (codes "query " ++ decimal number ++ codes " ")) }
{
    put_words(out, format_args!("query {number} "))
}

/// Puts the text of the verdicts of a protocol's queries.
pub fn put_verdicts(
    out: &mut Vec<u8>,
    protocol: &Protocol,
    verdicts: &Verdicts,
    format: u8,
) -> Result<(), AllocError>
    ensures { OnOk result (out.new.items ≡
        out.old.items ++ verdict_lines format 1 verdicts.now (protocol_of protocol.now)) }
{
    'each: for (place, verdict) in verdicts.items.iter().enumerate() {
        put_query(out, place as u64 + 1)?;
        put_verdict(out, protocol, verdict, format)?;
    }
    Ok(())
}

/// Whether the verdict is that the query is proved.
pub fn is_proved(verdict: &Verdict) -> bool
    ensures { result ≡ is_proved verdict.now }
{
    matches!(verdict, Verdict::Proved(_))
}

/// Whether each verdict is that its query is proved.
pub fn are_proved(verdicts: &Verdicts) -> bool
    ensures { result ≡ list_all is_proved verdicts.now }
{
    for verdict in &verdicts.items {
        if !is_proved(verdict) {
            return false;
        }
    }
    true
}
