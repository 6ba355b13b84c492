//! Whole calls of the verifier, with files and sinks in memory.

use crate::setting::Setting;
use hv_io::{CalmFiles, CalmSink, Files, MemFiles, MemSink, Sink};
use std::alloc::{AllocError, Global};
use verifier_cli::{Outcome, top};

/// What an outcome is called.
fn name(outcome: &Outcome) -> &'static str {
    match outcome {
        Outcome::Usage => "Usage",
        Outcome::Verified(_) => "Verified",
        Outcome::Checked(_) => "Checked",
        Outcome::Listed(_) => "Listed",
        Outcome::ListLarge(_) => "ListLarge",
        Outcome::NoQuery(_) => "NoQuery",
        Outcome::Replayed(_) => "Replayed",
        Outcome::Ring(_) => "Ring",
        Outcome::Refused(_) => "Refused",
        Outcome::ReadFault => "ReadFault",
        Outcome::Memory => "Memory",
    }
}

/// The status of an answer, and what its outcome is called.
#[derive(Clone, Copy)]
struct Told {
    status: u8,
    outcome: &'static str,
}

/// What `top` answers. All calls of it go through here, so that nothing else owns an answer: that is dear to prove.
fn answered<F: Files, S: Sink>(
    alloc: Global,
    words: &[String],
    files: &mut F,
    out: &mut S,
) -> Told {
    let answer = top(alloc, words, files, out);
    Told {
        status: answer.status,
        outcome: name(&answer.outcome),
    }
}

/// The files, of which a load may fail.
fn files(alloc: Global, setting: &Setting) -> Result<MemFiles, AllocError> {
    let mut files = MemFiles::new(alloc)?;
    files.fail_at(setting.failing_load)?;
    files.add("first.pi", &setting.file)?;
    files.add("first.report", &setting.report)?;
    files.add("first.run", &setting.run)?;
    Ok(files)
}

/// The protocol's file, of which no load fails.
fn calm_files(alloc: Global, setting: &Setting) -> Result<CalmFiles, AllocError> {
    let mut files = CalmFiles::new(alloc)?;
    files.add("first.pi", &setting.file)?;
    Ok(files)
}

/// A sink in memory, of which a write may fail.
fn sink(alloc: Global, setting: &Setting) -> Result<MemSink, AllocError> {
    let mut out = MemSink::new(alloc, setting.width.max(1) as usize)?;
    out.fail_at(setting.failing_write)?;
    Ok(out)
}

/// What was written, as text.
fn text(out: &MemSink) -> &str {
    std::str::from_utf8(out.written()).unwrap_or("no text")
}

/// The status and the outcome of a call, how many of its loads failed, and what it writes.
pub fn call(alloc: Global, setting: &Setting) -> Result<String, AllocError> {
    let mut files = files(alloc, setting)?;
    let mut out = sink(alloc, setting)?;
    let Told { status, outcome } = answered(alloc, &setting.words, &mut files, &mut out);
    format!(in alloc; "{status} {outcome} {} {}", files.faults(), text(&out))
}

/// The same of files that never fail: the status and the outcome, and what is written.
pub fn calm_call(alloc: Global, setting: &Setting) -> Result<String, AllocError> {
    let mut files = calm_files(alloc, setting)?;
    let mut out = sink(alloc, setting)?;
    let Told { status, outcome } = answered(alloc, &setting.words, &mut files, &mut out);
    format!(in alloc; "{status} {outcome} {}", text(&out))
}

/// The same of a sink that never fails, and keeps nothing: the status and the outcome.
pub fn calm_status(alloc: Global, setting: &Setting) -> Result<String, AllocError> {
    let mut files = calm_files(alloc, setting)?;
    let mut out = CalmSink::new(alloc)?;
    let Told { status, outcome } = answered(alloc, &setting.words, &mut files, &mut out);
    format!(in alloc; "{status} {outcome}")
}
