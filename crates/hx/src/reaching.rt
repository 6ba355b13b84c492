//! What can happen: for each event, and for the left side of each correspondence, a run that performs it.

ghost use Rattle.std.specs.Prelude.{◌<◌, ◌^◌, IfOk};
ghost use Rattle.pi_tree.specs.Protocols.{protocol_of};
ghost use Rattle.protocol_text.specs.Questions.{IsSubject};
ghost use Rattle.protocol_text.specs.Asking.{AreSubjects};
ghost use Rattle.hx.specs.Readable.{IsReadable};
ghost use Rattle.hx.specs.Reached.{IsFoundOf};

use crate::attack_text::put_run;
use crate::attacking::{Finding, Question, attack_of, run_of};
use crate::numbered::put_numbered;
use hv_io::put_words;
use pi_tree::Protocol;
use protocol_text::{Subject, asking_about, declared_word, subjects};
use run_replay::Steps;
use spec_verdicts::proved_queries_hold;
use std::alloc::{AllocError, Global};

/// What is asked of a protocol: how many entries a log may have, and whether runs are shown.
#[derive(Clone, Copy)]
pub struct Reaching<'a> {
    pub alloc: Global,
    pub protocol: &'a Protocol,
    pub budget: u64,
    pub with_runs: bool,
}

/// What is found of the question whether the subject never happens.
fn found_of(reaching: &Reaching<'_>, subject: Subject) -> Result<Finding, AllocError>
    requires readable { IsReadable (protocol_of reaching.now.protocol.now) }
    requires budget { reaching.now.budget < 2 ^ 32 }
    requires there { IsSubject (protocol_of reaching.now.protocol.now) subject }
    // A run that is found performs the subject, and where it is found to be proved that none does, none does.
    ensures { IfOk result (IsFoundOf (protocol_of reaching.now.protocol.now) reaching.now.budget subject) }
{
    proved_queries_hold();
    let alloc = reaching.alloc;
    let asked = asking_about(alloc, reaching.protocol, &[subject])?;
    let found = attack_of(&Question {
        alloc,
        protocol: &asked,
        query: 1,
        budget: reaching.budget,
    });
    drop(asked);
    found
}

/// Puts what a line is about.
fn put_subject(out: &mut Vec<u8>, protocol: &Protocol, subject: Subject) -> Result<(), AllocError> {
    match subject {
        Subject::Event(event) => {
            out.extend_from_slice(b"event ")?;
            out.extend_from_slice(declared_word(&protocol.events, event))
        }
        Subject::Left(query) => put_numbered(out, "left ", u64::from(query), ""),
    }
}

/// Puts that a run was found, and the run where that is asked for.
fn put_reached(out: &mut Vec<u8>, steps: &Steps, with_runs: bool) -> Result<(), AllocError> {
    let count = steps.items.len();
    put_words(out, format_args!(" reached in {count} steps\n"))?;
    if with_runs {
        put_run(out, steps)?;
    }
    Ok(())
}

/// Puts what is found of a subject; tells whether it is reached.
fn put_found(
    out: &mut Vec<u8>,
    reaching: &Reaching<'_>,
    subject: Subject,
    found: &Finding,
) -> Result<bool, AllocError> {
    put_subject(out, reaching.protocol, subject)?;
    if let Some(steps) = run_of(found) {
        put_reached(out, steps, reaching.with_runs)?;
        return Ok(true);
    }
    match found {
        Finding::Told(_) => out.extend_from_slice(b" never\n")?,
        Finding::Searched(_) => out.extend_from_slice(b" not found\n")?,
    }
    Ok(false)
}

/// Puts what is found of a subject; tells whether it is reached.
fn put_line(
    out: &mut Vec<u8>,
    reaching: &Reaching<'_>,
    subject: Subject,
) -> Result<bool, AllocError>
    requires readable { IsReadable (protocol_of reaching.now.protocol.now) }
    requires budget { reaching.now.budget < 2 ^ 32 }
    requires there { IsSubject (protocol_of reaching.now.protocol.now) subject }
{
    let found = found_of(reaching, subject)?;
    put_found(out, reaching, subject, &found)
}

/// Puts what is found of each of these subjects, a line each; tells whether all are reached.
fn put_lines(
    out: &mut Vec<u8>,
    reaching: &Reaching<'_>,
    subjects: &[Subject],
) -> Result<bool, AllocError>
    requires readable { IsReadable (protocol_of reaching.now.protocol.now) }
    requires budget { reaching.now.budget < 2 ^ 32 }
    requires there { AreSubjects (protocol_of reaching.now.protocol.now) subjects.now }
{
    let mut are_reached = true;
    for index in 0..subjects.len() {
        let is_reached = put_line(out, reaching, subjects[index])?;
        are_reached = are_reached && is_reached;
    }
    Ok(are_reached)
}

/// Puts what is found of each event, and of the left side of each correspondence that has alternatives; tells whether all are
/// reached.
pub(crate) fn put_reach(out: &mut Vec<u8>, reaching: &Reaching<'_>) -> Result<bool, AllocError>
    requires readable { IsReadable (protocol_of reaching.now.protocol.now) }
    requires budget { reaching.now.budget < 2 ^ 32 }
{
    let all = subjects(reaching.alloc, reaching.protocol)?;
    put_lines(out, reaching, &all)
}
