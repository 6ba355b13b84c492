//! The text of what is found of a query.

ghost use Rattle.std.specs.Prelude.{◌≡◌, ◌++◌, codes, map, OnOk};
ghost use Rattle.pi_model.specs.Steps.{step_of};
ghost use Rattle.hx.specs.AttackText.{line, step_lines, run_lines, effort_text, attack_text, told_text, searched_text, finding_text};

use crate::attacking::Finding;
use attack_search::{Effort, Searched};
use hv_io::put_words;
use pi_model::Step;
use query_verify::Verdict;
use run_replay::{Steps, put_step};
use std::alloc::AllocError;

/// Puts the steps of a run, each behind `s ` on a line of its own.
fn put_steps(out: &mut Vec<u8>, steps: &[Step]) -> Result<(), AllocError>
    ensures { OnOk result (out.new.items ≡
        out.old.items ++ step_lines (map step_of steps.now)) }
{
    'each: for step in steps {
        out.extend_from_slice(b"s ")?;
        put_step(out, step)?;
    }
    Ok(())
}

/// Puts a run, as `verify` writes that of an attack: its steps, and its end.
pub(crate) fn put_run(out: &mut Vec<u8>, steps: &Steps) -> Result<(), AllocError>
    ensures { OnOk result (out.new.items ≡ out.old.items ++ run_lines steps.now) }
{
    put_steps(out, &steps.items)?;
    out.extend_from_slice(b"end\n")
}

/// Puts that there is an attack, and its run.
fn put_attack(out: &mut Vec<u8>, steps: &Steps) -> Result<(), AllocError>
    ensures { OnOk result (out.new.items ≡ out.old.items ++ attack_text steps.now) }
{
    out.extend_from_slice(b"attack\n")?;
    put_run(out, steps)
}

/// Puts a verdict that settles a query.
fn put_told(out: &mut Vec<u8>, answer: &Verdict) -> Result<(), AllocError>
    ensures { OnOk result (out.new.items ≡ out.old.items ++ told_text answer.now) }
{
    match answer {
        Verdict::Attack(steps) => put_attack(out, steps),
        _ => out.extend_from_slice(b"proved\n"),
    }
}

/// Puts how far a search came.
fn put_effort(out: &mut Vec<u8>, effort: Effort) -> Result<(), AllocError>
    ensures { OnOk result (out.new.items ≡ out.old.items ++ line (effort_text effort)) }
{
    let Effort {
        candidates,
        instances,
        steps,
    } = effort;
    put_words(
        out,
        format_args!(
            "not found: {candidates} candidates, {instances} uses of clauses, {steps} steps tried\n"
        ),
    )
}

/// Puts what a search comes to.
fn put_searched(out: &mut Vec<u8>, searched: &Searched) -> Result<(), AllocError>
    ensures { OnOk result (out.new.items ≡ out.old.items ++ searched_text searched.now) }
{
    match searched {
        Searched::Found(steps) => put_attack(out, steps),
        Searched::Nothing(effort) => put_effort(out, *effort),
    }
}

/// Puts what is found of the query of that number.
pub(crate) fn put_finding(
    out: &mut Vec<u8>,
    query: u32,
    finding: &Finding,
) -> Result<(), AllocError>
    ensures { OnOk result (out.new.items ≡ out.old.items ++ finding_text query finding.now) }
{
    put_words(out, format_args!("query {query} "))?;
    match finding {
        Finding::Told(answer) => put_told(out, answer),
        Finding::Searched(searched) => put_searched(out, searched),
    }
}
