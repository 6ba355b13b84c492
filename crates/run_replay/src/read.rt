//! The steps that a text spells.

ghost use Rattle.std.specs.Prelude.{ℕ, List, IfOk, IfErr};
ghost use Rattle.spec_calculus.specs.Runs as calculus;
ghost use Rattle.spec_run_text.specs.Faults.{Fault};
ghost use Rattle.spec_run_text.specs.Text.{SpellsRun, IsRefused};
ghost use Rattle.run_replay.specs.Answer.{IsRefusalOf, GivesSteps, GivesRefusal};

use crate::cut::cut;
use crate::error::RunError;
use crate::line::read_line;
use crate::steps::Steps;
use spec_run_text::reading_is_exact;
use std::alloc::Global;

/// The steps that the bytes of a file spell, or the first line that spells none, and why.
///
/// Memory is taken for the steps and, for a while, for the numbers of one line.
pub fn read_run(alloc: Global, source: &[u8]) -> Result<Steps, RunError>
    ensures read { IfOk result (λ steps. SpellsRun source.now steps) }
    ensures refused { IfErr result (λ error. IsRefusalOf source.now error) }

    // Bytes that spell steps give these, and bytes that are refused give that refusal.
    ensures accepts { (steps : List calculus.Step) → SpellsRun source.now steps →
        GivesSteps steps result }
    ensures refuses { (fault : Fault) (number : ℕ) → IsRefused source.now fault number →
        GivesRefusal fault number result }
{
    reading_is_exact();
    let mut items = Vec::new(alloc);
    let mut number = 1;
    let mut rest = source;
    while !rest.is_empty() {
        let (line, behind) = cut(rest, b'\n');
        items.push(read_line(alloc, line, number)?)?;
        number += 1;
        rest = behind.unwrap_or(&[]);
    }
    Ok(Steps { items })
}
