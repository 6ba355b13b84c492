//! The step of a line.

ghost use Rattle.std.specs.Prelude.{◌≡◌, option_map, IfOk};
ghost use Rattle.pi_model.specs.Steps.{step_of};
ghost use Rattle.spec_run_text.specs.Reading.{step_with};
ghost use Rattle.run_replay.specs.Actions.{action_of};
ghost use Rattle.run_replay.specs.Answer.{ReadsLine};

use crate::cut::cut;
use crate::error::RunError;
use crate::numbers::numbers;
use crate::words::{Action, action_named};
use pi_model::{Numbers, Step};
use pi_tree::MOST_LINE_BYTES;
use std::alloc::{AllocError, Global};

/// The step of an action with these numbers; `None` where they are not as many as it has.
fn step(alloc: Global, action: Action, numbers: &[u32]) -> Result<Option<Step>, AllocError>
    ensures { IfOk result (λ made. option_map step_of made ≡
        step_with (action_of action) numbers.now) }
{
    let step = match (action, numbers) {
        (Action::Build, [constructor, arguments @ ..]) => {
            let items = Vec::from_slice(alloc, arguments)?;
            Step::Build(*constructor, Numbers { items })
        }
        (Action::Reduce, [destructor, rule, arguments @ ..]) => {
            let items = Vec::from_slice(alloc, arguments)?;
            Step::Reduce(*destructor, *rule, Numbers { items })
        }
        (Action::Part, [value, part]) => Step::Part(*value, *part),
        (Action::Fresh, []) => Step::Fresh,
        (Action::Split, [thread]) => Step::Split(*thread),
        (Action::Copy, [thread]) => Step::Copy(*thread),
        (Action::Make, [thread]) => Step::Make(*thread),
        (Action::Pass, [sender, receiver]) => Step::Pass(*sender, *receiver),
        (Action::Hear, [thread]) => Step::Hear(*thread),
        (Action::Say, [thread, value]) => Step::Say(*thread, *value),
        (Action::Take, [thread, rules @ ..]) => {
            let items = Vec::from_slice(alloc, rules)?;
            Step::Take(*thread, Numbers { items })
        }
        (Action::Fail, [thread]) => Step::Fail(*thread),
        (Action::Mark, [thread]) => Step::Mark(*thread),
        (Action::Next, []) => Step::Next,
        (Action::Put, [thread]) => Step::Insert(*thread),
        (Action::Fetch, [thread, entry]) => Step::Get(*thread, *entry),
        (Action::Miss, [thread]) => Step::Miss(*thread),
        _ => return Ok(None),
    };
    Ok(Some(step))
}

/// The step that a line spells, or its fault, at the line's number.
pub fn read_line(alloc: Global, line: &[u8], number: u64) -> Result<Step, RunError>
    ensures { ReadsLine line.now number result }
{
    if line.len() > MOST_LINE_BYTES {
        return Err(RunError::LongLine(number));
    }
    let (word, behind) = cut(line, b' ');
    let Some(action) = action_named(word) else {
        return Err(RunError::Word(number));
    };
    let Some(numbers) = numbers(alloc, behind)? else {
        return Err(RunError::Number(number));
    };
    let Some(step) = step(alloc, action, &numbers)? else {
        return Err(RunError::Number(number));
    };
    Ok(step)
}
