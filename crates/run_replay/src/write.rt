//! The text of a run.

ghost use Rattle.std.specs.Prelude.{◌≡◌, [], ◌∷◌, ◌++◌, map, IfOk, OnOk};
ghost use Rattle.std.specs.List.{AllByRecursion, concat};
ghost use Rattle.pi_model.specs.Steps.{step_of};
ghost use Rattle.spec_run_text.specs.Spelling.{spaced, line_of};
ghost use Rattle.spec_run_text.specs.Text.{SpellsRun, IsWritable, text_of};

use itoa::Buffer;
use pi_model::Step;
use spec_run_text::texts_are_exact;
use std::alloc::{AllocError, Global};

/// Puts a number, a space before it.
fn put_number(out: &mut Vec<u8>, number: u32) -> Result<(), AllocError>
    ensures { OnOk result (out.new.items ≡ out.old.items ++ spaced number) }
{
    let mut digits = Buffer::new();
    out.push(b' ')?;
    out.extend_from_slice(digits.format(number).as_bytes())
}

/// Puts numbers, a space before each.
fn put_numbers(out: &mut Vec<u8>, numbers: &[u32]) -> Result<(), AllocError>
    ensures { OnOk result (out.new.items ≡ out.old.items ++ concat (map spaced numbers.now)) }
{
    'each: for number in numbers {
        put_number(out, *number)?;
    }
    Ok(())
}

/// Puts the line of a word and of numbers, the last of which stand in a list of their own.
fn put_line(out: &mut Vec<u8>, word: &[u8], first: &[u32], others: &[u32]) -> Result<(), AllocError>
    ensures { OnOk result (out.new.items ≡ out.old.items ++
        ((word.now ++ concat (map spaced (first.now ++ others.now))) ++ 10 ∷ [])) }
{
    out.extend_from_slice(word)?;
    put_numbers(out, first)?;
    put_numbers(out, others)?;
    out.push(b'\n')?;
    Ok(())
}

/// Puts the line of a step, with its end.
pub fn put_step(out: &mut Vec<u8>, step: &Step) -> Result<(), AllocError>
    ensures { OnOk result (out.new.items ≡
        out.old.items ++ (line_of (step_of step.now) ++ 10 ∷ [])) }
{
    match step {
        Step::Build(constructor, arguments) => {
            put_line(out, b"build", &[*constructor], &arguments.items)
        }
        Step::Reduce(destructor, rule, arguments) => {
            put_line(out, b"reduce", &[*destructor, *rule], &arguments.items)
        }
        Step::Part(value, part) => put_line(out, b"part", &[*value, *part], &[]),
        Step::Fresh => put_line(out, b"fresh", &[], &[]),
        Step::Split(thread) => put_line(out, b"split", &[*thread], &[]),
        Step::Copy(thread) => put_line(out, b"copy", &[*thread], &[]),
        Step::Make(thread) => put_line(out, b"make", &[*thread], &[]),
        Step::Pass(sender, receiver) => put_line(out, b"pass", &[*sender, *receiver], &[]),
        Step::Hear(thread) => put_line(out, b"hear", &[*thread], &[]),
        Step::Say(thread, value) => put_line(out, b"say", &[*thread, *value], &[]),
        Step::Take(thread, label) => put_line(out, b"take", &[*thread], &label.items),
        Step::Fail(thread) => put_line(out, b"fail", &[*thread], &[]),
        Step::Mark(thread) => put_line(out, b"mark", &[*thread], &[]),
        Step::Next => put_line(out, b"next", &[], &[]),
        Step::Insert(thread) => put_line(out, b"insert", &[*thread], &[]),
        Step::Get(thread, entry) => put_line(out, b"get", &[*thread, *entry], &[]),
        Step::Miss(thread) => put_line(out, b"miss", &[*thread], &[]),
    }
}

/// The text of a run, a line for each step. Where each step has a line that spells it, the text spells the steps: `read_run`
/// gives them back.
pub fn write_run(alloc: Global, steps: &[Step]) -> Result<Vec<u8>, AllocError>
    ensures text { IfOk result (λ text. text.items ≡ text_of (map step_of steps.now)) }
    ensures spells { AllByRecursion IsWritable (map step_of steps.now) →
        IfOk result (λ text. SpellsRun text.items (map step_of steps.now)) }
{
    texts_are_exact();
    let mut out = Vec::new(alloc);
    'each: for step in steps {
        put_step(&mut out, step)?;
    }
    Ok(out)
}
