//! Labels of the choices of a `let`.

ghost use Rattle.std.specs.Prelude.{◌≡◌, ◌<◌, IfOk};
ghost use Rattle.spec_calculus.specs.Choices.{label_of as label_of_rules};
ghost use Rattle.spec_calculus.specs.Syntax as calculus;
ghost use Rattle.spec_choice_walks.specs.Instructions.{instructions};
ghost use Rattle.term_values.specs.Instructions.{instruction_of};
ghost use Rattle.process_visits.specs.Labels.{IsCounted, AreRulesAt, IsLabelAt, called_by};
ghost use Rattle.unified_visits.specs.Places.{protocol_at};
ghost use Rattle.visit_choices.specs.Walks.{instructions_of};

use clause_sources::Label;
use std::alloc::{AllocError, Global};
use term_values::{Instruction, rules_of};
use visit_choices::choice::Choosing;

/// The destructor that the instruction applies, if it does.
fn destructor_of(instruction: &Instruction<'_>) -> Option<u32>
    ensures { result ≡ called_by (instruction_of instruction.now) }
{
    match instruction {
        Instruction::Call(destructor, _) => Some(*destructor),
        Instruction::Term(_) | Instruction::App(..) | Instruction::Tuple(_) => None,
    }
}

/// The rules that the choice of that number takes, in order.
fn rules_at(choosing: &Choosing<'_>, number: usize) -> Result<Vec<u32>, AllocError>
    requires count { IsCounted choosing.now }
    requires within { number < choosing.now.count }
    ensures { IfOk result (λ rules. AreRulesAt (protocol_at choosing.now.place.now)
        (instructions_of choosing.now) number rules.items) }
{
    let mut rules = Vec::new(choosing.place.alloc);
    let mut left = choosing.count;
    let mut rest = number;
    'each: for instruction in choosing.instructions {
        match destructor_of(instruction) {
            None => {}
            Some(destructor) => {
                let found = rules_of(choosing.place.protocol, destructor);
                left /= found.len();
                let rule = rest / left;
                rest %= left;
                rules.push(rule as u32 + 1)?;
            }
        }
    }
    Ok(rules)
}

/// The label of a choice that takes these rules: their numbers, 0 alone where there is none.
fn label_of(alloc: Global, rules: &[u32]) -> Result<Label, AllocError>
    ensures { IfOk result (λ label. label ≡ label_of_rules rules.now) }
{
    if rules.is_empty() {
        let mut items = Vec::new(alloc);
        items.push(0)?;
        return Ok(Label { items });
    }
    let items = rules.to_vec(alloc)?;
    Ok(Label { items })
}

/// The label of the choice of that number: the numbers of the rules by which its destructors are applied, 0 alone where it has
/// none.
pub fn label_at(choosing: &Choosing<'_>, number: usize) -> Result<Label, AllocError>
    requires count { IsCounted choosing.now }
    requires within { number < choosing.now.count }
    ensures { IfOk result (λ label. (e : calculus.Expression) →
        instructions_of choosing.now ≡ instructions e →
        IsLabelAt (protocol_at choosing.now.place.now) e number label) }
{
    let rules = rules_at(choosing, number)?;
    label_of(choosing.place.alloc, &rules)
}
