//! The attacker's steps: what each changes where it is possible, and why it is refused.

ghost use Rattle.std.specs.Prelude.{IfOk, IfErr};
ghost use Rattle.spec_calculus.specs.Runs as calculus;
ghost use Rattle.pi_model.specs.Running.{Changes, Refuses};

use crate::errors::{ApplyError, StepError};
use crate::knowledge::{built, first_arity, is_public_constructor, known_values, part_of, takes};
use crate::running::Run;
use crate::steps::Numbers;
use pi_configurations::changes::Change;
use pi_configurations::configurations::known_value;
use term_values::{is_large, rules_of, value_by_rule};

/// The attacker applies the constructor, 0 for the tuple, to known values.
#[tactic(auto, using(crate::proofs::Causes::of_build))]
pub fn build(run: &Run, constructor: u32, numbers: &Numbers) -> Result<Change, ApplyError>
    ensures possible { IfOk result (Changes run.now (calculus.Build constructor numbers.now)) }
    ensures refused { IfErr result (Refuses run.now (calculus.Build constructor numbers.now)) }
{
    if !takes(run.protocol, constructor, numbers.items.len()) {
        return Err(ApplyError::Refused(StepError::WrongForm));
    }
    let values = known_values(run.alloc, run.conf, numbers)?.ok_or(StepError::NoKnowledge)?;
    if !is_public_constructor(run.protocol, constructor) {
        return Err(ApplyError::Refused(StepError::NotPublic));
    }
    let value = built(constructor, values);
    if is_large(&value) {
        drop(value);
        return Err(ApplyError::Refused(StepError::Large));
    }
    Ok(Change::Learn(value))
}

/// The attacker applies the rule of the destructor to known values.
#[tactic(auto, using(crate::proofs::Causes::of_reduce))]
pub fn reduce(
    run: &Run,
    destructor: u32,
    rule: u32,
    numbers: &Numbers,
) -> Result<Change, ApplyError>
    ensures possible { IfOk result (Changes run.now (calculus.Reduce destructor rule numbers.now)) }
    ensures refused { IfErr result (Refuses run.now (calculus.Reduce destructor rule numbers.now)) }
{
    let rules = rules_of(run.protocol, destructor);
    if !first_arity(rules, numbers.items.len()) {
        return Err(ApplyError::Refused(StepError::WrongForm));
    }
    let values = match known_values(run.alloc, run.conf, numbers)? {
        None => return Err(ApplyError::Refused(StepError::NoKnowledge)),
        Some(values) => values,
    };
    let value = match value_by_rule(run.alloc, rules, rule, &values.items)? {
        None => return Err(ApplyError::Refused(StepError::NoRule)),
        Some(value) => value,
    };
    if is_large(&value) {
        drop(value);
        return Err(ApplyError::Refused(StepError::Large));
    }
    Ok(Change::Learn(value))
}

/// The attacker takes a part of a known data value.
#[tactic(auto, using(crate::proofs::Causes::of_part))]
pub fn part(run: &Run, value: u32, part: u32) -> Result<Change, ApplyError>
    ensures possible { IfOk result (Changes run.now (calculus.Part value part)) }
    ensures refused { IfErr result (Refuses run.now (calculus.Part value part)) }
{
    let whole = known_value(run.conf, value).ok_or(StepError::NoKnowledge)?;
    let found = part_of(run.protocol, part, whole).ok_or(StepError::WrongForm)?;
    if is_large(found) {
        return Err(ApplyError::Refused(StepError::Large));
    }
    Ok(Change::Learn(found.copy(run.alloc)?))
}
