//! Applying steps to a configuration.

ghost use Rattle.std.specs.Prelude.{◌≡◌, ◌+◌, ◌^◌, ◌<◌, None, Some, length, IfOk, IfErr, OnOk, OnErr};
ghost use Rattle.spec_calculus.specs.Limits.{limited_refusal};
ghost use Rattle.spec_calculus.specs.Points.{nodes};
ghost use Rattle.spec_calculus.specs.Refusals.{IsUniform};
ghost use Rattle.spec_calculus.specs.Runs.{after_step};
ghost use Rattle.pi_tree.specs.Processes.{process_of};
ghost use Rattle.pi_tree.specs.Protocols.{protocol_of};
ghost use Rattle.pi_model.specs.Answers.{IsRefusalOf, TellsWhether};
ghost use Rattle.pi_configurations.specs.Changes.{changed};
ghost use Rattle.pi_configurations.specs.Configurations.{configuration_of, IsConfigurationOf};
ghost use Rattle.pi_model.specs.Plans.{IsPossible, IsErrorOf};
ghost use Rattle.pi_model.specs.Steps.{step_of};

use crate::attacker::{build, part, reduce};
use crate::choices::{fail, take};
use crate::errors::ApplyError;
use crate::phases::next;
use crate::processes::{copy, hear, make, mark, split};
use crate::receiving::{pass, say};
use crate::running::Run;
use crate::steps::Step;
use crate::tables::{fetch, miss, put};
use pi_configurations::changes::Change;
use pi_configurations::configurations::Conf;
use pi_tree::Protocol;
use std::alloc::Global;

/// What the step changes, or why it is refused.
#[tactic(auto, using(crate::proofs::Causes::of_fresh))]
fn plan(alloc: Global, protocol: &Protocol, conf: &Conf, step: &Step) -> Result<Change, ApplyError>
    requires of_protocol { IsConfigurationOf (protocol_of protocol.now) conf.now }
    requires points { length (nodes (process_of protocol.now.main)) < 2 ^ 32 }
    ensures possible { IfOk result (λ change.
        IsPossible (protocol_of protocol.now) (configuration_of conf.now) (step_of step.now)
        (changed change (configuration_of conf.now))) }
    ensures refused { IfErr result (λ e. IsErrorOf (protocol_of protocol.now)
        (configuration_of conf.now) (step_of step.now) e) }
{
    let run = Run {
        alloc,
        protocol,
        conf,
    };
    match step {
        Step::Build(constructor, arguments) => build(&run, *constructor, arguments),
        Step::Reduce(destructor, rule, arguments) => reduce(&run, *destructor, *rule, arguments),
        Step::Part(value, number) => part(&run, *value, *number),
        Step::Fresh => Ok(Change::Name),
        Step::Split(thread) => split(&run, *thread),
        Step::Copy(thread) => copy(&run, *thread),
        Step::Make(thread) => make(&run, *thread),
        Step::Pass(sender, receiver) => pass(&run, *sender, *receiver),
        Step::Hear(thread) => hear(&run, *thread),
        Step::Say(thread, value) => say(&run, *thread, *value),
        Step::Take(thread, label) => take(&run, *thread, label),
        Step::Fail(thread) => fail(&run, *thread),
        Step::Mark(thread) => mark(&run, *thread),
        Step::Next => next(&run),
        Step::Insert(thread) => put(&run, *thread),
        Step::Get(thread, entry) => fetch(&run, *thread, *entry),
        Step::Miss(thread) => miss(&run, *thread),
    }
}

/// Applies the step and counts it.
fn apply_counted(
    alloc: Global,
    protocol: &Protocol,
    conf: &mut Conf,
    step: &Step,
) -> Result<(), ApplyError>
    requires of_protocol { IsConfigurationOf (protocol_of protocol.now) conf.old }
    requires points { length (nodes (process_of protocol.now.main)) < 2 ^ 32 }
    requires fewer { conf.old.steps < 2 ^ 32 }
    ensures after { OnOk result (after_step (protocol_of protocol.now) (configuration_of conf.old)
        (step_of step.now) ≡ Some (configuration_of conf.new)) }
    ensures allowed { OnOk result (limited_refusal (protocol_of protocol.now)
        (configuration_of conf.old) (step_of step.now) ≡ None) }
    ensures refused { IfErr result (λ e. IsRefusalOf (protocol_of protocol.now)
        (configuration_of conf.old) (step_of step.now) e) }
    ensures unchanged { OnErr result (conf.new ≡ conf.old) }
    ensures steps { OnOk result (conf.new.steps ≡ conf.old.steps + 1) }
{
    let change = plan(alloc, protocol, conf, step)?;
    conf.change(change)?;
    conf.steps += 1;
    Ok(())
}

/// Applies the step, or says why it is refused: the first of the causes that apply, a value over the limit
/// of size after all others. Without that limit a step is applied exactly where it is possible. On each
/// error the configuration is as before.
///
/// The configuration is one of the protocol, as `start` makes it and each step keeps it, and fewer than
/// 2^32 steps were applied.
#[tactic(auto, using(crate::proofs::Keeping::of_keeping, crate::proofs::Told::of_told))]
pub fn apply(
    alloc: Global,
    protocol: &Protocol,
    conf: &mut Conf,
    step: &Step,
) -> Result<(), ApplyError>
    requires of_protocol { IsConfigurationOf (protocol_of protocol.now) conf.old }
    requires points { length (nodes (process_of protocol.now.main)) < 2 ^ 32 }
    requires fewer { conf.old.steps < 2 ^ 32 }
    ensures after { OnOk result (after_step (protocol_of protocol.now) (configuration_of conf.old)
        (step_of step.now) ≡ Some (configuration_of conf.new)) }
    ensures allowed { OnOk result (limited_refusal (protocol_of protocol.now)
        (configuration_of conf.old) (step_of step.now) ≡ None) }
    ensures refused { IfErr result (λ e. IsRefusalOf (protocol_of protocol.now)
        (configuration_of conf.old) (step_of step.now) e) }
    ensures unchanged { OnErr result (conf.new ≡ conf.old) }

    // Whether a step that is refused is possible: only one with a large value is. (Here all rules of a
    // destructor take as many arguments.)
    ensures possible { IsUniform (protocol_of protocol.now) →
        IfErr result (λ e. TellsWhether (protocol_of protocol.now) (configuration_of conf.old)
        (step_of step.now) e) }

    // What the next step wants.
    ensures steps { OnOk result (conf.new.steps ≡ conf.old.steps + 1) }
    ensures of_protocol { IsConfigurationOf (protocol_of protocol.now) conf.new }
{
    apply_counted(alloc, protocol, conf, step)
}
