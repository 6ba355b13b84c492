//! The rules of destructors that the attacker applies.

ghost use Rattle.std.specs.Prelude.{◌≡◌, ◌+◌, ◌^◌, ◌<◌, flat_map, length, IfOk, OnOk};
ghost use Rattle.std.specs.List.{AllByRecursion, enumerate_from};
ghost use Rattle.spec_translation.specs.Attacker.{rule_applied};
ghost use Rattle.spec_attack_runs.specs.Gathered.{rule_deeds};
ghost use Rattle.term_tree.specs.Bank.{Grows};
ghost use Rattle.pi_tree.specs.Rules.{rule_of, destructor_of};
ghost use Rattle.pi_tree.specs.Protocols.{protocol_of};
ghost use Rattle.attacker_clauses.specs.Conditions.{CanBeRenamed, CanAllBeRenamed};
ghost use Rattle.attacker_sources.specs.Deeds.{HasFewRules};
ghost use Rattle.clause_sources.specs.Listed.{Tells};

use crate::raws::{InPhase, known};
use clause_form::{PlainClause, read_term};
use clause_sources::{Action, Sources, add_sources, read_trees};
use destructor_rules::rename_rule;
use pi_tree::{Dtor, Protocol, Rule};
use std::alloc::AllocError;
use term_tree::Bank;

/// That in the phase the attacker applies a rule. The bank may have grown.
fn raw_grown<B: Bank>(
    at: InPhase,
    bank: &mut B,
    protocol: &Protocol,
    rule: &Rule,
) -> Result<PlainClause, AllocError>
    requires { CanBeRenamed (rule_of rule.now) }
    ensures grows { Grows (B.trees bank.old) (B.trees bank.new) }
    ensures raw { IfOk result (λ raw. raw ≡
        rule_applied (protocol_of protocol.now) at.phase (rule_of rule.now)) }
{
    let (left, right) = rename_rule(at.alloc, bank, protocol, rule, 0)?;
    let parts = read_trees(at.alloc, bank, &left.items)?;
    let whole = read_term(at.alloc, bank, right)?;
    known(at.alloc, at.phase, parts, at.phase, whole)
}

/// That in the phase the attacker applies a rule. The bank is as before.
fn raw_rule<B: Bank>(
    at: InPhase,
    bank: &mut B,
    protocol: &Protocol,
    rule: &Rule,
) -> Result<PlainClause, AllocError>
    requires { CanBeRenamed (rule_of rule.now) }
    ensures bank { B.trees bank.new ≡ B.trees bank.old }
    ensures raw { IfOk result (λ raw. raw ≡
        rule_applied (protocol_of protocol.now) at.phase (rule_of rule.now)) }
{
    let mark = bank.mark();
    let raw = raw_grown(at, bank, protocol, rule);
    bank.back(mark);
    raw
}

/// Adds that in the phase the attacker applies the rules of the destructor of that number.
fn add_rules<B: Bank>(
    at: InPhase,
    bank: &mut B,
    protocol: &Protocol,
    numbered: (u32, &Dtor),
    sources: &mut Sources,
) -> Result<(), AllocError>
    requires renamed { CanAllBeRenamed (destructor_of numbered.1.now) }
    requires few { length (destructor_of numbered.1.now).rules < 2 ^ 32 }
    ensures bank { B.trees bank.new ≡ B.trees bank.old }
    ensures tells { OnOk result (Tells sources.old sources.new
        (rule_deeds (protocol_of protocol.now) at.phase
        (numbered.entry.0, destructor_of numbered.entry.1.now))) }
{
    let (number, dtor) = numbered;
    'each: for (index, rule) in dtor.rules.items.iter().enumerate() {
        let raw = raw_rule(at, bank, protocol, rule)?;
        let action = Action::Reduces(number, index as u32 + 1);
        add_sources(at.alloc, bank, &raw, &action, sources)?;
    }
    Ok(())
}

/// Adds that in the phase the attacker applies the rules of the destructors.
pub(crate) fn add_destructors<B: Bank>(
    at: InPhase,
    bank: &mut B,
    protocol: &Protocol,
    sources: &mut Sources,
) -> Result<(), AllocError>
    requires rules { AllByRecursion CanAllBeRenamed (protocol_of protocol.now).destructors }
    requires few { HasFewRules (protocol_of protocol.now) }
    ensures bank { B.trees bank.new ≡ B.trees bank.old }
    ensures tells { OnOk result (Tells sources.old sources.new
        (flat_map (rule_deeds (protocol_of protocol.now) at.phase)
        (enumerate_from 1 (protocol_of protocol.now).destructors))) }
{
    'each: for (index, dtor) in protocol.dtors.items.iter().enumerate() {
        add_rules(at, bank, protocol, (index as u32 + 1, dtor), sources)?;
    }
    Ok(())
}
