//! The rules of destructors that the attacker applies.

ghost use Rattle.std.specs.Prelude.{◌≡◌, [], ◌∷◌, ◌++◌, map, flat_map, OnOk};
ghost use Rattle.std.specs.List.{AllByRecursion};
ghost use Rattle.spec_translation.specs.Attacker.{rule_applied};
ghost use Rattle.term_tree.specs.Bank.{Grows};
ghost use Rattle.pi_tree.specs.Rules.{rule_of, destructor_of};
ghost use Rattle.pi_tree.specs.Protocols.{protocol_of};
ghost use Rattle.attacker_clauses.specs.Conditions.{CanBeRenamed, CanAllBeRenamed};
ghost use Rattle.attacker_clauses.specs.Listed.{Adds};

use crate::listing::{InPhase, add_known};
use clause_form::Clauses;
use destructor_rules::rename_rule;
use pi_tree::{Protocol, Rule, Rules};
use std::alloc::AllocError;
use term_tree::Bank;

/// Adds that in the phase the attacker applies a rule. On `Err` the bank may have grown.
fn add_rule<B: Bank>(
    at: InPhase,
    bank: &mut B,
    protocol: &Protocol,
    rule: &Rule,
    list: &mut Clauses,
) -> Result<(), AllocError>
    requires { CanBeRenamed (rule_of rule.now) }
    ensures grows { Grows (B.trees bank.old) (B.trees bank.new) }
    ensures adds { OnOk result (Adds (B.trees bank.old) list.old (B.trees bank.new) list.new
        (rule_applied (protocol_of protocol.now) at.phase (rule_of rule.now) ∷ [])) }
{
    let (left, right) = rename_rule(at.alloc, bank, protocol, rule, 0)?;
    add_known(at, bank, &left.items, right, list)
}

/// Adds that in the phase the attacker applies the rules of a destructor. On `Err` the bank may have grown.
fn add_rules<B: Bank>(
    at: InPhase,
    bank: &mut B,
    protocol: &Protocol,
    rules: &Rules,
    list: &mut Clauses,
) -> Result<(), AllocError>
    requires { AllByRecursion CanBeRenamed rules.now }
    ensures grows { Grows (B.trees bank.old) (B.trees bank.new) }
    ensures adds { OnOk result (Adds (B.trees bank.old) list.old (B.trees bank.new) list.new
        (map (rule_applied (protocol_of protocol.now) at.phase) rules.now)) }
{
    for rule in &rules.items {
        add_rule(at, bank, protocol, rule, list)?;
    }
    Ok(())
}

/// Adds that in the phase the attacker applies the rules of the destructors. On `Err` the bank may have grown.
pub(crate) fn add_destructors<B: Bank>(
    at: InPhase,
    bank: &mut B,
    protocol: &Protocol,
    list: &mut Clauses,
) -> Result<(), AllocError>
    requires { AllByRecursion CanAllBeRenamed (protocol_of protocol.now).destructors }
    ensures grows { Grows (B.trees bank.old) (B.trees bank.new) }
    ensures adds { OnOk result (Adds (B.trees bank.old) list.old (B.trees bank.new) list.new
        (flat_map (λ destructor. map (rule_applied (protocol_of protocol.now) at.phase) destructor.rules)
        (protocol_of protocol.now).destructors)) }
{
    for destructor in &protocol.dtors.items {
        add_rules(at, bank, protocol, &destructor.rules, list)?;
    }
    Ok(())
}
