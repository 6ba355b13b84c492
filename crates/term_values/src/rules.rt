//! Rules of destructors by their numbers (Blanchet 2016, section 2.2).

ghost use Rattle.std.specs.Prelude.{◌≡◌, map, option_map, IfOk};
ghost use Rattle.spec_calculus.specs.Matching.{rules_of};
ghost use Rattle.spec_calculus.specs.Points.{numbered};
ghost use Rattle.pi_tree.specs.Protocols.{protocol_of};
ghost use Rattle.pi_tree.specs.Rules.{rule_of};
ghost use Rattle.pi_tree.specs.Values.{value_of};
ghost use Rattle.term_values.specs.ByRules.{by_rule};

use destructor_rules::rule_value;
use pi_tree::{Protocol, Rule, Value};
use std::alloc::{AllocError, Global};

/// The rules of the destructor of that number; none where there is no such destructor.
#[tactic(auto, using(crate::proofs::Items::by_number))]
pub fn rules_of(protocol: &Protocol, destructor: u32) -> &[Rule]
    ensures { map rule_of result.now ≡ rules_of (protocol_of protocol.now) destructor }
{
    match destructor.checked_sub(1) {
        None => &[],
        Some(index) => match protocol.dtors.items.get(index as usize) {
            None => &[],
            Some(found) => found.rules.items.as_slice(),
        },
    }
}

/// The rule of that number, if there is one.
#[tactic(auto, using(crate::proofs::Items::by_number))]
pub fn rule_of(rules: &[Rule], number: u32) -> Option<&Rule>
    ensures { option_map (λ r. rule_of r.now) result ≡ numbered (map rule_of rules.now) number }
{
    match number.checked_sub(1) {
        None => None,
        Some(index) => rules.get(index as usize),
    }
}

/// The value that the rule of that number gives of the arguments, if there is such a rule and it applies.
#[tactic(auto, unfolding(crate::specs::ByRules::by_rule))]
pub fn value_by_rule(
    alloc: Global,
    rules: &[Rule],
    number: u32,
    arguments: &[Value],
) -> Result<Option<Value>, AllocError>
    ensures { IfOk result (λ o. option_map value_of o ≡
        by_rule (map rule_of rules.now) (map value_of arguments.now) number) }
{
    match rule_of(rules, number) {
        None => Ok(None),
        Some(rule) => rule_value(alloc, rule, arguments),
    }
}
