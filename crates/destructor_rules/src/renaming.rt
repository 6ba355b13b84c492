//! Rules as terms of clauses, with variables of their own.

ghost use Rattle.std.specs.Prelude.{◌≡◌, map, IfOk, OnErr};
ghost use Rattle.spec_translation.specs.Conversion.{rule_term as rule_term_of};
ghost use Rattle.term_tree.specs.Bank.{Names, Grows};
ghost use Rattle.clause_form.specs.Seen.{NameTerms};
ghost use Rattle.pi_tree.specs.Protocols.{protocol_of};
ghost use Rattle.pi_tree.specs.Rules.{rule_of};
ghost use Rattle.clause_terms.specs.Conditions.{IsShortRule, HasRoomForRule};

use clause_form::Ids;
use clause_terms::{rule_term, rule_terms};
use pi_tree::{Protocol, Rule};
use std::alloc::{AllocError, Global};
use term_tree::{Bank, Id};

/// The sides of a rule over the variables from the base on. On `Err` the bank may have grown.
fn sides<B: Bank>(
    alloc: Global,
    bank: &mut B,
    protocol: &Protocol,
    rule: &Rule,
    base: u32,
) -> Result<(Ids, Id), AllocError>
    requires short { IsShortRule (rule_of rule.now) }
    requires room { HasRoomForRule base (rule_of rule.now) }
    ensures grows { Grows (B.trees bank.old) (B.trees bank.new) }
    ensures left { IfOk result (λ made. NameTerms (B.trees bank.new) made.0
        (map (rule_term_of (protocol_of protocol.now) base) (rule_of rule.now).left)) }
    ensures right { IfOk result (λ made. Names (B.trees bank.new) made.1
        (rule_term_of (protocol_of protocol.now) base (rule_of rule.now).right)) }
{
    let left = rule_terms(alloc, bank, protocol, base, &rule.left)?;
    let right = rule_term(alloc, bank, protocol, base, &rule.right)?;
    Ok((left, right))
}

/// The left sides and the right side of a rule as terms of clauses: its variables, numbered from 1, are those from the
/// base on.
///
/// `Err` comes only for want of memory; then the bank is as before.
pub fn rename_rule<B: Bank>(
    alloc: Global,
    bank: &mut B,
    protocol: &Protocol,
    rule: &Rule,
    base: u32,
) -> Result<(Ids, Id), AllocError>
    requires short { IsShortRule (rule_of rule.now) }
    requires room { HasRoomForRule base (rule_of rule.now) }
    ensures grows { Grows (B.trees bank.old) (B.trees bank.new) }
    ensures left { IfOk result (λ made. NameTerms (B.trees bank.new) made.0
        (map (rule_term_of (protocol_of protocol.now) base) (rule_of rule.now).left)) }
    ensures right { IfOk result (λ made. Names (B.trees bank.new) made.1
        (rule_term_of (protocol_of protocol.now) base (rule_of rule.now).right)) }
    ensures err { OnErr result (B.trees bank.new ≡ B.trees bank.old) }
{
    let mark = bank.mark();
    match sides(alloc, bank, protocol, rule, base) {
        Ok(made) => Ok(made),
        Err(error) => {
            bank.back(mark);
            Err(error)
        }
    }
}
