//! What rows of declarations show: the attacker's clauses, and the rules of destructors with variables of their own.
//!
//! Declarations stand as in the file of a protocol, `free c. private fun f/1.`, with names as `signature` numbers them.

ghost use Rattle.std.specs.Prelude.{◌≡◌, ◌<◌, length, IfOk, IfSome};
ghost use Rattle.std.specs.List.{AllByRecursion};
ghost use Rattle.pi_tree.specs.Protocols.{protocol_of};
ghost use Rattle.pi_tree.specs.Rules.{rule_of};
ghost use Rattle.term_tree.specs.Bank.{AreKnown};
ghost use Rattle.table_calls.specs.Declaring.{IsDeclared, CanBeShown, CanAllBeShown};

use crate::clause_rows::tables::texts_of;
use crate::clause_rows::term_lists::{add_behind, text_of};
use attacker_clauses::attacker_list;
use destructor_rules::rename_rule;
use pi_tree::{Protocol, Rule, Rules};
use spec_protocol_scope::{proper_rules, well_scoped, within_limits};
use std::alloc::{AllocError, Global};
use table_protocols::spelled;
use table_texts::writing::write_behind;
use term_tree::{Id, TreeBank};

/// The first variable of a rule that is shown.
const FIRST_VARIABLE: u32 = 5;

/// A table whose rows are declarations.
#[derive(Clone, Copy)]
pub enum DeclarationTable {
    /// The attacker's clauses.
    Attacker,
    /// The rules of the destructors, with variables from 5 on.
    Rules,
}

impl DeclarationTable {
    /// What a row with these declarations shows.
    pub fn shown(self, alloc: Global, declarations: &str) -> Result<String, AllocError> {
        match declared_by(alloc, declarations)? {
            Some(protocol) => self.shown_of(alloc, &protocol),
            None => String::from_str(alloc, "no declarations"),
        }
    }

    /// The same of a protocol with them.
    fn shown_of(self, alloc: Global, protocol: &Protocol) -> Result<String, AllocError>
        requires { IsDeclared (protocol_of protocol.now) }
    {
        match self {
            DeclarationTable::Attacker => attacker_text(alloc, protocol),
            DeclarationTable::Rules => rules_text(alloc, protocol),
        }
    }
}

/// The protocol that the bytes spell, if they spell one.
fn read_declared(alloc: Global, bytes: &[u8]) -> Option<Box<Protocol>>
    ensures { IfSome result (λ protocol. IsDeclared (protocol_of protocol.value)) }
{
    within_limits();
    proper_rules();
    well_scoped();
    let protocol = spelled(alloc, bytes)?;
    Some(protocol)
}

/// The protocol with these declarations, if they are some: one that does nothing.
fn declared_by(alloc: Global, declarations: &str) -> Result<Option<Box<Protocol>>, AllocError>
    ensures { IfOk result (λ found. IfSome found (λ protocol.
        IsDeclared (protocol_of protocol.value))) }
{
    let text = format!(in alloc; "{declarations} process 0")?;
    Ok(read_declared(alloc, text.as_bytes()))
}

/// The attacker's clauses.
fn attacker_text(alloc: Global, protocol: &Protocol) -> Result<String, AllocError>
    requires { IsDeclared (protocol_of protocol.now) }
{
    let mut bank = TreeBank::new(alloc)?;
    attacker_within(alloc, &mut bank, protocol)
}

/// The attacker's clauses, made in a bank.
fn attacker_within(
    alloc: Global,
    bank: &mut TreeBank,
    protocol: &Protocol,
) -> Result<String, AllocError>
    requires { IsDeclared (protocol_of protocol.now) }
{
    let list = attacker_list(alloc, bank, protocol)?;
    texts_of(alloc, bank, &list.items)
}

/// The rules of all destructors.
fn rules_text(alloc: Global, protocol: &Protocol) -> Result<String, AllocError>
    requires { IsDeclared (protocol_of protocol.now) }
{
    let mut text = String::new(alloc);
    add_destructors(alloc, protocol, &mut text)?;
    Ok(text)
}

/// Adds the rules of all destructors.
fn add_destructors(alloc: Global, protocol: &Protocol, text: &mut String) -> Result<(), AllocError>
    requires { AllByRecursion CanAllBeShown (protocol_of protocol.now).destructors }
{
    for destructor in &protocol.dtors.items {
        add_rules(alloc, protocol, &destructor.rules, text)?;
    }
    Ok(())
}

/// Adds the rules of a destructor.
fn add_rules(
    alloc: Global,
    protocol: &Protocol,
    rules: &Rules,
    text: &mut String,
) -> Result<(), AllocError>
    requires { AllByRecursion CanBeShown rules.now }
{
    for rule in &rules.items {
        add_rule(alloc, protocol, rule, text)?;
    }
    Ok(())
}

/// Adds a rule behind others.
fn add_rule(
    alloc: Global,
    protocol: &Protocol,
    rule: &Rule,
    text: &mut String,
) -> Result<(), AllocError>
    requires { CanBeShown (rule_of rule.now) }
{
    let shown = rule_text(alloc, protocol, rule)?;
    write_behind(" | ", text)?;
    text.push_str(shown.as_str())?;
    Ok(())
}

/// A rule.
fn rule_text(alloc: Global, protocol: &Protocol, rule: &Rule) -> Result<String, AllocError>
    requires { CanBeShown (rule_of rule.now) }
{
    let mut bank = TreeBank::new(alloc)?;
    rule_within(alloc, &mut bank, protocol, rule)
}

/// A rule, made in a bank.
fn rule_within(
    alloc: Global,
    bank: &mut TreeBank,
    protocol: &Protocol,
    rule: &Rule,
) -> Result<String, AllocError>
    requires { CanBeShown (rule_of rule.now) }
{
    let (left, right) = rename_rule(alloc, bank, protocol, rule, FIRST_VARIABLE)?;
    sides_text(alloc, bank, &left.items, right)
}

/// The sides of a rule.
fn sides_text(alloc: Global, bank: &TreeBank, left: &[Id], right: Id) -> Result<String, AllocError>
    requires left { AreKnown bank.now left.now }
    requires right { right.index < length bank.now }
{
    let mut text = String::new(alloc);
    for term in left {
        add_behind(text_of(alloc, bank, *term)?.as_str(), &mut text)?;
    }
    text.push_str(" -> ")?;
    text.push_str(text_of(alloc, bank, right)?.as_str())?;
    Ok(text)
}
