//! What the attacker knows, and what can be made of it.

ghost use Rattle.std.specs.Prelude.{◌≡◌, map, option_map, IfOk};
ghost use Rattle.spec_trees.specs.Tree.{items_of, trees};
ghost use Rattle.spec_calculus.specs.Points.{numbered};
ghost use Rattle.spec_calculus.specs.Runs.{known_values, built, part_of};
ghost use Rattle.spec_calculus.specs.Refusals.{takes, is_public_constructor, first_arity};
ghost use Rattle.pi_tree.specs.Names.{declared_of};
ghost use Rattle.pi_tree.specs.Protocols.{protocol_of};
ghost use Rattle.pi_tree.specs.Rules.{rule_of};
ghost use Rattle.pi_tree.specs.Values as seen;
ghost use Rattle.pi_configurations.specs.Configurations.{configuration_of};

use crate::steps::Numbers;
use pi_configurations::configurations::{Conf, known_value};
use pi_tree::{Declared, MOST_ARGUMENTS, Protocol, Rule, Value, Values};
use std::alloc::{AllocError, Global};

/// Copies of the known values of those numbers, if all are there.
pub fn known_values(
    alloc: Global,
    conf: &Conf,
    numbers: &Numbers,
) -> Result<Option<Values>, AllocError>
    ensures { IfOk result (λ o. o ≡ known_values (configuration_of conf.now) numbers.now) }
{
    let mut items = Vec::with_capacity(alloc, numbers.items.len())?;
    for number in &numbers.items {
        match known_value(conf, *number) {
            None => return Ok(None),
            Some(value) => items.push(value.copy(alloc)?)?,
        }
    }
    Ok(Some(Values { items }))
}

/// The declared constructor of that number, if there is one.
#[tactic(auto, using(term_values::proofs::Items::by_number))]
fn constructor(protocol: &Protocol, number: u32) -> Option<&Declared>
    ensures { option_map (λ d. declared_of d.now) result ≡ numbered protocol.now.ctors number }
{
    match number.checked_sub(1) {
        None => None,
        Some(index) => protocol.ctors.items.get(index as usize),
    }
}

/// Whether the constructor, or for 0 the tuple, takes that many arguments.
#[tactic(auto, using(crate::proofs::Causes::of_constructors))]
pub fn takes(protocol: &Protocol, number: u32, count: usize) -> bool
    ensures { result ≡ takes (protocol_of protocol.now) number count }
{
    if number == 0 {
        return 2 <= count && count <= MOST_ARGUMENTS;
    }
    match constructor(protocol, number) {
        None => false,
        Some(declared) => declared.arity as usize == count,
    }
}

/// Whether the constructor, or for 0 the tuple, is public.
#[tactic(auto, using(crate::proofs::Causes::of_constructors))]
pub fn is_public_constructor(protocol: &Protocol, number: u32) -> bool
    ensures { result ≡ is_public_constructor (protocol_of protocol.now) number }
{
    if number == 0 {
        return true;
    }
    match constructor(protocol, number) {
        None => false,
        Some(declared) => declared.public,
    }
}

/// The constructor, or for 0 the tuple, of the values.
#[tactic(auto, using(crate::proofs::Causes::of_constructors))]
pub fn built(number: u32, values: Values) -> Value
    ensures { seen.value_of result ≡ built number values }
{
    if number == 0 {
        Value::Tuple(values)
    } else {
        Value::App(number, values)
    }
}

/// Whether the rules are of a destructor that takes that many arguments.
pub fn first_arity(rules: &[Rule], count: usize) -> bool
    ensures { result ≡ first_arity (map rule_of rules.now) count }
{
    match rules.first() {
        None => false,
        Some(rule) => rule.left.items.len() == count,
    }
}

/// The part of that number among the values, if it is there.
#[tactic(auto, using(crate::proofs::Causes::of_items))]
fn item(values: &[Value], number: u32) -> Option<&Value>
    ensures { option_map (λ v. seen.value_of v.now) result ≡
        numbered (items_of (trees (map seen.value_of values.now))) number }
{
    match number.checked_sub(1) {
        None => None,
        Some(index) => values.get(index as usize),
    }
}

/// The part of that number of the value, if it is data and has one.
#[tactic(auto, using(crate::proofs::Causes::of_parts))]
pub fn part_of<'a>(protocol: &Protocol, number: u32, value: &'a Value) -> Option<&'a Value>
    ensures { option_map (λ v. seen.value_of v.now) result ≡
        part_of (protocol_of protocol.now) number (seen.value_of value.now) }
{
    match value {
        Value::Free(_) | Value::Made(..) | Value::Fresh(_) => None,
        Value::Tuple(parts) => item(&parts.items, number),
        Value::App(function, arguments) => match constructor(protocol, *function) {
            None => None,
            Some(declared) => {
                if declared.is_data {
                    item(&arguments.items, number)
                } else {
                    None
                }
            }
        },
    }
}
