//! The parts of data values.

ghost use Rattle.std.specs.Prelude.{◌≡◌, ◌+◌, ◌≤◌, ◌<◌, ◌^◌, length, option_map, IfOk, OnOk};
ghost use Rattle.spec_trees.specs.Tree.{trees};
ghost use Rattle.spec_calculus.specs.Points.{numbered};
ghost use Rattle.spec_calculus.specs.Runs.{is_data};
ghost use Rattle.spec_calculus.specs.Syntax.{Constructor};
ghost use Rattle.spec_attack_runs.specs.Attack.{most_steps};
ghost use Rattle.spec_attack_runs.specs.Compiling.{parts_of, row_parts_of};
ghost use Rattle.pi_tree.specs.Names.{declared_of};
ghost use Rattle.pi_tree.specs.Protocols.{protocol_of};
ghost use Rattle.pi_tree.specs.Values.{value_of};
ghost use Rattle.attack_state.specs.Parts.{Adds};

use crate::state::MOST_STEPS;
use pi_tree::{Declared, Protocol, Value, Values};
use std::alloc::AllocError;

/// The declared constructor of that number, if there is one.
#[tactic(auto, using(term_values::proofs::Items::by_number))]
fn declared(protocol: &Protocol, constructor: u32) -> Option<&Declared>
    ensures { option_map (λ d. declared_of d.now) result ≡ numbered protocol.now.ctors constructor }
{
    match constructor.checked_sub(1) {
        None => None,
        Some(index) => protocol.ctors.items.get(index as usize),
    }
}

/// Whether the constructor makes data.
fn is_data(protocol: &Protocol, constructor: u32) -> bool
    ensures { result ≡ is_data (protocol_of protocol.now) (Constructor constructor) }
{
    match declared(protocol, constructor) {
        None => false,
        Some(declared) => declared.is_data,
    }
}

/// Adds which parts of the value at the place are to be taken, each followed by its own; whether there are no more than are told.
/// Each part becomes known behind those before it, the first of all of them at the place behind `first`.
#[cycle(parts)]
pub(crate) fn add_parts(
    protocol: &Protocol,
    first: u32,
    place: u32,
    value: &Value,
    parts: &mut Vec<(u32, u32)>,
) -> Result<bool, AllocError>
    requires room { first + most_steps < 2 ^ 32 }
    requires few { length parts.old.items ≤ most_steps }
    ensures few { OnOk result (length parts.new.items ≤ most_steps) }
    ensures adds { IfOk result (Adds (parts_of (protocol_of protocol.now) place
        (first + length parts.old.items + 1) (value_of value.now)) parts.old.items parts.new.items) }
{
    match value {
        Value::Free(_) | Value::Made(..) | Value::Fresh(_) => Ok(true),
        Value::Tuple(values) => add_row_parts(protocol, first, place, values, parts),
        Value::App(constructor, values) => {
            if !is_data(protocol, *constructor) {
                return Ok(true);
            }
            add_row_parts(protocol, first, place, values, parts)
        }
    }
}

/// Adds these parts of the value at the place, each followed by its own.
#[cycle(parts)]
fn add_row_parts(
    protocol: &Protocol,
    first: u32,
    place: u32,
    values: &Values,
    parts: &mut Vec<(u32, u32)>,
) -> Result<bool, AllocError>
    requires room { first + most_steps < 2 ^ 32 }
    requires few { length parts.old.items ≤ most_steps }
    ensures few { OnOk result (length parts.new.items ≤ most_steps) }
    ensures adds { IfOk result (Adds (row_parts_of (protocol_of protocol.now) place 1
        (first + length parts.old.items + 1) (trees values.now)) parts.old.items parts.new.items) }
{
    'each: for (index, value) in values.items.iter().enumerate() {
        if parts.len() >= MOST_STEPS {
            return Ok(false);
        }
        parts.push((place, index as u32 + 1))?;
        let own = first + parts.len() as u32;
        if !add_parts(protocol, first, own, value, parts)? {
            return Ok(false);
        }
    }
    Ok(true)
}
