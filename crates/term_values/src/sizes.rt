//! Sizes of values, and of the values of terms, against the limit.

ghost use Rattle.std.specs.Prelude.{◌≡◌, ◌+◌, map};
ghost use Rattle.std.specs.List.{list_any};
ghost use Rattle.spec_trees.specs.Tree.{size, sizes, trees, binds};
ghost use Rattle.spec_trees.specs.Leaves.{leaves, row_leaves};
ghost use Rattle.spec_calculus.specs.Values as calculus;
ghost use Rattle.spec_calculus.specs.Values.{bound_to};
ghost use Rattle.spec_calculus.specs.Limits.{is_large, compared, compared_row, terms_at};
ghost use Rattle.pi_tree.specs.Terms.{term_of};
ghost use Rattle.pi_tree.specs.Patterns.{pattern_of};
ghost use Rattle.pi_tree.specs.Expressions.{expression_of};
ghost use Rattle.pi_tree.specs.Processes.{process_of};
ghost use Rattle.pi_tree.specs.Values.{value_of};
ghost use Rattle.pi_tree.specs.Slots.{name_of};
ghost use Rattle.term_values.specs.Room.{room_after};

use crate::environments::Environment;
use pi_tree::{Expr, Exprs, MOST_SYMBOLS, Pat, Pats, Process, Slot, Term, Terms, Value};

/// How many of `room` symbols are left beside the value; `None` where it has more.
#[cycle(room)]
fn room_beside(value: &Value, room: u64) -> Option<u64>
    ensures { result ≡ room_after room (size (value_of value.now)) }
{
    match room.checked_sub(1) {
        None => None,
        Some(rest) => match value {
            Value::Free(_) | Value::Made(..) | Value::Fresh(_) => Some(rest),
            Value::App(_, arguments) => room_beside_all(&arguments.items, rest),
            Value::Tuple(parts) => room_beside_all(&parts.items, rest),
        },
    }
}

/// How many of `room` symbols are left beside the values.
#[tactic(auto, using(crate::proofs::Room::of_rooms))]
#[cycle(room)]
fn room_beside_all(values: &[Value], room: u64) -> Option<u64>
    ensures { result ≡ room_after room (sizes (trees (map value_of values.now))) }
{
    let mut rest = room;
    for value in values {
        match room_beside(value, rest) {
            None => return None,
            Some(left) => rest = left,
        }
    }
    Some(rest)
}

/// Whether the value has more symbols than the limit.
pub fn is_large(value: &Value) -> bool
    ensures { result ≡ is_large (value_of value.now) }
{
    match room_beside(value, MOST_SYMBOLS) {
        Some(_) => false,
        None => true,
    }
}

/// How many of `room` symbols are left beside what the slot is bound to.
fn room_beside_slot(slot: Slot, environment: &Environment, room: u64) -> Option<u64>
    ensures { result ≡ room_after room (size (calculus.value_of_bound environment.now
        (name_of slot))) }
{
    match environment.look_up(slot) {
        Some(value) => room_beside(value, room),
        None => room.checked_sub(1),
    }
}

/// How many of `room` symbols are left beside the value of the term.
#[cycle(term_room)]
fn room_beside_term(term: &Term, environment: &Environment, room: u64) -> Option<u64>
    ensures { result ≡ room_after room (size (calculus.value_of environment.now
        (term_of term.now))) }
{
    match term {
        Term::Var(number) => room_beside_slot(Slot::Var(*number), environment, room),
        Term::Made(point) => room_beside_slot(Slot::Made(*point), environment, room),
        Term::Free(_) => room.checked_sub(1),
        Term::App(_, arguments) => room_beside_node(arguments, environment, room),
        Term::Tuple(parts) => room_beside_node(parts, environment, room),
    }
}

/// How many of `room` symbols are left beside a symbol and the values of the terms under it.
#[tactic(auto, using(crate::proofs::Room::of_rooms))]
#[cycle(term_room)]
fn room_beside_node(terms: &Terms, environment: &Environment, room: u64) -> Option<u64>
    ensures { result ≡ room_after room (1 + sizes
        (binds (calculus.value_of_name environment.now) (trees terms.now))) }
{
    let mut rest = match room.checked_sub(1) {
        None => return None,
        Some(rest) => rest,
    };
    for term in &terms.items {
        match room_beside_term(term, environment, rest) {
            None => return None,
            Some(left) => rest = left,
        }
    }
    Some(rest)
}

/// Whether the value of the term has more symbols than the limit.
pub fn is_large_term(term: &Term, environment: &Environment) -> bool
    ensures { result ≡ is_large (calculus.value_of environment.now (term_of term.now)) }
{
    match room_beside_term(term, environment, MOST_SYMBOLS) {
        Some(_) => false,
        None => true,
    }
}

/// Whether the value of one of the terms has.
pub fn some_large_term(terms: &Terms, environment: &Environment) -> bool
    ensures { result ≡ list_any is_large (calculus.values_of environment.now terms.now) }
{
    for term in &terms.items {
        if is_large_term(term, environment) {
            return true;
        }
    }
    false
}

/// Whether the value of a term with which the pattern compares has more symbols than the limit.
#[cycle(compared)]
pub fn some_large_compared(pattern: &Pat, environment: &Environment) -> bool
    ensures { result ≡ list_any is_large (calculus.values_of environment.now
        (compared (pattern_of pattern.now))) }
{
    match pattern {
        Pat::Bind(_) => false,
        Pat::Equal(term) => is_large_term(term, environment),
        Pat::App(_, arguments) => some_large_compared_in(arguments, environment),
        Pat::Tuple(parts) => some_large_compared_in(parts, environment),
    }
}

/// Whether the value of a term with which one of the patterns compares has.
#[tactic(auto, using(crate::proofs::Room::of_compared))]
#[cycle(compared)]
fn some_large_compared_in(patterns: &Pats, environment: &Environment) -> bool
    ensures { result ≡ list_any is_large (calculus.values_of environment.now
        (compared_row (trees patterns.now))) }
{
    for pattern in &patterns.items {
        if some_large_compared(pattern, environment) {
            return true;
        }
    }
    false
}

/// Whether the value of a part of the expression that holds no destructor has.
#[cycle(leaves)]
fn some_large_leaf(expression: &Expr, environment: &Environment) -> bool
    ensures { result ≡ list_any is_large (calculus.values_of environment.now
        (leaves (expression_of expression.now))) }
{
    match expression {
        Expr::Term(term) => is_large_term(term, environment),
        Expr::App(_, arguments) => some_large_leaf_in(arguments, environment),
        Expr::Tuple(parts) => some_large_leaf_in(parts, environment),
        Expr::Call(_, arguments) => some_large_leaf_in(arguments, environment),
    }
}

/// Whether the value of a part of one of the expressions that holds no destructor has.
#[tactic(auto, using(crate::proofs::Room::of_compared))]
#[cycle(leaves)]
fn some_large_leaf_in(expressions: &Exprs, environment: &Environment) -> bool
    ensures { result ≡ list_any is_large (calculus.values_of environment.now
        (row_leaves (trees expressions.now))) }
{
    for expression in &expressions.items {
        if some_large_leaf(expression, environment) {
            return true;
        }
    }
    false
}

/// Whether the value of a term that is written at the root of the process has.
#[tactic(auto, using(crate::proofs::Room::of_compared))]
pub fn some_large_at(process: &Process, environment: &Environment) -> bool
    ensures { result ≡ list_any is_large (calculus.values_of environment.now
        (terms_at (process_of process.now))) }
{
    match process {
        Process::Output(channel, message, _) => {
            is_large_term(channel, environment) || is_large_term(message, environment)
        }
        Process::Input(channel, pattern, _) => {
            is_large_term(channel, environment) || some_large_compared(pattern, environment)
        }
        Process::Let(pattern, expression, _, _) => {
            some_large_compared(pattern, environment) || some_large_leaf(expression, environment)
        }
        Process::Event(performed, _) => some_large_term(&performed.args, environment),
        Process::Insert(_, arguments, _) => some_large_term(arguments, environment),
        Process::Get(_, patterns, _, _, _) => some_large_compared_in(patterns, environment),
        Process::Nil
        | Process::Par(..)
        | Process::Copies(_)
        | Process::New(..)
        | Process::Phase(..) => false,
    }
}
