//! Processes. Each alternative of a unit has a function of its own, so that a level of nesting takes little of the stack.

ghost use Rattle.std.specs.Prelude.{◌≡◌, ◌<◌, ◌≤◌, ℕ, false, length, IfOk};
ghost use Rattle.spec_protocol_grammar.specs.Classes.{words, same};
ghost use Rattle.spec_protocol_grammar.specs.Reading.{both, arguments_at, pattern_at, condition_at, next_at, begins_unit, unit_by, unit_at, process_at};
ghost use Rattle.pi_parser.specs.Gives.{Gives, IsBehind, most_of};
ghost use Rattle.pi_parser.specs.Processes.{condition_of, entry_of, unit_of, next_of, branches_of, process_of};

use crate::error::{Fault, lowest};
use crate::patterns::{arguments, pattern};
use crate::sketch::{ConditionSketch, NextSketch, PatternsSketch, ProcessSketch, UnitSketch};
use crate::terms::{atom, term};
use crate::words::{class_at, is_at, mark};
use spec_protocol_grammar::Class;
use std::alloc::Global;

/// Nothing, or a unit behind a word of this class.
#[cycle(process)]
fn next(
    alloc: Global,
    classes: &[Class],
    at: usize,
    left: usize,
    before: Class,
) -> Result<(NextSketch, usize), Fault>
    requires room { at ≤ length classes.now }
    requires other { same before Class.End ≡ false }
    ensures read { Gives next_of result (next_at before (unit_at (most_of classes.now) left)
        (words classes.now) at) }
    ensures within { IfOk result (λ x. (at ≤ x.1) × (x.1 ≤ length classes.now)) }
{
    if is_at(classes, at, before) {
        let (unit, behind) = unit(alloc, classes, at + 1, left)?;
        Ok((NextSketch::Given(Box::new(alloc, unit)?), behind))
    } else {
        Ok((NextSketch::Omitted, at))
    }
}

/// `(process)`.
#[cycle(process)]
fn inner(
    alloc: Global,
    classes: &[Class],
    at: usize,
    left: usize,
) -> Result<(UnitSketch, usize), Fault>
    requires room { at < length classes.now }
    requires first { (words classes.now at).class ≡ Class.Open }
    ensures read { Gives unit_of result (unit_by (most_of classes.now) left
        (unit_at (most_of classes.now) left) (process_at (most_of classes.now) left) Class.Open
        (words classes.now) at) }
    ensures within { IsBehind classes.now at result }
{
    let (process, behind) = process(alloc, classes, at + 1, left)?;
    let process = Box::new(alloc, process)?;
    let close = mark(classes, behind, Class::Close)?;
    Ok((UnitSketch::Inner(at, process), close))
}

/// `! unit`.
#[cycle(process)]
fn replicated(
    alloc: Global,
    classes: &[Class],
    at: usize,
    left: usize,
) -> Result<(UnitSketch, usize), Fault>
    requires room { at < length classes.now }
    requires first { (words classes.now at).class ≡ Class.Bang }
    ensures read { Gives unit_of result (unit_by (most_of classes.now) left
        (unit_at (most_of classes.now) left) (process_at (most_of classes.now) left) Class.Bang
        (words classes.now) at) }
    ensures within { IsBehind classes.now at result }
{
    let (unit, behind) = unit(alloc, classes, at + 1, left)?;
    Ok((UnitSketch::Replicated(at, Box::new(alloc, unit)?), behind))
}

/// `new name`, and what follows.
#[cycle(process)]
fn new(
    alloc: Global,
    classes: &[Class],
    at: usize,
    left: usize,
) -> Result<(UnitSketch, usize), Fault>
    requires room { at < length classes.now }
    requires first { (words classes.now at).class ≡ Class.New }
    ensures read { Gives unit_of result (unit_by (most_of classes.now) left
        (unit_at (most_of classes.now) left) (process_at (most_of classes.now) left) Class.New
        (words classes.now) at) }
    ensures within { IsBehind classes.now at result }
{
    let name = at + 1;
    let behind = mark(classes, name, Class::Name)?;
    let (next, end) = next(alloc, classes, behind, left, Class::Semicolon)?;
    Ok((UnitSketch::New(at, name, next), end))
}

/// `out(channel, message)`, and what follows.
#[cycle(process)]
fn output(
    alloc: Global,
    classes: &[Class],
    at: usize,
    left: usize,
) -> Result<(UnitSketch, usize), Fault>
    requires room { at < length classes.now }
    requires first { (words classes.now at).class ≡ Class.Out }
    ensures read { Gives unit_of result (unit_by (most_of classes.now) left
        (unit_at (most_of classes.now) left) (process_at (most_of classes.now) left) Class.Out
        (words classes.now) at) }
    ensures within { IsBehind classes.now at result }
{
    let inside = mark(classes, at + 1, Class::Open)?;
    let (channel, comma) = term(alloc, classes, inside, left)?;
    let second = mark(classes, comma, Class::Comma)?;
    let (message, close) = term(alloc, classes, second, left)?;
    let behind = mark(classes, close, Class::Close)?;
    let (next, end) = next(alloc, classes, behind, left, Class::Semicolon)?;
    Ok((UnitSketch::Output(at, channel, message, next), end))
}

/// `in(channel, pattern)`, and what follows.
#[cycle(process)]
fn input(
    alloc: Global,
    classes: &[Class],
    at: usize,
    left: usize,
) -> Result<(UnitSketch, usize), Fault>
    requires room { at < length classes.now }
    requires first { (words classes.now at).class ≡ Class.In }
    ensures read { Gives unit_of result (unit_by (most_of classes.now) left
        (unit_at (most_of classes.now) left) (process_at (most_of classes.now) left) Class.In
        (words classes.now) at) }
    ensures within { IsBehind classes.now at result }
{
    let inside = mark(classes, at + 1, Class::Open)?;
    let (channel, comma) = term(alloc, classes, inside, left)?;
    let second = mark(classes, comma, Class::Comma)?;
    let (pattern, close) = pattern(alloc, classes, second, left)?;
    let behind = mark(classes, close, Class::Close)?;
    let (next, end) = next(alloc, classes, behind, left, Class::Semicolon)?;
    Ok((UnitSketch::Input(at, channel, pattern, next), end))
}

/// `event atom`, and what follows.
#[cycle(process)]
fn happens(
    alloc: Global,
    classes: &[Class],
    at: usize,
    left: usize,
) -> Result<(UnitSketch, usize), Fault>
    requires room { at < length classes.now }
    requires first { (words classes.now at).class ≡ Class.Event }
    ensures read { Gives unit_of result (unit_by (most_of classes.now) left
        (unit_at (most_of classes.now) left) (process_at (most_of classes.now) left) Class.Event
        (words classes.now) at) }
    ensures within { IsBehind classes.now at result }
{
    let (atom, behind) = atom(alloc, classes, at + 1, left)?;
    let (next, end) = next(alloc, classes, behind, left, Class::Semicolon)?;
    Ok((UnitSketch::Happens(at, atom, next), end))
}

/// A unit, and an else branch.
#[cycle(process)]
fn branches(
    alloc: Global,
    classes: &[Class],
    at: usize,
    left: usize,
) -> Result<((Box<UnitSketch>, NextSketch), usize), Fault>
    requires { at ≤ length classes.now }
    ensures read { Gives branches_of result (both (unit_at (most_of classes.now) left)
        (next_at Class.Else (unit_at (most_of classes.now) left)) (words classes.now) at) }
    ensures within { IsBehind classes.now at result }
{
    let (unit, behind) = unit(alloc, classes, at, left)?;
    let unit = Box::new(alloc, unit)?;
    let (otherwise, end) = next(alloc, classes, behind, left, Class::Else)?;
    Ok(((unit, otherwise), end))
}

/// `let pattern = term in unit`, and its else branch.
#[cycle(process)]
fn let_in(
    alloc: Global,
    classes: &[Class],
    at: usize,
    left: usize,
) -> Result<(UnitSketch, usize), Fault>
    requires room { at < length classes.now }
    requires first { (words classes.now at).class ≡ Class.Let }
    ensures read { Gives unit_of result (unit_by (most_of classes.now) left
        (unit_at (most_of classes.now) left) (process_at (most_of classes.now) left) Class.Let
        (words classes.now) at) }
    ensures within { IsBehind classes.now at result }
{
    let (pattern, equals) = pattern(alloc, classes, at + 1, left)?;
    let right = mark(classes, equals, Class::Equals)?;
    let (term, word) = term(alloc, classes, right, left)?;
    let body = mark(classes, word, Class::In)?;
    let ((unit, otherwise), end) = branches(alloc, classes, body, left)?;
    Ok((UnitSketch::Let(at, pattern, term, unit, otherwise), end))
}

/// `if left = right then unit`, and its else branch.
#[cycle(process)]
fn if_then(
    alloc: Global,
    classes: &[Class],
    at: usize,
    left: usize,
) -> Result<(UnitSketch, usize), Fault>
    requires room { at < length classes.now }
    requires first { (words classes.now at).class ≡ Class.If }
    ensures read { Gives unit_of result (unit_by (most_of classes.now) left
        (unit_at (most_of classes.now) left) (process_at (most_of classes.now) left) Class.If
        (words classes.now) at) }
    ensures within { IsBehind classes.now at result }
{
    let (first, equals) = term(alloc, classes, at + 1, left)?;
    let right = mark(classes, equals, Class::Equals)?;
    let (second, word) = term(alloc, classes, right, left)?;
    let body = mark(classes, word, Class::Then)?;
    let ((unit, otherwise), end) = branches(alloc, classes, body, left)?;
    Ok((UnitSketch::If(at, first, second, unit, otherwise), end))
}

/// `phase number`, and what follows.
#[cycle(process)]
fn phase(
    alloc: Global,
    classes: &[Class],
    at: usize,
    left: usize,
) -> Result<(UnitSketch, usize), Fault>
    requires room { at < length classes.now }
    requires first { (words classes.now at).class ≡ Class.Phase }
    ensures read { Gives unit_of result (unit_by (most_of classes.now) left
        (unit_at (most_of classes.now) left) (process_at (most_of classes.now) left) Class.Phase
        (words classes.now) at) }
    ensures within { IsBehind classes.now at result }
{
    let number = at + 1;
    let behind = mark(classes, number, Class::Number)?;
    let (next, end) = next(alloc, classes, behind, left, Class::Semicolon)?;
    Ok((UnitSketch::Phase(at, number, next), end))
}

/// `insert table(arguments)`, and what follows.
#[cycle(process)]
fn insert(
    alloc: Global,
    classes: &[Class],
    at: usize,
    left: usize,
) -> Result<(UnitSketch, usize), Fault>
    requires room { at < length classes.now }
    requires first { (words classes.now at).class ≡ Class.Insert }
    ensures read { Gives unit_of result (unit_by (most_of classes.now) left
        (unit_at (most_of classes.now) left) (process_at (most_of classes.now) left) Class.Insert
        (words classes.now) at) }
    ensures within { IsBehind classes.now at result }
{
    let (entry, behind) = atom(alloc, classes, at + 1, left)?;
    let (next, end) = next(alloc, classes, behind, left, Class::Semicolon)?;
    Ok((UnitSketch::Insert(at, entry, next), end))
}

/// Nothing, or `suchthat left = right`.
fn condition(
    alloc: Global,
    classes: &[Class],
    at: usize,
    left: usize,
) -> Result<(ConditionSketch, usize), Fault>
    requires { at ≤ length classes.now }
    ensures read { Gives condition_of result (condition_at (most_of classes.now) left
        (words classes.now) at) }
    ensures within { IfOk result (λ x. (at ≤ x.1) × (x.1 ≤ length classes.now)) }
{
    if is_at(classes, at, Class::Suchthat) {
        let (first, equals) = term(alloc, classes, at + 1, left)?;
        let right = mark(classes, equals, Class::Equals)?;
        let (second, end) = term(alloc, classes, right, left)?;
        Ok((ConditionSketch::SuchThat(first, second), end))
    } else {
        Ok((ConditionSketch::Always, at))
    }
}

/// The patterns of an entry, and the condition.
fn entry(
    alloc: Global,
    classes: &[Class],
    at: usize,
    left: usize,
) -> Result<((PatternsSketch, ConditionSketch), usize), Fault>
    requires { at ≤ length classes.now }
    ensures read { Gives entry_of result (both
        (arguments_at (most_of classes.now) (pattern_at (most_of classes.now) left))
        (condition_at (most_of classes.now) left) (words classes.now) at) }
    ensures within { IfOk result (λ x. (at ≤ x.1) × (x.1 ≤ length classes.now)) }
{
    let (patterns, behind) = arguments(alloc, classes, at, left)?;
    let (condition, end) = condition(alloc, classes, behind, left)?;
    Ok(((patterns, condition), end))
}

/// `get table(patterns) in unit`, with a condition and its else branch.
#[cycle(process)]
fn get_in(
    alloc: Global,
    classes: &[Class],
    at: usize,
    left: usize,
) -> Result<(UnitSketch, usize), Fault>
    requires room { at < length classes.now }
    requires first { (words classes.now at).class ≡ Class.Get }
    ensures read { Gives unit_of result (unit_by (most_of classes.now) left
        (unit_at (most_of classes.now) left) (process_at (most_of classes.now) left) Class.Get
        (words classes.now) at) }
    ensures within { IsBehind classes.now at result }
{
    let table = at + 1;
    let inside = mark(classes, table, Class::Name)?;
    let ((patterns, condition), word) = entry(alloc, classes, inside, left)?;
    let body = mark(classes, word, Class::In)?;
    let ((unit, otherwise), end) = branches(alloc, classes, body, left)?;
    Ok((
        UnitSketch::Get(at, table, patterns, condition, unit, otherwise),
        end,
    ))
}

#[tactic(auto, using(crate::proofs::Levels::begins_unit_other))]
fn begins_unit(class: Class) -> bool
    ensures { result ≡ begins_unit class }
{
    matches!(
        class,
        Class::Zero
            | Class::Name
            | Class::Open
            | Class::Bang
            | Class::New
            | Class::Out
            | Class::In
            | Class::Event
            | Class::Let
            | Class::If
            | Class::Phase
            | Class::Insert
            | Class::Get
    )
}

/// A unit, with so many levels left.
#[tactic(auto, using(crate::proofs::Levels::unit_deeper, crate::proofs::Levels::unit_other, crate::proofs::Levels::unit_bottom))]
#[cycle(process)]
fn unit(
    alloc: Global,
    classes: &[Class],
    at: usize,
    left: usize,
) -> Result<(UnitSketch, usize), Fault>
    requires { at ≤ length classes.now }
    ensures read { Gives unit_of result (unit_at (most_of classes.now) left (words classes.now)
        at) }
    ensures within { IsBehind classes.now at result }
{
    let class = class_at(classes, at);
    if left == 0 {
        return Err(lowest(begins_unit(class), at));
    }
    match class {
        Class::Zero => Ok((UnitSketch::Zero(at), at + 1)),
        Class::Name => Ok((UnitSketch::Macro(at), at + 1)),
        Class::Open => inner(alloc, classes, at, left - 1),
        Class::Bang => replicated(alloc, classes, at, left - 1),
        Class::New => new(alloc, classes, at, left - 1),
        Class::Out => output(alloc, classes, at, left - 1),
        Class::In => input(alloc, classes, at, left - 1),
        Class::Event => happens(alloc, classes, at, left - 1),
        Class::Let => let_in(alloc, classes, at, left - 1),
        Class::If => if_then(alloc, classes, at, left - 1),
        Class::Phase => phase(alloc, classes, at, left - 1),
        Class::Insert => insert(alloc, classes, at, left - 1),
        Class::Get => get_in(alloc, classes, at, left - 1),
        _ => Err(Fault::Unexpected(at)),
    }
}

/// A process, with so many levels left.
#[tactic(auto, using(crate::proofs::Levels::process_deeper, crate::proofs::Levels::process_bottom))]
#[cycle(process)]
pub fn process(
    alloc: Global,
    classes: &[Class],
    at: usize,
    left: usize,
) -> Result<(ProcessSketch, usize), Fault>
    requires { at ≤ length classes.now }
    ensures read { Gives process_of result (process_at (most_of classes.now) left
        (words classes.now) at) }
    ensures within { IsBehind classes.now at result }
{
    if left == 0 {
        return Err(lowest(begins_unit(class_at(classes, at)), at));
    }
    let (unit, behind) = unit(alloc, classes, at, left - 1)?;
    let unit = Box::new(alloc, unit)?;
    if is_at(classes, behind, Class::Bar) {
        let (others, end) = process(alloc, classes, behind + 1, left - 1)?;
        Ok((ProcessSketch::Beside(unit, Box::new(alloc, others)?), end))
    } else {
        Ok((ProcessSketch::Alone(unit), behind))
    }
}
