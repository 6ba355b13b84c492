//! Patterns.

ghost use Rattle.std.specs.Prelude.{◌≡◌, ◌<◌, ◌≤◌, ℕ, length, IfOk};
ghost use Rattle.spec_protocol_grammar.specs.Classes.{words};
ghost use Rattle.spec_protocol_grammar.specs.Reading.{built, list_of, list_at, arguments_at, begins_pattern, pattern_by, pattern_at};
ghost use Rattle.pi_parser.specs.Gives.{Gives, IsBehind, most_of};
ghost use Rattle.pi_parser.specs.Patterns.{pattern_of, patterns_of};

use crate::error::{Fault, lowest};
use crate::sketch::{PatternSketch, PatternsSketch};
use crate::terms::term;
use crate::words::{class_at, is_at, mark};
use spec_protocol_grammar::Class;
use std::alloc::Global;

/// Patterns, a comma between two of them.
#[tactic(auto, using(crate::proofs::Lists::going_begins, crate::proofs::Lists::going_continues, crate::proofs::Lists::going_ends, crate::proofs::Lists::going_faults, crate::proofs::Lists::first_faults))]
#[cycle(pattern)]
fn patterns(
    alloc: Global,
    classes: &[Class],
    at: usize,
    left: usize,
) -> Result<(PatternsSketch, usize), Fault>
    requires { at ≤ length classes.now }
    ensures read { Gives patterns_of result (built list_of
        (list_at (most_of classes.now) Class.Comma (pattern_at (most_of classes.now) left))
        (words classes.now) at) }
    ensures within { IsBehind classes.now at result }
{
    let mut items = Vec::new(alloc);
    let (first, mut behind) = pattern(alloc, classes, at, left)?;
    items.push(first)?;
    while is_at(classes, behind, Class::Comma) {
        let (next, end) = pattern(alloc, classes, behind + 1, left)?;
        items.push(next)?;
        behind = end;
    }
    Ok((PatternsSketch { items }, behind))
}

/// Nothing, or arguments in parentheses.
#[tactic(auto, using(crate::proofs::Lists::arguments_none, crate::proofs::Lists::arguments_fault, crate::proofs::Lists::arguments_unclosed))]
#[cycle(pattern)]
pub fn arguments(
    alloc: Global,
    classes: &[Class],
    at: usize,
    left: usize,
) -> Result<(PatternsSketch, usize), Fault>
    requires { at ≤ length classes.now }
    ensures read { Gives patterns_of result (arguments_at (most_of classes.now)
        (pattern_at (most_of classes.now) left) (words classes.now) at) }
    ensures within { IfOk result (λ x. (at ≤ x.1) × (x.1 ≤ length classes.now)) }
{
    if is_at(classes, at, Class::Open) {
        let (items, behind) = patterns(alloc, classes, at + 1, left)?;
        let close = mark(classes, behind, Class::Close)?;
        Ok((items, close))
    } else {
        let items = Vec::new(alloc);
        Ok((PatternsSketch { items }, at))
    }
}

/// A name, and its arguments if it has some.
#[cycle(pattern)]
fn named(
    alloc: Global,
    classes: &[Class],
    at: usize,
    left: usize,
) -> Result<(PatternSketch, usize), Fault>
    requires room { at < length classes.now }
    requires name { (words classes.now at).class ≡ Class.Name }
    ensures read { Gives pattern_of result (pattern_by (most_of classes.now) left
        (pattern_at (most_of classes.now) left) Class.Name (words classes.now) at) }
    ensures within { IsBehind classes.now at result }
{
    let (arguments, behind) = arguments(alloc, classes, at + 1, left)?;
    Ok((PatternSketch::Named(at, arguments), behind))
}

/// `=` and a term.
fn equal(
    alloc: Global,
    classes: &[Class],
    at: usize,
    left: usize,
) -> Result<(PatternSketch, usize), Fault>
    requires room { at < length classes.now }
    requires equals { (words classes.now at).class ≡ Class.Equals }
    ensures read { Gives pattern_of result (pattern_by (most_of classes.now) left
        (pattern_at (most_of classes.now) left) Class.Equals (words classes.now) at) }
    ensures within { IsBehind classes.now at result }
{
    let (term, behind) = term(alloc, classes, at + 1, left)?;
    Ok((PatternSketch::Equal(at, term), behind))
}

/// Patterns in parentheses.
#[cycle(pattern)]
fn grouped(
    alloc: Global,
    classes: &[Class],
    at: usize,
    left: usize,
) -> Result<(PatternSketch, usize), Fault>
    requires room { at < length classes.now }
    requires open { (words classes.now at).class ≡ Class.Open }
    ensures read { Gives pattern_of result (pattern_by (most_of classes.now) left
        (pattern_at (most_of classes.now) left) Class.Open (words classes.now) at) }
    ensures within { IsBehind classes.now at result }
{
    let (parts, behind) = patterns(alloc, classes, at + 1, left)?;
    let close = mark(classes, behind, Class::Close)?;
    Ok((PatternSketch::Grouped(at, parts), close))
}

#[tactic(auto, using(crate::proofs::Levels::begins_pattern_other))]
fn begins_pattern(class: Class) -> bool
    ensures { result ≡ begins_pattern class }
{
    matches!(class, Class::Name | Class::Equals | Class::Open)
}

/// A pattern, with so many levels left.
#[tactic(auto, using(crate::proofs::Levels::pattern_deeper, crate::proofs::Levels::pattern_other, crate::proofs::Levels::pattern_bottom))]
#[cycle(pattern)]
pub fn pattern(
    alloc: Global,
    classes: &[Class],
    at: usize,
    left: usize,
) -> Result<(PatternSketch, usize), Fault>
    requires { at ≤ length classes.now }
    ensures read { Gives pattern_of result (pattern_at (most_of classes.now) left
        (words classes.now) at) }
    ensures within { IsBehind classes.now at result }
{
    let class = class_at(classes, at);
    if left == 0 {
        return Err(lowest(begins_pattern(class), at));
    }
    match class {
        Class::Name => named(alloc, classes, at, left - 1),
        Class::Equals => equal(alloc, classes, at, left - 1),
        Class::Open => grouped(alloc, classes, at, left - 1),
        _ => Err(Fault::Unexpected(at)),
    }
}
