//! Terms and events.

ghost use Rattle.std.specs.Prelude.{◌≡◌, ◌<◌, ◌≤◌, ℕ, length, IfOk};
ghost use Rattle.spec_protocol_grammar.specs.Classes.{words};
ghost use Rattle.spec_protocol_grammar.specs.Reading.{built, list_of, list_at, arguments_at, begins_term, term_by, term_at, atom_at};
ghost use Rattle.pi_parser.specs.Gives.{Gives, IsBehind, most_of};
ghost use Rattle.pi_parser.specs.Terms.{term_of, terms_of, atom_of};

use crate::error::{Fault, lowest};
use crate::sketch::{AtomSketch, TermSketch, TermsSketch};
use crate::words::{class_at, is_at, mark};
use spec_protocol_grammar::Class;
use std::alloc::Global;

/// Terms, a comma between two of them.
#[tactic(auto, using(crate::proofs::Lists::going_begins, crate::proofs::Lists::going_continues, crate::proofs::Lists::going_ends, crate::proofs::Lists::going_faults, crate::proofs::Lists::first_faults))]
#[cycle(term)]
pub fn terms(
    alloc: Global,
    classes: &[Class],
    at: usize,
    left: usize,
) -> Result<(TermsSketch, usize), Fault>
    requires { at ≤ length classes.now }
    ensures read { Gives terms_of result (built list_of
        (list_at (most_of classes.now) Class.Comma (term_at (most_of classes.now) left))
        (words classes.now) at) }
    ensures within { IsBehind classes.now at result }
{
    let mut items = Vec::new(alloc);
    let (first, mut behind) = term(alloc, classes, at, left)?;
    items.push(first)?;
    while is_at(classes, behind, Class::Comma) {
        let (next, end) = term(alloc, classes, behind + 1, left)?;
        items.push(next)?;
        behind = end;
    }
    Ok((TermsSketch { items }, behind))
}

/// Nothing, or arguments in parentheses.
#[tactic(auto, using(crate::proofs::Lists::arguments_none, crate::proofs::Lists::arguments_fault, crate::proofs::Lists::arguments_unclosed))]
#[cycle(term)]
fn arguments(
    alloc: Global,
    classes: &[Class],
    at: usize,
    left: usize,
) -> Result<(TermsSketch, usize), Fault>
    requires { at ≤ length classes.now }
    ensures read { Gives terms_of result (arguments_at (most_of classes.now)
        (term_at (most_of classes.now) left) (words classes.now) at) }
    ensures within { IfOk result (λ x. (at ≤ x.1) × (x.1 ≤ length classes.now)) }
{
    if is_at(classes, at, Class::Open) {
        let (items, behind) = terms(alloc, classes, at + 1, left)?;
        let close = mark(classes, behind, Class::Close)?;
        Ok((items, close))
    } else {
        let items = Vec::new(alloc);
        Ok((TermsSketch { items }, at))
    }
}

/// A name, and its arguments if it has some.
#[cycle(term)]
fn named(
    alloc: Global,
    classes: &[Class],
    at: usize,
    left: usize,
) -> Result<(TermSketch, usize), Fault>
    requires room { at < length classes.now }
    requires name { (words classes.now at).class ≡ Class.Name }
    ensures read { Gives term_of result (term_by (most_of classes.now)
        (term_at (most_of classes.now) left) Class.Name (words classes.now) at) }
    ensures within { IsBehind classes.now at result }
{
    let (arguments, behind) = arguments(alloc, classes, at + 1, left)?;
    Ok((TermSketch::Named(at, arguments), behind))
}

/// Terms in parentheses.
#[cycle(term)]
fn grouped(
    alloc: Global,
    classes: &[Class],
    at: usize,
    left: usize,
) -> Result<(TermSketch, usize), Fault>
    requires room { at < length classes.now }
    requires open { (words classes.now at).class ≡ Class.Open }
    ensures read { Gives term_of result (term_by (most_of classes.now)
        (term_at (most_of classes.now) left) Class.Open (words classes.now) at) }
    ensures within { IsBehind classes.now at result }
{
    let (parts, behind) = terms(alloc, classes, at + 1, left)?;
    let close = mark(classes, behind, Class::Close)?;
    Ok((TermSketch::Grouped(at, parts), close))
}

fn begins_term(class: Class) -> bool
    ensures { result ≡ begins_term class }
{
    matches!(class, Class::Name | Class::Open)
}

/// A term, with so many levels left.
#[tactic(auto, using(crate::proofs::Levels::term_deeper, crate::proofs::Levels::term_other, crate::proofs::Levels::term_bottom))]
#[cycle(term)]
pub fn term(
    alloc: Global,
    classes: &[Class],
    at: usize,
    left: usize,
) -> Result<(TermSketch, usize), Fault>
    requires { at ≤ length classes.now }
    ensures read { Gives term_of result (term_at (most_of classes.now) left (words classes.now)
        at) }
    ensures within { IsBehind classes.now at result }
{
    let class = class_at(classes, at);
    if left == 0 {
        return Err(lowest(begins_term(class), at));
    }
    match class {
        Class::Name => named(alloc, classes, at, left - 1),
        Class::Open => grouped(alloc, classes, at, left - 1),
        _ => Err(Fault::Unexpected(at)),
    }
}

/// An event, with so many levels left.
#[tactic(auto, using(crate::proofs::Levels::atom_deeper, crate::proofs::Levels::atom_bottom, crate::proofs::Levels::atom_refused))]
pub fn atom(
    alloc: Global,
    classes: &[Class],
    at: usize,
    left: usize,
) -> Result<(AtomSketch, usize), Fault>
    requires { at ≤ length classes.now }
    ensures read { Gives atom_of result (atom_at (most_of classes.now) left (words classes.now)
        at) }
    ensures within { IsBehind classes.now at result }
{
    if !is_at(classes, at, Class::Name) {
        return Err(Fault::Unexpected(at));
    }
    if left == 0 {
        return Err(Fault::TooDeep(at));
    }
    let (arguments, behind) = arguments(alloc, classes, at + 1, left - 1)?;
    Ok((
        AtomSketch {
            first: at,
            arguments,
        },
        behind,
    ))
}
