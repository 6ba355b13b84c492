//! Queries.

ghost use Rattle.std.specs.Prelude.{◌≡◌, ◌<◌, ◌≤◌, ℕ, length, IfOk};
ghost use Rattle.spec_protocol_grammar.specs.Classes.{words};
ghost use Rattle.spec_protocol_grammar.specs.Reading.{built, list_of, list_at, happening_at, alternative_at, alternatives_at, phase_at, question_by, question_at};
ghost use Rattle.pi_parser.specs.Gives.{Gives, IsBehind, most_of};
ghost use Rattle.pi_parser.specs.Terms.{atom_of};
ghost use Rattle.pi_parser.specs.Files.{alternative_of, alternatives_of, question_of};

use crate::error::Fault;
use crate::sketch::{AlternativeSketch, AtomSketch, QuerySketch};
use crate::terms::{atom, term};
use crate::words::{class_at, is_at, mark};
use limits::MOST_LEVELS;
use spec_protocol_grammar::Class;
use std::alloc::Global;

/// `event atom`.
fn happening(alloc: Global, classes: &[Class], at: usize) -> Result<(AtomSketch, usize), Fault>
    requires { at ≤ length classes.now }
    ensures read { Gives atom_of result (happening_at (most_of classes.now) (words classes.now)
        at) }
    ensures within { IsBehind classes.now at result }
{
    let behind = mark(classes, at, Class::Event)?;
    atom(alloc, classes, behind, MOST_LEVELS)
}

/// Events, `&&` between two of them.
#[tactic(auto, using(crate::proofs::Lists::list_ends, crate::proofs::Lists::list_faults, crate::proofs::Lists::list_first_faults, crate::proofs::Lists::step_fault), unfolding(spec_protocol_grammar::specs::Reading::alternative_at))]
fn alternative(
    alloc: Global,
    classes: &[Class],
    at: usize,
) -> Result<(AlternativeSketch, usize), Fault>
    requires { at ≤ length classes.now }
    ensures read { Gives alternative_of result
        (alternative_at (most_of classes.now) (words classes.now) at) }
    ensures within { IsBehind classes.now at result }
{
    let mut others = Vec::new(alloc);
    let (atom, mut behind) = happening(alloc, classes, at)?;
    'events: while is_at(classes, behind, Class::And) {
        let (next, end) = happening(alloc, classes, behind + 1)?;
        others.push(next)?;
        behind = end;
    }
    Ok((AlternativeSketch { atom, others }, behind))
}

/// Alternatives, `||` between two of them.
#[tactic(auto, using(crate::proofs::Lists::going_begins, crate::proofs::Lists::going_continues, crate::proofs::Lists::going_ends, crate::proofs::Lists::going_faults, crate::proofs::Lists::first_faults))]
fn listed(
    alloc: Global,
    classes: &[Class],
    at: usize,
) -> Result<(Vec<AlternativeSketch>, usize), Fault>
    requires { at ≤ length classes.now }
    ensures read { Gives alternatives_of result
        (built list_of (list_at (most_of classes.now) Class.Or
        (alternative_at (most_of classes.now))) (words classes.now) at) }
    ensures within { IsBehind classes.now at result }
{
    let mut items = Vec::new(alloc);
    let (first, mut behind) = alternative(alloc, classes, at)?;
    items.push(first)?;
    'alternatives: while is_at(classes, behind, Class::Or) {
        let (next, end) = alternative(alloc, classes, behind + 1)?;
        items.push(next)?;
        behind = end;
    }
    Ok((items, behind))
}

/// `false`, or alternatives.
#[tactic(auto, unfolding(spec_protocol_grammar::specs::Reading::alternatives_at))]
fn alternatives(
    alloc: Global,
    classes: &[Class],
    at: usize,
) -> Result<(Vec<AlternativeSketch>, usize), Fault>
    requires { at ≤ length classes.now }
    ensures read { Gives alternatives_of result
        (alternatives_at (most_of classes.now) (words classes.now) at) }
    ensures within { IsBehind classes.now at result }
{
    if is_at(classes, at, Class::False) {
        let items = Vec::new(alloc);
        Ok((items, at + 1))
    } else {
        listed(alloc, classes, at)
    }
}

/// Nothing, or `phase number`.
fn asked_phase(classes: &[Class], at: usize) -> Result<(Option<usize>, usize), Fault>
    requires { at ≤ length classes.now }
    ensures read { Gives (λ x. x) result (phase_at (words classes.now) at) }
    ensures within { IfOk result (λ x. (at ≤ x.1) × (x.1 ≤ length classes.now)) }
{
    if is_at(classes, at, Class::Phase) {
        let number = at + 1;
        let behind = mark(classes, number, Class::Number)?;
        Ok((Some(number), behind))
    } else {
        Ok((None, at))
    }
}

/// `attacker(new name)` or `attacker(message)`, and its phase.
fn attacker(alloc: Global, classes: &[Class], at: usize) -> Result<(QuerySketch, usize), Fault>
    requires room { at < length classes.now }
    requires first { (words classes.now at).class ≡ Class.Attacker }
    ensures read { Gives question_of result (question_by (most_of classes.now) Class.Attacker
        (words classes.now) at) }
    ensures within { IsBehind classes.now at result }
{
    let inside = mark(classes, at + 1, Class::Open)?;
    if is_at(classes, inside, Class::New) {
        let name = inside + 1;
        let close = mark(classes, name, Class::Name)?;
        let behind = mark(classes, close, Class::Close)?;
        let (phase, end) = asked_phase(classes, behind)?;
        Ok((QuerySketch::AttackerNew(at, name, phase), end))
    } else {
        let (message, close) = term(alloc, classes, inside, MOST_LEVELS)?;
        let behind = mark(classes, close, Class::Close)?;
        let (phase, end) = asked_phase(classes, behind)?;
        Ok((QuerySketch::Attacker(at, message, phase), end))
    }
}

/// `event atom ==> alternatives`.
fn correspondence(
    alloc: Global,
    classes: &[Class],
    at: usize,
) -> Result<(QuerySketch, usize), Fault>
    requires room { at < length classes.now }
    requires first { (words classes.now at).class ≡ Class.Event }
    ensures read { Gives question_of result (question_by (most_of classes.now) Class.Event
        (words classes.now) at) }
    ensures within { IsBehind classes.now at result }
{
    let (atom, implies) = atom(alloc, classes, at + 1, MOST_LEVELS)?;
    let right = mark(classes, implies, Class::Implies)?;
    let (alternatives, behind) = alternatives(alloc, classes, right)?;
    Ok((QuerySketch::Correspondence(at, atom, alternatives), behind))
}

/// What a query asks.
#[tactic(auto, using(crate::proofs::Levels::question_other), unfolding(spec_protocol_grammar::specs::Reading::question_at))]
pub fn question(alloc: Global, classes: &[Class], at: usize) -> Result<(QuerySketch, usize), Fault>
    requires { at ≤ length classes.now }
    ensures read { Gives question_of result (question_at (most_of classes.now) (words classes.now)
        at) }
    ensures within { IsBehind classes.now at result }
{
    match class_at(classes, at) {
        Class::Attacker => attacker(alloc, classes, at),
        Class::Event => correspondence(alloc, classes, at),
        _ => Err(Fault::Unexpected(at)),
    }
}
