//! Patterns, and what they bind.

ghost use Rattle.std.specs.Prelude.{◌≡◌, ◌+◌, ◌≤◌, [], length, map, IfOk, OnOk};
ghost use Rattle.spec_protocol_grammar.specs.Sketch.{patterns_sketch};
ghost use Rattle.spec_protocol_scope.specs.Names as naming;
ghost use Rattle.spec_protocol_scope.specs.Patterns as rules;
ghost use Rattle.pi_parser.specs.Patterns as sketched;
ghost use Rattle.pi_tree.specs.Patterns.{pattern_of};
ghost use Rattle.scope_declarations.specs.Answer.{Gives, GivesWith};
ghost use Rattle.scope_declarations.specs.Bound.{binding_of, bound_of, FindsBindings};
ghost use Rattle.scope_declarations.specs.Within.{most_bound, most_variables};
ghost use Rattle.scope_declarations.specs.Scope.{scope_of};

use pi_parser::{PatternSketch, PatternsSketch};
use pi_tree::{MOST_ARGUMENTS, Pat, Pats};
use scope_declarations::bound::{
    Binding, Bindings, BoundName, bind, bound_by, count_of as count_of_bound,
};
use scope_declarations::leaves::taking;
use scope_declarations::names::{Meaning, look};
use scope_declarations::place::Place;
use scope_declarations::scope::Scope;
use scope_declarations::stop::{Code, Stop};
use scope_declarations::terms::process_term;
use std::alloc::Global;

/// The data constructor of so many arguments that the token names.
fn data_constructor(scope: &Scope, token: usize, given: usize) -> Result<u32, Stop>
    ensures { Gives (λ n. n) result (rules.data_constructor token given
        (naming.look (scope_of scope.now) token)) }
{
    match look(scope, token) {
        Some(
            Meaning::Constructor {
                number,
                arity,
                is_data,
            },
        ) => {
            if is_data {
                taking(token, number, arity as usize, given)
            } else {
                Err(Stop::Fault(Code::Kind, token))
            }
        }
        Some(_) => Err(Stop::Fault(Code::Kind, token)),
        None => Err(Stop::Fault(Code::Unknown, token)),
    }
}

/// An identifier, which binds the pattern's next variable and stands once in the pattern.
fn binder(
    alloc: Global,
    scope: &Scope,
    first: u32,
    found: &mut Bindings,
    token: usize,
) -> Result<Pat, Stop>
    requires finds { FindsBindings scope.now.text found.old }
    requires room { first + most_bound ≤ most_variables }
    ensures read { GivesWith pattern_of result (map binding_of found.new.items.items)
        (rules.binder (scope_of scope.now) (first + length found.old.items.items)
        (map binding_of found.old.items.items) token) }
    ensures finds { OnOk result (FindsBindings scope.now.text found.new) }
{
    if bound_by(&scope.text, found, token).is_some() {
        return Err(Stop::Fault(Code::Twice, token));
    }
    let number = first + count_of_bound(&scope.text, found);
    let name = BoundName::Variable(number);
    bind(found, alloc, &scope.text, Binding { token, name })?;
    Ok(Pat::Bind(number))
}

/// What stands in parentheses: one pattern is itself, more are a tuple.
fn grouped(token: usize, mut parts: Pats) -> Result<Pat, Stop>
    ensures { Gives pattern_of result (rules.grouped token parts) }
{
    if parts.items.len() == 1 {
        if let Some(only) = parts.items.pop() {
            return Ok(only);
        }
    }
    if parts.items.len() > MOST_ARGUMENTS {
        return Err(Stop::Fault(Code::TooMany, token));
    }
    Ok(Pat::Tuple(parts))
}

/// How many patterns stand in a row.
#[tactic(auto, using(crate::proofs::Rows::patterns_seen))]
pub fn count_of(sketches: &PatternsSketch) -> usize
    ensures { result ≡ rules.count (patterns_sketch sketches.now) }
{
    sketches.items.len()
}

/// The pattern of a sketch at this place, where the pattern's first variable has this number; `found` takes what it
/// binds.
#[cycle(pattern)]
fn pattern(
    sketch: &PatternSketch,
    alloc: Global,
    place: &Place,
    first: u32,
    found: &mut Bindings,
) -> Result<Pat, Stop>
    requires finds { FindsBindings place.now.scope.text found.old }
    requires room { first + most_bound ≤ most_variables }
    ensures read { GivesWith pattern_of result (map binding_of found.new.items.items)
        (rules.pattern (scope_of place.now.scope) (bound_of place.now.bound.now) first
        (map binding_of found.old.items.items) (sketched.pattern_of sketch.now)) }
    ensures finds { OnOk result (FindsBindings place.now.scope.text found.new) }
{
    match sketch {
        PatternSketch::Named(token, arguments) => {
            let given = count_of(arguments);
            if given == 0 {
                return binder(alloc, &place.scope, first, found, *token);
            }
            let number = data_constructor(&place.scope, *token, given)?;
            let arguments = patterns(arguments, alloc, place, first, found)?;
            Ok(Pat::App(number, arguments))
        }
        PatternSketch::Equal(_, term) => {
            let term = process_term(term, alloc, place)?;
            Ok(Pat::Equal(Box::into_inner(term)))
        }
        PatternSketch::Grouped(token, parts) => {
            grouped(*token, patterns(parts, alloc, place, first, found)?)
        }
    }
}

/// The patterns of sketches in a row.
#[cycle(pattern)]
fn patterns(
    sketches: &PatternsSketch,
    alloc: Global,
    place: &Place,
    first: u32,
    found: &mut Bindings,
) -> Result<Pats, Stop>
    requires finds { FindsBindings place.now.scope.text found.old }
    requires room { first + most_bound ≤ most_variables }
    ensures read { GivesWith (λ ps. ps) result (map binding_of found.new.items.items)
        (rules.patterns (scope_of place.now.scope) (bound_of place.now.bound.now) first
        (map binding_of found.old.items.items) (patterns_sketch sketches.now)) }
    ensures finds { OnOk result (FindsBindings place.now.scope.text found.new) }
{
    let mut items = Vec::new(alloc);
    for sketch in &sketches.items {
        let item = pattern(sketch, alloc, place, first, found)?;
        items.push(item)?;
    }
    Ok(Pats { items })
}

/// A whole pattern at this place, in a box, and what it binds; its first variable has this number.
pub fn whole_pattern(
    sketch: &PatternSketch,
    alloc: Global,
    place: &Place,
    first: u32,
) -> Result<(Box<Pat>, Bindings), Stop>
    requires { first + most_bound ≤ most_variables }
    ensures read { Gives (λ x. (pattern_of x.0.value, map binding_of x.1.items.items)) result
        (rules.pattern (scope_of place.now.scope) (bound_of place.now.bound.now) first []
        (sketched.pattern_of sketch.now)) }
    ensures finds { IfOk result (λ x. FindsBindings place.now.scope.text x.1) }
{
    let mut found = Bindings::new(alloc);
    let read = pattern(sketch, alloc, place, first, &mut found)?;
    Ok((Box::new(alloc, read)?, found))
}

/// A row of patterns at this place, and what it binds; its first variable has this number.
pub fn whole_row(
    sketches: &PatternsSketch,
    alloc: Global,
    place: &Place,
    first: u32,
) -> Result<(Pats, Bindings), Stop>
    requires { first + most_bound ≤ most_variables }
    ensures read { Gives (λ x. (x.0, map binding_of x.1.items.items)) result
        (rules.patterns (scope_of place.now.scope) (bound_of place.now.bound.now) first []
        (patterns_sketch sketches.now)) }
    ensures finds { IfOk result (λ x. FindsBindings place.now.scope.text x.1) }
{
    let mut found = Bindings::new(alloc);
    let read = patterns(sketches, alloc, place, first, &mut found)?;
    Ok((read, found))
}
