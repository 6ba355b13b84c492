//! Terms, events and entries, within their limits.

ghost use Rattle.std.specs.Prelude.{◌≡◌, ◌+◌, ◌≤◌, IfOk, OnOk};
ghost use Rattle.spec_calculus.specs.Bounds.{most_written_symbols};
ghost use Rattle.spec_trees.specs.Tree.{size, sizes, trees, node};
ghost use Rattle.spec_calculus.specs.Syntax as calculus;
ghost use Rattle.spec_protocol_grammar.specs.Sketch.{terms_sketch};
ghost use Rattle.spec_protocol_scope.specs.Terms as rules;
ghost use Rattle.pi_parser.specs.Terms as sketched;
ghost use Rattle.pi_tree.specs.Terms.{term_of};
ghost use Rattle.pi_tree.specs.Events.{event_of};
ghost use Rattle.scope_declarations.specs.Answer.{Gives, GivesWith};
ghost use Rattle.scope_declarations.specs.Bound.{bound_of};
ghost use Rattle.scope_declarations.specs.Scope.{scope_of};
ghost use Rattle.scope_declarations.specs.Terms.{setting_of, FindsSetting, capped};
ghost use Rattle.scope_declarations.specs.Variables.{FindsVariables};

use crate::leaves::{Setting, constructor, event_named, leaf, table_named};
use crate::place::Place;
use crate::scope::Scope;
use crate::stop::{Code, Stop};
use crate::variables::Variables;
use pi_parser::{AtomSketch, TermSketch, TermsSketch};
use pi_tree::{Atom, MOST_ARGUMENTS, MOST_WRITTEN_SYMBOLS, Term, Terms};
use std::alloc::Global;

/// The sum of two numbers of symbols, as far as it matters.
pub fn plus(one: u32, other: u32) -> u32
    requires one { one ≤ most_written_symbols + 1 }
    requires other { other ≤ most_written_symbols + 1 }
    ensures { result ≡ capped (one + other) }
{
    (one + other).min(MOST_WRITTEN_SYMBOLS + 1)
}

/// How many terms stand in a row.
#[tactic(auto, using(crate::proofs::Steps::count_seen))]
pub fn count_of(sketches: &TermsSketch) -> usize
    ensures { result ≡ rules.count (terms_sketch sketches.now) }
{
    sketches.items.len()
}

/// A constructor of these arguments, which have so many symbols.
fn applied(
    token: usize,
    constructor: u32,
    arguments: Terms,
    symbols: u32,
) -> Result<(Term, u32), Stop>
    requires { symbols ≡ capped (sizes (trees arguments)) }
    ensures read { Gives (λ x. term_of x.0) result
        (rules.sized token (node (calculus.Constructor constructor) arguments)) }
    ensures counted { IfOk result (λ x. x.1 ≡ capped (size (term_of x.0))) }
{
    let whole = plus(1, symbols);
    if whole > MOST_WRITTEN_SYMBOLS {
        return Err(Stop::Fault(Code::TooMany, token));
    }
    Ok((Term::App(constructor, arguments), whole))
}

/// A tuple of these parts, which have so many symbols.
fn tuple(token: usize, parts: Terms, symbols: u32) -> Result<(Term, u32), Stop>
    requires { symbols ≡ capped (sizes (trees parts)) }
    ensures read { Gives (λ x. term_of x.0) result (rules.tuple token parts) }
    ensures counted { IfOk result (λ x. x.1 ≡ capped (size (term_of x.0))) }
{
    let whole = plus(1, symbols);
    if parts.items.len() > MOST_ARGUMENTS || whole > MOST_WRITTEN_SYMBOLS {
        return Err(Stop::Fault(Code::TooMany, token));
    }
    Ok((Term::Tuple(parts), whole))
}

/// What stands in parentheses: one term is itself, more are a tuple.
fn grouped(token: usize, mut parts: Terms, symbols: u32) -> Result<(Term, u32), Stop>
    requires { symbols ≡ capped (sizes (trees parts)) }
    ensures read { Gives (λ x. term_of x.0) result (rules.grouped token parts) }
    ensures counted { IfOk result (λ x. x.1 ≡ capped (size (term_of x.0))) }
{
    if parts.items.len() == 1 {
        if let Some(only) = parts.items.pop() {
            return Ok((only, symbols));
        }
    }
    tuple(token, parts, symbols)
}

/// The term of a sketch, and how many symbols it has.
#[cycle(term)]
pub fn term(
    sketch: &TermSketch,
    alloc: Global,
    scope: &Scope,
    setting: &Setting,
    variables: &mut Variables,
) -> Result<(Term, u32), Stop>
    requires finds { FindsSetting scope.now.text setting.now }
    requires known { FindsVariables scope.now.text variables.old }
    ensures read { GivesWith (λ x. term_of x.0) result variables.new.items.items
        (rules.term (scope_of scope.now) (setting_of setting.now) variables.old.items.items
        (sketched.term_of sketch.now)) }
    ensures known { OnOk result (FindsVariables scope.now.text variables.new) }
    ensures counted { IfOk result (λ x. x.1 ≡ capped (size (term_of x.0))) }
{
    match sketch {
        TermSketch::Named(first, arguments) => {
            let given = count_of(arguments);
            if given == 0 {
                return Ok((leaf(scope, alloc, setting, variables, *first)?, 1));
            }
            let number = constructor(scope, *first, given)?;
            let (arguments, symbols) = terms(arguments, alloc, scope, setting, variables)?;
            applied(*first, number, arguments, symbols)
        }
        TermSketch::Grouped(first, parts) => {
            let (parts, symbols) = terms(parts, alloc, scope, setting, variables)?;
            grouped(*first, parts, symbols)
        }
    }
}

/// The terms of sketches in a row, and how many symbols they have.
#[cycle(term)]
#[tactic(auto, using(crate::proofs::Steps::sizes_seen))]
pub fn terms(
    sketches: &TermsSketch,
    alloc: Global,
    scope: &Scope,
    setting: &Setting,
    variables: &mut Variables,
) -> Result<(Terms, u32), Stop>
    requires finds { FindsSetting scope.now.text setting.now }
    requires known { FindsVariables scope.now.text variables.old }
    ensures read { GivesWith (λ x. x.0) result variables.new.items.items
        (rules.terms (scope_of scope.now) (setting_of setting.now) variables.old.items.items
        (terms_sketch sketches.now)) }
    ensures known { OnOk result (FindsVariables scope.now.text variables.new) }
    ensures counted { IfOk result (λ x. x.1 ≡ capped (sizes (trees x.0))) }
{
    let mut items = Vec::new(alloc);
    let mut symbols = 0;
    for sketch in &sketches.items {
        let (item, more) = term(sketch, alloc, scope, setting, variables)?;
        items.push(item)?;
        symbols = plus(symbols, more);
    }
    Ok((Terms { items }, symbols))
}

/// A term of a process, at this place, in a box.
pub fn process_term(sketch: &TermSketch, alloc: Global, place: &Place) -> Result<Box<Term>, Stop>
    ensures { Gives (λ read. term_of read.value) result (rules.process_term
        (scope_of place.now.scope) (bound_of place.now.bound.now) (sketched.term_of sketch.now)) }
{
    let mut variables = Variables::new(alloc);
    let (read, _) = term(
        sketch,
        alloc,
        &place.scope,
        &Setting::Process(place.bound),
        &mut variables,
    )?;
    Ok(Box::new(alloc, read)?)
}

/// An event, and how many symbols it has with its own.
pub fn event(
    sketch: &AtomSketch,
    alloc: Global,
    scope: &Scope,
    setting: &Setting,
    variables: &mut Variables,
) -> Result<(Atom, u32), Stop>
    requires finds { FindsSetting scope.now.text setting.now }
    requires known { FindsVariables scope.now.text variables.old }
    ensures read { GivesWith (λ x. event_of x.0) result variables.new.items.items
        (rules.event (scope_of scope.now) (setting_of setting.now) variables.old.items.items
        (sketched.atom_of sketch.now)) }
    ensures known { OnOk result (FindsVariables scope.now.text variables.new) }
    ensures counted { IfOk result (λ x. x.1 ≡ capped (1 + sizes (trees x.0.args))) }
{
    let event = event_named(scope, sketch.first, count_of(&sketch.arguments))?;
    let (args, symbols) = terms(&sketch.arguments, alloc, scope, setting, variables)?;
    Ok((Atom { event, args }, plus(1, symbols)))
}

/// An entry of a process, at this place: its table, and its terms.
pub fn entry(sketch: &AtomSketch, alloc: Global, place: &Place) -> Result<(u32, Terms), Stop>
    ensures { Gives (λ x. x) result (rules.entry (scope_of place.now.scope)
        (bound_of place.now.bound.now) (sketched.atom_of sketch.now)) }
{
    let table = table_named(&place.scope, sketch.first, count_of(&sketch.arguments))?;
    let mut variables = Variables::new(alloc);
    let (arguments, _) = terms(
        &sketch.arguments,
        alloc,
        &place.scope,
        &Setting::Process(place.bound),
        &mut variables,
    )?;
    Ok((table, arguments))
}
