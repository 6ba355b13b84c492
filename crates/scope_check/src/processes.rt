//! Processes: macros are expanded where they are used, and points and variables are numbered in pre-order, from 1.

ghost use Rattle.std.specs.Prelude.{◌≡◌, ◌≤◌, map, IsTrue};
ghost use Rattle.spec_calculus.specs.Bounds.{most_points_above};
ghost use Rattle.spec_protocol_scope.specs.Processes as rules;
ghost use Rattle.spec_protocol_grammar.specs.Sketch as own;
ghost use Rattle.pi_parser.specs.Terms as terms_seen;
ghost use Rattle.pi_parser.specs.Patterns as patterns_seen;
ghost use Rattle.pi_parser.specs.Processes as sketched;
ghost use Rattle.pi_tree.specs.Processes.{condition_of, process_of};
ghost use Rattle.scope_declarations.specs.Answer.{Gives};
ghost use Rattle.scope_declarations.specs.Bound.{binding_of, bound_of, FindsBindings, FindsBound};
ghost use Rattle.scope_check.specs.Forms.{form_of, site_of, read_at, unit_at, after_at, is_point};
ghost use Rattle.scope_check.specs.Numbers.{HaveRoom, numbers_of, numbered_of};
ghost use Rattle.scope_declarations.specs.Scope.{scope_of};

use crate::expressions::expression;
use crate::numbers::Numbers;
use crate::patterns::{count_of as count_of_patterns, whole_pattern, whole_row};
use crate::phases::later_phase;
use crate::site::{Form, Site, both_reached, open_form, reached};
use pi_parser::{
    AtomSketch, ConditionSketch, NextSketch, PatternSketch, PatternsSketch, ProcessSketch,
    TermSketch, UnitSketch,
};
use pi_tree::{Expr, Pat, Process, Term, Word};
use scope_declarations::bound::{Binding, Bindings, Bound, BoundName, count_of};
use scope_declarations::leaves::{Setting, table_named};
use scope_declarations::place::Place;
use scope_declarations::scope::Scope;
use scope_declarations::source::Text;
use scope_declarations::stop::Stop;
use scope_declarations::terms::{entry, event, process_term};
use scope_declarations::text::text_of;
use scope_declarations::variables::Variables;
use std::alloc::Global;

/// The branches of a `let` or `if`.
#[derive(Clone, Copy)]
struct Branches<'a> {
    unit: &'a UnitSketch,
    otherwise: &'a NextSketch,
}

/// What a `get` asks of an entry.
#[derive(Clone, Copy)]
struct Wanted<'a> {
    table: usize,
    patterns: &'a PatternsSketch,
    condition: &'a ConditionSketch,
}

/// The numbers behind the variables that a pattern binds.
fn with_variables(numbers: Numbers, whole: &Text, found: &Bindings) -> Numbers
    requires room { HaveRoom numbers }
    requires finds { FindsBindings whole.now found.now }
    ensures { numbers_of result ≡
        rules.with_variables (map binding_of found.now.items.items) (numbers_of numbers) }
{
    Numbers {
        point: numbers.point,
        variable: numbers.variable + count_of(whole, found),
    }
}

/// One point further down, where these numbers come next.
fn below<'a, 'b>(site: &Site<'a, 'b>, numbers: Numbers) -> Site<'a, 'b>
    requires { site.now.above ≤ most_points_above }
    ensures placed { site_of result ≡ rules.below (site_of site.now) }
    ensures seen { result.place ≡ site.now.place }
    ensures macros { result.macros.now ≡ site.now.macros.now }
    ensures numbers { result.numbers ≡ numbers }
{
    Site {
        alloc: site.alloc,
        place: site.place,
        macros: site.macros,
        above: site.above + 1,
        used: site.used,
        phase: site.phase,
        numbers,
    }
}

/// One point further down, in this phase, where these numbers come next.
fn entering<'a, 'b>(site: &Site<'a, 'b>, phase: u32, numbers: Numbers) -> Site<'a, 'b>
    requires { site.now.above ≤ most_points_above }
    ensures placed { site_of result ≡ rules.entering phase (site_of site.now) }
    ensures seen { result.place ≡ site.now.place }
    ensures macros { result.macros.now ≡ site.now.macros.now }
    ensures numbers { result.numbers ≡ numbers }
{
    Site {
        alloc: site.alloc,
        place: site.place,
        macros: site.macros,
        above: site.above + 1,
        used: site.used,
        phase,
        numbers,
    }
}

/// One point further down, where this is bound and these numbers come next.
fn binding<'a, 'b>(site: &Site<'a, '_>, bound: &'b Bound<'b>, numbers: Numbers) -> Site<'a, 'b>
    requires above { site.now.above ≤ most_points_above }
    requires finds { FindsBound site.now.place.scope.text bound.now }
    ensures placed { site_of result ≡ rules.binding_all (bound_of bound.now) (site_of site.now) }
    ensures scope { result.place.scope ≡ site.now.place.scope }
    ensures macros { result.macros.now ≡ site.now.macros.now }
    ensures numbers { result.numbers ≡ numbers }
{
    let place = Place {
        scope: site.place.scope,
        bound,
    };
    Site {
        alloc: site.alloc,
        place,
        macros: site.macros,
        above: site.above + 1,
        used: site.used,
        phase: site.phase,
        numbers,
    }
}

/// A process in a box, with the numbers behind it.
fn numbered(alloc: Global, made: Process, after: Numbers) -> Result<(Box<Process>, Numbers), Stop>
    ensures { Gives numbered_of result (Ok (process_of made, numbers_of after)) }
{
    Ok((Box::new(alloc, made)?, after))
}

/// The process of a sketch, and the numbers behind it.
#[cycle(process)]
pub fn process(start: Form, site: &Site) -> Result<(Box<Process>, Numbers), Stop>
    ensures { Gives numbered_of result (read_at site.now (form_of start.entry)) }
{
    let found = open_form(start, &*site)?;
    at_point(found.form, &found.site)
}

/// The process of a sketch that begins with a point.
#[cycle(process)]
fn at_point(form: Form, site: &Site) -> Result<(Box<Process>, Numbers), Stop>
    requires { IsTrue (is_point (form_of form)) }
    ensures { Gives numbered_of result (read_at site.now (form_of form.entry)) }
{
    match form {
        Form::Both(unit, others) => both(unit, others, site),
        Form::Unit(unit) => match unit {
            UnitSketch::Zero(first) => nil(*first, site),
            UnitSketch::Macro(_) | UnitSketch::Inner(_, _) => unreachable!(),
            UnitSketch::Replicated(first, copied) => replication(copied, *first, site),
            UnitSketch::New(first, name, next) => restriction(next, *first, *name, site),
            UnitSketch::Output(first, channel, message, next) => {
                output(next, *first, channel, message, site)
            }
            UnitSketch::Input(first, channel, pattern, next) => {
                input(next, *first, channel, pattern, site)
            }
            UnitSketch::Happens(first, atom, next) => happening(next, *first, atom, site),
            UnitSketch::Let(first, pattern, term, unit, otherwise) => {
                choice(&Branches { unit, otherwise }, *first, pattern, term, site)
            }
            UnitSketch::If(first, left, right, unit, otherwise) => {
                comparison(&Branches { unit, otherwise }, *first, left, right, site)
            }
            UnitSketch::Phase(first, number, next) => waiting(next, *first, *number, site),
            UnitSketch::Insert(first, atom, next) => insertion(next, *first, atom, site),
            UnitSketch::Get(first, table, patterns, condition, unit, otherwise) => {
                let wanted = Wanted {
                    table: *table,
                    patterns,
                    condition,
                };
                retrieval(&Branches { unit, otherwise }, *first, &wanted, site)
            }
        },
    }
}

/// `0`.
fn nil(first: usize, site: &Site) -> Result<(Box<Process>, Numbers), Stop>
    ensures { Gives numbered_of result (unit_at site.now (own.Zero first)) }
{
    let next = reached(site, first)?;
    numbered(site.alloc, Process::Nil, next)
}

/// `unit | process`.
#[cycle(process)]
fn both(
    unit: &UnitSketch,
    others: &ProcessSketch,
    site: &Site,
) -> Result<(Box<Process>, Numbers), Stop>
    ensures { Gives numbered_of result (read_at site.now
        (own.Process (sketched.unit_of unit.now) (own.beside (sketched.process_of others.now)))) }
{
    let next = both_reached(site, unit)?;
    let (left, next) = process(Form::Unit(unit), &below(site, next))?;
    let (right, next) = process(Form::new(others), &below(site, next))?;
    numbered(site.alloc, Process::Par(left, right), next)
}

/// `! unit`.
#[cycle(process)]
fn replication(
    copied: &UnitSketch,
    first: usize,
    site: &Site,
) -> Result<(Box<Process>, Numbers), Stop>
    ensures { Gives numbered_of result
        (unit_at site.now (own.Replicated first (sketched.unit_of copied.now))) }
{
    let next = reached(site, first)?;
    let (copied, next) = process(Form::Unit(copied), &below(site, next))?;
    numbered(site.alloc, Process::Copies(copied), next)
}

/// `new name`.
#[cycle(process)]
fn restriction(
    next: &NextSketch,
    first: usize,
    name: usize,
    site: &Site,
) -> Result<(Box<Process>, Numbers), Stop>
    ensures { Gives numbered_of result
        (unit_at site.now (own.New first name (sketched.next_of next.now))) }
{
    let after = reached(site, first)?;
    let made = Binding {
        token: name,
        name: BoundName::Made(site.numbers.point),
    };
    let bound = Bound::One(made, site.place.bound);
    let (rest, after) = continuation(next, first, &binding(site, &bound, after))?;
    let items = Vec::from_slice(site.alloc, text_of(&site.place.scope.text, name))?;
    numbered(site.alloc, Process::New(Word { items }, rest), after)
}

/// `out(channel, message)`.
#[cycle(process)]
fn output(
    next: &NextSketch,
    first: usize,
    channel: &TermSketch,
    message: &TermSketch,
    site: &Site,
) -> Result<(Box<Process>, Numbers), Stop>
    ensures { Gives numbered_of result (unit_at site.now (own.Output first
        (terms_seen.term_of channel.now) (terms_seen.term_of message.now)
        (sketched.next_of next.now))) }
{
    let after = reached(site, first)?;
    let channel = process_term(channel, site.alloc, &site.place)?;
    let message = process_term(message, site.alloc, &site.place)?;
    let (rest, after) = continuation(next, first, &below(site, after))?;
    let channel = Box::into_inner(channel);
    let message = Box::into_inner(message);
    numbered(site.alloc, Process::Output(channel, message, rest), after)
}

/// `in(channel, pattern)`.
#[cycle(process)]
fn input(
    next: &NextSketch,
    first: usize,
    channel: &TermSketch,
    received: &PatternSketch,
    site: &Site,
) -> Result<(Box<Process>, Numbers), Stop>
    ensures { Gives numbered_of result (unit_at site.now (own.Input first
        (terms_seen.term_of channel.now) (patterns_seen.pattern_of received.now)
        (sketched.next_of next.now))) }
{
    let after = reached(site, first)?;
    let channel = process_term(channel, site.alloc, &site.place)?;
    let (received, found) = whole_pattern(received, site.alloc, &site.place, after.variable)?;
    let after = with_variables(after, &site.place.scope.text, &found);
    let bound = Bound::Inside(&found, site.place.bound);
    let (rest, after) = continuation(next, first, &binding(site, &bound, after))?;
    let channel = Box::into_inner(channel);
    let received = Box::into_inner(received);
    numbered(site.alloc, Process::Input(channel, received, rest), after)
}

/// `event atom`.
#[cycle(process)]
fn happening(
    next: &NextSketch,
    first: usize,
    atom: &AtomSketch,
    site: &Site,
) -> Result<(Box<Process>, Numbers), Stop>
    ensures { Gives numbered_of result (unit_at site.now
        (own.Happens first (terms_seen.atom_of atom.now) (sketched.next_of next.now))) }
{
    let after = reached(site, first)?;
    let mut variables = Variables::new(site.alloc);
    let setting = Setting::Process(site.place.bound);
    let (performed, _) = event(
        atom,
        site.alloc,
        &site.place.scope,
        &setting,
        &mut variables,
    )?;
    drop(variables);
    let (rest, after) = continuation(next, first, &below(site, after))?;
    numbered(site.alloc, Process::Event(performed, rest), after)
}

/// `let pattern = term in unit`, and its else branch.
#[cycle(process)]
fn choice(
    branches: &Branches,
    first: usize,
    matched: &PatternSketch,
    term: &TermSketch,
    site: &Site,
) -> Result<(Box<Process>, Numbers), Stop>
    ensures { Gives numbered_of result (unit_at site.now (own.Let first
        (patterns_seen.pattern_of matched.now) (terms_seen.term_of term.now)
        (sketched.unit_of branches.now.unit.now) (sketched.next_of branches.now.otherwise.now))) }
{
    let after = reached(site, first)?;
    let (matched, found) = whole_pattern(matched, site.alloc, &site.place, after.variable)?;
    let evaluated = expression(term, site.alloc, &site.place)?;
    let after = with_variables(after, &site.place.scope.text, &found);
    let bound = Bound::Inside(&found, site.place.bound);
    let inside = binding(site, &bound, after);
    let (done, after) = process(Form::Unit(branches.unit), &inside)?;
    let (rest, after) = continuation(branches.otherwise, first, &below(site, after))?;
    let matched = Box::into_inner(matched);
    let evaluated = Box::into_inner(evaluated);
    numbered(
        site.alloc,
        Process::Let(matched, evaluated, done, rest),
        after,
    )
}

/// `if left = right then unit`, and its else branch.
#[cycle(process)]
fn comparison(
    branches: &Branches,
    first: usize,
    left: &TermSketch,
    right: &TermSketch,
    site: &Site,
) -> Result<(Box<Process>, Numbers), Stop>
    ensures { Gives numbered_of result (unit_at site.now (own.If first
        (terms_seen.term_of left.now) (terms_seen.term_of right.now)
        (sketched.unit_of branches.now.unit.now) (sketched.next_of branches.now.otherwise.now))) }
{
    let after = reached(site, first)?;
    let left = process_term(left, site.alloc, &site.place)?;
    let right = process_term(right, site.alloc, &site.place)?;
    let (done, after) = process(Form::Unit(branches.unit), &below(site, after))?;
    let (rest, after) = continuation(branches.otherwise, first, &below(site, after))?;
    let matched = Pat::Equal(Box::into_inner(right));
    let evaluated = Expr::Term(Box::into_inner(left));
    numbered(
        site.alloc,
        Process::Let(matched, evaluated, done, rest),
        after,
    )
}

/// `phase number`.
#[cycle(process)]
fn waiting(
    next: &NextSketch,
    first: usize,
    number: usize,
    site: &Site,
) -> Result<(Box<Process>, Numbers), Stop>
    ensures { Gives numbered_of result
        (unit_at site.now (own.Phase first number (sketched.next_of next.now))) }
{
    let after = reached(site, first)?;
    let phase = later_phase(&site.place.scope.text, site.phase, number)?;
    let (rest, after) = continuation(next, first, &entering(site, phase, after))?;
    numbered(site.alloc, Process::Phase(phase, rest), after)
}

/// `insert table(arguments)`.
#[cycle(process)]
fn insertion(
    next: &NextSketch,
    first: usize,
    atom: &AtomSketch,
    site: &Site,
) -> Result<(Box<Process>, Numbers), Stop>
    ensures { Gives numbered_of result (unit_at site.now
        (own.Insert first (terms_seen.atom_of atom.now) (sketched.next_of next.now))) }
{
    let after = reached(site, first)?;
    let (table, arguments) = entry(atom, site.alloc, &site.place)?;
    let (rest, after) = continuation(next, first, &below(site, after))?;
    numbered(site.alloc, Process::Insert(table, arguments, rest), after)
}

/// What is asked of an entry besides its patterns, at this place.
fn condition(
    sketch: &ConditionSketch,
    alloc: Global,
    place: &Place,
) -> Result<Option<(Term, Term)>, Stop>
    ensures { Gives condition_of result (rules.condition (scope_of place.now.scope)
        (bound_of place.now.bound.now) (sketched.condition_of sketch.now)) }
{
    match sketch {
        ConditionSketch::Always => Ok(None),
        ConditionSketch::SuchThat(left, right) => {
            let left = process_term(left, alloc, place)?;
            let right = process_term(right, alloc, place)?;
            Ok(Some((Box::into_inner(left), Box::into_inner(right))))
        }
    }
}

/// `get table(patterns) in unit`, with a condition and its else branch.
#[cycle(process)]
fn retrieval(
    branches: &Branches,
    first: usize,
    wanted: &Wanted,
    site: &Site,
) -> Result<(Box<Process>, Numbers), Stop>
    ensures { Gives numbered_of result (unit_at site.now (own.Get first wanted.now.table
        (own.patterns_sketch wanted.now.patterns.now)
        (sketched.condition_of wanted.now.condition.now)
        (sketched.unit_of branches.now.unit.now) (sketched.next_of branches.now.otherwise.now))) }
{
    let after = reached(site, first)?;
    let given = count_of_patterns(wanted.patterns);
    let table = table_named(&site.place.scope, wanted.table, given)?;
    let (patterns, found) = whole_row(wanted.patterns, site.alloc, &site.place, after.variable)?;
    let after = with_variables(after, &site.place.scope.text, &found);
    let bound = Bound::Inside(&found, site.place.bound);
    let inside = binding(site, &bound, after);
    let condition = condition(wanted.condition, site.alloc, &inside.place)?;
    let (done, after) = process(Form::Unit(branches.unit), &inside)?;
    let (rest, after) = continuation(branches.otherwise, first, &below(site, after))?;
    numbered(
        site.alloc,
        Process::Get(table, patterns, condition, done, rest),
        after,
    )
}

/// A continuation or else branch of the unit that begins with this token.
#[cycle(process)]
fn continuation(
    next: &NextSketch,
    first: usize,
    site: &Site,
) -> Result<(Box<Process>, Numbers), Stop>
    ensures { Gives numbered_of result (after_at site.now first (sketched.next_of next.now)) }
{
    match next {
        NextSketch::Omitted => nil(first, site),
        NextSketch::Given(unit) => process(Form::Unit(unit), site),
    }
}

/// The main process.
pub fn main_process(
    alloc: Global,
    scope: &Scope,
    main: &ProcessSketch,
) -> Result<Box<Process>, Stop>
    ensures { Gives (λ main. process_of main.value) result (rules.main_process (scope_of scope.now)
        (sketched.process_of main.now)) }
{
    let place = Place {
        scope: *scope,
        bound: &Bound::Nothing,
    };
    let numbers = Numbers {
        point: 1,
        variable: 1,
    };
    let site = Site {
        alloc,
        place,
        macros: &scope.names.macros,
        above: 0,
        used: None,
        phase: 0,
        numbers,
    };
    let (main, _) = process(Form::new(main), &site)?;
    Ok(main)
}
