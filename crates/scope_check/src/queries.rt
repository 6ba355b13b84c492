//! Queries, in order.

ghost use Rattle.std.specs.Prelude.{◌≡◌, ℕ, ◌+◌, ◌≤◌, ◌++◌, [], ◌∷◌, List, length, map, OnOk};
ghost use Rattle.spec_calculus.specs.Bounds.{most_points};
ghost use Rattle.spec_calculus.specs.Points.{nodes};
ghost use Rattle.spec_protocol_scope.specs.Queries as rules;
ghost use Rattle.pi_parser.specs.Terms as sketched;
ghost use Rattle.pi_parser.specs.Files as files;
ghost use Rattle.pi_tree.specs.Events.{event_of};
ghost use Rattle.pi_tree.specs.Processes.{process_of};
ghost use Rattle.pi_tree.specs.Queries.{query_of};
ghost use Rattle.scope_declarations.specs.Answer.{Gives, GivesWith};
ghost use Rattle.scope_check.specs.Restrictions.{summary};
ghost use Rattle.scope_declarations.specs.Scope.{scope_of};
ghost use Rattle.scope_declarations.specs.Variables.{FindsVariables};

use crate::phases::asked_phase;
use pi_parser::{AlternativeSketch, AtomSketch, DeclarationSketch, QuerySketch};
use pi_tree::{
    Alternatives, Atom, Atoms, MOST_ALTERNATIVES, MOST_EVENTS, MOST_QUERIES, MOST_WRITTEN_SYMBOLS,
    Process, Queries, Query,
};
use scope_declarations::bound::Bound;
use scope_declarations::leaves::Setting;
use scope_declarations::place::Place;
use scope_declarations::scope::Scope;
use scope_declarations::stop::{Code, Stop};
use scope_declarations::terms::{event, process_term};
use scope_declarations::text::text_of;
use scope_declarations::variables::Variables;
use std::alloc::Global;

/// The restrictions of one name that were seen.
#[derive(Clone, Copy)]
pub enum Seen {
    /// None.
    Nowhere,
    /// One, at this point.
    Once(u32),
    /// More than one.
    Often,
}

/// One restriction more.
#[tactic(auto, using(crate::proofs::Restrictions::one_more))]
fn seen_at(seen: Seen, point: u32) -> Seen
    ensures { (before : List ℕ) → seen ≡ summary before → result ≡ summary (before ++ point ∷ []) }
{
    match seen {
        Seen::Nowhere => Seen::Once(point),
        Seen::Once(_) | Seen::Often => Seen::Often,
    }
}

/// Looks for restrictions of the name in a process that begins at this point, behind those that were seen. Answers
/// those that are seen by then, and the point behind the process.
fn look_for(process: &Process, word: &[u8], point: u32, seen: Seen) -> (Seen, u32)
    requires { point + length (nodes (process_of process.now)) ≤ most_points + 1 }
    ensures seen { (before : List ℕ) → seen ≡ summary before →
        result.0 ≡ summary (before ++ rules.points_of word.now point
        (nodes (process_of process.now))) }
    ensures behind { result.1 ≡ point + length (nodes (process_of process.now)) }
{
    match process {
        Process::Nil => (seen, point + 1),
        Process::New(made, rest) => {
            if made.items.as_slice() == word {
                look_for(rest, word, point + 1, seen_at(seen, point))
            } else {
                look_for(rest, word, point + 1, seen)
            }
        }
        Process::Output(_, _, rest)
        | Process::Input(_, _, rest)
        | Process::Copies(rest)
        | Process::Event(_, rest)
        | Process::Phase(_, rest)
        | Process::Insert(_, _, rest) => look_for(rest, word, point + 1, seen),
        Process::Par(left, right)
        | Process::Let(_, _, left, right)
        | Process::Get(_, _, _, left, right) => {
            let (seen, next) = look_for(left, word, point + 1, seen);
            look_for(right, word, next, seen)
        }
    }
}

/// The point of the one restriction of this identifier.
fn attacker_new(scope: &Scope, main: &Process, token: usize) -> Result<u32, Stop>
    requires { length (nodes (process_of main.now)) ≤ most_points }
    ensures { Gives (λ point. point) result (rules.only_point token
        (rules.points_of ((scope_of scope.now).text token) 1 (nodes (process_of main.now)))) }
{
    let word = text_of(&scope.text, token);
    match look_for(main, word, 1, Seen::Nowhere).0 {
        Seen::Nowhere => Err(Stop::Fault(Code::Unknown, token)),
        Seen::Once(point) => Ok(point),
        Seen::Often => Err(Stop::Fault(Code::AmbiguousNew, token)),
    }
}

/// An event of a query, of at most as many symbols as a term may have.
fn asked_event(
    sketch: &AtomSketch,
    alloc: Global,
    scope: &Scope,
    variables: &mut Variables,
) -> Result<Atom, Stop>
    requires { FindsVariables scope.now.text variables.old }
    ensures read { GivesWith event_of result variables.new.items.items
        (rules.asked_event (scope_of scope.now) variables.old.items.items
        (sketched.atom_of sketch.now)) }
    ensures known { OnOk result (FindsVariables scope.now.text variables.new) }
{
    let (read, symbols) = event(sketch, alloc, scope, &Setting::Event, variables)?;
    if symbols > MOST_WRITTEN_SYMBOLS {
        return Err(Stop::Fault(Code::TooMany, sketch.first));
    }
    Ok(read)
}

/// An alternative. Its first token is the word `event`, right before its first event.
fn alternative(
    sketch: &AlternativeSketch,
    alloc: Global,
    scope: &Scope,
    variables: &mut Variables,
) -> Result<Atoms, Stop>
    requires { FindsVariables scope.now.text variables.old }
    ensures read { GivesWith (λ events. events) result variables.new.items.items
        (rules.alternative (scope_of scope.now) variables.old.items.items
        (files.alternative_of sketch.now)) }
    ensures known { OnOk result (FindsVariables scope.now.text variables.new) }
{
    let mut items = Vec::new(alloc);
    items.push(asked_event(&sketch.atom, alloc, scope, variables)?)?;
    for atom in &sketch.others {
        items.push(asked_event(atom, alloc, scope, variables)?)?;
    }
    if sketch.others.len() >= MOST_EVENTS {
        return Err(Stop::Fault(Code::TooMany, sketch.atom.first.saturating_sub(1)));
    }
    Ok(Atoms { items })
}

/// Alternatives in a row.
fn alternatives(
    sketches: &[AlternativeSketch],
    alloc: Global,
    scope: &Scope,
    variables: &mut Variables,
) -> Result<Alternatives, Stop>
    requires { FindsVariables scope.now.text variables.old }
    ensures read { GivesWith (λ found. found) result variables.new.items.items
        (rules.alternatives (scope_of scope.now) variables.old.items.items
        (map files.alternative_of sketches.now)) }
    ensures known { OnOk result (FindsVariables scope.now.text variables.new) }
{
    let mut items = Vec::new(alloc);
    for sketch in sketches {
        items.push(alternative(sketch, alloc, scope, variables)?)?;
    }
    Ok(Alternatives { items })
}

/// What a query asks, in a declaration that begins with this token.
fn question(
    sketch: &QuerySketch,
    alloc: Global,
    scope: &Scope,
    main: &Process,
    token: usize,
) -> Result<Query, Stop>
    requires { length (nodes (process_of main.now)) ≤ most_points }
    ensures { Gives query_of result (rules.question (scope_of scope.now) (process_of main.now) token
        (files.question_of sketch.now)) }
{
    match sketch {
        QuerySketch::AttackerNew(_, name, phase) => {
            let point = attacker_new(scope, main, *name)?;
            let phase = asked_phase(&scope.text, main, *phase)?;
            Ok(Query::SecretNew(point, phase))
        }
        QuerySketch::Attacker(_, message, phase) => {
            let place = Place {
                scope: *scope,
                bound: &Bound::Nothing,
            };
            let message = process_term(message, alloc, &place)?;
            let phase = asked_phase(&scope.text, main, *phase)?;
            Ok(Query::Secret(Box::into_inner(message), phase))
        }
        QuerySketch::Correspondence(_, atom, others) => {
            let mut variables = Variables::new(alloc);
            let left = asked_event(atom, alloc, scope, &mut variables)?;
            let alternatives = alternatives(others, alloc, scope, &mut variables)?;
            if others.len() > MOST_ALTERNATIVES {
                return Err(Stop::Fault(Code::TooMany, token));
            }
            Ok(Query::Corr { left, alternatives })
        }
    }
}

/// The queries among declarations.
pub fn queries(
    declarations: &[DeclarationSketch],
    alloc: Global,
    scope: &Scope,
    main: &Process,
) -> Result<Queries, Stop>
    requires { length (nodes (process_of main.now)) ≤ most_points }
    ensures { Gives (λ found. found) result (rules.queries (scope_of scope.now)
        (process_of main.now) 0 (map files.declaration_of declarations.now)) }
{
    let mut items = Vec::new(alloc);
    for declaration in declarations {
        if let DeclarationSketch::Query {
            first,
            question: asked,
        } = declaration
        {
            let read = question(asked, alloc, scope, main, *first)?;
            if items.len() >= MOST_QUERIES {
                drop(read);
                return Err(Stop::Fault(Code::TooMany, *first));
            }
            items.push(read)?;
        }
    }
    Ok(Queries { items })
}
