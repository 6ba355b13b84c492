//! Declarations, and files.

ghost use Rattle.std.specs.Prelude.{◌≡◌, ◌<◌, ◌≤◌, ℕ, length, IfOk};
ghost use Rattle.spec_protocol_grammar.specs.Classes.{words};
ghost use Rattle.spec_protocol_grammar.specs.Reading.{built, list_at, rule_at, sized_at, names_at, declaration_by, declaration_at, main_at, file_at};
ghost use Rattle.pi_parser.specs.Gives.{Gives, IsBehind, most_of};
ghost use Rattle.pi_parser.specs.Files.{names_of, sized_of, rule_of, rules_of, declaration_of, main_of, file_of};

use crate::error::Fault;
use crate::processes::process;
use crate::queries::question;
use crate::sketch::{DeclarationSketch, ProcessSketch, RuleSketch, Sketch};
use crate::terms::{term, terms};
use crate::words::{class_at, fits_at, is_at, mark};
use limits::MOST_LEVELS;
use spec_protocol_grammar::Class;
use std::alloc::Global;

/// `name, others.`
#[tactic(auto, using(crate::proofs::Lists::list_ends, crate::proofs::Lists::list_faults, crate::proofs::Lists::list_first_faults, crate::proofs::Lists::step_fault, crate::proofs::Lists::names_fault))]
fn names(alloc: Global, classes: &[Class], at: usize) -> Result<((usize, Vec<usize>), usize), Fault>
    requires { at ≤ length classes.now }
    ensures read { Gives names_of result (names_at (most_of classes.now) (words classes.now) at) }
    ensures within { IsBehind classes.now at result }
{
    let mut others = Vec::new(alloc);
    let mut behind = mark(classes, at, Class::Name)?;
    'names: while is_at(classes, behind, Class::Comma) {
        let end = mark(classes, behind + 1, Class::Name)?;
        others.push(behind + 1)?;
        behind = end;
    }
    let end = mark(classes, behind, Class::Dot)?;
    Ok(((at, others), end))
}

/// `name/arity.`
fn sized(classes: &[Class], at: usize) -> Result<((usize, usize), usize), Fault>
    requires { at ≤ length classes.now }
    ensures read { Gives sized_of result (sized_at (words classes.now) at) }
    ensures within { IsBehind classes.now at result }
{
    let slash = mark(classes, at, Class::Name)?;
    let arity = mark(classes, slash, Class::Slash)?;
    let dot = mark(classes, arity, Class::Number)?;
    let end = mark(classes, dot, Class::Dot)?;
    Ok(((at, arity), end))
}

/// `name(arguments) -> result`.
#[tactic(auto, unfolding(spec_protocol_grammar::specs::Reading::rule_at))]
fn rule(alloc: Global, classes: &[Class], at: usize) -> Result<(RuleSketch, usize), Fault>
    requires { at ≤ length classes.now }
    ensures read { Gives rule_of result (rule_at (most_of classes.now) (words classes.now) at) }
    ensures within { IsBehind classes.now at result }
{
    let open = mark(classes, at, Class::Name)?;
    let inside = mark(classes, open, Class::Open)?;
    let (arguments, close) = terms(alloc, classes, inside, MOST_LEVELS)?;
    let arrow = mark(classes, close, Class::Close)?;
    let right = mark(classes, arrow, Class::Arrow)?;
    let (value, end) = term(alloc, classes, right, MOST_LEVELS)?;
    Ok((
        RuleSketch {
            first: at,
            arguments,
            result: value,
        },
        end,
    ))
}

/// Rules, `;` between two of them.
#[tactic(auto, using(crate::proofs::Lists::list_ends, crate::proofs::Lists::list_faults, crate::proofs::Lists::list_first_faults, crate::proofs::Lists::step_fault))]
fn rules(
    alloc: Global,
    classes: &[Class],
    at: usize,
) -> Result<((RuleSketch, Vec<RuleSketch>), usize), Fault>
    requires { at ≤ length classes.now }
    ensures read { Gives rules_of result (list_at (most_of classes.now) Class.Semicolon
        (rule_at (most_of classes.now)) (words classes.now) at) }
    ensures within { IsBehind classes.now at result }
{
    let mut others = Vec::new(alloc);
    let (first, mut behind) = rule(alloc, classes, at)?;
    'rules: while is_at(classes, behind, Class::Semicolon) {
        let (next, end) = rule(alloc, classes, behind + 1)?;
        others.push(next)?;
        behind = end;
    }
    Ok(((first, others), behind))
}

/// `private free ..` or `private fun ..`.
fn private(alloc: Global, classes: &[Class], at: usize) -> Result<(DeclarationSketch, usize), Fault>
    requires room { at < length classes.now }
    requires first { (words classes.now at).class ≡ Class.Private }
    ensures read { Gives declaration_of result
        (declaration_by (most_of classes.now) Class.Private (words classes.now) at) }
    ensures within { IsBehind classes.now at result }
{
    if is_at(classes, at + 1, Class::Free) {
        let ((name, others), end) = names(alloc, classes, at + 2)?;
        Ok((
            DeclarationSketch::Free {
                first: at,
                public: false,
                name,
                others,
            },
            end,
        ))
    } else {
        let word = mark(classes, at + 1, Class::Fun)?;
        let ((name, arity), end) = sized(classes, word)?;
        Ok((
            DeclarationSketch::Fun {
                first: at,
                public: false,
                name,
                arity,
            },
            end,
        ))
    }
}

/// `free name, others.`
fn free(alloc: Global, classes: &[Class], at: usize) -> Result<(DeclarationSketch, usize), Fault>
    requires room { at < length classes.now }
    requires first { (words classes.now at).class ≡ Class.Free }
    ensures read { Gives declaration_of result
        (declaration_by (most_of classes.now) Class.Free (words classes.now) at) }
    ensures within { IsBehind classes.now at result }
{
    let ((name, others), end) = names(alloc, classes, at + 1)?;
    Ok((
        DeclarationSketch::Free {
            first: at,
            public: true,
            name,
            others,
        },
        end,
    ))
}

/// `fun name/arity.`
fn fun(classes: &[Class], at: usize) -> Result<(DeclarationSketch, usize), Fault>
    requires room { at < length classes.now }
    requires first { (words classes.now at).class ≡ Class.Fun }
    ensures read { Gives declaration_of result
        (declaration_by (most_of classes.now) Class.Fun (words classes.now) at) }
    ensures within { IsBehind classes.now at result }
{
    let ((name, arity), end) = sized(classes, at + 1)?;
    Ok((
        DeclarationSketch::Fun {
            first: at,
            public: true,
            name,
            arity,
        },
        end,
    ))
}

/// `data name/arity.`
fn data(classes: &[Class], at: usize) -> Result<(DeclarationSketch, usize), Fault>
    requires room { at < length classes.now }
    requires first { (words classes.now at).class ≡ Class.Data }
    ensures read { Gives declaration_of result
        (declaration_by (most_of classes.now) Class.Data (words classes.now) at) }
    ensures within { IsBehind classes.now at result }
{
    let ((name, arity), end) = sized(classes, at + 1)?;
    Ok((
        DeclarationSketch::Data {
            first: at,
            name,
            arity,
        },
        end,
    ))
}

/// `event name/arity.`
fn event(classes: &[Class], at: usize) -> Result<(DeclarationSketch, usize), Fault>
    requires room { at < length classes.now }
    requires first { (words classes.now at).class ≡ Class.Event }
    ensures read { Gives declaration_of result
        (declaration_by (most_of classes.now) Class.Event (words classes.now) at) }
    ensures within { IsBehind classes.now at result }
{
    let ((name, arity), end) = sized(classes, at + 1)?;
    Ok((
        DeclarationSketch::Event {
            first: at,
            name,
            arity,
        },
        end,
    ))
}

/// `table name/arity.`
fn table(classes: &[Class], at: usize) -> Result<(DeclarationSketch, usize), Fault>
    requires room { at < length classes.now }
    requires first { (words classes.now at).class ≡ Class.Table }
    ensures read { Gives declaration_of result
        (declaration_by (most_of classes.now) Class.Table (words classes.now) at) }
    ensures within { IsBehind classes.now at result }
{
    let ((name, arity), end) = sized(classes, at + 1)?;
    Ok((
        DeclarationSketch::Table {
            first: at,
            name,
            arity,
        },
        end,
    ))
}

/// `reduc rule; others.`
fn reduc(alloc: Global, classes: &[Class], at: usize) -> Result<(DeclarationSketch, usize), Fault>
    requires room { at < length classes.now }
    requires first { (words classes.now at).class ≡ Class.Reduc }
    ensures read { Gives declaration_of result
        (declaration_by (most_of classes.now) Class.Reduc (words classes.now) at) }
    ensures within { IsBehind classes.now at result }
{
    let ((rule, others), dot) = rules(alloc, classes, at + 1)?;
    let end = mark(classes, dot, Class::Dot)?;
    Ok((
        DeclarationSketch::Reduc {
            first: at,
            rule,
            others,
        },
        end,
    ))
}

/// `query question.`
fn query(alloc: Global, classes: &[Class], at: usize) -> Result<(DeclarationSketch, usize), Fault>
    requires room { at < length classes.now }
    requires first { (words classes.now at).class ≡ Class.Query }
    ensures read { Gives declaration_of result
        (declaration_by (most_of classes.now) Class.Query (words classes.now) at) }
    ensures within { IsBehind classes.now at result }
{
    let (question, dot) = question(alloc, classes, at + 1)?;
    let end = mark(classes, dot, Class::Dot)?;
    Ok((
        DeclarationSketch::Query {
            first: at,
            question,
        },
        end,
    ))
}

/// `let name = process.`
fn definition(
    alloc: Global,
    classes: &[Class],
    at: usize,
) -> Result<(DeclarationSketch, usize), Fault>
    requires room { at < length classes.now }
    requires first { (words classes.now at).class ≡ Class.Let }
    ensures read { Gives declaration_of result
        (declaration_by (most_of classes.now) Class.Let (words classes.now) at) }
    ensures within { IsBehind classes.now at result }
{
    let name = at + 1;
    let equals = mark(classes, name, Class::Name)?;
    let right = mark(classes, equals, Class::Equals)?;
    let (process, dot) = process(alloc, classes, right, MOST_LEVELS)?;
    let end = mark(classes, dot, Class::Dot)?;
    Ok((
        DeclarationSketch::Definition {
            first: at,
            name,
            process,
        },
        end,
    ))
}

/// A declaration.
#[tactic(auto, using(crate::proofs::Levels::declaration_other), unfolding(spec_protocol_grammar::specs::Reading::declaration_at))]
fn declaration(
    alloc: Global,
    classes: &[Class],
    at: usize,
) -> Result<(DeclarationSketch, usize), Fault>
    requires { at ≤ length classes.now }
    ensures read { Gives declaration_of result
        (declaration_at (most_of classes.now) (words classes.now) at) }
    ensures within { IsBehind classes.now at result }
{
    match class_at(classes, at) {
        Class::Private => private(alloc, classes, at),
        Class::Free => free(alloc, classes, at),
        Class::Fun => fun(classes, at),
        Class::Data => data(classes, at),
        Class::Reduc => reduc(alloc, classes, at),
        Class::Event => event(classes, at),
        Class::Table => table(classes, at),
        Class::Query => query(alloc, classes, at),
        Class::Let => definition(alloc, classes, at),
        _ => Err(Fault::Unexpected(at)),
    }
}

/// `process` and the main process, up to the end of the file.
#[tactic(auto, unfolding(spec_protocol_grammar::specs::Reading::main_at))]
fn main_process(
    alloc: Global,
    classes: &[Class],
    at: usize,
) -> Result<(ProcessSketch, usize), Fault>
    requires { at ≤ length classes.now }
    ensures read { Gives (main_of at) result (main_at (most_of classes.now) (words classes.now)
        at) }
{
    let first = mark(classes, at, Class::Process)?;
    let (process, end) = process(alloc, classes, first, MOST_LEVELS)?;
    if fits_at(classes, end, Class::End) {
        Ok((process, end + 1))
    } else {
        Err(Fault::Unexpected(end))
    }
}

/// A file.
#[tactic(auto, using(crate::proofs::Files::declared_begins, crate::proofs::Files::declared_continues, crate::proofs::Files::declared_faults, crate::proofs::Files::declared_ends, crate::proofs::Files::main_faults))]
pub fn file(alloc: Global, classes: &[Class]) -> Result<(Sketch, usize), Fault>
    ensures { Gives file_of result (file_at (most_of classes.now) (words classes.now) 0) }
{
    let mut declarations = Vec::new(alloc);
    let mut at = 0usize;
    'declarations: while !is_at(classes, at, Class::Process) {
        let (next, end) = declaration(alloc, classes, at)?;
        declarations.push(next)?;
        at = end;
    }
    let (main, end) = main_process(alloc, classes, at)?;
    Ok((
        Sketch {
            declarations,
            first: at,
            main,
        },
        end,
    ))
}
