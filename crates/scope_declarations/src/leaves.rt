//! Bare identifiers, and the constructors and events that take arguments.

ghost use Rattle.std.specs.Prelude.{◌≡◌, ◌≤◌, length, OnOk, option_map};
ghost use Rattle.spec_protocol_scope.specs.Names as naming;
ghost use Rattle.spec_protocol_scope.specs.Terms as rules;
ghost use Rattle.pi_tree.specs.Terms.{term_of};
ghost use Rattle.scope_declarations.specs.Answer.{Gives, GivesWith};
ghost use Rattle.scope_declarations.specs.Bound.{bound_of, FindsBound};
ghost use Rattle.scope_declarations.specs.Names.{meaning_of};
ghost use Rattle.scope_declarations.specs.Scope.{scope_of};
ghost use Rattle.scope_declarations.specs.Terms.{setting_of, FindsSetting};
ghost use Rattle.scope_declarations.specs.Text.{texts_of};
ghost use Rattle.scope_declarations.specs.Variables.{FindsVariables};

use crate::bound::{Bound, BoundName, bound_as};
use crate::names::{Meaning, look};
use crate::scope::Scope;
use crate::source::Text;
use crate::stop::{Code, Stop};
use crate::variables::{Variables, add_variable, count_of, variable_of};
use pi_tree::{Term, Terms};
use std::alloc::Global;

/// Where a term stands: this tells what a bare identifier in it is.
#[derive(Clone, Copy)]
pub enum Setting<'a> {
    /// In a process, where this is bound; in `attacker(..)` nothing is.
    Process(&'a Bound<'a>),
    /// On the left of a rule, which binds its variables.
    Left,
    /// On the right of a rule.
    Right,
    /// In an event of a query.
    Event,
}

/// A constructor without arguments.
fn constant(alloc: Global, number: u32) -> Term
    ensures { term_of result ≡ rules.constant number }
{
    Term::App(
        number,
        Terms {
            items: Vec::new(alloc),
        },
    )
}

/// What a declared name is as a bare identifier.
fn declared_leaf(alloc: Global, token: usize, meaning: Meaning) -> Result<Term, Stop>
    ensures { Gives term_of result (rules.declared_leaf token (meaning_of meaning)) }
{
    match meaning {
        Meaning::Free(number) => Ok(Term::Free(number)),
        Meaning::Constructor { number, arity, .. } => {
            if arity == 0 {
                Ok(constant(alloc, number))
            } else {
                Err(Stop::Fault(Code::Arity, token))
            }
        }
        Meaning::Destructor { .. }
        | Meaning::Event { .. }
        | Meaning::Table { .. }
        | Meaning::Macro => Err(Stop::Fault(Code::Kind, token)),
    }
}

/// A variable of a rule or query, new where it stands first.
fn variable(
    whole: &Text,
    alloc: Global,
    variables: &mut Variables,
    token: usize,
) -> Result<Term, Stop>
    requires { FindsVariables whole.now variables.old }
    ensures read { GivesWith term_of result variables.new.items.items
        (rules.variable_by
        (naming.variable_of (texts_of whole.now) variables.old.items.items token)
        variables.old.items.items token) }
    ensures known { OnOk result (FindsVariables whole.now variables.new) }
{
    match variable_of(whole, variables, token) {
        Some(number) => Ok(Term::Var(number)),
        None => {
            let number = count_of(whole, variables) + 1;
            add_variable(variables, alloc, whole, token, number)?;
            Ok(Term::Var(number))
        }
    }
}

/// A variable on the right of a rule, which stands on its left.
fn known_variable(whole: &Text, variables: &Variables, token: usize) -> Result<Term, Stop>
    requires { FindsVariables whole.now variables.now }
    ensures { GivesWith term_of result variables.now.items.items
        (rules.known_variable
        (naming.variable_of (texts_of whole.now) variables.now.items.items token)
        variables.now.items.items token) }
{
    match variable_of(whole, variables, token) {
        Some(number) => Ok(Term::Var(number)),
        None => Err(Stop::Fault(Code::LooseVariable, token)),
    }
}

/// A bare identifier in a process: what is bound, or else a declared name.
pub fn process_leaf(scope: &Scope, alloc: Global, bound: &Bound, token: usize) -> Result<Term, Stop>
    requires { FindsBound scope.now.text bound.now }
    ensures { Gives term_of result (rules.process_leaf
        (naming.bound_as (texts_of scope.now.text) (bound_of bound.now) token)
        (naming.look (scope_of scope.now) token) token) }
{
    match bound_as(bound, &scope.text, token) {
        Some(BoundName::Variable(number)) => Ok(Term::Var(number)),
        Some(BoundName::Made(point)) => Ok(Term::Made(point)),
        None => match look(scope, token) {
            Some(meaning) => declared_leaf(alloc, token, meaning),
            None => Err(Stop::Fault(Code::Unknown, token)),
        },
    }
}

/// The constant that a bare identifier in a rule is, if it is one.
fn constant_of(meaning: Option<Meaning>) -> Option<u32>
    ensures { result ≡ rules.constant_of (option_map meaning_of meaning) }
{
    match meaning {
        Some(Meaning::Constructor { number, arity, .. }) => {
            if arity == 0 { Some(number) } else { None }
        }
        _ => None,
    }
}

/// A bare identifier.
pub fn leaf(
    scope: &Scope,
    alloc: Global,
    setting: &Setting,
    variables: &mut Variables,
    token: usize,
) -> Result<Term, Stop>
    requires finds { FindsSetting scope.now.text setting.now }
    requires known { FindsVariables scope.now.text variables.old }
    ensures read { GivesWith term_of result variables.new.items.items
        (rules.leaf (scope_of scope.now) (setting_of setting.now) variables.old.items.items token) }
    ensures known { OnOk result (FindsVariables scope.now.text variables.new) }
{
    match setting {
        Setting::Process(bound) => process_leaf(scope, alloc, bound, token),
        Setting::Left => match constant_of(look(scope, token)) {
            Some(number) => Ok(constant(alloc, number)),
            None => variable(&scope.text, alloc, variables, token),
        },
        Setting::Right => match constant_of(look(scope, token)) {
            Some(number) => Ok(constant(alloc, number)),
            None => known_variable(&scope.text, variables, token),
        },
        Setting::Event => match look(scope, token) {
            Some(meaning) => declared_leaf(alloc, token, meaning),
            None => variable(&scope.text, alloc, variables, token),
        },
    }
}

/// The number, where it takes as many arguments as are there.
pub fn taking(token: usize, number: u32, arity: usize, given: usize) -> Result<u32, Stop>
    ensures { Gives (λ n. n) result (rules.taking token number arity given) }
{
    if arity == given {
        Ok(number)
    } else {
        Err(Stop::Fault(Code::Arity, token))
    }
}

/// The constructor of so many arguments that the token names.
pub fn constructor(scope: &Scope, token: usize, given: usize) -> Result<u32, Stop>
    ensures { Gives (λ n. n) result (rules.constructor token given
        (naming.look (scope_of scope.now) token)) }
{
    match look(scope, token) {
        Some(Meaning::Constructor { number, arity, .. }) => {
            taking(token, number, arity as usize, given)
        }
        Some(_) => Err(Stop::Fault(Code::Kind, token)),
        None => Err(Stop::Fault(Code::Unknown, token)),
    }
}

/// The event of so many arguments that the token names.
pub fn event_named(scope: &Scope, token: usize, given: usize) -> Result<u32, Stop>
    ensures { Gives (λ n. n) result (rules.event_named token given
        (naming.look (scope_of scope.now) token)) }
{
    match look(scope, token) {
        Some(Meaning::Event { number, arity }) => taking(token, number, arity as usize, given),
        Some(_) => Err(Stop::Fault(Code::Kind, token)),
        None => Err(Stop::Fault(Code::Unknown, token)),
    }
}

/// The table of so many arguments that the token names.
pub fn table_named(scope: &Scope, token: usize, given: usize) -> Result<u32, Stop>
    ensures { Gives (λ n. n) result (rules.table_named token given
        (naming.look (scope_of scope.now) token)) }
{
    match look(scope, token) {
        Some(Meaning::Table { number, arity }) => taking(token, number, arity as usize, given),
        Some(_) => Err(Stop::Fault(Code::Kind, token)),
        None => Err(Stop::Fault(Code::Unknown, token)),
    }
}
