//! Declarations other than queries, in order; of a macro only its name is looked at.

ghost use Rattle.std.specs.Prelude.{◌≡◌, ◌+◌, ◌≤◌, map, min, IfOk, OnOk};
ghost use Rattle.spec_protocol_scope.specs.Names as naming;
ghost use Rattle.spec_protocol_scope.specs.Declarations as rules;
ghost use Rattle.pi_parser.specs.Files as sketched;
ghost use Rattle.pi_parser.specs.Processes.{process_of};
ghost use Rattle.pi_tree.specs.Names.{declared_of};
ghost use Rattle.pi_tree.specs.Rules.{rule_of, destructor_of};
ghost use Rattle.scope_declarations.specs.Answer.{Gives, Turns};
ghost use Rattle.scope_declarations.specs.Names.{names_of, IsKept, IsNew};
ghost use Rattle.scope_declarations.specs.Scope.{scope_of};
ghost use Rattle.scope_declarations.specs.Text.{texts_of};

use crate::leaves::Setting;
use crate::names::{Macro, Meaning, Names, count_of, enter, is_variable, look};
use crate::scope::Scope;
use crate::source::Text;
use crate::stop::{Code, Stop};
use crate::terms::{count_of as count_of_terms, plus, term, terms};
use crate::text::{same_text, text_of};
use crate::variables::Variables;
use pi_parser::{DeclarationSketch, ProcessSketch, RuleSketch};
use pi_tree::{
    Declared, Dtor, MOST_ARGUMENTS, MOST_NAMES, MOST_RULES, MOST_WRITTEN_SYMBOLS, Rule, Rules, Word,
};
use std::alloc::{AllocError, Global};

/// What the declaration of a constructor says of it.
#[derive(Clone, Copy)]
struct Signature {
    public: bool,
    is_data: bool,
    /// The token that names it.
    name: usize,
    /// The token that spells how many arguments it takes.
    size: usize,
}

/// The rules of a destructor: the first, and the others.
#[derive(Clone, Copy)]
struct Reduction<'a> {
    first: &'a RuleSketch,
    others: &'a [RuleSketch],
}

/// The word of a token.
fn word(alloc: Global, scope: &Scope, token: usize) -> Result<Word, AllocError>
    ensures { IfOk result (λ word. word ≡ (scope_of scope.now).text token) }
{
    let items = Vec::from_slice(alloc, text_of(&scope.text, token))?;
    Ok(Word { items })
}

/// A new name: nothing else is declared so, and there is room for one more.
fn new_name(alloc: Global, scope: &Scope, token: usize) -> Result<Word, Stop>
    ensures read { Gives (λ word. word) result (rules.new_name (scope_of scope.now) token) }
    ensures new { IfOk result (λ word. IsNew (scope_of scope.now) token word) }
{
    if look(scope, token).is_some() {
        return Err(Stop::Fault(Code::Twice, token));
    }
    if count_of(scope.names) >= MOST_NAMES {
        return Err(Stop::Fault(Code::TooMany, token));
    }
    Ok(word(alloc, scope, token)?)
}

/// A new free name or constructor: its name is not a variable's.
fn new_symbol(alloc: Global, scope: &Scope, token: usize) -> Result<Word, Stop>
    ensures read { Gives (λ word. word) result (rules.new_symbol (scope_of scope.now) token) }
    ensures new { IfOk result (λ word. IsNew (scope_of scope.now) token word) }
{
    if look(scope, token).is_none() {
        if is_variable(text_of(&scope.text, token)) {
            return Err(Stop::Fault(Code::Kind, token));
        }
    }
    new_name(alloc, scope, token)
}

/// The number that the digits spell, or one more than this, where it is more.
pub fn capped_number(digits: &[u8], most: u32) -> u32
    requires { most ≤ 1000 }
    ensures { result ≡ min (naming.decimal digits.now) (most + 1) }
{
    let mut number = 0u32;
    for digit in digits {
        number = (10 * number + u32::from(digit.saturating_sub(b'0'))).min(most + 1);
    }
    number
}

/// The arity that a number spells.
fn arity(whole: &Text, token: usize) -> Result<u32, Stop>
    ensures { Gives (λ arity. arity) result (rules.arity (texts_of whole.now) token) }
{
    let number = capped_number(text_of(whole, token), MOST_ARGUMENTS as u32);
    if number as usize > MOST_ARGUMENTS {
        return Err(Stop::Fault(Code::TooMany, token));
    }
    Ok(number)
}

/// A free name.
fn free_name(alloc: Global, scope: &Scope, public: bool, name: usize) -> Result<Declared, Stop>
    ensures read { Gives declared_of result (rules.free_name (scope_of scope.now) public name) }
    ensures new { IfOk result (λ found. IsNew (scope_of scope.now) name (declared_of found).word) }
{
    let word = new_symbol(alloc, scope, name)?;
    Ok(Declared {
        word,
        arity: 0,
        public,
        is_data: false,
    })
}

/// A constructor.
fn constructor(alloc: Global, scope: &Scope, said: Signature) -> Result<Declared, Stop>
    ensures read { Gives declared_of result (rules.constructor (scope_of scope.now) said.public
        said.is_data said.name said.size) }
    ensures new { IfOk result
        (λ found. IsNew (scope_of scope.now) said.name (declared_of found).word) }
{
    let word = new_symbol(alloc, scope, said.name)?;
    let arity = arity(&scope.text, said.size)?;
    Ok(Declared {
        word,
        arity,
        public: said.public,
        is_data: said.is_data,
    })
}

/// An event, or a table.
fn event(alloc: Global, scope: &Scope, name: usize, size: usize) -> Result<Declared, Stop>
    ensures read { Gives declared_of result (rules.event (scope_of scope.now) name size) }
    ensures new { IfOk result (λ found. IsNew (scope_of scope.now) name (declared_of found).word) }
{
    let word = new_name(alloc, scope, name)?;
    let arity = arity(&scope.text, size)?;
    Ok(Declared {
        word,
        arity,
        public: true,
        is_data: false,
    })
}

/// A rule within its limits.
fn rule(alloc: Global, scope: &Scope, sketch: &RuleSketch) -> Result<Rule, Stop>
    ensures { Gives rule_of result (rules.rule (scope_of scope.now) (sketched.rule_of sketch.now)) }
{
    let mut variables = Variables::new(alloc);
    let (left, of_left) = terms(
        &sketch.arguments,
        alloc,
        scope,
        &Setting::Left,
        &mut variables,
    )?;
    let (right, of_right) = term(
        &sketch.result,
        alloc,
        scope,
        &Setting::Right,
        &mut variables,
    )?;
    let symbols = plus(plus(1, of_left), of_right);
    if count_of_terms(&sketch.arguments) > MOST_ARGUMENTS || symbols > MOST_WRITTEN_SYMBOLS {
        drop(right);
        return Err(Stop::Fault(Code::TooMany, sketch.first));
    }
    Ok(Rule { left, right })
}

/// A further rule, which has the number of arguments and the name of the first.
fn further_rule(
    alloc: Global,
    scope: &Scope,
    first: &RuleSketch,
    sketch: &RuleSketch,
) -> Result<Rule, Stop>
    ensures { Gives rule_of result (rules.further_rule (scope_of scope.now)
        (sketched.rule_of first.now) (sketched.rule_of sketch.now)) }
{
    if count_of_terms(&sketch.arguments) != count_of_terms(&first.arguments) {
        return Err(Stop::Fault(Code::Arity, sketch.first));
    }
    if !same_text(&scope.text, first.first, sketch.first) {
        return Err(Stop::Fault(Code::Kind, sketch.first));
    }
    rule(alloc, scope, sketch)
}

/// A destructor, whose declaration begins at this token.
fn destructor(alloc: Global, scope: &Scope, token: usize, said: &Reduction) -> Result<Dtor, Stop>
    ensures read { Gives destructor_of result
        (rules.destructor (scope_of scope.now) token (sketched.rule_of said.now.first.now)
        (map sketched.rule_of said.now.others.now)) }
    ensures new { IfOk result (λ found. IsNew (scope_of scope.now)
        (sketched.rule_of said.now.first.now).first (destructor_of found).word) }
{
    let word = new_name(alloc, scope, said.first.first)?;
    let mut items = Vec::new(alloc);
    items.push(rule(alloc, scope, said.first)?)?;
    for other in said.others {
        items.push(further_rule(alloc, scope, said.first, other)?)?;
    }
    if said.others.len() >= MOST_RULES {
        return Err(Stop::Fault(Code::TooMany, token));
    }
    Ok(Dtor {
        word,
        rules: Rules { items },
    })
}

/// Adds a free name.
fn declare_free(
    names: &mut Names,
    alloc: Global,
    whole: &Text,
    public: bool,
    name: usize,
) -> Result<(), Stop>
    requires { IsKept (texts_of whole.now) names.old }
    ensures read { Turns (names_of names.new) result
        (rules.declare_free (texts_of whole.now) (names_of names.old) public name) }
    ensures kept { OnOk result (IsKept (texts_of whole.now) names.new) }
{
    let scope = Scope {
        text: *whole,
        names: &*names,
    };
    let free = free_name(alloc, &scope, public, name)?;
    names.add_free(alloc, free)?;
    Ok(())
}

/// Adds free names.
fn declare_frees(
    names: &mut Names,
    alloc: Global,
    whole: &Text,
    public: bool,
    items: &[usize],
) -> Result<(), Stop>
    requires { IsKept (texts_of whole.now) names.old }
    ensures read { Turns (names_of names.new) result
        (rules.declare_frees (texts_of whole.now) (names_of names.old) public items.now) }
    ensures kept { OnOk result (IsKept (texts_of whole.now) names.new) }
{
    for name in items {
        declare_free(names, alloc, whole, public, *name)?;
    }
    Ok(())
}

/// Adds a constructor.
fn declare_constructor(
    names: &mut Names,
    alloc: Global,
    whole: &Text,
    said: Signature,
) -> Result<(), Stop>
    requires { IsKept (texts_of whole.now) names.old }
    ensures read { Turns (names_of names.new) result
        (rules.declare_constructor (texts_of whole.now) (names_of names.old) said.public
        said.is_data said.name said.size) }
    ensures kept { OnOk result (IsKept (texts_of whole.now) names.new) }
{
    let scope = Scope {
        text: *whole,
        names: &*names,
    };
    let found = constructor(alloc, &scope, said)?;
    names.add_constructor(alloc, found)?;
    Ok(())
}

/// Adds a destructor.
fn declare_destructor(
    names: &mut Names,
    alloc: Global,
    whole: &Text,
    token: usize,
    said: &Reduction,
) -> Result<(), Stop>
    requires { IsKept (texts_of whole.now) names.old }
    ensures read { Turns (names_of names.new) result
        (rules.declare_destructor (texts_of whole.now) (names_of names.old) token
        (sketched.rule_of said.now.first.now) (map sketched.rule_of said.now.others.now)) }
    ensures kept { OnOk result (IsKept (texts_of whole.now) names.new) }
{
    let scope = Scope {
        text: *whole,
        names: &*names,
    };
    let found = destructor(alloc, &scope, token, said)?;
    names.add_destructor(alloc, found)?;
    Ok(())
}

/// Adds an event.
fn declare_event(
    names: &mut Names,
    alloc: Global,
    whole: &Text,
    name: usize,
    size: usize,
) -> Result<(), Stop>
    requires { IsKept (texts_of whole.now) names.old }
    ensures read { Turns (names_of names.new) result
        (rules.declare_event (texts_of whole.now) (names_of names.old) name size) }
    ensures kept { OnOk result (IsKept (texts_of whole.now) names.new) }
{
    let scope = Scope {
        text: *whole,
        names: &*names,
    };
    let found = event(alloc, &scope, name, size)?;
    names.add_event(alloc, found)?;
    Ok(())
}

/// Adds a table.
fn declare_table(
    names: &mut Names,
    alloc: Global,
    whole: &Text,
    name: usize,
    size: usize,
) -> Result<(), Stop>
    requires { IsKept (texts_of whole.now) names.old }
    ensures read { Turns (names_of names.new) result
        (rules.declare_table (texts_of whole.now) (names_of names.old) name size) }
    ensures kept { OnOk result (IsKept (texts_of whole.now) names.new) }
{
    let scope = Scope {
        text: *whole,
        names: &*names,
    };
    let found = event(alloc, &scope, name, size)?;
    names.add_table(alloc, found)?;
    Ok(())
}

/// Adds a macro.
fn declare_macro<'a>(
    names: &mut Names<'a>,
    alloc: Global,
    whole: &Text,
    name: usize,
    body: &'a ProcessSketch,
) -> Result<(), Stop>
    requires { IsKept (texts_of whole.now) names.old }
    ensures read { Turns (names_of names.new) result
        (rules.declare_macro (texts_of whole.now) (names_of names.old) name
        (process_of body.now)) }
    ensures kept { OnOk result (IsKept (texts_of whole.now) names.new) }
{
    let scope = Scope {
        text: *whole,
        names: &*names,
    };
    new_name(alloc, &scope, name)?;
    enter(
        &mut names.meanings,
        alloc,
        text_of(whole, name),
        Meaning::Macro,
    )?;
    names.macros.push(Macro { name, body })?;
    Ok(())
}

/// Adds the names of a declaration.
fn declare<'a>(
    names: &mut Names<'a>,
    alloc: Global,
    whole: &Text,
    declaration: &'a DeclarationSketch,
) -> Result<(), Stop>
    requires { IsKept (texts_of whole.now) names.old }
    ensures read { Turns (names_of names.new) result
        (rules.declare (texts_of whole.now) (names_of names.old)
        (sketched.declaration_of declaration.now)) }
    ensures kept { OnOk result (IsKept (texts_of whole.now) names.new) }
{
    match declaration {
        DeclarationSketch::Free {
            public,
            name,
            others,
            ..
        } => {
            declare_free(names, alloc, whole, *public, *name)?;
            declare_frees(names, alloc, whole, *public, others)
        }
        DeclarationSketch::Fun {
            public,
            name,
            arity,
            ..
        } => {
            let said = Signature {
                public: *public,
                is_data: false,
                name: *name,
                size: *arity,
            };
            declare_constructor(names, alloc, whole, said)
        }
        DeclarationSketch::Data { name, arity, .. } => {
            let said = Signature {
                public: true,
                is_data: true,
                name: *name,
                size: *arity,
            };
            declare_constructor(names, alloc, whole, said)
        }
        DeclarationSketch::Reduc {
            first,
            rule,
            others,
        } => {
            let said = Reduction {
                first: rule,
                others,
            };
            declare_destructor(names, alloc, whole, *first, &said)
        }
        DeclarationSketch::Event { name, arity, .. } => {
            declare_event(names, alloc, whole, *name, *arity)
        }
        DeclarationSketch::Table { name, arity, .. } => {
            declare_table(names, alloc, whole, *name, *arity)
        }
        DeclarationSketch::Query { .. } => Ok(()),
        DeclarationSketch::Definition { name, process, .. } => {
            declare_macro(names, alloc, whole, *name, process)
        }
    }
}

/// The names of all declarations, in order.
pub fn declare_all<'a>(
    alloc: Global,
    whole: &Text,
    declarations: &'a [DeclarationSketch],
) -> Result<Names<'a>, Stop>
    ensures read { Gives names_of result (rules.declare_all (texts_of whole.now)
        naming.no_names (map sketched.declaration_of declarations.now)) }
    ensures kept { IfOk result (λ found. IsKept (texts_of whole.now) found) }
{
    let mut names = Names::new(alloc);
    for declaration in declarations {
        declare(&mut names, alloc, whole, declaration)?;
    }
    Ok(names)
}
