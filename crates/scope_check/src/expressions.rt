//! What a `let` evaluates, within its limits.

ghost use Rattle.std.specs.Prelude.{◌≡◌, ◌+◌, ◌*◌, Some, IfOk, IsTrue};
ghost use Rattle.std.specs.Option.{is_some};
ghost use Rattle.spec_trees.specs.Tree.{trees};
ghost use Rattle.spec_well_formed.specs.Terms.{rule_count, row_expression_size};
ghost use Rattle.spec_protocol_grammar.specs.Sketch.{terms_sketch};
ghost use Rattle.spec_protocol_scope.specs.Names as naming;
ghost use Rattle.spec_protocol_scope.specs.Expressions as rules;
ghost use Rattle.pi_parser.specs.Terms as sketched;
ghost use Rattle.pi_tree.specs.Expressions.{expression_of};
ghost use Rattle.scope_declarations.specs.Answer.{Gives};
ghost use Rattle.scope_declarations.specs.Bound.{bound_of};
ghost use Rattle.scope_declarations.specs.Names.{names_of};
ghost use Rattle.scope_check.specs.Extents.{root_of, rules_at, capped_applications, capped_choices, Counts, CountsExpression, CountsRow, CountsRoot};
ghost use Rattle.scope_declarations.specs.Scope.{scope_of};
ghost use Rattle.scope_declarations.specs.Terms.{capped};

use pi_parser::{TermSketch, TermsSketch};
use pi_tree::{
    Expr, Exprs, MOST_APPLICATIONS, MOST_ARGUMENTS, MOST_CHOICES, MOST_WRITTEN_SYMBOLS, Term, Terms,
};
use scope_declarations::leaves::{process_leaf, taking};
use scope_declarations::names::{Meaning, Names, look};
use scope_declarations::place::Place;
use scope_declarations::scope::Scope;
use scope_declarations::stop::{Code, Stop};
use scope_declarations::terms::count_of;
use std::alloc::{AllocError, Global};

/// How much there is of an expression, or of expressions in a row. Of each number one more than its limit stands for
/// all that are too many.
#[derive(Clone, Copy)]
pub struct Extent {
    /// The symbols; a destructor's name counts as one.
    pub symbols: u32,
    /// The applications of destructors.
    pub applications: u32,
    /// The choices of a rule for each of them.
    pub choices: u64,
}

/// The root of an expression.
#[derive(Clone, Copy)]
pub enum Root {
    /// A constructor.
    Constructor(u32),
    /// Parentheses round several parts.
    Tuple,
    /// A destructor.
    Destructor(u32),
}

/// The extent of both together; the choices for the one go with each of those for the other.
fn combined(one: Extent, other: Extent) -> Extent
    ensures symbols { result.symbols ≡ capped (one.symbols + other.symbols) }
    ensures applications { result.applications ≡
        capped_applications (one.applications + other.applications) }
    ensures choices { result.choices ≡ capped_choices (one.choices * other.choices) }
{
    Extent {
        symbols: one
            .symbols
            .saturating_add(other.symbols)
            .min(MOST_WRITTEN_SYMBOLS + 1),
        applications: one
            .applications
            .saturating_add(other.applications)
            .min(MOST_APPLICATIONS + 1),
        choices: one
            .choices
            .saturating_mul(other.choices)
            .min(MOST_CHOICES + 1),
    }
}

/// The extent of one symbol that is no destructor.
fn one_symbol() -> Extent
    ensures { Counts 1 0 1 result }
{
    Extent {
        symbols: 1,
        applications: 0,
        choices: 1,
    }
}

/// How many rules the destructor of that number has.
fn rule_count(names: &Names, number: u32) -> usize
    ensures { result ≡ rule_count (naming.signature_with (names_of names.now)) number }
{
    if number == 0 {
        return 0;
    }
    match names.dtors.items.get(number as usize - 1) {
        Some(destructor) => destructor.rules.items.len(),
        None => 0,
    }
}

/// The extent of a root without its parts.
fn extent_of(scope: &Scope, root: Root) -> Extent
    ensures { CountsRoot (rules_at (scope_of scope.now)) (root_of root) result }
{
    match root {
        Root::Constructor(_) | Root::Tuple => one_symbol(),
        Root::Destructor(number) => Extent {
            symbols: 1,
            applications: 1,
            choices: (rule_count(scope.names, number) as u64).min(MOST_CHOICES + 1),
        },
    }
}

/// The root of `f(..)`, by its token and the number of its arguments.
fn named_root(scope: &Scope, token: usize, given: usize) -> Result<Root, Stop>
    ensures { Gives root_of result (rules.root token given
        (naming.look (scope_of scope.now) token)) }
{
    match look(scope, token) {
        Some(Meaning::Destructor { number, arity }) => {
            Ok(Root::Destructor(taking(token, number, arity, given)?))
        }
        Some(Meaning::Constructor { number, arity, .. }) => {
            Ok(Root::Constructor(taking(token, number, arity as usize, given)?))
        }
        Some(_) => Err(Stop::Fault(Code::Kind, token)),
        None => Err(Stop::Fault(Code::Unknown, token)),
    }
}

/// Whether each of the parts is a term.
fn are_terms(parts: &Exprs) -> bool
    ensures { result ≡ is_some (rules.terms_of parts.now) }
{
    for part in &parts.items {
        match part {
            Expr::Term(_) => {}
            Expr::App(_, _) | Expr::Tuple(_) | Expr::Call(_, _) => return false,
        }
    }
    true
}

/// The terms that the parts are.
fn terms_of(parts: Exprs, alloc: Global) -> Result<Terms, AllocError>
    requires { IsTrue (is_some (rules.terms_of parts)) }
    ensures { IfOk result (λ terms. rules.terms_of parts ≡ Some terms) }
{
    let mut items = Vec::new(alloc);
    for part in parts.items {
        match part {
            Expr::Term(term) => items.push(term)?,
            Expr::App(_, _) | Expr::Tuple(_) | Expr::Call(_, _) => unreachable!(),
        }
    }
    Ok(Terms { items })
}

/// A root over its parts: a constructor or a tuple of terms is a term.
fn merged(root: Root, parts: Exprs, alloc: Global) -> Result<Expr, AllocError>
    ensures { IfOk result (λ e. expression_of e ≡ rules.rooted (root_of root) parts) }
{
    match root {
        Root::Constructor(number) => {
            if are_terms(&parts) {
                Ok(Expr::Term(Term::App(number, terms_of(parts, alloc)?)))
            } else {
                Ok(Expr::App(number, parts))
            }
        }
        Root::Tuple => {
            if are_terms(&parts) {
                Ok(Expr::Term(Term::Tuple(terms_of(parts, alloc)?)))
            } else {
                Ok(Expr::Tuple(parts))
            }
        }
        Root::Destructor(number) => Ok(Expr::Call(number, parts)),
    }
}

/// A root over its parts, which have so many symbols with it.
fn rooted(token: usize, root: Root, parts: Exprs, symbols: u32, alloc: Global) -> Result<Expr, Stop>
    requires { symbols ≡ capped (1 + row_expression_size (trees parts)) }
    ensures read { Gives expression_of result
        (rules.sized token (rules.rooted (root_of root) parts)) }
    ensures made { IfOk result (λ e. expression_of e ≡ rules.rooted (root_of root) parts) }
{
    if symbols > MOST_WRITTEN_SYMBOLS {
        return Err(Stop::Fault(Code::TooMany, token));
    }
    Ok(merged(root, parts, alloc)?)
}

/// A tuple of these parts, with its extent.
fn tuple(
    token: usize,
    parts: Exprs,
    inner: Extent,
    scope: &Scope,
    alloc: Global,
) -> Result<(Expr, Extent), Stop>
    requires { CountsRow (rules_at (scope_of scope.now)) parts inner }
    ensures read { Gives (λ x. expression_of x.0) result (rules.tuple token parts) }
    ensures counted { IfOk result
        (λ x. CountsExpression (rules_at (scope_of scope.now)) (expression_of x.0) x.1) }
{
    if parts.items.len() > MOST_ARGUMENTS {
        return Err(Stop::Fault(Code::TooMany, token));
    }
    let extent = combined(inner, extent_of(scope, Root::Tuple));
    let whole = rooted(token, Root::Tuple, parts, extent.symbols, alloc)?;
    Ok((whole, extent))
}

/// What stands in parentheses: one part is itself, more are a tuple. With it comes its extent.
fn grouped(
    token: usize,
    mut parts: Exprs,
    inner: Extent,
    scope: &Scope,
    alloc: Global,
) -> Result<(Expr, Extent), Stop>
    requires { CountsRow (rules_at (scope_of scope.now)) parts inner }
    ensures read { Gives (λ x. expression_of x.0) result (rules.grouped token parts) }
    ensures counted { IfOk result
        (λ x. CountsExpression (rules_at (scope_of scope.now)) (expression_of x.0) x.1) }
{
    if parts.items.len() == 1 {
        if let Some(only) = parts.items.pop() {
            return Ok((only, inner));
        }
    }
    tuple(token, parts, inner, scope, alloc)
}

/// A bare identifier, which is a term, with its extent.
fn bare(token: usize, alloc: Global, place: &Place) -> Result<(Expr, Extent), Stop>
    ensures read { Gives (λ x. expression_of x.0) result
        (rules.bare (scope_of place.now.scope) (bound_of place.now.bound.now) token) }
    ensures counted { IfOk result
        (λ x. CountsExpression (rules_at (scope_of place.now.scope)) (expression_of x.0) x.1) }
{
    let leaf = process_leaf(&place.scope, alloc, place.bound, token)?;
    Ok((Expr::Term(leaf), one_symbol()))
}

/// A part of an expression, or the whole, with its extent.
#[cycle(part)]
fn part(sketch: &TermSketch, alloc: Global, place: &Place) -> Result<(Expr, Extent), Stop>
    ensures read { Gives (λ x. expression_of x.0) result (rules.part (scope_of place.now.scope)
        (bound_of place.now.bound.now) (sketched.term_of sketch.now)) }
    ensures counted { IfOk result
        (λ x. CountsExpression (rules_at (scope_of place.now.scope)) (expression_of x.0) x.1) }
{
    match sketch {
        TermSketch::Named(first, arguments) => {
            let given = count_of(arguments);
            if given == 0 {
                return bare(*first, alloc, place);
            }
            let root = named_root(&place.scope, *first, given)?;
            let (arguments, inner) = parts(arguments, alloc, place)?;
            let extent = combined(inner, extent_of(&place.scope, root));
            let whole = rooted(*first, root, arguments, extent.symbols, alloc)?;
            Ok((whole, extent))
        }
        TermSketch::Grouped(first, inside) => {
            let (inside, inner) = parts(inside, alloc, place)?;
            grouped(*first, inside, inner, &place.scope, alloc)
        }
    }
}

/// Parts in a row, with the extent of them all.
#[cycle(part)]
fn parts(sketches: &TermsSketch, alloc: Global, place: &Place) -> Result<(Exprs, Extent), Stop>
    ensures read { Gives (λ x. x.0) result (rules.parts (scope_of place.now.scope)
        (bound_of place.now.bound.now) (terms_sketch sketches.now)) }
    ensures counted { IfOk result
        (λ x. CountsRow (rules_at (scope_of place.now.scope)) x.0 x.1) }
{
    let mut items = Vec::new(alloc);
    let mut extent = Extent {
        symbols: 0,
        applications: 0,
        choices: 1,
    };
    for sketch in &sketches.items {
        let (item, more) = part(sketch, alloc, place)?;
        items.push(item)?;
        extent = combined(extent, more);
    }
    Ok((Exprs { items }, extent))
}

/// The first token of a sketch, parentheses round the whole of it counted.
fn first_token(sketch: &TermSketch) -> usize
    ensures { result ≡ rules.first_token (sketched.term_of sketch.now) }
{
    match sketch {
        TermSketch::Named(first, _) | TermSketch::Grouped(first, _) => *first,
    }
}

/// What a `let` evaluates, in a box: within the limits of applications of destructors, and of choices of a rule for each.
pub fn expression(sketch: &TermSketch, alloc: Global, place: &Place) -> Result<Box<Expr>, Stop>
    ensures { Gives (λ read. expression_of read.value) result (rules.expression
        (scope_of place.now.scope) (bound_of place.now.bound.now) (sketched.term_of sketch.now)) }
{
    let (read, extent) = part(sketch, alloc, place)?;
    let read = Box::new(alloc, read)?;
    if extent.applications > MOST_APPLICATIONS || extent.choices > MOST_CHOICES {
        return Err(Stop::Fault(Code::TooMany, first_token(sketch)));
    }
    Ok(read)
}
