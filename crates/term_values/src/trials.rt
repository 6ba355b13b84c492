//! Whether a choice of rules evaluates a value over the limit, be it that of a part. A part is searched for such a value
//! by itself only where the parts around it do not all have values: else its values stand in those of the whole, which
//! are larger.

ghost use Rattle.std.specs.Prelude.{◌≡◌, map, IfOk};
ghost use Rattle.std.specs.List.{list_any, flat_map};
ghost use Rattle.spec_trees.specs.Tree.{trees};
ghost use Rattle.spec_calculus.specs.Limits.{is_large};
ghost use Rattle.spec_calculus.specs.Choices.{choices, part_values};
ghost use Rattle.pi_tree.specs.Expressions.{expression_of};
ghost use Rattle.pi_tree.specs.Protocols.{protocol_of};
ghost use Rattle.term_values.specs.RuleTests.{has_rules, has_row_rules};
ghost use Rattle.term_values.specs.Trying.{has_value, large_value, large_part, IsTried, IsRowTried, with_next, called_tried};

use crate::labels::Context;
use crate::rules::rules_of;
use crate::searching::{has_value, some_value_large};
use pi_tree::{Expr, Exprs, Protocol};
use std::alloc::AllocError;

/// What is found of an expression, or of a row of them, by trying its choices of rules.
#[derive(Clone, Copy)]
pub enum Found {
    /// A value of it, or of a part, has more symbols than the limit.
    Large,
    /// It has no value, and no value of a part has.
    NoValue,
    /// It has a value; a value of a part has more symbols than the limit only where one of it has.
    SomeValue,
}

/// Whether a value of one of the expressions has more symbols than the limit.
fn some_value_large_in(expressions: &[Expr], context: &Context) -> Result<bool, AllocError>
    ensures { IfOk result (λ b. b ≡ list_any (large_value
        (protocol_of context.now.protocol.now) context.now.environment.now)
        (map expression_of expressions.now)) }
{
    for expression in expressions {
        if some_value_large(context, expression)? {
            return Ok(true);
        }
    }
    Ok(false)
}

/// What is known of a row with one more expression, from what was found of the row so far and of the expression.
fn with_next(
    earlier: &[Expr],
    so_far: Found,
    next: &Expr,
    found: Found,
    context: &Context,
) -> Result<Found, AllocError>
    ensures { IfOk result (λ tried. tried ≡ with_next so_far found (list_any (large_value
        (protocol_of context.now.protocol.now) context.now.environment.now)
        (map expression_of earlier.now)) (large_value
        (protocol_of context.now.protocol.now) context.now.environment.now
        (expression_of next.now))) }
{
    match so_far {
        Found::Large => Ok(Found::Large),
        Found::NoValue => match found {
            Found::Large => Ok(Found::Large),
            Found::NoValue => Ok(Found::NoValue),
            Found::SomeValue => {
                if some_value_large(context, next)? {
                    Ok(Found::Large)
                } else {
                    Ok(Found::NoValue)
                }
            }
        },
        Found::SomeValue => match found {
            Found::Large => Ok(Found::Large),
            Found::NoValue => {
                if some_value_large_in(earlier, context)? {
                    Ok(Found::Large)
                } else {
                    Ok(Found::NoValue)
                }
            }
            Found::SomeValue => Ok(Found::SomeValue),
        },
    }
}

/// What is found of a destructor on its arguments, from what was found of these.
fn called(
    of_arguments: Found,
    arguments: &Exprs,
    expression: &Expr,
    context: &Context,
) -> Result<Found, AllocError>
    ensures { IfOk result (λ tried. tried ≡ called_tried of_arguments (list_any (large_value
        (protocol_of context.now.protocol.now) context.now.environment.now) arguments.now)
        (large_value (protocol_of context.now.protocol.now) context.now.environment.now
        (expression_of expression.now))
        (has_value (protocol_of context.now.protocol.now) context.now.environment.now
        (expression_of expression.now))) }
{
    match of_arguments {
        Found::Large => Ok(Found::Large),
        Found::NoValue => Ok(Found::NoValue),
        Found::SomeValue => {
            if some_value_large_in(&arguments.items, context)?
                || some_value_large(context, expression)?
            {
                return Ok(Found::Large);
            }
            if has_value(context, expression)? {
                Ok(Found::SomeValue)
            } else {
                Ok(Found::NoValue)
            }
        }
    }
}

/// Tries the choices of rules of the expression, and of its parts.
#[cycle(trying)]
fn try_choices(expression: &Expr, context: &Context) -> Result<Found, AllocError>
    ensures { IfOk result (λ tried. IsTried (protocol_of context.now.protocol.now)
        context.now.environment.now tried (expression_of expression.now)) }
{
    match expression {
        Expr::Term(_) => Ok(Found::SomeValue),
        Expr::App(_, arguments) => try_each(arguments, context),
        Expr::Tuple(parts) => try_each(parts, context),
        Expr::Call(_, arguments) => {
            let of_arguments = try_each(arguments, context)?;
            called(of_arguments, arguments, expression, context)
        }
    }
}

/// Tries those of each of the expressions.
#[cycle(trying)]
fn try_each(expressions: &Exprs, context: &Context) -> Result<Found, AllocError>
    ensures { IfOk result (λ tried. IsRowTried (protocol_of context.now.protocol.now)
        context.now.environment.now tried expressions.now) }
{
    let mut so_far = Found::SomeValue;
    for (index, expression) in expressions.items.iter().enumerate() {
        let found = try_choices(expression, context)?;
        so_far = with_next(
            &expressions.items[..index],
            so_far,
            expression,
            found,
            context,
        )?;
    }
    Ok(so_far)
}

/// Whether a value of the expression, or of a part of it, has more symbols than the limit.
fn some_large_part(expression: &Expr, context: &Context) -> Result<bool, AllocError>
    ensures { IfOk result (λ b. b ≡ large_part (protocol_of context.now.protocol.now)
        context.now.environment.now (expression_of expression.now)) }
{
    match try_choices(expression, context)? {
        Found::Large => Ok(true),
        Found::NoValue => Ok(false),
        Found::SomeValue => some_value_large(context, expression),
    }
}

/// Whether each destructor that the expression applies has a rule.
#[cycle(ruled)]
fn has_rules(expression: &Expr, protocol: &Protocol) -> bool
    ensures { result ≡ has_rules (protocol_of protocol.now) (expression_of expression.now) }
{
    match expression {
        Expr::Term(_) => true,
        Expr::App(_, arguments) => have_rules(arguments, protocol),
        Expr::Tuple(parts) => have_rules(parts, protocol),
        Expr::Call(destructor, arguments) => {
            !rules_of(protocol, *destructor).is_empty() && have_rules(arguments, protocol)
        }
    }
}

/// Whether each destructor that the expressions apply has a rule.
#[cycle(ruled)]
fn have_rules(expressions: &Exprs, protocol: &Protocol) -> bool
    ensures { result ≡ has_row_rules (protocol_of protocol.now) (trees expressions.now) }
{
    for expression in &expressions.items {
        if !has_rules(expression, protocol) {
            return false;
        }
    }
    true
}

/// Whether a choice of rules for the expression evaluates a value with more symbols than the limit, be it that of a
/// part.
pub fn some_large_tried(context: &Context, expression: &Expr) -> Result<bool, AllocError>
    ensures { IfOk result (λ b. b ≡ list_any is_large
        (flat_map (λ c. part_values context.now.environment.now c.ruled)
        (choices (protocol_of context.now.protocol.now) (expression_of expression.now)))) }
{
    if has_rules(expression, context.protocol) {
        some_large_part(expression, context)
    } else {
        Ok(false)
    }
}
