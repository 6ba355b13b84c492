//! The value of an expression by chosen rules: their numbers are taken from the front of a label, those of arguments
//! before that of the destructor on them (Blanchet 2016, section 2.2).

ghost use Rattle.std.specs.Prelude.{◌≡◌, ◌||◌, [], map, option_map, option_copied, IfOk, IfSome};
ghost use Rattle.std.specs.List.{list_any};
ghost use Rattle.std.specs.Option.{option_map_or};
ghost use Rattle.spec_trees.specs.Tree.{trees};
ghost use Rattle.spec_calculus.specs.Limits.{is_large};
ghost use Rattle.spec_calculus.specs.Choices as calculus;
ghost use Rattle.spec_calculus.specs.Choices.{choice_at, part_values};
ghost use Rattle.pi_tree.specs.Expressions.{expression_of};
ghost use Rattle.pi_tree.specs.Protocols.{protocol_of};
ghost use Rattle.pi_tree.specs.Rules.{rule_of};
ghost use Rattle.pi_tree.specs.Values.{value_of};
ghost use Rattle.term_values.specs.Labelled.{called, labelled, labelled_row, labelled_of, labelled_row_of, numbers_of};

use crate::environments::Environment;
use crate::evaluation::evaluate;
use crate::rules::{rules_of, value_by_rule};
use crate::sizes::{is_large, is_large_term};
use pi_tree::{Expr, Exprs, Protocol, Rule, Value, Values};
use std::alloc::{AllocError, Global};

/// Where expressions are evaluated: the protocol has the rules, and the environment what is bound.
#[derive(Clone, Copy)]
pub struct Context<'a> {
    pub alloc: Global,
    pub protocol: &'a Protocol,
    pub environment: &'a Environment,
}

/// A value by chosen rules.
#[derive(Drop)]
pub struct Labelled<'a> {
    pub value: Value,
    /// Whether it, or the value of a part, has more symbols than the limit.
    pub large: bool,
    /// The numbers that are left.
    pub numbers: &'a [u32],
}

/// Values by chosen rules.
#[derive(Drop)]
pub struct LabelledRow<'a> {
    pub values: Values,
    /// Whether one of them, or the value of a part, has more symbols than the limit.
    pub large: bool,
    /// The numbers that are left.
    pub numbers: &'a [u32],
}

/// A value that was made of others, some of which may be large.
fn built(value: Value, large: bool, numbers: &[u32]) -> Labelled<'_>
    ensures { labelled_of result ≡ record {
      value = value_of value;
      large = large || is_large (value_of value);
      numbers = numbers.now;
    } }
{
    let large = large || is_large(&value);
    Labelled {
        value,
        large,
        numbers,
    }
}

/// What the rule of the next number gives of the values, if there is such a rule and it applies.
#[tactic(auto, unfolding(crate::specs::ByRules::by_rule))]
fn called<'a>(
    alloc: Global,
    rules: &[Rule],
    row: LabelledRow<'a>,
) -> Result<Option<Labelled<'a>>, AllocError>
    ensures { IfOk result (λ o. option_map labelled_of o ≡
        called (map rule_of rules.now) (labelled_row_of row.entry) row.entry.numbers.now) }
{
    match row.numbers.split_first() {
        None => Ok(None),
        Some((number, numbers)) => {
            match value_by_rule(alloc, rules, *number, &row.values.items)? {
                None => Ok(None),
                Some(value) => Ok(Some(built(value, row.large, numbers))),
            }
        }
    }
}

/// The value by the rules whose numbers come first, if there are such rules and all apply.
#[cycle(reading)]
fn read_value<'a>(
    expression: &Expr,
    context: &Context,
    numbers: &'a [u32],
) -> Result<Option<Labelled<'a>>, AllocError>
    ensures { IfOk result (λ o. option_map labelled_of o ≡
        labelled (protocol_of context.now.protocol.now) context.now.environment.now
        (expression_of expression.now) numbers.now) }
{
    match expression {
        Expr::Term(term) => {
            let large = is_large_term(term, context.environment);
            let value = evaluate(term, context.alloc, context.environment)?;
            Ok(Some(Labelled {
                value,
                large,
                numbers,
            }))
        }
        Expr::App(constructor, arguments) => match read_values(arguments, context, numbers)? {
            None => Ok(None),
            Some(row) => {
                let value = Value::App(*constructor, row.values);
                Ok(Some(built(value, row.large, row.numbers)))
            }
        },
        Expr::Tuple(parts) => match read_values(parts, context, numbers)? {
            None => Ok(None),
            Some(row) => Ok(Some(built(Value::Tuple(row.values), row.large, row.numbers))),
        },
        Expr::Call(destructor, arguments) => match read_values(arguments, context, numbers)? {
            None => Ok(None),
            Some(row) => called(context.alloc, rules_of(context.protocol, *destructor), row),
        },
    }
}

/// The values of the expressions, likewise.
#[tactic(auto, using(crate::proofs::Behind::of_rows))]
#[cycle(reading)]
fn read_values<'a>(
    expressions: &Exprs,
    context: &Context,
    numbers: &'a [u32],
) -> Result<Option<LabelledRow<'a>>, AllocError>
    ensures { IfOk result (λ o. option_map labelled_row_of o ≡
        labelled_row (protocol_of context.now.protocol.now) context.now.environment.now
        (trees expressions.now) numbers.now) }
{
    let mut items = Vec::with_capacity(context.alloc, expressions.items.len())?;
    let mut large = false;
    let mut left = numbers;
    for expression in &expressions.items {
        let Some(next) = read_value(expression, context, left)? else {
            return Ok(None);
        };
        items.push(next.value)?;
        large = large || next.large;
        left = next.numbers;
    }
    Ok(Some(LabelledRow {
        values: Values { items },
        large,
        numbers: left,
    }))
}

/// The value of a label.
pub struct Valued {
    pub value: Value,
    /// Whether it, or the value of a part by the same rules, has more symbols than the limit.
    pub large: bool,
}

impl Drop for Valued {
    fn drop(self) {
        let Valued { value, large: _ } = self;
        drop(value);
    }
}

/// The numbers of the rules that a label tells: none for 0 alone; a label has a number at least.
fn numbers_of(label: &[u32]) -> Option<&[u32]>
    ensures { option_copied result ≡ numbers_of label.now }
{
    match label {
        [] => None,
        [0] => Some(&[]),
        _ => Some(label),
    }
}

/// The value of that label, 0 alone for an expression without destructors and else the numbers of the rules; `None`
/// where there is no such choice of rules, or they do not all apply.
pub fn value_at(
    context: &Context,
    expression: &Expr,
    label: &[u32],
) -> Result<Option<Valued>, AllocError>
    ensures value { IfOk result (λ o. option_map (λ v. value_of v.value) o ≡
        calculus.value_at (protocol_of context.now.protocol.now) context.now.environment.now
        (expression_of expression.now) label.now) }
    ensures large { IfOk result (λ o. IfSome o (λ v. v.large ≡ list_any is_large (option_map_or
        (λ c. part_values context.now.environment.now c.ruled)
        (choice_at (protocol_of context.now.protocol.now) (expression_of expression.now) label.now)
        []))) }
{
    let Some(numbers) = numbers_of(label) else {
        return Ok(None);
    };
    match read_value(expression, context, numbers)? {
        None => Ok(None),
        Some(found) => match found.numbers {
            [] => Ok(Some(Valued {
                value: found.value,
                large: found.large,
            })),
            _ => {
                drop(found);
                Ok(None)
            }
        },
    }
}
