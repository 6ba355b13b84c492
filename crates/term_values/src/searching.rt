//! The values of an expression, one after the other, until one passes a test. The choices of rules are gone through
//! depth first: what the rules chosen so far give stands on one stack, and serves all choices that begin with them.

ghost use Rattle.std.specs.Prelude.{List, ◌≡◌, ◌-◌, ◌++◌, [], ◌∷◌, length, map, take, drop, is_some, is_none, true, false, filter_map, IfOk, IfSome, OnOk};
ghost use Rattle.std.specs.List.{list_any};
ghost use Rattle.spec_trees.specs.Tree.{node};
ghost use Rattle.spec_calculus.specs.Limits.{is_large};
ghost use Rattle.spec_calculus.specs.Matching as calculus;
ghost use Rattle.spec_calculus.specs.Choices.{values_at};
ghost use Rattle.spec_calculus.specs.Syntax.{Symbol};
ghost use Rattle.spec_calculus.specs.Values as values;
ghost use Rattle.pi_tree.specs.Expressions.{expression_of};
ghost use Rattle.pi_tree.specs.Patterns.{pattern_of};
ghost use Rattle.pi_tree.specs.Protocols.{protocol_of};
ghost use Rattle.pi_tree.specs.Rules.{rule_of};
ghost use Rattle.pi_tree.specs.Values.{value_of};
ghost use Rattle.term_values.specs.Instructions.{instruction_of};
ghost use Rattle.term_values.specs.RuleTests.{is_filled};
ghost use Rattle.term_values.specs.Searching.{some_end, answer, passes, protocol_in};

use crate::evaluation::evaluate;
use crate::instructions::{Instruction, list_instructions};
use crate::labels::Context;
use crate::matching::matched;
use crate::rules::rules_of;
use crate::sizes::is_large;
use destructor_rules::rule_value;
use pi_tree::{Expr, Pat, Rule, Value, Values};
use std::alloc::{AllocError, Global};

/// What is asked of a value.
#[derive(Clone, Copy)]
pub enum Question<'a> {
    /// Does it match the pattern?
    Matches(&'a Pat),
    /// Has it more symbols than the limit?
    IsLarge,
    /// Is there one?
    IsThere,
}

/// A question about the values of an expression.
#[derive(Clone, Copy)]
pub struct Search<'a> {
    pub context: Context<'a>,
    pub question: Question<'a>,
}

/// Takes that many values off the top of the stack; all, where there are fewer.
fn taken(stack: &mut Values, count: usize) -> Result<Values, AllocError>
    ensures top { IfOk result (λ vs. vs ≡ drop (length stack.old - count) stack.old) }
    ensures rest { OnOk result (stack.new ≡ take (length stack.old - count) stack.old) }
{
    let at = stack.items.len().saturating_sub(count);
    let items = stack.items.split_off(at)?;
    Ok(Values { items })
}

/// Puts values onto the stack.
fn put(stack: &mut Values, mut values: Values) -> Result<(), AllocError>
    ensures { OnOk result (stack.new ≡ stack.old ++ values) }
{
    stack.items.append(&mut values.items)?;
    Ok(())
}

/// The arguments of a constructor, or the parts of a tuple.
fn parts_of(alloc: Global, value: Value) -> Values
    ensures { (f : Symbol) (vs : List values.Value) → value_of value ≡ node f vs → result ≡ vs }
{
    match value {
        Value::App(_, arguments) => arguments,
        Value::Tuple(parts) => parts,
        Value::Free(_) | Value::Made(..) | Value::Fresh(_) => Values {
            items: Vec::new(alloc),
        },
    }
}

impl Search<'_> {
    /// Whether the value passes.
    fn passes(&self, value: &Value) -> Result<bool, AllocError>
        ensures { IfOk result (λ b. b ≡ passes self.now (value_of value.now)) }
    {
        match self.question {
            Question::Matches(pattern) => {
                let bindings = matched(
                    self.context.alloc,
                    self.context.environment,
                    pattern,
                    value,
                )?;
                Ok(bindings.is_some())
            }
            Question::IsLarge => Ok(is_large(value)),
            Question::IsThere => Ok(true),
        }
    }

    /// Whether one of the values passes.
    fn some_pass(&self, values: &[Value]) -> Result<bool, AllocError>
        ensures { IfOk result (λ b. b ≡ list_any (passes self.now) (map value_of values.now)) }
    {
        for value in values {
            if self.passes(value)? {
                return Ok(true);
            }
        }
        Ok(false)
    }

    /// Whether a value passes with which the instructions end, begun with this stack. Where none does, the stack is as it
    /// was.
    #[cycle(search)]
    fn some_end(&self, instructions: &[Instruction], stack: &mut Values) -> Result<bool, AllocError>
        ensures passes { IfOk result (λ b. b ≡ some_end (passes self.now) (protocol_in self.now)
            self.now.context.environment.now (map instruction_of instructions.now) stack.old) }
        ensures kept { IfOk result (λ b. b ≡ false → stack.new ≡ stack.old) }
    {
        let Some((first, later)) = instructions.split_first() else {
            return self.some_pass(&stack.items);
        };
        match first {
            Instruction::Term(term) => {
                let value = evaluate(term, self.context.alloc, self.context.environment)?;
                let back = self.some_end_above(later, stack, value)?;
                Ok(back.is_none())
            }
            Instruction::App(constructor, count) => {
                let arguments = taken(stack, *count)?;
                self.some_end_over(later, stack, Value::App(*constructor, arguments))
            }
            Instruction::Tuple(count) => {
                let parts = taken(stack, *count)?;
                self.some_end_over(later, stack, Value::Tuple(parts))
            }
            Instruction::Call(destructor, count) => {
                let arguments = taken(stack, *count)?;
                let rules = rules_of(self.context.protocol, *destructor);
                if self.some_end_by(later, stack, rules, &arguments.items)? {
                    return Ok(true);
                }
                put(stack, arguments)?;
                Ok(false)
            }
        }
    }

    /// The same with the value on top of the stack; `None` where one passes, and else the value.
    #[cycle(search)]
    fn some_end_above(
        &self,
        later: &[Instruction],
        stack: &mut Values,
        value: Value,
    ) -> Result<Option<Value>, AllocError>
        ensures passes { IfOk result (λ back. is_none back ≡ some_end (passes self.now)
            (protocol_in self.now) self.now.context.environment.now
            (map instruction_of later.now) (stack.old ++ value_of value ∷ [])) }
        ensures back { IfOk result (λ back. IfSome back (λ v. value_of v ≡ value_of value)) }
        ensures kept { IfOk result (λ back. IfSome back (λ v. stack.new ≡ stack.old)) }
    {
        stack.items.push(value)?;
        if self.some_end(later, stack)? {
            return Ok(None);
        }
        Ok(stack.items.pop())
    }

    /// The same with a value whose parts were taken off the stack; where none passes, they are put back.
    #[cycle(search)]
    fn some_end_over(
        &self,
        later: &[Instruction],
        stack: &mut Values,
        value: Value,
    ) -> Result<bool, AllocError>
        ensures passes { IfOk result (λ b. b ≡ some_end (passes self.now) (protocol_in self.now)
            self.now.context.environment.now (map instruction_of later.now)
            (stack.old ++ value_of value ∷ [])) }
        ensures kept { (f : Symbol) (vs : List values.Value) → value_of value ≡ node f vs →
            IfOk result (λ b. b ≡ false → stack.new ≡ stack.old ++ vs) }
    {
        match self.some_end_above(later, stack, value)? {
            None => Ok(true),
            Some(value) => {
                put(stack, parts_of(self.context.alloc, value))?;
                Ok(false)
            }
        }
    }

    /// The same with what one of the rules gives of the arguments on top of the stack.
    #[cycle(search)]
    fn some_end_by(
        &self,
        later: &[Instruction],
        stack: &mut Values,
        rules: &[Rule],
        arguments: &[Value],
    ) -> Result<bool, AllocError>
        ensures passes { IfOk result (λ b. b ≡ list_any (λ v. some_end (passes self.now)
            (protocol_in self.now) self.now.context.environment.now
            (map instruction_of later.now) (stack.old ++ v ∷ []))
            (filter_map (λ rule. calculus.rule_value rule (map value_of arguments.now))
            (map rule_of rules.now))) }
        ensures kept { IfOk result (λ b. b ≡ false → stack.new ≡ stack.old) }
    {
        for rule in rules {
            if let Some(value) = rule_value(self.context.alloc, rule, arguments)? {
                if self.some_end_above(later, stack, value)?.is_none() {
                    return Ok(true);
                }
            }
        }
        Ok(false)
    }

    /// Whether a value of the expression passes.
    fn some_value(&self, expression: &Expr) -> Result<bool, AllocError>
        ensures { IfOk result (λ b. b ≡ list_any (passes self.now) (values_at
            (protocol_in self.now) self.now.context.environment.now
            (expression_of expression.now))) }
    {
        let mut instructions = Vec::new(self.context.alloc);
        list_instructions(expression, &mut instructions)?;
        let mut stack = Values {
            items: Vec::new(self.context.alloc),
        };
        self.some_end(&instructions, &mut stack)
    }
}

/// Whether a value of the expression matches the pattern.
pub fn some_value_matches(
    context: &Context,
    pattern: &Pat,
    expression: &Expr,
) -> Result<bool, AllocError>
    ensures { IfOk result (λ b. b ≡ list_any (λ v. is_some (calculus.matched
        context.now.environment.now (pattern_of pattern.now) v))
        (values_at (protocol_of context.now.protocol.now) context.now.environment.now
        (expression_of expression.now))) }
{
    let search = Search {
        context: *context,
        question: Question::Matches(pattern),
    };
    search.some_value(expression)
}

/// Whether a value of the expression has more symbols than the limit.
pub fn some_value_large(context: &Context, expression: &Expr) -> Result<bool, AllocError>
    ensures { IfOk result (λ b. b ≡ list_any is_large
        (values_at (protocol_of context.now.protocol.now) context.now.environment.now
        (expression_of expression.now))) }
{
    let search = Search {
        context: *context,
        question: Question::IsLarge,
    };
    search.some_value(expression)
}

/// Whether the expression has a value.
#[tactic(auto, using(crate::proofs::Searched::of_filled))]
pub fn has_value(context: &Context, expression: &Expr) -> Result<bool, AllocError>
    ensures { IfOk result (λ b. b ≡ is_filled
        (values_at (protocol_of context.now.protocol.now) context.now.environment.now
        (expression_of expression.now))) }
{
    let search = Search {
        context: *context,
        question: Question::IsThere,
    };
    search.some_value(expression)
}
