//! Expressions in postfix order: what is done one after the other to evaluate them over a stack of values.

ghost use Rattle.std.specs.Prelude.{◌≡◌, ◌++◌, map, OnOk};
ghost use Rattle.spec_trees.specs.Tree.{trees};
ghost use Rattle.pi_tree.specs.Expressions.{expression_of};
ghost use Rattle.spec_choice_walks.specs.Instructions.{instructions, row_instructions};
ghost use Rattle.term_values.specs.Instructions.{instruction_of};

use pi_tree::{Expr, Exprs, Term};
use std::alloc::AllocError;

/// What is done to evaluate a part of an expression.
#[derive(Clone, Copy)]
pub enum Instruction<'a> {
    /// The value of the term goes onto the stack.
    Term(&'a Term),
    /// The constructor takes that many values, the second number, from the stack, and its value goes there.
    App(u32, usize),
    /// A tuple takes that many values from the stack, likewise.
    Tuple(usize),
    /// The destructor takes that many values, the second number, from the stack, and what a rule gives goes there.
    Call(u32, usize),
}

/// Lists what evaluates the expression, at the end of the list.
#[tactic(auto, using(crate::proofs::Postfix::of_postfix))]
#[cycle(list)]
pub fn list_instructions<'a>(
    expression: &'a Expr,
    list: &mut Vec<Instruction<'a>>,
) -> Result<(), AllocError>
    ensures { OnOk result (map instruction_of list.new.items ≡
        map instruction_of list.old.items ++ instructions (expression_of expression.now)) }
{
    match expression {
        Expr::Term(term) => {
            list.push(Instruction::Term(term))?;
            Ok(())
        }
        Expr::App(constructor, arguments) => {
            list_parts(arguments, list)?;
            list.push(Instruction::App(*constructor, arguments.items.len()))?;
            Ok(())
        }
        Expr::Tuple(parts) => {
            list_parts(parts, list)?;
            list.push(Instruction::Tuple(parts.items.len()))?;
            Ok(())
        }
        Expr::Call(destructor, arguments) => {
            list_parts(arguments, list)?;
            list.push(Instruction::Call(*destructor, arguments.items.len()))?;
            Ok(())
        }
    }
}

/// Lists what evaluates each of the expressions.
#[tactic(auto, using(crate::proofs::Postfix::of_postfix))]
#[cycle(list)]
fn list_parts<'a>(expressions: &'a Exprs, list: &mut Vec<Instruction<'a>>) -> Result<(), AllocError>
    ensures { OnOk result (map instruction_of list.new.items ≡
        map instruction_of list.old.items ++ row_instructions (trees expressions.now)) }
{
    for expression in &expressions.items {
        list_instructions(expression, list)?;
    }
    Ok(())
}
