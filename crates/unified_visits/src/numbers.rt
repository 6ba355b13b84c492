//! New variables: the numbers that patterns and rules take.

ghost use Rattle.std.specs.Prelude.{◌≡◌, ◌++◌, IfOk, OnOk};
ghost use Rattle.spec_trees.specs.Tree.{trees};
ghost use Rattle.spec_calculus.specs.Tables.{row_pattern};
ghost use Rattle.pi_tree.specs.Patterns.{pattern_of};
ghost use Rattle.spec_translation.specs.Conversion.{bound_numbers};
ghost use Rattle.unified_visits.specs.Numbers.{row_numbers};

use pi_tree::{Pat, Pats};
use std::alloc::{AllocError, Global};

/// Adds the variables that a pattern binds, in order.
#[cycle(bound)]
fn add_bound(pattern: &Pat, numbers: &mut Vec<u32>) -> Result<(), AllocError>
    ensures { OnOk result (numbers.new.items ≡ numbers.old.items
        ++ bound_numbers (pattern_of pattern.now)) }
{
    match pattern {
        Pat::Bind(number) => {
            numbers.push(*number)?;
            Ok(())
        }
        Pat::Equal(_) => Ok(()),
        Pat::App(_, arguments) => add_all_bound(arguments, numbers),
        Pat::Tuple(parts) => add_all_bound(parts, numbers),
    }
}

/// Adds the variables that patterns bind, in order.
#[cycle(bound)]
fn add_all_bound(patterns: &Pats, numbers: &mut Vec<u32>) -> Result<(), AllocError>
    ensures { OnOk result (numbers.new.items ≡ numbers.old.items
        ++ row_numbers (trees patterns.now)) }
{
    'each: for pattern in &patterns.items {
        add_bound(pattern, numbers)?;
    }
    Ok(())
}

/// The variables that patterns bind, in order.
pub fn bound_numbers_in(alloc: Global, patterns: &Pats) -> Result<Vec<u32>, AllocError>
    ensures { IfOk result (λ numbers. numbers.items ≡ bound_numbers (row_pattern patterns.now)) }
{
    let mut numbers = Vec::new(alloc);
    add_all_bound(patterns, &mut numbers)?;
    Ok(numbers)
}

/// The variables that a pattern binds, in order.
pub fn bound_numbers(alloc: Global, pattern: &Pat) -> Result<Vec<u32>, AllocError>
    ensures { IfOk result (λ numbers. numbers.items ≡ bound_numbers (pattern_of pattern.now)) }
{
    let mut numbers = Vec::new(alloc);
    add_bound(pattern, &mut numbers)?;
    Ok(numbers)
}
