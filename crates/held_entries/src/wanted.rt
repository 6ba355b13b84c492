//! What a `get` asks of an entry: that its values match the patterns, and that the condition's two terms have equal values
//! with what these bind.

ghost use Rattle.std.specs.Prelude.{◌≡◌, [], ◌++◌, map, slice_get, Some, option_map, option_and_then, IfOk, IfSome};
ghost use Rattle.std.specs.List.{list_any};
ghost use Rattle.std.specs.Option.{option_map_or};
ghost use Rattle.spec_trees.specs.Tree.{Leaf};
ghost use Rattle.spec_calculus.specs.Limits.{is_large};
ghost use Rattle.spec_calculus.specs.Syntax.{Equal};
ghost use Rattle.spec_calculus.specs.Tables.{if_met, meets, row_value, sides};
ghost use Rattle.spec_calculus.specs.Values.{values_of};
ghost use Rattle.pi_tree.specs.Processes.{condition_of};
ghost use Rattle.pi_tree.specs.Terms.{term_of};
ghost use Rattle.pi_tree.specs.Values.{value_of};
ghost use Rattle.held_entries.specs.Wanted.{bound_of_row, sides_with, IsClassOf};

use crate::keys::{class_at, table_class};
use pi_tree::{Pat, Pats, Term, Value};
use std::alloc::{AllocError, Global};
use term_values::{Bound, Environment, evaluate, is_large_term, is_value_of, matched_row};

/// What a `get` asks of an entry, and what its thread has bound.
#[derive(Clone, Copy)]
pub struct Wanted<'a> {
    pub alloc: Global,
    pub environment: &'a Environment,
    pub patterns: &'a Pats,
    pub condition: &'a Option<(Term, Term)>,
}

/// Whether the condition's two terms have equal values; true where there is none.
fn meets(
    alloc: Global,
    condition: &Option<(Term, Term)>,
    environment: &Environment,
) -> Result<bool, AllocError>
    ensures { IfOk result (λ b. b ≡ meets environment.now (condition_of condition.now)) }
{
    match condition {
        None => Ok(true),
        Some((left, right)) => {
            let value = evaluate(right, alloc, environment)?;
            Ok(is_value_of(left, &value, &Bound::All(environment)))
        }
    }
}

/// Whether the value of one of the condition's terms has more symbols than the limit.
pub fn some_large_side(condition: &Option<(Term, Term)>, environment: &Environment) -> bool
    ensures { result ≡ list_any is_large (values_of environment.now
        (sides (condition_of condition.now))) }
{
    match condition {
        None => false,
        Some((left, right)) => {
            is_large_term(left, environment) || is_large_term(right, environment)
        }
    }
}

/// The first pattern that is a term to be equal to, and its column, counted from 0.
#[tactic(auto, using(crate::proofs::Finding::of_columns))]
fn first_equal(patterns: &Pats) -> Option<(usize, &Term)>
    ensures { IfSome result (λ found.
        slice_get patterns.now found.0 ≡ Some (Leaf (Equal (term_of found.1.now)))) }
{
    for (column, pattern) in patterns.items.iter().enumerate() {
        if let Pat::Equal(term) = pattern {
            return Some((column, term));
        }
    }
    None
}

impl Wanted<'_> {
    /// A class of entries of the table, among which all are that match the patterns: by the first column that is compared,
    /// or where there is none by the table alone. `None` where the value of what is compared is over the limit of size.
    #[tactic(auto, using(crate::proofs::Finding::of_classes))]
    pub(crate) fn class(&self, table: u32) -> Result<Option<usize>, AllocError>
        ensures { IfOk result (λ o. IfSome o (IsClassOf self.now table)) }
    {
        match first_equal(self.patterns) {
            None => Ok(Some(table_class(table))),
            Some((column, term)) => {
                if is_large_term(term, self.environment) {
                    return Ok(None);
                }
                let value = evaluate(term, self.alloc, self.environment)?;
                Ok(Some(class_at(table, column, &value)))
            }
        }
    }

    /// The thread's environment and what the patterns bind of the entry of these values, where it may be taken, if it is of
    /// the table.
    #[tactic(auto, using(crate::proofs::Wanting::of_wanting))]
    pub(crate) fn taken(&self, values: &[Value]) -> Result<Option<Environment>, AllocError>
        ensures { IfOk result (λ o. o ≡ option_map (λ bs. self.now.environment.now ++ bs)
            (option_and_then (if_met self.now.environment.now (condition_of self.now.condition.now))
            (bound_of_row self.now (row_value (map value_of values.now))))) }
    {
        let bindings = match matched_row(self.alloc, self.environment, self.patterns, values)? {
            None => return Ok(None),
            Some(bindings) => bindings,
        };
        let environment = self.environment.extended(self.alloc, bindings)?;
        if meets(self.alloc, self.condition, &environment)? {
            Ok(Some(environment))
        } else {
            Ok(None)
        }
    }

    /// Whether the value of one of the condition's terms has more symbols than the limit with the entry of these values,
    /// where it matches.
    #[tactic(auto, using(crate::proofs::Wanting::of_wanting))]
    pub(crate) fn is_large_with(&self, values: &[Value]) -> Result<bool, AllocError>
        ensures { IfOk result (λ b. b ≡ list_any is_large (option_map_or (sides_with self.now)
            (bound_of_row self.now (row_value (map value_of values.now))) [])) }
    {
        let bindings = match matched_row(self.alloc, self.environment, self.patterns, values)? {
            None => return Ok(false),
            Some(bindings) => bindings,
        };
        let environment = self.environment.extended(self.alloc, bindings)?;
        Ok(some_large_side(self.condition, &environment))
    }
}
