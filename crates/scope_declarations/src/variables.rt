//! The variables of a rule or query.

ghost use Rattle.std.specs.Prelude.{◌≡◌, ◌+◌, ◌≤◌, ◌++◌, ◌∷◌, [], None, length, OnOk};
ghost use Rattle.spec_protocol_scope.specs.Names as rules;
ghost use Rattle.scope_declarations.specs.Text.{texts_of};
ghost use Rattle.scope_declarations.specs.Variables.{FindsVariables};
ghost use Rattle.scope_declarations.specs.Within.{most_bound};
ghost use Rattle.scope_declarations.specs.declared.source.Text.{Text};

use crate::source::Text;
use crate::text::text_of;
use std::alloc::{AllocError, Global};
use std::collections::HashMap;

/// The variables of a rule or query, each by the token where it stands first, and their numbers, found by the hash of
/// their words. Its `drop` is written out, so that it is one call wherever variables are let go.
pub struct Variables {
    pub items: Vec<usize>,
    pub numbers: HashMap<Vec<u8>, u32>,
}

impl Drop for Variables {
    fn drop(self) {
        let Variables { items, numbers } = self;
        drop(items);
        drop(numbers);
    }
}

impl Variables {
    /// None. Takes no memory.
    pub fn new(alloc: Global) -> Self
        ensures items { result.items.items ≡ [] }
        ensures finds { (t : Text) → FindsVariables t result }
    {
        Variables {
            items: Vec::new(alloc),
            numbers: HashMap::new(alloc),
        }
    }
}

/// How many variables these are: no more than the tokens, and one.
pub fn count_of(whole: &Text, variables: &Variables) -> u32
    requires { FindsVariables whole.now variables.now }
    ensures count { result ≡ length variables.now.items.items }
    ensures few { result ≤ most_bound }
{
    variables.items.len() as u32
}

/// The number of the variable that is spelled so, from 1.
pub fn variable_of(whole: &Text, variables: &Variables, token: usize) -> Option<u32>
    requires { FindsVariables whole.now variables.now }
    ensures { result ≡ rules.variable_of (texts_of whole.now) variables.now.items.items token }
{
    variables.numbers.get(text_of(whole, token)).copied()
}

/// Takes a variable that stands here first, and has this number.
pub fn add_variable(
    variables: &mut Variables,
    alloc: Global,
    whole: &Text,
    token: usize,
    number: u32,
) -> Result<(), AllocError>
    requires finds { FindsVariables whole.now variables.old }
    requires fresh { rules.variable_of (texts_of whole.now) variables.old.items.items token ≡ None }
    requires next { number ≡ length variables.old.items.items + 1 }
    ensures items { OnOk result
        (variables.new.items.items ≡ variables.old.items.items ++ token ∷ []) }
    ensures finds { OnOk result (FindsVariables whole.now variables.new) }
{
    let word = Vec::from_slice(alloc, text_of(whole, token))?;
    variables.numbers.insert(word, number)?;
    variables.items.push(token)?;
    Ok(())
}
