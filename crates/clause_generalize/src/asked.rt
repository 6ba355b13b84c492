//! What a query asks of events.

use pi_tree::{Alternatives, Atom, Query, Term, Terms};
use std::alloc::{AllocError, Global};

/// An event that stands on the right side of a query, and which of its arguments the query leaves free.
#[derive(Drop)]
pub(crate) struct Required {
    pub event: u32,
    pub free: Vec<bool>,
}

/// What a query asks of events: which one stands on its left side, if one does, and which on its right side.
#[derive(Drop)]
pub struct Asked {
    left: Option<u32>,
    required: Vec<Required>,
}

/// Adds the variables of a term, each as often as it occurs.
#[cycle(asked_variables)]
fn add_variables(term: &Term, numbers: &mut Vec<u32>) -> Result<(), AllocError> {
    match term {
        Term::Var(number) => {
            numbers.push(*number)?;
            Ok(())
        }
        Term::Free(_) | Term::Made(_) => Ok(()),
        Term::App(_, arguments) => add_all_variables(arguments, numbers),
        Term::Tuple(parts) => add_all_variables(parts, numbers),
    }
}

/// Adds the variables of terms.
#[cycle(asked_variables)]
fn add_all_variables(terms: &Terms, numbers: &mut Vec<u32>) -> Result<(), AllocError> {
    for term in &terms.items {
        add_variables(term, numbers)?;
    }
    Ok(())
}

/// Adds the variables of the events of all alternatives.
fn add_alternatives(alternatives: &Alternatives, numbers: &mut Vec<u32>) -> Result<(), AllocError> {
    for atoms in &alternatives.items {
        for atom in &atoms.items {
            add_all_variables(&atom.args, numbers)?;
        }
    }
    Ok(())
}

/// Whether a number occurs once.
pub(crate) fn is_once(numbers: &[u32], number: u32) -> bool {
    numbers.iter().filter(|one| **one == number).count() == 1
}

/// Whether a term of a query is a variable that stands nowhere else in it.
fn is_free(term: &Term, numbers: &[u32]) -> bool {
    match term {
        Term::Var(number) => is_once(numbers, *number),
        Term::Free(_) | Term::Made(_) | Term::App(..) | Term::Tuple(_) => false,
    }
}

/// Which arguments of an event the query leaves free.
fn free_of(alloc: Global, atom: &Atom, numbers: &[u32]) -> Result<Vec<bool>, AllocError> {
    let mut free = Vec::with_capacity(alloc, atom.args.items.len())?;
    for term in &atom.args.items {
        free.push(is_free(term, numbers))?;
    }
    Ok(free)
}

/// Marks as free what is free in both.
fn join_free(free: &mut [bool], others: &[bool]) {
    for (place, other) in others.iter().enumerate() {
        if let Some(one) = free.get_mut(place) {
            *one = *one && *other;
        }
    }
}

impl Asked {
    /// What the query asks of an event that must have run; none where it doesn't ask for it.
    pub(crate) fn required(&self, event: u32) -> Option<&Required> {
        self.required.iter().find(|one| one.event == event)
    }

    /// Whether the event stands on the left side of the query.
    pub(crate) fn is_left(&self, event: u32) -> bool {
        self.left == Some(event)
    }

    /// Adds an event that stands on the right side.
    fn add(&mut self, alloc: Global, atom: &Atom, numbers: &[u32]) -> Result<(), AllocError> {
        let free = free_of(alloc, atom, numbers)?;
        for one in &mut self.required {
            if one.event == atom.event {
                join_free(&mut one.free, &free);
                return Ok(());
            }
        }
        self.required.push(Required {
            event: atom.event,
            free,
        })?;
        Ok(())
    }

    /// Adds the events of all alternatives.
    fn add_all(
        &mut self,
        alloc: Global,
        alternatives: &Alternatives,
        numbers: &[u32],
    ) -> Result<(), AllocError> {
        for atoms in &alternatives.items {
            for atom in &atoms.items {
                self.add(alloc, atom, numbers)?;
            }
        }
        Ok(())
    }
}

/// What a query asks of events.
pub fn asked_by(alloc: Global, query: &Query) -> Result<Asked, AllocError> {
    let mut asked = Asked {
        left: None,
        required: Vec::new(alloc),
    };
    match query {
        Query::Secret(..) | Query::SecretNew(..) => Ok(asked),
        Query::Corr { left, alternatives } => {
            let mut numbers = Vec::new(alloc);
            add_all_variables(&left.args, &mut numbers)?;
            add_alternatives(alternatives, &mut numbers)?;
            asked.left = Some(left.event);
            asked.add_all(alloc, alternatives, &numbers)?;
            Ok(asked)
        }
    }
}
