//! Which hypotheses share variables that aren't bound, and so are parts of one another. This only tells what is tried
//! first, so no contract says what it gives.

ghost use Rattle.std.specs.Prelude.{◌<◌, length, map, IfOk};
ghost use Rattle.term_tree.specs.Bank.{AreKnown};
ghost use Rattle.clause_form.specs.Facts.{fact_of};
ghost use Rattle.clause_form.specs.Seen.{IsFactIn, AreFactsIn};

use clause_form::Fact;
use fact_placing::board::Board;
use limits::MOST_SYMBOLS;
use std::alloc::{AllocError, Global};
use term_tree::{Bank, Id, Node};
use unify_match::Binds;

/// Variables are numbered below this in a clause that is its own norm within the limit of size; others are taken to be
/// shared by no hypotheses.
const VARIABLES: usize = MOST_SYMBOLS as usize;

/// What is found while facts are looked at in turn: by variable the fact in which it was met first, and by fact the first
/// fact of its part, both by their indices.
#[derive(Drop)]
struct Meetings {
    owners: Vec<Option<usize>>,
    numbers: Vec<usize>,
}

/// The parts of facts. A part's number is the index of its first fact.
#[derive(Drop)]
pub(crate) struct Parts {
    /// The number of each fact's part.
    pub numbers: Vec<usize>,
    /// How many facts are in the part of each number.
    pub counts: Vec<usize>,
}

/// The number of the part that a fact is in.
pub(crate) fn number_at(numbers: &[usize], i: usize) -> usize {
    match numbers.get(i) {
        Some(number) => *number,
        None => i,
    }
}

/// Replaces a number where it stands at an index.
fn replace(numbers: &mut [usize], i: usize, old: usize, new: usize) {
    if number_at(numbers, i) != old {
        return;
    }
    if i < numbers.len() {
        numbers[i] = new;
    }
}

/// Gives the facts of one part the number of another.
fn renumber(numbers: &mut [usize], old: usize, new: usize) {
    for i in 0..numbers.len() {
        replace(numbers, i, old, new);
    }
}

/// Makes the parts of two facts one.
fn join(numbers: &mut [usize], i: usize, j: usize) {
    let one = number_at(numbers, i);
    let other = number_at(numbers, j);
    if one < other {
        renumber(numbers, other, one);
    } else if other < one {
        renumber(numbers, one, other);
    }
}

/// The fact in which a variable was met first.
fn owner_at(owners: &[Option<usize>], place: usize) -> Option<usize> {
    match owners.get(place) {
        Some(owner) => *owner,
        None => None,
    }
}

/// Says in which fact a variable was met first.
fn own(owners: &mut Vec<Option<usize>>, place: usize, i: usize) -> Result<(), AllocError> {
    for _ in owners.len()..place.saturating_add(1) {
        owners.push(None)?;
    }
    if place < owners.len() {
        owners[place] = Some(i);
    }
    Ok(())
}

/// A variable that isn't bound was met in a fact.
fn meet(meetings: &mut Meetings, variable: u32, i: usize) -> Result<(), AllocError> {
    let place = variable as usize;
    if place >= VARIABLES {
        return Ok(());
    }
    match owner_at(&meetings.owners, place) {
        Some(first) => {
            join(&mut meetings.numbers, first, i);
            Ok(())
        }
        None => own(&mut meetings.owners, place, i),
    }
}

/// A variable was met in a fact.
fn meet_unbound(
    binds: &Binds,
    variable: u32,
    i: usize,
    meetings: &mut Meetings,
) -> Result<(), AllocError> {
    match binds.look(variable) {
        Some(_) => Ok(()),
        None => meet(meetings, variable, i),
    }
}

/// The variables of a term were met in a fact.
fn meet_variables<B: Bank>(
    bank: &B,
    binds: &Binds,
    term: Id,
    i: usize,
    meetings: &mut Meetings,
) -> Result<(), AllocError>
    requires { term.index < length (B.trees bank.now) }
{
    match bank.node(term) {
        Node::Var(variable) => meet_unbound(binds, variable, i, meetings),
        Node::App(_, arguments) => {
            'each: for argument in arguments {
                meet_variables(bank, binds, *argument, i, meetings)?;
            }
            Ok(())
        }
    }
}

/// The variables of terms were met in a fact.
fn meet_all_variables<B: Bank>(
    bank: &B,
    binds: &Binds,
    terms: &[Id],
    i: usize,
    meetings: &mut Meetings,
) -> Result<(), AllocError>
    requires { AreKnown (B.trees bank.now) terms.now }
{
    'each: for term in terms {
        meet_variables(bank, binds, *term, i, meetings)?;
    }
    Ok(())
}

/// The variables of a fact were met in it.
fn meet_fact<B: Bank>(
    bank: &B,
    binds: &Binds,
    fact: &Fact,
    i: usize,
    meetings: &mut Meetings,
) -> Result<(), AllocError>
    requires { IsFactIn (B.trees bank.now) (fact_of fact.now) }
{
    let terms = fact.terms();
    meet_all_variables(bank, binds, terms.as_slice(), i, meetings)
}

/// The number of each fact's part. Facts that share a variable that isn't bound are in one part.
fn numbers_of<B: Bank>(
    board: &Board<'_, B>,
    binds: &Binds,
    facts: &[&Fact],
) -> Result<Vec<usize>, AllocError>
    requires { AreFactsIn (B.trees board.now.bank.now) (map (λ f. fact_of f.now) facts.now) }
{
    let owners = Vec::with_capacity(board.alloc, facts.len())?;
    let numbers = Vec::with_capacity(board.alloc, facts.len())?;
    let mut meetings = Meetings { owners, numbers };
    'each: for (i, fact) in facts.iter().enumerate() {
        meetings.numbers.push(i)?;
        meet_fact(board.bank, binds, *fact, i, &mut meetings)?;
    }
    Ok(meetings.numbers)
}

/// Counts a fact of the part of a number.
fn count_one(counts: &mut [usize], number: usize) {
    if number < counts.len() {
        counts[number] = counts[number].saturating_add(1);
    }
}

/// How many facts are in the part of each number.
fn counts_of(alloc: Global, numbers: &[usize]) -> Result<Vec<usize>, AllocError> {
    let mut counts = vec![in alloc; 0usize; numbers.len()]?;
    'each: for number in numbers {
        count_one(&mut counts, *number);
    }
    Ok(counts)
}

/// The parts of the facts.
pub(crate) fn parts_of<B: Bank>(
    board: &Board<'_, B>,
    binds: &Binds,
    facts: &[&Fact],
) -> Result<Parts, AllocError>
    requires { AreFactsIn (B.trees board.now.bank.now) (map (λ f. fact_of f.now) facts.now) }
{
    let numbers = numbers_of(board, binds, facts)?;
    let counts = counts_of(board.alloc, &numbers)?;
    Ok(Parts { numbers, counts })
}

/// The count at an index.
fn count_at(counts: &[usize], number: usize) -> usize {
    match counts.get(number) {
        Some(count) => *count,
        None => 0,
    }
}

/// How many facts are in the part of a number.
pub(crate) fn count_of(parts: &Parts, number: usize) -> usize {
    count_at(&parts.counts, number)
}

/// Whether a part has several facts, but not all.
pub(crate) fn is_divided(counts: &[usize]) -> bool {
    'each: for count in counts {
        if *count > 1 {
            return *count < counts.len();
        }
    }
    false
}

/// The number of the largest part.
fn largest(counts: &[usize]) -> usize {
    let mut found = 0;
    let mut size = 0;
    for i in 0..counts.len() {
        let count = count_at(counts, i);
        if count > size {
            found = i;
            size = count;
        }
    }
    found
}

/// The first fact of the largest part of the facts, by its index.
pub(crate) fn in_largest_part<B: Bank>(
    board: &Board<'_, B>,
    binds: &Binds,
    facts: &[&Fact],
) -> Result<usize, AllocError>
    requires facts { AreFactsIn (B.trees board.now.bank.now) (map (λ f. fact_of f.now) facts.now) }
    requires some { 0 < length facts.now }
    ensures { IfOk result (λ at. at < length facts.now) }
{
    let parts = parts_of(board, binds, facts)?;
    let at = largest(&parts.counts);
    if at < facts.len() { Ok(at) } else { Ok(0) }
}
