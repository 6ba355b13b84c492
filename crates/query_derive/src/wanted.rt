//! A correspondence as owned facts: what a clause is to conclude, and what is looked for among its
//! hypotheses.

ghost use Rattle.std.specs.Prelude.{◌≡◌, ℕ, ◌+◌, ◌-◌, ◌≤◌, [], ◌∷◌, ◌++◌, nat_eq, cond, length, map, filter_map, option_map, IfOk, OnOk};
ghost use Rattle.std.specs.List.{list_any, AllByRecursion};
ghost use Rattle.spec_trees.specs.Tree.{Leaf, size, sizes, trees};
ghost use Rattle.spec_calculus.specs.Bounds.{most_written_symbols};
ghost use Rattle.spec_calculus.specs.Syntax.{Variable};
ghost use Rattle.spec_calculus.specs.Points.{numbered};
ghost use Rattle.spec_well_formed.specs.Limits.{IsSmallEvent, IsSmallQuery};
ghost use Rattle.spec_clauses.specs.Variables.{leaves, row_leaves};
ghost use Rattle.spec_clauses.specs.Norm.{distinct};
ghost use Rattle.spec_terms.specs.Term.{Tuple as parts_tuple};
ghost use Rattle.term_tree.specs.Bank.{symbol_of};
ghost use Rattle.spec_translation.specs.Conversion.{free_term};
ghost use Rattle.spec_translation.specs.Goal.{query_leaf, query_term, variable_at, event_variables, required};
ghost use Rattle.pi_tree.specs.Terms.{term_of};
ghost use Rattle.pi_tree.specs.Events.{event_of};
ghost use Rattle.pi_tree.specs.Queries.{query_of};
ghost use Rattle.pi_tree.specs.Protocols.{protocol_of};
ghost use Rattle.clause_form.specs.Plain.{term_of as tree_term};
ghost use Rattle.query_derive.specs.Sought.{sought_for, all_sought};
ghost use Rattle.query_derive.specs.Wanted.{event_fact, sought_of};

use clause_form::{Tree, Trees};
use clause_terms::constructor_symbol;
use pi_tree::{Atom, Atoms, Protocol, Query, Term, Terms};
use std::alloc::{AllocError, Global};
use term_tree::Sym;

/// An event that must have run.
#[derive(Drop)]
pub struct Event {
    pub event: u32,
    pub arguments: Trees,
}

/// One alternative of a correspondence: the arguments of `bad`, and the events that must have run.
#[derive(Drop)]
pub struct Wanted {
    pub bad: Trees,
    pub events: Vec<Event>,
}

/// The symbol of a tuple of the parts.
fn tuple_symbol(parts: &Terms) -> Sym
    requires { sizes (trees parts.now) ≤ most_written_symbols }
    ensures { symbol_of result ≡ parts_tuple (length parts.now) }
{
    Sym::Tuple(parts.items.len() as u32)
}

/// The tree of a free name.
fn free_tree(alloc: Global, name: u32) -> Tree
    ensures { tree_term result ≡ free_term name }
{
    Tree::App(
        Sym::Free(name),
        Trees {
            items: Vec::new(alloc),
        },
    )
}

/// The tree of a query's term: its variables, numbered from 1, are those of clauses from 0.
#[cycle(query_trees)]
pub fn tree_of(alloc: Global, protocol: &Protocol, term: &Term) -> Result<Tree, AllocError>
    requires { size (term_of term.now) ≤ most_written_symbols }
    ensures { IfOk result (λ tree. tree_term tree ≡
        query_term (protocol_of protocol.now) (term_of term.now)) }
{
    match term {
        Term::Var(number) => Ok(Tree::Var(number.saturating_sub(1))),
        Term::Free(name) => Ok(free_tree(alloc, *name)),
        Term::Made(_) => Ok(free_tree(alloc, 0)),
        Term::App(constructor, arguments) => {
            let items = trees_of(alloc, protocol, arguments)?;
            Ok(Tree::App(constructor_symbol(protocol, *constructor), items))
        }
        Term::Tuple(parts) => {
            let items = trees_of(alloc, protocol, parts)?;
            Ok(Tree::App(tuple_symbol(parts), items))
        }
    }
}

/// The trees of a query's terms.
#[cycle(query_trees)]
pub fn trees_of(alloc: Global, protocol: &Protocol, terms: &Terms) -> Result<Trees, AllocError>
    requires { sizes (trees terms.now) ≤ most_written_symbols }
    ensures { IfOk result (λ made. made ≡ map (query_term (protocol_of protocol.now)) terms.now) }
{
    let mut items = Vec::with_capacity(alloc, terms.items.len())?;
    for term in &terms.items {
        items.push(tree_of(alloc, protocol, term)?)?;
    }
    Ok(Trees { items })
}

/// Adds the variables of a term, each as often as it occurs.
#[cycle(query_variables)]
fn add_variables(term: &Term, numbers: &mut Vec<u32>) -> Result<(), AllocError>
    ensures { OnOk result (numbers.new.items ≡
        numbers.old.items ++ filter_map variable_at (leaves (term_of term.now))) }
{
    match term {
        Term::Var(number) => {
            numbers.push(*number)?;
            Ok(())
        }
        Term::Free(_) | Term::Made(_) => Ok(()),
        Term::App(_, arguments) => add_all_variables(arguments, numbers),
        Term::Tuple(parts) => add_all_variables(parts, numbers),
    }
}

/// Adds the variables of terms.
#[cycle(query_variables)]
fn add_all_variables(terms: &Terms, numbers: &mut Vec<u32>) -> Result<(), AllocError>
    ensures { OnOk result (numbers.new.items ≡
        numbers.old.items ++ filter_map variable_at (row_leaves (trees terms.now))) }
{
    for term in &terms.items {
        add_variables(term, numbers)?;
    }
    Ok(())
}

/// Whether a number is among numbers.
fn has(numbers: &[u32], number: u32) -> bool
    ensures { result ≡ list_any (nat_eq number) numbers.now }
{
    for one in numbers {
        if number == *one {
            return true;
        }
    }
    false
}

/// Adds a number that isn't there.
fn add_new(numbers: &mut Vec<u32>, number: u32) -> Result<(), AllocError>
    ensures { OnOk result (numbers.new.items ≡ cond (list_any (nat_eq number) numbers.old.items)
        numbers.old.items (numbers.old.items ++ number ∷ [])) }
{
    if has(numbers, number) {
        return Ok(());
    }
    numbers.push(number)?;
    Ok(())
}

/// The numbers, each where it occurs first.
fn distinct_of(alloc: Global, numbers: &[u32]) -> Result<Vec<u32>, AllocError>
    ensures { IfOk result (λ found. found.items ≡ distinct nat_eq numbers.now) }
{
    let mut found = Vec::with_capacity(alloc, 16)?;
    for number in numbers {
        add_new(&mut found, *number)?;
    }
    Ok(found)
}

/// The variables of an event, each once, by first occurrence.
fn variables_of(alloc: Global, event: &Atom) -> Result<Vec<u32>, AllocError>
    ensures { IfOk result (λ numbers. numbers.items ≡ event_variables (event_of event.now)) }
{
    let mut numbers = Vec::with_capacity(alloc, 16)?;
    add_all_variables(&event.args, &mut numbers)?;
    distinct_of(alloc, &numbers)
}

/// The arguments of `bad`: the variables of a correspondence's left side.
pub fn bad_arguments(alloc: Global, left: &Atom) -> Result<Trees, AllocError>
    ensures { IfOk result (λ made. made ≡
        map (λ i. query_leaf (Variable i)) (event_variables (event_of left.now))) }
{
    let numbers = variables_of(alloc, left)?;
    let mut items = Vec::with_capacity(alloc, numbers.len())?;
    for number in &numbers {
        items.push(Tree::Var(number.saturating_sub(1)))?;
    }
    Ok(Trees { items })
}

/// An event as a fact.
fn event_wanted(alloc: Global, protocol: &Protocol, event: &Atom) -> Result<Event, AllocError>
    requires { IsSmallEvent (event_of event.now) }
    ensures { IfOk result (λ made. event_fact made ≡
        required (protocol_of protocol.now) (event_of event.now)) }
{
    let arguments = trees_of(alloc, protocol, &event.args)?;
    Ok(Event {
        event: event.event,
        arguments,
    })
}

/// Events as facts.
fn events_wanted(
    alloc: Global,
    protocol: &Protocol,
    events: &Atoms,
) -> Result<Vec<Event>, AllocError>
    requires { AllByRecursion IsSmallEvent events.now }
    ensures { IfOk result (λ made. map event_fact made.items ≡
        map (required (protocol_of protocol.now)) events.now) }
{
    let mut made = Vec::with_capacity(alloc, events.items.len())?;
    for event in &events.items {
        made.push(event_wanted(alloc, protocol, event)?)?;
    }
    Ok(made)
}

/// An alternative as facts.
fn wanted_for(
    alloc: Global,
    protocol: &Protocol,
    left: &Atom,
    alternative: &Atoms,
) -> Result<Wanted, AllocError>
    requires { AllByRecursion IsSmallEvent alternative.now }
    ensures { IfOk result (λ wanted. sought_of wanted ≡
        sought_for (protocol_of protocol.now) (event_of left.now) alternative.now) }
{
    let bad = bad_arguments(alloc, left)?;
    let events = events_wanted(alloc, protocol, alternative)?;
    Ok(Wanted { bad, events })
}

/// All alternatives of a query as facts, in order; a secrecy query has none.
pub fn all_wanted(
    alloc: Global,
    protocol: &Protocol,
    query: &Query,
) -> Result<Vec<Wanted>, AllocError>
    requires { IsSmallQuery (query_of query.now) }
    ensures { IfOk result (λ wanted. map sought_of wanted.items ≡
        all_sought (protocol_of protocol.now) (query_of query.now)) }
{
    match query {
        Query::Secret(..) | Query::SecretNew(..) => Ok(Vec::new(alloc)),
        Query::Corr { left, alternatives } => {
            let mut all = Vec::with_capacity(alloc, alternatives.items.len())?;
            'each: for alternative in &alternatives.items {
                all.push(wanted_for(alloc, protocol, left, alternative)?)?;
            }
            Ok(all)
        }
    }
}

/// The alternative of that number as facts, if there is one.
pub fn wanted_at(
    alloc: Global,
    protocol: &Protocol,
    query: &Query,
    number: u32,
) -> Result<Option<Wanted>, AllocError>
    requires { IsSmallQuery (query_of query.now) }
    ensures { IfOk result (λ wanted. option_map sought_of wanted ≡
        numbered (all_sought (protocol_of protocol.now) (query_of query.now)) number) }
{
    match query {
        Query::Secret(..) | Query::SecretNew(..) => Ok(None),
        Query::Corr { left, alternatives } => match number.checked_sub(1) {
            None => Ok(None),
            Some(index) => match alternatives.items.get(index as usize) {
                None => Ok(None),
                Some(alternative) => Ok(Some(wanted_for(alloc, protocol, left, alternative)?)),
            },
        },
    }
}
