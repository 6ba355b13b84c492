//! Raw clauses over owned trees with their variables numbered by first occurrence.

ghost use Rattle.std.specs.Prelude.{◌≡◌, [], ◌∷◌, ◌++◌, map, flat_map, IfOk, OnOk};
ghost use Rattle.spec_trees.specs.Tree.{node, bind};
ghost use Rattle.spec_clauses.specs.Fact.{fact_under, clause_under};
ghost use Rattle.spec_clauses.specs.Variables.{leaves, fact_variables, clause_variables, constrained_variables};
ghost use Rattle.spec_attack_runs.specs.Source.{action_under, action_terms};
ghost use Rattle.term_tree.specs.Bank.{symbol_of};
ghost use Rattle.clause_diffs.specs.Numbers.{placed};
ghost use Rattle.clause_sources.specs.Places.{by_numbers};
ghost use Rattle.clause_sources.specs.Bound.{numbered_in_bound};
ghost use Rattle.clause_diffs.specs.Plain.{term_of};
ghost use Rattle.clause_form.specs.PlainFacts.{plain_fact_of};
ghost use Rattle.clause_sources.specs.Seen.{action_of};

use crate::constraints::{add_diffs_variables, numbered_diffs};
use crate::numbers::{Numbers, by_order, number_of};
use crate::source::{Action, Way};
use clause_diffs::Order;
use clause_form::{PlainClause, PlainFact, PlainFacts, Tree, Trees};
use std::alloc::{AllocError, Global};
use term_tree::Sym;

/// Adds the variables of a term.
pub(crate) fn add_variables(tree: &Tree, numbers: &mut Vec<u32>) -> Result<(), AllocError>
    ensures { OnOk result (numbers.new.items ≡ numbers.old.items ++ leaves (term_of tree.now)) }
{
    match tree {
        Tree::Var(number) => {
            numbers.push(*number)?;
            Ok(())
        }
        Tree::App(_, arguments) => {
            'each: for argument in &arguments.items {
                add_variables(argument, numbers)?;
            }
            Ok(())
        }
    }
}

/// Adds the variables of terms.
pub(crate) fn add_terms_variables(trees: &Trees, numbers: &mut Vec<u32>) -> Result<(), AllocError>
    ensures { OnOk result (numbers.new.items ≡ numbers.old.items ++ flat_map leaves trees.now) }
{
    'each: for tree in &trees.items {
        add_variables(tree, numbers)?;
    }
    Ok(())
}

/// Adds the variables of a fact.
fn add_fact_variables(fact: &PlainFact, numbers: &mut Vec<u32>) -> Result<(), AllocError>
    ensures { OnOk result (numbers.new.items ≡
        numbers.old.items ++ fact_variables (plain_fact_of fact.now)) }
{
    match fact {
        PlainFact::Att(_, term) => add_variables(term, numbers),
        PlainFact::Mess(_, channel, message) => {
            add_variables(channel, numbers)?;
            add_variables(message, numbers)
        }
        PlainFact::Tab(_, terms)
        | PlainFact::Ev(_, terms)
        | PlainFact::Mev(_, terms)
        | PlainFact::Bad(terms) => add_terms_variables(terms, numbers),
    }
}

/// Adds the variables of a clause's facts, the conclusion's first.
fn add_facts_variables(clause: &PlainClause, numbers: &mut Vec<u32>) -> Result<(), AllocError>
    ensures { OnOk result (numbers.new.items ≡ numbers.old.items ++ clause_variables clause.now) }
{
    add_fact_variables(&clause.concl, numbers)?;
    'each: for fact in &clause.hyps.items {
        add_fact_variables(fact, numbers)?;
    }
    Ok(())
}

/// Adds the clause's variables: those of its facts, the conclusion's first, and then those in its constraints.
pub(crate) fn add_clause_variables(
    alloc: Global,
    clause: &PlainClause,
    numbers: &mut Vec<u32>,
) -> Result<(), AllocError>
    ensures { OnOk result (numbers.new.items ≡ numbers.old.items ++
        (clause_variables clause.now ++ constrained_variables clause.now)) }
{
    add_facts_variables(clause, numbers)?;
    add_diffs_variables(alloc, &clause.diffs, numbers)
}

/// Adds the variables of an action's terms.
pub(crate) fn add_action_variables(
    action: &Action,
    numbers: &mut Vec<u32>,
) -> Result<(), AllocError>
    ensures { OnOk result (numbers.new.items ≡
        numbers.old.items ++ flat_map leaves (action_terms (action_of action.now))) }
{
    match action {
        Action::Idle | Action::Builds(_) | Action::Reduces(_, _) => Ok(()),
        Action::Reaches(way) => {
            add_terms_variables(&way.messages, numbers)?;
            add_terms_variables(&way.sessions, numbers)
        }
    }
}

/// Adds a variable with its number; want of memory too where that is past 32 bits.
#[inline(never)]
fn add_numbered_variable(
    numbers: &Numbers<'_>,
    number: u32,
    made: &mut Vec<Tree>,
) -> Result<(), AllocError>
    ensures { OnOk result (map term_of made.new.items ≡
        map term_of made.old.items ++ by_numbers numbers.now number ∷ []) }
{
    match number_of(*numbers, number) {
        None => Err(AllocError),
        Some(number) => {
            made.push(Tree::Var(number))?;
            Ok(())
        }
    }
}

/// Adds the term of a symbol over its arguments.
#[inline(never)]
fn add_applied(symbol: Sym, items: Vec<Tree>, made: &mut Vec<Tree>) -> Result<(), AllocError>
    ensures { OnOk result (map term_of made.new.items ≡
        map term_of made.old.items ++ node (symbol_of symbol) (map term_of items.items) ∷ []) }
{
    made.push(Tree::App(symbol, Trees { items }))?;
    Ok(())
}

/// Adds the term with its variables numbered. Terms are thousands of levels deep, so it keeps little at each level.
fn add_numbered(
    alloc: Global,
    numbers: &Numbers<'_>,
    tree: &Tree,
    made: &mut Vec<Tree>,
) -> Result<(), AllocError>
    ensures { OnOk result (map term_of made.new.items ≡
        map term_of made.old.items ++ bind (by_numbers numbers.now) (term_of tree.now) ∷ []) }
{
    match tree {
        Tree::Var(number) => add_numbered_variable(numbers, *number, made),
        Tree::App(symbol, arguments) => {
            let mut items = Vec::with_capacity(alloc, arguments.items.len())?;
            'each: for argument in &arguments.items {
                add_numbered(alloc, numbers, argument, &mut items)?;
            }
            add_applied(*symbol, items, made)
        }
    }
}

/// The term with its variables numbered.
fn numbered_tree(alloc: Global, numbers: &Numbers<'_>, tree: &Tree) -> Result<Tree, AllocError>
    ensures { IfOk result (λ made.
        term_of made ≡ bind (by_numbers numbers.now) (term_of tree.now)) }
{
    let mut made = Vec::new(alloc);
    add_numbered(alloc, numbers, tree, &mut made)?;
    match made.pop() {
        None => Err(AllocError),
        Some(only) => Ok(only),
    }
}

/// The terms with their variables numbered.
pub(crate) fn numbered_trees(
    alloc: Global,
    numbers: &Numbers<'_>,
    trees: &Trees,
) -> Result<Trees, AllocError>
    ensures { IfOk result (λ made. made ≡ map (bind (by_numbers numbers.now)) trees.now) }
{
    let mut items = Vec::with_capacity(alloc, trees.items.len())?;
    'each: for tree in &trees.items {
        add_numbered(alloc, numbers, tree, &mut items)?;
    }
    Ok(Trees { items })
}

/// The fact with its variables numbered.
fn numbered_fact(
    alloc: Global,
    numbers: &Numbers<'_>,
    fact: &PlainFact,
) -> Result<PlainFact, AllocError>
    ensures { IfOk result (λ made. plain_fact_of made ≡
        fact_under (by_numbers numbers.now) (plain_fact_of fact.now)) }
{
    match fact {
        PlainFact::Att(phase, term) => {
            Ok(PlainFact::Att(*phase, numbered_tree(alloc, numbers, term)?))
        }
        PlainFact::Mess(phase, channel, message) => {
            let channel = numbered_tree(alloc, numbers, channel)?;
            let message = numbered_tree(alloc, numbers, message)?;
            Ok(PlainFact::Mess(*phase, channel, message))
        }
        PlainFact::Tab(table, terms) => {
            Ok(PlainFact::Tab(*table, numbered_trees(alloc, numbers, terms)?))
        }
        PlainFact::Ev(event, terms) => {
            Ok(PlainFact::Ev(*event, numbered_trees(alloc, numbers, terms)?))
        }
        PlainFact::Mev(event, terms) => {
            Ok(PlainFact::Mev(*event, numbered_trees(alloc, numbers, terms)?))
        }
        PlainFact::Bad(terms) => Ok(PlainFact::Bad(numbered_trees(alloc, numbers, terms)?)),
    }
}

/// The facts with their variables numbered.
fn numbered_facts(
    alloc: Global,
    numbers: &Numbers<'_>,
    facts: &PlainFacts,
) -> Result<PlainFacts, AllocError>
    ensures { IfOk result (λ made. made ≡ map (fact_under (by_numbers numbers.now)) facts.now) }
{
    let mut items = Vec::with_capacity(alloc, facts.items.len())?;
    'each: for fact in &facts.items {
        items.push(numbered_fact(alloc, numbers, fact)?)?;
    }
    Ok(PlainFacts { items })
}

/// The clause with each variable's place for its number, and with those that a constraint binds numbered by their first occurrence
/// in it.
pub(crate) fn numbered_clause(
    alloc: Global,
    order: &Order,
    clause: &PlainClause,
) -> Result<PlainClause, AllocError>
    ensures { IfOk result (λ made.
        made ≡ clause_under (placed order.now) (numbered_in_bound clause.now)) }
{
    let numbers = by_order(order);
    let hyps = numbered_facts(alloc, &numbers, &clause.hyps)?;
    let diffs = numbered_diffs(alloc, order, &clause.diffs)?;
    let concl = numbered_fact(alloc, &numbers, &clause.concl)?;
    Ok(PlainClause { hyps, diffs, concl })
}

/// The action with each variable's place for its number.
pub(crate) fn numbered_action(
    alloc: Global,
    order: &Order,
    action: &Action,
) -> Result<Action, AllocError>
    ensures { IfOk result (λ made. action_of made ≡
        action_under (placed order.now) (action_of action.now)) }
{
    match action {
        Action::Idle => Ok(Action::Idle),
        Action::Builds(constructor) => Ok(Action::Builds(*constructor)),
        Action::Reduces(destructor, rule) => Ok(Action::Reduces(*destructor, *rule)),
        Action::Reaches(way) => {
            let numbers = by_order(order);
            let choices = way.choices.copy(alloc)?;
            let messages = numbered_trees(alloc, &numbers, &way.messages)?;
            let sessions = numbered_trees(alloc, &numbers, &way.sessions)?;
            Ok(Action::Reaches(Way {
                point: way.point,
                choices,
                messages,
                sessions,
                phase: way.phase,
            }))
        }
    }
}
