//! Writes clauses as tables spell them.

use crate::signature::{event_name, symbol_name, table_name};
use clause_form::{PlainClause, PlainDiff, PlainFact, Tree};
use std::alloc::{AllocError, Global};
use term_tree::Sym;

/// A comma, unless a bracket was just opened, or the right sides of a constraint begin.
fn separate(text: &mut String) -> Result<(), AllocError> {
    if text.ends_with('(') || text.ends_with('[') || text.ends_with(';') {
        return Ok(());
    }
    text.push(',')?;
    Ok(())
}

/// Writes the name of a symbol.
fn write_symbol(alloc: Global, symbol: Sym, text: &mut String) -> Result<(), AllocError> {
    match symbol {
        Sym::Point(point) => text.push_str(format!(in alloc; "n@{point}")?.as_str())?,
        _ => text.push_str(symbol_name(symbol))?,
    }
    Ok(())
}

/// The brackets behind a symbol with so many arguments.
fn brackets_of(symbol: Sym, arguments: usize) -> (&'static str, &'static str) {
    match symbol {
        Sym::Point(_) | Sym::Attacker => ("[", "]"),
        Sym::Tuple(_) => ("(", ")"),
        _ => { if arguments == 0 { ("", "") } else { ("(", ")") } }
    }
}

/// Writes a variable, where those from the number `bound` on are bound by a constraint.
fn write_variable(
    alloc: Global,
    bound: Option<u32>,
    number: u32,
    text: &mut String,
) -> Result<(), AllocError> {
    match bound {
        Some(first) if number >= first => {
            let place = number.saturating_sub(first);
            text.push_str(format!(in alloc; "?{place}")?.as_str())?;
        }
        _ => text.push_str(format!(in alloc; "v{number}")?.as_str())?,
    }
    Ok(())
}

/// Writes the name of a symbol with so many arguments, and the bracket behind it.
fn begin_term(
    alloc: Global,
    symbol: Sym,
    arguments: usize,
    text: &mut String,
) -> Result<(), AllocError> {
    write_symbol(alloc, symbol, text)?;
    let (begin, _) = brackets_of(symbol, arguments);
    text.push_str(begin)?;
    Ok(())
}

/// Writes the bracket behind so many arguments of a symbol.
fn end_term(symbol: Sym, arguments: usize, text: &mut String) -> Result<(), AllocError> {
    let (_, end) = brackets_of(symbol, arguments);
    text.push_str(end)?;
    Ok(())
}

/// Writes a term, where the variables from the number `bound` on are bound by a constraint.
fn write_side(
    alloc: Global,
    bound: Option<u32>,
    term: &Tree,
    text: &mut String,
) -> Result<(), AllocError> {
    match term {
        Tree::Var(number) => write_variable(alloc, bound, *number, text),
        Tree::App(symbol, arguments) => {
            begin_term(alloc, *symbol, arguments.items.len(), text)?;
            for argument in &arguments.items {
                separate(text)?;
                write_side(alloc, bound, argument, text)?;
            }
            end_term(*symbol, arguments.items.len(), text)
        }
    }
}

/// Writes a term.
fn write_term(alloc: Global, term: &Tree, text: &mut String) -> Result<(), AllocError> {
    write_side(alloc, None, term, text)
}

/// Writes terms, with commas between.
fn write_items(alloc: Global, terms: &[Tree], text: &mut String) -> Result<(), AllocError> {
    for term in terms {
        separate(text)?;
        write_term(alloc, term, text)?;
    }
    Ok(())
}

/// Writes terms in brackets; nothing where there are none.
fn write_terms(alloc: Global, terms: &[Tree], text: &mut String) -> Result<(), AllocError> {
    if terms.is_empty() {
        return Ok(());
    }
    text.push('(')?;
    write_items(alloc, terms, text)?;
    text.push(')')?;
    Ok(())
}

/// Writes a name over terms in brackets.
fn write_named(
    alloc: Global,
    name: &str,
    arguments: &[Tree],
    text: &mut String,
) -> Result<(), AllocError> {
    text.push('(')?;
    text.push_str(name)?;
    write_terms(alloc, arguments, text)?;
    text.push(')')?;
    Ok(())
}

/// Writes a phase, unless it is the first one.
fn write_phase(alloc: Global, phase: u32, text: &mut String) -> Result<(), AllocError> {
    if phase > 0 {
        text.push_str(format!(in alloc; "@{phase}")?.as_str())?;
    }
    Ok(())
}

/// Writes a term in brackets, behind the phase in which it is known.
fn write_known(
    alloc: Global,
    phase: u32,
    term: &Tree,
    text: &mut String,
) -> Result<(), AllocError> {
    write_phase(alloc, phase, text)?;
    text.push('(')?;
    write_term(alloc, term, text)?;
    text.push(')')?;
    Ok(())
}

/// Writes a channel and a message in brackets, behind the phase in which it is sent.
fn write_message(
    alloc: Global,
    phase: u32,
    channel: &Tree,
    message: &Tree,
    text: &mut String,
) -> Result<(), AllocError> {
    write_phase(alloc, phase, text)?;
    text.push('(')?;
    write_term(alloc, channel, text)?;
    text.push(',')?;
    write_term(alloc, message, text)?;
    text.push(')')?;
    Ok(())
}

/// The name of a fact's predicate.
fn predicate_of(fact: &PlainFact) -> &'static str {
    match fact {
        PlainFact::Att(..) => "att",
        PlainFact::Mess(..) => "mess",
        PlainFact::Tab(..) => "tab",
        PlainFact::Ev(..) => "ev",
        PlainFact::Mev(..) => "mev",
        PlainFact::Bad(_) => "bad",
    }
}

/// Writes what stands behind the predicate of a fact.
fn write_arguments(alloc: Global, fact: &PlainFact, text: &mut String) -> Result<(), AllocError> {
    match fact {
        PlainFact::Att(phase, term) => write_known(alloc, *phase, term, text),
        PlainFact::Mess(phase, channel, message) => {
            write_message(alloc, *phase, channel, message, text)
        }
        PlainFact::Tab(table, arguments) => {
            write_named(alloc, table_name(*table), &arguments.items, text)
        }
        PlainFact::Ev(event, arguments) | PlainFact::Mev(event, arguments) => {
            write_named(alloc, event_name(*event), &arguments.items, text)
        }
        PlainFact::Bad(arguments) => write_terms(alloc, &arguments.items, text),
    }
}

/// Writes a fact.
fn write_fact(alloc: Global, fact: &PlainFact, text: &mut String) -> Result<(), AllocError> {
    text.push_str(predicate_of(fact))?;
    write_arguments(alloc, fact, text)
}

/// Writes this, unless nothing is written yet.
pub fn write_behind(between: &str, text: &mut String) -> Result<(), AllocError> {
    if !text.is_empty() {
        text.push_str(between)?;
    }
    Ok(())
}

/// Writes facts, with commas between.
fn write_facts(alloc: Global, facts: &[PlainFact], text: &mut String) -> Result<(), AllocError> {
    for fact in facts {
        write_behind(", ", text)?;
        write_fact(alloc, fact, text)?;
    }
    Ok(())
}

/// Writes sides of a constraint that binds the variables from this number on, with commas between.
fn write_sides(
    alloc: Global,
    first: u32,
    sides: &[Tree],
    text: &mut String,
) -> Result<(), AllocError> {
    for side in sides {
        separate(text)?;
        write_side(alloc, Some(first), side, text)?;
    }
    Ok(())
}

/// Writes a constraint.
fn write_diff(alloc: Global, diff: &PlainDiff, text: &mut String) -> Result<(), AllocError> {
    text.push_str("diff(")?;
    write_sides(alloc, diff.first, &diff.left.items, text)?;
    text.push(';')?;
    write_sides(alloc, diff.first, &diff.right.items, text)?;
    text.push(')')?;
    Ok(())
}

/// Writes constraints, with commas between and behind what is written.
fn write_diffs(alloc: Global, diffs: &[PlainDiff], text: &mut String) -> Result<(), AllocError> {
    for diff in diffs {
        write_behind(", ", text)?;
        write_diff(alloc, diff, text)?;
    }
    Ok(())
}

/// Writes a clause where nothing is written yet.
fn write_clause(alloc: Global, clause: &PlainClause, text: &mut String) -> Result<(), AllocError> {
    write_facts(alloc, &clause.hyps.items, text)?;
    write_diffs(alloc, &clause.diffs.items, text)?;
    write_behind(" ", text)?;
    text.push_str("=> ")?;
    write_fact(alloc, &clause.concl, text)
}

/// The text of a clause.
pub fn clause_text(alloc: Global, clause: &PlainClause) -> Result<String, AllocError> {
    let mut text = String::new(alloc);
    write_clause(alloc, clause, &mut text)?;
    Ok(text)
}

/// The text of a term.
pub fn term_text(alloc: Global, term: &Tree) -> Result<String, AllocError> {
    let mut text = String::new(alloc);
    write_term(alloc, term, &mut text)?;
    Ok(text)
}
