//! What a step stands on: the channel of a message, what a test is about, the entry that is got, the parts of what is built. It is
//! told before the step is made.

use crate::drawing::Setting;
use crate::legend::{Legend, put_arguments, put_short};
use crate::texts::Text;
use pi_model::{Conf, Environment, Numbers, Slot, Step, Thread};
use pi_tree::{Dtors, Expr, Exprs, Pat, Pats, Process, Term};
use protocol_text::{declared_word, point_word};
use std::alloc::AllocError;
use term_values::evaluate;

/// A thread that stands at a point, with what it has bound.
#[derive(Clone, Copy)]
pub(crate) struct Standing<'a> {
    pub(crate) setting: Setting<'a>,
    pub(crate) point: u32,
    pub(crate) environment: &'a Environment,
}

/// The point at which the thread of that number stands; 0 where there is none.
pub(crate) fn point_of(conf: &Conf, thread: u32) -> u32 {
    match conf.threads.get(thread) {
        Some(Thread::At(point, _)) => *point,
        _ => 0,
    }
}

/// The thread of that number, where it hasn't ended.
pub(crate) fn standing_of<'a>(
    setting: Setting<'a>,
    conf: &'a Conf,
    thread: u32,
) -> Option<Standing<'a>> {
    match conf.threads.get(thread) {
        Some(Thread::At(point, environment)) => Some(Standing {
            setting,
            point: *point,
            environment,
        }),
        _ => None,
    }
}

impl<'a> Standing<'a> {
    /// What stands at the point.
    pub(crate) fn node(&self) -> Option<&'a Process> {
        self.setting.node(self.point)
    }
}

/// Puts the value of a term.
pub(crate) fn put_term(out: &mut Text, legend: &mut Legend, standing: Standing<'_>, term: &Term) {
    let setting = standing.setting;
    match evaluate(term, setting.alloc, standing.environment) {
        Ok(value) => {
            put_short(out, legend, setting, &value);
            drop(value);
        }
        Err(_) => out.note_lack(),
    }
}

/// Puts a variable: as the file spells it, or `$` and its number.
pub(crate) fn put_variable(out: &mut Text, setting: Setting<'_>, number: u32) {
    let word = setting.variables.word(number);
    if word.is_empty() {
        out.put_number(b"$", u64::from(number));
    } else {
        out.put(word);
    }
}

/// The word of the destructor of that number, from 1; empty where there is none.
fn destructor_word(destructors: &Dtors, number: u32) -> &[u8] {
    match destructors.items.get((number as usize).wrapping_sub(1)) {
        None => b"",
        Some(destructor) => destructor.word.items.as_slice(),
    }
}

/// Puts an expression, with the values of its terms.
#[cycle(spell_expression)]
fn put_expression(out: &mut Text, legend: &mut Legend, standing: Standing<'_>, expression: &Expr) {
    let protocol = standing.setting.protocol;
    match expression {
        Expr::Term(term) => put_term(out, legend, standing, term),
        Expr::App(constructor, parts) => {
            out.put(declared_word(&protocol.ctors, *constructor));
            put_expressions(out, legend, standing, parts);
        }
        Expr::Tuple(parts) => put_expressions(out, legend, standing, parts),
        Expr::Call(destructor, parts) => {
            out.put(destructor_word(&protocol.dtors, *destructor));
            put_expressions(out, legend, standing, parts);
        }
    }
}

/// Puts expressions in parentheses, a comma between each two.
#[cycle(spell_expression)]
fn put_expressions(out: &mut Text, legend: &mut Legend, standing: Standing<'_>, parts: &Exprs) {
    let mut mark = b'(';
    for part in &parts.items {
        out.push(mark);
        mark = b',';
        put_expression(out, legend, standing, part);
    }
    out.push(b')');
}

/// Puts a pattern, with the values of its terms.
#[cycle(spell_pattern)]
fn put_pattern(out: &mut Text, legend: &mut Legend, standing: Standing<'_>, pattern: &Pat) {
    let protocol = standing.setting.protocol;
    match pattern {
        Pat::Bind(number) => put_variable(out, standing.setting, *number),
        Pat::Equal(term) => put_term(out, legend, standing, term),
        Pat::App(constructor, parts) => {
            out.put(declared_word(&protocol.ctors, *constructor));
            put_patterns(out, legend, standing, parts);
        }
        Pat::Tuple(parts) => put_patterns(out, legend, standing, parts),
    }
}

/// Puts patterns in parentheses, a comma between each two.
#[cycle(spell_pattern)]
fn put_patterns(out: &mut Text, legend: &mut Legend, standing: Standing<'_>, parts: &Pats) {
    let mut mark = b'(';
    for part in &parts.items {
        out.push(mark);
        mark = b',';
        put_pattern(out, legend, standing, part);
    }
    out.push(b')');
}

/// Adds the variables that a pattern binds, from left to right.
#[cycle(bound_variables)]
fn add_pattern(variables: &mut Vec<u32>, pattern: &Pat) -> Result<(), AllocError> {
    match pattern {
        Pat::Bind(number) => {
            variables.push(*number)?;
            Ok(())
        }
        Pat::Equal(_) => Ok(()),
        Pat::App(_, parts) => add_patterns(variables, parts),
        Pat::Tuple(parts) => add_patterns(variables, parts),
    }
}

/// Adds the variables that patterns bind, from left to right.
#[cycle(bound_variables)]
fn add_patterns(variables: &mut Vec<u32>, patterns: &Pats) -> Result<(), AllocError> {
    for pattern in &patterns.items {
        add_pattern(variables, pattern)?;
    }
    Ok(())
}

/// The variables that the patterns of a `let` or a `get` bind; none elsewhere.
pub(crate) fn variables_at(
    setting: Setting<'_>,
    node: Option<&Process>,
) -> Result<Vec<u32>, AllocError> {
    let mut variables = Vec::new(setting.alloc);
    match node {
        Some(Process::Let(pattern, _, _, _)) => add_pattern(&mut variables, pattern)?,
        Some(Process::Get(_, patterns, _, _, _)) => add_patterns(&mut variables, patterns)?,
        _ => {}
    }
    Ok(variables)
}

/// Whether a pattern binds no variable.
#[cycle(binding)]
fn binds_nothing(pattern: &Pat) -> bool {
    match pattern {
        Pat::Bind(_) => false,
        Pat::Equal(_) => true,
        Pat::App(_, parts) => bind_nothing(parts),
        Pat::Tuple(parts) => bind_nothing(parts),
    }
}

/// Whether none of the patterns binds a variable.
#[cycle(binding)]
fn bind_nothing(patterns: &Pats) -> bool {
    for pattern in &patterns.items {
        if !binds_nothing(pattern) {
            return false;
        }
    }
    true
}

/// Puts the sides of a test that binds nothing: one that is a variable as the file spells it, and else by values.
fn put_equality(
    out: &mut Text,
    legend: &mut Legend,
    standing: Standing<'_>,
    pattern: &Pat,
    expression: &Expr,
) {
    match (pattern, expression) {
        (Pat::Equal(other), Expr::Term(Term::Var(number)))
        | (Pat::Equal(Term::Var(number)), Expr::Term(other)) => {
            put_variable(out, standing.setting, *number);
            out.put(b" = ");
            put_term(out, legend, standing, other);
        }
        _ => {
            put_expression(out, legend, standing, expression);
            out.put(b" = ");
            put_pattern(out, legend, standing, pattern);
        }
    }
}

/// Puts what a `let` that succeeds is about: of one that binds nothing the equality, of a variable that stands for a term nothing.
fn put_test(
    out: &mut Text,
    legend: &mut Legend,
    standing: Standing<'_>,
    pattern: &Pat,
    expression: &Expr,
) {
    if let (Pat::Bind(_), Expr::Term(_)) = (pattern, expression) {
        return;
    }
    if binds_nothing(pattern) {
        out.put(b" ");
        put_equality(out, legend, standing, pattern, expression);
    } else {
        out.put(b" from ");
        put_expression(out, legend, standing, expression);
    }
}

/// Puts what a `let` that fails is about.
fn put_failure(
    out: &mut Text,
    legend: &mut Legend,
    standing: Standing<'_>,
    pattern: &Pat,
    expression: &Expr,
) {
    out.put(b" ");
    put_expression(out, legend, standing, expression);
    out.put(b" is not ");
    put_pattern(out, legend, standing, pattern);
}

/// Puts the channel of a message, where it isn't the one public channel.
fn put_channel(out: &mut Text, legend: &mut Legend, standing: Standing<'_>, channel: &Term) {
    if let Term::Free(number) = channel {
        if standing.setting.common == Some(*number) {
            return;
        }
    }
    out.put(b" on ");
    put_term(out, legend, standing, channel);
}

/// Puts what the step of a thread stands on.
fn put_standing(out: &mut Text, legend: &mut Legend, standing: Standing<'_>, step: &Step) {
    let tables = &standing.setting.protocol.tables;
    match (step, standing.node()) {
        (_, Some(Process::Output(channel, _, _))) => put_channel(out, legend, standing, channel),
        (_, Some(Process::Input(channel, _, _))) => put_channel(out, legend, standing, channel),
        (Step::Take(_, _), Some(Process::Let(pattern, expression, _, _))) => {
            put_test(out, legend, standing, pattern, expression)
        }
        (Step::Fail(_), Some(Process::Let(pattern, expression, _, _))) => {
            put_failure(out, legend, standing, pattern, expression)
        }
        (Step::Miss(_), Some(Process::Get(table, _, _, _, _))) => {
            out.put(b" no entry of ");
            out.put(declared_word(tables, *table));
        }
        _ => {}
    }
}

/// Whether what stands there is a `get` that binds nothing.
fn gets_nothing(node: Option<&Process>) -> bool {
    match node {
        Some(Process::Get(_, patterns, _, _, _)) => bind_nothing(patterns),
        _ => false,
    }
}

/// Puts the entry of that number.
fn put_entry(out: &mut Text, legend: &mut Legend, setting: Setting<'_>, conf: &Conf, entry: u32) {
    if let Some(held) = conf.entries.get(entry) {
        out.put(declared_word(&setting.protocol.tables, held.table));
        put_arguments(out, legend, setting, &held.args.items);
    }
}

/// Puts known values by their numbers.
fn put_parts(out: &mut Text, numbers: &Numbers) {
    let mut word: &[u8] = b" from ";
    for number in &numbers.items {
        out.put(word);
        word = b",";
        out.put_number(b"[", u64::from(*number));
        out.push(b']');
    }
}

/// Puts what a step of the thread of that number, of two the one that sends, stands on, in the configuration before it.
pub(crate) fn put_ground(
    out: &mut Text,
    legend: &mut Legend,
    setting: Setting<'_>,
    conf: &Conf,
    (step, thread): (&Step, u32),
) {
    match step {
        Step::Build(_, parts) | Step::Reduce(_, _, parts) => put_parts(out, parts),
        Step::Part(known, _) => {
            out.put_number(b" from [", u64::from(*known));
            out.push(b']');
        }
        Step::Get(_, entry) => {
            if gets_nothing(setting.node(point_of(conf, thread))) {
                out.put(b" ");
            } else {
                out.put(b" from ");
            }
            put_entry(out, legend, setting, conf, *entry);
        }
        _ => {
            if let Some(standing) = standing_of(setting, conf, thread) {
                put_standing(out, legend, standing, step);
            }
        }
    }
}

/// Puts what a restriction at the point makes.
pub(crate) fn put_slot(out: &mut Text, setting: Setting<'_>, slot: Slot) {
    match slot {
        Slot::Var(number) => put_variable(out, setting, number),
        Slot::Made(point) => {
            out.put(b"new ");
            out.put(point_word(setting.protocol, point));
        }
    }
}
