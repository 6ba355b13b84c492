//! The row of a step.

ghost use Rattle.std.specs.Prelude.{◌≡◌, None, IfOk};
ghost use Rattle.run_chart.specs.Rows as told;
ghost use Rattle.run_chart.specs.Rows.{query_in, told_of};

use crate::chart::{Head, Origin, Row, Shape};
use crate::drawing::Setting;
use crate::grounds::{Standing, point_of, put_slot, put_term, standing_of, variables_at};
use crate::legend::{Legend, put_arguments, put_short};
use crate::texts::Text;
use pi_model::{Conf, Slot, Step, Thread};
use pi_tree::Process;
use protocol_text::declared_word;
use std::alloc::AllocError;

/// A step that was made.
#[derive(Clone, Copy)]
pub(crate) struct Made<'a> {
    pub(crate) setting: Setting<'a>,
    /// The configuration behind it.
    pub(crate) conf: &'a Conf,
    pub(crate) step: &'a Step,
    /// The point at which its thread stood; 0 where it has none.
    pub(crate) point: u32,
    /// What it stands on.
    pub(crate) ground: &'a Text,
}

/// The number of the step's thread, of two the one that sends; 0 where the step is the attacker's.
pub(crate) fn thread_of(step: &Step) -> u32 {
    match step {
        Step::Build(_, _) | Step::Reduce(_, _, _) | Step::Part(_, _) | Step::Fresh | Step::Next =>
            0,
        Step::Split(thread)
        | Step::Copy(thread)
        | Step::Make(thread)
        | Step::Pass(thread, _)
        | Step::Hear(thread)
        | Step::Say(thread, _)
        | Step::Take(thread, _)
        | Step::Fail(thread)
        | Step::Mark(thread)
        | Step::Insert(thread)
        | Step::Get(thread, _)
        | Step::Miss(thread) => *thread,
    }
}

/// Notes the macro in which the thread of that number stands, where none is noted.
fn note_role(
    heads: &mut Vec<Head>,
    setting: Setting<'_>,
    conf: &Conf,
    thread: u32,
) -> Result<(), AllocError> {
    if let Some(head) = heads.get_mut((thread as usize).wrapping_sub(1)) {
        if head.role.is_empty() {
            let role = setting.variables.role(point_of(conf, thread));
            head.role.extend_from_slice(role)?;
        }
    }
    Ok(())
}

/// Notes the macros in which the threads of a step stand that do something in it, in the configuration before the step.
pub(crate) fn note_roles(
    heads: &mut Vec<Head>,
    setting: Setting<'_>,
    conf: &Conf,
    step: &Step,
) -> Result<(), AllocError> {
    match step {
        Step::Split(_) | Step::Copy(_) => Ok(()),
        Step::Pass(sender, receiver) => {
            note_role(heads, setting, conf, *sender)?;
            note_role(heads, setting, conf, *receiver)
        }
        _ => note_role(heads, setting, conf, thread_of(step)),
    }
}

/// Puts the known value of that number, from 1, and its number.
fn put_known(out: &mut Text, legend: &mut Legend, made: Made<'_>, number: usize) {
    let conf = made.conf;
    out.put_number(b"[", number as u64);
    out.put(b"] ");
    if let Some(value) = conf.known.items.get(number.wrapping_sub(1)) {
        put_short(out, legend, made.setting, value);
    }
}

/// Puts a word and the value that the attacker knows last.
fn put_last(out: &mut Text, legend: &mut Legend, made: Made<'_>, word: &[u8]) {
    let conf = made.conf;
    out.put(word);
    put_known(out, legend, made, conf.known.items.len());
}

/// Puts the message of the output at which the thread stood, which has bound so much.
fn put_message(out: &mut Text, legend: &mut Legend, made: Made<'_>, standing: Standing<'_>) {
    if let Some(Process::Output(_, message, _)) = made.setting.node(made.point) {
        put_term(out, legend, standing, message);
    }
}

/// Puts the event that was performed last.
fn put_event(out: &mut Text, legend: &mut Legend, made: Made<'_>) {
    let conf = made.conf;
    out.put(b"event ");
    if let Some(happened) = conf.events.items.last() {
        let events = &made.setting.protocol.events;
        out.put(declared_word(events, happened.event));
        put_arguments(out, legend, made.setting, &happened.args.items);
    }
}

/// Puts the entry that was written last.
fn put_entry(out: &mut Text, legend: &mut Legend, made: Made<'_>) {
    let conf = made.conf;
    out.put(b"insert ");
    if let Some(held) = conf.entries.items.last() {
        let tables = &made.setting.protocol.tables;
        out.put(declared_word(tables, held.table));
        put_arguments(out, legend, made.setting, &held.args.items);
    }
}

/// Puts a slot and what it is bound to.
fn put_binding(out: &mut Text, legend: &mut Legend, standing: Standing<'_>, slot: Slot) {
    put_slot(out, standing.setting, slot);
    out.put(b" = ");
    if let Some(value) = standing.environment.look_up(slot) {
        put_short(out, legend, standing.setting, value);
    }
}

/// Puts what these variables are bound to, a blank before the first and a comma between each two.
fn put_bindings(out: &mut Text, legend: &mut Legend, standing: Standing<'_>, variables: &[u32]) {
    let mut mark: &[u8] = b" ";
    for number in variables {
        out.put(mark);
        mark = b", ";
        put_binding(out, legend, standing, Slot::Var(*number));
    }
}

/// Puts what the patterns bound where the thread stood.
fn put_bound(out: &mut Text, legend: &mut Legend, made: Made<'_>, standing: Standing<'_>) {
    match variables_at(made.setting, made.setting.node(made.point)) {
        Ok(variables) => put_bindings(out, legend, standing, &variables),
        Err(_) => out.note_lack(),
    }
}

/// Where the row of a step is drawn, behind which there are so many threads.
fn shape_of(step: &Step, threads: usize) -> Shape
    ensures { query_in result ≡ None }
{
    match step {
        Step::Split(_) | Step::Copy(_) => Shape::Begin(threads.min(u32::MAX as usize) as u32),
        Step::Pass(sender, receiver) => Shape::Arrow(*sender, *receiver),
        Step::Hear(thread) => Shape::Arrow(*thread, 0),
        Step::Say(thread, _) => Shape::Arrow(0, *thread),
        Step::Next => Shape::Bar,
        _ => Shape::Note(thread_of(step)),
    }
}

/// Puts what is told of a step by what its thread has bound.
fn put_standing(out: &mut Text, legend: &mut Legend, made: Made<'_>, standing: Standing<'_>) {
    match made.step {
        Step::Make(_) => put_binding(out, legend, standing, Slot::Made(made.point)),
        Step::Pass(_, _) => put_message(out, legend, made, standing),
        Step::Get(_, _) => {
            out.put(b"get");
            put_bound(out, legend, made, standing);
        }
        _ => {
            out.put(b"then");
            put_bound(out, legend, made, standing);
        }
    }
}

/// Puts what is told of a step, but for what it stands on.
fn put_result(out: &mut Text, legend: &mut Legend, made: Made<'_>) {
    match made.step {
        Step::Split(_) | Step::Copy(_) => {}
        Step::Build(_, _) => put_last(out, legend, made, b"makes "),
        Step::Reduce(_, _, _) | Step::Part(_, _) => put_last(out, legend, made, b"finds "),
        Step::Fresh => put_last(out, legend, made, b"new "),
        Step::Hear(_) => put_last(out, legend, made, b""),
        Step::Say(_, value) => put_known(out, legend, made, *value as usize),
        Step::Next => out.put_number(b"phase ", u64::from(made.conf.phase)),
        Step::Fail(_) | Step::Miss(_) => out.put(b"else"),
        Step::Mark(_) => put_event(out, legend, made),
        Step::Insert(_) => put_entry(out, legend, made),
        step => {
            if let Some(standing) = standing_of(made.setting, made.conf, thread_of(step)) {
                put_standing(out, legend, made, standing);
            }
        }
    }
}

/// Where the thread that a step begins comes from; none where it begins none.
fn origin_of(made: Made<'_>) -> Option<Origin> {
    let conf = made.conf;
    match (made.step, conf.threads.items.last()) {
        (Step::Copy(_), _) => Some(Origin::Session(made.point)),
        (Step::Split(_), Some(Thread::At(point, _))) => Some(Origin::Beside(*point)),
        _ => None,
    }
}

/// Adds the thread that a step begins.
pub(crate) fn add_thread(heads: &mut Vec<Head>, made: Made<'_>) -> Result<(), AllocError> {
    if let Some(origin) = origin_of(made) {
        let alloc = made.setting.alloc;
        heads.push(Head {
            origin,
            role: Vec::new(alloc),
        })?;
    }
    Ok(())
}

/// The row of a step that was made.
pub(crate) fn row_of(legend: &mut Legend, made: Made<'_>, step: u64) -> Result<Row, AllocError>
    ensures { IfOk result (λ row. told_of row ≡ told.Made step) }
{
    let mut text = Text::new(made.setting.alloc);
    put_result(&mut text, legend, made);
    text.put_text(made.ground);
    let text = text.finish()?;
    let conf = made.conf;
    let shape = shape_of(made.step, conf.threads.items.len());
    Ok(Row { step, shape, text })
}
